//! What is logged of an answer.

use crate::answer::Answer;
use crate::line::Answered;
use base64::engine::general_purpose::URL_SAFE_NO_PAD;
use std::alloc::{AllocError, Global};
use std::fmt::Write;

/// What is logged.
#[derive(Clone, Copy, Debug, PartialEq, Eq, Drop)]
pub enum Logged {
    /// Refusals, failures, and sessions that don't begin, and backups that fail.
    Refusals,
    /// Acceptances and each other error too.
    All,
}

/// The most bytes of a credential id that are logged.
const MOST_OF_AN_ID: usize = 384;

/// Appends a word, and a number after it, or `-` where there is none.
fn named(out: &mut String, word: &str, number: Option<u64>) -> Result<(), AllocError> {
    match number {
        Some(number) => write!(out, " {word} {number}"),
        None => write!(out, " {word} -"),
    }
}

/// Appends a credential id in base64url; a long one is cut, and ends in two dots.
fn credential(alloc: Global, id: &[u8], out: &mut String) -> Result<(), AllocError> {
    let (shown, rest) = match id.split_at_checked(MOST_OF_AN_ID) {
        Some((front, _)) if MOST_OF_AN_ID < id.len() => (front, ".."),
        _ => (id, ""),
    };
    let text = URL_SAFE_NO_PAD.encode(alloc, shown)?;
    write!(out, " credential {text}{rest}")
}

/// Appends what a ceremony's answer says of its credential: the step that refuses it, or that it is accepted.
fn verdict(alloc: Global, answer: &Answer, out: &mut String) -> Result<(), AllocError> {
    match answer {
        Answer::SignInRefused(step, id) => {
            let number = step.number();
            write!(out, " sign-in refused W{number}")?;
            credential(alloc, id.as_slice(), out)?;
            writeln!(out, ": {step}")
        }
        Answer::RegistrationRefused(step, id) => {
            let number = step.number();
            write!(out, " registration refused G{number}")?;
            credential(alloc, id.as_slice(), out)?;
            writeln!(out, ": {step}")
        }
        Answer::SignedIn(who) => {
            write!(out, " sign-in accepted")?;
            credential(alloc, who.credential.as_slice(), out)?;
            writeln!(out)
        }
        Answer::Registered(registered) => {
            write!(out, " registration accepted")?;
            credential(alloc, registered.credential.id.as_slice(), out)?;
            writeln!(out)
        }
        Answer::Failed(failure) => writeln!(out, " failed: {failure}"),
        Answer::NotBackedUp(why) => writeln!(out, " error: {why}"),
        Answer::NotBegun(why) => writeln!(out, " error: {why}"),
        Answer::Error(error) => writeln!(out, " error: {error}"),
        _ => writeln!(out),
    }
}

/// Whether an answer is logged.
fn is_logged(which: Logged, answer: &Answer) -> bool {
    match answer {
        Answer::SignInRefused(..) | Answer::RegistrationRefused(..) | Answer::Failed(_) => true,
        Answer::NotBegun(_) | Answer::NotBackedUp(_) => true,
        Answer::SignedIn(..) | Answer::Registered(..) | Answer::Error(_) => which == Logged::All,
        _ => false,
    }
}

/// Appends the line of the log of an answer at this second, where it has one: the second, the numbers of its line and its
/// session, and what was refused or accepted, by the step's name and text and the credential id that the client names. It
/// has at most 1,000 bytes, and no challenge, no signature and no user.
pub fn log_line(
    alloc: Global,
    which: Logged,
    now: u64,
    answered: &Answered,
    out: &mut String,
) -> Result<(), AllocError> {
    if !is_logged(which, &answered.answer) {
        return Ok(());
    }
    write!(out, "{now}")?;
    named(out, "line", answered.id)?;
    named(out, "session", answered.session)?;
    verdict(alloc, &answered.answer, out)
}
