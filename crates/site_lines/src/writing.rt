//! Writing an answer.

ghost use Rattle.std.specs.Prelude.{◌≡◌, ◌++◌, ◌∷◌, [], ℕ, IfOk, List, OnOk, codes, string_bytes};
ghost use Rattle.serde_json.specs.Data.{Data, no_members, object};
ghost use Rattle.serde_json.specs.View.{members_view, view};
ghost use Rattle.verification.specs.Numbers.{registration_number, sign_in_number};
ghost use Rattle.json_lines.specs.Written.{IsTextOf};
ghost use Rattle.site_lines.specs.Written.{Writes, answered as answered_of, committed as committed_of, begun as begun_of, by_step, status as status_of, with_count};
ghost use Rattle.site_lines.specs.Private.{IsOther, IsStep, IsText, SaysWhy};

use crate::answer::{Answer, Counts};
use crate::line::Answered;
use crate::tally::Tally;
use crate::values::{registered, rows, signed_in, verify};
use json_lines::{base64_text, number_or_null, write_line};
use serde_json::{Map, Value, json, put};
use site_acts::{creation_options, request_options};
use site_stored::Begun;
use std::alloc::{AllocError, Global};
use std::fmt::Display;
use verification::{RegistrationRefusal, RelyingParty, SignInRefusal};

/// The text of an error.
fn told(alloc: Global, error: &impl Display) -> Result<Value, AllocError>
    ensures { IfOk result (λ v. IsText (view v)) }
{
    Ok(Value::String(format!(in alloc; "{error}")?))
}

/// A step, by number, name and text.
fn step(alloc: Global, letter: &str, number: u8, text: Value) -> Result<Value, AllocError>
    requires { IsText (view text) }
    ensures { IfOk result (λ v. IsStep letter.now number (view v)) }
{
    let name = format!(in alloc; "{letter}{number}")?;
    json!(in alloc; {"number": number, "name": name, "text": text})
}

/// The step of a sign-in.
fn sign_in_step(alloc: Global, why: SignInRefusal) -> Result<Value, AllocError>
    ensures { IfOk result (λ v. IsStep (codes "W") (sign_in_number why) (view v)) }
{
    let text = told(alloc, &why)?;
    step(alloc, "W", why.number(), text)
}

/// The step of a registration.
fn registration_step(alloc: Global, why: RegistrationRefusal) -> Result<Value, AllocError>
    ensures { IfOk result (λ v. IsStep (codes "G") (registration_number why) (view v)) }
{
    let text = told(alloc, &why)?;
    step(alloc, "G", why.number(), text)
}

/// The object of an answer of one member beside the number.
fn answered(alloc: Global, id: Option<u64>, name: &str, value: Value) -> Result<Value, AllocError>
    ensures { IfOk result (λ v. view v ≡ answered_of id name.now (view value)) }
{
    let mut members = Map::new(alloc);
    put(&mut members, alloc, "id", number_or_null(id))?;
    put(&mut members, alloc, name, value)?;
    Ok(Value::Object(members))
}

/// The object of an answer that is committed, with what tells copies that lack the commit.
fn committed(
    alloc: Global,
    id: Option<u64>,
    name: &str,
    value: Value,
    known: u64,
) -> Result<Value, AllocError>
    ensures { IfOk result (λ v. view v ≡ committed_of id name.now (view value) known) }
{
    let mut members = Map::new(alloc);
    put(&mut members, alloc, "id", number_or_null(id))?;
    put(&mut members, alloc, name, value)?;
    put(&mut members, alloc, "known", Value::from(known))?;
    Ok(Value::Object(members))
}

/// The object of an answer that says why.
fn why_value(
    alloc: Global,
    id: Option<u64>,
    name: &str,
    why: &impl Display,
) -> Result<Value, AllocError>
    ensures { IfOk result (λ v. SaysWhy id name.now (view v)) }
{
    let why = told(alloc, why)?;
    answered(alloc, id, name, why)
}

/// Adds the count of a step under the step's name, a letter and the number, where it is above 0.
fn put_count(
    alloc: Global,
    letter: &str,
    number: usize,
    count: u64,
    out: &mut Map<String, Value>,
) -> Result<(), AllocError>
    ensures { OnOk result (members_view out.new.entries ≡ with_count letter.now number count (members_view out.old.entries)) }
{
    if count == 0 {
        return Ok(());
    }
    let name = format!(in alloc; "{letter}{number}")?;
    put(out, alloc, name.as_str(), Value::from(count))
}

/// Counts by the number of a step, of those that are above 0.
#[tactic(auto, using(crate::proofs::Counted::counts_more))]
fn refusals(alloc: Global, letter: &str, counts: &[u64]) -> Result<Value, AllocError>
    ensures { IfOk result (λ v. view v ≡ by_step letter.now counts.now) }
{
    let mut by_name = Map::new(alloc);
    for (number, count) in counts.iter().enumerate() {
        put_count(alloc, letter, number, *count, &mut by_name)?;
    }
    Ok(Value::Object(by_name))
}

/// Adds how the site is, and what has been counted since the start.
fn put_status(
    alloc: Global,
    version: &str,
    tally: &Tally,
    counts: &Counts,
    out: &mut Map<String, Value>,
) -> Result<(), AllocError>
    requires { members_view out.old.entries ≡ no_members }
    ensures { OnOk result (object (members_view out.new.entries) ≡ status_of version.now tally.now counts.now) }
{
    put(out, alloc, "version", Value::try_from_str(alloc, version)?)?;
    put(out, alloc, "credentials", Value::from(counts.credentials))?;
    put(out, alloc, "next_session", Value::from(counts.next_session))?;
    put(out, alloc, "commits", Value::from(tally.commits))?;
    put(
        out,
        alloc,
        "last_commit_microseconds",
        Value::from(tally.last_commit),
    )?;
    put(out, alloc, "sign_ins", Value::from(tally.sign_ins))?;
    put(
        out,
        alloc,
        "registrations",
        Value::from(tally.registrations),
    )?;
    put(
        out,
        alloc,
        "sign_ins_refused",
        refusals(alloc, "W", &tally.sign_in_refusals)?,
    )?;
    put(
        out,
        alloc,
        "registrations_refused",
        refusals(alloc, "G", &tally.registration_refusals)?,
    )?;
    put(
        out,
        alloc,
        "lost_log_lines",
        Value::from(tally.lost_log_lines),
    )
}

/// How the site is.
fn status(alloc: Global, version: &str, tally: &Tally, counts: &Counts) -> Result<Value, AllocError>
    ensures { IfOk result (λ v. view v ≡ status_of version.now tally.now counts.now) }
{
    let mut members = Map::new(alloc);
    put_status(alloc, version, tally, counts, &mut members)?;
    Ok(Value::Object(members))
}

/// What a program tells beside the answers.
#[derive(Clone, Copy, Drop)]
pub struct Teller<'a> {
    /// The relying party.
    pub party: &'a RelyingParty,
    /// Its name, which the page shows.
    pub rp_name: &'a str,
    /// The program's version.
    pub version: &'a str,
    /// What is counted.
    pub tally: &'a Tally,
    /// What tells copies that lack the last commit from the file, as the site's `known` has it.
    pub known: u64,
}

/// The object of an answer to a line that is no ceremony's, or that is refused.
fn other_value(
    alloc: Global,
    teller: &Teller<'_>,
    id: Option<u64>,
    answer: &Answer,
) -> Result<Value, AllocError>
    requires { IsOther answer.now }
    ensures { IfOk result (λ v. Writes teller.now id answer.now (view v)) }
{
    match answer {
        Answer::Retired(was) => committed(alloc, id, "retired", Value::Bool(*was), teller.known),
        Answer::Deleted(was) => committed(alloc, id, "deleted", Value::Bool(*was), teller.known),
        Answer::RetiredAll(count) => {
            committed(alloc, id, "retired_all", Value::from(*count), teller.known)
        }
        Answer::Erased(count) => committed(alloc, id, "erased", Value::from(*count), teller.known),
        Answer::Abandoned(was) => {
            committed(alloc, id, "abandoned", Value::Bool(*was), teller.known)
        }
        Answer::Rows(list, known) => {
            let rows = rows(alloc, list.as_slice(), known.as_slice())?;
            answered(alloc, id, "rows", rows)
        }
        Answer::Status(counts) => {
            let status = status(alloc, teller.version, teller.tally, counts)?;
            committed(alloc, id, "status", status, teller.known)
        }
        Answer::Backup(_) => answered(alloc, id, "backup", Value::Bool(true)),
        Answer::NotBackedUp(why) => {
            let why = Value::try_from_str(alloc, why.as_str())?;
            answered(alloc, id, "error", why)
        }
        Answer::NotBegun(why) => why_value(alloc, id, "error", why),
        Answer::Error(error) => why_value(alloc, id, "error", error),
        Answer::Failed(failure) => why_value(alloc, id, "failed", failure),
        _ => Ok(Value::Null),
    }
}

/// The object of an answer by which a session has begun.
fn begun_value(
    alloc: Global,
    id: Option<u64>,
    begun: &Begun,
    options: Value,
) -> Result<Value, AllocError>
    ensures { IfOk result (λ v. view v ≡ begun_of id begun.now (view options)) }
{
    let (id, number) = (number_or_null(id), begun.session);
    let session = base64_text(alloc, begun.text.as_slice())?;
    json!(in alloc; {"session": session, "number": number, "options": options, "id": id})
}

/// The object of an answer to a ceremony's line.
fn ceremony_value(
    alloc: Global,
    teller: &Teller<'_>,
    id: Option<u64>,
    answer: &Answer,
) -> Result<Value, AllocError>
    ensures { IfOk result (λ v. Writes teller.now id answer.now (view v)) }
{
    let party = teller.party;
    match answer {
        Answer::RegistrationBegun(begun, begin, known) => {
            let (rp_id, rp_name) = (party.rp_id(), teller.rp_name);
            let options = creation_options(alloc, rp_id, rp_name, &begun.challenge, begin, known)?;
            begun_value(alloc, id, begun, options)
        }
        Answer::SignInBegun(begun, begin, known) => {
            let options = request_options(alloc, party.rp_id(), &begun.challenge, begin, known)?;
            begun_value(alloc, id, begun, options)
        }
        Answer::Registered(told) => {
            let row = registered(alloc, told)?;
            committed(alloc, id, "accepted", row, teller.known)
        }
        Answer::SignedIn(who) => {
            let who = signed_in(alloc, who)?;
            committed(alloc, id, "accepted", who, teller.known)
        }
        Answer::Verify(asked) => {
            let asked = verify(alloc, asked)?;
            answered(alloc, id, "verify", asked)
        }
        Answer::RegistrationRefused(step, _) => {
            let step = registration_step(alloc, *step)?;
            answered(alloc, id, "refused", step)
        }
        Answer::SignInRefused(step, _) => {
            let step = sign_in_step(alloc, *step)?;
            answered(alloc, id, "refused", step)
        }
        _ => other_value(alloc, teller, id, answer),
    }
}

/// Appends an answer as one line, with its end. Its `id` is null where the line has no number.
#[tactic(auto, using(crate::proofs::Shallow::shallow))]
pub fn write_answer(
    alloc: Global,
    teller: &Teller<'_>,
    answered: &Answered,
    out: &mut String,
) -> Result<(), AllocError>
    // The text is that of the answer and of nothing else, and it ends in a line feed.
    ensures written { OnOk result ((d : Data) × (text : List ℕ) × Writes teller.now answered.now.id answered.now.answer d × IsTextOf d text
        × (string_bytes out.new ≡ string_bytes out.old ++ text ++ 10 ∷ [])) }
{
    let value = ceremony_value(alloc, teller, answered.id, &answered.answer)?;
    write_line(alloc, &value, out)
}
