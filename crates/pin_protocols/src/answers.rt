//! What a host answered.

ghost use Rattle.std.specs.Prelude.{◌≡◌, ◌++◌, ◌∷◌, [], IfErr, IfOk, OnOk, OnErr, option_map};
ghost use Rattle.std.specs.Prelude as list;
ghost use Rattle.pin_protocols.specs.Asks.{Answered, Stops, answer_of, ask_view, asked, entries, is_asked, listed};

use crate::ask::{Ask, Operation, answer_size};
use crate::stop::Stop;
use std::alloc::{AllocError, Global};

/// What a host answered, in the order in which it was asked.
#[derive(Debug, Drop)]
pub struct Answers {
    answers: Vec<(Ask, Vec<u8>)>,
}

impl Answers {
    /// None yet.
    pub fn new(alloc: Global) -> Answers
        ensures { entries result ≡ [] }
    {
        Answers {
            answers: Vec::new(alloc),
        }
    }

    /// Keeps an answer. Of one ask the first that was kept counts.
    pub fn add(&mut self, ask: Ask, answer: Vec<u8>) -> Result<(), AllocError>
        ensures kept { OnOk result (entries self.new ≡ entries self.old ++ ((ask_view ask, answer.items) ∷ [])) }
        ensures unchanged { OnErr result (entries self.new ≡ entries self.old) }
    {
        self.answers.push((ask, answer)).map_err(AllocError::from)
    }
}

/// The first entry of this.
fn first_of<'a>(
    answers: &'a [(Ask, Vec<u8>)],
    operation: Operation,
    key: &[u8],
    iv: &[u8],
    text: &[u8],
) -> Option<&'a (Ask, Vec<u8>)>
    ensures { option_map (λ e. e.now) result
        ≡ list.find (λ e. is_asked (asked operation key.now iv.now text.now) (ask_view e.0)) answers.entry.now }
{
    answers.iter().find(|e| e.0.is(operation, key, iv, text))
}

/// The first answer to this.
fn find<'a>(
    answers: &'a [(Ask, Vec<u8>)],
    operation: Operation,
    key: &[u8],
    iv: &[u8],
    text: &[u8],
) -> Option<&'a Vec<u8>>
    ensures { option_map (λ b. b.now.items) result ≡ answer_of (listed answers.entry.now) (asked operation key.now iv.now text.now) }
{
    match first_of(answers, operation, key, iv, text) {
        Some(entry) => Some(&entry.1),
        None => None,
    }
}

/// The answer to this.
///
/// Stops as [`Stop::Asks`] where there is none, and as [`Stop::BadAnswer`] where it has another size than its operation
/// says.
pub fn answered<'a>(
    alloc: Global,
    answers: &'a Answers,
    operation: Operation,
    key: &[u8],
    iv: &[u8],
    text: &[u8],
) -> Result<&'a [u8], Stop>
    ensures answered { IfOk result (λ b. Answered (entries answers.now) (asked operation key.now iv.now text.now) b.now) }
    ensures stops { IfErr result (Stops (entries answers.now) (λ a. a ≡ asked operation key.now iv.now text.now)) }
{
    let Some(answer) = find(&answers.answers, operation, key, iv, text) else {
        return Err(Stop::Asks(Ask::new(alloc, operation, key, iv, text)?));
    };
    let answer = answer.as_slice();
    if answer.len() != answer_size(operation, text) {
        return Err(Stop::BadAnswer);
    }
    Ok(answer)
}
