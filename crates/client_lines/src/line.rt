//! From a line to its answer.

ghost use Rattle.std.specs.Prelude.{ℕ, IfOk, Option, Result, string_bytes};
ghost use Rattle.client_lines.specs.Acts.{Answers, IsWritten};
ghost use Rattle.client_lines.specs.Private.{IsCarriedOut};
ghost use Rattle.client_lines.specs.declared.answer.Told.{Told};
ghost use Rattle.client_lines.specs.declared.fault.Fault.{Fault as Cause};

use crate::answer::Told;
use crate::fault::Fault;
use crate::machine::Client;
use crate::writing::write_answer;
use client_acts::{Line, read_line};
use std::alloc::{AllocError, Global};

/// What a line is answered.
#[derive(Debug, Drop)]
pub(crate) struct Answered {
    /// The line's number; nothing where it can't be read.
    pub id: Option<u64>,
    /// What is answered, or why the line had no effect.
    pub told: Result<Told, Fault>,
}

/// Carries out what a line that was read asks for.
fn carried_out(alloc: Global, client: &mut Client, line: Line) -> Answered
    ensures { IsCarriedOut client.old line result.id result.told client.new }
{
    let id = Some(line.id);
    match client.carry_out(alloc, line.act) {
        Ok(told) => Answered { id, told: Ok(told) },
        Err(why) => Answered {
            id,
            told: Err(Fault::Act(why)),
        },
    }
}

/// Carries out a line.
fn carry_out(alloc: Global, client: &mut Client, line: &[u8]) -> Answered
    ensures { Answers client.old line.now result.id result.told client.new }
{
    match read_line(alloc, line) {
        Ok(line) => carried_out(alloc, client, line),
        Err(fault) => Answered {
            id: fault.id,
            told: Err(Fault::Line(fault.error)),
        },
    }
}

/// Answers a line, of which its end is no part, by one line, with its end. Its `id` is null where the line that it answers has no
/// number that can be read.
pub fn answer_line(alloc: Global, client: &mut Client, line: &[u8]) -> Result<String, AllocError>
    // What is answered is what is done of the act; and an error changes nothing. The text is that of what is answered and of nothing
    // else, with the line's number, and it ends in a line feed.
    ensures { (id : Option ℕ) × (told : Result Told Cause) × Answers client.old line.now id told client.new
        × IfOk result (λ text. IsWritten client.new id told (string_bytes text)) }
{
    let answered = carry_out(alloc, client, line);
    let mut out = String::new(alloc);
    write_answer(alloc, client.asked(), answered, &mut out)?;
    Ok(out)
}
