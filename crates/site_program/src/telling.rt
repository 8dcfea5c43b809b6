//! What is answered of answers.

ghost use Rattle.std.specs.Prelude.{ℕ, List, IfOk, OnOk, string_bytes};
ghost use Rattle.std.specs.Io.KnownBytes.{Appends};
ghost use Rattle.site_program.specs.Told.{AreLinesOf};

use site_lines::{Answered, Teller, write_answer};
use std::alloc::{AllocError, Global};
use std::io::{self, Write};

/// The lines of answers, in their order.
fn lines_of(alloc: Global, teller: &Teller<'_>, answers: &[Answered]) -> Result<String, AllocError>
    ensures { IfOk result (λ text. AreLinesOf teller.now answers.now (string_bytes text)) }
{
    let mut text = String::new(alloc);
    for answered in answers {
        write_answer(alloc, teller, answered, &mut text)?;
    }
    Ok(text)
}

/// Tells answers, at once.
pub(crate) fn tell<W: Write>(
    alloc: Global,
    out: &mut W,
    teller: &Teller<'_>,
    answers: &[Answered],
) -> io::Result<()>
    // What is written are the lines of these answers, each, in order, and nothing else.
    ensures { OnOk result ((bytes : List ℕ) × AreLinesOf teller.now answers.now bytes × Appends (W.contents out.old) (W.contents out.new) bytes) }
{
    let text = lines_of(alloc, teller, answers)?;
    out.write_all(text.as_bytes())?;
    out.flush()
}
