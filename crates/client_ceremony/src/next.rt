//! The next step.

ghost use Rattle.std.specs.Prelude.{IfErr, IfOk};
ghost use Rattle.client_ceremony.specs.Ceremonies.{HaltsAt, IsNext, IsRefusal};
ghost use Rattle.client_ceremony.specs.Facts.{facts};
ghost use Rattle.client_ceremony.specs.Pieces.{OrMemory};

use crate::assertions::sign_in;
use crate::commands::registration;
use crate::halt::Halt;
use crate::pin_setting::{another_pin, first_pin};
use crate::refusal::Refusal;
use crate::replies::information;
use crate::step::Step;
use crate::wish::{Known, Wish};
use std::alloc::Global;

/// Where the ceremony halts.
fn ceremony<'a>(alloc: Global, wish: &Wish<'a>, known: &Known<'a>) -> Halt<'a>
    ensures { OrMemory (HaltsAt wish.now (facts known.now)) result }
{
    let info = match information(alloc, known) {
        Ok(info) => info,
        Err(halt) => return halt,
    };
    match wish {
        Wish::Creates(creating) => registration(alloc, known, &info, creating),
        Wish::Asserts(asserting) => sign_in(alloc, known, &info, asserting),
        Wish::SetsPin(new_pin) => first_pin(alloc, known, &info, new_pin),
        Wish::ChangesPin(new_pin) => another_pin(alloc, known, &info, new_pin),
    }
}

/// The next step of a ceremony, by what is known. It is called with no reply first, and again with each reply to a
/// message that it had sent, with the PIN, with each answer of the host, and with the choice. What was known stays
/// known: only a PIN that the key refused is forgotten, with the answers, and all replies but getInfo's.
///
/// In order: getInfo; of a registration or a sign-in the user's verification, the command and what follows it; of a
/// new PIN the key agreement and the request that sets it. To change a PIN, getPINRetries and the old one come first.
pub fn next_step<'a>(alloc: Global, wish: &Wish<'a>, known: &Known<'a>) -> Result<Step<'a>, Refusal>
    ensures step { IfOk result (IsNext wish.now (facts known.now)) }
    ensures refused { IfErr result (IsRefusal wish.now (facts known.now)) }
{
    match ceremony(alloc, wish, known) {
        Halt::Steps(sent, step) => {
            if sent < known.replies.len() {
                return Err(Refusal::TooManyReplies);
            }
            Ok(step)
        }
        Halt::Refuses(refusal) => Err(refusal),
    }
}
