//! Reading a line.

ghost use Rattle.std.specs.Prelude.{IfErr, IfOk, codes};
ghost use Rattle.serde_json.specs.View.{view};
ghost use Rattle.json_lines.specs.Members.{HasText};
ghost use Rattle.client_acts.specs.Faults.{IsRefused, IsRefusedIn, OfAct, OfBegin};
ghost use Rattle.client_acts.specs.Kinds.{kind_name};
ghost use Rattle.client_acts.specs.Lines.{Reads, SaysAct, SaysAim};

use crate::act::{Act, Aim, Begin, Further};
use crate::acts::{Kind, kind_named, names_of};
use crate::members::{owned_text, sized_bytes};
use crate::options::{creation_options, request_options};
use hidframe::Packet;
use json_lines::{
    LineError, LineFault, Numbered, bytes, check_names, flag, number, read_object, text,
};
use serde_json::Value;
use std::alloc::Global;

/// What a line says.
#[derive(Debug, Drop)]
pub struct Line {
    /// The number that the answer repeats.
    pub id: u64,
    /// What it asks for.
    pub act: Act,
}

/// An act that is to begin.
fn begin(alloc: Global, aim: Aim, line: &Value) -> Result<Act, LineError>
    requires { SaysAim (view line.now) aim }
    ensures found { IfOk result (SaysAct (view line.now)) }
    ensures amiss { IfErr result (OfBegin (view line.now)) }
{
    Ok(Act::Begin(Begin {
        aim,
        nonce: sized_bytes(alloc, line, "nonce")?,
        built_in: flag(line, "built_in", true)?,
    }))
}

/// The act of this kind.
fn act_of(alloc: Global, kind: Kind, line: &Value) -> Result<Act, LineError>
    requires { HasText (codes "act") (view line.now) (kind_name kind) }
    ensures found { IfOk result (SaysAct (view line.now)) }
    ensures amiss { IfErr result (OfAct kind (view line.now)) }
{
    match kind {
        Kind::Register => begin(alloc, Aim::Register(creation_options(alloc, line)?), line),
        Kind::SignIn => begin(alloc, Aim::SignIn(request_options(alloc, line)?), line),
        Kind::Information => begin(alloc, Aim::Inform, line),
        Kind::SetPin => begin(
            alloc,
            Aim::SetPin(owned_text(alloc, line, "new_pin")?),
            line,
        ),
        Kind::ChangePin => begin(
            alloc,
            Aim::ChangePin(owned_text(alloc, line, "new_pin")?),
            line,
        ),
        Kind::Packet => {
            let packet = Packet(sized_bytes(alloc, line, "packet")?);
            Ok(Act::Further(Further::Packet(packet)))
        }
        Kind::Pin => Ok(Act::Further(Further::Pin(owned_text(alloc, line, "pin")?))),
        Kind::Computed => Ok(Act::Further(Further::Computed(bytes(alloc, line, "bytes")?))),
        Kind::Choose => Ok(Act::Further(Further::Choose(number(line, "number")?))),
        Kind::Cancel => Ok(Act::Further(Further::Cancel)),
    }
}

/// What a line's object asks for.
fn act_in(alloc: Global, line: &Value) -> Result<Act, LineError>
    ensures found { IfOk result (SaysAct (view line.now)) }
    ensures amiss { IfErr result (IsRefusedIn (view line.now)) }
{
    let Some(kind) = kind_named(text(line, "act")?) else {
        return Err(LineError::UnknownAct);
    };
    check_names(names_of(kind), line)?;
    act_of(alloc, kind, line)
}

/// Reads a line: an object with a number, the name of an `act`, and the members that the act takes. Of a line that is not read
/// the number is answered too, where it can be read.
pub fn read_line(alloc: Global, line: &[u8]) -> Result<Line, LineFault>
    // What is read is what the line says,
    ensures found { IfOk result (λ l. Reads line.now l.id l.act) }
    // and what is not read is refused for the cause that is named, with its number where it has one.
    ensures refused { IfErr result (λ fault. IsRefused line.now fault.id fault.error) }
{
    let Numbered { id, object } = read_object(alloc, line)?;
    match act_in(alloc, &object) {
        Ok(act) => Ok(Line { id, act }),
        Err(error) => Err(LineFault {
            id: Some(id),
            error,
        }),
    }
}
