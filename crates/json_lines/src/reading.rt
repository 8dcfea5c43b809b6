//! Reading a line.

ghost use Rattle.std.specs.Prelude.{IfErr, IfOk, codes};
ghost use Rattle.serde_json.specs.View.{view};
ghost use Rattle.json_lines.specs.Lines.{IsLine, IsNotRead, IsUnread};
ghost use Rattle.json_lines.specs.Members.{HasNumber};

use crate::error::{LineError, LineFault};
use crate::line_id::id_of;
use crate::members::number;
use crate::nesting::nests_within;
use serde_json::Value;
use std::alloc::Global;

/// The most bytes of a line.
pub const MAX_LINE: usize = 65_536;

/// A line that is read.
#[derive(Debug, Drop)]
pub struct Numbered {
    /// The number that the answer repeats.
    pub id: u64,
    /// The object that the line is.
    pub object: Value,
}

/// The object that a line is.
fn object_of(alloc: Global, line: &[u8]) -> Result<Value, LineError>
    ensures found { IfOk result (λ d. IsLine line.now (view d)) }
    ensures unread { IfErr result (IsUnread line.now) }
{
    if line.len() > MAX_LINE {
        return Err(LineError::TooLong);
    }
    let Ok(text) = str::from_utf8(line) else {
        return Err(LineError::NotUtf8);
    };
    if !nests_within(line) {
        return Err(LineError::TooDeep);
    }
    match Value::from_str(alloc, text) {
        Ok(value) if value.is_object() => Ok(value),
        Err(error) if error.is_memory() => Err(LineError::Memory),
        _ => Err(LineError::NotAnObject),
    }
}

/// Reads a line: at most `MAX_LINE` bytes of UTF-8, a JSON object that nests at most `MAX_NESTING` deep, with a number `id`. Of
/// members with one name the last stands.
///
/// Of a line that is refused the number is answered too, where it can be read: of one that is no such object, by what stands
/// before the first `MAX_LINE` + 1 bytes end.
pub fn read_object(alloc: Global, line: &[u8]) -> Result<Numbered, LineFault>
    // What is read is the line's object, and its number.
    ensures found { IfOk result (λ read. IsLine line.now (view read.object) × HasNumber (codes "id") (view read.object) read.id) }
    // What is not read is no such object, for the cause that is named, or has no number.
    ensures unread { IfErr result (λ fault. IsNotRead line.now fault.id fault.error) }
{
    let object = match object_of(alloc, line) {
        Ok(object) => object,
        Err(error) => {
            return Err(LineFault {
                id: id_of(line),
                error,
            });
        }
    };
    match number(&object, "id") {
        Ok(id) => Ok(Numbered { id, object }),
        Err(_) => Err(LineFault {
            id: None,
            error: LineError::BadId,
        }),
    }
}
