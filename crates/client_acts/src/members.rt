//! Members of a JSON object, as options have them.

ghost use Rattle.std.specs.Prelude.{◌≡◌, IfErr, IfOk, Some, option_map, string_bytes};
ghost use Rattle.serde_json.specs.View.{view};
ghost use Rattle.json_lines.specs.Members.{HasBytes, HasText, MayHaveText, member as member_of};
ghost use Rattle.json_lines.specs.Faults.{IsAmiss, IsIllFormed, IsText};
ghost use Rattle.client_acts.specs.Faults.{IsObject, OfSized};

use json_lines::{LineError, bytes, member, needed, optional_text, text};
use serde_json::Value;
use std::alloc::Global;

/// A member that is an object.
pub(crate) fn object<'a>(line: &'a Value, name: &'static str) -> Result<&'a Value, LineError>
    ensures found { IfOk result (λ m. member_of name.now (view line.now) ≡ Some (view m.now)) }
    ensures amiss { IfErr result (IsAmiss name.now IsObject (view line.now)) }
{
    let value = needed(line, name)?;
    if !value.is_object() {
        return Err(LineError::BadForm(name));
    }
    Ok(value)
}

/// A member that is an object, where it is there.
pub(crate) fn optional_object<'a>(
    line: &'a Value,
    name: &'static str,
) -> Result<Option<&'a Value>, LineError>
    ensures { IfErr result (IsIllFormed name.now IsObject (view line.now)) }
{
    match member(line, name) {
        Some(value) if value.is_object() => Ok(Some(value)),
        Some(_) => Err(LineError::BadForm(name)),
        None => Ok(None),
    }
}

/// A member that is a text, in memory of its own.
pub(crate) fn owned_text(
    alloc: Global,
    line: &Value,
    name: &'static str,
) -> Result<String, LineError>
    ensures found { IfOk result (λ t. HasText name.now (view line.now) (string_bytes t)) }
    ensures amiss { IfErr result (IsAmiss name.now IsText (view line.now)) }
{
    Ok(String::from_str(alloc, text(line, name)?)?)
}

/// The same, where it is there.
pub(crate) fn optional_owned_text(
    alloc: Global,
    object: &Value,
    name: &'static str,
) -> Result<Option<String>, LineError>
    ensures found { IfOk result (λ text. MayHaveText name.now (view object.now) (option_map string_bytes text)) }
    ensures amiss { IfErr result (IsIllFormed name.now IsText (view object.now)) }
{
    match optional_text(object, name) {
        Ok(Some(text)) => Ok(Some(String::from_str(alloc, text)?)),
        Ok(None) => Ok(None),
        Err(error) => Err(error),
    }
}

/// The bytes of a member, of which there are just so many.
pub(crate) fn sized_bytes<const N: usize>(
    alloc: Global,
    object: &Value,
    name: &'static str,
) -> Result<[u8; N], LineError>
    ensures found { IfOk result (λ bytes. HasBytes name.now (view object.now) bytes) }
    ensures amiss { IfErr result (OfSized name.now N (view object.now)) }
{
    let bytes = bytes(alloc, object, name)?;
    match <[u8; N]>::try_from(bytes.as_slice()) {
        Ok(sized) => Ok(sized),
        Err(_) => Err(LineError::BadForm(name)),
    }
}
