//! Members of a JSON object.

ghost use Rattle.std.specs.Prelude.{◌≡◌, ◌⊎◌, ℕ, IfErr, IfOk, OnErr, None, Some, map, option_map};
ghost use Rattle.std.specs.List.{AllByRecursion};
ghost use Rattle.serde_json.specs.Find.{as_str};
ghost use Rattle.base64.specs.GeneralPurpose.{encode_of};
ghost use Rattle.base64.specs.Engines.{url_safe_no_pad};
ghost use Rattle.serde_json.specs.View.{view};
ghost use Rattle.json_lines.specs.Members.{HasBytes, HasFlag, HasList, HasNumber, HasText, IsBase64url, MayHaveBytes, MayHaveText, member as member_of};
ghost use Rattle.json_lines.specs.Faults.{AreBytes, AreItems, HasItems, IsAmiss, IsFlag, IsIllFormed, IsNoList, IsNumber, IsRefusedAs, IsText};
ghost use Rattle.json_lines.specs.declared.error.LineError.TheVariants as errors;

use crate::error::LineError;
use base64::DecodeAllocError;
use base64::engine::general_purpose::URL_SAFE_NO_PAD;
use serde_json::Value;
use std::alloc::Global;

/// The member of a name; nothing where it is absent or null.
pub fn member<'a>(object: &'a Value, name: &str) -> Option<&'a Value>
    ensures { option_map (λ m. view m.now) result ≡ member_of name.now (view object.now) }
{
    let value = object.get(name)?;
    if value.is_null() { None } else { Some(value) }
}

/// The member of a name.
pub fn needed<'a>(object: &'a Value, name: &'static str) -> Result<&'a Value, LineError>
    ensures found { IfOk result (λ m. member_of name.now (view object.now) ≡ Some (view m.now)) }
    ensures missing { IfErr result (λ e. (e ≡ errors.Missing name.entry) × (member_of name.now (view object.now) ≡ None)) }
{
    match member(object, name) {
        Some(value) => Ok(value),
        None => Err(LineError::Missing(name)),
    }
}

/// The bytes of a text in base64url without padding.
pub fn decoded(alloc: Global, value: &Value, name: &'static str) -> Result<Vec<u8>, LineError>
    ensures found { IfOk result (λ bytes. IsBase64url (view value.now) bytes.items) }
    ensures refused { IfErr result (IsRefusedAs name.entry (AreBytes (view value.now))) }
{
    let Some(text) = value.as_str() else {
        return Err(LineError::BadForm(name));
    };
    match URL_SAFE_NO_PAD.decode(alloc, text.as_bytes()) {
        Ok(bytes) => Ok(bytes),
        Err(DecodeAllocError::OutOfMemory) => Err(LineError::Memory),
        Err(_) => Err(LineError::BadForm(name)),
    }
}

/// The bytes of a member.
pub fn bytes(alloc: Global, object: &Value, name: &'static str) -> Result<Vec<u8>, LineError>
    ensures found { IfOk result (λ bytes. HasBytes name.now (view object.now) bytes.items) }
    ensures amiss { IfErr result (IsAmiss name.now AreBytes (view object.now)) }
{
    decoded(alloc, needed(object, name)?, name)
}

/// The bytes of a member, where it is there.
pub fn optional_bytes(
    alloc: Global,
    object: &Value,
    name: &'static str,
) -> Result<Option<Vec<u8>>, LineError>
    ensures found { IfOk result (λ found. MayHaveBytes name.now (view object.now) (option_map (λ bytes. bytes.items) found)) }
    ensures amiss { IfErr result (IsIllFormed name.now AreBytes (view object.now)) }
{
    match member(object, name) {
        Some(value) => Ok(Some(decoded(alloc, value, name)?)),
        None => Ok(None),
    }
}

/// The items of a member that is a list; none where it is absent.
pub fn items<'a>(object: &'a Value, name: &'static str) -> Result<&'a [Value], LineError>
    ensures found { IfOk result (λ items. AreItems name.now (view object.now) items.now) }
    ensures amiss { IfErr result (IsNoList name.entry (view object.now)) }
{
    match member(object, name) {
        Some(value) => match value.as_array() {
            Some(items) => Ok(items.as_slice()),
            None => Err(LineError::BadForm(name)),
        },
        None => Ok(&[]),
    }
}

/// The bytes of each value.
fn bytes_of(alloc: Global, items: &[Value], name: &'static str) -> Result<Vec<Vec<u8>>, LineError>
    ensures found { IfOk result (λ list. map (λ value. as_str (view value)) items.now ≡ map (λ bytes. Some (encode_of url_safe_no_pad bytes.items)) list.items) }
    ensures refused { IfErr result (IsRefusedAs name.entry (AllByRecursion AreBytes (map view items.now))) }
{
    let mut list = Vec::with_capacity(alloc, items.len())?;
    for item in items {
        list.push(decoded(alloc, item, name)?)?;
    }
    Ok(list)
}

/// The bytes of each item of a list.
pub fn list_of_bytes(
    alloc: Global,
    object: &Value,
    name: &'static str,
) -> Result<Vec<Vec<u8>>, LineError>
    ensures found { IfOk result (λ list. HasList name.now (view object.now) (map (λ bytes. bytes.items) list.items)) }
    ensures amiss { IfErr result (IsIllFormed name.now (HasItems AreBytes) (view object.now)) }
{
    let items = items(object, name)?;
    let list = bytes_of(alloc, items, name)?;
    Ok(list)
}

/// A member that is true or false, with its value where it is absent.
pub fn flag(object: &Value, name: &'static str, absent: bool) -> Result<bool, LineError>
    ensures found { IfOk result (HasFlag name.now (view object.now) absent) }
    ensures amiss { IfErr result (IsIllFormed name.now IsFlag (view object.now)) }
{
    match member(object, name) {
        Some(value) => match value.as_bool() {
            Some(flag) => Ok(flag),
            None => Err(LineError::BadForm(name)),
        },
        None => Ok(absent),
    }
}

/// A member that is a number from 0 to 2^64 - 1.
pub fn number(object: &Value, name: &'static str) -> Result<u64, LineError>
    ensures found { IfOk result (HasNumber name.now (view object.now)) }
    ensures amiss { IfErr result (IsAmiss name.now IsNumber (view object.now)) }
    ensures none { OnErr result ((n : ℕ) → HasNumber name.now (view object.now) n → ⊥) }
{
    match needed(object, name)?.as_u64() {
        Some(number) => Ok(number),
        None => Err(LineError::BadForm(name)),
    }
}

/// A member that is a text.
pub fn text<'a>(object: &'a Value, name: &'static str) -> Result<&'a str, LineError>
    ensures found { IfOk result (λ text. HasText name.now (view object.now) text.now) }
    ensures amiss { IfErr result (IsAmiss name.now IsText (view object.now)) }
{
    match needed(object, name)?.as_str() {
        Some(text) => Ok(text),
        None => Err(LineError::BadForm(name)),
    }
}

/// A member that is a text, where it is there.
pub fn optional_text<'a>(
    object: &'a Value,
    name: &'static str,
) -> Result<Option<&'a str>, LineError>
    ensures found { IfOk result (λ found. MayHaveText name.now (view object.now) (option_map (λ text. text.now) found)) }
    ensures amiss { IfErr result (IsIllFormed name.now IsText (view object.now)) }
{
    match member(object, name) {
        Some(value) => match value.as_str() {
            Some(text) => Ok(Some(text)),
            None => Err(LineError::BadForm(name)),
        },
        None => Ok(None),
    }
}

/// A member that is a text, or this where it is absent.
pub fn text_or<'a>(
    object: &'a Value,
    name: &'static str,
    absent: &'a str,
) -> Result<&'a str, LineError>
    ensures found { IfOk result (λ text. HasText name.now (view object.now) text.now ⊎ ((member_of name.now (view object.now) ≡ None) × (text.now ≡ absent.now))) }
    ensures amiss { IfErr result (IsIllFormed name.now IsText (view object.now)) }
{
    match member(object, name) {
        Some(value) => match value.as_str() {
            Some(text) => Ok(text),
            None => Err(LineError::BadForm(name)),
        },
        None => Ok(absent),
    }
}
