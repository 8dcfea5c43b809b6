//! The values inside maps and arrays. Those of another kind or size are [`Shape`].

ghost use Rattle.std.specs.Prelude.{◌≡◌, nat_lt, is_some, option_map, string_bytes};
ghost use Rattle.ccbor.specs.Item.{text};
ghost use Rattle.ccbor.specs.Access.{bytes_in, text_in, bool_in, pairs_in, is_same_key};
ghost use Rattle.ccbor.specs.Viewing.{shown};
ghost use Rattle.ctap_encoding.specs.Reading.{Gives, Yields, checked, is_within, maybe, number_in, read_in};
ghost use Rattle.ctap_encoding.specs.Table.{size_of, unsigned};

use crate::map_error::{MapError, Shape};
use ccbor::{MapKey, View};
use std::alloc::Global;

/// The bytes of a string, or the items of an array.
fn size_of(value: &View<'_>) -> u64
    ensures { result ≡ size_of (shown value.now) }
{
    if let Some(content) = value.as_bytes() {
        return content.len() as u64;
    }
    if let Some(text) = value.as_text() {
        return text.len() as u64;
    }
    match value.as_array() {
        Some(_) => value.len() as u64,
        None => 0,
    }
}

/// Refused as [`Shape`] unless the value has this many bytes or items, from low to high.
pub fn sized(value: &View<'_>, low: u64, high: u64) -> Result<(), Shape>
    ensures { Yields (λ u. u) result (checked (is_within low high (shown value.now))) }
{
    let size = size_of(value);
    if low <= size && size <= high {
        Ok(())
    } else {
        Err(Shape)
    }
}

/// Refused as [`Shape`] if the value has no byte and no item.
pub fn not_empty(value: &View<'_>) -> Result<(), Shape>
    ensures { Yields (λ u. u) result (checked (nat_lt 0 (size_of (shown value.now)))) }
{
    if 0 < size_of(value) {
        Ok(())
    } else {
        Err(Shape)
    }
}

/// Refused as [`Shape`] unless the value is this text.
pub fn that_text(value: &View<'_>, content: &str) -> Result<(), Shape>
    ensures { Yields (λ u. u) result (checked (is_same_key (shown value.now) (text content.now))) }
{
    if value.is_key(MapKey::Text(content)) {
        Ok(())
    } else {
        Err(Shape)
    }
}

/// The number.
pub fn number(value: &View<'_>) -> Result<i128, Shape>
    ensures { Yields (λ n. n) result (number_in (shown value.now)) }
{
    if let Some(n) = value.as_uint() {
        return Ok(i128::from(n));
    }
    match value.as_nint() {
        Some(n) => Ok(-1 - i128::from(n)),
        None => Err(Shape),
    }
}

/// The unsigned number, at least this one.
pub fn unsigned(value: &View<'_>, low: u64) -> Result<u64, Shape>
    ensures { Yields (λ n. n) result (read_in (unsigned low) (shown value.now)) }
{
    match value.as_uint() {
        Some(n) if low <= n => Ok(n),
        _ => Err(Shape),
    }
}

/// Refused as [`Shape`] unless the value is a map.
pub fn any_map(value: &View<'_>) -> Result<(), Shape>
    ensures { Yields (λ u. u) result (checked (is_some (pairs_in (shown value.now)))) }
{
    match value.as_map() {
        Some(_) => Ok(()),
        None => Err(Shape),
    }
}

/// The truth value.
pub fn truth(value: &View<'_>) -> Result<bool, Shape>
    ensures { Yields (λ b. b) result (bool_in (shown value.now)) }
{
    match value.as_bool() {
        Some(truth) => Ok(truth),
        None => Err(Shape),
    }
}

/// A truth value that may be absent.
pub fn truth_if_there(held: Option<View<'_>>) -> Result<Option<bool>, Shape>
    ensures { Yields (λ b. b) result (maybe bool_in (option_map shown held.entry)) }
{
    match held {
        Some(value) => Ok(Some(truth(&value)?)),
        None => Ok(None),
    }
}

/// The bytes, where they lie.
pub fn bytes<'a>(value: &View<'a>) -> Result<&'a [u8], Shape>
    ensures { Yields (λ b. b.now) result (bytes_in (shown value.now)) }
{
    match value.as_bytes() {
        Some(content) => Ok(content),
        None => Err(Shape),
    }
}

/// The text, copied out; or that memory ran out.
pub fn text(alloc: Global, value: &View<'_>) -> Result<String, MapError>
    ensures { Gives (λ s. string_bytes s) result (text_in (shown value.now)) }
{
    match value.as_text() {
        Some(content) => Ok(String::from_str(alloc, content)?),
        None => Err(MapError::Shape),
    }
}
