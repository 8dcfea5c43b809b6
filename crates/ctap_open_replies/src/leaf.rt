//! The members of a map by their keys, whatever other members it has. Those of another kind or size are [`Shape`].

ghost use Rattle.std.specs.Prelude.{◌≡◌, option_map};
ghost use Rattle.ccbor.specs.Access.{bool_in, bytes_in, key_item, member, text_in};
ghost use Rattle.ccbor.specs.Viewing.{shown};
ghost use Rattle.ctap_encoding.specs.Reading.{Yields, maybe, number_in, read_in};
ghost use Rattle.ctap_encoding.specs.Table.{any_map, sized, some_bytes, that_text, unsigned};
ghost use Rattle.ctap_encoding.specs.declared.fault.Fault.TheVariants as faults;
ghost use Rattle.ctap_open_replies.specs.Reading.{held_in, open_in};

use ccbor::{MapKey, View};
use ctap_encoding::{Shape, any_map, bytes, number, sized, that_text, truth, unsigned};

/// The value at a key, which must be there.
pub fn value_at<'a>(value: &View<'a>, key: MapKey<'_>) -> Result<View<'a>, Shape>
    ensures { Yields (λ v. shown v) result (member (key_item key.entry) (shown value.now)) }
{
    match value.get(key) {
        Some(held) => Ok(held),
        None => Err(Shape),
    }
}

/// A text, where it lies.
pub fn text<'a>(value: &View<'a>) -> Result<&'a str, Shape>
    ensures { Yields (λ s. s.now) result (text_in (shown value.now)) }
{
    match value.as_text() {
        Some(content) => Ok(content),
        None => Err(Shape),
    }
}

/// The text at a key.
pub fn text_at<'a>(value: &View<'a>, key: MapKey<'_>) -> Result<&'a str, Shape>
    ensures { Yields (λ s. s.now) result (held_in text_in (member (key_item key.entry) (shown value.now))) }
{
    text(&value_at(value, key)?)
}

/// The bytes at a key.
pub fn bytes_at<'a>(value: &View<'a>, key: MapKey<'_>) -> Result<&'a [u8], Shape>
    ensures { Yields (λ b. b.now) result (held_in bytes_in (member (key_item key.entry) (shown value.now))) }
{
    bytes(&value_at(value, key)?)
}

/// Bytes of a size from low to high.
fn sized_bytes<'a>(value: &View<'a>, low: u64, high: u64) -> Result<&'a [u8], Shape>
    ensures { Yields (λ b. b.now) result (open_in (sized low high faults.OverLimit some_bytes) (shown value.now)) }
{
    sized(value, low, high)?;
    bytes(value)
}

/// The bytes at a key, of a size from low to high.
pub fn sized_bytes_at<'a>(
    value: &View<'a>,
    key: MapKey<'_>,
    low: u64,
    high: u64,
) -> Result<&'a [u8], Shape>
    ensures { Yields (λ b. b.now) result
        (held_in (open_in (sized low high faults.OverLimit some_bytes)) (member (key_item key.entry) (shown value.now))) }
{
    sized_bytes(&value_at(value, key)?, low, high)
}

/// The number at a key.
pub fn number_at(value: &View<'_>, key: MapKey<'_>) -> Result<i128, Shape>
    ensures { Yields (λ n. n) result (held_in number_in (member (key_item key.entry) (shown value.now))) }
{
    number(&value_at(value, key)?)
}

/// Refused as [`Shape`] unless this text is at the key.
pub fn that_text_at(value: &View<'_>, key: MapKey<'_>, content: &str) -> Result<(), Shape>
    ensures { Yields (λ u. u) result (held_in (read_in (that_text content.now)) (member (key_item key.entry) (shown value.now))) }
{
    that_text(&value_at(value, key)?, content)
}

/// The map at a key.
pub fn map_at<'a>(value: &View<'a>, key: MapKey<'_>) -> Result<View<'a>, Shape>
    ensures { Yields (λ v. shown v) result (held_in (read_in any_map) (member (key_item key.entry) (shown value.now))) }
{
    let held = value_at(value, key)?;
    any_map(&held)?;
    Ok(held)
}

/// The text at a key that may be absent.
pub fn text_if_there<'a>(value: &View<'a>, key: MapKey<'_>) -> Result<Option<&'a str>, Shape>
    ensures { Yields (λ o. option_map (λ s. s.now) o) result (maybe text_in (member (key_item key.entry) (shown value.now))) }
{
    match value.get(key) {
        Some(held) => Ok(Some(text(&held)?)),
        None => Ok(None),
    }
}

/// The bytes at a key that may be absent.
pub fn bytes_if_there<'a>(value: &View<'a>, key: MapKey<'_>) -> Result<Option<&'a [u8]>, Shape>
    ensures { Yields (λ o. option_map (λ b. b.now) o) result (maybe bytes_in (member (key_item key.entry) (shown value.now))) }
{
    match value.get(key) {
        Some(held) => Ok(Some(bytes(&held)?)),
        None => Ok(None),
    }
}

/// The unsigned number, at least this one, at a key that may be absent.
pub fn unsigned_if_there(value: &View<'_>, key: MapKey<'_>, low: u64) -> Result<Option<u64>, Shape>
    ensures { Yields (λ n. n) result (maybe (read_in (unsigned low)) (member (key_item key.entry) (shown value.now))) }
{
    match value.get(key) {
        Some(held) => Ok(Some(unsigned(&held, low)?)),
        None => Ok(None),
    }
}

/// The truth value at a key that may be absent.
pub fn truth_if_there(value: &View<'_>, key: MapKey<'_>) -> Result<Option<bool>, Shape>
    ensures { Yields (λ b. b) result (maybe bool_in (member (key_item key.entry) (shown value.now))) }
{
    match value.get(key) {
        Some(held) => Ok(Some(truth(&held)?)),
        None => Ok(None),
    }
}
