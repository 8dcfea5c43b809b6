//! Values with no values in them, and keys.

ghost use Rattle.std.specs.Prelude.{◌≡◌, ◌-◌, false, length, take};
ghost use Rattle.ccbor.specs.View.{view};
ghost use Rattle.ccbor.specs.Reading.{Gives, Yields, content_at, bytes_at, text_at, leaf_at, begins_key, key_at};

use crate::error::Error;
use crate::head::{BYTES, FALSE, Head, NEGATIVE, SIMPLE, TEXT, TRUE, UNSIGNED, head_at};
use crate::value::Value;
use std::alloc::Global;
use std::str;

/// The next `count` bytes, and what follows them. Nothing is reserved where there are fewer.
#[tactic(auto, unfolding(crate::specs::Reading::content_at))]
pub fn content_at(bytes: &[u8], count: u64) -> Result<(&[u8], &[u8]), Error>
    ensures { Yields (λ x. (x.0.now, x.1.now)) result (content_at count bytes.now) }
{
    if (bytes.len() as u64) < count {
        return Err(Error::NotCanonical);
    }
    Ok(bytes.split_at(count as usize))
}

/// The byte string of the next `count` bytes.
#[tactic(auto, unfolding(crate::specs::Reading::bytes_at))]
fn bytes_at(alloc: Global, count: u64, rest: &[u8]) -> Result<(Value, &[u8]), Error>
    ensures { Gives (λ x. (view x.0, x.1.now)) result (bytes_at count rest.now) }
{
    let (content, rest) = content_at(rest, count)?;
    Ok((Value::Bytes(Vec::from_slice(alloc, content)?), rest))
}

/// The text whose UTF-8 is the next `count` bytes.
#[tactic(auto, unfolding(crate::specs::Reading::text_at))]
fn text_at(alloc: Global, count: u64, rest: &[u8]) -> Result<(Value, &[u8]), Error>
    ensures { Gives (λ x. (view x.0, x.1.now)) result (text_at false count rest.now) }
{
    let (content, rest) = content_at(rest, count)?;
    match str::from_utf8(content) {
        Ok(text) => Ok((Value::Text(String::from_str(alloc, text)?), rest)),
        Err(_) => Err(Error::NotCanonical),
    }
}

/// The value that a head begins, if it is no array and no map, and what follows it.
#[tactic(auto, unfolding(crate::specs::Reading::leaf_at))]
pub fn leaf_at(alloc: Global, head: Head, rest: &[u8]) -> Result<(Value, &[u8]), Error>
    ensures { Gives (λ x. (view x.0, x.1.now)) result
        (leaf_at false (head.major, head.argument) rest.now) }
{
    match head.major {
        UNSIGNED => Ok((Value::Uint(head.argument), rest)),
        NEGATIVE => Ok((Value::Nint(head.argument), rest)),
        BYTES => bytes_at(alloc, head.argument, rest),
        TEXT => text_at(alloc, head.argument, rest),
        SIMPLE if head.argument == u64::from(FALSE) => Ok((Value::Bool(false), rest)),
        SIMPLE if head.argument == u64::from(TRUE) => Ok((Value::Bool(true), rest)),
        _ => Err(Error::NotCanonical),
    }
}

/// Whether a value of this major type may be a key of a map.
pub fn begins_key(major: u8) -> bool
    ensures { result ≡ begins_key major }
{
    matches!(major, UNSIGNED | NEGATIVE | TEXT)
}

/// What stands before `rest`, which is the end of `bytes`.
pub fn span_before<'a>(bytes: &'a [u8], rest: &[u8]) -> &'a [u8]
    ensures { result.now ≡ take (length bytes.now - length rest.now) bytes.now }
{
    &bytes[..bytes.len().saturating_sub(rest.len())]
}

/// The key at the front, its encoding, and what follows it.
#[tactic(auto, unfolding(crate::specs::Reading::key_at))]
pub fn key_at(alloc: Global, bytes: &[u8]) -> Result<(Value, &[u8], &[u8]), Error>
    ensures { Gives (λ x. ((view x.0, x.1.now), x.2.now)) result (key_at false bytes.now) }
{
    let (head, rest) = head_at(bytes)?;
    if !begins_key(head.major) {
        return Err(Error::NotCanonical);
    }
    let (key, rest) = leaf_at(alloc, head, rest)?;
    Ok((key, span_before(bytes, rest), rest))
}
