//! Reading a value from the front of an input.

ghost use Rattle.std.specs.Prelude.{◌≡◌, ℕ, ◌≤◌, ◌<◌, ◌⊎◌, [], false, length, take, IfOk, IfErr, IsErrOf};
ghost use Rattle.ccbor.specs.declared.error.Error.TheVariants as errors;
ghost use Rattle.ccbor.specs.Item.{Item};
ghost use Rattle.ccbor.specs.Canon.{Canon};
ghost use Rattle.ccbor.specs.View.{view, items_view, pairs_view};
ghost use Rattle.ccbor.specs.Reading.{Gives, item_at, items_at, pairs_at};

use crate::error::Error;
use crate::head::{ARRAY, MAP, head_at};
use crate::leaf::{key_at, leaf_at};
use crate::order::before;
use crate::value::Value;
use crate::view::View;
use std::alloc::Global;

/// The value at the front with this many levels of arrays and maps left, and what follows it.
#[cycle(reading)]
pub fn item_at(alloc: Global, depth: u8, bytes: &[u8]) -> Result<(Value, &[u8]), Error>
    ensures { Gives (λ x. (view x.0, x.1.now)) result (item_at false depth bytes.now) }
{
    let (head, rest) = head_at(bytes)?;
    if depth == 0 {
        return leaf_at(alloc, head, rest);
    }
    match head.major {
        ARRAY => {
            let (items, rest) = items_at(alloc, depth - 1, head.argument, rest)?;
            Ok((Value::Array(items), rest))
        }
        MAP => {
            let (pairs, rest) = pairs_at(alloc, depth - 1, head.argument, rest)?;
            Ok((Value::Map(pairs), rest))
        }
        _ => leaf_at(alloc, head, rest),
    }
}

/// The next `count` values, and what follows them. Room is made for each once it is read, so a
/// count that the input cannot hold takes none.
#[cycle(reading)]
fn items_at(
    alloc: Global,
    depth: u8,
    count: u64,
    bytes: &[u8],
) -> Result<(Vec<Value>, &[u8]), Error>
    ensures { Gives (λ x. (items_view x.0.items, x.1.now)) result
        (items_at (item_at false depth) count bytes.now) }
{
    let mut items = Vec::new(alloc);
    let mut rest = bytes;
    for _ in 0..count {
        let (item, after) = item_at(alloc, depth, rest)?;
        items.push(item)?;
        rest = after;
    }
    Ok((items, rest))
}

/// The next `count` pairs of a key and a value, each key before the next, and what follows them.
/// Room is made for each once it is read.
#[cycle(reading)]
fn pairs_at(
    alloc: Global,
    depth: u8,
    count: u64,
    bytes: &[u8],
) -> Result<(Vec<(Value, Value)>, &[u8]), Error>
    ensures { Gives (λ x. (pairs_view x.0.items, x.1.now)) result
        (pairs_at false (item_at false depth) [] count bytes.now) }
{
    let mut pairs = Vec::new(alloc);
    let mut last: &[u8] = &[];
    let mut rest = bytes;
    for _ in 0..count {
        let (key, encoding, after_key) = key_at(alloc, rest)?;
        if !before(last, encoding) {
            return Err(Error::NotCanonical);
        }
        let (value, after) = item_at(alloc, depth, after_key)?;
        pairs.push((key, value))?;
        last = encoding;
        rest = after;
    }
    Ok((pairs, rest))
}

/// The value at the front of the input, and how many bytes encode it (at least 1). What follows
/// them is not looked at.
///
/// Refused as [`Error::NotCanonical`] where no front of the input is a canonical encoding (CTAP 2.1,
/// "Message Encoding"), before any memory is taken. Otherwise it is refused only if memory runs out,
/// as [`Error::Memory`]. The memory that is taken grows with the bytes that are read.
pub fn decode(alloc: Global, bytes: &[u8]) -> Result<(Value, usize), Error>
    // The value is encoded by these bytes,
    ensures found { IfOk result (λ x.
        (x.1 ≤ length bytes.now) × Canon (view x.0) (take x.1 bytes.now)) }
    // no other value is encoded by a front of the input,
    ensures only { IfOk result (λ x. (v : Item) (n : ℕ) → n ≤ length bytes.now
        → Canon v (take n bytes.now) → (v ≡ view x.0) × (n ≡ x.1)) }
    // and the input is refused only if no value is.
    ensures none { IsErrOf result errors.NotCanonical
        → (v : Item) (n : ℕ) → Canon v (take n bytes.now) → ⊥ }
    // Memory is wanting only where there is a value to take it.
    ensures memory { IsErrOf result errors.Memory
        → (v : Item) × (n : ℕ) × Canon v (take n bytes.now) }
    ensures errors { IfErr result (λ e. (e ≡ errors.NotCanonical) ⊎ (e ≡ errors.Memory)) }
{
    let (view, len) = View::check(bytes)?;
    let value = view.to_value(alloc)?;
    Ok((value, len))
}

/// The value that the whole input encodes.
///
/// Refused as [`Error::NotCanonical`] where no front of the input is a canonical encoding, and as
/// [`Error::Trailing`] where a front is and bytes follow it, before any memory is taken. Otherwise it
/// is refused only if memory runs out, as [`Error::Memory`].
pub fn decode_all(alloc: Global, bytes: &[u8]) -> Result<Value, Error>
    // The whole input encodes the value and no other,
    ensures found { IfOk result (λ x. Canon (view x) bytes.now) }
    ensures only { IfOk result (λ x. (v : Item) → Canon v bytes.now → v ≡ view x) }
    // or bytes follow a front that encodes a value, and the whole encodes none,
    ensures trailing { IsErrOf result errors.Trailing
        → (v : Item) × (n : ℕ) × (n < length bytes.now) × Canon v (take n bytes.now) }
    ensures front { IsErrOf result errors.Trailing → (v : Item) → Canon v bytes.now → ⊥ }
    // or no front of the input encodes a value.
    ensures none { IsErrOf result errors.NotCanonical
        → (v : Item) (n : ℕ) → Canon v (take n bytes.now) → ⊥ }
    // Memory is wanting only where there is a value to take it.
    ensures memory { IsErrOf result errors.Memory → (v : Item) × Canon v bytes.now }
    ensures errors { IfErr result (λ e.
        (e ≡ errors.NotCanonical) ⊎ (e ≡ errors.Trailing) ⊎ (e ≡ errors.Memory)) }
{
    let view = View::check_all(bytes)?;
    Ok(view.to_value(alloc)?)
}
