//! Writing a value at the end of an output.

ghost use Rattle.std.specs.Prelude.{◌≡◌, ◌<◌, [], ◌++◌, ℕ, List, length, OnOk, OnErr, IfErr, IsErrOf, ◌⊎◌};
ghost use Rattle.ccbor.specs.Item.{Item, array, map};
ghost use Rattle.ccbor.specs.declared.error.Error.TheVariants as errors;
ghost use Rattle.ccbor.specs.Canon.{Canon, head, is_key, spelling, spelling_of_items, spelling_of_pairs, Fits, ItemsFit, PairsFit, AppendsCanon};
ghost use Rattle.ccbor.specs.View.{view, items_view, pairs_view};
ghost use Rattle.ccbor.specs.Writing.{Writes, Grows};

use crate::error::Error;
use crate::head::{ARRAY, BYTES, FALSE, MAP, NEGATIVE, SIMPLE, TEXT, TRUE, UNSIGNED, put_head};
use crate::order::before;
use crate::value::{MAX_DEPTH, Value};
use std::alloc::AllocError;

/// Appends the head of a byte string or a text, and its bytes.
pub(crate) fn put_string(major: u8, content: &[u8], out: &mut Vec<u8>) -> Result<(), AllocError>
    requires { major < 8 }
    ensures ok { OnOk result (out.new.items
        ≡ out.old.items ++ (head major (length content.now) ++ content.now)) }
    ensures grows { Grows out.old.items out.new.items }
{
    put_head(major, content.len() as u64, out)?;
    out.extend_from_slice(content)?;
    Ok(())
}

/// Whether the value may be a key of a map.
fn is_key(value: &Value) -> bool
    ensures { result ≡ is_key (view value.now) }
{
    matches!(value, Value::Uint(_) | Value::Nint(_) | Value::Text(_))
}

/// Appends the value's encoding with this many levels of arrays and maps left. An error may leave
/// a part of it.
#[cycle(writing)]
fn put(value: &Value, depth: u8, out: &mut Vec<u8>) -> Result<(), Error>
    ensures written { Writes (Fits depth (view value.now)) (spelling (view value.now))
        out.old.items out.new.items result }
    ensures grows { Grows out.old.items out.new.items }
{
    match value {
        Value::Uint(n) => put_head(UNSIGNED, *n, out)?,
        Value::Nint(n) => put_head(NEGATIVE, *n, out)?,
        Value::Bytes(content) => put_string(BYTES, content, out)?,
        Value::Text(text) => put_string(TEXT, text.as_bytes(), out)?,
        Value::Array(items) => return put_array(items, depth, out),
        Value::Map(pairs) => return put_map(pairs, depth, out),
        Value::Bool(b) => out.push(32 * SIMPLE + if *b { TRUE } else { FALSE })?,
    }
    Ok(())
}

/// Appends the encoding of an array.
#[cycle(writing)]
fn put_array(items: &[Value], depth: u8, out: &mut Vec<u8>) -> Result<(), Error>
    ensures written { Writes (Fits depth (array (items_view items.now))) (spelling (array (items_view items.now)))
        out.old.items out.new.items result }
    ensures grows { Grows out.old.items out.new.items }
{
    if depth == 0 {
        return Err(Error::Unfit);
    }
    put_head(ARRAY, items.len() as u64, out)?;
    put_items(items, depth - 1, out)?;
    Ok(())
}

/// Appends the encoding of a map.
#[cycle(writing)]
fn put_map(pairs: &[(Value, Value)], depth: u8, out: &mut Vec<u8>) -> Result<(), Error>
    ensures written { Writes (Fits depth (map (pairs_view pairs.now))) (spelling (map (pairs_view pairs.now)))
        out.old.items out.new.items result }
    ensures grows { Grows out.old.items out.new.items }
{
    if depth == 0 {
        return Err(Error::Unfit);
    }
    put_head(MAP, pairs.len() as u64, out)?;
    put_pairs(pairs, depth - 1, out)?;
    Ok(())
}

/// Appends the items' encodings.
#[cycle(writing)]
fn put_items(items: &[Value], depth: u8, out: &mut Vec<u8>) -> Result<(), Error>
    ensures written { Writes (ItemsFit depth (items_view items.now))
        (spelling_of_items (items_view items.now)) out.old.items out.new.items result }
    ensures grows { Grows out.old.items out.new.items }
{
    for item in items {
        put(item, depth, out)?;
    }
    Ok(())
}

/// Appends the pairs' encodings. The last key is compared where it stands in the output.
#[cycle(writing)]
fn put_pairs(pairs: &[(Value, Value)], depth: u8, out: &mut Vec<u8>) -> Result<(), Error>
    ensures written { Writes (PairsFit depth [] (pairs_view pairs.now))
        (spelling_of_pairs (pairs_view pairs.now)) out.old.items out.new.items result }
    ensures grows { Grows out.old.items out.new.items }
{
    let mut last_start = 0;
    let mut last_end = 0;
    for (key, value) in pairs {
        if !is_key(key) {
            return Err(Error::Unfit);
        }
        let start = out.len();
        put(key, depth, out)?;
        let end = out.len();
        if !before(&out[last_start..last_end], &out[start..end]) {
            return Err(Error::Unfit);
        }
        put(value, depth, out)?;
        last_start = start;
        last_end = end;
    }
    Ok(())
}

/// Appends the value's one canonical encoding (CTAP 2.1, "Message Encoding").
///
/// Refused as [`Error::Unfit`] where the value has none. Otherwise it is refused only if
/// memory runs out, as [`Error::Memory`]; a value without an encoding may be refused so too. After an error
/// the output's bytes are as they were.
pub fn encode(value: &Value, out: &mut Vec<u8>) -> Result<(), Error>
    // What is appended encodes the value,
    ensures ok { OnOk result (AppendsCanon (view value.now) out.old.items out.new.items) }
    // and the value is refused only if no bytes do.
    ensures unfit { IsErrOf result errors.Unfit
        → (bs : List ℕ) → Canon (view value.now) bs → ⊥ }
    ensures err { OnErr result (out.new.items ≡ out.old.items) }
    ensures errors { IfErr result (λ e. (e ≡ errors.Unfit) ⊎ (e ≡ errors.Memory)) }
{
    let len = out.len();
    if let Err(error) = put(value, MAX_DEPTH, out) {
        out.truncate(len);
        return Err(error);
    }
    Ok(())
}
