//! Passing over a value at the front of an input, with no memory.

ghost use Rattle.std.specs.Prelude.{◌≡◌, ℕ, List, ◌++◌, [], ◌||◌, true, false, MatchOption, option_map};
ghost use Rattle.std.specs.Str.{is_utf8};
ghost use Rattle.ccbor.specs.Item.{Item};
ghost use Rattle.ccbor.specs.Canon.{Canon, before};
ghost use Rattle.ccbor.specs.Reading.{rest_of, key_rest, leaf_at, key_at, item_at, items_at, pairs_at};

use crate::head::{
    ARRAY, BYTES, FALSE, Head, MAP, NEGATIVE, SIMPLE, TEXT, TRUE, UNSIGNED, head_at,
};
use crate::leaf::{begins_key, content_at, span_before};
use crate::order::before;
use crate::value::MAX_DEPTH;
use std::str;

/// Whether the bytes are a text's UTF-8. Where they are known to be, they are not looked at.
fn is_text(known: bool, bytes: &[u8]) -> bool
    ensures { result ≡ (known || is_utf8 bytes.now) }
{
    if known {
        return true;
    }
    match str::from_utf8(bytes) {
        Ok(_) => true,
        Err(_) => false,
    }
}

/// What follows the value that a head begins, if it is no array and no map.
#[tactic(auto, unfolding(crate::specs::Reading::leaf_at, crate::specs::Reading::bytes_at, crate::specs::Reading::text_at))]
fn after_leaf(known: bool, head: Head, rest: &[u8]) -> Option<&[u8]>
    ensures { option_map (λ r. r.now) result ≡ rest_of (leaf_at known (head.major, head.argument) rest.now) }
{
    match head.major {
        UNSIGNED | NEGATIVE => Some(rest),
        BYTES => {
            let Ok((_, rest)) = content_at(rest, head.argument) else {
                return None;
            };
            Some(rest)
        }
        TEXT => {
            let Ok((text, rest)) = content_at(rest, head.argument) else {
                return None;
            };
            if !is_text(known, text) {
                return None;
            }
            Some(rest)
        }
        SIMPLE if head.argument == u64::from(FALSE) || head.argument == u64::from(TRUE) => {
            Some(rest)
        }
        _ => None,
    }
}

/// The encoding of the key at the front, and what follows it.
fn after_key(known: bool, bytes: &[u8]) -> Option<(&[u8], &[u8])>
    ensures { option_map (λ r. (r.0.now, r.1.now)) result ≡ key_rest (key_at known bytes.now) }
{
    let Ok((head, rest)) = head_at(bytes) else {
        return None;
    };
    if !begins_key(head.major) {
        return None;
    }
    let rest = after_leaf(known, head, rest)?;
    Some((span_before(bytes, rest), rest))
}

/// Whether a key may follow the last one. Where they are known to be in order, they are not looked at.
fn may_follow(known: bool, last: &[u8], key: &[u8]) -> bool
    ensures { result ≡ (known || before last.now key.now) }
{
    known || before(last, key)
}

/// What follows the value at the front, with this many levels of arrays and maps left. Where it is known to be
/// canonical, only its heads are read.
#[cycle(passing)]
fn after_item(known: bool, depth: u8, bytes: &[u8]) -> Option<&[u8]>
    ensures { option_map (λ r. r.now) result ≡ rest_of (item_at known depth bytes.now) }
{
    let Ok((head, rest)) = head_at(bytes) else {
        return None;
    };
    if depth == 0 {
        return after_leaf(known, head, rest);
    }
    match head.major {
        ARRAY => after_items(known, depth - 1, head.argument, rest),
        MAP => after_pairs(known, depth - 1, head.argument, rest),
        _ => after_leaf(known, head, rest),
    }
}

/// What follows the next `count` values.
#[cycle(passing)]
fn after_items(known: bool, depth: u8, count: u64, bytes: &[u8]) -> Option<&[u8]>
    ensures { option_map (λ r. r.now) result ≡ rest_of (items_at (item_at known depth) count bytes.now) }
{
    let mut rest = bytes;
    for _ in 0..count {
        rest = after_item(known, depth, rest)?;
    }
    Some(rest)
}

/// What follows the next `count` pairs of a key and a value, each key before the next.
#[cycle(passing)]
fn after_pairs(known: bool, depth: u8, count: u64, bytes: &[u8]) -> Option<&[u8]>
    ensures { option_map (λ r. r.now) result ≡ rest_of (pairs_at known (item_at known depth) [] count bytes.now) }
{
    let mut last: &[u8] = &[];
    let mut rest = bytes;
    for _ in 0..count {
        let (encoding, value) = after_key(known, rest)?;
        if !may_follow(known, last, encoding) {
            return None;
        }
        rest = after_item(known, depth, value)?;
        last = encoding;
    }
    Some(rest)
}

/// The encoding of the value at the front, and what follows it.
pub fn front(bytes: &[u8]) -> Option<(&[u8], &[u8])>
    ensures { MatchOption result ((v : Item) (a b : List ℕ) → Canon v a → bytes.now ≡ a ++ b → ⊥)
        (λ r. (bytes.now ≡ r.0.now ++ r.1.now) × (v : Item) × Canon v r.0.now) }
{
    let rest = after_item(false, MAX_DEPTH, bytes)?;
    Some((span_before(bytes, rest), rest))
}

/// The encoding of the value at the front, which is known to be canonical, and what follows it.
pub fn known_front(bytes: &[u8]) -> Option<(&[u8], &[u8])>
    ensures { (x : Item) (a more : List ℕ) → Canon x a → bytes.now ≡ a ++ more
        → MatchOption result ⊥ (λ r. (r.0.now ≡ a) × (r.1.now ≡ more)) }
{
    let rest = after_item(true, MAX_DEPTH, bytes)?;
    Some((span_before(bytes, rest), rest))
}
