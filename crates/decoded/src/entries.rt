//! Members of a map of CBOR, whose keys may be any items, and may repeat.

use crate::heads::{LEVELS, content, end_of, head_at};

/// A key that is looked for.
#[derive(Clone, Copy, Drop)]
pub(crate) enum Key<'a> {
    Text(&'a str),
    /// A number of at least 0.
    Number(u64),
}

/// Whether a span is a map.
pub(crate) fn is_map(span: &[u8]) -> bool {
    match head_at(span, 0) {
        Some(head) => head.major == 5,
        None => false,
    }
}

/// Whether the item at an offset is this key.
pub(crate) fn is_key(span: &[u8], at: usize, key: Key<'_>) -> bool {
    let Some(head) = head_at(span, at) else {
        return false;
    };
    match key {
        Key::Text(text) => head.major == 3 && content(span, &head) == Some(text.as_bytes()),
        Key::Number(number) => head.major == 0 && head.number == number,
    }
}

/// The value of the first member of a map with this key; none where the span is no map.
pub(crate) fn value_of<'a>(span: &'a [u8], key: Key<'_>) -> Option<&'a [u8]> {
    let head = head_at(span, 0)?;
    if head.major != 5 {
        return None;
    }
    let mut at = head.end;
    for _ in 0..head.number {
        let middle = end_of(span, at, LEVELS).ok()?;
        let end = end_of(span, middle, LEVELS).ok()?;
        if is_key(span, at, key) {
            return span.get(middle..end);
        }
        at = end;
    }
    None
}

/// The content of a byte string; none of another item.
pub(crate) fn bytes_in(span: &[u8]) -> Option<&[u8]> {
    let head = head_at(span, 0)?;
    if head.major == 2 {
        content(span, &head)
    } else {
        None
    }
}
