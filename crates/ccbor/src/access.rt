//! What a value is, kind by kind, and what a map has at a key. Nothing here takes memory.

ghost use Rattle.std.specs.Prelude.{◌≡◌, option_map, string_bytes};
ghost use Rattle.ccbor.specs.Access.{uint_in, nint_in, bytes_in, text_in, bool_in, items_in, pairs_in, key_item, is_same_key, value_at, member};
ghost use Rattle.ccbor.specs.Access.{split_key, is_end};
ghost use Rattle.ccbor.specs.View.{view, items_view, pairs_view};

use crate::value::{MapKey, Value};

impl Value {
    /// The number n, if this is an unsigned number.
    pub fn as_uint(&self) -> Option<u64>
        ensures { result ≡ uint_in (view self.now) }
    {
        match self {
            Value::Uint(n) => Some(*n),
            _ => None,
        }
    }

    /// The argument n, if this is the negative number -1 - n.
    pub fn as_nint(&self) -> Option<u64>
        ensures { result ≡ nint_in (view self.now) }
    {
        match self {
            Value::Nint(n) => Some(*n),
            _ => None,
        }
    }

    /// Which it is, if this is false or true.
    pub fn as_bool(&self) -> Option<bool>
        ensures { result ≡ bool_in (view self.now) }
    {
        match self {
            Value::Bool(b) => Some(*b),
            _ => None,
        }
    }

    /// The bytes, if this is a byte string.
    pub fn as_bytes(&self) -> Option<&[u8]>
        ensures { option_map (λ b. b.now) result ≡ bytes_in (view self.now) }
    {
        match self {
            Value::Bytes(content) => Some(content),
            _ => None,
        }
    }

    /// The text, if this is one.
    pub fn as_text(&self) -> Option<&str>
        ensures { option_map (λ b. b.now) result ≡ text_in (view self.now) }
    {
        match self {
            Value::Text(content) => Some(content.as_str()),
            _ => None,
        }
    }

    /// The items, if this is an array.
    pub fn as_array(&self) -> Option<&[Value]>
        ensures { option_map (λ b. items_view b.now) result ≡ items_in (view self.now) }
    {
        match self {
            Value::Array(items) => Some(items),
            _ => None,
        }
    }

    /// The pairs of key and value, if this is a map.
    pub fn as_map(&self) -> Option<&[(Value, Value)]>
        ensures { option_map (λ b. pairs_view b.now) result ≡ pairs_in (view self.now) }
    {
        match self {
            Value::Map(pairs) => Some(pairs),
            _ => None,
        }
    }

    /// Whether the value is this key.
    pub fn is_key(&self, key: MapKey<'_>) -> bool
        ensures { result ≡ is_same_key (view self.now) (key_item key.entry) }
    {
        match (self, key) {
            (Value::Uint(n), MapKey::Uint(m)) => *n == m,
            (Value::Nint(n), MapKey::Nint(m)) => *n == m,
            (Value::Text(s), MapKey::Text(t)) => s.as_str() == t,
            _ => false,
        }
    }

    /// The value at this key, if this is a map that has it: that of the first such pair, where a map
    /// made by hand has several.
    pub fn get(&self, key: MapKey<'_>) -> Option<&Value>
        ensures { option_map (λ b. view b.now) result
            ≡ member (key_item key.entry) (view self.now) }
    {
        match self {
            Value::Map(pairs) => value_at(pairs, key),
            _ => None,
        }
    }
}

/// The value of the first pair with this key.
pub fn value_at<'a>(pairs: &'a [(Value, Value)], key: MapKey<'_>) -> Option<&'a Value>
    ensures { option_map (λ b. view b.now) result
        ≡ value_at (key_item key.entry) (pairs_view pairs.now) }
{
    for (found, value) in pairs {
        if found.is_key(key) {
            return Some(value);
        }
    }
    None
}

/// If the first pair has this key, its value and the pairs after it.
pub fn split_key<'a>(
    pairs: &'a [(Value, Value)],
    key: MapKey<'_>,
) -> Option<(&'a Value, &'a [(Value, Value)])>
    ensures { option_map (λ x. (view x.0.now, pairs_view x.1.now)) result
        ≡ split_key (key_item key.entry) (pairs_view pairs.now) }
{
    let ((found, value), rest) = pairs.split_first()?;
    if found.is_key(key) {
        Some((value, rest))
    } else {
        None
    }
}

/// Whether no pairs are left.
pub fn is_end(pairs: &[(Value, Value)]) -> bool
    ensures { result ≡ is_end (pairs_view pairs.now) }
{
    match pairs.split_first() {
        None => true,
        Some(_) => false,
    }
}
