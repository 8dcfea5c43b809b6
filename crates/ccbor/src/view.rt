//! Values that are read where they lie: nothing is copied, and no memory is taken.

ghost use Rattle.std.specs.Prelude.{◌≡◌, ◌⊎◌, ◌<◌, ◌≤◌, ℕ, List, suc, length, take, ◌+◌, option_map, IfOk, IfErr, IfSome, IsErrOf, MatchOption};
ghost use Rattle.ccbor.specs.declared.error.Error.TheVariants as errors;
ghost use Rattle.ccbor.specs.Item.{Item, Pairs, no_pairs, pair};
ghost use Rattle.ccbor.specs.Canon.{Canon};
ghost use Rattle.ccbor.specs.Access.{uint_in, nint_in, bool_in, bytes_in, text_in, items_in, pairs_in, len_in, item_in, pair_in, items_first};
ghost use Rattle.ccbor.specs.Access.{pairs_first, key_item, is_same_key, member, split_key, is_end};
ghost use Rattle.ccbor.specs.View.{view};
ghost use Rattle.ccbor.specs.Viewing.{ArePairs, parts_in, shown, shown_items, shown_pairs};

use crate::error::Error;
use crate::head::{ARRAY, BYTES, MAP, NEGATIVE, SIMPLE, TEXT, TRUE, UNSIGNED, head_at};
use crate::passing::{front, known_front};
use crate::reading::item_at;
use crate::value::{MAX_DEPTH, MapKey, Value};
use std::alloc::{AllocError, Global};
use std::marker::Model;
use std::str;

/// A value, as the bytes of its canonical encoding show it. A contract sees these bytes.
#[derive(Drop)]
pub struct View<'a> {
    bytes: &'a [u8],
}

impl<'a> Model for View<'a> {
    ghost use Rattle.std.specs.Prelude.{ℕ, List};
    ghost use Rattle.ccbor.specs.Canon.{Canon};
    ghost use Rattle.ccbor.specs.Viewing.{shown};

    ghost Value = { List ℕ };

    ghost view = { λ v. v.bytes.now };

    ghost invariant = { λ v. Canon (shown v.bytes.now) v.bytes.now };
}

/// The items of an array that are left, as their encoding shows them. A contract sees how many
/// there are, and their bytes.
#[derive(Drop)]
pub struct ArrayView<'a> {
    bytes: &'a [u8],
    left: u64,
}

impl<'a> Model for ArrayView<'a> {
    ghost use Rattle.std.specs.Prelude.{ℕ, List};
    ghost use Rattle.ccbor.specs.Viewing.{AreItems, shown_items};

    ghost Value = { ℕ × List ℕ };

    ghost view = { λ m. (m.left, m.bytes.now) };

    ghost invariant = { λ m. AreItems (shown_items (m.left, m.bytes.now)) m.left m.bytes.now };
}

/// The pairs of a map that are left, as their encoding shows them. A contract sees how
/// many there are, and their bytes.
#[derive(Drop)]
pub struct MapView<'a> {
    bytes: &'a [u8],
    left: u64,
}

impl<'a> Model for MapView<'a> {
    ghost use Rattle.std.specs.Prelude.{ℕ, List};
    ghost use Rattle.ccbor.specs.Viewing.{ArePairs, shown_pairs};

    ghost Value = { ℕ × List ℕ };

    ghost view = { λ m. (m.left, m.bytes.now) };

    ghost invariant = { λ m. ArePairs (shown_pairs (m.left, m.bytes.now)) m.left m.bytes.now };
}

/// The argument of the value's head and what follows the head, if the value is of this major type.
fn parts(bytes: &[u8], major: u8) -> Option<(u64, &[u8])>
    ensures { (x : Item) → Canon x bytes.now → option_map (λ r. (r.0, r.1.now)) result ≡ parts_in major x }
{
    let Ok((head, rest)) = head_at(bytes) else {
        return None;
    };
    if head.major != major {
        return None;
    }
    Some((head.argument, rest))
}

/// Whether the value is this key.
fn is_key(bytes: &[u8], key: MapKey<'_>) -> bool
    ensures { (x : Item) → Canon x bytes.now → result ≡ is_same_key x (key_item key.entry) }
{
    match key {
        MapKey::Uint(n) => match parts(bytes, UNSIGNED) {
            Some((m, _)) => m == n,
            None => false,
        },
        MapKey::Nint(n) => match parts(bytes, NEGATIVE) {
            Some((m, _)) => m == n,
            None => false,
        },
        MapKey::Text(text) => match parts(bytes, TEXT) {
            Some((_, content)) => content == text.as_bytes(),
            None => false,
        },
    }
}

impl<'a> View<'a> {
    /// The value at the front of the input, and how many bytes encode it (at least 1). What follows
    /// them is not looked at.
    ///
    /// Refused as [`Error::NotCanonical`] where no front of the input is a canonical encoding (CTAP
    /// 2.1, "Message Encoding").
    pub fn check(bytes: &'a [u8]) -> Result<(View<'a>, usize), Error>
        // The value is encoded by these bytes,
        ensures found { IfOk result (λ x. (x.1 ≤ length bytes.now) × (x.0 ≡ take x.1 bytes.now)
            × Canon (shown x.0) (take x.1 bytes.now)) }
        // no other value is encoded by a front of the input,
        ensures only { IfOk result (λ x. (v : Item) (n : ℕ) → n ≤ length bytes.now
            → Canon v (take n bytes.now) → (v ≡ shown x.0) × (n ≡ x.1)) }
        // and the input is refused only if no value is.
        ensures none { IfErr result (λ _. (v : Item) (n : ℕ) → Canon v (take n bytes.now) → ⊥) }
        ensures errors { IfErr result (λ e. e ≡ errors.NotCanonical) }
    {
        let Some((value, _)) = front(bytes) else {
            return Err(Error::NotCanonical);
        };
        Ok((View { bytes: value }, value.len()))
    }

    /// The value that the whole input encodes.
    ///
    /// Refused as [`Error::NotCanonical`] where no front of the input is a canonical encoding (CTAP
    /// 2.1, "Message Encoding"), and as [`Error::Trailing`] where a front is and bytes follow it.
    pub fn check_all(bytes: &'a [u8]) -> Result<View<'a>, Error>
        // The whole input encodes the value,
        ensures found { IfOk result (λ v. (v ≡ bytes.now) × Canon (shown v) bytes.now) }
        // or bytes follow a front that encodes one, and the whole encodes none,
        ensures trailing { IsErrOf result errors.Trailing
            → (v : Item) × (n : ℕ) × (n < length bytes.now) × Canon v (take n bytes.now) }
        ensures front { IsErrOf result errors.Trailing → (v : Item) → Canon v bytes.now → ⊥ }
        // or no front of the input encodes a value.
        ensures none { IsErrOf result errors.NotCanonical
            → (v : Item) (n : ℕ) → Canon v (take n bytes.now) → ⊥ }
        ensures errors { IfErr result (λ e. (e ≡ errors.NotCanonical) ⊎ (e ≡ errors.Trailing)) }
    {
        let Some((value, rest)) = front(bytes) else {
            return Err(Error::NotCanonical);
        };
        if !rest.is_empty() {
            return Err(Error::Trailing);
        }
        Ok(View { bytes: value })
    }

    /// The value's canonical encoding, where it lies.
    pub fn span(&self) -> &'a [u8]
        ensures same { result.now ≡ self.now }
        ensures shown { Canon (shown self.now) result.now }
    {
        self.bytes
    }

    /// The value, copied out.
    pub fn to_value(&self, alloc: Global) -> Result<Value, AllocError>
        ensures { IfOk result (λ x. view x ≡ shown self.now) }
    {
        match item_at(alloc, MAX_DEPTH, self.bytes) {
            Ok((value, _)) => Ok(value),
            Err(Error::Memory) => Err(AllocError),
            Err(Error::NotCanonical) => unreachable!(),
            Err(Error::Unfit) => unreachable!(),
            Err(Error::Trailing) => unreachable!(),
        }
    }

    /// The number n, if this is an unsigned number.
    pub fn as_uint(&self) -> Option<u64>
        ensures { result ≡ uint_in (shown self.now) }
    {
        let (n, _) = parts(self.bytes, UNSIGNED)?;
        Some(n)
    }

    /// The argument n, if this is the negative number -1 - n.
    pub fn as_nint(&self) -> Option<u64>
        ensures { result ≡ nint_in (shown self.now) }
    {
        let (n, _) = parts(self.bytes, NEGATIVE)?;
        Some(n)
    }

    /// Which it is, if this is false or true.
    pub fn as_bool(&self) -> Option<bool>
        ensures { result ≡ bool_in (shown self.now) }
    {
        let (n, _) = parts(self.bytes, SIMPLE)?;
        Some(n == u64::from(TRUE))
    }

    /// The text, if this is one.
    pub fn as_text(&self) -> Option<&'a str>
        ensures { option_map (λ b. b.now) result ≡ text_in (shown self.now) }
    {
        let (_, content) = parts(self.bytes, TEXT)?;
        match str::from_utf8(content) {
            Ok(text) => Some(text),
            Err(_) => None,
        }
    }

    /// How many items an array has, or pairs a map; 0 of another value.
    pub fn len(&self) -> usize
        ensures { result ≡ len_in (shown self.now) }
    {
        if let Some((count, _)) = parts(self.bytes, ARRAY) {
            return count as usize;
        }
        match parts(self.bytes, MAP) {
            Some((count, _)) => count as usize,
            None => 0,
        }
    }

    /// The bytes, if this is a byte string.
    pub fn as_bytes(&self) -> Option<&'a [u8]>
        ensures { option_map (λ b. b.now) result ≡ bytes_in (shown self.now) }
    {
        let (_, content) = parts(self.bytes, BYTES)?;
        Some(content)
    }

    /// The items, if this is an array.
    pub fn as_array(&self) -> Option<ArrayView<'a>>
        ensures { option_map shown_items result ≡ items_in (shown self.now) }
    {
        let (left, bytes) = parts(self.bytes, ARRAY)?;
        Some(ArrayView { bytes, left })
    }

    /// The pairs of key and value, if this is a map.
    pub fn as_map(&self) -> Option<MapView<'a>>
        ensures { option_map shown_pairs result ≡ pairs_in (shown self.now) }
    {
        let (left, bytes) = parts(self.bytes, MAP)?;
        Some(MapView { bytes, left })
    }

    /// The item at this place, if this is an array that has one there.
    pub fn item(&self, index: usize) -> Option<View<'a>>
        ensures { option_map shown result ≡ item_in index (shown self.now) }
    {
        let mut items = self.as_array()?;
        for _ in 0..index {
            let (_, rest) = items.split_first()?;
            items = rest;
        }
        let (item, _) = items.split_first()?;
        Some(item)
    }

    /// The pair of key and value at this place, if this is a map that has one there.
    pub fn pair(&self, index: usize) -> Option<(View<'a>, View<'a>)>
        ensures { option_map (λ r. (shown r.0, shown r.1)) result ≡ pair_in index (shown self.now) }
    {
        let mut pairs = self.as_map()?;
        for _ in 0..index {
            let (_, _, rest) = pairs.split_first()?;
            pairs = rest;
        }
        let (key, value, _) = pairs.split_first()?;
        Some((key, value))
    }

    /// The value at this key, if this is a map that has it.
    pub fn get(&self, key: MapKey<'_>) -> Option<View<'a>>
        ensures { option_map shown result ≡ member (key_item key.entry) (shown self.now) }
    {
        let mut pairs = self.as_map()?;
        while let Some((found, value, rest)) = pairs.split_first() {
            if found.is_key(key) {
                return Some(value);
            }
            pairs = rest;
        }
        None
    }

    /// Whether the value is this key.
    pub fn is_key(&self, key: MapKey<'_>) -> bool
        ensures { result ≡ is_same_key (shown self.now) (key_item key.entry) }
    {
        is_key(self.bytes, key)
    }
}

impl<'a> ArrayView<'a> {
    /// The first item, and the items after it.
    pub fn split_first(&self) -> Option<(View<'a>, ArrayView<'a>)>
        ensures parts { option_map (λ r. (shown r.0, shown_items r.1)) result
            ≡ items_first (shown_items self.now) }
        ensures fewer { IfSome result (λ r. r.1.0 + 1 ≡ self.now.0) }
    {
        if self.left == 0 {
            return None;
        }
        let (item, rest) = known_front(self.bytes)?;
        Some((
            View { bytes: item },
            ArrayView {
                bytes: rest,
                left: self.left - 1,
            },
        ))
    }
}

impl<'a> MapView<'a> {
    /// The first pair's key and value, and the pairs after it.
    pub fn split_first(&self) -> Option<(View<'a>, View<'a>, MapView<'a>)>
        ensures parts { option_map (λ r. (shown r.0, shown r.1, shown_pairs r.2)) result
            ≡ pairs_first (shown_pairs self.now) }
        ensures fewer { IfSome result (λ r. r.2.0 + 1 ≡ self.now.0) }
    {
        if self.left == 0 {
            return None;
        }
        let (key, rest) = known_front(self.bytes)?;
        let (value, rest) = known_front(rest)?;
        Some((
            View { bytes: key },
            View { bytes: value },
            MapView {
                bytes: rest,
                left: self.left - 1,
            },
        ))
    }

    /// If the first pair has this key, its value and the pairs after it.
    pub fn split_key(&self, key: MapKey<'_>) -> Option<(View<'a>, MapView<'a>)>
        ensures { option_map (λ r. (shown r.0, shown_pairs r.1)) result
            ≡ split_key (key_item key.entry) (shown_pairs self.now) }
    {
        let (found, value, rest) = self.split_first()?;
        if !found.is_key(key) {
            return None;
        }
        Some((value, rest))
    }

    /// Whether no pairs are left.
    pub fn is_end(&self) -> bool
        ensures { result ≡ is_end (shown_pairs self.now) }
    {
        self.left == 0
    }
}
