//! A value, and a key of a map.

/// At most this many arrays and maps lie in one another (CTAP 2.1, "Message Encoding": four levels
/// of nesting). [`decode`](crate::decode) refuses more as NotCanonical, and
/// [`encode`](crate::encode) as Unfit.
pub const MAX_DEPTH: u8 = 4;

/// A value of canonical CBOR, by the major types of RFC 8949, section 3.1.
///
/// A value that is made by hand may have no encoding, where arrays and maps lie deeper than
/// [`MAX_DEPTH`], or a map's keys are of another kind or out of order:
/// [`encode`](crate::encode) tells.
#[derive(Debug, Drop)]
pub enum Value {
    /// The number n, from 0 to 2^64 - 1 (major type 0).
    Uint(u64),
    /// The number -1 - n, from -1 down to -2^64 (major type 1).
    Nint(u64),
    /// A byte string (major type 2).
    Bytes(Vec<u8>),
    /// A text, encoded as its UTF-8 (major type 3).
    Text(String),
    /// An array of items (major type 4).
    Array(Vec<Value>),
    /// The pairs of key and value (major type 5). Keys are `Uint`, `Nint` or `Text`, each before
    /// the next in the order of CTAP 2.1: the lower major type first, then the shorter encoding,
    /// then the lower byte where they first differ.
    Map(Vec<(Value, Value)>),
    /// False or true (major type 7, arguments 20 and 21; RFC 8949, section 3.3).
    Bool(bool),
}

/// A key of a map, to look it up.
#[derive(Clone, Copy, Debug)]
pub enum MapKey<'k> {
    /// The number n.
    Uint(u64),
    /// The number -1 - n.
    Nint(u64),
    /// A text.
    Text(&'k str),
}
