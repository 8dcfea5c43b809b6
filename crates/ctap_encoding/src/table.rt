//! Tables of a map's members.

use crate::fault::Fault;
use ccbor::MapKey;

/// What a member of a map may hold.
#[derive(Clone, Copy)]
pub enum Holds {
    /// A number.
    Number,
    /// A byte string.
    Bytes,
    /// A text.
    Text,
    /// A truth value.
    Truth,
    /// A map whose inside isn't looked at.
    AnyMap,
    /// This text.
    ThatText(&'static str),
    /// An unsigned number, at least this one.
    Unsigned(u64),
    /// A map of texts to truth values.
    Truths,
    /// An array of such items.
    List(&'static Holds),
    /// A map of these members, in the canonical order of their keys: the key, whether it is
    /// required, and what it holds.
    Record(&'static [(MapKey<'static>, bool, Holds)]),
    /// With a byte or an item; else there is this fault.
    NotEmpty(Fault, &'static Holds),
    /// Of this many bytes or items, from the first to the second number; else there is this fault.
    Sized(u64, u64, Fault, &'static Holds),
}
