//! The items of an array, and the members of a map taken one after another in a table's order, where
//! they lie. No memory is taken.

ghost use Rattle.std.specs.Prelude.{◌≡◌, option_map};
ghost use Rattle.ccbor.specs.Access.{key_item, split_key, is_end, items_in, pairs_in};
ghost use Rattle.ccbor.specs.Viewing.{shown, shown_items, shown_pairs};
ghost use Rattle.ctap_encoding.specs.Reading.{Yields, checked, take_key};

use crate::map_error::Shape;
use ccbor::{ArrayView, MapKey, MapView, View};

/// The items of an array; another value is [`Shape`].
pub fn items<'a>(value: &View<'a>) -> Result<ArrayView<'a>, Shape>
    ensures { Yields shown_items result (items_in (shown value.now)) }
{
    match value.as_array() {
        Some(items) => Ok(items),
        None => Err(Shape),
    }
}

/// The members of a map; another value is [`Shape`].
pub fn members<'a>(value: &View<'a>) -> Result<MapView<'a>, Shape>
    ensures { Yields shown_pairs result (pairs_in (shown value.now)) }
{
    match value.as_map() {
        Some(pairs) => Ok(pairs),
        None => Err(Shape),
    }
}

/// The value of the first member, whose key must be this one, and the members after it; else
/// [`Shape`].
pub fn required<'a>(
    members: &MapView<'a>,
    key: MapKey<'_>,
) -> Result<(View<'a>, MapView<'a>), Shape>
    ensures { Yields (λ m. (shown m.0, shown_pairs m.1)) result
        (split_key (key_item key.entry) (shown_pairs members.now)) }
{
    match members.split_key(key) {
        Some(first) => Ok(first),
        None => Err(Shape),
    }
}

/// The value of the first member if its key is this one, and the members after it; else all members.
pub fn optional<'a>(members: MapView<'a>, key: MapKey<'_>) -> (Option<View<'a>>, MapView<'a>)
    ensures { (option_map shown result.0, shown_pairs result.1)
        ≡ take_key (key_item key.entry) (shown_pairs members.entry) }
{
    match members.split_key(key) {
        Some((value, rest)) => (Some(value), rest),
        None => (None, members),
    }
}

/// Refused as [`Shape`] if members are left.
pub fn end(members: &MapView<'_>) -> Result<(), Shape>
    ensures { Yields (λ u. u) result (checked (is_end (shown_pairs members.now))) }
{
    if members.is_end() { Ok(()) } else { Err(Shape) }
}
