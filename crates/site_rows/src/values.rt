//! Values of columns.

ghost use Rattle.std.specs.Prelude.{◌≡◌, Bool, Option, Some, option_map};
ghost use Rattle.sqlite_value.specs.Order.{column};
ghost use Rattle.sqlite_value.specs.Value.{owned};
ghost use Rattle.site_rows.specs.Values.{blob_in, int_in, text_in, truth_or_null, truth_value};

use sqlite_value::row::Row;
use sqlite_value::value::ValueRef;

/// The value of a truth value.
pub fn truth<'a>(truth: bool) -> ValueRef<'a>
    ensures { owned result ≡ truth_value truth }
{
    if truth {
        ValueRef::Int(1)
    } else {
        ValueRef::Int(0)
    }
}

/// The value of a truth value that may not be known.
pub fn truth_or_null<'a>(known: Option<bool>) -> ValueRef<'a>
    ensures { owned result ≡ truth_or_null known }
{
    match known {
        None => ValueRef::Null,
        Some(known) => truth(known),
    }
}

/// The bytes of the blob in a column.
pub fn blob_at(row: &Row, at: usize) -> Option<&[u8]>
    ensures { option_map (λ b. b.now) result ≡ blob_in (column row.now at) }
{
    match row.get(at) {
        ValueRef::Blob(bytes) => Some(bytes),
        _ => None,
    }
}

/// The bytes of the text in a column.
pub fn text_at(row: &Row, at: usize) -> Option<&[u8]>
    ensures { option_map (λ t. t.now) result ≡ text_in (column row.now at) }
{
    match row.get(at) {
        ValueRef::Text(bytes) => Some(bytes),
        _ => None,
    }
}

/// The integer in a column.
pub fn int_at(row: &Row, at: usize) -> Option<i64>
    ensures { result ≡ int_in (column row.now at) }
{
    match row.get(at) {
        ValueRef::Int(number) => Some(number),
        _ => None,
    }
}

/// The truth value in a column.
pub fn truth_in(row: &Row, at: usize) -> Option<bool>
    ensures known { (known : Option Bool) → column row.now at ≡ truth_or_null known → result ≡ known }
    ensures there { (truth : Bool) → column row.now at ≡ truth_value truth → result ≡ Some truth }
{
    match int_at(row, at)? {
        0 => Some(false),
        1 => Some(true),
        _ => None,
    }
}
