//! Making the value of a record.

ghost use Rattle.std.specs.Prelude.{◌≡◌, ◌++◌, [], ◌∷◌, IfOk, OnOk, option_map};
ghost use Rattle.ccbor.specs.Access.{key_item};
ghost use Rattle.ccbor.specs.View.{view};
ghost use Rattle.ccbor.specs.Item.{text, bytes};
ghost use Rattle.ctap_encoding.specs.Building.{pair_list_view, member_list};

use ccbor::{MapKey, Value};
use std::alloc::{AllocError, Global};

/// The value of a text.
pub fn text_value(alloc: Global, content: &str) -> Result<Value, AllocError>
    ensures { IfOk result (λ v. view v ≡ text content.now) }
{
    Ok(Value::Text(String::from_str(alloc, content)?))
}

/// The value of a byte string.
pub fn bytes_value(alloc: Global, content: &[u8]) -> Result<Value, AllocError>
    ensures { IfOk result (λ v. view v ≡ bytes content.now) }
{
    Ok(Value::Bytes(Vec::from_slice(alloc, content)?))
}

/// A key, as a value.
fn key_value(alloc: Global, key: MapKey<'_>) -> Result<Value, AllocError>
    ensures { IfOk result (λ v. view v ≡ key_item key.entry) }
{
    match key {
        MapKey::Uint(n) => Ok(Value::Uint(n)),
        MapKey::Nint(n) => Ok(Value::Nint(n)),
        MapKey::Text(content) => text_value(alloc, content),
    }
}

/// Appends a member.
pub fn push_member(
    alloc: Global,
    pairs: &mut Vec<(Value, Value)>,
    key: MapKey<'_>,
    value: Value,
) -> Result<(), AllocError>
    ensures { OnOk result (pair_list_view pairs.new.items
        ≡ pair_list_view pairs.old.items ++ ((key_item key.entry, view value) ∷ [])) }
{
    let key = key_value(alloc, key)?;
    pairs.push((key, value))?;
    Ok(())
}

/// Appends a member that is there.
pub fn push_if_there(
    alloc: Global,
    pairs: &mut Vec<(Value, Value)>,
    key: MapKey<'_>,
    value: Option<Value>,
) -> Result<(), AllocError>
    ensures { OnOk result (pair_list_view pairs.new.items
        ≡ pair_list_view pairs.old.items ++ member_list (key_item key.entry) (option_map view value)) }
{
    match value {
        Some(value) => push_member(alloc, pairs, key, value),
        None => Ok(()),
    }
}
