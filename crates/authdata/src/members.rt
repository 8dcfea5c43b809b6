//! The members of an attestation object's value.

ghost use Rattle.std.specs.Prelude.{◌≡◌, ◌↔◌, IfOk, IsTrue, MatchOption, codes};
ghost use Rattle.ccbor.specs.Item.{map, no_pairs, pair, text};
ghost use Rattle.ccbor.specs.View.{view};
ghost use Rattle.authdata.specs.Objects.{Attestation, object_item, object_view};
ghost use Rattle.authdata.specs.Private.{HasThree, ObjectItem, PartsOf};

use crate::object::AttestationObject;
use ccbor::{MapKey, Value};
use std::alloc::{AllocError, Global};

/// A key and its value.
type Member = (Value, Value);

/// The members of a map of three.
fn three_members(value: Value) -> Option<(Member, Member, Member)>
    ensures { MatchOption result (HasThree (view value) → ⊥)
        (λ m. view value ≡ map (pair (view m.0.0) (view m.0.1)
        (pair (view m.1.0) (view m.1.1) (pair (view m.2.0) (view m.2.1) no_pairs)))) }
{
    let Value::Map(mut members) = value else {
        return None;
    };
    let third = members.pop()?;
    let second = members.pop()?;
    let first = members.pop()?;
    if members.len() != 0 {
        return None;
    }
    Some((first, second, third))
}

/// Whether these are the keys of an attestation object, in their order.
fn are_keys(first: &Value, second: &Value, third: &Value) -> bool
    ensures { IsTrue result ↔ ((view first.now ≡ text (codes "fmt"))
        × (view second.now ≡ text (codes "attStmt")) × (view third.now ≡ text (codes "authData"))) }
{
    first.is_key(MapKey::Text("fmt"))
        && second.is_key(MapKey::Text("attStmt"))
        && third.is_key(MapKey::Text("authData"))
}

/// The object of these parts.
fn object_from(fmt: Value, statement: Value, auth_data: Value) -> Option<AttestationObject>
    ensures { MatchOption result
        ((o : Attestation) → PartsOf o (view fmt) (view statement) (view auth_data) → ⊥)
        (λ o. PartsOf (object_view o) (view fmt) (view statement) (view auth_data)) }
{
    if statement.as_map().is_none() {
        return None;
    }
    match (fmt, auth_data) {
        (Value::Text(fmt), Value::Bytes(auth_data)) => Some(AttestationObject {
            fmt,
            auth_data,
            statement,
        }),
        _ => None,
    }
}

/// The object that has this value.
pub fn object_of(value: Value) -> Option<AttestationObject>
    ensures { MatchOption result ((o : Attestation) → ObjectItem o (view value) → ⊥)
        (λ o. ObjectItem (object_view o) (view value)) }
{
    let ((first, fmt), (second, statement), (third, auth_data)) = three_members(value)?;
    if !are_keys(&first, &second, &third) {
        return None;
    }
    object_from(fmt, statement, auth_data)
}

/// The object's value.
pub fn value_of(alloc: Global, object: AttestationObject) -> Result<Value, AllocError>
    ensures { IfOk result (λ v. view v ≡ object_item (object_view object)) }
{
    let AttestationObject {
        fmt,
        auth_data,
        statement,
    } = object;
    let fmt = Value::Text(fmt);
    let auth_data = Value::Bytes(auth_data);
    let mut pairs = Vec::new(alloc);
    pairs.push((Value::Text(String::from_str(alloc, "fmt")?), fmt))?;
    pairs.push((Value::Text(String::from_str(alloc, "attStmt")?), statement))?;
    pairs.push((Value::Text(String::from_str(alloc, "authData")?), auth_data))?;
    Ok(Value::Map(pairs))
}
