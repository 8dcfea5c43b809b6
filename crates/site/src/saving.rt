//! Saving.

ghost use Rattle.std.specs.Prelude.{◌≡◌, ◌≤◌, map, IfOk, OnErr, OnOk, option_map};
ghost use Rattle.refusal_order.specs.Lines.{Each};
ghost use Rattle.ccbor.specs.Item.{boolean};
ghost use Rattle.ccbor.specs.View.{items_of, items_view, view};
ghost use Rattle.verification.specs.Views.{credential_view};
ghost use Rattle.site_state.specs.Table.{IsTable};
ghost use Rattle.authdata.specs.declared.profile.Profile.TheVariants.{Open};
ghost use Rattle.site.specs.Saved.{AppendsTable, FitsVersion, credential_item, table_item, true_if, version_of};

use crate::reading::needs_version_4;
use ccbor::{MapKey, Value, encode};
use ctap_encoding::{bytes_value, push_if_there, push_member, text_value};
use site_state::Table;
use std::alloc::{AllocError, Global};
use verification::RowView;

/// The version that is written: the last where a credential of the table needs it.
pub fn version_of(table: &Table) -> u64
    ensures { result ≡ version_of table.now }
{
    for row in table.rows() {
        if needs_version_4(row.id, &row.key) {
            return 4;
        }
    }
    3
}

/// The value of a truth value that may be absent.
fn truth_value(truth: Option<bool>) -> Option<Value>
    ensures { option_map view result ≡ option_map boolean truth }
{
    match truth {
        Some(truth) => Some(Value::Bool(truth)),
        None => None,
    }
}

/// The mark of a credential that is retired.
fn retired_value(retired: bool) -> Option<Value>
    ensures { option_map view result ≡ true_if retired }
{
    if retired {
        Some(Value::Bool(true))
    } else {
        None
    }
}

/// The value of a credential's map.
fn credential_value(alloc: Global, row: &RowView<'_>) -> Result<Value, AllocError>
    ensures fits { IfOk result (λ _. FitsVersion 4 (credential_view row.now)) }
    ensures value { IfOk result (λ v. view v ≡ credential_item (credential_view row.now)) }
{
    let id = bytes_value(alloc, row.id)?;
    let user = bytes_value(alloc, row.user)?;
    let key = row.key.to_value(alloc)?;
    let mut pairs = Vec::new(alloc);
    push_member(alloc, &mut pairs, MapKey::Uint(1), id)?;
    push_member(alloc, &mut pairs, MapKey::Uint(2), user)?;
    push_member(alloc, &mut pairs, MapKey::Uint(3), key)?;
    push_member(
        alloc,
        &mut pairs,
        MapKey::Uint(4),
        Value::Uint(u64::from(row.sign_count)),
    )?;
    push_if_there(
        alloc,
        &mut pairs,
        MapKey::Uint(5),
        truth_value(row.eligible),
    )?;
    push_if_there(
        alloc,
        &mut pairs,
        MapKey::Uint(6),
        retired_value(row.retired),
    )?;
    Ok(Value::Map(pairs))
}

/// The values of the credentials' maps, in their order.
fn credential_values(alloc: Global, table: &Table) -> Result<Vec<Value>, AllocError>
    ensures fit { OnOk result (IsTable Open table.now × Each (FitsVersion 4) table.now) }
    ensures values { IfOk result (λ vs. items_view vs.items ≡ items_of (map credential_item table.now)) }
{
    let mut values = Vec::new(alloc);
    for row in table.rows() {
        values.push(credential_value(alloc, &row)?)?;
    }
    Ok(values)
}

/// The value of the whole table.
fn table_value(alloc: Global, rp_id: &str, next: u64, table: &Table) -> Result<Value, AllocError>
    ensures fit { OnOk result (IsTable Open table.now × Each (FitsVersion 4) table.now) }
    ensures value { IfOk result (λ v. view v
        ≡ table_item (version_of table.now) (record { rp_id = rp_id.now; next = next; rows = table.now })) }
{
    let credentials = credential_values(alloc, table)?;
    let rp_id = text_value(alloc, rp_id)?;
    let mut pairs = Vec::new(alloc);
    push_member(
        alloc,
        &mut pairs,
        MapKey::Uint(1),
        Value::Uint(version_of(table)),
    )?;
    push_member(alloc, &mut pairs, MapKey::Uint(2), rp_id)?;
    push_member(alloc, &mut pairs, MapKey::Uint(3), Value::Uint(next))?;
    push_member(
        alloc,
        &mut pairs,
        MapKey::Uint(4),
        Value::Array(credentials),
    )?;
    Ok(Value::Map(pairs))
}

/// Appends the bytes of a relying party's rp id, the number of its next session and its credentials, in version 3,
/// or in version 4 where an id of more than 64 bytes or an RSA key stands in the table. The number is at least 1. Where
/// there is no memory the output's bytes are as they were.
pub fn save(rp_id: &str, next: u64, table: &Table, out: &mut Vec<u8>) -> Result<(), AllocError>
    requires { 1 ≤ next }
    ensures saved { OnOk result (AppendsTable
        (record { rp_id = rp_id.now; next = next; rows = table.now }) out.old.items out.new.items) }
    ensures unchanged { OnErr result (out.new.items ≡ out.old.items) }
{
    // Its length is that of a text in memory.
    let _length = rp_id.len();
    let value = table_value(*out.allocator(), rp_id, next, table)?;
    match encode(&value, out) {
        Ok(()) => Ok(()),
        Err(error) => match error {
            ccbor::Error::Memory => Err(AllocError),
            _ => unreachable!(),
        },
    }
}
