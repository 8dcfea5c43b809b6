//! The rows of details.

ghost use Rattle.std.specs.Prelude.{◌≡◌, IfOk, List, ℕ, ℤ, Option, Some, option_map};
ghost use Rattle.sqlite_value.specs.Order.{column};
ghost use Rattle.sqlite_value.specs.Value.{owned};
ghost use Rattle.site_state.specs.Details.{Detail as Known, detail_view, told};
ghost use Rattle.site_rows.specs.Details.{blob_or_null, detail_row, int_or_null};

use crate::values::text_at;
use site_state::Detail;
use sqlite_value::row::Row;
use sqlite_value::value::ValueRef;
use std::alloc::{AllocError, Global};

/// The value of a number that may not be known.
fn int_or_null<'a>(known: Option<i64>) -> ValueRef<'a>
    ensures { owned result ≡ int_or_null known }
{
    match known {
        Some(number) => ValueRef::Int(number),
        None => ValueRef::Null,
    }
}

/// The value of bytes that may not be known.
fn blob_or_null(known: Option<&[u8]>) -> ValueRef<'_>
    ensures { owned result ≡ blob_or_null (option_map (λ b. b.now) known.entry) }
{
    match known {
        Some(bytes) => ValueRef::Blob(bytes),
        None => ValueRef::Null,
    }
}

/// The row of a detail at a credential's place.
pub fn detail_row(alloc: Global, place: u32, detail: &Detail) -> Result<Row, AllocError>
    ensures { IfOk result (λ row. row ≡ detail_row place (detail_view detail.now)) }
{
    let mut row = Row::new(alloc);
    row.push(ValueRef::Int(i64::from(place)))?;
    row.push(ValueRef::Null)?;
    row.push(int_or_null(detail.created_at))?;
    row.push(int_or_null(detail.used_at))?;
    row.push(ValueRef::Text(&detail.transports))?;
    row.push(blob_or_null(detail.aaguid.as_deref()))?;
    Ok(row)
}

/// The number in a column, or that it is not known; none where the column has another value.
fn int_or_null_at(row: &Row, at: usize) -> Option<Option<i64>>
    ensures { (known : Option ℤ) → column row.now at ≡ int_or_null known → result ≡ Some known }
{
    match row.get(at) {
        ValueRef::Int(number) => Some(Some(number)),
        ValueRef::Null => Some(None),
        _ => None,
    }
}

/// The bytes in a column, or that they are not known; none where the column has another value.
fn blob_or_null_at(row: &Row, at: usize) -> Option<Option<&[u8]>>
    ensures { (known : Option (List ℕ)) → column row.now at ≡ blob_or_null known → option_map (λ b. option_map (λ b. b.now) b) result ≡ Some known }
{
    match row.get(at) {
        ValueRef::Blob(bytes) => Some(Some(bytes)),
        ValueRef::Null => Some(None),
        _ => None,
    }
}

/// A copy of what a row tells.
fn copied(
    alloc: Global,
    created_at: Option<i64>,
    used_at: Option<i64>,
    transports: &[u8],
    aaguid: Option<&[u8]>,
) -> Result<Detail, AllocError>
    ensures { IfOk result (λ d. detail_view d ≡ told created_at used_at transports.now (option_map (λ b. b.now) aaguid.entry)) }
{
    Ok(Detail {
        created_at,
        used_at,
        transports: Vec::from_slice(alloc, transports)?,
        aaguid: match aaguid {
            Some(bytes) => Some(Vec::from_slice(alloc, bytes)?),
            None => None,
        },
    })
}

/// The detail of a row, copied out; none where a column has a value of another type.
pub fn read_detail(alloc: Global, row: &Row) -> Result<Option<Detail>, AllocError>
    ensures { IfOk result (λ found. (place : ℕ) (d : Known) → row.now ≡ detail_row place d → option_map detail_view found ≡ Some d) }
{
    let Some(created_at) = int_or_null_at(row, 2) else {
        return Ok(None);
    };
    let Some(used_at) = int_or_null_at(row, 3) else {
        return Ok(None);
    };
    let Some(transports) = text_at(row, 4) else {
        return Ok(None);
    };
    let Some(aaguid) = blob_or_null_at(row, 5) else {
        return Ok(None);
    };
    let detail = copied(alloc, created_at, used_at, transports, aaguid)?;
    Ok(Some(detail))
}
