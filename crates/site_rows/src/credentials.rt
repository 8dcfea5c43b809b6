//! The rows of credentials.

ghost use Rattle.std.specs.Prelude.{◌≡◌, ◌↔◌, ◌<◌, ◌^◌, ℕ, Some, IfOk, OnOk, IsErrOf, IsTrue, option_map};
ghost use Rattle.sqlite_value.specs.Value.{owned};
ghost use Rattle.sqlite_value.specs.declared.value.Value.TheVariants.{Blob};
ghost use Rattle.cose.specs.Keys.{IsKey, alg_of, lent_key_view, number_of, x_of};
ghost use Rattle.cose.specs.declared.key.CoseKey.{CoseKey};
ghost use Rattle.verification.specs.Records.{Credential};
ghost use Rattle.verification.specs.Views.{credential_view};
ghost use Rattle.site_state.specs.RowViews.{row_view};
ghost use Rattle.site_rows.specs.Rows.{IsStored, credential_row, y_value};
ghost use Rattle.site_rows.specs.Values.{blob_in};
ghost use Rattle.site_rows.specs.declared.error.RowError.TheVariants as errors;

use crate::error::RowError;
use crate::values::{blob_at, int_at, truth, truth_in, truth_or_null};
use cose::{Alg, KeyView, RsaView};
use site_state::Row as StoredRow;
use sqlite_value::row::Row;
use sqlite_value::value::ValueRef;
use std::alloc::{AllocError, Global};
use verification::RowView;

/// The values of the key's coordinates; of an RSA key its modulus and its exponent.
fn coordinates<'a>(key: &'a KeyView<'_>) -> (ValueRef<'a>, ValueRef<'a>)
    ensures x { owned result.0 ≡ Blob (x_of (lent_key_view key.now)) }
    ensures y { owned result.1 ≡ y_value (lent_key_view key.now) }
    ensures key { IsKey (lent_key_view key.now) }
{
    match key {
        KeyView::Es256 { x, y } => (ValueRef::Blob(x), ValueRef::Blob(y)),
        KeyView::EdDsa { x } => (ValueRef::Blob(x), ValueRef::Null),
        KeyView::Rs256(key) => (ValueRef::Blob(key.n), ValueRef::Blob(key.e)),
    }
}

/// The row of a credential at a place, from 1 on in order of registration.
pub fn credential_row(
    alloc: Global,
    place: u32,
    credential: &RowView<'_>,
) -> Result<Row, AllocError>
    ensures row { IfOk result (λ row. row ≡ credential_row place (credential_view credential.now)) }
    ensures stored { OnOk result (IsStored (credential_view credential.now)) }
{
    let (x, y) = coordinates(&credential.key);
    let mut row = Row::new(alloc);
    row.push(ValueRef::Int(i64::from(place)))?;
    row.push(ValueRef::Null)?;
    row.push(ValueRef::Blob(credential.id))?;
    row.push(ValueRef::Blob(credential.user))?;
    row.push(ValueRef::Int(credential.key.alg().number()))?;
    row.push(x)?;
    row.push(y)?;
    row.push(ValueRef::Int(i64::from(credential.sign_count)))?;
    row.push(truth_or_null(credential.eligible))?;
    row.push(truth(credential.retired))?;
    Ok(row)
}

/// The public key of an algorithm's number with these coordinates, or with this modulus and this exponent.
fn key_of<'a>(algorithm: i64, x: &'a [u8], y: Option<&'a [u8]>) -> Option<KeyView<'a>>
    ensures { (key : CoseKey) → IsKey key → number_of (alg_of key) ≡ algorithm → x_of key ≡ x.now → blob_in (y_value key) ≡ option_map (λ y. y.now) y.entry
        → option_map lent_key_view result ≡ Some key }
{
    if algorithm == Alg::Rs256.number() {
        return match RsaView::new(x, y?) {
            Some(key) => Some(KeyView::Rs256(key)),
            None => None,
        };
    }
    let Ok(x) = <[u8; 32]>::try_from(x) else {
        return None;
    };
    if algorithm == Alg::EdDsa.number() {
        return Some(KeyView::EdDsa { x });
    }
    match <[u8; 32]>::try_from(y?) {
        Ok(y) => Some(KeyView::Es256 { x, y }),
        Err(_) => None,
    }
}

/// The public key in a row.
fn key_in(row: &Row) -> Option<KeyView<'_>>
    ensures { (place : ℕ) (c : Credential) → IsKey c.key → row.now ≡ credential_row place c → option_map lent_key_view result ≡ Some c.key }
{
    let algorithm = int_at(row, 4)?;
    let x = blob_at(row, 5)?;
    key_of(algorithm, x, blob_at(row, 6))
}

/// The signature counter in a row.
fn sign_count_in(row: &Row) -> Option<u32>
    ensures { (place : ℕ) (c : Credential) → c.sign_count < 2 ^ 32 → row.now ≡ credential_row place c → result ≡ Some c.sign_count }
{
    match u32::try_from(int_at(row, 7)?) {
        Ok(sign_count) => Some(sign_count),
        Err(_) => None,
    }
}

/// The credential that a row seems to hold.
fn seen<'a>(row: &'a Row, key: KeyView<'a>) -> Option<RowView<'a>>
    ensures { (place : ℕ) (c : Credential) → c.sign_count < 2 ^ 32 → lent_key_view key.entry ≡ c.key → row.now ≡ credential_row place c
        → option_map credential_view result ≡ Some c }
{
    Some(RowView {
        id: blob_at(row, 2)?,
        user: blob_at(row, 3)?,
        key,
        sign_count: sign_count_in(row)?,
        eligible: truth_in(row, 8),
        retired: truth_in(row, 9)?,
    })
}

/// Whether a row is this credential's at this place.
fn is_row_of(
    alloc: Global,
    place: u32,
    credential: &RowView<'_>,
    row: &Row,
) -> Result<bool, AllocError>
    ensures { IfOk result (λ same. IsTrue same ↔ (row.now ≡ credential_row place (credential_view credential.now))) }
{
    let written = credential_row(alloc, place, credential)?;
    Ok(row.is_same(&written))
}

/// A copy of a credential.
fn copy_of(alloc: Global, credential: &RowView<'_>) -> Result<StoredRow, AllocError>
    ensures { IfOk result (λ c. row_view c ≡ credential_view credential.now) }
{
    Ok(StoredRow {
        id: Vec::from_slice(alloc, credential.id)?,
        user: Vec::from_slice(alloc, credential.user)?,
        key: credential.key.to_key(alloc)?,
        sign_count: credential.sign_count,
        eligible: credential.eligible,
        retired: credential.retired,
    })
}

/// The credential of a row at this place, copied out.
///
/// `BadRow` exactly where the row is no credential's at this place: a value of another type or length, a column too
/// many or too few, an algorithm that is not known, another rowid.
pub fn read_credential(alloc: Global, place: u32, row: &Row) -> Result<StoredRow, RowError>
    ensures read { IfOk result (λ c. row.now ≡ credential_row place (row_view c)) }
    // It is refused only if it is no credential's.
    ensures none { IsErrOf result errors.BadRow → (c : Credential) → IsStored c → row.now ≡ credential_row place c → ⊥ }
{
    let Some(key) = key_in(row) else {
        return Err(RowError::BadRow);
    };
    let Some(found) = seen(row, key) else {
        return Err(RowError::BadRow);
    };
    if !is_row_of(alloc, place, &found, row)? {
        return Err(RowError::BadRow);
    }
    Ok(copy_of(alloc, &found)?)
}
