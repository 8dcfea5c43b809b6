//! The row of a sign-in's case.

use crate::case::{check_members, flag_or_none};
use crate::error::CaseError;
use ccbor::View;
use certificates::{PublicKey, read_key};
use cose::{Alg, CoseKey, KeyView};
use der::{Tag, read_whole};
use json_lines::{bytes, flag, member, optional_bytes};
use serde_json::Value;
use std::alloc::Global;
use verification::{RowView, key_from};

/// The members of a row.
const MEMBERS: [&str; 10] = [
    "id",
    "user",
    "cose_key",
    "spki_key",
    "algorithm",
    "x",
    "y",
    "sign_count",
    "eligible",
    "retired",
];

/// A credential as a site has it.
#[derive(Drop)]
pub struct CredentialRow {
    id: Vec<u8>,
    user: Vec<u8>,
    key: CoseKey,
    sign_count: u32,
    eligible: Option<bool>,
    retired: bool,
}

impl CredentialRow {
    /// The row, lent.
    pub fn view(&self) -> RowView<'_> {
        RowView {
            id: self.id.as_slice(),
            user: self.user.as_slice(),
            key: self.key.view(),
            sign_count: self.sign_count,
            eligible: self.eligible,
            retired: self.retired,
        }
    }
}

/// The algorithm of a COSE number.
pub(crate) fn algorithm_of(value: &Value) -> Option<Alg> {
    match value.as_i64() {
        Some(-7) => Some(Alg::Es256),
        Some(-8) => Some(Alg::EdDsa),
        Some(-257) => Some(Alg::Rs256),
        _ => None,
    }
}

/// The bytes of a member; none where it is absent.
fn bytes_or_empty(alloc: Global, row: &Value, name: &'static str) -> Result<Vec<u8>, CaseError> {
    match optional_bytes(alloc, row, name)? {
        Some(found) => Ok(found),
        None => Ok(Vec::new(alloc)),
    }
}

/// The key of these numbers.
fn key_of(
    alloc: Global,
    alg: Alg,
    x: &[u8],
    y: &[u8],
    name: &'static str,
) -> Result<CoseKey, CaseError> {
    match key_from(alg, x, y) {
        Ok(key) => Ok(key.to_key(alloc)?),
        Err(_) => Err(CaseError::BadForm(name)),
    }
}

/// The key of COSE_Key bytes (RFC 9052, section 7).
fn cose_key(alloc: Global, encoded: &[u8]) -> Result<CoseKey, CaseError> {
    let Ok(value) = View::check_all(encoded) else {
        return Err(CaseError::BadForm("cose_key"));
    };
    match KeyView::from_view(&value) {
        Ok(key) => Ok(key.to_key(alloc)?),
        Err(_) => Err(CaseError::BadForm("cose_key")),
    }
}

/// The key of SubjectPublicKeyInfo (RFC 5280, section 4.1), as a browser's `getPublicKey()` gives it.
fn spki_key(alloc: Global, encoded: &[u8]) -> Result<CoseKey, CaseError> {
    let Ok(info) = read_whole(Tag::universal(16, true), encoded) else {
        return Err(CaseError::BadForm("spki_key"));
    };
    match read_key(info) {
        Ok(PublicKey::P256 { x, y }) => key_of(alloc, Alg::Es256, x, y, "spki_key"),
        Ok(PublicKey::Ed25519 { key }) => key_of(alloc, Alg::EdDsa, key, &[], "spki_key"),
        Ok(PublicKey::Rsa { modulus, exponent }) => {
            key_of(alloc, Alg::Rs256, modulus, exponent, "spki_key")
        }
        _ => Err(CaseError::BadForm("spki_key")),
    }
}

/// The key of a row by its numbers.
fn numbered_key(alloc: Global, row: &Value) -> Result<CoseKey, CaseError> {
    let Some(alg) = row.get("algorithm").and_then(algorithm_of) else {
        return Err(CaseError::BadForm("algorithm"));
    };
    let x = bytes(alloc, row, "x")?;
    let y = bytes_or_empty(alloc, row, "y")?;
    key_of(alloc, alg, &x, &y, "x or y")
}

/// The key of a row.
fn row_key(alloc: Global, row: &Value) -> Result<CoseKey, CaseError> {
    if let Some(encoded) = optional_bytes(alloc, row, "cose_key")? {
        return cose_key(alloc, &encoded);
    }
    if let Some(encoded) = optional_bytes(alloc, row, "spki_key")? {
        return spki_key(alloc, &encoded);
    }
    numbered_key(alloc, row)
}

/// The counter of a row.
fn sign_count(row: &Value) -> Result<u32, CaseError> {
    let Some(value) = member(row, "sign_count") else {
        return Ok(0);
    };
    match value.as_u64().and_then(|n| u32::try_from(n).ok()) {
        Some(count) => Ok(count),
        None => Err(CaseError::BadForm("sign_count")),
    }
}

/// The row that a value is.
fn row_in(alloc: Global, row: &Value) -> Result<CredentialRow, CaseError> {
    check_members(row, "credential", &MEMBERS)?;
    Ok(CredentialRow {
        id: bytes(alloc, row, "id")?,
        user: bytes_or_empty(alloc, row, "user")?,
        key: row_key(alloc, row)?,
        sign_count: sign_count(row)?,
        eligible: flag_or_none(row, "eligible")?,
        retired: flag(row, "retired", false)?,
    })
}

/// The row of a case, where there is one.
pub(crate) fn credential_row(
    alloc: Global,
    case: &Value,
) -> Result<Option<CredentialRow>, CaseError> {
    match member(case, "credential") {
        Some(row) => Ok(Some(row_in(alloc, row)?)),
        None => Ok(None),
    }
}
