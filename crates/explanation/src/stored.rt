//! The credential that a site stores once it has accepted a response.

use crate::facts::Facts;
use crate::numbers::numbers_of;
use authdata::{Profile, flags};
use base64::engine::general_purpose::URL_SAFE_NO_PAD;
use cose::KeyView;
use decoded::put_json;
use std::alloc::{AllocError, Global};
use std::fmt::Write;
use verification::attested_key;

/// Writes bytes in base64url, and a comma.
fn put_bytes(alloc: Global, name: &str, bytes: &[u8], out: &mut String) -> Result<(), AllocError> {
    let text = URL_SAFE_NO_PAD.encode(alloc, bytes)?;
    write!(out, "\"{name}\":\"{text}\",")
}

/// A credential as an object of JSON, after a response with these flags and this counter.
fn stored_text(
    alloc: Global,
    id: &[u8],
    user: &[u8],
    key: &KeyView<'_>,
    facts: &Facts<'_>,
) -> Result<Option<String>, AllocError> {
    let data = &facts.contents.auth_data;
    let (Some(byte), Some(count)) = (data.flags(), data.sign_count()) else {
        return Ok(None);
    };
    let numbers = numbers_of(key);
    let eligible = flags::is_set(byte, flags::BE);
    let mut out = String::new(alloc);
    out.push('{')?;
    put_bytes(alloc, "id", id, &mut out)?;
    put_bytes(alloc, "user", user, &mut out)?;
    put_json("algorithm", numbers.algorithm, &mut out)?;
    out.push(',')?;
    put_bytes(alloc, "x", numbers.x, &mut out)?;
    put_bytes(alloc, "y", numbers.y, &mut out)?;
    write!(
        &mut out,
        "\"sign_count\":{count},\"eligible\":{eligible},\"retired\":false}}"
    )?;
    Ok(Some(out))
}

/// The credential of a sign-in that is accepted.
pub(crate) fn stored_by_sign_in(
    alloc: Global,
    facts: &Facts<'_>,
) -> Result<Option<String>, AllocError> {
    match &facts.row {
        Some(row) => stored_text(alloc, row.id, row.user, &row.key, facts),
        None => Ok(None),
    }
}

/// The credential of a registration that is accepted.
pub(crate) fn stored_by_registration(
    alloc: Global,
    facts: &Facts<'_>,
    profile: Profile,
) -> Result<Option<String>, AllocError> {
    let Some(data) = facts
        .contents
        .attestation
        .and_then(|object| object.auth_data)
    else {
        return Ok(None);
    };
    let (Some(key), Some(attested)) = (
        attested_key(profile, data),
        facts.contents.auth_data.attested(),
    ) else {
        return Ok(None);
    };
    let user = match facts.session {
        Some(session) => session.user.unwrap_or(&[]),
        None => &[],
    };
    stored_text(alloc, attested.id, user, &key, facts)
}
