//! The bytes of a response (WebAuthn Level 3, section 5.1).

use crate::error::CaseError;
use json_lines::{LineError, member, optional_bytes};
use serde_json::Value;
use std::alloc::{AllocError, Global};

/// The bytes of a response's members; none where one is absent or not in base64url.
#[derive(Drop)]
pub struct Parts {
    pub raw_id: Option<Vec<u8>>,
    pub client_data: Option<Vec<u8>>,
    pub object: Option<Vec<u8>>,
    pub auth_data: Option<Vec<u8>>,
    pub signature: Option<Vec<u8>>,
    pub user_handle: Option<Vec<u8>>,
}

/// The bytes of a member; none where it is absent or not in its form.
fn readable(
    alloc: Global,
    object: &Value,
    name: &'static str,
) -> Result<Option<Vec<u8>>, AllocError> {
    match optional_bytes(alloc, object, name) {
        Ok(found) => Ok(found),
        Err(LineError::Memory) => Err(AllocError),
        Err(_) => Ok(None),
    }
}

impl Parts {
    /// Reads a response and its inner part.
    pub fn read(alloc: Global, response: &Value, inner: &Value) -> Result<Parts, AllocError> {
        Ok(Parts {
            raw_id: readable(alloc, response, "rawId")?,
            client_data: readable(alloc, inner, "clientDataJSON")?,
            object: readable(alloc, inner, "attestationObject")?,
            auth_data: readable(alloc, inner, "authenticatorData")?,
            signature: readable(alloc, inner, "signature")?,
            user_handle: readable(alloc, inner, "userHandle")?,
        })
    }
}

/// The bytes of a member that a case needs.
pub(crate) fn part<'a>(
    found: &'a Option<Vec<u8>>,
    object: &Value,
    name: &'static str,
) -> Result<&'a [u8], CaseError> {
    match found {
        Some(bytes) => Ok(bytes.as_slice()),
        None if member(object, name).is_some() => Err(CaseError::BadForm(name)),
        None => Err(CaseError::Missing(name)),
    }
}

/// The bytes of a member that may be absent.
pub(crate) fn part_or_none<'a>(
    found: &'a Option<Vec<u8>>,
    object: &Value,
    name: &'static str,
) -> Result<Option<&'a [u8]>, CaseError> {
    match found {
        Some(bytes) => Ok(Some(bytes.as_slice())),
        None if member(object, name).is_some() => Err(CaseError::BadForm(name)),
        None => Ok(None),
    }
}
