//! The session of a case.

use crate::case::{challenge, check_members};
use crate::error::CaseError;
use crate::row::algorithm_of;
use cose::Alg;
use json_lines::{flag, items, list_of_bytes, member, optional_bytes};
use serde_json::Value;
use std::alloc::{AllocError, Global};
use verification::{RegistrationSession, SignInSession};

/// The members of a sign-in's session.
const SIGN_IN: [&str; 4] = ["challenge", "user", "user_verification", "allow"];

/// The members of a registration's session.
const REGISTRATION: [&str; 6] = [
    "challenge",
    "user",
    "user_verification",
    "algorithms",
    "conditional",
    "attestation",
];

/// The session of a sign-in.
fn sign_in_session(alloc: Global, session: &Value) -> Result<SignInSession, CaseError> {
    check_members(session, "session", &SIGN_IN)?;
    Ok(SignInSession {
        user: optional_bytes(alloc, session, "user")?,
        allow: list_of_bytes(alloc, session, "allow")?,
        uv: flag(session, "user_verification", false)?,
        challenge: challenge(alloc, session)?,
    })
}

/// All algorithms.
fn all_algorithms(alloc: Global) -> Result<Vec<Alg>, AllocError> {
    let mut found = Vec::new(alloc);
    for alg in [Alg::Es256, Alg::EdDsa, Alg::Rs256] {
        found.push(alg)?;
    }
    Ok(found)
}

/// The algorithms that a registration offered: all, if none are said.
fn algorithms(alloc: Global, session: &Value) -> Result<Vec<Alg>, CaseError> {
    if member(session, "algorithms").is_none() {
        return Ok(all_algorithms(alloc)?);
    }
    let mut found = Vec::new(alloc);
    for item in items(session, "algorithms")? {
        match algorithm_of(item) {
            Some(alg) => found.push(alg)?,
            None => return Err(CaseError::BadForm("algorithms")),
        }
    }
    if found.is_empty() {
        return Err(CaseError::BadForm("algorithms"));
    }
    Ok(found)
}

/// The user handle of a registration's session.
fn user(alloc: Global, session: &Value) -> Result<Vec<u8>, CaseError> {
    match optional_bytes(alloc, session, "user")? {
        Some(user) => Ok(user),
        None => Ok(Vec::new(alloc)),
    }
}

/// The session of a registration.
fn registration_session(alloc: Global, session: &Value) -> Result<RegistrationSession, CaseError> {
    check_members(session, "session", &REGISTRATION)?;
    Ok(RegistrationSession {
        user: user(alloc, session)?,
        algorithms: algorithms(alloc, session)?,
        uv: flag(session, "user_verification", false)?,
        challenge: challenge(alloc, session)?,
        conditional: flag(session, "conditional", false)?,
        attestation: flag(session, "attestation", true)?,
    })
}

/// The session of a sign-in's case, where one is open.
pub(crate) fn of_sign_in(alloc: Global, case: &Value) -> Result<Option<SignInSession>, CaseError> {
    match member(case, "session") {
        Some(session) => Ok(Some(sign_in_session(alloc, session)?)),
        None => Ok(None),
    }
}

/// The session of a registration's case, where one is open.
pub(crate) fn of_registration(
    alloc: Global,
    case: &Value,
) -> Result<Option<RegistrationSession>, CaseError> {
    match member(case, "session") {
        Some(session) => Ok(Some(registration_session(alloc, session)?)),
        None => Ok(None),
    }
}
