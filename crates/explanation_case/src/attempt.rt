//! A case read as what a relying party verifies.

use crate::case::{check_case, check_response, flag_or_none, party_of, policy_of};
use crate::error::CaseError;
use crate::parts::{Parts, part, part_or_none};
use crate::row::{CredentialRow, credential_row};
use crate::sessions;
use json_lines::{flag, needed};
use serde_json::Value;
use std::alloc::Global;
use verification::{
    AssertionParts, Policy, RegistrationParts, RegistrationSession, RelyingParty, SignInSession,
};

/// A sign-in, and what it is verified by.
#[derive(Drop)]
pub struct SignInCase<'a> {
    pub party: RelyingParty,
    pub session: Option<SignInSession>,
    pub row: Option<CredentialRow>,
    pub response: AssertionParts<'a>,
    /// Whether its signature is valid, if the case says so.
    pub said: Option<bool>,
}

impl<'a> SignInCase<'a> {
    /// Reads the case of a response with these parts.
    pub fn read(
        alloc: Global,
        case: &Value,
        inner: &Value,
        parts: &'a Parts,
    ) -> Result<SignInCase<'a>, CaseError> {
        check_case(case)?;
        let party = party_of(alloc, case)?;
        policy_of(case)?;
        let session = sessions::of_sign_in(alloc, case)?;
        let row = credential_row(alloc, case)?;
        let response = needed(case, "response")?;
        check_response(response)?;
        Ok(SignInCase {
            party,
            session,
            row,
            response: AssertionParts {
                credential: part(&parts.raw_id, response, "rawId")?,
                user: part_or_none(&parts.user_handle, inner, "userHandle")?,
                auth_data: part(&parts.auth_data, inner, "authenticatorData")?,
                signature: part(&parts.signature, inner, "signature")?,
                client_data: part(&parts.client_data, inner, "clientDataJSON")?,
            },
            said: flag_or_none(case, "signature_verified")?,
        })
    }
}

/// A registration, and what it is verified by.
#[derive(Drop)]
pub struct RegistrationCase<'a> {
    pub party: RelyingParty,
    pub policy: Policy,
    pub session: Option<RegistrationSession>,
    pub response: RegistrationParts<'a>,
    /// Whether its statement's signature is valid, if the case says so.
    pub said: Option<bool>,
    /// Whether a credential with its id is registered.
    pub is_registered: bool,
    /// Whether there is no room for another credential.
    pub is_full: bool,
}

impl<'a> RegistrationCase<'a> {
    /// Reads the case of a response with these parts.
    pub fn read(
        alloc: Global,
        case: &Value,
        inner: &Value,
        parts: &'a Parts,
    ) -> Result<RegistrationCase<'a>, CaseError> {
        check_case(case)?;
        let party = party_of(alloc, case)?;
        let policy = policy_of(case)?;
        let session = sessions::of_registration(alloc, case)?;
        let response = needed(case, "response")?;
        check_response(response)?;
        Ok(RegistrationCase {
            party,
            policy,
            session,
            response: RegistrationParts {
                object: part(&parts.object, inner, "attestationObject")?,
                client_data: part(&parts.client_data, inner, "clientDataJSON")?,
                raw_id: Some(part(&parts.raw_id, response, "rawId")?),
            },
            said: flag_or_none(case, "signature_verified")?,
            is_registered: flag(case, "registered", false)?,
            is_full: flag(case, "full", false)?,
        })
    }
}
