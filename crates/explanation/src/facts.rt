//! What is known of a response and of what it is verified by.

use crate::contents::Contents;
use cose::Alg;
use explanation_case::{Kind, Parts, RegistrationCase, SignInCase};
use serde_json::Value;
use verification::{Policy, RowView, VerifiedSignature};

/// A session of either kind.
#[derive(Clone, Copy, Drop)]
pub(crate) struct SessionFacts<'a> {
    pub challenge: &'a [u8],
    pub user: Option<&'a [u8]>,
    pub allow: &'a [Vec<u8>],
    pub algorithms: &'a [Alg],
    pub uv: bool,
    pub conditional: bool,
    pub attestation: bool,
}

/// What the steps look at.
#[derive(Clone, Copy, Drop)]
pub(crate) struct Facts<'a> {
    pub case: &'a Value,
    pub kind: Kind,
    pub parts: &'a Parts,
    pub contents: &'a Contents<'a>,
    pub rp_id: &'a str,
    pub session: Option<SessionFacts<'a>>,
    pub row: Option<RowView<'a>>,
    pub policy: Policy,
    pub is_registered: bool,
    pub is_full: bool,
    /// The signature that the verdict depends on.
    pub asked: Option<&'a VerifiedSignature>,
    /// Whether it is valid, if that is known.
    pub valid: Option<bool>,
}

/// The session of a sign-in.
pub(crate) fn sign_in_session<'a>(case: &'a SignInCase<'_>) -> Option<SessionFacts<'a>> {
    let session = case.session.as_ref()?;
    Some(SessionFacts {
        challenge: &session.challenge,
        user: session.user.as_deref(),
        allow: session.allow.as_slice(),
        algorithms: &[],
        uv: session.uv,
        conditional: false,
        attestation: false,
    })
}

/// The session of a registration.
pub(crate) fn registration_session<'a>(case: &'a RegistrationCase<'_>) -> Option<SessionFacts<'a>> {
    let session = case.session.as_ref()?;
    Some(SessionFacts {
        challenge: &session.challenge,
        user: Some(session.user.as_slice()),
        allow: &[],
        algorithms: session.algorithms.as_slice(),
        uv: session.uv,
        conditional: session.conditional,
        attestation: session.attestation,
    })
}
