//! The signature that a response has, which is for the caller to verify.

use authdata::AttestationView;
use std::alloc::{AllocError, Global};
use verification::{RegistrationAttempt, SignInAttempt, VerifiedSignature, attested_key};

/// The signature of a sign-in, under the key of its row; none without a row.
pub(crate) fn of_sign_in(
    alloc: Global,
    attempt: &SignInAttempt<'_, '_>,
) -> Result<Option<VerifiedSignature>, AllocError> {
    let Some(row) = attempt.credential else {
        return Ok(None);
    };
    let response = attempt.response;
    let asked = VerifiedSignature::of_response(
        alloc,
        &row.key,
        response.auth_data,
        response.client_data,
        response.signature,
    )?;
    Ok(Some(asked))
}

/// The signature by which a registration attests its own key; none where it has none.
pub(crate) fn of_registration(
    alloc: Global,
    attempt: &RegistrationAttempt<'_, '_>,
) -> Result<Option<VerifiedSignature>, AllocError> {
    let Some(object) = AttestationView::read(attempt.response.object) else {
        return Ok(None);
    };
    let Some(key) = attested_key(attempt.party.profile(), object.auth_data) else {
        return Ok(None);
    };
    let Some(signature) = object.self_signature(&key) else {
        return Ok(None);
    };
    let asked = VerifiedSignature::of_response(
        alloc,
        &key,
        object.auth_data,
        attempt.response.client_data,
        signature,
    )?;
    Ok(Some(asked))
}
