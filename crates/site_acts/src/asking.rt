//! Which signature a host is to verify.

ghost use Rattle.std.specs.Prelude.{◌≡◌, ◌++◌, IfErr, IfOk, IfSome};
ghost use Rattle.sha2.specs.Sha256.{sha256};
ghost use Rattle.authdata.specs.Objects.{ObjectOf, lent_object_view};
ghost use Rattle.authdata.specs.Responses.{registration_response_view};
ghost use Rattle.site_state.specs.RowViews.{row_view};
ghost use Rattle.site_acts.specs.Asked.{RegistrationAsks};

use authdata::{AssertionResponse, AttestationView, Profile, RegistrationResponse};
use site_state::Row;
use std::alloc::{AllocError, Global};
use verification::{VerifiedSignature, attested_key};

/// The signature of a sign-in's response, under the key of its credential.
pub fn sign_in_asks(
    alloc: Global,
    row: &Row,
    response: &AssertionResponse,
) -> Result<VerifiedSignature, AllocError>
    ensures key { IfOk result (λ asked. asked.key ≡ (row_view row.now).key) }
    ensures message { IfOk result (λ asked. asked.message.items ≡ response.now.auth_data.items ++ sha256 response.now.client_data.items) }
    ensures signature { IfOk result (λ asked. asked.signature.items ≡ response.now.signature.items) }
{
    VerifiedSignature::of_response(
        alloc,
        &row.key.view(),
        response.auth_data.as_slice(),
        response.client_data.as_slice(),
        response.signature.as_slice(),
    )
}

/// The signature by which an object attests its own key; nothing where it has none.
fn self_asks(
    alloc: Global,
    profile: Profile,
    object: &AttestationView<'_>,
    response: &RegistrationResponse,
) -> Result<Option<VerifiedSignature>, AllocError>
    requires { ObjectOf (lent_object_view object.now) response.now.object.items }
    ensures { IfOk result (λ asked. IfSome asked (RegistrationAsks profile (registration_response_view response.now))) }
{
    let Some(key) = attested_key(profile, object.auth_data) else {
        return Ok(None);
    };
    let Some(signature) = object.self_signature(&key) else {
        return Ok(None);
    };
    Ok(Some(VerifiedSignature::of_response(
        alloc,
        &key,
        object.auth_data,
        response.client_data.as_slice(),
        signature,
    )?))
}

/// The signature of a registration's self attestation; nothing where it has none.
pub fn registration_asks(
    alloc: Global,
    profile: Profile,
    response: &RegistrationResponse,
) -> Result<Option<VerifiedSignature>, AllocError>
    ensures { IfOk result (λ asked. IfSome asked (RegistrationAsks profile (registration_response_view response.now))) }
{
    match AttestationView::read(response.object.as_slice()) {
        Some(object) => self_asks(alloc, profile, &object, response),
        None => Ok(None),
    }
}
