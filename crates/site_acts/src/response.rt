//! Responses as the browser gives them: `RegistrationResponseJSON` and `AuthenticationResponseJSON` (WebAuthn Level 3,
//! section 5.1), each value of bytes in base64url without padding.

ghost use Rattle.std.specs.Prelude.{◌⊎◌, IfErr, IfOk, codes};
ghost use Rattle.serde_json.specs.View.{view};
ghost use Rattle.json_lines.specs.Members.{HasBytes};
ghost use Rattle.json_lines.specs.Faults.{IsIllFormed, IsText};
ghost use Rattle.site_acts.specs.Lines.{IsAssertionResponse};
ghost use Rattle.site_acts.specs.Faults.{AreNoResults, OfAssertion, OfAttestation, OfCredentialId, OfEnvelope, OfIds, OfParts, OfType};
ghost use Rattle.site_acts.specs.Private.{HasParts};

use authdata::{AssertionResponse, RegistrationResponse};
use json_lines::{LineError, bytes, needed, optional_bytes, text, text_or};
use serde_json::Value;
use std::alloc::Global;

/// That `id` is `rawId`.
fn check_ids(response: &Value) -> Result<(), LineError>
    ensures { IfErr result (OfIds (view response.now)) }
{
    if text(response, "id")? != text(response, "rawId")? {
        return Err(LineError::BadForm("id"));
    }
    Ok(())
}

/// That the type is `public-key`.
fn check_type(response: &Value) -> Result<(), LineError>
    ensures { IfErr result (OfType (view response.now)) }
{
    if text(response, "type")? != "public-key" {
        return Err(LineError::BadForm("type"));
    }
    Ok(())
}

/// That the extensions' results are an object, where they are there.
fn check_results(response: &Value) -> Result<(), LineError>
    ensures { IfErr result (AreNoResults (view response.now)) }
{
    match response.get("clientExtensionResults") {
        Some(results) if !results.is_object() => Err(LineError::BadForm("clientExtensionResults")),
        _ => Ok(()),
    }
}

/// That the attachment is a text, where it is there.
fn check_attachment(response: &Value) -> Result<(), LineError>
    ensures { IfErr result (IsIllFormed (codes "authenticatorAttachment") IsText (view response.now)) }
{
    text_or(response, "authenticatorAttachment", "")?;
    Ok(())
}

/// What the standard fixes beside a response's parts: `id` is `rawId`, `type` is `public-key`, the extensions' results are
/// an object, and the attachment is a text or null.
fn check_envelope(response: &Value) -> Result<(), LineError>
    ensures { IfErr result (OfEnvelope (view response.now)) }
{
    check_ids(response)?;
    check_type(response)?;
    check_results(response)?;
    check_attachment(response)
}

/// The credential id.
pub(crate) fn credential_id(alloc: Global, response: &Value) -> Result<Vec<u8>, LineError>
    ensures found { IfOk result (λ id. HasBytes (codes "rawId") (view response.now) id.items) }
    ensures amiss { IfErr result (OfCredentialId (view response.now)) }
{
    check_envelope(response)?;
    bytes(alloc, response, "rawId")
}

/// The parts of a registration's response.
pub(crate) fn registration_response(
    alloc: Global,
    response: &Value,
) -> Result<RegistrationResponse, LineError>
    ensures found { IfOk result (HasParts (view response.now)) }
    ensures amiss { IfErr result (OfParts OfAttestation (view response.now)) }
{
    let parts = needed(response, "response")?;
    let object = bytes(alloc, parts, "attestationObject")?;
    let client_data = bytes(alloc, parts, "clientDataJSON")?;
    Ok(RegistrationResponse {
        object,
        client_data,
    })
}

/// The parts of a sign-in's response.
pub(crate) fn assertion_response(
    alloc: Global,
    response: &Value,
) -> Result<AssertionResponse, LineError>
    ensures found { IfOk result (IsAssertionResponse (view response.now)) }
    ensures amiss { IfErr result (λ e. OfCredentialId (view response.now) e ⊎ OfParts OfAssertion (view response.now) e) }
{
    let parts = needed(response, "response")?;
    let credential = credential_id(alloc, response)?;
    let user = optional_bytes(alloc, parts, "userHandle")?;
    let auth_data = bytes(alloc, parts, "authenticatorData")?;
    let signature = bytes(alloc, parts, "signature")?;
    let client_data = bytes(alloc, parts, "clientDataJSON")?;
    Ok(AssertionResponse {
        credential,
        user,
        auth_data,
        signature,
        client_data,
    })
}
