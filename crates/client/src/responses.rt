//! The responses that a client hands to a relying party.

ghost use Rattle.std.specs.Prelude.{◌≡◌, ℕ, IfOk, IsErrOf, List, option_map};
ghost use Rattle.authdata.specs.Objects.{ObjectOf};
ghost use Rattle.authdata.specs.Responses.{assertion_response_view};
ghost use Rattle.ctap_replies.specs.ReplyView.{assertion_reply_view, creation_reply_view, lent_assertion_view};
ghost use Rattle.client.specs.Responses.{object_of, response_of};
ghost use Rattle.client.specs.declared.error.ResponseError.TheVariants as errors;

use crate::error::ResponseError;
use authdata::{AssertionResponse, AttestationObject, RegistrationResponse};
use ctap_replies::{AssertionReply, AssertionView, CreationReply};
use std::alloc::{AllocError, Global};

/// The response of a sign-in (`AuthenticatorAssertionResponse`, WebAuthn Level 2, section 5.2.2): the members
/// of the authenticator's reply, unchanged, and the client data that were sent with its request. Takes no memory.
pub fn assertion_response(reply: AssertionReply, client_data: Vec<u8>) -> AssertionResponse
    ensures { assertion_response_view result ≡ response_of (assertion_reply_view reply) client_data.items }
{
    AssertionResponse {
        credential: reply.credential,
        user: reply.user,
        auth_data: reply.auth_data,
        signature: reply.signature,
        client_data,
    }
}

/// Bytes that may be absent, in memory of their own.
fn owned_if_there(alloc: Global, held: Option<&[u8]>) -> Result<Option<Vec<u8>>, AllocError>
    ensures { IfOk result (λ o. option_map (λ v. v.items) o ≡ option_map (λ b. b.now) held.entry) }
{
    match held {
        Some(content) => Ok(Some(Vec::from_slice(alloc, content)?)),
        None => Ok(None),
    }
}

/// The response of a sign-in, as of [`assertion_response`], of an assertion whose members are lent, as
/// [`read_assertion`](crate::read_assertion) gives it: they are copied.
pub fn assertion_response_of(
    alloc: Global,
    reply: &AssertionView<'_>,
    client_data: Vec<u8>,
) -> Result<AssertionResponse, AllocError>
    ensures { IfOk result (λ r. assertion_response_view r ≡ response_of (lent_assertion_view reply.now) client_data.items) }
{
    Ok(AssertionResponse {
        credential: Vec::from_slice(alloc, reply.credential)?,
        user: owned_if_there(alloc, reply.user)?,
        auth_data: Vec::from_slice(alloc, reply.auth_data)?,
        signature: Vec::from_slice(alloc, reply.signature)?,
        client_data,
    })
}

/// The attestation object (WebAuthn Level 2, section 6.5.4) of a reply to makeCredential.
///
/// Refused as [`ResponseError::Unfit`] (1) where the reply's statement is no map, or has no canonical encoding
/// with three levels of nesting. Otherwise only [`ResponseError::Memory`] is answered.
pub fn attestation_object(alloc: Global, reply: CreationReply) -> Result<Vec<u8>, ResponseError>
    ensures object { IfOk result (λ o. ObjectOf (object_of (creation_reply_view reply)) o.items) }
    // It is called unfit only if there is no such object.
    ensures unfit { IsErrOf result errors.Unfit
        → (bytes : List ℕ) → ObjectOf (object_of (creation_reply_view reply)) bytes → ⊥ }
{
    let object = AttestationObject {
        fmt: reply.fmt,
        auth_data: reply.auth_data,
        statement: reply.statement,
    };
    match object.write(alloc) {
        Ok(bytes) => Ok(bytes),
        Err(authdata::Error::Unfit) => Err(ResponseError::Unfit),
        Err(_) => Err(ResponseError::Memory),
    }
}

/// The response of a registration (`AuthenticatorAttestationResponse`, WebAuthn Level 2, section 5.2.1): the
/// attestation object of the authenticator's reply, and the client data that were sent with its request.
///
/// Refused as [`attestation_object`] is. After an error both are dropped.
pub fn creation_response(
    alloc: Global,
    reply: CreationReply,
    client_data: Vec<u8>,
) -> Result<RegistrationResponse, ResponseError>
    ensures object { IfOk result (λ r. ObjectOf (object_of (creation_reply_view reply)) r.object.items) }
    ensures client_data { IfOk result (λ r. r.client_data.items ≡ client_data.items) }
    // It is called unfit only if there is no such object.
    ensures unfit { IsErrOf result errors.Unfit
        → (bytes : List ℕ) → ObjectOf (object_of (creation_reply_view reply)) bytes → ⊥ }
{
    match attestation_object(alloc, reply) {
        Ok(object) => Ok(RegistrationResponse {
            object,
            client_data,
        }),
        Err(error) => Err(error),
    }
}
