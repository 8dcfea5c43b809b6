//! A makeCredential or getAssertion without its members of the PIN.

ghost use Rattle.std.specs.Prelude.{◌≡◌, ◌∷◌, ◌++◌, List, ℕ, IfErr, IfOk, OnOk, None, Some, option_map, true};
ghost use Rattle.ccbor.specs.Canon.{Canon};
ghost use Rattle.ccbor.specs.View.{pairs_of, view};
ghost use Rattle.ccbor.specs.Viewing.{shown, shown_pairs};
ghost use Rattle.ctap_encoding.specs.Building.{pair_list_view};
ghost use Rattle.ctap_requests.specs.Requests.{RequestOf};
ghost use Rattle.ctap_requests.specs.Status.{IsRequest, NoStatus};
ghost use Rattle.ctap_requests.specs.RequestView.{assertion_options_view, creation_options_view, request_view};
ghost use Rattle.pin_key_messages.specs.Pieces.{RefusedBytes, RefusedOwned, kept_pair};
ghost use Rattle.pin_key_messages.specs.Protected.{IsUnprotected, IsWithout, RefusedPart, assertion_flags, creation_flags, verified, without};
ghost use Rattle.pin_key_messages.specs.ProtectedView.{message_of};

use crate::asked::ProtectedRequest;
use crate::reading::{after, whole};
use ccbor::{MapKey, MapView, Value, View, encode};
use ctap_encoding::Error;
use ctap_encoding::command::{GET_ASSERTION, MAKE_CREDENTIAL};
use ctap_encoding::member::{get_assertion, make_credential};
use ctap_encoding::status::{CBOR_UNEXPECTED_TYPE, INVALID_COMMAND};
use ctap_requests::{
    AssertionOptions, CreationOptions, GetAssertion, MakeCredential, Request, read_request,
    write_request,
};
use std::alloc::{AllocError, Global};

/// Appends a pair, where its key is none of two.
fn push_kept(
    alloc: Global,
    pairs: &mut Vec<(Value, Value)>,
    key: &View<'_>,
    held: &View<'_>,
    param: u64,
    protocol: u64,
) -> Result<(), AllocError>
    ensures { OnOk result (pair_list_view pairs.new.items
        ≡ pair_list_view pairs.old.items ++ kept_pair param protocol (shown key.now) (shown held.now)) }
{
    if key.is_key(MapKey::Uint(param)) || key.is_key(MapKey::Uint(protocol)) {
        return Ok(());
    }
    let pair = (key.to_value(alloc)?, held.to_value(alloc)?);
    pairs.push(pair)?;
    Ok(())
}

/// The pairs but those of two keys.
fn pairs_without(
    alloc: Global,
    all: MapView<'_>,
    param: u64,
    protocol: u64,
) -> Result<Vec<(Value, Value)>, AllocError>
    ensures { IfOk result (λ v. pairs_of (pair_list_view v.items) ≡ without param protocol (shown_pairs all.entry)) }
{
    let mut rest = all;
    let mut pairs = Vec::new(alloc);
    while let Some((key, held, after)) = rest.split_first() {
        push_kept(alloc, &mut pairs, &key, &held, param, protocol)?;
        rest = after;
    }
    Ok(pairs)
}

/// The command byte and the value's encoding.
fn with_command(alloc: Global, command: u8, value: &Value) -> Result<Vec<u8>, Error>
    ensures written { IfOk result (λ v. (rest : List ℕ) × (v.items ≡ command ∷ rest) × Canon (view value.now) rest) }
    ensures refused { IfErr result RefusedBytes }
{
    let mut out = Vec::new(alloc);
    out.push(command).map_err(AllocError::from)?;
    match encode(value, &mut out) {
        Ok(()) => Ok(out),
        Err(ccbor::Error::Unfit) => Err(Error::Unfit),
        Err(_) => Err(Error::Memory),
    }
}

/// The command byte and the encoding of the map but for two members.
fn bytes_without(
    alloc: Global,
    command: u8,
    rest: &[u8],
    param: u64,
    protocol: u64,
) -> Result<Vec<u8>, Error>
    ensures bytes { IfOk result (λ v. IsWithout command param protocol (command ∷ rest.now) v.items) }
    ensures refused { IfErr result RefusedBytes }
{
    let value = match whole(rest) {
        Ok(value) => value,
        Err(e) => return Err(e),
    };
    let Some(all) = value.as_map() else {
        return Err(Error::Status(CBOR_UNEXPECTED_TYPE));
    };
    let pairs = pairs_without(alloc, all, param, protocol)?;
    let bare = Value::Map(pairs);
    with_command(alloc, command, &bare)
}

/// The request of these bytes.
fn owned(alloc: Global, bytes: &[u8]) -> Result<ProtectedRequest, Error>
    ensures found { IfOk result (λ p. IsRequest (message_of p) bytes.now) }
    ensures refused { IfErr result (RefusedOwned bytes.now) }
{
    match read_request(alloc, bytes) {
        Ok(Request::MakeCredential(request)) => Ok(ProtectedRequest::MakeCredential(request)),
        Ok(Request::GetAssertion(request)) => Ok(ProtectedRequest::GetAssertion(request)),
        Ok(_) => Err(Error::Status(INVALID_COMMAND)),
        Err(e) => Err(e),
    }
}

/// The bytes of a request without its two members.
fn unprotected(alloc: Global, request: &[u8]) -> Result<Vec<u8>, Error>
    ensures bytes { IfOk result (λ v. IsUnprotected request.now v.items) }
    ensures refused { IfErr result RefusedBytes }
{
    if let Some(rest) = after(request, MAKE_CREDENTIAL) {
        return bytes_without(
            alloc,
            MAKE_CREDENTIAL,
            rest,
            make_credential::PIN_UV_AUTH_PARAM_NUMBER,
            make_credential::PIN_UV_AUTH_PROTOCOL_NUMBER,
        );
    }
    match after(request, GET_ASSERTION) {
        Some(rest) => bytes_without(
            alloc,
            GET_ASSERTION,
            rest,
            get_assertion::PIN_UV_AUTH_PARAM_NUMBER,
            get_assertion::PIN_UV_AUTH_PROTOCOL_NUMBER,
        ),
        None => Err(Error::Status(INVALID_COMMAND)),
    }
}

/// What a makeCredential (CTAP 2.1, section 6.1) or getAssertion (6.2), with its command byte, asks for but for its members
/// `pinUvAuthParam` and `pinUvAuthProtocol`.
///
/// Refused as [`Error::Status`]: 0x01 another command; 0x12 not one whole canonical CBOR value; 0x11 no map; else as
/// [`read_request`] refuses the request without these two members.
pub fn protected_request(alloc: Global, request: &[u8]) -> Result<ProtectedRequest, Error>
    ensures found { IfOk result (λ p. (bare : List ℕ) × IsUnprotected request.now bare × IsRequest (message_of p) bare) }
    ensures refused { IfErr result (λ e. RefusedPart request.now e) }
{
    match unprotected(alloc, request) {
        Ok(bytes) => owned(alloc, &bytes),
        Err(e) => Err(e),
    }
}

/// The request with option `uv` true.
fn with_verification(request: ProtectedRequest) -> Request
    ensures { request_view result ≡ verified (message_of request) }
{
    match request {
        ProtectedRequest::MakeCredential(request) => Request::MakeCredential(MakeCredential {
            options: Some(verified_creation(request.options)),
            ..request
        }),
        ProtectedRequest::GetAssertion(request) => Request::GetAssertion(GetAssertion {
            options: Some(verified_assertion(request.options)),
            ..request
        }),
    }
}

fn verified_creation(options: Option<CreationOptions>) -> CreationOptions
    ensures { creation_options_view result ≡ record (creation_flags (option_map creation_options_view options)) { uv = Some true } }
{
    match options {
        Some(options) => CreationOptions {
            uv: Some(true),
            ..options
        },
        None => CreationOptions {
            rk: None,
            up: None,
            uv: Some(true),
        },
    }
}

fn verified_assertion(options: Option<AssertionOptions>) -> AssertionOptions
    ensures { assertion_options_view result ≡ record (assertion_flags (option_map assertion_options_view options)) { uv = Some true } }
{
    match options {
        Some(options) => AssertionOptions {
            uv: Some(true),
            ..options
        },
        None => AssertionOptions {
            up: None,
            uv: Some(true),
        },
    }
}

/// The bytes of a request with option `uv` true, without extensions.
///
/// Refused as [`Error::Unfit`] (1) where it has none that [`read_request`] reads. Otherwise only [`Error::Memory`] is
/// answered.
pub fn bare_request(alloc: Global, request: ProtectedRequest) -> Result<Vec<u8>, Error>
    ensures spelled { IfOk result (λ v. RequestOf (verified (message_of request)) None v.items) }
    ensures clean { IfOk result (λ v. NoStatus v.items) }
{
    write_request(alloc, &with_verification(request))
}
