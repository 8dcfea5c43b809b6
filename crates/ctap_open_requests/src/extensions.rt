//! Inputs of extensions by name (CTAP 2.1, sections 12.1 to 12.5).

ghost use Rattle.std.specs.Prelude.{◌≡◌, IfOk, option_map};
ghost use Rattle.ccbor.specs.Item.{boolean, uint};
ghost use Rattle.ccbor.specs.View.{view};
ghost use Rattle.ctap_encoding.specs.Content.{item_of};
ghost use Rattle.ctap_encoding.specs.Table.{record_of};
ghost use Rattle.ctap_open_requests.specs.Extensions.{assertion_inputs, assertion_inputs_content, creation_inputs, creation_inputs_content, named_protocol, secret_content, secret_members, wanted};
ghost use Rattle.ctap_open_requests.specs.ExtensionView.{assertion_inputs_view, creation_inputs_view, secret_view};

use ccbor::{MapKey, Value};
use ctap_encoding::member::hmac_secret;
use ctap_encoding::{bytes_value, push_if_there, push_member};
use pin_client_messages::{Point, bytes_if_there, number_if_there, point_value};
use std::alloc::{AllocError, Global};

/// Inputs to makeCredential. Each that is absent or false is not written.
#[derive(Clone, Copy, Debug, Drop)]
pub struct CreationExtensions<'a> {
    /// `credBlob` (12.2): what is to be kept with the credential, up to the key's maxCredBlobLength.
    pub cred_blob: Option<&'a [u8]>,
    /// `credProtect` (12.1): 1, 2 or 3.
    pub cred_protect: Option<u64>,
    /// `hmac-secret` (12.5): whether the credential is to have secrets.
    pub hmac_secret: bool,
    /// `largeBlobKey` (12.3).
    pub large_blob_key: bool,
    /// `minPinLength` (12.4): whether the key is to tell it.
    pub min_pin_length: bool,
}

/// The input of `hmac-secret` to getAssertion (12.5).
#[derive(Clone, Copy, Debug, Drop)]
pub struct HmacSecret<'a> {
    /// The client's public key of the key agreement.
    pub key: Point<'a>,
    /// One or two salts of 32 bytes, encrypted.
    pub salt_enc: &'a [u8],
    /// The authentication of the encrypted salts.
    pub salt_auth: &'a [u8],
    /// The PIN/UV auth protocol, which is not written where it is one.
    pub protocol: u64,
}

/// Inputs to getAssertion. Each that is absent or false is not written.
#[derive(Clone, Copy, Debug, Drop)]
pub struct AssertionExtensions<'a> {
    /// `credBlob` (12.2): whether the key is to tell what it kept.
    pub cred_blob: bool,
    /// `hmac-secret` (12.5).
    pub hmac_secret: Option<HmacSecret<'a>>,
    /// `largeBlobKey` (12.3).
    pub large_blob_key: bool,
}

fn truth_if_wanted(asked: bool) -> Option<Value>
    ensures { option_map view result ≡ option_map boolean (wanted asked) }
{
    if asked { Some(Value::Bool(true)) } else { None }
}

/// The map of these inputs to makeCredential, for [`MakeCredential`](crate::MakeCredential). Whether the key knows the
/// extensions is not looked at: it passes over the others (CTAP 2.1, section 6.1.2).
pub fn creation_extensions(
    alloc: Global,
    inputs: &CreationExtensions<'_>,
) -> Result<Value, AllocError>
    ensures { IfOk result (λ v. view v ≡ item_of (record_of creation_inputs) (creation_inputs_content (creation_inputs_view inputs.now))) }
{
    let mut pairs = Vec::new(alloc);
    let cred_blob = bytes_if_there(alloc, inputs.cred_blob)?;
    push_if_there(alloc, &mut pairs, MapKey::Text("credBlob"), cred_blob)?;
    let cred_protect = number_if_there(inputs.cred_protect);
    push_if_there(alloc, &mut pairs, MapKey::Text("credProtect"), cred_protect)?;
    let hmac_secret = truth_if_wanted(inputs.hmac_secret);
    push_if_there(alloc, &mut pairs, MapKey::Text("hmac-secret"), hmac_secret)?;
    let large_blob_key = truth_if_wanted(inputs.large_blob_key);
    push_if_there(
        alloc,
        &mut pairs,
        MapKey::Text("largeBlobKey"),
        large_blob_key,
    )?;
    let min_pin_length = truth_if_wanted(inputs.min_pin_length);
    push_if_there(
        alloc,
        &mut pairs,
        MapKey::Text("minPinLength"),
        min_pin_length,
    )?;
    Ok(Value::Map(pairs))
}

/// The protocol, where it is named.
fn named_protocol(protocol: u64) -> Option<u64>
    ensures { result ≡ named_protocol protocol }
{
    if protocol == 1 { None } else { Some(protocol) }
}

fn secret_value(alloc: Global, secret: &HmacSecret<'_>) -> Result<Value, AllocError>
    ensures { IfOk result (λ v. view v ≡ item_of (record_of secret_members) (secret_content (secret_view secret.now))) }
{
    let mut pairs = Vec::new(alloc);
    let key = point_value(alloc, &secret.key)?;
    push_member(alloc, &mut pairs, hmac_secret::KEY_AGREEMENT, key)?;
    let salt_enc = bytes_value(alloc, secret.salt_enc)?;
    push_member(alloc, &mut pairs, hmac_secret::SALT_ENC, salt_enc)?;
    let salt_auth = bytes_value(alloc, secret.salt_auth)?;
    push_member(alloc, &mut pairs, hmac_secret::SALT_AUTH, salt_auth)?;
    let protocol = number_if_there(named_protocol(secret.protocol));
    push_if_there(
        alloc,
        &mut pairs,
        hmac_secret::PIN_UV_AUTH_PROTOCOL,
        protocol,
    )?;
    Ok(Value::Map(pairs))
}

fn secret_if_there(
    alloc: Global,
    secret: Option<HmacSecret<'_>>,
) -> Result<Option<Value>, AllocError>
    ensures { IfOk result (λ v. option_map view v
        ≡ option_map (item_of (record_of secret_members)) (option_map secret_content (option_map secret_view secret.entry))) }
{
    match secret {
        Some(secret) => Ok(Some(secret_value(alloc, &secret)?)),
        None => Ok(None),
    }
}

/// The map of these inputs to getAssertion, as of [`creation_extensions`].
pub fn assertion_extensions(
    alloc: Global,
    inputs: &AssertionExtensions<'_>,
) -> Result<Value, AllocError>
    ensures { IfOk result (λ v. view v ≡ item_of (record_of assertion_inputs) (assertion_inputs_content (assertion_inputs_view inputs.now))) }
{
    let cred_blob = truth_if_wanted(inputs.cred_blob);
    let hmac_secret = secret_if_there(alloc, inputs.hmac_secret)?;
    let large_blob_key = truth_if_wanted(inputs.large_blob_key);
    let mut pairs = Vec::new(alloc);
    push_if_there(alloc, &mut pairs, MapKey::Text("credBlob"), cred_blob)?;
    push_if_there(alloc, &mut pairs, MapKey::Text("hmac-secret"), hmac_secret)?;
    push_if_there(
        alloc,
        &mut pairs,
        MapKey::Text("largeBlobKey"),
        large_blob_key,
    )?;
    Ok(Value::Map(pairs))
}
