//! Responses as a relying party takes them: `RegistrationResponseJSON` and `AuthenticationResponseJSON` (WebAuthn Level 3,
//! section 5.1), each value of bytes in base64url without padding.

ghost use Rattle.std.specs.Prelude.{◌≤◌, IfOk, OnOk};
ghost use Rattle.serde_json.specs.Data.{depth, items_depth};
ghost use Rattle.serde_json.specs.View.{items_view, members_view, view};
ghost use Rattle.client_lines.specs.Shallow.{AreFlat, IsFlat};

use crate::information::key_info;
use crate::knowing::Knowledge;
use crate::purpose::{Purpose, Registration};
use crate::refused::Refused;
use crate::shallow::ShallowValue;
use crate::values::{put_flat, text_or_null, texts};
use authdata::{AttestationObject, AuthView, Profile, read_view};
use client_ceremony::{Refusal, is_discoverable};
use cose::KeyView;
use ctap_open_replies::{KeyAssertion, KeyCreation, KeyInfo, UserView};
use json_lines::base64_text;
use serde_json::{Map, Value, json};
use std::alloc::{AllocError, Global};

/// What stands before the point of an ES256 key in a SubjectPublicKeyInfo (RFC 5480, section 2), with the byte of its form.
const ES256_FRONT: [u8; 27] = [
    0x30, 0x59, 0x30, 0x13, 0x06, 0x07, 0x2a, 0x86, 0x48, 0xce, 0x3d, 0x02, 0x01, 0x06, 0x08, 0x2a,
    0x86, 0x48, 0xce, 0x3d, 0x03, 0x01, 0x07, 0x03, 0x42, 0x00, 0x04,
];

/// What stands before an Ed25519 key in one (RFC 8410, section 4).
const EDDSA_FRONT: [u8; 12] = [
    0x30, 0x2a, 0x30, 0x05, 0x06, 0x03, 0x2b, 0x65, 0x70, 0x03, 0x21, 0x00,
];

/// Adds the user of an assertion, null where it is not told.
fn put_user(
    alloc: Global,
    user: &Option<UserView<'_>>,
    out: &mut Map<String, Value>,
) -> Result<(), AllocError>
    requires { AreFlat (members_view out.old.entries) }
    ensures { OnOk result (AreFlat (members_view out.new.entries)) }
{
    let Some(user) = user else {
        put_flat(out, alloc, "user_id", Value::Null)?;
        put_flat(out, alloc, "user_name", Value::Null)?;
        return put_flat(out, alloc, "display_name", Value::Null);
    };
    put_flat(out, alloc, "user_id", base64_text(alloc, user.id)?)?;
    put_flat(out, alloc, "user_name", text_or_null(alloc, user.name)?)?;
    put_flat(
        out,
        alloc,
        "display_name",
        text_or_null(alloc, user.display_name)?,
    )
}

/// A credential that may be chosen.
fn choice(alloc: Global, assertion: &KeyAssertion<'_>) -> Result<Value, AllocError>
    ensures { IfOk result (λ v. depth (view v) ≤ 3) }
{
    let mut members = Map::new(alloc);
    put_flat(
        &mut members,
        alloc,
        "id",
        base64_text(alloc, assertion.credential)?,
    )?;
    put_user(alloc, &assertion.user, &mut members)?;
    Ok(Value::Object(members))
}

/// The credentials that may be chosen, as a list.
#[tactic(auto, using(crate::proofs::Depths::items_more))]
fn choice_list(alloc: Global, list: &[KeyAssertion<'_>]) -> Result<Vec<Value>, AllocError>
    ensures { IfOk result (λ told. items_depth (items_view told.items) ≤ 3) }
{
    let mut told = Vec::with_capacity(alloc, list.len())?;
    for assertion in list {
        told.push(choice(alloc, assertion)?)?;
    }
    Ok(told)
}

/// The credentials that may be chosen.
pub(crate) fn choices(
    alloc: Global,
    list: &[KeyAssertion<'_>],
) -> Result<ShallowValue, AllocError> {
    let told = choice_list(alloc, list)?;
    Ok(ShallowValue {
        value: Value::Array(told),
    })
}

/// A public key credential of these parts.
fn credential(
    alloc: Global,
    id: &[u8],
    response: Value,
    results: Value,
) -> Result<ShallowValue, AllocError>
    requires response { depth (view response) ≤ 3 }
    requires results { IsFlat (view results) }
{
    let raw_id = base64_text(alloc, id)?;
    let id = base64_text(alloc, id)?;
    let value = json!(in alloc; {
        "id": id, "rawId": raw_id, "type": "public-key", "authenticatorAttachment": "cross-platform",
        "clientExtensionResults": results, "response": response
    })?;
    Ok(ShallowValue { value })
}

/// The SubjectPublicKeyInfo of a key; nothing of an RSA key.
fn public_key(alloc: Global, key: &KeyView<'_>) -> Result<Option<Vec<u8>>, AllocError> {
    let mut bytes = Vec::new(alloc);
    match key {
        KeyView::Es256 { x, y } => {
            bytes.extend_from_slice(&ES256_FRONT)?;
            bytes.extend_from_slice(x)?;
            bytes.extend_from_slice(y)?;
        }
        KeyView::EdDsa { x } => {
            bytes.extend_from_slice(&EDDSA_FRONT)?;
            bytes.extend_from_slice(x)?;
        }
        KeyView::Rs256(_) => return Ok(None),
    }
    Ok(Some(bytes))
}

/// Adds a key: its algorithm, and the key itself where it is no RSA key.
fn put_key(alloc: Global, key: &KeyView<'_>, out: &mut Map<String, Value>) -> Result<(), AllocError>
    requires { AreFlat (members_view out.old.entries) }
    ensures { OnOk result (AreFlat (members_view out.new.entries)) }
{
    put_flat(
        out,
        alloc,
        "publicKeyAlgorithm",
        Value::from(key.alg().number()),
    )?;
    match public_key(alloc, key)? {
        Some(bytes) => put_flat(
            out,
            alloc,
            "publicKey",
            base64_text(alloc, bytes.as_slice())?,
        ),
        None => Ok(()),
    }
}

/// The attestation object of a reply: with its statement where that was asked for, and else with none (WebAuthn Level 3,
/// section 5.1.3, step 20).
fn attestation_object(
    alloc: Global,
    creation: KeyCreation,
    attestation: bool,
) -> Result<Vec<u8>, Refused> {
    let KeyCreation {
        fmt,
        auth_data,
        statement,
        ..
    } = creation;
    let object = if attestation {
        AttestationObject {
            fmt,
            auth_data,
            statement,
        }
    } else {
        AttestationObject {
            fmt: String::from_str(alloc, "none")?,
            auth_data,
            statement: ccbor::Value::Map(Vec::new(alloc)),
        }
    };
    match object.write(alloc) {
        Ok(bytes) => Ok(bytes),
        Err(authdata::Error::Memory) => Err(Refused::Client(Refusal::Memory)),
        Err(_) => Err(Refused::Client(Refusal::NotReadable)),
    }
}

/// What the key told of itself.
fn told(alloc: Global, replies: &[Vec<u8>]) -> Result<KeyInfo<'_>, Refused> {
    match replies.first() {
        Some(reply) => key_info(alloc, reply.as_slice()),
        None => Err(Refused::Client(Refusal::NotReadable)),
    }
}

/// The transports that the key told; USB where it told none.
fn transports(alloc: Global, info: &KeyInfo<'_>) -> Result<Value, AllocError>
    ensures { IfOk result (λ v. IsFlat (view v)) }
{
    match &info.transports {
        Some(list) => texts(alloc, list.as_slice()),
        None => texts(alloc, &["usb"]),
    }
}

/// The results of a registration's extensions.
fn results(
    alloc: Global,
    registration: &Registration,
    info: &KeyInfo<'_>,
) -> Result<Value, AllocError>
    ensures { IfOk result (λ v. IsFlat (view v)) }
{
    if !registration.extensions.cred_props {
        return Ok(Value::Object(Map::new(alloc)));
    }
    let rk = is_discoverable(info, registration.resident);
    json!(in alloc; {"credProps": {"rk": rk}})
}

/// The parts of a registration's response that authenticator data and getInfo tell.
fn told_parts(
    alloc: Global,
    key: &KeyView<'_>,
    info: &KeyInfo<'_>,
    auth_data: &[u8],
) -> Result<Map<String, Value>, AllocError>
    ensures { IfOk result (λ m. AreFlat (members_view m.entries)) }
{
    let mut parts = Map::new(alloc);
    put_flat(
        &mut parts,
        alloc,
        "authenticatorData",
        base64_text(alloc, auth_data)?,
    )?;
    put_flat(&mut parts, alloc, "transports", transports(alloc, info)?)?;
    put_key(alloc, key, &mut parts)?;
    Ok(parts)
}

/// The credential of authenticator data: its id and its key.
fn attested<'a>(auth_data: &'a [u8]) -> Result<(&'a [u8], KeyView<'a>), Refused> {
    match read_view(Profile::Level3, auth_data) {
        Ok(
            AuthView {
                attested: Some(attested),
                ..
            },
        ) => Ok((attested.id, attested.key)),
        _ => Err(Refused::Client(Refusal::NotReadable)),
    }
}

/// The response of a registration.
fn registered(
    alloc: Global,
    registration: &Registration,
    info: &KeyInfo<'_>,
    creation: KeyCreation,
) -> Result<ShallowValue, Refused> {
    let (id, key) = attested(creation.auth_data.as_slice())?;
    let id = Vec::from_slice(alloc, id)?;
    let mut parts = told_parts(alloc, &key, info, creation.auth_data.as_slice())?;
    let object = attestation_object(alloc, creation, registration.attestation)?;
    let client_data = registration.client_data.as_bytes();
    put_flat(
        &mut parts,
        alloc,
        "attestationObject",
        base64_text(alloc, object.as_slice())?,
    )?;
    put_flat(
        &mut parts,
        alloc,
        "clientDataJSON",
        base64_text(alloc, client_data)?,
    )?;
    let results = results(alloc, registration, info)?;
    Ok(credential(alloc, id.as_slice(), Value::Object(parts), results)?)
}

/// The response of a registration, by the key's reply.
pub(crate) fn creation_response(
    alloc: Global,
    knowledge: &Knowledge,
    creation: KeyCreation,
) -> Result<ShallowValue, Refused> {
    let Purpose::Registers(registration) = &knowledge.purpose else {
        return Err(Refused::Client(Refusal::NotReadable));
    };
    let info = told(alloc, knowledge.replies.as_slice())?;
    registered(alloc, registration, &info, creation)
}

/// Adds the user handle, where the key told it.
fn put_user_handle(
    alloc: Global,
    user: &Option<UserView<'_>>,
    out: &mut Map<String, Value>,
) -> Result<(), AllocError>
    requires { AreFlat (members_view out.old.entries) }
    ensures { OnOk result (AreFlat (members_view out.new.entries)) }
{
    match user {
        Some(user) => put_flat(out, alloc, "userHandle", base64_text(alloc, user.id)?),
        None => Ok(()),
    }
}

/// The parts of a sign-in's response.
fn assertion_parts(
    alloc: Global,
    client_data: &[u8],
    assertion: &KeyAssertion<'_>,
) -> Result<Value, AllocError>
    ensures { IfOk result (λ v. depth (view v) ≤ 3) }
{
    let mut parts = Map::new(alloc);
    put_flat(
        &mut parts,
        alloc,
        "clientDataJSON",
        base64_text(alloc, client_data)?,
    )?;
    put_flat(
        &mut parts,
        alloc,
        "authenticatorData",
        base64_text(alloc, assertion.auth_data)?,
    )?;
    put_flat(
        &mut parts,
        alloc,
        "signature",
        base64_text(alloc, assertion.signature)?,
    )?;
    put_user_handle(alloc, &assertion.user, &mut parts)?;
    Ok(Value::Object(parts))
}

/// The response of a sign-in, by the key's reply.
pub(crate) fn assertion_response(
    alloc: Global,
    knowledge: &Knowledge,
    assertion: &KeyAssertion<'_>,
) -> Result<ShallowValue, Refused> {
    let Purpose::SignsIn(sign_in) = &knowledge.purpose else {
        return Err(Refused::Client(Refusal::NotReadable));
    };
    let parts = assertion_parts(alloc, sign_in.client_data.as_bytes(), assertion)?;
    let results = Value::Object(Map::new(alloc));
    Ok(credential(alloc, assertion.credential, parts, results)?)
}
