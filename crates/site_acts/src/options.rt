//! What the page is given: `PublicKeyCredentialCreationOptionsJSON` and `PublicKeyCredentialRequestOptionsJSON` (WebAuthn
//! Level 3, sections 5.1.8 and 5.1.9), each value of bytes in base64url without padding.

ghost use Rattle.std.specs.Prelude.{◌≡◌, IfOk, OnOk, map, string_bytes};
ghost use Rattle.serde_json.specs.Data.{array, no_members, object, string};
ghost use Rattle.serde_json.specs.View.{items_of, members_view, view};
ghost use Rattle.site_acts.specs.Options.{account, conveyance as conveyance_of, creation_of, creation_options as creation_options_of, descriptor as descriptor_of, parameter as parameter_of, request_options as request_options_of, resident_key as resident_key_of, selection as selection_of, verification as verification_of};

use crate::act::{BeginRegistration, BeginSignIn};
use crate::known::Known;
use cose::Alg;
use json_lines::base64_text;
use serde_json::{Map, Value, json, put};
use std::alloc::{AllocError, Global};

/// Texts, as a list.
fn text_list(alloc: Global, texts: &[String]) -> Result<Vec<Value>, AllocError>
    ensures { IfOk result (λ list. map view list.items ≡ map (λ t. string (string_bytes t)) texts.now) }
{
    let mut list = Vec::with_capacity(alloc, texts.len())?;
    for text in texts {
        list.push(Value::String(String::from_str(alloc, text.as_str())?))?;
    }
    Ok(list)
}

/// Texts.
pub fn texts(alloc: Global, texts: &[String]) -> Result<Value, AllocError>
    ensures { IfOk result (λ v. view v ≡ array (items_of (map (λ t. string (string_bytes t)) texts.now))) }
{
    let list = text_list(alloc, texts)?;
    Ok(Value::Array(list))
}

/// The descriptor of a credential, with its transports where they are known.
fn descriptor(alloc: Global, known: &Known) -> Result<Value, AllocError>
    ensures { IfOk result (λ v. view v ≡ descriptor_of known.now) }
{
    let id = base64_text(alloc, known.id.as_slice())?;
    if known.transports.as_slice().is_empty() {
        return json!(in alloc; {"type": "public-key", "id": id});
    }
    let transports = texts(alloc, known.transports.as_slice())?;
    json!(in alloc; {"type": "public-key", "id": id, "transports": transports})
}

/// The descriptors of credentials, as a list.
fn descriptor_list(alloc: Global, list: &[Known]) -> Result<Vec<Value>, AllocError>
    ensures { IfOk result (λ told. map view told.items ≡ map descriptor_of list.now) }
{
    let mut told = Vec::with_capacity(alloc, list.len())?;
    for known in list {
        told.push(descriptor(alloc, known)?)?;
    }
    Ok(told)
}

/// The descriptors of credentials.
fn descriptors(alloc: Global, list: &[Known]) -> Result<Value, AllocError>
    ensures { IfOk result (λ v. view v ≡ array (items_of (map descriptor_of list.now))) }
{
    let list = descriptor_list(alloc, list)?;
    Ok(Value::Array(list))
}

/// The parameters of credentials of an algorithm.
fn parameter(alloc: Global, algorithm: Alg) -> Result<Value, AllocError>
    ensures { IfOk result (λ v. view v ≡ parameter_of algorithm) }
{
    let number = algorithm.number();
    json!(in alloc; {"type": "public-key", "alg": number})
}

/// The parameters of credentials of these algorithms, as a list.
fn parameter_list(alloc: Global, algorithms: &[Alg]) -> Result<Vec<Value>, AllocError>
    ensures { IfOk result (λ list. map view list.items ≡ map parameter_of algorithms.now) }
{
    let mut list = Vec::with_capacity(alloc, algorithms.len())?;
    for algorithm in algorithms {
        list.push(parameter(alloc, *algorithm)?)?;
    }
    Ok(list)
}

/// The parameters of credentials of these algorithms.
fn parameters(alloc: Global, algorithms: &[Alg]) -> Result<Value, AllocError>
    ensures { IfOk result (λ v. view v ≡ array (items_of (map parameter_of algorithms.now))) }
{
    let list = parameter_list(alloc, algorithms)?;
    Ok(Value::Array(list))
}

/// The requirement of user verification.
fn verification(is_required: bool) -> &'static str
    ensures { result.now ≡ verification_of is_required }
{
    if is_required { "required" } else { "preferred" }
}

/// The account.
fn user(alloc: Global, begin: &BeginRegistration) -> Result<Value, AllocError>
    ensures { IfOk result (λ v. view v ≡ account begin.now) }
{
    let id = base64_text(alloc, begin.user.as_slice())?;
    let name = begin.user_name.as_str();
    let display_name = begin.display_name.as_str();
    json!(in alloc; {"id": id, "name": name, "displayName": display_name})
}

/// Whether the credential is to be found without an id.
fn resident_key(is_required: bool) -> &'static str
    ensures { result.now ≡ resident_key_of is_required }
{
    if is_required {
        "required"
    } else {
        "discouraged"
    }
}

/// Which authenticators are asked for.
fn selection(alloc: Global, begin: &BeginRegistration) -> Result<Value, AllocError>
    ensures { IfOk result (λ v. view v ≡ selection_of begin.now) }
{
    let resident = begin.resident;
    let key = resident_key(resident);
    let verification = verification(begin.user_verification);
    json!(in alloc; {"residentKey": key, "requireResidentKey": resident, "userVerification": verification})
}

/// The attestation that is asked for.
fn conveyance(is_asked: bool) -> &'static str
    ensures { result.now ≡ conveyance_of is_asked }
{
    if is_asked { "direct" } else { "none" }
}

/// Adds the members of a registration's options to none.
fn put_creation(
    members: &mut Map<String, Value>,
    alloc: Global,
    rp: Value,
    challenge: &[u8],
    begin: &BeginRegistration,
    known: &[Known],
) -> Result<(), AllocError>
    requires { members_view members.old.entries ≡ no_members }
    ensures { OnOk result (object (members_view members.new.entries) ≡ creation_of (view rp) challenge.now begin.now known.now) }
{
    put(members, alloc, "rp", rp)?;
    let user = user(alloc, begin)?;
    put(members, alloc, "user", user)?;
    let challenge = base64_text(alloc, challenge)?;
    put(members, alloc, "challenge", challenge)?;
    let parameters = parameters(alloc, begin.algorithms.as_slice())?;
    put(members, alloc, "pubKeyCredParams", parameters)?;
    let exclude = descriptors(alloc, known)?;
    put(members, alloc, "excludeCredentials", exclude)?;
    let selection = selection(alloc, begin)?;
    put(members, alloc, "authenticatorSelection", selection)?;
    let attestation = String::from_str(alloc, conveyance(begin.asks.attestation))?;
    put(members, alloc, "attestation", Value::String(attestation))
}

/// The options of a registration.
pub fn creation_options(
    alloc: Global,
    rp_id: &str,
    rp_name: &str,
    challenge: &[u8; 32],
    begin: &BeginRegistration,
    known: &[Known],
) -> Result<Value, AllocError>
    ensures { IfOk result (λ v. view v ≡ creation_options_of rp_id.now rp_name.now challenge.now begin.now known.now) }
{
    let rp = json!(in alloc; {"id": rp_id, "name": rp_name})?;
    let mut members = Map::new(alloc);
    put_creation(&mut members, alloc, rp, challenge, begin, known)?;
    Ok(Value::Object(members))
}

/// The options of a sign-in.
pub fn request_options(
    alloc: Global,
    rp_id: &str,
    challenge: &[u8; 32],
    begin: &BeginSignIn,
    known: &[Known],
) -> Result<Value, AllocError>
    ensures { IfOk result (λ v. view v ≡ request_options_of rp_id.now challenge.now begin.now known.now) }
{
    let challenge = base64_text(alloc, challenge)?;
    let allow = descriptors(alloc, known)?;
    let verification = verification(begin.user_verification);
    json!(in alloc; {"challenge": challenge, "rpId": rp_id, "allowCredentials": allow, "userVerification": verification})
}
