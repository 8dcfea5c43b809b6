//! Options as a relying party gives them: `PublicKeyCredentialCreationOptionsJSON` and
//! `PublicKeyCredentialRequestOptionsJSON` (WebAuthn Level 3, sections 5.1.8 and 5.1.9).

ghost use Rattle.std.specs.Prelude.{IfErr, IfOk, codes};
ghost use Rattle.serde_json.specs.View.{view};
ghost use Rattle.json_lines.specs.Members.{HasBytes};
ghost use Rattle.client_acts.specs.Faults.{IsInOptions, OfOptions};
ghost use Rattle.client_acts.specs.Lines.{SaysCreation, SaysRequest};

use crate::members::{object, optional_object, optional_owned_text, owned_text};
use client_ceremony::Requirement;
use cose::Alg;
use json_lines::{LineError, bytes, flag, items, member, needed, optional_text};
use serde_json::Value;
use std::alloc::Global;

/// The inputs of extensions that are read.
#[derive(Clone, Copy, Debug, Drop)]
pub struct Extensions {
    /// `credProps` (WebAuthn Level 2, section 10.4): whether the answer says that the credential is discoverable.
    pub cred_props: bool,
    /// `credentialProtectionPolicy` (CTAP 2.1, section 12.1): 1, 2 or 3.
    pub cred_protect: Option<u64>,
    /// `hmacCreateSecret` (12.5).
    pub hmac_secret: bool,
    /// `minPinLength` (12.4).
    pub min_pin_length: bool,
}

/// A user account.
#[derive(Debug, Drop)]
pub struct Account {
    /// The user handle.
    pub id: Vec<u8>,
    /// The account's name, where the options have one.
    pub name: Option<String>,
    /// The user's name, where the options have one.
    pub display_name: Option<String>,
}

/// What a registration is asked for.
#[derive(Debug, Drop)]
pub struct CreationOptions {
    /// The origin that asks.
    pub origin: String,
    /// The rp id, where the options have one.
    pub rp_id: Option<String>,
    /// The relying party's name, where the options have one.
    pub rp_name: Option<String>,
    /// The account.
    pub user: Account,
    /// The challenge.
    pub challenge: Vec<u8>,
    /// The algorithms that are wanted and can be read, the best first.
    pub algorithms: Vec<i64>,
    /// The ids of the credentials that the account has.
    pub exclude: Vec<Vec<u8>>,
    /// Whether the credential is to be discoverable.
    pub resident: Requirement,
    /// Whether the user is to be verified.
    pub verification: Requirement,
    /// Whether the key's attestation is asked for.
    pub attestation: bool,
    pub extensions: Extensions,
}

/// What a sign-in is asked for.
#[derive(Debug, Drop)]
pub struct RequestOptions {
    /// The origin that asks.
    pub origin: String,
    /// The rp id, where the options have one.
    pub rp_id: Option<String>,
    /// The challenge.
    pub challenge: Vec<u8>,
    /// The ids of the credentials that may answer; none for any.
    pub allow: Vec<Vec<u8>>,
    /// Whether the user is to be verified.
    pub verification: Requirement,
}

/// A requirement by its word.
fn requirement(word: Option<&str>) -> Option<Requirement> {
    match word {
        Some("required") => Some(Requirement::Required),
        Some("preferred") => Some(Requirement::Preferred),
        Some("discouraged") => Some(Requirement::Discouraged),
        _ => None,
    }
}

/// Whether the user is to be verified: preferred where the word is absent or unknown (WebAuthn Level 2, section 5.8.6).
fn verification(options: &Value) -> Result<Requirement, LineError>
    ensures { IfErr result IsInOptions }
{
    let word = optional_text(options, "userVerification")?;
    Ok(requirement(word).unwrap_or(Requirement::Preferred))
}

/// Whether the credential is to be discoverable (section 5.4.6): where the word is absent or unknown, `requireResidentKey`
/// decides.
fn resident(selection: &Value) -> Result<Requirement, LineError>
    ensures { IfErr result IsInOptions }
{
    let is_required = flag(selection, "requireResidentKey", false)?;
    let absent = if is_required {
        Requirement::Required
    } else {
        Requirement::Discouraged
    };
    let word = optional_text(selection, "residentKey")?;
    Ok(requirement(word).unwrap_or(absent))
}

/// Whether a descriptor or a parameter is of a public key.
fn is_public_key(item: &Value) -> bool {
    match item.get("type") {
        Some(word) => word.as_str() == Some("public-key"),
        None => false,
    }
}

/// Adds the number of a parameter, where it is of an algorithm that can be read.
fn push_algorithm(item: &Value, algorithms: &mut Vec<i64>) -> Result<(), LineError>
    ensures { IfErr result IsInOptions }
{
    if !is_public_key(item) {
        return Ok(());
    }
    match needed(item, "alg")?.as_i64() {
        Some(number) if Alg::from_number(number).is_some() => Ok(algorithms.push(number)?),
        Some(_) => Ok(()),
        None => Err(LineError::BadForm("alg")),
    }
}

/// The algorithms of `pubKeyCredParams` that can be read; ES256 and RS256 where the list is empty (WebAuthn Level 2,
/// section 5.1.3, step 10).
fn algorithms(alloc: Global, options: &Value) -> Result<Vec<i64>, LineError>
    ensures { IfErr result IsInOptions }
{
    let items = items(options, "pubKeyCredParams")?;
    if items.is_empty() {
        return Ok(Vec::from_slice(alloc, &[-7, -257])?);
    }
    let mut algorithms = Vec::new(alloc);
    for item in items {
        push_algorithm(item, &mut algorithms)?;
    }
    Ok(algorithms)
}

/// The ids of descriptors of public keys; others are passed over.
fn ids(alloc: Global, items: &[Value]) -> Result<Vec<Vec<u8>>, LineError>
    ensures { IfErr result IsInOptions }
{
    let mut ids = Vec::new(alloc);
    for item in items {
        if is_public_key(item) {
            ids.push(bytes(alloc, item, "id")?)?;
        }
    }
    Ok(ids)
}

/// The number of a policy by its name.
fn policy_number(name: &str) -> Option<u64> {
    match name {
        "userVerificationOptional" => Some(1),
        "userVerificationOptionalWithCredentialIDList" => Some(2),
        "userVerificationRequired" => Some(3),
        _ => None,
    }
}

/// A policy of protection, by number or by name.
fn policy(value: &Value, name: &'static str) -> Result<u64, LineError>
    ensures { IfErr result IsInOptions }
{
    let number = match value.as_str() {
        Some(word) => policy_number(word),
        None => value.as_u64(),
    };
    match number {
        Some(number) if 1 <= number && number <= 3 => Ok(number),
        _ => Err(LineError::BadForm(name)),
    }
}

/// The policy of protection that is asked for.
fn cred_protect(inputs: &Value) -> Result<Option<u64>, LineError>
    ensures { IfErr result IsInOptions }
{
    if let Some(value) = member(inputs, "credentialProtectionPolicy") {
        return Ok(Some(policy(value, "credentialProtectionPolicy")?));
    }
    match member(inputs, "credProtect") {
        Some(value) => Ok(Some(policy(value, "credProtect")?)),
        None => Ok(None),
    }
}

/// The inputs of extensions; those that are not known are passed over.
fn extension_inputs(options: &Value) -> Result<Extensions, LineError>
    ensures { IfErr result IsInOptions }
{
    match optional_object(options, "extensions")? {
        Some(inputs) => Ok(Extensions {
            cred_props: flag(inputs, "credProps", false)?,
            cred_protect: cred_protect(inputs)?,
            hmac_secret: flag(inputs, "hmacCreateSecret", false)?,
            min_pin_length: flag(inputs, "minPinLength", false)?,
        }),
        None => Ok(Extensions {
            cred_props: false,
            cred_protect: None,
            hmac_secret: false,
            min_pin_length: false,
        }),
    }
}

/// The account of `user`.
fn account_of(alloc: Global, user: &Value) -> Result<Account, LineError>
    ensures found { IfOk result (λ a. HasBytes (codes "id") (view user.now) a.id.items) }
    ensures amiss { IfErr result IsInOptions }
{
    Ok(Account {
        id: bytes(alloc, user, "id")?,
        name: optional_owned_text(alloc, user, "name")?,
        display_name: optional_owned_text(alloc, user, "displayName")?,
    })
}

/// The requirements of `authenticatorSelection`: on discoverability, and on verification.
fn selection(options: &Value) -> Result<(Requirement, Requirement), LineError>
    ensures { IfErr result IsInOptions }
{
    match optional_object(options, "authenticatorSelection")? {
        Some(selection) => Ok((resident(selection)?, verification(selection)?)),
        None => Ok((Requirement::Discouraged, Requirement::Preferred)),
    }
}

/// The options of a line's registration.
pub(crate) fn creation_options(alloc: Global, line: &Value) -> Result<CreationOptions, LineError>
    ensures found { IfOk result (SaysCreation (view line.now)) }
    ensures amiss { IfErr result (OfOptions (view line.now)) }
{
    let options = object(line, "options")?;
    let rp = object(options, "rp")?;
    let user = object(options, "user")?;
    let (resident, verification) = selection(options)?;
    Ok(CreationOptions {
        origin: owned_text(alloc, line, "origin")?,
        rp_id: optional_owned_text(alloc, rp, "id")?,
        rp_name: optional_owned_text(alloc, rp, "name")?,
        user: account_of(alloc, user)?,
        challenge: bytes(alloc, options, "challenge")?,
        algorithms: algorithms(alloc, options)?,
        exclude: ids(alloc, items(options, "excludeCredentials")?)?,
        resident,
        verification,
        attestation: optional_text(options, "attestation")? == Some("direct"),
        extensions: extension_inputs(options)?,
    })
}

/// The ids of `allowCredentials`: a list that is not empty has one that is of a public key (WebAuthn Level 2, section
/// 5.1.4.1).
fn allowed(alloc: Global, options: &Value) -> Result<Vec<Vec<u8>>, LineError>
    ensures { IfErr result IsInOptions }
{
    let items = items(options, "allowCredentials")?;
    let allow = ids(alloc, items)?;
    if allow.is_empty() && !items.is_empty() {
        return Err(LineError::BadForm("allowCredentials"));
    }
    Ok(allow)
}

/// The options of a line's sign-in.
pub(crate) fn request_options(alloc: Global, line: &Value) -> Result<RequestOptions, LineError>
    ensures found { IfOk result (SaysRequest (view line.now)) }
    ensures amiss { IfErr result (OfOptions (view line.now)) }
{
    let options = object(line, "options")?;
    Ok(RequestOptions {
        origin: owned_text(alloc, line, "origin")?,
        rp_id: optional_owned_text(alloc, options, "rpId")?,
        challenge: bytes(alloc, options, "challenge")?,
        allow: allowed(alloc, options)?,
        verification: verification(options)?,
    })
}
