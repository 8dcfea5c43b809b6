//! What is common to cases of both kinds, in JSON.

use crate::error::CaseError;
use authdata::Profile;
use json_lines::{bytes, flag, items, nests_within, text, text_or};
use serde_json::Value;
use std::alloc::Global;
use verification::{Policy, RelyingParty};

/// The members of a case.
const MEMBERS: [&str; 12] = [
    "response",
    "rp_id",
    "origins",
    "top_origins",
    "profile",
    "accept_none",
    "accept_self",
    "session",
    "registered",
    "full",
    "credential",
    "signature_verified",
];

/// Which kind of response a case has.
#[derive(Clone, Copy, Debug, PartialEq, Eq, Drop)]
pub enum Kind {
    Registration,
    SignIn,
}

/// The value that the bytes are in JSON.
pub fn value_of(alloc: Global, input: &[u8]) -> Result<Value, CaseError> {
    let Ok(text) = str::from_utf8(input) else {
        return Err(CaseError::NotUtf8);
    };
    if !nests_within(input) {
        return Err(CaseError::TooDeep);
    }
    match Value::from_str(alloc, text) {
        Ok(value) => Ok(value),
        Err(error) if error.is_memory() => Err(CaseError::Memory),
        Err(_) => Err(CaseError::NotJson),
    }
}

/// Whether a name is one of these.
fn is_one_of(names: &[&str], name: &str) -> bool {
    for one in names {
        if *one == name {
            return true;
        }
    }
    false
}

/// That a value is an object whose members have these names.
pub(crate) fn check_members(
    value: &Value,
    what: &'static str,
    names: &[&str],
) -> Result<(), CaseError> {
    let Some(members) = value.as_object() else {
        return Err(CaseError::BadForm(what));
    };
    for (name, _) in members {
        if !is_one_of(names, name.as_str()) {
            return Err(CaseError::UnknownMember(what));
        }
    }
    Ok(())
}

/// That a case has no member that is not known.
pub(crate) fn check_case(case: &Value) -> Result<(), CaseError> {
    check_members(case, "the case", &MEMBERS)
}

/// The inner part of a case's response, and what it answers.
pub fn parts_of(case: &Value) -> Option<(&Value, Kind)> {
    let parts = case.get("response")?.get("response")?;
    if parts.get("attestationObject").is_some() {
        return Some((parts, Kind::Registration));
    }
    if parts.get("signature").is_some() || parts.get("authenticatorData").is_some() {
        return Some((parts, Kind::SignIn));
    }
    None
}

/// That a response has what the standard fixes of it beside its parts (WebAuthn Level 3, section 5.1).
pub(crate) fn check_response(response: &Value) -> Result<(), CaseError> {
    if text(response, "id")? != text(response, "rawId")? {
        return Err(CaseError::OtherId);
    }
    if text(response, "type")? != "public-key" {
        return Err(CaseError::BadForm("type"));
    }
    text_or(response, "authenticatorAttachment", "")?;
    match response.get("clientExtensionResults") {
        Some(results) if !results.is_object() => Err(CaseError::BadForm("clientExtensionResults")),
        _ => Ok(()),
    }
}

/// The texts of a list.
fn texts<'a>(
    alloc: Global,
    case: &'a Value,
    name: &'static str,
) -> Result<Vec<&'a str>, CaseError> {
    let mut found = Vec::new(alloc);
    for item in items(case, name)? {
        match item.as_str() {
            Some(text) => found.push(text)?,
            None => return Err(CaseError::BadForm(name)),
        }
    }
    Ok(found)
}

/// The profile of a name.
fn profile_named(name: &str) -> Option<Profile> {
    match name {
        "strict" => Some(Profile::Strict),
        "open" => Some(Profile::Open),
        "level3" => Some(Profile::Level3),
        _ => None,
    }
}

/// The name of a case's profile.
pub fn profile_name(case: &Value) -> &str {
    text_or(case, "profile", "level3").unwrap_or("")
}

/// Whether a byte may stand in a domain as browsers write it.
fn is_of_domain(byte: u8) -> bool {
    byte.is_ascii_lowercase() || byte.is_ascii_digit() || matches!(byte, b'.' | b'-' | b'_')
}

/// Whether a text has the characters of a domain.
fn is_domain(text: &str) -> bool {
    !text.is_empty() && text.bytes().all(is_of_domain)
}

/// Whether a byte may stand in the host and the port of an origin.
fn is_of_host(byte: u8) -> bool {
    is_of_domain(byte) || matches!(byte, b':' | b'[' | b']')
}

/// Whether a text has the form of an origin as browsers write it, in lower case and without a path, or of an app's (RFC 6454,
/// section 6.2).
fn is_origin(text: &str) -> bool {
    if text.starts_with("android:apk-key-hash:") {
        return true;
    }
    match text.split_once("://") {
        Some((scheme, host)) => {
            is_domain(scheme) && !host.is_empty() && host.bytes().all(is_of_host)
        }
        None => false,
    }
}

/// The origins of a list.
fn origins<'a>(
    alloc: Global,
    case: &'a Value,
    name: &'static str,
) -> Result<Vec<&'a str>, CaseError> {
    let found = texts(alloc, case, name)?;
    for origin in &found {
        if !is_origin(origin) {
            return Err(CaseError::BadForm(name));
        }
    }
    Ok(found)
}

/// The relying party of a case.
pub(crate) fn party_of(alloc: Global, case: &Value) -> Result<RelyingParty, CaseError> {
    let Some(profile) = profile_named(text_or(case, "profile", "level3")?) else {
        return Err(CaseError::BadForm("profile"));
    };
    let rp_id = text(case, "rp_id")?;
    if !is_domain(rp_id) {
        return Err(CaseError::BadForm("rp_id"));
    }
    let pages = origins(alloc, case, "origins")?;
    if pages.is_empty() {
        return Err(CaseError::BadForm("origins"));
    }
    let framing = origins(alloc, case, "top_origins")?;
    Ok(RelyingParty::framed_by(alloc, profile, rp_id, &pages, &framing)?)
}

/// Which attestations a case's relying party accepts: at least one of both kinds.
pub(crate) fn policy_of(case: &Value) -> Result<Policy, CaseError> {
    let accept_none = flag(case, "accept_none", true)?;
    let accept_self = flag(case, "accept_self", true)?;
    if !accept_none && !accept_self {
        return Err(CaseError::BadForm("accept_none"));
    }
    Ok(Policy {
        accept_none,
        accept_self,
    })
}

/// The challenge of a session, of 32 bytes.
pub(crate) fn challenge(alloc: Global, session: &Value) -> Result<[u8; 32], CaseError> {
    let found = bytes(alloc, session, "challenge")?;
    match <[u8; 32]>::try_from(found.as_slice()) {
        Ok(challenge) => Ok(challenge),
        Err(_) => Err(CaseError::BadForm("challenge")),
    }
}

/// A member that is true or false, or not said.
pub(crate) fn flag_or_none(object: &Value, name: &'static str) -> Result<Option<bool>, CaseError> {
    match json_lines::member(object, name) {
        Some(value) => match value.as_bool() {
            Some(flag) => Ok(Some(flag)),
            None => Err(CaseError::BadForm(name)),
        },
        None => Ok(None),
    }
}
