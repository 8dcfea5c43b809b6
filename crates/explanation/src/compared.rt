//! What each step looks at: what the response says beside what is expected.

use crate::contents::lent;
use crate::facts::Facts;
use crate::lines::{Lines, NOT_THERE};
use crate::numbers::numbers_of;
use base64::engine::general_purpose::URL_SAFE_NO_PAD;
use clientdata::hash;
use decoded::{Fault, algorithm_name, ascii_json, flag_names, notation_of};
use explanation_case::{Kind, profile_name};
use serde_json::Value;
use std::alloc::AllocError;
use verification::VerifiedSignature;

/// A member of the client data.
fn said(name: &str, facts: &Facts<'_>, lines: &mut Lines) -> Result<(), AllocError> {
    let of = format!(in lines.alloc; "the client data's {name}")?;
    match facts.contents.client_data.member(name) {
        Some(value) => lines.json(of.as_str(), value),
        None => lines.text(of.as_str(), NOT_THERE),
    }
}

/// A text in JSON.
fn quoted(of: &str, text: &str, lines: &mut Lines) -> Result<(), AllocError> {
    let value = Value::String(String::from_str(lines.alloc, text)?);
    lines.json(of, &value)
}

/// The values of a list of the case.
fn listed(of: &str, name: &str, facts: &Facts<'_>, lines: &mut Lines) -> Result<(), AllocError> {
    let mut is_empty = true;
    if let Some(values) = facts.case.get(name).and_then(Value::as_array) {
        for value in values {
            is_empty = false;
            lines.json(of, value)?;
        }
    }
    if is_empty {
        lines.text(of, "none")
    } else {
        Ok(())
    }
}

fn session(facts: &Facts<'_>, lines: &mut Lines) -> Result<(), AllocError> {
    let text = if facts.session.is_some() {
        "open, for this kind of response"
    } else {
        "none is open"
    };
    lines.text("the session", text)
}

fn client_data(facts: &Facts<'_>, lines: &mut Lines) -> Result<(), AllocError> {
    lines.bytes("clientDataJSON", lent(&facts.parts.client_data))
}

fn kind(facts: &Facts<'_>, lines: &mut Lines) -> Result<(), AllocError> {
    said("type", facts, lines)?;
    let wanted = match facts.kind {
        Kind::Registration => "webauthn.create",
        Kind::SignIn => "webauthn.get",
    };
    quoted("expected", wanted, lines)
}

fn challenge(facts: &Facts<'_>, lines: &mut Lines) -> Result<(), AllocError> {
    said("challenge", facts, lines)?;
    match facts.session {
        Some(session) => {
            let text = URL_SAFE_NO_PAD.encode(lines.alloc, session.challenge)?;
            quoted("the session's", text.as_str(), lines)
        }
        None => lines.text("the session's", NOT_THERE),
    }
}

fn origin(facts: &Facts<'_>, lines: &mut Lines) -> Result<(), AllocError> {
    said("origin", facts, lines)?;
    listed("an origin of the site's", "origins", facts, lines)
}

fn top_origin(facts: &Facts<'_>, lines: &mut Lines) -> Result<(), AllocError> {
    said("topOrigin", facts, lines)?;
    listed(
        "a top origin that may frame the site",
        "top_origins",
        facts,
        lines,
    )
}

fn frames(facts: &Facts<'_>, lines: &mut Lines) -> Result<(), AllocError> {
    said("crossOrigin", facts, lines)?;
    top_origin(facts, lines)
}

fn token_binding(facts: &Facts<'_>, lines: &mut Lines) -> Result<(), AllocError> {
    said("tokenBinding", facts, lines)?;
    lines.text("the profile", profile_name(facts.case))
}

fn relying_party(facts: &Facts<'_>, lines: &mut Lines) -> Result<(), AllocError> {
    lines.bytes(
        "rpIdHash of the authenticator data",
        facts.contents.auth_data.rp_id_hash(),
    )?;
    let value = Value::String(String::from_str(lines.alloc, facts.rp_id)?);
    let text = ascii_json(lines.alloc, &value)?;
    let of = format!(in lines.alloc; "SHA-256 of {text}")?;
    let digest = hash(facts.rp_id.as_bytes());
    lines.bytes(of.as_str(), Some(&digest))
}

fn flags(of: &str, facts: &Facts<'_>, lines: &mut Lines) -> Result<(), AllocError> {
    let Some(byte) = facts.contents.auth_data.flags() else {
        return lines.text(of, NOT_THERE);
    };
    let names = flag_names(lines.alloc, byte)?;
    let digits = format!(in lines.alloc; "{byte:02x}")?;
    lines.both(of, Some(names.as_str()), Some(digits.as_str()))
}

fn presence(facts: &Facts<'_>, lines: &mut Lines) -> Result<(), AllocError> {
    flags("the flags of the authenticator data", facts, lines)
}

fn registered_presence(facts: &Facts<'_>, lines: &mut Lines) -> Result<(), AllocError> {
    presence(facts, lines)?;
    let text = match facts.session {
        Some(session) if session.conditional => "begun as conditional",
        _ => "not begun as conditional",
    };
    lines.text("the session", text)
}

fn user_verification(facts: &Facts<'_>, lines: &mut Lines) -> Result<(), AllocError> {
    presence(facts, lines)?;
    let text = match facts.session {
        Some(session) if session.uv => "required",
        _ => "not required",
    };
    lines.text("user verification", text)
}

/// The last 32 bytes of a message, which are the hash of the client data.
fn client_data_hash(message: &[u8]) -> Option<&[u8]> {
    message.get(message.len().saturating_sub(32)..)
}

/// The signature that the verdict depends on.
fn signed(
    asked: &VerifiedSignature,
    facts: &Facts<'_>,
    lines: &mut Lines,
) -> Result<(), AllocError> {
    let key = asked.key.view();
    let numbers = numbers_of(&key);
    let name = algorithm_name(lines.alloc, numbers.algorithm)?;
    lines.text("the key's algorithm", name.as_str())?;
    lines.bytes("the key's x", Some(numbers.x))?;
    if !numbers.y.is_empty() {
        lines.bytes("the key's y", Some(numbers.y))?;
    }
    let of = "the message: authenticator data, then SHA-256 of the client data";
    lines.bytes(of, Some(&asked.message))?;
    lines.bytes(
        "SHA-256 of the client data",
        client_data_hash(&asked.message),
    )?;
    client_data(facts, lines)?;
    lines.bytes("the signature", Some(&asked.signature))?;
    let text = match facts.valid {
        Some(true) => "the signature is valid",
        Some(false) => "the signature is not valid",
        None => "the signature is not verified here",
    };
    lines.text("the verifier", text)
}

fn signature(own: Option<&[u8]>, facts: &Facts<'_>, lines: &mut Lines) -> Result<(), AllocError> {
    match facts.asked {
        Some(asked) => signed(asked, facts, lines),
        None => {
            lines.bytes("signature", own)?;
            lines.text("the verifier", "was not asked")
        }
    }
}

fn algorithm(facts: &Facts<'_>, lines: &mut Lines) -> Result<(), Fault> {
    let found = match facts.contents.auth_data.attested() {
        Some(attested) => attested.algorithm(lines.alloc)?,
        None => None,
    };
    lines.text("the key's algorithm", found.as_deref().unwrap_or(NOT_THERE))?;
    let mut offered = String::new(lines.alloc);
    let Some(session) = facts.session else {
        return Ok(lines.text("offered", NOT_THERE)?);
    };
    for alg in session.algorithms {
        if !offered.is_empty() {
            offered.push_str(", ")?;
        }
        let number = alg.number();
        let number = format!(in lines.alloc; "{number}")?;
        let name = algorithm_name(lines.alloc, number.as_str())?;
        offered.push_str(name.as_str())?;
    }
    Ok(lines.text("offered", offered.as_str())?)
}

fn attested_id(facts: &Facts<'_>, lines: &mut Lines) -> Result<(), AllocError> {
    lines.bytes("rawId", lent(&facts.parts.raw_id))?;
    let found = match facts.contents.auth_data.attested() {
        Some(attested) => Some(attested.id),
        None => None,
    };
    lines.bytes("the attested credential's id", found)
}

/// An item of CBOR in diagnostic notation.
fn item(of: &str, span: Option<&[u8]>, lines: &mut Lines) -> Result<(), Fault> {
    let Some(span) = span else {
        return Ok(lines.text(of, NOT_THERE)?);
    };
    let text = notation_of(lines.alloc, span)?;
    Ok(lines.text(of, text.as_str())?)
}

fn format_of(facts: &Facts<'_>, lines: &mut Lines) -> Result<(), Fault> {
    let span = match facts.contents.attestation {
        Some(object) => object.format,
        None => None,
    };
    item("the format", span, lines)
}

fn known_format(facts: &Facts<'_>, lines: &mut Lines) -> Result<(), Fault> {
    format_of(facts, lines)?;
    let text = match facts.session {
        Some(session) if session.attestation => "was asked for",
        _ => "was not asked for",
    };
    Ok(lines.text("an attestation", text)?)
}

fn statement(facts: &Facts<'_>, lines: &mut Lines) -> Result<(), Fault> {
    format_of(facts, lines)?;
    let (span, own) = match facts.contents.attestation {
        Some(object) => (object.statement, object.signature()),
        None => (None, None),
    };
    item("the statement", span, lines)?;
    Ok(signature(own, facts, lines)?)
}

/// Yes or no.
fn yes_or_no(is_so: bool) -> &'static str {
    if is_so { "yes" } else { "no" }
}

fn policy(facts: &Facts<'_>, lines: &mut Lines) -> Result<(), Fault> {
    format_of(facts, lines)?;
    lines.text(
        "the site accepts no attestation",
        yes_or_no(facts.policy.accept_none),
    )?;
    Ok(lines.text(
        "the site accepts self attestation",
        yes_or_no(facts.policy.accept_self),
    )?)
}

fn registered(facts: &Facts<'_>, lines: &mut Lines) -> Result<(), AllocError> {
    lines.bytes("the id", lent(&facts.parts.raw_id))?;
    let text = if facts.is_registered {
        "is registered"
    } else {
        "is not registered"
    };
    lines.text("a credential with this id", text)
}

fn room(facts: &Facts<'_>, lines: &mut Lines) -> Result<(), AllocError> {
    let text = if facts.is_full {
        "none"
    } else {
        "there is room"
    };
    lines.text("room for another credential", text)
}

/// Adds ids, one by one.
fn ids(of: &str, ids: &[Vec<u8>], lines: &mut Lines) -> Result<(), AllocError> {
    for id in ids {
        lines.bytes(of, Some(id.as_slice()))?;
    }
    Ok(())
}

fn allowed(facts: &Facts<'_>, lines: &mut Lines) -> Result<(), AllocError> {
    lines.bytes("rawId", lent(&facts.parts.raw_id))?;
    let of = "a credential that the session allows";
    match facts.session {
        Some(session) if !session.allow.is_empty() => ids(of, session.allow, lines),
        _ => lines.text(of, "none"),
    }
}

fn known(facts: &Facts<'_>, lines: &mut Lines) -> Result<(), AllocError> {
    lines.bytes("rawId", lent(&facts.parts.raw_id))?;
    let (id, text) = match &facts.row {
        Some(row) if row.retired => (Some(row.id), "retired"),
        Some(row) => (Some(row.id), "not retired"),
        None => (None, "none"),
    };
    lines.bytes("the row's id", id)?;
    lines.text("the row", text)
}

fn user(facts: &Facts<'_>, lines: &mut Lines) -> Result<(), AllocError> {
    let expected = match facts.session {
        Some(session) => session.user,
        None => None,
    };
    let owner = match &facts.row {
        Some(row) => Some(row.user),
        None => None,
    };
    lines.bytes("the session's user handle", expected)?;
    lines.bytes("the response's user handle", lent(&facts.parts.user_handle))?;
    lines.bytes("the row's user handle", owner)
}

fn auth_data(facts: &Facts<'_>, lines: &mut Lines) -> Result<(), AllocError> {
    lines.bytes("authenticatorData", lent(&facts.parts.auth_data))?;
    flags("the flags", facts, lines)
}

fn counters(facts: &Facts<'_>, lines: &mut Lines) -> Result<(), AllocError> {
    let stored = match &facts.row {
        Some(row) => Some(row.sign_count),
        None => None,
    };
    lines.count(
        "the counter received",
        facts.contents.auth_data.sign_count(),
    )?;
    lines.count("the counter stored", stored)
}

fn eligibility(facts: &Facts<'_>, lines: &mut Lines) -> Result<(), AllocError> {
    presence(facts, lines)?;
    let known = match &facts.row {
        Some(row) => row.eligible,
        None => None,
    };
    let text = match known {
        Some(true) => "it was eligible (BE)",
        Some(false) => "it was not eligible (BE)",
        None => "it is not known whether it was eligible (BE)",
    };
    lines.text("the row", text)
}

/// The lines of a step of a registration alone.
fn of_registration(name: &str, facts: &Facts<'_>, lines: &mut Lines) -> Result<(), Fault> {
    match name {
        "BadAttestationObject" => {
            lines.bytes("attestationObject", lent(&facts.parts.object))?;
        }
        "UserNotPresent" => registered_presence(facts, lines)?,
        "AlgorithmNotOffered" => algorithm(facts, lines)?,
        "OtherId" => attested_id(facts, lines)?,
        "UnknownFormat" => known_format(facts, lines)?,
        "BadStatement" => statement(facts, lines)?,
        "AttestationNotAccepted" => policy(facts, lines)?,
        "CredentialRegistered" => registered(facts, lines)?,
        "TableFull" => room(facts, lines)?,
        _ => {}
    }
    Ok(())
}

/// The lines of a step of a sign-in alone.
fn of_sign_in(name: &str, facts: &Facts<'_>, lines: &mut Lines) -> Result<(), AllocError> {
    match name {
        "CredentialNotAllowed" => allowed(facts, lines),
        "UnknownCredential" => known(facts, lines),
        "OtherUser" => user(facts, lines),
        "BadAuthenticatorData" => auth_data(facts, lines),
        "UserNotPresent" => presence(facts, lines),
        "BadSignature" => signature(lent(&facts.parts.signature), facts, lines),
        "CounterNotGreater" => counters(facts, lines),
        "EligibilityChanged" => eligibility(facts, lines),
        _ => Ok(()),
    }
}

/// The lines of the step of this name.
pub(crate) fn compared(name: &str, facts: &Facts<'_>, lines: &mut Lines) -> Result<(), Fault> {
    match name {
        "SessionNotOpen" => session(facts, lines)?,
        "UnreadableClientData" => client_data(facts, lines)?,
        "WrongType" => kind(facts, lines)?,
        "WrongChallenge" => challenge(facts, lines)?,
        "WrongOrigin" => origin(facts, lines)?,
        "CrossOrigin" => frames(facts, lines)?,
        "WrongTopOrigin" => top_origin(facts, lines)?,
        "TokenBinding" => token_binding(facts, lines)?,
        "WrongRelyingParty" => relying_party(facts, lines)?,
        "UserNotVerified" => user_verification(facts, lines)?,
        _ => match facts.kind {
            Kind::Registration => of_registration(name, facts, lines)?,
            Kind::SignIn => of_sign_in(name, facts, lines)?,
        },
    }
    Ok(())
}
