//! Transports, as clients tell them (WebAuthn Level 2, section 5.8.4; Level 3, section 5.1).

ghost use Rattle.std.specs.Prelude.{◌≡◌, ◌↔◌, ◌⊎◌, IfErr, IfOk, IsTrue, Some, codes, map, string_bytes};
ghost use Rattle.serde_json.specs.Find.{as_str};
ghost use Rattle.serde_json.specs.View.{view};
ghost use Rattle.std.specs.List.{AllByRecursion};
ghost use Rattle.site_acts.specs.Lines.{HasTexts, TellsTransports};
ghost use Rattle.json_lines.specs.Faults.{IsIllFormed, IsRefusedAs};
ghost use Rattle.site_acts.specs.Faults.{AreTransports, IsPlain, IsTransport, IsTransportText, OfParts};

use json_lines::{LineError, items, member, needed};
use serde_json::Value;
use std::alloc::Global;

/// The most transports of a credential.
pub const MOST_TRANSPORTS: usize = 16;

/// The most characters of a transport.
const LONGEST: usize = 32;

/// Whether a byte is one of a transport's: a lower-case letter, a digit or a hyphen.
fn is_plain(byte: u8) -> bool
    ensures { IsTrue result ↔ IsPlain byte }
{
    byte.is_ascii_lowercase() || byte.is_ascii_digit() || byte == b'-'
}

/// Whether each byte is one of a transport's.
#[tactic(auto, using(crate::proofs::Amiss::plain_at, crate::proofs::Amiss::plain_more))]
fn are_plain(text: &[u8]) -> bool
    ensures { IsTrue result ↔ AllByRecursion IsPlain text.now }
{
    for byte in text {
        if !is_plain(*byte) {
            return false;
        }
    }
    true
}

/// Whether a text is a transport's: from 1 to 32 lower-case letters, digits and hyphens.
pub fn is_transport(text: &[u8]) -> bool
    ensures { IsTrue result ↔ IsTransportText text.now }
{
    !text.is_empty() && text.len() <= LONGEST && are_plain(text)
}

/// A transport.
fn transport(alloc: Global, value: &Value, name: &'static str) -> Result<String, LineError>
    ensures found { IfOk result (λ text. as_str (view value.now) ≡ Some (string_bytes text)) }
    ensures refused { IfErr result (IsRefusedAs name.entry (IsTransport (view value.now))) }
{
    let Some(text) = value.as_str() else {
        return Err(LineError::BadForm(name));
    };
    if !is_transport(text.as_bytes()) {
        return Err(LineError::BadForm(name));
    }
    Ok(String::from_str(alloc, text)?)
}

/// The transports of each value.
fn transports_of(
    alloc: Global,
    items: &[Value],
    name: &'static str,
) -> Result<Vec<String>, LineError>
    ensures found { IfOk result (λ list. map (λ value. as_str (view value)) items.now ≡ map (λ text. Some (string_bytes text)) list.items) }
    ensures refused { IfErr result (IsRefusedAs name.entry (AllByRecursion IsTransport (map view items.now))) }
{
    let mut list = Vec::with_capacity(alloc, items.len())?;
    for item in items {
        list.push(transport(alloc, item, name)?)?;
    }
    Ok(list)
}

/// The member `transports`: at most 16; none where it is absent.
fn transports(alloc: Global, line: &Value) -> Result<Vec<String>, LineError>
    ensures found { IfOk result (λ list. HasTexts (codes "transports") (view line.now) (map string_bytes list.items)) }
    ensures amiss { IfErr result (IsIllFormed (codes "transports") AreTransports (view line.now)) }
{
    let items = items(line, "transports")?;
    if items.len() > MOST_TRANSPORTS {
        return Err(LineError::BadForm("transports"));
    }
    let list = transports_of(alloc, items, "transports")?;
    Ok(list)
}

/// The transports of a registration: those of its line, or where it has none those of the response.
pub(crate) fn told_transports(
    alloc: Global,
    line: &Value,
    response: &Value,
) -> Result<Vec<String>, LineError>
    ensures found { IfOk result (λ list. TellsTransports (view line.now) (view response.now) (map string_bytes list.items)) }
    ensures amiss { IfErr result (λ e. IsIllFormed (codes "transports") AreTransports (view line.now) e
        ⊎ OfParts (IsIllFormed (codes "transports") AreTransports) (view response.now) e) }
{
    if member(line, "transports").is_some() {
        return transports(alloc, line);
    }
    let parts = needed(response, "response")?;
    transports(alloc, parts)
}
