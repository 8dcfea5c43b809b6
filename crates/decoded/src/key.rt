//! COSE keys (RFC 9052, section 7; RFC 9053), of any algorithm.

use crate::entries::{Key, bytes_in, is_key, value_of};
use crate::fault::Fault;
use crate::heads::{LEVELS, end_of, head_at};
use crate::members::{put_json, put_null_or_hex, put_null_or_text};
use crate::notation::notation_of;
use ccbor::View;
use std::alloc::{AllocError, Global};
use std::fmt::Write;

const ALGORITHMS: [(&str, &str); 7] = [
    ("-7", "ES256"),
    ("-8", "EdDSA"),
    ("-35", "ES384"),
    ("-36", "ES512"),
    ("-37", "PS256"),
    ("-257", "RS256"),
    ("-65535", "RS1"),
];

const KEY_TYPES: [(&str, &str); 3] = [("1", "OKP"), ("2", "EC2"), ("3", "RSA")];

const CURVES: [(&str, &str); 5] = [
    ("1", "P-256"),
    ("2", "P-384"),
    ("3", "P-521"),
    ("6", "Ed25519"),
    ("7", "Ed448"),
];

/// The names of labels that are negative, of a key of RSA and of another.
const OF_RSA: [(&str, &str); 2] = [("-1", "modulus"), ("-2", "exponent")];

const OF_CURVES: [(&str, &str); 2] = [("-2", "x"), ("-3", "y")];

/// The name of a number, if it has one.
fn name_of(names: &'static [(&'static str, &'static str)], number: &str) -> Option<&'static str> {
    for (one, name) in names {
        if *one == number {
            return Some(name);
        }
    }
    None
}

/// What names an algorithm, in diagnostic notation, with its name.
pub fn algorithm_name(alloc: Global, number: &str) -> Result<String, AllocError> {
    match name_of(&ALGORITHMS, number) {
        Some(name) => format!(in alloc; "{name} ({number})"),
        None => String::from_str(alloc, number),
    }
}

/// The algorithm in a map, by its key.
pub(crate) fn algorithm_in(
    alloc: Global,
    map: &[u8],
    key: Key<'_>,
) -> Result<Option<String>, Fault> {
    let Some(span) = value_of(map, key) else {
        return Ok(None);
    };
    let number = notation_of(alloc, span)?;
    Ok(Some(algorithm_name(alloc, number.as_str())?))
}

/// The algorithm of a key.
pub(crate) fn key_algorithm(alloc: Global, key: &[u8]) -> Result<Option<String>, Fault> {
    algorithm_in(alloc, key, Key::Number(3))
}

/// A number's name, or the number.
fn named(
    alloc: Global,
    names: &'static [(&'static str, &'static str)],
    number: String,
) -> Result<String, AllocError> {
    match name_of(names, number.as_str()) {
        Some(name) => String::from_str(alloc, name),
        None => Ok(number),
    }
}

/// The value of a member, in hex where it is bytes.
fn shown(alloc: Global, span: &[u8]) -> Result<String, Fault> {
    match bytes_in(span) {
        Some(bytes) => Ok(hex::encode(alloc, bytes)?),
        None => notation_of(alloc, span),
    }
}

/// Whether a label is a number, and not a text that looks like one.
fn is_number(label: &[u8]) -> bool {
    match head_at(label, 0) {
        Some(head) => head.major < 2,
        None => false,
    }
}

/// The name of a label that is not named by a rule of its own.
fn label_name(alloc: Global, label: &[u8], text: &str, is_rsa: bool) -> Result<String, AllocError> {
    let found = if !is_number(label) {
        None
    } else if is_rsa {
        name_of(&OF_RSA, text)
    } else {
        name_of(&OF_CURVES, text)
    };
    match found {
        Some(name) => String::from_str(alloc, name),
        None => format!(in alloc; "label {text}"),
    }
}

/// Writes a member of a key.
fn put_member(
    alloc: Global,
    label: &[u8],
    value: &[u8],
    is_rsa: bool,
    out: &mut String,
) -> Result<(), Fault> {
    let text = notation_of(alloc, label)?;
    let number = if is_number(label) { text.as_str() } else { "" };
    let value = shown(alloc, value)?;
    let (name, value) = match number {
        "1" => (
            String::from_str(alloc, "key type")?,
            named(alloc, &KEY_TYPES, value)?,
        ),
        "3" => (
            String::from_str(alloc, "algorithm")?,
            algorithm_name(alloc, value.as_str())?,
        ),
        "-1" if !is_rsa => (
            String::from_str(alloc, "curve")?,
            named(alloc, &CURVES, value)?,
        ),
        _ => (label_name(alloc, label, text.as_str(), is_rsa)?, value),
    };
    out.push('{')?;
    put_null_or_text(alloc, "name", Some(name.as_str()), out)?;
    out.push(',')?;
    put_null_or_text(alloc, "value", Some(value.as_str()), out)?;
    Ok(out.push('}')?)
}

/// Writes the members of a map; none where the key is no map.
fn put_members(alloc: Global, key: &[u8], out: &mut String) -> Result<(), Fault> {
    let is_rsa = match value_of(key, Key::Number(1)) {
        Some(kind) => is_key(kind, 0, Key::Number(3)),
        None => false,
    };
    let Some(head) = head_at(key, 0) else {
        return Ok(());
    };
    if head.major != 5 {
        return Ok(());
    }
    let mut at = head.end;
    for i in 0..head.number {
        let Ok(middle) = end_of(key, at, LEVELS) else {
            return Err(Fault::At(at));
        };
        let Ok(end) = end_of(key, middle, LEVELS) else {
            return Err(Fault::At(middle));
        };
        if i != 0 {
            out.push(',')?;
        }
        if let (Some(label), Some(value)) = (key.get(at..middle), key.get(middle..end)) {
            put_member(alloc, label, value, is_rsa, out)?;
        }
        at = end;
    }
    Ok(())
}

/// Writes a key as an object.
pub(crate) fn put_key(alloc: Global, key: &[u8], out: &mut String) -> Result<(), Fault> {
    let size = key.len();
    let canonical = View::check_all(key).is_ok();
    write!(out, "{{\"size\":{size},\"canonical\":{canonical},")?;
    put_null_or_hex(alloc, "cose", Some(key), out)?;
    out.push(',')?;
    let algorithm = key_algorithm(alloc, key)?;
    put_null_or_text(alloc, "algorithm", algorithm.as_deref(), out)?;
    out.push(',')?;
    let text = notation_of(alloc, key)?;
    put_null_or_text(alloc, "diagnostic", Some(text.as_str()), out)?;
    out.push(',')?;
    put_json("members", "[", out)?;
    put_members(alloc, key, out)?;
    Ok(out.push_str("]}")?)
}
