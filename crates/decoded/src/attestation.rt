//! Attestation objects (WebAuthn Level 3, section 6.5).

use crate::entries::{Key, bytes_in, is_map, value_of};
use crate::fault::Fault;
use crate::heads::{LEVELS, end_of, head_at, span_at};
use crate::key::algorithm_in;
use crate::members::{put_json, put_null_or_hex, put_null_or_item, put_null_or_text};
use base64::engine::general_purpose::STANDARD;
use ccbor::View;
use std::alloc::{AllocError, Global};
use std::fmt::Write;

/// What is wrong with an attestation object.
#[derive(Clone, Copy, Drop)]
enum Wrong {
    Nothing,
    NoItem(usize),
    NoMap,
    Follow(usize),
}

/// An attestation object as far as it can be read.
#[derive(Clone, Copy, Drop)]
pub struct Attestation<'a> {
    bytes: &'a [u8],
    /// What names the format, an item of CBOR.
    pub format: Option<&'a [u8]>,
    /// The statement, an item of CBOR.
    pub statement: Option<&'a [u8]>,
    /// The authenticator data.
    pub auth_data: Option<&'a [u8]>,
    wrong: Wrong,
}

impl<'a> Attestation<'a> {
    /// An object that is not read.
    fn unread(bytes: &'a [u8], wrong: Wrong) -> Attestation<'a> {
        Attestation {
            bytes,
            format: None,
            statement: None,
            auth_data: None,
            wrong,
        }
    }

    /// Reads an attestation object.
    pub fn read(bytes: &'a [u8]) -> Attestation<'a> {
        let (span, end) = match span_at(bytes, 0) {
            Ok(found) => found,
            Err(at) => return Attestation::unread(bytes, Wrong::NoItem(at)),
        };
        if !is_map(span) {
            return Attestation::unread(bytes, Wrong::NoMap);
        }
        Attestation {
            bytes,
            format: value_of(span, Key::Text("fmt")),
            statement: value_of(span, Key::Text("attStmt")),
            auth_data: value_of(span, Key::Text("authData")).and_then(bytes_in),
            wrong: if end < bytes.len() {
                Wrong::Follow(bytes.len() - end)
            } else {
                Wrong::Nothing
            },
        }
    }

    /// A member of the statement.
    fn stated(&self, name: &'static str) -> Option<&'a [u8]> {
        value_of(self.statement?, Key::Text(name))
    }

    /// The signature in the statement.
    pub fn signature(&self) -> Option<&'a [u8]> {
        bytes_in(self.stated("sig")?)
    }

    /// The algorithm that the statement names.
    fn algorithm(&self, alloc: Global) -> Result<Option<String>, Fault> {
        match self.statement {
            Some(statement) => algorithm_in(alloc, statement, Key::Text("alg")),
            None => Ok(None),
        }
    }

    /// What is wrong with it, as a text.
    fn fault(&self, alloc: Global) -> Result<Option<String>, AllocError> {
        let text = match self.wrong {
            Wrong::Nothing => return Ok(None),
            Wrong::NoItem(at) => format!(in alloc; "at byte {at} no CBOR can be read")?,
            Wrong::NoMap => String::from_str(alloc, "it is no map")?,
            Wrong::Follow(count) => format!(in alloc; "{count} bytes follow it")?,
        };
        Ok(Some(text))
    }
}

/// Writes a certificate: its size, and PEM (RFC 7468).
fn put_certificate(alloc: Global, certificate: &[u8], out: &mut String) -> Result<(), AllocError> {
    let size = certificate.len();
    write!(
        out,
        "{{\"size\":{size},\"pem\":\"-----BEGIN CERTIFICATE-----\\n"
    )?;
    let text = STANDARD.encode(alloc, certificate)?;
    for line in text.as_bytes().chunks(64) {
        for byte in line {
            out.push(char::from(*byte))?;
        }
        out.push_str("\\n")?;
    }
    out.push_str("-----END CERTIFICATE-----\"}")
}

/// Writes the byte strings of a list, each as a certificate; nothing of another item.
fn put_certificates(
    alloc: Global,
    listed: Option<&[u8]>,
    out: &mut String,
) -> Result<(), AllocError> {
    let Some(list) = listed else {
        return Ok(());
    };
    let Some(head) = head_at(list, 0) else {
        return Ok(());
    };
    if head.major != 4 {
        return Ok(());
    }
    let mut at = head.end;
    let mut comma = "";
    for _ in 0..head.number {
        let Ok(end) = end_of(list, at, LEVELS) else {
            return Ok(());
        };
        if let Some(certificate) = list.get(at..end).and_then(bytes_in) {
            out.push_str(comma)?;
            put_certificate(alloc, certificate, out)?;
            comma = ",";
        }
        at = end;
    }
    Ok(())
}

/// Appends an attestation object as an object of JSON: `size`, `canonical`, `format`, `statement`, `algorithm`, `signature`,
/// `certificates`, `auth_data`, and what is wrong as `fault`.
pub fn write_attestation(
    alloc: Global,
    object: &Attestation<'_>,
    out: &mut String,
) -> Result<(), Fault> {
    let size = object.bytes.len();
    let canonical = View::check_all(object.bytes).is_ok();
    write!(out, "{{\"size\":{size},\"canonical\":{canonical},")?;
    put_null_or_item(alloc, "format", object.format, out)?;
    out.push(',')?;
    put_null_or_item(alloc, "statement", object.statement, out)?;
    out.push(',')?;
    let algorithm = object.algorithm(alloc)?;
    put_null_or_text(alloc, "algorithm", algorithm.as_deref(), out)?;
    out.push(',')?;
    put_null_or_hex(alloc, "signature", object.signature(), out)?;
    out.push(',')?;
    put_json("certificates", "[", out)?;
    put_certificates(alloc, object.stated("x5c"), out)?;
    out.push_str("],")?;
    put_null_or_hex(alloc, "auth_data", object.auth_data, out)?;
    out.push(',')?;
    let fault = object.fault(alloc)?;
    put_null_or_text(alloc, "fault", fault.as_deref(), out)?;
    Ok(out.push('}')?)
}
