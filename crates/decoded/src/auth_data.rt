//! Authenticator data (WebAuthn Level 3, section 6.1).

use crate::fault::Fault;
use crate::flags::put_flags;
use crate::heads::span_at;
use crate::key::{key_algorithm, put_key};
use crate::members::{put_json, put_null_or_hex, put_null_or_text};
use crate::notation::notation_of;
use ccbor::View;
use std::alloc::{AllocError, Global};
use std::fmt::Write;

/// A credential that authenticator data attest.
#[derive(Clone, Copy, Drop)]
pub struct Attested<'a> {
    aaguid: &'a [u8],
    /// The credential's id.
    pub id: &'a [u8],
    key: &'a [u8],
}

impl Attested<'_> {
    /// The algorithm that the key names, if it names one.
    pub fn algorithm(&self, alloc: Global) -> Result<Option<String>, Fault> {
        key_algorithm(alloc, self.key)
    }
}

/// What is wrong with authenticator data.
#[derive(Clone, Copy, Drop)]
enum Wrong {
    Nothing,
    Short,
    EndsBeforeId,
    EndsInId(usize),
    NoItem(usize),
    Follow(usize),
}

/// Authenticator data as far as they can be read.
#[derive(Clone, Copy, Drop)]
pub struct AuthData<'a> {
    bytes: &'a [u8],
    attested: Option<Attested<'a>>,
    extensions: Option<&'a [u8]>,
    wrong: Wrong,
}

/// The number that two bytes are, the higher first.
fn two_bytes(bytes: &[u8]) -> usize {
    match bytes {
        [high, low] => (usize::from(*high) << 8) | usize::from(*low),
        _ => 0,
    }
}

/// The attested credential data, from byte 37 on, and where they end.
fn attested_in(bytes: &[u8]) -> Result<(Attested<'_>, usize), Wrong> {
    let (Some(aaguid), Some(size)) = (bytes.get(37..53), bytes.get(53..55)) else {
        return Err(Wrong::EndsBeforeId);
    };
    let size = two_bytes(size);
    let end = size.saturating_add(55);
    let Some(id) = bytes.get(55..end) else {
        return Err(Wrong::EndsInId(size));
    };
    match span_at(bytes, end) {
        Ok((key, after)) => Ok((Attested { aaguid, id, key }, after)),
        Err(at) => Err(Wrong::NoItem(at)),
    }
}

impl<'a> AuthData<'a> {
    /// Reads authenticator data.
    pub fn read(bytes: &'a [u8]) -> AuthData<'a> {
        let mut found = AuthData {
            bytes,
            attested: None,
            extensions: None,
            wrong: Wrong::Short,
        };
        let Some(flags) = found.flags() else {
            return found;
        };
        let mut end = 37;
        if flags & 0x40 != 0 {
            match attested_in(bytes) {
                Ok((attested, after)) => {
                    found.attested = Some(attested);
                    end = after;
                }
                Err(wrong) => {
                    found.wrong = wrong;
                    return found;
                }
            }
        }
        if flags & 0x80 != 0 {
            match span_at(bytes, end) {
                Ok((extensions, after)) => {
                    found.extensions = Some(extensions);
                    end = after;
                }
                Err(at) => {
                    found.wrong = Wrong::NoItem(at);
                    return found;
                }
            }
        }
        found.wrong = if end < bytes.len() {
            Wrong::Follow(end)
        } else {
            Wrong::Nothing
        };
        found
    }

    /// The flags; none of data that are too short.
    pub fn flags(&self) -> Option<u8> {
        if self.bytes.len() < 37 {
            return None;
        }
        self.bytes.get(32).copied()
    }

    /// The hash of the relying party's id; none of data that are too short.
    pub fn rp_id_hash(&self) -> Option<&'a [u8]> {
        self.flags()?;
        self.bytes.get(..32)
    }

    /// The counter; none of data that are too short.
    pub fn sign_count(&self) -> Option<u32> {
        let digits = <[u8; 4]>::try_from(self.bytes.get(33..37)?).ok()?;
        Some(u32::from_be_bytes(digits))
    }

    /// The credential that they attest.
    pub fn attested(&self) -> Option<Attested<'a>> {
        self.attested
    }

    /// What is wrong with them, as a text.
    fn fault(&self, alloc: Global) -> Result<Option<String>, AllocError> {
        let size = self.bytes.len();
        let text = match self.wrong {
            Wrong::Nothing => return Ok(None),
            Wrong::Short => format!(in alloc; "they have {size} bytes, and not 37 or more")?,
            Wrong::EndsBeforeId => {
                format!(in alloc; "at byte {size} it ends, before the credential id")?
            }
            Wrong::EndsInId(id) => {
                format!(in alloc; "at byte {size} it ends, within the credential id of {id} bytes")?
            }
            Wrong::NoItem(at) => format!(in alloc; "at byte {at} no CBOR can be read")?,
            Wrong::Follow(end) => {
                let rest = self.bytes.get(end..).unwrap_or(&[]);
                let digits = hex::encode(alloc, rest)?;
                let count = rest.len();
                format!(in alloc; "{count} bytes follow: {digits}")?
            }
        };
        Ok(Some(text))
    }
}

/// Writes an attested credential, or null.
fn put_attested(
    alloc: Global,
    attested: Option<Attested<'_>>,
    out: &mut String,
) -> Result<(), Fault> {
    let Some(attested) = attested else {
        return Ok(put_json("attested", "null", out)?);
    };
    put_json("attested", "{", out)?;
    put_null_or_hex(alloc, "aaguid", Some(attested.aaguid), out)?;
    out.push(',')?;
    put_null_or_hex(alloc, "id", Some(attested.id), out)?;
    out.push_str(",\"key\":")?;
    put_key(alloc, attested.key, out)?;
    Ok(out.push('}')?)
}

/// Writes extensions, or null.
fn put_extensions(alloc: Global, extensions: Option<&[u8]>, out: &mut String) -> Result<(), Fault> {
    let Some(span) = extensions else {
        return Ok(put_json("extensions", "null", out)?);
    };
    let size = span.len();
    let canonical = View::check_all(span).is_ok();
    write!(
        out,
        "\"extensions\":{{\"size\":{size},\"canonical\":{canonical},"
    )?;
    let text = notation_of(alloc, span)?;
    put_null_or_text(alloc, "diagnostic", Some(text.as_str()), out)?;
    Ok(out.push('}')?)
}

/// Writes the flags, or null.
fn put_null_or_flags(alloc: Global, flags: Option<u8>, out: &mut String) -> Result<(), AllocError> {
    match flags {
        Some(flags) => {
            put_json("flags", "", out)?;
            put_flags(alloc, flags, out)
        }
        None => put_json("flags", "null", out),
    }
}

/// Writes the counter, or null.
fn put_count(count: Option<u32>, out: &mut String) -> Result<(), AllocError> {
    match count {
        Some(count) => write!(out, "\"sign_count\":{count}"),
        None => put_json("sign_count", "null", out),
    }
}

/// Appends authenticator data as an object of JSON: `size`, `rp_id_hash`, `flags`, `sign_count`, `attested`, `extensions`, and
/// what is wrong as `fault`.
pub fn write_auth_data(alloc: Global, data: &AuthData<'_>, out: &mut String) -> Result<(), Fault> {
    let size = data.bytes.len();
    write!(out, "{{\"size\":{size},")?;
    put_null_or_hex(alloc, "rp_id_hash", data.rp_id_hash(), out)?;
    out.push(',')?;
    put_null_or_flags(alloc, data.flags(), out)?;
    out.push(',')?;
    put_count(data.sign_count(), out)?;
    out.push(',')?;
    put_attested(alloc, data.attested, out)?;
    out.push(',')?;
    put_extensions(alloc, data.extensions, out)?;
    out.push(',')?;
    let fault = data.fault(alloc)?;
    put_null_or_text(alloc, "fault", fault.as_deref(), out)?;
    Ok(out.push('}')?)
}
