//! The lines of a replay script.

ghost use Rattle.std.specs.Prelude.{◌≡◌};
ghost use Rattle.passkey.specs.declared.script.Fault.TheVariants as faults;

use crate::hex_text::unhex;
use crate::script_lines::{LineKind, line_kind};
use ccbor::View;
use cose::{CoseKey, KeyView};
use hidframe::Packet;
use site::Row;
use std::alloc::{AllocError, AllocFailed, Global};

/// A line of a script.
#[derive(Drop)]
pub enum Line<'a> {
    /// `site <rp id> <origin>`: the relying party; the first line.
    Site {
        rp_id: &'a str,
        origin: &'a str,
    },
    /// `row <id> <user> <key> <count>`: a registered credential, directly after `site` or `row`.
    Row(Row),
    /// `session <user or -> <0 or 1> <words> [ids]`: a sign-in begins; 1 requires verification.
    Session {
        user: Option<Vec<u8>>,
        uv: bool,
        words: [u8; 24],
        allow: Vec<Vec<u8>>,
    },
    /// `client <text>`: the client data from here on.
    Client(&'a str),
    /// `valid <key> <auth data> <sig>`: the signature is valid for the data, then the hash of the client data.
    Valid {
        key: CoseKey,
        auth_data: Vec<u8>,
        sig: Vec<u8>,
    },
    /// `packet <hex>`: one more packet, of at most 64 bytes, filled up with zeros.
    Packet(Packet),
    /// `clear`: no packets any more.
    Clear,
    /// `signin <session> <channel>`: the verdict on the packets.
    SignIn {
        session: u64,
        cid: u32,
    },
    /// `table`: the registered credentials.
    Table,
    /// `backup`: which of them are eligible for backup.
    Backup,
    /// `retire <id>`: the credential is retired.
    Retire(Vec<u8>),
}

/// Why a script ends.
#[derive(Drop)]
pub enum Fault {
    /// The line has none of the forms, or its call is refused.
    BadScript,
    /// There was no memory.
    Memory,
}

impl From<AllocError> for Fault {
    ghost from_gives = { λ _ e. e ≡ faults.Memory };

    fn from(_e: AllocError) -> Fault {
        Fault::Memory
    }
}

impl<T: Drop> From<AllocFailed<T>> for Fault {
    ghost from_gives = { λ _ e. e ≡ faults.Memory };

    fn from(_e: AllocFailed<T>) -> Fault {
        Fault::Memory
    }
}

/// The bytes of a field in hex.
fn bytes(alloc: Global, field: &str) -> Result<Vec<u8>, Fault> {
    unhex(alloc, field)?.ok_or(Fault::BadScript)
}

/// The N bytes of a field in hex.
fn array<const N: usize>(alloc: Global, field: &str) -> Result<[u8; N], Fault> {
    let found = bytes(alloc, field)?;
    <[u8; N]>::try_from(found.as_slice()).map_err(|_| Fault::BadScript)
}

/// The COSE key of a field in hex.
fn key(alloc: Global, field: &str) -> Result<CoseKey, Fault> {
    let encoded = bytes(alloc, field)?;
    let Ok(value) = View::check_all(&encoded) else {
        return Err(Fault::BadScript);
    };
    let Ok(key) = KeyView::from_view(&value) else {
        return Err(Fault::BadScript);
    };
    Ok(key.to_key(alloc)?)
}

/// Whether a field has one or more decimal digits and nothing else.
fn is_decimal(field: &str) -> bool {
    !field.is_empty() && field.bytes().all(|b| b.is_ascii_digit())
}

/// The credential of a `row` line, which is not retired, and whose eligibility for backup is unknown.
fn row(alloc: Global, id: &str, user: &str, found: &str, count: &str) -> Result<Row, Fault> {
    if !is_decimal(count) {
        return Err(Fault::BadScript);
    }
    let sign_count = count.parse::<u32>().map_err(|_| Fault::BadScript)?;
    Ok(Row {
        id: bytes(alloc, id)?,
        user: bytes(alloc, user)?,
        key: key(alloc, found)?,
        sign_count,
        eligible: None,
        retired: false,
    })
}

/// The user handle of a field, `-` for none.
fn user(alloc: Global, field: &str) -> Result<Option<Vec<u8>>, Fault> {
    if field == "-" {
        return Ok(None);
    }
    Ok(Some(bytes(alloc, field)?))
}

/// The truth value of a field, `0` or `1`.
fn truth(field: &str) -> Result<bool, Fault> {
    match field {
        "0" => Ok(false),
        "1" => Ok(true),
        _ => Err(Fault::BadScript),
    }
}

/// The ids of fields in hex.
fn ids(alloc: Global, fields: &[&str]) -> Result<Vec<Vec<u8>>, Fault> {
    let mut ids = Vec::new(alloc);
    for field in fields {
        ids.push(bytes(alloc, field)?)?;
    }
    Ok(ids)
}

/// The packet that begins with these bytes and goes on with zeros.
fn packet(bytes: &[u8]) -> Result<Packet, Fault> {
    if bytes.len() > 64 {
        return Err(Fault::BadScript);
    }
    let mut filled = [0; 64];
    filled[..bytes.len()].copy_from_slice(bytes);
    Ok(Packet(filled))
}

/// The number of a session.
fn session(field: &str) -> Result<u64, Fault> {
    if !is_decimal(field) {
        return Err(Fault::BadScript);
    }
    field.parse::<u64>().map_err(|_| Fault::BadScript)
}

/// The line that begins a sign-in.
fn session_line<'a>(
    alloc: Global,
    named: &str,
    uv: &str,
    words: &str,
    listed: &[&str],
) -> Result<Line<'a>, Fault> {
    Ok(Line::Session {
        user: user(alloc, named)?,
        uv: truth(uv)?,
        words: array(alloc, words)?,
        allow: ids(alloc, listed)?,
    })
}

/// The line that lists a signature as valid.
fn valid_line<'a>(
    alloc: Global,
    found: &str,
    auth_data: &str,
    sig: &str,
) -> Result<Line<'a>, Fault> {
    Ok(Line::Valid {
        key: key(alloc, found)?,
        auth_data: bytes(alloc, auth_data)?,
        sig: bytes(alloc, sig)?,
    })
}

/// The line of this kind that these fields are; `Client` has none of them.
fn line_of<'a>(alloc: Global, kind: LineKind, fields: &[&'a str]) -> Result<Line<'a>, Fault> {
    match (kind, fields) {
        (LineKind::Site, [rp_id, origin]) => Ok(Line::Site { rp_id, origin }),
        (LineKind::Row, [id, user, found, count]) => {
            Ok(Line::Row(row(alloc, id, user, found, count)?))
        }
        (LineKind::Session, [named, uv, words, listed @ ..]) => {
            session_line(alloc, named, uv, words, listed)
        }
        (LineKind::Valid, [found, auth_data, sig]) => valid_line(alloc, found, auth_data, sig),
        (LineKind::Packet, [found]) => Ok(Line::Packet(packet(&bytes(alloc, found)?)?)),
        (LineKind::Clear, []) => Ok(Line::Clear),
        (LineKind::SignIn, [number, channel]) => Ok(Line::SignIn {
            session: session(number)?,
            cid: u32::from_be_bytes(array(alloc, channel)?),
        }),
        (LineKind::Table, []) => Ok(Line::Table),
        (LineKind::Backup, []) => Ok(Line::Backup),
        (LineKind::Retire, [id]) => Ok(Line::Retire(bytes(alloc, id)?)),
        _ => Err(Fault::BadScript),
    }
}

/// The line that a text is.
pub fn parse_line<'a>(alloc: Global, text: &'a str) -> Result<Line<'a>, Fault> {
    let mut fields = text.split(' ');
    let Some(kind) = fields.next().and_then(line_kind) else {
        return Err(Fault::BadScript);
    };
    if kind == LineKind::Client {
        let (_, client_data) = text.split_once(' ').ok_or(Fault::BadScript)?;
        return Ok(Line::Client(client_data));
    }
    let fields: Vec<&str> = fields.collect(alloc)?;
    line_of(alloc, kind, &fields)
}
