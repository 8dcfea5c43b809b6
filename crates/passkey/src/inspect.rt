//! What bytes say: `passkey inspect`.

ghost use Rattle.std.specs.Prelude.{◌≡◌};
ghost use Rattle.passkey.specs.declared.inspect.InspectFault.TheVariants as faults;

use crate::arguments::Inspection;
use crate::hex_text::unhex;
use authdata::{Attested, AuthData};
use ccbor::{Value, decode_all};
use clientdata::{Binding, Seen, quoted_text};
use cose::Alg;
use hidframe::{Head, Packet};
use std::alloc::{AllocError, Global};
use std::fmt::{Debug, Write};
use std::str;

/// Why nothing is printed.
#[derive(Drop)]
pub enum InspectFault {
    /// The input is not hex.
    BadHex,
    /// The bytes are refused: the line to print, with the refusal's number and name.
    Refused(String),
    /// There was no memory.
    Memory,
}

impl From<AllocError> for InspectFault {
    ghost from_gives = { λ _ e. e ≡ faults.Memory };

    fn from(_e: AllocError) -> InspectFault {
        InspectFault::Memory
    }
}

/// Writes a value: numbers in decimal, bytes as `h'` hex `'`, texts in quotes, `[a, b]`, `{k: v, k: v}`.
#[cycle(values)]
fn write_value(value: &Value, alloc: Global, out: &mut String) -> Result<(), AllocError> {
    match value {
        Value::Uint(n) => write!(out, "{n}"),
        Value::Nint(n) => {
            let distance = u128::from(*n) + 1;
            write!(out, "-{distance}")
        }
        Value::Bytes(bytes) => {
            let digits = hex::encode(alloc, bytes.as_slice())?;
            write!(out, "h'{digits}'")
        }
        Value::Text(text) => out.push_str(quoted_text(alloc, text)?.as_str()),
        Value::Array(items) => write_items(items, alloc, out),
        Value::Map(pairs) => write_pairs(pairs, alloc, out),
        Value::Bool(b) => write!(out, "{b}"),
    }
}

/// Writes the items of an array.
#[cycle(values)]
fn write_items(items: &[Value], alloc: Global, out: &mut String) -> Result<(), AllocError> {
    out.push('[')?;
    for (i, item) in items.iter().enumerate() {
        if i > 0 {
            out.push_str(", ")?;
        }
        write_value(item, alloc, out)?;
    }
    out.push(']')
}

/// Writes the pairs of a map.
#[cycle(values)]
fn write_pairs(
    pairs: &[(Value, Value)],
    alloc: Global,
    out: &mut String,
) -> Result<(), AllocError> {
    out.push('{')?;
    for (i, (key, value)) in pairs.iter().enumerate() {
        if i > 0 {
            out.push_str(", ")?;
        }
        write_value(key, alloc, out)?;
        out.push_str(": ")?;
        write_value(value, alloc, out)?;
    }
    out.push('}')
}

/// The fault that a refusal with a number is reported as.
fn refused(
    alloc: Global,
    number: Option<u8>,
    name: &(impl Debug + Drop),
) -> Result<InspectFault, AllocError> {
    let number = number.unwrap_or(0);
    Ok(InspectFault::Refused(format!(in alloc; "fault {number} {name:?}")?))
}

/// The line that shows the one whole value that the bytes encode.
fn cbor(alloc: Global, bytes: &[u8]) -> Result<String, InspectFault> {
    let value = match decode_all(alloc, bytes) {
        Ok(value) => value,
        Err(ccbor::Error::Memory) => return Err(InspectFault::Memory),
        Err(error) => return Err(refused(alloc, error.number(), &error)?),
    };
    let mut out = String::new(alloc);
    write_value(&value, alloc, &mut out)?;
    out.push('\n')?;
    Ok(out)
}

/// Writes the lines that show an attested credential.
fn write_attested(alloc: Global, attested: &Attested, out: &mut String) -> Result<(), AllocError> {
    let aaguid = hex::encode(alloc, attested.aaguid.as_slice())?;
    let id = hex::encode(alloc, attested.id.as_slice())?;
    let key = match attested.key.alg() {
        Alg::Es256 => "ES256",
        Alg::EdDsa => "EdDSA",
        Alg::Rs256 => "RS256",
    };
    write!(out, "aaguid {aaguid}\nid {id}\nkey {key}\n")
}

/// Writes the lines that show authenticator data.
fn write_auth_data(alloc: Global, data: &AuthData, out: &mut String) -> Result<(), AllocError> {
    let rp_id_hash = hex::encode(alloc, data.rp_id_hash.as_slice())?;
    let (flags, sign_count) = (data.flags, data.sign_count);
    write!(
        out,
        "rp {rp_id_hash}\nflags {flags:02x}\ncount {sign_count}\n"
    )?;
    match &data.attested {
        Some(attested) => write_attested(alloc, attested, out),
        None => Ok(()),
    }
}

/// The lines that show authenticator data.
fn auth_data(alloc: Global, bytes: &[u8]) -> Result<String, InspectFault> {
    let read = match authdata::read(alloc, bytes) {
        Ok(read) => read,
        Err(authdata::Error::Memory) => return Err(InspectFault::Memory),
        Err(error) => return Err(refused(alloc, error.number(), &error)?),
    };
    let mut out = String::new(alloc);
    write_auth_data(alloc, &read, &mut out)?;
    Ok(out)
}

/// Writes the line that shows a packet.
fn write_packet(packet: &Packet, out: &mut String) -> Result<(), AllocError> {
    match packet.read() {
        Head::Init {
            cid,
            cmd,
            len,
            bytes: _,
        } => writeln!(out, "init {cid:08x} {cmd:02x} {len}"),
        Head::Cont { cid, seq, bytes: _ } => writeln!(out, "cont {cid:08x} {seq}"),
    }
}

/// The lines that show packets, one of 64 bytes in hex a line.
fn packets(alloc: Global, text: &str) -> Result<String, InspectFault> {
    let mut out = String::new(alloc);
    for line in text.split('\n') {
        let bytes = unhex(alloc, line)?.ok_or(InspectFault::BadHex)?;
        if bytes.is_empty() {
            continue;
        }
        let Ok(packet) = <[u8; 64]>::try_from(bytes.as_slice()) else {
            return Err(InspectFault::BadHex);
        };
        write_packet(&Packet(packet), &mut out)?;
    }
    Ok(out)
}

/// Writes the line that shows a member of client data.
fn write_member(alloc: Global, name: &str, text: &str, out: &mut String) -> Result<(), AllocError> {
    let text = quoted_text(alloc, text)?;
    writeln!(out, "{name} {text}")
}

/// Writes the lines that show client data.
fn write_client_data(alloc: Global, seen: &Seen, out: &mut String) -> Result<(), AllocError> {
    write_member(alloc, "type", seen.kind.as_str(), out)?;
    write_member(alloc, "challenge", seen.challenge.as_str(), out)?;
    write_member(alloc, "origin", seen.origin.as_str(), out)?;
    out.push_str(match seen.binding {
        Binding::Absent => "binding absent\n",
        Binding::Supported => "binding supported\n",
        Binding::NotSupported | Binding::Other => "binding other\n",
    })
}

/// The lines that show client data.
fn client_data(alloc: Global, bytes: &[u8]) -> Result<String, InspectFault> {
    let seen = match clientdata::read(alloc, bytes) {
        Ok(seen) => seen,
        Err(clientdata::Error::Memory) => return Err(InspectFault::Memory),
        Err(error) => return Err(refused(alloc, error.number(), &error)?),
    };
    let mut out = String::new(alloc);
    write_client_data(alloc, &seen, &mut out)?;
    Ok(out)
}

/// What the input says, as this kind of bytes.
pub fn inspect(alloc: Global, kind: Inspection, input: &[u8]) -> Result<String, InspectFault> {
    if let Inspection::ClientData = kind {
        return client_data(alloc, input);
    }
    let Ok(text) = str::from_utf8(input) else {
        return Err(InspectFault::BadHex);
    };
    if let Inspection::Packets = kind {
        return packets(alloc, text);
    }
    let bytes = unhex(alloc, text)?.ok_or(InspectFault::BadHex)?;
    match kind {
        Inspection::AuthData => auth_data(alloc, &bytes),
        Inspection::Cbor | Inspection::Packets | Inspection::ClientData => cbor(alloc, &bytes),
    }
}
