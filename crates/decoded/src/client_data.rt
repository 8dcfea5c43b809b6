//! Client data (WebAuthn Level 3, section 5.8.1).

use crate::members::{put_json, put_null_or_text, value_text};
use serde_json::Value;
use std::alloc::{AllocError, Global};
use std::fmt::Write;

/// Client data as far as they can be read.
#[derive(Drop)]
pub struct ClientData<'a> {
    bytes: &'a [u8],
    text: Option<&'a str>,
    /// An object.
    value: Option<Value>,
    fault: Option<&'static str>,
}

/// How deep objects and arrays may nest, as `serde_json` has it.
const MAX_DEPTH: usize = 127;

/// Whether objects and arrays nest deeper than that in a text.
fn is_too_deep(text: &str) -> bool {
    let (mut depth, mut in_string, mut is_escaped) = (0usize, false, false);
    for byte in text.as_bytes() {
        if is_escaped {
            is_escaped = false;
        } else if in_string {
            is_escaped = *byte == b'\\';
            in_string = *byte != b'"';
        } else {
            match *byte {
                b'"' => in_string = true,
                b'[' | b'{' => depth = depth.saturating_add(1),
                b']' | b'}' => depth = depth.saturating_sub(1),
                _ => {}
            }
            if depth > MAX_DEPTH {
                return true;
            }
        }
    }
    false
}

/// What is wrong with a text that is not read.
fn fault_of(text: &str) -> &'static str {
    if is_too_deep(text) {
        "it nests too deep"
    } else {
        "it is not JSON"
    }
}

impl<'a> ClientData<'a> {
    /// Client data that are not an object.
    fn unread(bytes: &'a [u8], text: Option<&'a str>, fault: &'static str) -> ClientData<'a> {
        ClientData {
            bytes,
            text,
            value: None,
            fault: Some(fault),
        }
    }

    /// Reads client data.
    pub fn read(alloc: Global, bytes: &'a [u8]) -> Result<ClientData<'a>, AllocError> {
        let Ok(text) = str::from_utf8(bytes) else {
            return Ok(ClientData::unread(bytes, None, "it is not UTF-8"));
        };
        match Value::from_str(alloc, text) {
            Ok(value) if value.is_object() => Ok(ClientData {
                bytes,
                text: Some(text),
                value: Some(value),
                fault: None,
            }),
            Ok(_) => Ok(ClientData::unread(bytes, Some(text), "it is not an object of JSON")),
            Err(error) if error.is_memory() => Err(AllocError),
            Err(_) => Ok(ClientData::unread(bytes, Some(text), fault_of(text))),
        }
    }

    /// The member of a name, also where it is null.
    pub fn member(&self, name: &str) -> Option<&Value> {
        self.value.as_ref()?.get(name)
    }
}

/// Appends client data as an object of JSON: `size`, `text`, `members`, and what is wrong as `fault`.
pub fn write_client_data(
    alloc: Global,
    said: &ClientData<'_>,
    out: &mut String,
) -> Result<(), AllocError> {
    let size = said.bytes.len();
    write!(out, "{{\"size\":{size},")?;
    put_null_or_text(alloc, "text", said.text, out)?;
    out.push(',')?;
    let members = value_text(alloc, said.value.as_ref())?;
    put_json("members", members.as_str(), out)?;
    out.push(',')?;
    put_null_or_text(alloc, "fault", said.fault, out)?;
    out.push('}')
}
