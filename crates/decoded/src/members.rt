//! Members of objects of JSON.

use crate::fault::Fault;
use crate::notation::notation_of;
use crate::quoting::json_text;
use serde_json::Value;
use std::alloc::{AllocError, Global};
use std::fmt::Write;

/// Appends a name and its value, which stands as JSON.
pub fn put_json(name: &str, json: &str, out: &mut String) -> Result<(), AllocError> {
    write!(out, "\"{name}\":{json}")
}

/// Appends a name and a text, or null.
pub fn put_null_or_text(
    alloc: Global,
    name: &str,
    text: Option<&str>,
    out: &mut String,
) -> Result<(), AllocError> {
    match text {
        Some(text) => {
            let text = json_text(alloc, text)?;
            put_json(name, text.as_str(), out)
        }
        None => put_json(name, "null", out),
    }
}

/// Appends a name and bytes in hex, or null.
pub fn put_null_or_hex(
    alloc: Global,
    name: &str,
    bytes: Option<&[u8]>,
    out: &mut String,
) -> Result<(), AllocError> {
    match bytes {
        Some(bytes) => {
            let digits = hex::encode(alloc, bytes)?;
            write!(out, "\"{name}\":\"{digits}\"")
        }
        None => put_json(name, "null", out),
    }
}

/// Appends a name and an item of CBOR in diagnostic notation, or null.
pub(crate) fn put_null_or_item(
    alloc: Global,
    name: &str,
    span: Option<&[u8]>,
    out: &mut String,
) -> Result<(), Fault> {
    let Some(span) = span else {
        return Ok(put_json(name, "null", out)?);
    };
    let text = notation_of(alloc, span)?;
    Ok(put_null_or_text(alloc, name, Some(text.as_str()), out)?)
}

/// A value of JSON, or null.
pub(crate) fn value_text(alloc: Global, value: Option<&Value>) -> Result<String, AllocError> {
    match value {
        Some(value) => value.to_string(alloc),
        None => String::from_str(alloc, "null"),
    }
}
