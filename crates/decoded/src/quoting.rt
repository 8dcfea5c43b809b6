//! JSON values as texts.

use serde_json::Value;
use std::alloc::{AllocError, Global};
use std::fmt::Write;

/// A text as a string of JSON (RFC 8259, section 7).
pub fn json_text(alloc: Global, text: &str) -> Result<String, AllocError> {
    Value::String(String::from_str(alloc, text)?).to_string(alloc)
}

/// Writes the units of UTF-16 of a character as escapes.
fn put_escape(letter: char, out: &mut String) -> Result<(), AllocError> {
    let code = u32::from(letter);
    if code < 0x10000 {
        return write!(out, "\\u{code:04x}");
    }
    let offset = (code - 0x10000) & 0xfffff;
    let (high, low) = (0xd800 + (offset >> 10), 0xdc00 + (offset & 0x3ff));
    write!(out, "\\u{high:04x}\\u{low:04x}")
}

/// A value in JSON, with an escape for each character that is not ASCII, so that those that look alike differ.
pub fn ascii_json(alloc: Global, value: &Value) -> Result<String, AllocError> {
    let text = value.to_string(alloc)?;
    let mut out = String::new(alloc);
    for letter in text.chars() {
        if matches!(letter, ' '..='~') {
            out.push(letter)?;
        } else {
            put_escape(letter, &mut out)?;
        }
    }
    Ok(out)
}
