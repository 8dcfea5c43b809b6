//! Diagnostic notation (RFC 8949, section 8).

use crate::fault::Fault;
use crate::floats::write_float;
use crate::heads::{Head, LEVELS, content, head_at};
use crate::quoting::json_text;
use std::alloc::{AllocError, Global};
use std::fmt::Write;

/// Writes a byte string or a text.
fn put_string(
    alloc: Global,
    major: u8,
    content: &[u8],
    out: &mut String,
) -> Result<(), AllocError> {
    if major == 2 {
        let digits = hex::encode(alloc, content)?;
        return write!(out, "h'{digits}'");
    }
    match str::from_utf8(content) {
        Ok(text) => {
            let text = json_text(alloc, text)?;
            out.push_str(text.as_str())
        }
        Err(_) => out.push_str("a text that is not UTF-8"),
    }
}

/// Writes a simple value or a float.
fn put_simple(head: &Head, out: &mut String) -> Result<(), AllocError> {
    if head.size >= 2 {
        return write_float(head.number, head.size, out);
    }
    let number = head.number;
    match number {
        20 => out.push_str("false"),
        21 => out.push_str("true"),
        22 => out.push_str("null"),
        _ => write!(out, "simple({number})"),
    }
}

/// Writes the item at an offset, and answers where it ends.
fn put_item(
    alloc: Global,
    bytes: &[u8],
    at: usize,
    levels: u8,
    out: &mut String,
) -> Result<usize, Fault> {
    if levels == 0 {
        return Err(Fault::At(at));
    }
    let Some(head) = head_at(bytes, at) else {
        return Err(Fault::At(at));
    };
    let number = head.number;
    let mut end = head.end;
    match head.major {
        0 => write!(out, "{number}")?,
        1 => {
            let below = -1 - i128::from(number);
            write!(out, "{below}")?;
        }
        2 | 3 => {
            let Some(content) = content(bytes, &head) else {
                return Err(Fault::At(at));
            };
            put_string(alloc, head.major, content, out)?;
            end = end.saturating_add(content.len());
        }
        4 => {
            out.push('[')?;
            for i in 0..number {
                if i != 0 {
                    out.push_str(", ")?;
                }
                end = put_item(alloc, bytes, end, levels - 1, out)?;
            }
            out.push(']')?;
        }
        5 => {
            out.push('{')?;
            for i in 0..number {
                if i != 0 {
                    out.push_str(", ")?;
                }
                end = put_item(alloc, bytes, end, levels - 1, out)?;
                out.push_str(": ")?;
                end = put_item(alloc, bytes, end, levels - 1, out)?;
            }
            out.push('}')?;
        }
        6 => {
            write!(out, "{number}(")?;
            end = put_item(alloc, bytes, end, levels - 1, out)?;
            out.push(')')?;
        }
        _ => put_simple(&head, out)?,
    }
    Ok(end)
}

/// The item with which bytes begin.
pub fn notation_of(alloc: Global, span: &[u8]) -> Result<String, Fault> {
    let mut out = String::new(alloc);
    put_item(alloc, span, 0, LEVELS, &mut out)?;
    Ok(out)
}
