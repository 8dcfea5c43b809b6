//! Transports as one text, which is how the store has them.

ghost use Rattle.std.specs.Prelude.{◌≡◌, ◌++◌, ◌⊎◌, [], IfOk, OnOk, map, string_bytes};
ghost use Rattle.site_acts.specs.Joined.{joined as joined_of, with_comma};

use crate::transports::{MOST_TRANSPORTS, is_transport};
use std::alloc::{AllocError, Global};

/// One more text, after a comma where there is one before it.
fn join(text: &mut Vec<u8>, more: &[u8]) -> Result<(), AllocError>
    ensures { OnOk result (text.new.items ≡ with_comma text.old.items ++ more.now) }
{
    if !text.as_slice().is_empty() {
        text.push(b',')?;
    }
    text.extend_from_slice(more)
}

/// Transports as one text, with a comma between each and the next.
pub fn joined(alloc: Global, transports: &[String]) -> Result<Vec<u8>, AllocError>
    ensures { IfOk result (λ text. text.items ≡ joined_of (map string_bytes transports.now)) }
{
    let mut text = Vec::new(alloc);
    for transport in transports {
        join(&mut text, transport.as_bytes())?;
    }
    Ok(text)
}

/// Adds a part as a transport, and empties it: false where it is none.
fn take_part(
    alloc: Global,
    list: &mut Vec<String>,
    part: &mut Vec<u8>,
) -> Result<bool, AllocError> {
    if !is_transport(part.as_slice()) {
        return Ok(false);
    }
    let Ok(text) = str::from_utf8(part.as_slice()) else {
        return Ok(false);
    };
    list.push(String::from_str(alloc, text)?)?;
    part.clear();
    Ok(true)
}

/// The transports between the commas of a text; nothing where one is none.
fn parts(alloc: Global, text: &[u8]) -> Result<Option<Vec<String>>, AllocError> {
    let mut list = Vec::new(alloc);
    let mut part = Vec::new(alloc);
    for byte in text {
        if *byte != b',' {
            part.push(*byte)?;
        } else if !take_part(alloc, &mut list, &mut part)? {
            return Ok(None);
        }
    }
    if !take_part(alloc, &mut list, &mut part)? {
        return Ok(None);
    }
    Ok(Some(list))
}

/// The transports that a text joins; none where it joins none.
pub fn separate(alloc: Global, text: &[u8]) -> Result<Vec<String>, AllocError>
    ensures { IfOk result (λ list. (list.items ≡ []) ⊎ (joined_of (map string_bytes list.items) ≡ text.now)) }
{
    let Some(list) = parts(alloc, text)? else {
        return Ok(Vec::new(alloc));
    };
    let again = joined(alloc, list.as_slice())?;
    if again.as_slice() != text || list.as_slice().len() > MOST_TRANSPORTS {
        return Ok(Vec::new(alloc));
    }
    Ok(list)
}
