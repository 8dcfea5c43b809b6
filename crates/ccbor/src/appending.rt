//! Appending parts of an encoding where they are known, without a value in between. What was appended is a value's
//! encoding where it is that value's spelling and the value fits (CTAP 2.1, "Message Encoding").

ghost use Rattle.std.specs.Prelude.{◌≡◌, ◌++◌, OnOk, OnErr};
ghost use Rattle.ccbor.specs.Item as of;
ghost use Rattle.ccbor.specs.Canon.{head, spelling};

use crate::head::{BYTES, MAP, TEXT, UNSIGNED, put_head};
use crate::writing::put_string;
use std::alloc::AllocError;

/// Appends the head of a map of this many pairs (RFC 8949, section 3.1): 1 to 9 bytes. The pairs are to follow, in
/// the order of canonical keys.
///
/// After an error the output's bytes are as they were.
pub fn append_map_head(pairs: u64, out: &mut Vec<u8>) -> Result<(), AllocError>
    ensures ok { OnOk result (out.new.items ≡ out.old.items ++ head 5 pairs) }
    ensures err { OnErr result (out.new.items ≡ out.old.items) }
{
    let len = out.len();
    if let Err(error) = put_head(MAP, pairs, out) {
        out.truncate(len);
        return Err(error);
    }
    Ok(())
}

/// Appends the encoding of an unsigned number: 1 to 9 bytes.
///
/// After an error the output's bytes are as they were.
pub fn append_unsigned(number: u64, out: &mut Vec<u8>) -> Result<(), AllocError>
    ensures ok { OnOk result (out.new.items ≡ out.old.items ++ spelling (of.uint number)) }
    ensures err { OnErr result (out.new.items ≡ out.old.items) }
{
    let len = out.len();
    if let Err(error) = put_head(UNSIGNED, number, out) {
        out.truncate(len);
        return Err(error);
    }
    Ok(())
}

/// Appends the encoding of a byte string: a head of 1 to 9 bytes, and the bytes.
///
/// After an error the output's bytes are as they were.
pub fn append_bytes(content: &[u8], out: &mut Vec<u8>) -> Result<(), AllocError>
    ensures ok { OnOk result (out.new.items ≡ out.old.items ++ spelling (of.bytes content.now)) }
    ensures err { OnErr result (out.new.items ≡ out.old.items) }
{
    let len = out.len();
    if let Err(error) = put_string(BYTES, content, out) {
        out.truncate(len);
        return Err(error);
    }
    Ok(())
}

/// Appends the encoding of a text: a head of 1 to 9 bytes, and the text's UTF-8.
///
/// After an error the output's bytes are as they were.
pub fn append_text(content: &str, out: &mut Vec<u8>) -> Result<(), AllocError>
    ensures ok { OnOk result (out.new.items ≡ out.old.items ++ spelling (of.text content.now)) }
    ensures err { OnErr result (out.new.items ≡ out.old.items) }
{
    let len = out.len();
    if let Err(error) = put_string(TEXT, content.as_bytes(), out) {
        out.truncate(len);
        return Err(error);
    }
    Ok(())
}
