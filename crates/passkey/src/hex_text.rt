//! Hex text of the program.

ghost use Rattle.std.specs.Prelude.{IfOk, option_map};
ghost use Rattle.passkey.specs.HexText.{IsRead};

use std::alloc::{AllocError, Global};

/// The bytes of a hex text, in either case, after spaces, tabs, carriage returns and line feeds are
/// dropped; none where what is left is not hex.
pub fn unhex(alloc: Global, text: &str) -> Result<Option<Vec<u8>>, AllocError>
    ensures { IfOk result (λ found. IsRead text.now (option_map (λ bytes. bytes.items) found)) }
{
    let digits: Vec<u8> = text
        .bytes()
        .filter(|b| *b != b' ' && *b != b'\t' && *b != b'\r' && *b != b'\n')
        .collect(alloc)?;
    match hex::decode(alloc, digits.as_slice()) {
        Ok(bytes) => Ok(Some(bytes)),
        Err(hex::FromHexError::OutOfMemory) => Err(AllocError),
        Err(_) => Ok(None),
    }
}
