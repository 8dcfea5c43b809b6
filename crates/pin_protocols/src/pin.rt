//! PINs (CTAP 2.1, section 6.5.1).

ghost use Rattle.std.specs.Prelude.{◌≡◌, IfOk, replicate};
ghost use Rattle.pin_protocols.specs.Pins.{code_points, ends_in_zero, padded, pin_fault, pin_hash};

use crate::session::joined;
use sha2::{Digest, Sha256};
use std::alloc::{AllocError, Global};

/// Why a PIN can't be set.
#[derive(Clone, Copy, Debug, PartialEq, Eq, Drop)]
pub enum PinFault {
    /// It has fewer code points than the key wants.
    TooShort,
    /// It has more than 63 bytes.
    TooLong,
    /// Its last byte is 0, by which PINs are padded.
    EndsInZero,
}

/// How many code points a text has: bytes of its UTF-8 that do not go on with one (RFC 3629, section 3). Whether it is
/// UTF-8 is not looked at.
pub fn code_points(pin: &[u8]) -> usize
    ensures { result ≡ code_points pin.now }
{
    let mut count = 0;
    for byte in pin {
        if *byte < 0x80 || *byte >= 0xc0 {
            count += 1;
        }
    }
    count
}

fn ends_in_zero(pin: &str) -> bool
    ensures { result ≡ ends_in_zero pin.now }
{
    match pin.as_bytes().last() {
        Some(byte) => *byte == 0,
        None => false,
    }
}

/// Why this can't be a new PIN, the first that applies: of fewer code points than `min`, which is the key's
/// minPINLength, and 4 where it told none; of more than 63 bytes of UTF-8; of a last byte 0. It is to be in Unicode's
/// form NFC, which is not looked at (CTAP 2.1, section 6.5.1).
pub fn pin_fault(min: u64, pin: &str) -> Option<PinFault>
    ensures { result ≡ pin_fault min pin.now }
{
    if (code_points(pin.as_bytes()) as u64) < min {
        return Some(PinFault::TooShort);
    }
    if pin.len() > 63 {
        return Some(PinFault::TooLong);
    }
    if ends_in_zero(pin) {
        return Some(PinFault::EndsInZero);
    }
    None
}

/// The first 16 bytes of the SHA-256 of a PIN (6.5.5.6, 6.5.5.7).
pub(crate) fn pin_hash(alloc: Global, pin: &str) -> Result<Vec<u8>, AllocError>
    ensures { IfOk result (λ v. v.items ≡ pin_hash pin.now) }
{
    let mut hash = Vec::from_slice(alloc, &Sha256::digest(pin.as_bytes()))?;
    hash.truncate(16);
    Ok(hash)
}

fn zeros() -> [u8; 64]
    ensures { result ≡ replicate 64 0 }
{
    [0; 64]
}

/// A new PIN, padded with zeros to 64 bytes (6.5.5.5).
pub(crate) fn padded(alloc: Global, pin: &str) -> Result<Vec<u8>, AllocError>
    ensures { IfOk result (λ v. v.items ≡ padded pin.now) }
{
    let zeros = zeros();
    let mut bytes = joined(alloc, pin.as_bytes(), &zeros)?;
    bytes.truncate(64);
    Ok(bytes)
}
