//! New PINs (CTAP 2.1, sections 6.5.1 and 6.5.5.5).

ghost use Rattle.std.specs.Prelude.{◌≡◌};
ghost use Rattle.pin_protocols.specs.Asks.{entries};
ghost use Rattle.pin_protocols.specs.FlowView.{secret_view};
ghost use Rattle.pin_protocols.specs.Pins.{pin_hash};
ghost use Rattle.key_pin.specs.Pieces.{Gives};
ghost use Rattle.key_pin.specs.Pins.{is_allowed, kept_hash, new_hash, sealed_size, unpadded};

use crate::computing::decrypted;
use crate::end::End;
use ctap_encoding::status::{INVALID_PARAMETER, PIN_POLICY_VIOLATION};
use pin_protocols::{Answers, Protocol, Secret, code_points};
use sha2::{Digest, Sha256};
use std::alloc::Global;

/// How many bytes the ciphertext of 64 has.
fn sealed_pin_size(protocol: Protocol) -> usize
    ensures { result ≡ sealed_size protocol 64 }
{
    match protocol {
        Protocol::One => 64,
        Protocol::Two => 80,
    }
}

/// Without the zeros at its end.
fn unpadded(padded: &[u8]) -> &[u8]
    ensures { result.now ≡ unpadded padded.now }
{
    let mut pin = padded;
    while let Some((last, front)) = pin.split_last() {
        if *last != 0 {
            return pin;
        }
        pin = front;
    }
    pin
}

fn is_allowed(pin: &[u8]) -> bool
    ensures { result ≡ is_allowed pin.now }
{
    code_points(pin) >= 4 && pin.len() <= 63
}

/// The first 16 bytes of the SHA-256 of a PIN.
fn pin_hash(pin: &[u8]) -> [u8; 16]
    ensures { result ≡ pin_hash pin.now }
{
    let hash = Sha256::digest(pin);
    let mut first = [0; 16];
    first.copy_from_slice(&hash[..16]);
    first
}

fn kept_hash(pin: &[u8]) -> Result<[u8; 16], End>
    ensures { Gives (λ h. h) result (kept_hash pin.now) }
{
    if !is_allowed(pin) {
        return Err(End::Refused(PIN_POLICY_VIOLATION));
    }
    Ok(pin_hash(pin))
}

/// What is kept of newPinEnc.
#[tactic(auto, unfolding(crate::specs::Pins::new_hash))]
pub(crate) fn new_hash(
    alloc: Global,
    answers: &Answers,
    protocol: Protocol,
    secret: &Secret,
    sealed: &[u8],
) -> Result<[u8; 16], End>
    ensures { Gives (λ h. h) result (new_hash (entries answers.now) protocol (secret_view secret.now) sealed.now) }
{
    if sealed.len() != sealed_pin_size(protocol) {
        return Err(End::Refused(INVALID_PARAMETER));
    }
    let padded = decrypted(alloc, answers, protocol, secret, sealed)?;
    kept_hash(unpadded(padded))
}
