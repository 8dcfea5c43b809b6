//! Limited verification of client data: `passkey check`.

ghost use Rattle.std.specs.Prelude.{◌≡◌, IfErr, IfOk, string_bytes};
ghost use Rattle.passkey.specs.Checked.{IsChecked, IsUnchecked};
ghost use Rattle.passkey.specs.declared.check.CheckFault.TheVariants as faults;

use crate::hex_text::unhex;
use clientdata::{CeremonyType, ClientData, limited_verify};
use std::alloc::{AllocError, Global};

/// Why nothing is checked.
#[derive(Drop)]
pub enum CheckFault {
    /// The challenge is not hex.
    BadHex,
    /// There was no memory.
    Memory,
}

impl From<AllocError> for CheckFault {
    ghost from_gives = { λ _ e. e ≡ faults.Memory };

    fn from(_e: AllocError) -> CheckFault {
        CheckFault::Memory
    }
}

/// Whether the bytes are client data that say these members: the ceremony, the challenge in hex, the
/// origin, and whether the ceremony was in a frame of another origin (WebAuthn Level 2, section 5.8.1.2).
/// `BadHex` where `unhex` reads no challenge.
pub fn check(
    alloc: Global,
    kind: CeremonyType,
    challenge: &str,
    origin: String,
    cross_origin: bool,
    bytes: &[u8],
) -> Result<bool, CheckFault>
    ensures verdict { IfOk result (IsChecked bytes.now kind challenge.now (string_bytes origin) cross_origin) }
    ensures refused { IfErr result (IsUnchecked challenge.now) }
{
    let Some(challenge) = unhex(alloc, challenge)? else {
        return Err(CheckFault::BadHex);
    };
    let expected = ClientData {
        kind,
        challenge,
        origin,
        cross_origin,
    };
    Ok(limited_verify(alloc, bytes, &expected)?)
}
