//! Challenges, canonical CBOR and the versions.

ghost use Rattle.std.specs.Prelude.{◌≡◌, ◌↔◌, IsTrue};
ghost use Rattle.passkey_c.specs.Answers.{IsCanonical, IsChallenge, IsChallengeText, abi_version, version};

use crate::input::exactly_32;
use ccbor::View;
use clientdata::challenge_characters;

/// The version of these calls.
pub fn passkey_abi_version() -> u32
    ensures { result ≡ abi_version }
{
    5
}

/// The version of the library: major * 10,000 + minor * 100 + patch.
pub fn passkey_version() -> u32
    ensures { result ≡ version }
{
    100
}

/// Whether the bytes are one value of canonical CBOR, and no more.
pub fn passkey_is_canonical(bytes: &[u8]) -> bool
    ensures { IsTrue result ↔ IsCanonical bytes.now }
{
    match View::check_all(bytes) {
        Ok(_) => true,
        Err(_) => false,
    }
}

/// Makes a challenge: the session's number in 8 big-endian bytes, then 24 random bytes.
pub fn passkey_challenge(session: u64, words: &[u8], challenge: &mut [u8]) -> bool
    ensures { IsChallenge session words.now challenge.old challenge.new result }
{
    if words.len() != 24 || challenge.len() != 32 {
        return false;
    }
    let (front, back) = challenge.split_at_mut(8);
    front.copy_from_slice(&session.to_be_bytes());
    back.copy_from_slice(words);
    true
}

/// Writes a challenge of 32 bytes as client data have it: 43 characters.
pub fn passkey_challenge_text(challenge: &[u8], text: &mut [u8]) -> bool
    ensures { IsChallengeText challenge.now text.old text.new result }
{
    let Some(challenge) = exactly_32(challenge) else {
        return false;
    };
    if text.len() != 43 {
        return false;
    }
    text.copy_from_slice(&challenge_characters(&challenge));
    true
}
