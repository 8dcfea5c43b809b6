//! Challenges as texts.

ghost use Rattle.std.specs.Prelude.{◌≡◌, ◌↔◌, IfOk, IsTrue, string_bytes};
ghost use Rattle.clientdata.specs.Expected.{ArePlain};
ghost use Rattle.clientdata.specs.Serialised.{challenge_text_of};

use base64::engine::general_purpose::URL_SAFE_NO_PAD;
use std::alloc::{AllocError, Global};

/// The base64url text of the bytes, without padding (RFC 4648, sections 3.2 and 5), as client data
/// have their challenge: `A` to `Z`, `a` to `z`, `0` to `9`, `-` and `_`, 4 for each 3 bytes, and 2
/// or 3 for 1 or 2 at the end.
pub fn challenge_text(alloc: Global, bytes: &[u8]) -> Result<String, AllocError>
    ensures { IfOk result (λ text. string_bytes text ≡ challenge_text_of bytes.now) }
{
    URL_SAFE_NO_PAD.encode(alloc, bytes)
}

/// The same text of a challenge of 32 bytes: 43 characters. It takes no memory.
pub fn challenge_characters(challenge: &[u8; 32]) -> [u8; 43]
    ensures text { result ≡ challenge_text_of challenge.now }
    ensures plain { ArePlain result }
{
    let mut text = [0; 43];
    let _ = URL_SAFE_NO_PAD.encode_slice(challenge, &mut text).unwrap();
    text
}

/// Whether a text is the challenge's, of 32 bytes, as client data have it. It takes no memory.
pub fn is_challenge_text(text: &str, challenge: &[u8; 32]) -> bool
    ensures { IsTrue result ↔ (text.now ≡ challenge_text_of challenge.now) }
{
    text.as_bytes() == challenge_characters(challenge).as_slice()
}
