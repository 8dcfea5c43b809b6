//! The extended key usage (RFC 5280, 4.2.1.12).

ghost use Rattle.std.specs.Prelude.{◌≡◌, ◌||◌, List, ℕ, IfOk, IsErr};
ghost use Rattle.std.specs.Str.{bytes_eq};
ghost use Rattle.certificates.specs.Usage.{is_among, ArePurposes, IsUsage};

use crate::error::Error;
use crate::extension::identifier_field;
use crate::field::whole_field;
use crate::tags::SEQUENCE;

/// The identifier of the extended key usage: 2.5.29.37 (RFC 5280, 4.2.1.12).
pub const EXTENDED_KEY_USAGE: [u8; 3] = [0x55, 0x1d, 0x25];

/// The purpose of a key that attests TPM statements, tcg-kp-AIKCertificate: 2.23.133.8.3 (WebAuthn 8.3.1).
pub const AIK_CERTIFICATE: [u8; 5] = [0x67, 0x81, 0x05, 0x08, 0x03];

/// Whether it was found, or is this.
fn either(found: bool, identifier: &[u8], purpose: &[u8]) -> bool
    ensures { result ≡ (found || bytes_eq identifier.now purpose.now) }
{
    found || identifier == purpose
}

/// Whether a purpose is among those of this content.
fn among(content: &[u8], purpose: &[u8]) -> Result<bool, Error>
    ensures found { IfOk result (λ b. (ps : List (List ℕ)) × ArePurposes ps content.now × (b ≡ is_among purpose.now ps)) }
    ensures none { IsErr result → (ps : List (List ℕ)) → ArePurposes ps content.now → ⊥ }
{
    let mut found = false;
    let mut rest = content;
    while 0 < rest.len() {
        let (identifier, after) = identifier_field(rest)?;
        found = either(found, identifier, purpose);
        rest = after;
    }
    Ok(found)
}

/// Whether the extension of the identifier `EXTENDED_KEY_USAGE` says that the key has this purpose, by the octets of its
/// object identifier (RFC 5280, 4.2.1.12).
///
/// Refused as `Encoding`.
pub fn has_purpose(value: &[u8], purpose: &[u8]) -> Result<bool, Error>
    ensures found { IfOk result (λ b. (ps : List (List ℕ)) × IsUsage ps value.now × (b ≡ is_among purpose.now ps)) }
    ensures none { IsErr result → (ps : List (List ℕ)) → IsUsage ps value.now → ⊥ }
{
    let content = whole_field(SEQUENCE, value)?;
    among(content, purpose)
}
