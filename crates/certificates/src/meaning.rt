//! What extensions of attestation certificates say.

ghost use Rattle.std.specs.Prelude.{◌≡◌, Bool, List, ℕ, Option, option_map, IfOk, IsErr};
ghost use Rattle.certificates.specs.Meanings.{IsAaguid, IsConstraints, IsNonce};
ghost use Rattle.certificates.specs.MeaningReading.{aaguid_in, constraints_in, nonce_in, path_in, sized};
ghost use Rattle.certificates.specs.Steps.{Gives};

use crate::error::Error;
use crate::extension::critical_at;
use crate::field::whole_field;
use crate::key::unsigned_in;
use crate::tags::{EXPLICIT_1, INTEGER, OCTET_STRING, SEQUENCE};

/// The identifier of the extension that has an authenticator's model: id-fido-gen-ce-aaguid, 1.3.6.1.4.1.45724.1.1.4
/// (WebAuthn 8.2.1).
pub const AAGUID: [u8; 11] = [
    0x2b, 0x06, 0x01, 0x04, 0x01, 0x82, 0xe5, 0x1c, 0x01, 0x01, 0x04,
];

/// The identifier of the nonce of Apple's anonymous attestation: 1.2.840.113635.100.8.2 (WebAuthn 8.8).
pub const APPLE_NONCE: [u8; 9] = [0x2a, 0x86, 0x48, 0x86, 0xf7, 0x63, 0x64, 0x08, 0x02];

/// The identifier of Android's key description: 1.3.6.1.4.1.11129.2.1.17 (WebAuthn 8.4.1). What it says is not read here.
pub const ANDROID_KEY_DESCRIPTION: [u8; 10] = [
    0x2b, 0x06, 0x01, 0x04, 0x01, 0xd6, 0x79, 0x02, 0x01, 0x11,
];

/// The identifier of the basic constraints: 2.5.29.19 (RFC 5280, 4.2.1.9).
pub const BASIC_CONSTRAINTS: [u8; 3] = [0x55, 0x1d, 0x13];

/// The identifier of the subject alternative name: 2.5.29.17 (RFC 5280, 4.2.1.6). What it says is not read here.
pub const SUBJECT_ALTERNATIVE_NAME: [u8; 3] = [0x55, 0x1d, 0x11];

/// The basic constraints of a certificate, where they lie.
#[derive(Clone, Copy, Debug, Drop)]
pub struct BasicConstraints<'a> {
    /// Whether the subject is a certificate authority.
    pub authority: bool,
    /// How many certificates of authorities may follow: the digits to the base 256, highest first, none for 0.
    pub path_length: Option<&'a [u8]>,
}

/// The octets, if there are this many.
fn sized(size: usize, octets: &[u8]) -> Result<&[u8], Error>
    ensures { Gives (λ c. c.now) result (sized size octets.now) }
{
    if octets.len() == size {
        Ok(octets)
    } else {
        Err(Error::Size)
    }
}

#[tactic(auto, unfolding(crate::specs::MeaningReading::aaguid_in))]
fn aaguid_in(value: &[u8]) -> Result<&[u8], Error>
    ensures { Gives (λ c. c.now) result (aaguid_in value.now) }
{
    let octets = whole_field(OCTET_STRING, value)?;
    sized(16, octets)
}

/// The AAGUID, of 16 octets, that the extension of the identifier `AAGUID` says (WebAuthn 8.2.1).
///
/// Refused as `Encoding` or `Size`.
pub fn read_aaguid(value: &[u8]) -> Result<&[u8], Error>
    ensures found { IfOk result (λ aaguid. IsAaguid aaguid.now value.now) }
    ensures none { IsErr result → (aaguid : List ℕ) → IsAaguid aaguid value.now → ⊥ }
    ensures exact { Gives (λ c. c.now) result (aaguid_in value.now) }
{
    aaguid_in(value)
}

#[tactic(auto, unfolding(crate::specs::MeaningReading::nonce_in))]
fn nonce_in(value: &[u8]) -> Result<&[u8], Error>
    ensures { Gives (λ c. c.now) result (nonce_in value.now) }
{
    let outer = whole_field(SEQUENCE, value)?;
    let inner = whole_field(EXPLICIT_1, outer)?;
    let octets = whole_field(OCTET_STRING, inner)?;
    sized(32, octets)
}

/// The nonce, of 32 octets, that the extension of the identifier `APPLE_NONCE` says (WebAuthn 8.8).
///
/// Refused as `Encoding` or `Size`.
pub fn read_apple_nonce(value: &[u8]) -> Result<&[u8], Error>
    ensures found { IfOk result (λ nonce. IsNonce nonce.now value.now) }
    ensures none { IsErr result → (nonce : List ℕ) → IsNonce nonce value.now → ⊥ }
    ensures exact { Gives (λ c. c.now) result (nonce_in value.now) }
{
    nonce_in(value)
}

/// The digits of the number that the input is, if it is not empty.
#[tactic(auto, unfolding(crate::specs::MeaningReading::path_in))]
fn path_in(bytes: &[u8]) -> Result<Option<&[u8]>, Error>
    ensures { Gives (λ o. option_map (λ c. c.now) o) result (path_in bytes.now) }
{
    if bytes.is_empty() {
        return Ok(None);
    }
    let number = whole_field(INTEGER, bytes)?;
    let digits = unsigned_in(number)?;
    Ok(Some(digits))
}

#[tactic(auto, unfolding(crate::specs::MeaningReading::constraints_in))]
fn constraints_in(value: &[u8]) -> Result<BasicConstraints<'_>, Error>
    ensures { Gives (λ c. (c.authority, option_map (λ d. d.now) c.path_length)) result (constraints_in value.now) }
{
    let content = whole_field(SEQUENCE, value)?;
    let (authority, rest) = critical_at(content)?;
    let path_length = path_in(rest)?;
    Ok(BasicConstraints {
        authority,
        path_length,
    })
}

/// What the extension of the identifier `BASIC_CONSTRAINTS` says (RFC 5280, 4.2.1.9).
///
/// Refused as `Encoding` or `Default`.
pub fn read_basic_constraints(value: &[u8]) -> Result<BasicConstraints<'_>, Error>
    ensures found { IfOk result (λ c. IsConstraints c.authority (option_map (λ d. d.now) c.path_length) value.now) }
    ensures none { IsErr result → (authority : Bool) (path : Option (List ℕ)) → IsConstraints authority path value.now → ⊥ }
    ensures exact { Gives (λ c. (c.authority, option_map (λ d. d.now) c.path_length)) result (constraints_in value.now) }
{
    constraints_in(value)
}
