//! The subject's public key (RFC 5280, 4.1.2.7).

ghost use Rattle.std.specs.Prelude.{◌≡◌, ◌<◌, List, ℕ, None, option_map, Err, IfErr, IfOk, IfSome, IsErr};
ghost use Rattle.certificates.specs.Keys.{key_view, IsInfo, IsKey, KeyForm};
ghost use Rattle.certificates.specs.KeyReading.{info_at, key_in, known_key, point_in, rsa_at};
ghost use Rattle.certificates.specs.Steps.{lifted, Gives};
ghost use Rattle.der.specs.Reading.{unsigned_in};

use crate::error::Error;
use crate::field::{field, whole_field};
use crate::tags::{BIT_STRING, INTEGER, SEQUENCE};
use der::read_unsigned;

/// The content of an algorithm identifier: id-ecPublicKey and secp256r1 (RFC 5480, 2.1.1).
const P256_ALGORITHM: [u8; 19] = [
    0x06, 0x07, 0x2a, 0x86, 0x48, 0xce, 0x3d, 0x02, 0x01, 0x06, 0x08, 0x2a, 0x86, 0x48, 0xce, 0x3d,
    0x03, 0x01, 0x07,
];

/// id-ecPublicKey and secp384r1.
const P384_ALGORITHM: [u8; 16] = [
    0x06, 0x07, 0x2a, 0x86, 0x48, 0xce, 0x3d, 0x02, 0x01, 0x06, 0x05, 0x2b, 0x81, 0x04, 0x00, 0x22,
];

/// id-Ed25519 (RFC 8410, 3).
const ED25519_ALGORITHM: [u8; 5] = [0x06, 0x03, 0x2b, 0x65, 0x70];

/// rsaEncryption and NULL (RFC 3279, 2.3.1).
const RSA_ALGORITHM: [u8; 13] = [
    0x06, 0x09, 0x2a, 0x86, 0x48, 0x86, 0xf7, 0x0d, 0x01, 0x01, 0x01, 0x05, 0x00,
];

/// A public key, where it lies. No test is made that a point lies on its curve, or that a modulus is a product of two
/// primes.
#[derive(Clone, Copy, Debug, Drop)]
pub enum PublicKey<'a> {
    /// A point of P-256: both coordinates of 32 octets, big-endian.
    P256 {
        x: &'a [u8],
        y: &'a [u8],
    },
    /// A point of P-384: both coordinates of 48 octets, big-endian.
    P384 {
        x: &'a [u8],
        y: &'a [u8],
    },
    /// A key of Ed25519, of 32 octets.
    Ed25519 {
        key: &'a [u8],
    },
    /// A key of RSA: its numbers big-endian, in the fewest octets; none for 0.
    Rsa {
        modulus: &'a [u8],
        exponent: &'a [u8],
    },
    /// Another key, or one of these in another form.
    Other,
}

/// The algorithm and the content of the bit string.
#[tactic(auto, unfolding(crate::specs::KeyReading::info_at))]
fn info_at(info: &[u8]) -> Result<(&[u8], &[u8]), Error>
    ensures { Gives (λ x. (x.0.now, x.1.now)) result (info_at info.now) }
{
    let (algorithm, rest) = field(SEQUENCE, info)?;
    let bits = whole_field(BIT_STRING, rest)?;
    Ok((algorithm, bits))
}

/// The coordinates of an uncompressed point, each of this many octets.
#[tactic(auto, unfolding(crate::specs::KeyReading::point_in))]
fn point_in(size: usize, octets: &[u8]) -> Option<(&[u8], &[u8])>
    requires { size < 64 }
    ensures { option_map (λ x. (x.0.now, x.1.now)) result ≡ point_in size octets.now }
{
    let (form, rest) = octets.split_first()?;
    if *form != 4 {
        return None;
    }
    if rest.len() != 2 * size {
        return None;
    }
    Some(rest.split_at(size))
}

/// The digits of an integer that is not negative.
pub fn unsigned_in(content: &[u8]) -> Result<&[u8], Error>
    ensures { Gives (λ x. x.now) result (lifted (unsigned_in content.now)) }
{
    match read_unsigned(content) {
        Ok(digits) => Ok(digits),
        Err(error) => Err(Error::Encoding(error)),
    }
}

/// The modulus and the exponent of a key of RSA.
#[tactic(auto, unfolding(crate::specs::KeyReading::rsa_at))]
fn rsa_at(octets: &[u8]) -> Result<(&[u8], &[u8]), Error>
    ensures { Gives (λ x. (x.0.now, x.1.now)) result (rsa_at octets.now) }
{
    let content = whole_field(SEQUENCE, octets)?;
    let (modulus, rest) = field(INTEGER, content)?;
    let exponent = whole_field(INTEGER, rest)?;
    let modulus = unsigned_in(modulus)?;
    let exponent = unsigned_in(exponent)?;
    Ok((modulus, exponent))
}

/// The key of an algorithm that is known here.
#[tactic(auto, unfolding(crate::specs::KeyReading::known_key))]
fn known_key<'a>(algorithm: &[u8], octets: &'a [u8]) -> PublicKey<'a>
    ensures { key_view result ≡ known_key algorithm.now octets.now }
{
    if algorithm == P256_ALGORITHM.as_slice() {
        return match point_in(32, octets) {
            Some((x, y)) => PublicKey::P256 { x, y },
            None => PublicKey::Other,
        };
    }
    if algorithm == P384_ALGORITHM.as_slice() {
        return match point_in(48, octets) {
            Some((x, y)) => PublicKey::P384 { x, y },
            None => PublicKey::Other,
        };
    }
    if algorithm == ED25519_ALGORITHM.as_slice() {
        if octets.len() != 32 {
            return PublicKey::Other;
        }
        return PublicKey::Ed25519 { key: octets };
    }
    if algorithm == RSA_ALGORITHM.as_slice() {
        return match rsa_at(octets) {
            Ok((modulus, exponent)) => PublicKey::Rsa { modulus, exponent },
            Err(_) => PublicKey::Other,
        };
    }
    PublicKey::Other
}

/// The key of an algorithm and the content of a bit string.
#[tactic(auto, unfolding(crate::specs::KeyReading::key_in))]
fn key_in<'a>(algorithm: &[u8], bits: &'a [u8]) -> PublicKey<'a>
    ensures { key_view result ≡ key_in algorithm.now bits.now }
{
    let Some((unused, octets)) = bits.split_first() else {
        return PublicKey::Other;
    };
    if *unused != 0 {
        return PublicKey::Other;
    }
    known_key(algorithm, octets)
}

/// The key of this content, which is that of a certificate's `key`; `Other` where it is none of those that are known here.
///
/// Refused as `Encoding` where the content is not that of a SubjectPublicKeyInfo.
pub fn read_key(info: &[u8]) -> Result<PublicKey<'_>, Error>
    ensures found { IfOk result (λ k. IfSome (key_view k) (λ f. IsKey f info.now)) }
    ensures other { IfOk result (λ k. key_view k ≡ None → (f : KeyForm) → IsKey f info.now → ⊥) }
    ensures info { IfOk result (λ _. (algorithm : List ℕ) × (bits : List ℕ) × IsInfo algorithm bits info.now) }
    ensures none { IsErr result → (algorithm bits : List ℕ) → IsInfo algorithm bits info.now → ⊥ }
    ensures refused { IfErr result (λ e. info_at info.now ≡ Err e) }
{
    let (algorithm, bits) = info_at(info)?;
    Ok(key_in(algorithm, bits))
}
