//! The keys under which statements are signed.

ghost use Rattle.std.specs.Prelude.{◌≡◌, ◌↔◌, None, Some, IsTrue, MatchOption};
ghost use Rattle.certificates.specs.Keys.{key_view, IsKey, KeyForm};
ghost use Rattle.cose.specs.Keys.{lent_key_view};
ghost use Rattle.attestation.specs.Algorithms.{WorksWith};
ghost use Rattle.attestation.specs.Signed.{credential_key, signing_view, HasKeyOf};

use crate::algorithm::Algorithm;
use certificates::{PublicKey, read_key};
use cose::{KeyView, is_exponent, is_modulus};

/// A public key under which a statement is signed, where it lies.
#[derive(Clone, Copy, Debug, Drop)]
pub enum SigningKey<'a> {
    /// A point of P-256, both coordinates of 32 bytes, big-endian.
    P256 {
        x: &'a [u8],
        y: &'a [u8],
    },
    /// A point of P-384, both coordinates of 48 bytes.
    P384 {
        x: &'a [u8],
        y: &'a [u8],
    },
    /// A key of Ed25519, of 32 bytes.
    Ed25519 {
        key: &'a [u8],
    },
    /// A key of RSA: its numbers big-endian, in the fewest bytes.
    Rsa {
        modulus: &'a [u8],
        exponent: &'a [u8],
    },
}

impl<'a> SigningKey<'a> {
    /// The key of a certificate, if it is one of these.
    fn of_certificate(key: PublicKey<'a>) -> Option<SigningKey<'a>>
        ensures { MatchOption result (key_view key.entry ≡ None) (λ k. key_view key.entry ≡ Some (signing_view k)) }
    {
        match key {
            PublicKey::P256 { x, y } => Some(SigningKey::P256 { x, y }),
            PublicKey::P384 { x, y } => Some(SigningKey::P384 { x, y }),
            PublicKey::Ed25519 { key } => Some(SigningKey::Ed25519 { key }),
            PublicKey::Rsa { modulus, exponent } => Some(SigningKey::Rsa { modulus, exponent }),
            PublicKey::Other => None,
        }
    }

    /// The key of a credential.
    pub fn of_credential(key: &'a KeyView<'a>) -> SigningKey<'a>
        ensures { signing_view result ≡ credential_key (lent_key_view key.now) }
    {
        match key {
            KeyView::Es256 { x, y } => SigningKey::P256 { x, y },
            KeyView::EdDsa { x } => SigningKey::Ed25519 { key: x },
            KeyView::Rs256(rsa) => SigningKey::Rsa {
                modulus: rsa.n,
                exponent: rsa.e,
            },
        }
    }

    /// Whether the key works with the algorithm: it is of its kind, and one of RSA has 2,048, 3,072 or 4,096 bits.
    pub fn works_with(&self, algorithm: Algorithm) -> bool
        ensures { IsTrue result ↔ WorksWith algorithm (signing_view self.now) }
    {
        match (algorithm, self) {
            (Algorithm::Es256, SigningKey::P256 { .. }) => true,
            (Algorithm::Es384, SigningKey::P384 { .. }) => true,
            (Algorithm::EdDsa, SigningKey::Ed25519 { .. }) => true,
            (
                Algorithm::Rs256 | Algorithm::Rs384 | Algorithm::Rs512 | Algorithm::Rs1,
                SigningKey::Rsa { modulus, exponent },
            ) => is_modulus(modulus) && is_exponent(exponent),
            _ => false,
        }
    }

    /// Whether both are the same key.
    pub fn is_same(&self, other: &SigningKey<'_>) -> bool
        ensures { IsTrue result ↔ (signing_view self.now ≡ signing_view other.now) }
    {
        match (self, other) {
            (SigningKey::P256 { x, y }, SigningKey::P256 { x: u, y: v }) => x == u && y == v,
            (SigningKey::P384 { x, y }, SigningKey::P384 { x: u, y: v }) => x == u && y == v,
            (SigningKey::Ed25519 { key }, SigningKey::Ed25519 { key: other }) => key == other,
            (
                SigningKey::Rsa { modulus, exponent },
                SigningKey::Rsa {
                    modulus: n,
                    exponent: e,
                },
            ) => modulus == n && exponent == e,
            _ => false,
        }
    }
}

/// The key of a certificate (`TbsCertificate::key`), if it can be read.
pub fn certified_key(info: &[u8]) -> Option<SigningKey<'_>>
    ensures { MatchOption result ((k : KeyForm) → IsKey k info.now → ⊥) (λ k. IsKey (signing_view k) info.now) }
{
    let Ok(key) = read_key(info) else {
        return None;
    };
    SigningKey::of_certificate(key)
}

/// The key of a certificate, if it works with the algorithm.
pub fn key_with(info: &[u8], algorithm: Algorithm) -> Option<SigningKey<'_>>
    ensures { MatchOption result (HasKeyOf algorithm info.now → ⊥)
        (λ k. IsKey (signing_view k) info.now × WorksWith algorithm (signing_view k)) }
{
    let key = certified_key(info)?;
    if key.works_with(algorithm) {
        Some(key)
    } else {
        None
    }
}

/// Whether the certificate's key is the credential's.
pub fn has_key_of(info: &[u8], key: &KeyView<'_>) -> bool
    ensures { IsTrue result ↔ IsKey (credential_key (lent_key_view key.now)) info.now }
{
    match certified_key(info) {
        Some(own) => own.is_same(&SigningKey::of_credential(key)),
        None => false,
    }
}
