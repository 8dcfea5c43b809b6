//! The verifier of a relying party whose host has the mathematics.

ghost use Rattle.std.specs.Prelude.{◌≡◌, ◌↔◌, IsTrue};
ghost use Rattle.attestation.specs.Asked.{asked_view, verified_view, IsVerified};

use crate::algorithm::Algorithm;
use crate::key::SigningKey;
use crate::signature::{AskedSignature, SignatureVerifier};

/// A signature that the host has verified.
#[derive(Clone, Copy, Debug, Drop)]
pub struct VerifiedSignature<'a> {
    /// The public key.
    pub key: SigningKey<'a>,
    /// The algorithm.
    pub algorithm: Algorithm,
    /// The message.
    pub message: &'a [u8],
    /// The signature.
    pub signature: &'a [u8],
}

impl VerifiedSignature<'_> {
    /// Whether it is the one that is asked for.
    fn answers(&self, asked: &AskedSignature<'_>) -> bool
        ensures { IsTrue result ↔ (verified_view self.now ≡ asked_view asked.now) }
    {
        self.key.is_same(&asked.key)
            && self.algorithm == asked.algorithm
            && asked.message.is(self.message)
            && self.signature == asked.signature
    }
}

/// What the host's own library found: here nothing is valid but the signatures that are passed, each of just its message
/// under just its key.
#[derive(Clone, Copy, Debug, Drop)]
pub struct HostVerifier<'a> {
    /// The signatures that the host verified, of those that it was asked for.
    pub verified: &'a [VerifiedSignature<'a>],
}

/// Whether the signature is one of these.
fn is_verified(verified: &[VerifiedSignature<'_>], asked: &AskedSignature<'_>) -> bool
    ensures { IsTrue result ↔ IsVerified verified.now (asked_view asked.now) }
{
    for own in verified {
        if own.answers(asked) {
            return true;
        }
    }
    false
}

impl SignatureVerifier for HostVerifier<'_> {
    ghost use Rattle.attestation.specs.Asked.{IsVerified};

    ghost valid = { λ v. IsVerified v.verified.now };

    fn verify(&self, asked: &AskedSignature<'_>) -> bool {
        is_verified(self.verified, asked)
    }
}
