//! The verifier of a relying party whose host has the mathematics.

use crate::signature::SignatureView;
use cose::{KeyView, Verifier, is_joined};

/// What the host's own library found: one signature that it verified, or none. P-256, Ed25519 and RSA are computed there;
/// here nothing is valid but the signature that is passed, of just this message under just this key.
#[derive(Clone, Copy, Debug, Drop)]
pub struct HostVerifier<'a> {
    /// The signature that the host verified. None where it verified none, or found the one that it was asked for invalid.
    pub verified: Option<SignatureView<'a>>,
}

impl Verifier for HostVerifier<'_> {
    ghost use Rattle.std.specs.Prelude.{option_map};
    ghost use Rattle.verification.specs.Signed.{lent_signature_view, only_verified};

    ghost valid = { λ s. only_verified (option_map lent_signature_view s.verified) };

    fn verify(&self, key: &KeyView<'_>, parts: [&[u8]; 2], sig: &[u8]) -> bool {
        let [first, second] = parts;
        match &self.verified {
            Some(own) => {
                own.key.is_same(key)
                    && is_joined(own.message, first, second)
                    && own.signature == sig
            }
            None => false,
        }
    }
}
