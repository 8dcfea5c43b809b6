//! Signature schemes: what a relying party verifies with, and an authenticator signs with.

ghost use Rattle.std.specs.Prelude.{◌≡◌, ◌↔◌, ℕ, List, IsTrue, OnOk, OnErr};
ghost use Rattle.cose.specs.Keys.{alg_of, lent_key_view, signed_alg};
ghost use Rattle.cose.specs.Schemes.{joined, AppendsSignature};
ghost use Rattle.cose.specs.declared.key.SigningAlg.{SigningAlg};
ghost use Rattle.cose.specs.declared.key.CoseKey.{CoseKey};

use crate::key::{CoseKey, KeyView, SigningAlg};
use std::alloc::AllocError;

/// Tells which signatures are valid (RFC 9052 section 4.4, WebAuthn section 7.2). The mathematics
/// of the algorithms is the implementer's.
pub trait Verifier {
    /// The signature is valid for the message under the key: key, message, signature.
    ghost valid: { Self → CoseKey → List ℕ → List ℕ → Type 0 };

    /// Whether the signature is valid under the key for the message that the two parts are when the
    /// second is written after the first. It takes no memory.
    fn verify(&self, key: &KeyView<'_>, parts: [&[u8]; 2], sig: &[u8]) -> bool
        ensures { IsTrue result ↔ valid self.now (lent_key_view key.now) (joined parts.entry) sig.now };
}

/// Signs, with secrets of 32 bytes, by the algorithms of `SigningAlg`.
pub trait Signer: Verifier {
    /// The public key of a secret.
    ghost public_of: { Self → SigningAlg → List ℕ → CoseKey };

    /// The public key of a secret, which has this algorithm. It takes no memory.
    fn public(&self, alg: SigningAlg, secret: &[u8; 32]) -> CoseKey
        ensures { result ≡ public_of self.now alg secret.now };

    /// Appends a signature, of 1 to 128 bytes, of the message that the two parts are when the
    /// second is written after the first. It is valid under the public key of the same algorithm
    /// and secret. If memory runs out, nothing is appended.
    fn sign(
        &self,
        alg: SigningAlg,
        secret: &[u8; 32],
        parts: [&[u8]; 2],
        out: &mut Vec<u8>,
    ) -> Result<(), AllocError>
        ensures signed { OnOk result (AppendsSignature
            (Self.valid self.now (public_of self.now alg secret.now) (joined parts.entry))
            out.old.items out.new.items) }
        ensures err { OnErr result (out.new.items ≡ out.old.items) };

    /// The public key has the algorithm.
    ghost keeps_alg: { (s : Self) (alg : SigningAlg) (secret : List ℕ)
        → alg_of (public_of s alg secret) ≡ signed_alg alg };
}
