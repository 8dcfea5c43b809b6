//! A scheme for tests.

ghost use Rattle.std.specs.Prelude.{◌≡◌, ◌++◌};
ghost use Rattle.sha2.specs.Sha256.{sha256};
ghost use Rattle.cose.specs.Keys.{x_of};
ghost use Rattle.cose.specs.Bench.{bench_valid, bench_public, bench_keeps_alg};

use crate::key::{CoseKey, KeyView, SigningAlg};
use crate::scheme::{Signer, Verifier};
use sha2::{Digest, Sha256};
use std::alloc::AllocError;

/// **Insecure, for tests only**: anyone who sees a public key can sign.
///
/// It meets the law of a signer, so that whole ceremonies run without the mathematics. The public
/// key's x is SHA-256 of the secret, its y SHA-256 of x, and a signature, of 32 bytes, is SHA-256
/// of x, for an RSA key its modulus, and then the message.
#[derive(Clone, Copy, Debug, Default, PartialEq, Eq, Drop)]
pub struct BenchScheme;

/// The signature of a message of two parts under a key's x.
fn signature_of(x: &[u8], first: &[u8], second: &[u8]) -> [u8; 32]
    ensures { result ≡ sha256 (x.now ++ (first.now ++ second.now)) }
{
    let mut hasher = Sha256::new();
    hasher.update(x);
    hasher.update(first);
    hasher.update(second);
    hasher.finalize()
}

/// The x of the public key of a secret.
fn x_of_secret(alg: SigningAlg, secret: &[u8; 32]) -> [u8; 32]
    ensures { result ≡ x_of (bench_public alg secret.now) }
{
    match alg {
        SigningAlg::Es256 | SigningAlg::EdDsa => Sha256::digest(secret),
    }
}

impl Verifier for BenchScheme {
    ghost valid = { λ _ key message sig. bench_valid key message sig };

    fn verify(&self, key: &KeyView<'_>, parts: [&[u8]; 2], sig: &[u8]) -> bool {
        let [first, second] = parts;
        let wanted = signature_of(key.x(), first, second);
        sig == wanted.as_slice()
    }
}

impl Signer for BenchScheme {
    ghost public_of = { λ _ alg secret. bench_public alg secret };

    fn public(&self, alg: SigningAlg, secret: &[u8; 32]) -> CoseKey {
        let x = Sha256::digest(secret);
        match alg {
            SigningAlg::Es256 => CoseKey::Es256 {
                x,
                y: Sha256::digest(&x),
            },
            SigningAlg::EdDsa => CoseKey::EdDsa { x },
        }
    }

    fn sign(
        &self,
        alg: SigningAlg,
        secret: &[u8; 32],
        parts: [&[u8]; 2],
        out: &mut Vec<u8>,
    ) -> Result<(), AllocError> {
        let [first, second] = parts;
        out.extend_from_slice(&signature_of(&x_of_secret(alg, secret), first, second))
    }

    ghost keeps_alg = { λ _ alg secret. bench_keeps_alg alg secret };
}
