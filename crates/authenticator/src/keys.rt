//! The public keys of new credentials.

ghost use Rattle.std.specs.Prelude.{◌≡◌, ℕ, List};
ghost use Rattle.cose.specs.Keys.{alg_of, signed_alg};
ghost use Rattle.cose.specs.declared.key.SigningAlg.{SigningAlg};
ghost use Rattle.cose.specs.declared.key.CoseKey.{CoseKey};

use cose::{CoseKey, Signer, SigningAlg};

/// Tells the public key of a new credential's secret.
pub trait PublicKeys {
    /// The public key of a secret.
    ghost public_of: { Self → SigningAlg → List ℕ → CoseKey };

    /// The public key of a secret, which has this algorithm. It takes no memory.
    fn public(&self, alg: SigningAlg, secret: &[u8; 32]) -> CoseKey
        ensures { result ≡ public_of self.now alg secret.now };

    /// The public key has the algorithm.
    ghost keeps_alg: { (s : Self) (alg : SigningAlg) (secret : List ℕ)
        → alg_of (public_of s alg secret) ≡ signed_alg alg };
}

/// The public keys of a scheme.
#[derive(Drop)]
pub struct SchemeKeys<'a, S> {
    /// The scheme.
    pub scheme: &'a S,
}

impl<S: Signer> PublicKeys for SchemeKeys<'_, S> {
    ghost public_of = { λ k alg secret. S.public_of k.scheme.now alg secret };

    fn public(&self, alg: SigningAlg, secret: &[u8; 32]) -> CoseKey {
        self.scheme.public(alg, secret)
    }

    ghost keeps_alg = { λ k alg secret. S.keeps_alg k.scheme.now alg secret };
}

/// The public keys of one secret, made elsewhere: that of ES256 by its coordinates, and that of EdDSA. Both are those
/// of the secret that is passed with them.
#[derive(Clone, Copy, Debug, PartialEq, Eq, Drop)]
pub struct HandedKeys {
    /// The x coordinate of the key of ES256.
    pub es256_x: [u8; 32],
    /// Its y coordinate.
    pub es256_y: [u8; 32],
    /// The key of EdDSA.
    pub eddsa_x: [u8; 32],
}

/// The keys that come with an act by which no credential is made.
pub const NO_KEYS: HandedKeys = HandedKeys {
    es256_x: [0; 32],
    es256_y: [0; 32],
    eddsa_x: [0; 32],
};

impl PublicKeys for HandedKeys {
    ghost use Rattle.authenticator.specs.Handed.{handed_key, handed_keeps_alg};

    ghost public_of = { λ k alg secret. handed_key k alg };

    fn public(&self, alg: SigningAlg, _secret: &[u8; 32]) -> CoseKey {
        match alg {
            SigningAlg::Es256 => CoseKey::Es256 {
                x: self.es256_x,
                y: self.es256_y,
            },
            SigningAlg::EdDsa => CoseKey::EdDsa { x: self.eddsa_x },
        }
    }

    ghost keeps_alg = { λ k alg secret. handed_keeps_alg k alg };
}
