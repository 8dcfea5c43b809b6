//! The algorithms of attestation signatures.

ghost use Rattle.std.specs.Prelude.{◌≡◌, MatchOption};
ghost use Rattle.ccbor.specs.Viewing.{shown};
ghost use Rattle.attestation.specs.Algorithms.{algorithm_item, argument_of};
ghost use Rattle.attestation.specs.declared.algorithm.Algorithm.{Algorithm};

use ccbor::View;

/// The algorithm of a statement's signature, by its COSE number.
#[derive(Clone, Copy, Debug, PartialEq, Eq, Drop)]
pub enum Algorithm {
    /// -7: ECDSA with SHA-256, here over P-256 (RFC 9053 section 2.1).
    Es256,
    /// -35: ECDSA with SHA-384, here over P-384.
    Es384,
    /// -8: EdDSA, here over Ed25519 (RFC 9053 section 2.2).
    EdDsa,
    /// -257: RSASSA-PKCS1-v1_5 with SHA-256 (RFC 8812 section 2), as the next three.
    Rs256,
    /// -258: with SHA-384.
    Rs384,
    /// -259: with SHA-512.
    Rs512,
    /// -65535: with SHA-1, which TPMs of old sign with.
    Rs1,
}

impl Algorithm {
    /// The argument n of the number -1 - n, as CBOR writes it (RFC 8949 section 3.1): of ES256 6.
    pub fn argument(self) -> u64
        ensures { result ≡ argument_of self }
    {
        match self {
            Algorithm::Es256 => 6,
            Algorithm::Es384 => 34,
            Algorithm::EdDsa => 7,
            Algorithm::Rs256 => 256,
            Algorithm::Rs384 => 257,
            Algorithm::Rs512 => 258,
            Algorithm::Rs1 => 65534,
        }
    }

    /// The algorithm whose number this argument is of.
    pub fn of_argument(argument: u64) -> Option<Algorithm>
        ensures { MatchOption result ((a : Algorithm) → argument_of a ≡ argument → ⊥) (λ a. argument_of a ≡ argument) }
    {
        match argument {
            6 => Some(Algorithm::Es256),
            34 => Some(Algorithm::Es384),
            7 => Some(Algorithm::EdDsa),
            256 => Some(Algorithm::Rs256),
            257 => Some(Algorithm::Rs384),
            258 => Some(Algorithm::Rs512),
            65534 => Some(Algorithm::Rs1),
            _ => None,
        }
    }
}

/// The algorithm whose number the value is.
pub fn algorithm_in(value: &View<'_>) -> Option<Algorithm>
    ensures { MatchOption result ((a : Algorithm) → shown value.now ≡ algorithm_item a → ⊥) (λ a. shown value.now ≡ algorithm_item a) }
{
    Algorithm::of_argument(value.as_nint()?)
}
