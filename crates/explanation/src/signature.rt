//! A verifier that computes nothing.

use cose::{KeyView, Verifier};

/// What was said of the one signature of a response: that it is valid, or that it is not.
#[derive(Clone, Copy, Debug, Drop)]
pub(crate) struct SaidSignature {
    pub is_valid: bool,
}

impl Verifier for SaidSignature {
    ghost use Rattle.explanation.specs.Told.{signature_is};

    ghost valid = { λ s. signature_is s.is_valid };

    fn verify(&self, _key: &KeyView<'_>, _parts: [&[u8]; 2], _sig: &[u8]) -> bool {
        self.is_valid
    }
}
