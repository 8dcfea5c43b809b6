//! What a host says of a signature, as it stands in a line.

ghost use Rattle.std.specs.Prelude.{◌≡◌, ◌↔◌, IsTrue, option_map};
ghost use Rattle.verification.specs.Signed.{lent_signature_view};
ghost use Rattle.site_acts.specs.VerifiedSignatures.{verified_in};
ghost use Rattle.site_acts.specs.declared.verified.Verified.TheVariants as found;

use verification::{HostVerifier, VerifiedSignature};

/// What the host found by its own library.
#[derive(Debug, Drop)]
pub enum Verified {
    /// It has verified nothing yet.
    Nothing,
    /// It found the signature that it was asked for invalid.
    Invalid,
    /// It found this one valid.
    Valid(VerifiedSignature),
}

impl Verified {
    /// Whether the host has verified nothing yet, so that it is to be asked.
    pub fn is_nothing(&self) -> bool
        ensures { IsTrue result ↔ (self.now ≡ found.Nothing) }
    {
        matches!(self, Verified::Nothing)
    }

    /// The verifier to which the one signature is valid that the host verified. It takes no memory.
    pub fn verifier(&self) -> HostVerifier<'_>
        ensures { option_map lent_signature_view result.verified ≡ verified_in self.now }
    {
        HostVerifier {
            verified: match self {
                Verified::Valid(signature) => Some(signature.view()),
                Verified::Nothing | Verified::Invalid => None,
            },
        }
    }
}
