//! The signature that a host verified, from its parts.

ghost use Rattle.std.specs.Prelude.{◌≡◌, IfErr, IfOk, OnOk, option_map, true};
ghost use Rattle.refusal_order.specs.Lines.{Each};
ghost use Rattle.verification.specs.Signed.{lent_signature_view};
ghost use Rattle.passkey_c.specs.Limits.{KeyKeeps, key_order};
ghost use Rattle.passkey_c.specs.Parts.{verified_in};

use crate::input::{KeyLimit, key_from};
use crate::parts::VerifiedParts;
use verification::{HostVerifier, SignatureView};

/// The verifier of the signature that the host verified, where it says that it did.
pub(crate) fn verifier_from<'a>(
    has_verified: bool,
    parts: &VerifiedParts<'a>,
) -> Result<HostVerifier<'a>, KeyLimit>
    ensures found { IfOk result (λ verifier. option_map lent_signature_view verifier.verified ≡ verified_in has_verified parts.now) }
    ensures kept { OnOk result (has_verified ≡ true → Each (KeyKeeps parts.now.key) key_order) }
    ensures refused { IfErr result (λ limit. (has_verified ≡ true) × (KeyKeeps parts.now.key limit → ⊥)) }
{
    if !has_verified {
        return Ok(HostVerifier { verified: None });
    }
    match key_from(&parts.key) {
        Ok(key) => Ok(HostVerifier {
            verified: Some(SignatureView {
                key,
                message: parts.message,
                signature: parts.signature,
            }),
        }),
        Err(limit) => Err(limit),
    }
}
