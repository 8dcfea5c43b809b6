//! FIDO U2F attestation (WebAuthn Level 2, section 8.6).

ghost use Rattle.std.specs.Prelude.{◌≡◌, List, ℕ, IfErr, IfOk, MatchOption, OnOk};
ghost use Rattle.refusal_order.specs.Lines.{Each, FirstFailing};
ghost use Rattle.certificates.specs.Form.{tbs_view};
ghost use Rattle.attestation.specs.declared.algorithm.Algorithm.TheVariants as algorithms;
ghost use Rattle.attestation.specs.Asked.{asked_view};
ghost use Rattle.attestation.specs.Certified.{Certified};
ghost use Rattle.attestation.specs.FidoU2f.{fido_u2f_steps, u2f_leaf_steps, HasPoint, IsPoint, IsU2fSigned, IsUnsigned, PassesFidoU2f, PassesU2fLeaf};
ghost use Rattle.attestation.specs.Inputs.{inputs_view};
ghost use Rattle.attestation.specs.Messages.{message_bytes, u2f_message};
ghost use Rattle.attestation.specs.Signed.{HasKeyOf, Signed};
ghost use Rattle.attestation.specs.Statements.{certificates_view};

use crate::algorithm::Algorithm;
use crate::certificate_list::Certificates;
use crate::inputs::Inputs;
use crate::key::key_with;
use crate::packed::signature_by;
use crate::refusal::AttestationRefusal;
use crate::signature::{AskedSignature, Message, SignatureVerifier};
use certificates::{TbsCertificate, read_certificate};
use cose::KeyView;

/// The message of U2F, where the credential's key is a point of P-256.
fn u2f_message<'a>(inputs: &'a Inputs<'a>) -> Option<Message<'a>>
    ensures { MatchOption result (HasPoint (inputs_view inputs.now).credential.key → ⊥)
        (λ m. (x : List ℕ) × (y : List ℕ) × IsPoint (inputs_view inputs.now).credential.key x y
        × (message_bytes m ≡ u2f_message (inputs_view inputs.now).rp_id_hash (inputs_view inputs.now).hash (inputs_view inputs.now).credential.id x y)) }
{
    match &inputs.credential.key {
        KeyView::Es256 { x, y } => Some(Message::FidoU2f {
            rp_id_hash: inputs.rp_id_hash,
            hash: inputs.hash,
            id: inputs.credential.id,
            x,
            y,
        }),
        _ => None,
    }
}

/// The signature by the key of a certificate of this content.
fn signature_in<'a>(
    inputs: &'a Inputs<'a>,
    signature: &'a [u8],
    info: &'a [u8],
) -> Result<AskedSignature<'a>, AttestationRefusal>
    ensures signed { IfOk result (λ s. IsU2fSigned info.now signature.now (inputs_view inputs.now) (asked_view s)) }
    ensures key { OnOk result (HasKeyOf algorithms.Es256 info.now) }
    ensures point { OnOk result (HasPoint (inputs_view inputs.now).credential.key) }
    ensures refused { IfErr result (IsUnsigned info.now (inputs_view inputs.now)) }
{
    if key_with(info, Algorithm::Es256).is_none() {
        return Err(AttestationRefusal::OtherAlgorithm);
    }
    let Some(message) = u2f_message(inputs) else {
        return Err(AttestationRefusal::OtherCredentialKey);
    };
    match signature_by(info, Algorithm::Es256, message, signature) {
        Some(asked) => Ok(asked),
        None => Err(AttestationRefusal::OtherAlgorithm),
    }
}

/// Whether a certificate of this content passes the steps.
fn check_content<V: SignatureVerifier>(
    verifier: &V,
    inputs: &Inputs<'_>,
    signature: &[u8],
    content: &TbsCertificate<'_>,
) -> Result<(), AttestationRefusal>
    ensures passes { OnOk result (Each (PassesU2fLeaf (V.valid verifier.now) signature.now (inputs_view inputs.now) (tbs_view content.now)) u2f_leaf_steps) }
    ensures refused { IfErr result (FirstFailing (PassesU2fLeaf (V.valid verifier.now) signature.now (inputs_view inputs.now) (tbs_view content.now)) u2f_leaf_steps) }
{
    let asked = match signature_in(inputs, signature, content.key) {
        Ok(asked) => asked,
        Err(refusal) => return Err(refusal),
    };
    if !verifier.verify(&asked) {
        return Err(AttestationRefusal::BadSignature);
    }
    Ok(())
}

/// Whether a U2F statement passes the steps.
pub fn check_fido_u2f<V: SignatureVerifier>(
    verifier: &V,
    inputs: &Inputs<'_>,
    signature: &[u8],
    certificates: &Certificates<'_>,
) -> Result<(), AttestationRefusal>
    ensures passes { OnOk result (Each (PassesFidoU2f (V.valid verifier.now) signature.now (certificates_view certificates.now) (inputs_view inputs.now)) fido_u2f_steps) }
    ensures refused { IfErr result (FirstFailing (PassesFidoU2f (V.valid verifier.now) signature.now (certificates_view certificates.now) (inputs_view inputs.now)) fido_u2f_steps) }
{
    if certificates.count() != 1 {
        return Err(AttestationRefusal::NotOneCertificate);
    }
    let Ok(certificate) = read_certificate(certificates.leaf()) else {
        return Err(AttestationRefusal::BadCertificate);
    };
    check_content(verifier, inputs, signature, &certificate.tbs)
}

/// The signature of a U2F statement with this leaf.
pub fn fido_u2f_signature<'a>(
    inputs: &'a Inputs<'a>,
    signature: &'a [u8],
    leaf: &'a [u8],
) -> Option<AskedSignature<'a>>
    ensures { MatchOption result
        ((s : Signed) → Certified (λ t. IsU2fSigned t.key signature.now (inputs_view inputs.now) s) leaf.now → ⊥)
        (λ s. Certified (λ t. IsU2fSigned t.key signature.now (inputs_view inputs.now) (asked_view s)) leaf.now) }
{
    let Ok(certificate) = read_certificate(leaf) else {
        return None;
    };
    match signature_in(inputs, signature, certificate.tbs.key) {
        Ok(asked) => Some(asked),
        Err(_) => None,
    }
}
