//! Packed attestation (WebAuthn Level 2, section 8.2).

ghost use Rattle.std.specs.Prelude.{◌≡◌, ◌↔◌, IfErr, IsTrue, MatchOption, OnOk};
ghost use Rattle.refusal_order.specs.Lines.{Each, FirstFailing};
ghost use Rattle.certificates.specs.Form.{tbs_view};
ghost use Rattle.cose.specs.Keys.{alg_of, lent_key_view};
ghost use Rattle.cose.specs.Keys as cose;
ghost use Rattle.attestation.specs.Algorithms.{argument_of};
ghost use Rattle.attestation.specs.Asked.{asked_view};
ghost use Rattle.attestation.specs.Certified.{Certified};
ghost use Rattle.attestation.specs.Inputs.{inputs_view};
ghost use Rattle.attestation.specs.Messages.{message_bytes, response_message};
ghost use Rattle.attestation.specs.Packed.{packed_steps, self_signed, self_steps, PassesPacked, PassesSelf};
ghost use Rattle.attestation.specs.Signed.{HasKeyOf, IsBy, Signed};

use crate::algorithm::Algorithm;
use crate::inputs::Inputs;
use crate::key::{SigningKey, key_with};
use crate::refusal::AttestationRefusal;
use crate::rules::{has_aaguid, has_end_entity, has_uncritical_aaguid, is_attestation_subject};
use crate::signature::{AskedSignature, Message, SignatureVerifier};
use certificates::{TbsCertificate, Version, read_certificate};
use cose::KeyView;

/// The signature by a certificate's key, if that works with the algorithm.
pub fn signature_by<'a>(
    info: &'a [u8],
    algorithm: Algorithm,
    message: Message<'a>,
    signature: &'a [u8],
) -> Option<AskedSignature<'a>>
    ensures { MatchOption result (HasKeyOf algorithm info.now → ⊥)
        (λ s. IsBy info.now algorithm (message_bytes message.entry) signature.now (asked_view s)) }
{
    let key = key_with(info, algorithm)?;
    Some(AskedSignature {
        key,
        algorithm,
        message,
        signature,
    })
}

/// The authenticator data and the hash of the client data.
pub fn response<'a>(inputs: &Inputs<'a>) -> Message<'a>
    ensures { message_bytes result ≡ response_message (inputs_view inputs.now).auth_data (inputs_view inputs.now).hash }
{
    Message::Response {
        auth_data: inputs.auth_data,
        hash: inputs.hash,
    }
}

/// Whether the certificate is of version 3.
pub fn is_version_3(version: Version) -> bool
    ensures { IsTrue result ↔ (version ≡ Version.V3) }
{
    version == Version::V3
}

/// Whether a certificate of this content passes the steps.
fn check_content<V: SignatureVerifier>(
    verifier: &V,
    inputs: &Inputs<'_>,
    algorithm: Algorithm,
    signature: &[u8],
    content: &TbsCertificate<'_>,
) -> Result<(), AttestationRefusal>
    ensures passes { OnOk result (Each (PassesPacked (V.valid verifier.now) algorithm signature.now (inputs_view inputs.now) (tbs_view content.now)) packed_steps) }
    ensures refused { IfErr result (FirstFailing (PassesPacked (V.valid verifier.now) algorithm signature.now (inputs_view inputs.now) (tbs_view content.now)) packed_steps) }
{
    let Some(asked) = signature_by(content.key, algorithm, response(inputs), signature) else {
        return Err(AttestationRefusal::OtherAlgorithm);
    };
    if !verifier.verify(&asked) {
        return Err(AttestationRefusal::BadSignature);
    }
    if !is_version_3(content.version) {
        return Err(AttestationRefusal::WrongVersion);
    }
    if !is_attestation_subject(content.subject) {
        return Err(AttestationRefusal::WrongSubject);
    }
    if !has_end_entity(content.extensions) {
        return Err(AttestationRefusal::CertificateAuthority);
    }
    if !has_uncritical_aaguid(content.extensions) {
        return Err(AttestationRefusal::CriticalAaguid);
    }
    if !has_aaguid(content.extensions, &inputs.credential.aaguid) {
        return Err(AttestationRefusal::WrongAaguid);
    }
    Ok(())
}

/// Whether a packed statement with this leaf passes the steps.
pub fn check_packed<V: SignatureVerifier>(
    verifier: &V,
    inputs: &Inputs<'_>,
    algorithm: Algorithm,
    signature: &[u8],
    leaf: &[u8],
) -> Result<(), AttestationRefusal>
    ensures passes { OnOk result (Each (λ s. Certified (λ t. PassesPacked (V.valid verifier.now) algorithm signature.now (inputs_view inputs.now) t s) leaf.now) packed_steps) }
    ensures refused { IfErr result (FirstFailing (λ s. Certified (λ t. PassesPacked (V.valid verifier.now) algorithm signature.now (inputs_view inputs.now) t s) leaf.now) packed_steps) }
{
    let Ok(certificate) = read_certificate(leaf) else {
        return Err(AttestationRefusal::BadCertificate);
    };
    check_content(verifier, inputs, algorithm, signature, &certificate.tbs)
}

/// The signature of a packed statement with this leaf.
pub fn packed_signature<'a>(
    inputs: &Inputs<'a>,
    algorithm: Algorithm,
    signature: &'a [u8],
    leaf: &'a [u8],
) -> Option<AskedSignature<'a>>
    ensures { MatchOption result
        ((s : Signed) → Certified (λ t. IsBy t.key algorithm (response_message (inputs_view inputs.now).auth_data (inputs_view inputs.now).hash) signature.now s) leaf.now → ⊥)
        (λ s. Certified (λ t. IsBy t.key algorithm (response_message (inputs_view inputs.now).auth_data (inputs_view inputs.now).hash) signature.now (asked_view s)) leaf.now) }
{
    let Ok(certificate) = read_certificate(leaf) else {
        return None;
    };
    signature_by(certificate.tbs.key, algorithm, response(inputs), signature)
}

/// Whether the algorithm is that of the credential's key.
fn is_algorithm_of(algorithm: Algorithm, key: &KeyView<'_>) -> bool
    ensures { IsTrue result ↔ (argument_of algorithm ≡ cose.argument_of (alg_of (lent_key_view key.now))) }
{
    algorithm.argument() == key.alg().argument()
}

/// The signature of a self attestation.
pub fn self_signature<'a>(
    inputs: &'a Inputs<'a>,
    algorithm: Algorithm,
    signature: &'a [u8],
) -> AskedSignature<'a>
    ensures { asked_view result ≡ self_signed algorithm signature.now (inputs_view inputs.now) }
{
    AskedSignature {
        key: SigningKey::of_credential(&inputs.credential.key),
        algorithm,
        message: response(inputs),
        signature,
    }
}

/// Whether a self attestation passes the steps.
pub fn check_self<V: SignatureVerifier>(
    verifier: &V,
    inputs: &Inputs<'_>,
    algorithm: Algorithm,
    signature: &[u8],
) -> Result<(), AttestationRefusal>
    ensures passes { OnOk result (Each (PassesSelf (V.valid verifier.now) algorithm signature.now (inputs_view inputs.now)) self_steps) }
    ensures refused { IfErr result (FirstFailing (PassesSelf (V.valid verifier.now) algorithm signature.now (inputs_view inputs.now)) self_steps) }
{
    if !is_algorithm_of(algorithm, &inputs.credential.key) {
        return Err(AttestationRefusal::OtherAlgorithm);
    }
    if !verifier.verify(&self_signature(inputs, algorithm, signature)) {
        return Err(AttestationRefusal::BadSignature);
    }
    Ok(())
}
