//! Apple anonymous attestation (WebAuthn Level 2, section 8.8).

ghost use Rattle.std.specs.Prelude.{◌≡◌, ◌↔◌, option_map, IfErr, IsTrue, OnOk};
ghost use Rattle.refusal_order.specs.Lines.{Each, FirstFailing};
ghost use Rattle.certificates.specs.Extensions.{extension_view};
ghost use Rattle.certificates.specs.Form.{tbs_view};
ghost use Rattle.certificates.specs.Meanings.{IsNonce};
ghost use Rattle.attestation.specs.Apple.{apple_steps, nonce_of, HasNonce, IsNonceOf, PassesApple};
ghost use Rattle.attestation.specs.Certified.{Certified};
ghost use Rattle.attestation.specs.Inputs.{inputs_view};

use crate::inputs::Inputs;
use crate::key::has_key_of;
use crate::refusal::AttestationRefusal;
use crate::rules::extension_at;
use certificates::{APPLE_NONCE, Extension, TbsCertificate, read_apple_nonce, read_certificate};
use sha2::{Digest, Sha256};

/// SHA-256 of the authenticator data and then the hash of the client data.
fn nonce_of(inputs: &Inputs<'_>) -> [u8; 32]
    ensures { result ≡ nonce_of (inputs_view inputs.now) }
{
    let mut hasher = Sha256::new();
    hasher.update(inputs.auth_data);
    hasher.update(inputs.hash);
    hasher.finalize()
}

/// Whether an extension says this nonce.
fn says_nonce(value: &[u8], nonce: &[u8]) -> bool
    ensures { IsTrue result ↔ IsNonce nonce.now value.now }
{
    match read_apple_nonce(value) {
        Ok(own) => own == nonce,
        Err(_) => false,
    }
}

/// Whether an extension is there and says this nonce.
fn is_nonce(found: Option<Extension<'_>>, nonce: &[u8]) -> bool
    ensures { IsTrue result ↔ IsNonceOf nonce.now (option_map extension_view found.entry) }
{
    match found {
        Some(found) => says_nonce(found.value, nonce),
        None => false,
    }
}

/// Whether a certificate has this nonce.
fn has_nonce(extensions: Option<&[u8]>, nonce: &[u8]) -> bool
    ensures { IsTrue result ↔ HasNonce (option_map (λ b. b.now) extensions.entry) nonce.now }
{
    match extension_at(extensions, &APPLE_NONCE) {
        Some(found) => is_nonce(found, nonce),
        None => false,
    }
}

/// Whether a certificate of this content passes the steps.
fn check_content(
    inputs: &Inputs<'_>,
    content: &TbsCertificate<'_>,
) -> Result<(), AttestationRefusal>
    ensures passes { OnOk result (Each (PassesApple (inputs_view inputs.now) (tbs_view content.now)) apple_steps) }
    ensures refused { IfErr result (FirstFailing (PassesApple (inputs_view inputs.now) (tbs_view content.now)) apple_steps) }
{
    if !has_nonce(content.extensions, &nonce_of(inputs)) {
        return Err(AttestationRefusal::WrongNonce);
    }
    if !has_key_of(content.key, &inputs.credential.key) {
        return Err(AttestationRefusal::OtherKey);
    }
    Ok(())
}

/// Whether a statement of Apple with this leaf passes the steps.
pub fn check_apple(inputs: &Inputs<'_>, leaf: &[u8]) -> Result<(), AttestationRefusal>
    ensures passes { OnOk result (Each (λ s. Certified (λ t. PassesApple (inputs_view inputs.now) t s) leaf.now) apple_steps) }
    ensures refused { IfErr result (FirstFailing (λ s. Certified (λ t. PassesApple (inputs_view inputs.now) t s) leaf.now) apple_steps) }
{
    let Ok(certificate) = read_certificate(leaf) else {
        return Err(AttestationRefusal::BadCertificate);
    };
    check_content(inputs, &certificate.tbs)
}
