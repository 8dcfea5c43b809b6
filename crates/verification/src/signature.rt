//! A signature with its public key and its message, owned and lent.

ghost use Rattle.std.specs.Prelude.{◌≡◌, ◌++◌, IfOk};
ghost use Rattle.sha2.specs.Sha256.{sha256};
ghost use Rattle.cose.specs.Keys.{lent_key_view};
ghost use Rattle.verification.specs.Signed.{lent_signature_view, signature_view};

use clientdata::hash;
use cose::{CoseKey, KeyView};
use std::alloc::{AllocError, Global};

/// A signature of a message under a public key: one that the host is to verify, or has verified.
#[derive(Debug, Drop)]
pub struct VerifiedSignature {
    /// The public key.
    pub key: CoseKey,
    /// The message.
    pub message: Vec<u8>,
    /// The signature.
    pub signature: Vec<u8>,
}

/// The same, lent.
#[derive(Clone, Copy, Debug, Drop)]
pub struct SignatureView<'a> {
    /// The public key.
    pub key: KeyView<'a>,
    /// The message.
    pub message: &'a [u8],
    /// The signature.
    pub signature: &'a [u8],
}

impl VerifiedSignature {
    /// The signature of a response: its message is the authenticator data as they came, and then SHA-256 of the client data
    /// (WebAuthn Level 2, section 7.2, steps 19 and 20; section 8.2). All of it is copied.
    pub fn of_response(
        alloc: Global,
        key: &KeyView<'_>,
        auth_data: &[u8],
        client_data: &[u8],
        signature: &[u8],
    ) -> Result<VerifiedSignature, AllocError>
        ensures key { IfOk result (λ s. s.key ≡ lent_key_view key.now) }
        ensures message { IfOk result (λ s. s.message.items ≡ auth_data.now ++ sha256 client_data.now) }
        ensures signature { IfOk result (λ s. s.signature.items ≡ signature.now) }
    {
        let mut message = Vec::from_slice(alloc, auth_data)?;
        message.extend_from_slice(&hash(client_data))?;
        Ok(VerifiedSignature {
            key: key.to_key(alloc)?,
            message,
            signature: Vec::from_slice(alloc, signature)?,
        })
    }

    /// The signature, lent. It takes no memory.
    pub fn view(&self) -> SignatureView<'_>
        ensures { lent_signature_view result ≡ signature_view self.now }
    {
        SignatureView {
            key: self.key.view(),
            message: self.message.as_slice(),
            signature: self.signature.as_slice(),
        }
    }
}
