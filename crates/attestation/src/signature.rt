//! Signatures of statements.

ghost use Rattle.std.specs.Prelude.{◌≡◌, ◌↔◌, ◌++◌, List, ℕ, IfOk, IsTrue, MatchOption};
ghost use Rattle.attestation.specs.Asked.{asked_view};
ghost use Rattle.attestation.specs.Messages.{message_bytes, u2f_message};
ghost use Rattle.attestation.specs.Signed.{Signed};
ghost use Rattle.attestation.specs.Walks.{parts_bytes};

use crate::algorithm::Algorithm;
use crate::key::SigningKey;
use cose::is_joined;
use std::alloc::{AllocError, Global};

/// The message that a signature is over, by its parts where they lie.
#[derive(Clone, Copy, Debug, Drop)]
pub enum Message<'a> {
    /// The authenticator data, and then the hash of the client data (WebAuthn Level 2, section 8.2).
    Response {
        auth_data: &'a [u8],
        hash: &'a [u8],
    },
    /// A byte 0, the rp id's hash, the hash of the client data, the credential id, and the credential's point: a byte 4 and both
    /// coordinates (section 8.6).
    FidoU2f {
        rp_id_hash: &'a [u8],
        hash: &'a [u8],
        id: &'a [u8],
        x: &'a [u8],
        y: &'a [u8],
    },
}

/// What follows this front.
pub fn after<'a>(bytes: &'a [u8], front: &[u8]) -> Option<&'a [u8]>
    ensures { MatchOption result ((rest : List ℕ) → bytes.now ≡ front.now ++ rest → ⊥) (λ r. bytes.now ≡ front.now ++ r.now) }
{
    bytes.strip_prefix(front)
}

/// Whether the bytes are these parts, one after the other.
fn are_parts(bytes: &[u8], parts: &[&[u8]]) -> bool
    ensures { IsTrue result ↔ (bytes.now ≡ parts_bytes parts.now) }
{
    let mut rest = bytes;
    for part in parts {
        match after(rest, part) {
            Some(more) => rest = more,
            None => return false,
        }
    }
    rest.is_empty()
}

/// Whether the bytes are the message of U2F.
fn is_u2f_message(
    bytes: &[u8],
    rp_id_hash: &[u8],
    hash: &[u8],
    id: &[u8],
    x: &[u8],
    y: &[u8],
) -> bool
    ensures { IsTrue result ↔ (bytes.now ≡ u2f_message rp_id_hash.now hash.now id.now x.now y.now) }
{
    let zero: &[u8] = &[0];
    let four: &[u8] = &[4];
    are_parts(bytes, &[zero, rp_id_hash, hash, id, four, x, y])
}

impl<'a> Message<'a> {
    /// Whether these bytes are the message.
    pub fn is(&self, bytes: &[u8]) -> bool
        ensures { IsTrue result ↔ (bytes.now ≡ message_bytes self.now) }
    {
        match self {
            Message::Response { auth_data, hash } => is_joined(bytes, auth_data, hash),
            Message::FidoU2f {
                rp_id_hash,
                hash,
                id,
                x,
                y,
            } => is_u2f_message(bytes, rp_id_hash, hash, id, x, y),
        }
    }

    /// The message, its parts copied one after the other.
    pub fn to_vec(&self, alloc: Global) -> Result<Vec<u8>, AllocError>
        ensures { IfOk result (λ bytes. bytes.items ≡ message_bytes self.now) }
    {
        match self {
            Message::Response { auth_data, hash } => {
                let mut bytes = Vec::from_slice(alloc, auth_data)?;
                bytes.extend_from_slice(hash)?;
                Ok(bytes)
            }
            Message::FidoU2f {
                rp_id_hash,
                hash,
                id,
                x,
                y,
            } => {
                let mut bytes = Vec::from_slice(alloc, &[0])?;
                bytes.extend_from_slice(rp_id_hash)?;
                bytes.extend_from_slice(hash)?;
                bytes.extend_from_slice(id)?;
                bytes.push(4)?;
                bytes.extend_from_slice(x)?;
                bytes.extend_from_slice(y)?;
                Ok(bytes)
            }
        }
    }
}

/// A signature that the host is to verify.
#[derive(Clone, Copy, Debug, Drop)]
pub struct AskedSignature<'a> {
    /// The public key.
    pub key: SigningKey<'a>,
    /// The algorithm, which works with the key.
    pub algorithm: Algorithm,
    /// The message.
    pub message: Message<'a>,
    /// The signature: of ECDSA a DER sequence of two integers (WebAuthn Level 2, section 6.5.6).
    pub signature: &'a [u8],
}

/// Tells which signatures are valid. The mathematics of the algorithms is the implementer's.
pub trait SignatureVerifier {
    /// The signature is valid.
    ghost valid: { Self → Signed → Type 0 };

    /// Whether the signature is valid. It takes no memory.
    fn verify(&self, asked: &AskedSignature<'_>) -> bool
        ensures { IsTrue result ↔ valid self.now (asked_view asked.now) };
}
