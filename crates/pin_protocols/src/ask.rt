//! What a host is asked to compute.

ghost use Rattle.std.specs.Prelude.{◌≡◌, IfOk, length};
ghost use Rattle.pin_protocols.specs.Asks.{answer_size, ask_view, asked, is_asked, operation_name, place};

use std::alloc::{AllocError, Global};

/// What is to be computed.
#[derive(Clone, Copy, Debug, Drop)]
pub enum Operation {
    /// The product of a private key on P-256 and the point `text`: x and y, 64 bytes. The answer is the x and y of that
    /// key's public key, and the product's x: 96 bytes. Where `key` is empty, a client asks: the key pair is new, and
    /// serves this one agreement (CTAP 2.1, section 6.5.6, `encapsulate`). Where it is not, it stands for the private key
    /// of an authenticator's pair (`decapsulate`); where `text` is no point of the curve, the answer is empty.
    Agree,
    /// HKDF-SHA-256 (RFC 5869) of the secret `key` with a salt of 32 zeros and the info `text`: 32 bytes.
    Derive,
    /// AES-256-CBC without padding of `text` by `key` under a new random IV of 16 bytes. The answer is the IV, and the
    /// ciphertext.
    Seal,
    /// AES-256-CBC without padding of `text` by `key` under `iv`.
    Encrypt,
    /// Its inverse.
    Decrypt,
    /// HMAC-SHA-256 (RFC 2104) of `text` by `key`: 32 bytes.
    Authenticate,
}

impl Operation {
    fn place(self) -> u8
        ensures { result ≡ place self }
    {
        match self {
            Operation::Agree => 0,
            Operation::Derive => 1,
            Operation::Seal => 2,
            Operation::Encrypt => 3,
            Operation::Decrypt => 4,
            Operation::Authenticate => 5,
        }
    }

    /// Its name, by which a program's line asks its host for it.
    pub fn name(self) -> &'static str
        ensures { result.now ≡ operation_name self }
    {
        match self {
            Operation::Agree => "agree",
            Operation::Derive => "derive",
            Operation::Seal => "seal",
            Operation::Encrypt => "encrypt",
            Operation::Decrypt => "decrypt",
            Operation::Authenticate => "authenticate",
        }
    }
}

/// What a host is asked for. It holds secrets: key, text and answer are for the host alone.
#[derive(Debug, Drop)]
pub struct Ask {
    /// What is to be computed.
    pub operation: Operation,
    /// The key or secret; none where a client asks to `Agree`.
    pub key: Vec<u8>,
    /// The IV, of `Encrypt` and `Decrypt`: 16 bytes.
    pub iv: Vec<u8>,
    /// What it is computed of.
    pub text: Vec<u8>,
}

impl Ask {
    /// This, in memory of its own.
    pub(crate) fn new(
        alloc: Global,
        operation: Operation,
        key: &[u8],
        iv: &[u8],
        text: &[u8],
    ) -> Result<Ask, AllocError>
        ensures { IfOk result (λ a. ask_view a ≡ asked operation key.now iv.now text.now) }
    {
        Ok(Ask {
            operation,
            key: Vec::from_slice(alloc, key)?,
            iv: Vec::from_slice(alloc, iv)?,
            text: Vec::from_slice(alloc, text)?,
        })
    }

    /// Whether it is this.
    pub(crate) fn is(&self, operation: Operation, key: &[u8], iv: &[u8], text: &[u8]) -> bool
        ensures { result ≡ is_asked (asked operation key.now iv.now text.now) (ask_view self.now) }
    {
        let same = self.operation.place() == operation.place();
        same && self.key.as_slice() == key
            && self.iv.as_slice() == iv
            && self.text.as_slice() == text
    }
}

/// How many bytes the answer has.
pub(crate) fn answer_size(operation: Operation, text: &[u8]) -> usize
    ensures { result ≡ answer_size operation (length text.now) }
{
    match operation {
        Operation::Agree => 96,
        Operation::Derive | Operation::Authenticate => 32,
        Operation::Seal => 16 + text.len(),
        Operation::Encrypt | Operation::Decrypt => text.len(),
    }
}
