//! Signatures of an authenticator.

ghost use Rattle.std.specs.Prelude.{◌≡◌, IfOk};
ghost use Rattle.cose.specs.Schemes.{joined};
ghost use Rattle.authenticator.specs.Signing.{auth_data_of, hash_of, message_of};
ghost use Rattle.authenticator.specs.Steps.{IsSignature};

use crate::pending::{Pending, Work};
use cose::{Signer, SigningAlg};
use std::alloc::{AllocError, Global};

/// The most bytes of a signature.
pub const MAX_SIGNATURE: usize = 128;

/// The bytes of the authenticator data.
fn auth_data(work: &Work) -> &[u8]
    ensures { result.now ≡ auth_data_of work.entry.now }
{
    match work {
        Work::Creation(creation) => creation.auth_data.as_slice(),
        Work::Assertion(assertion) => assertion.auth_data.as_slice(),
        Work::Next(next) => next.auth_data.as_slice(),
    }
}

/// The hash of the client data.
fn client_data_hash(work: &Work) -> &[u8]
    ensures { result.now ≡ hash_of work.entry.now }
{
    match work {
        Work::Creation(creation) => creation.request.client_data_hash.as_slice(),
        Work::Assertion(assertion) => assertion.asked.client_data_hash.as_slice(),
        Work::Next(next) => next.client_data_hash.as_slice(),
    }
}

impl Pending {
    /// The algorithm of the signature.
    pub fn alg(&self) -> SigningAlg
        ensures { result ≡ self.now.alg }
    {
        self.alg
    }

    /// The secret of the key that signs.
    pub fn secret(&self) -> &[u8; 32]
        ensures { result.now ≡ self.entry.now.secret }
    {
        &self.secret
    }

    /// What is to be signed, in two parts: the authenticator data, and after them the hash of the client data (WebAuthn
    /// Level 2, sections 6.3.3 and 8.2).
    pub fn message(&self) -> [&[u8]; 2]
        ensures { joined result ≡ message_of self.entry.now }
    {
        [auth_data(&self.work), client_data_hash(&self.work)]
    }

    /// A signature by a scheme, of 1 to 128 bytes, for which it makes room first. Refused only where memory for it is wanting.
    pub fn signature<S: Signer>(&self, alloc: Global, scheme: &S) -> Result<Vec<u8>, AllocError>
        ensures { IfOk result (λ v. IsSignature (S.valid scheme.now) (S.public_of scheme.now self.now.alg self.now.secret) (message_of self.now) v.items) }
    {
        let mut signature = Vec::with_capacity(alloc, MAX_SIGNATURE)?;
        scheme.sign(self.alg, &self.secret, self.message(), &mut signature)?;
        Ok(signature)
    }
}
