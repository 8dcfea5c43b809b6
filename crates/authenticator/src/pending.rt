//! A request that waits for its signature.

ghost use Rattle.std.specs.Prelude.{◌≡◌, ◌≤◌, length};

use crate::consent::Words;
use crate::remembered::{AskedAssertion, Candidates};
use cose::SigningAlg;
use ctap_requests::MakeCredential;

/// A makeCredential, whose credential is stored once its attestation is signed.
#[derive(Drop)]
pub(crate) struct PendingCreation {
    pub request: MakeCredential,
    pub words: Words,
    /// The bytes of the authenticator data.
    pub auth_data: Vec<u8>,
    ghost user_low: { 1 ≤ length request.user.id.items },
    ghost user_high: { length request.user.id.items ≤ 64 },
    ghost size: { length auth_data.items ≤ 164 },
}

/// A getAssertion, which its first candidate answers.
#[derive(Drop)]
pub(crate) struct PendingAssertion {
    pub asked: AskedAssertion,
    pub candidates: Candidates,
    /// The bytes of the authenticator data.
    pub auth_data: Vec<u8>,
    ghost size: { length auth_data.items ≡ 37 },
}

/// A getNextAssertion, which the next candidate of what is remembered answers.
#[derive(Drop)]
pub(crate) struct PendingNext {
    /// The hash of the client data.
    pub client_data_hash: Vec<u8>,
    /// The bytes of the authenticator data.
    pub auth_data: Vec<u8>,
    ghost size: { length auth_data.items ≡ 37 },
}

/// What is done once the signature is there.
#[derive(Drop)]
pub(crate) enum Work {
    Creation(PendingCreation),
    Assertion(PendingAssertion),
    Next(PendingNext),
}

/// A request that waits for its signature. The authenticator is as before the request; so this value may be dropped, and
/// then the request has not been.
#[derive(Drop)]
pub struct Pending {
    pub(crate) alg: SigningAlg,
    pub(crate) secret: [u8; 32],
    pub(crate) work: Work,
}

/// What a request comes to before a signature is made.
#[derive(Drop)]
pub enum Begun {
    /// The reply: no signature is asked for.
    Replied(Vec<u8>),
    /// The request waits for its signature.
    Signs(Pending),
}
