//! What a site keeps, of a credential and of a ceremony that has begun.

use cose::{Alg, KeyView};

/// A registered credential, lent.
#[derive(Clone, Copy, Debug, Drop)]
pub struct RowView<'a> {
    /// The credential id: 1 to 64 bytes, in the open profile to 1,023.
    pub id: &'a [u8],
    /// The user handle: 1 to 64 bytes.
    pub user: &'a [u8],
    /// The public key.
    pub key: KeyView<'a>,
    /// The signature counter last received.
    pub sign_count: u32,
    /// Whether the credential is eligible for backup, where that is known.
    pub eligible: Option<bool>,
    /// Whether the credential is retired: it signs in no more, and its id stays taken.
    pub retired: bool,
}

/// What a sign-in that has begun expects.
#[derive(Debug, Drop)]
pub struct SignInSession {
    /// The user handle of the account that signs in, where it is known beforehand.
    pub user: Option<Vec<u8>>,
    /// The ids of the credentials that may answer; none for any.
    pub allow: Vec<Vec<u8>>,
    /// Whether user verification (UV) is required.
    pub uv: bool,
    /// The challenge, of which no other session has the same.
    pub challenge: [u8; 32],
}

/// What a registration that has begun expects.
#[derive(Debug, Drop)]
pub struct RegistrationSession {
    /// The user handle of the account.
    pub user: Vec<u8>,
    /// The algorithms that were offered.
    pub algorithms: Vec<Alg>,
    /// Whether user verification (UV) is required.
    pub uv: bool,
    /// The challenge, of which no other session has the same.
    pub challenge: [u8; 32],
    /// Whether it was begun as a conditional create (WebAuthn Level 3, section 5.1.3). Level 3 alone looks at it: it then
    /// requires no user presence.
    pub conditional: bool,
    /// Whether an attestation was asked for. Level 3 alone looks at it: where none was, the statement counts as none.
    pub attestation: bool,
}

/// A client's answer to a sign-in, lent.
#[derive(Clone, Copy, Debug, Drop)]
pub struct AssertionParts<'a> {
    /// The credential id.
    pub credential: &'a [u8],
    /// The user handle, where the authenticator sent one.
    pub user: Option<&'a [u8]>,
    /// The authenticator data as they came.
    pub auth_data: &'a [u8],
    /// The signature.
    pub signature: &'a [u8],
    /// The client data as they came.
    pub client_data: &'a [u8],
}

/// A client's answer to a registration, lent.
#[derive(Clone, Copy, Debug, Drop)]
pub struct RegistrationParts<'a> {
    /// The attestation object as it came.
    pub object: &'a [u8],
    /// The client data as they came.
    pub client_data: &'a [u8],
    /// The credential id as the client names it (`rawId`), where it is passed.
    pub raw_id: Option<&'a [u8]>,
}
