//! What is handed to an authenticator with a request.

/// What the user gave to a request.
#[derive(Clone, Copy, Debug, PartialEq, Eq, Drop)]
pub struct Consent {
    /// The user is present (CTAP 2.1, section 6.1.2: a test of user presence).
    pub present: bool,
    /// The user is verified by the authenticator itself.
    pub verified: bool,
}

/// Random words for a credential that the request may make. An authenticator is as good as these are.
#[derive(Clone, Copy, Drop)]
pub struct Words {
    /// The credential's id, which no other credential may have.
    pub id: [u8; 32],
    /// The secret of its key.
    pub secret: [u8; 32],
}
