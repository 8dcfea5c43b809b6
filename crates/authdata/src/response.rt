//! What a client hands to a relying party: plain bytes as they came.

/// What a sign-in answers (`AuthenticatorAssertionResponse`, WebAuthn section 5.2.2, with the id
/// of its credential).
#[derive(Debug, PartialEq, Eq, Drop)]
pub struct AssertionResponse {
    /// The credential id.
    pub credential: Vec<u8>,
    /// The user handle, if there is one.
    pub user: Option<Vec<u8>>,
    /// The authenticator data, whose bytes are signed as they came.
    pub auth_data: Vec<u8>,
    /// The signature over the authenticator data and then SHA-256 of the client data.
    pub signature: Vec<u8>,
    /// The client data.
    pub client_data: Vec<u8>,
}

/// What a registration answers (`AuthenticatorAttestationResponse`, WebAuthn section 5.2.1).
#[derive(Debug, PartialEq, Eq, Drop)]
pub struct RegistrationResponse {
    /// The attestation object.
    pub object: Vec<u8>,
    /// The client data.
    pub client_data: Vec<u8>,
}
