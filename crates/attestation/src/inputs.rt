//! What a verification procedure is given beside the statement.

use authdata::AttestedView;

/// What a verification procedure is given beside the statement (WebAuthn Level 2, section 8): the authenticator data, and the
/// hash of the client data.
#[derive(Clone, Copy, Debug, Drop)]
pub struct Inputs<'a> {
    /// The authenticator data, as they came.
    pub auth_data: &'a [u8],
    /// Of these, SHA-256 of the relying party's id, of 32 bytes.
    pub rp_id_hash: &'a [u8],
    /// Of these, the credential that they attest.
    pub credential: AttestedView<'a>,
    /// SHA-256 of the client data, of 32 bytes.
    pub hash: &'a [u8],
}
