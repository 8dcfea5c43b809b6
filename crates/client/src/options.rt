//! What a relying party asks for.

use cose::Alg;

/// The options of a sign-in (`PublicKeyCredentialRequestOptions`, WebAuthn Level 2, section 5.5).
#[derive(Clone, Copy, Debug, Drop)]
pub struct RequestOptions<'a> {
    /// The challenge, of any length; this product's relying party has 32 bytes.
    pub challenge: &'a [u8],
    /// The rp id: 1 to 253 bytes, the caller's host or what follows a dot of it.
    pub rp_id: &'a str,
    /// The ids of the credentials that may answer: at most 8, of 1 to 64 bytes each; none for any.
    pub allow: &'a [&'a [u8]],
    /// Whether the user is to be verified.
    pub uv: bool,
}

/// The options of a registration (`PublicKeyCredentialCreationOptions`, WebAuthn Level 2, section 5.4).
/// The whole request has at most 7,609 bytes.
#[derive(Clone, Copy, Debug, Drop)]
pub struct CreationOptions<'a> {
    /// The challenge, of any length; this product's relying party has 32 bytes.
    pub challenge: &'a [u8],
    /// The rp id: 1 to 253 bytes, the caller's host or what follows a dot of it.
    pub rp_id: &'a str,
    /// The relying party's name, any text.
    pub rp_name: &'a str,
    /// The user handle: 1 to 64 bytes.
    pub user_id: &'a [u8],
    /// The user's name, any text.
    pub user_name: &'a str,
    /// The user's name for display, any text.
    pub display_name: &'a str,
    /// The algorithms that may be used, the best first, of any count.
    pub algs: &'a [Alg],
    /// The ids of credentials none of which may be there already: at most 8, of 1 to 64 bytes each.
    pub exclude: &'a [&'a [u8]],
    /// Whether the credential is to be resident.
    pub rk: bool,
    /// Whether the user is to be verified.
    pub uv: bool,
}
