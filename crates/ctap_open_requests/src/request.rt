//! Requests (CTAP 2.1, sections 6.1 to 6.4), lent by the caller.

use ccbor::Value;

/// A relying party (WebAuthn section 5.4.2).
#[derive(Clone, Copy, Debug, Drop)]
pub struct RelyingParty<'a> {
    /// The relying party id: 1 to 253 bytes.
    pub id: &'a str,
    /// The member `name`.
    pub name: Option<&'a str>,
}

/// A user account (WebAuthn section 5.4.3).
#[derive(Clone, Copy, Debug, Drop)]
pub struct User<'a> {
    /// The user handle: 1 to 64 bytes.
    pub id: &'a [u8],
    /// The member `name`.
    pub name: Option<&'a str>,
    /// The member `displayName`.
    pub display_name: Option<&'a str>,
}

/// The options of a request; each that is absent is not written.
#[derive(Clone, Copy, Debug, Drop)]
pub struct Options {
    /// Whether the credential is to be resident: of makeCredential alone.
    pub rk: Option<bool>,
    /// Whether the user's presence is asked for.
    pub up: Option<bool>,
    /// Whether the user is to be verified by the key itself.
    pub uv: Option<bool>,
}

/// The proof that the client has a PIN/UV auth token (CTAP 2.1, section 6.5).
#[derive(Clone, Copy, Debug, Drop)]
pub struct PinUvAuth<'a> {
    /// The member `pinUvAuthParam`: 16 bytes by protocol one, 32 by two.
    pub param: &'a [u8],
    /// The member `pinUvAuthProtocol`: 1 or 2.
    pub protocol: u64,
}

/// A makeCredential request (CTAP 2.1, section 6.1).
#[derive(Debug, Drop)]
pub struct MakeCredential<'a> {
    /// The hash of the client data: 32 bytes.
    pub client_data_hash: &'a [u8],
    /// The relying party.
    pub rp: RelyingParty<'a>,
    /// The user account.
    pub user: User<'a>,
    /// The COSE algorithms that are wanted, the best first, each of type `public-key`.
    pub algorithms: &'a [i64],
    /// The ids of credentials one of which must not be there, each of 1 to 1,023 bytes and of type `public-key`. An
    /// empty list is not written.
    pub exclude: &'a [&'a [u8]],
    /// The extensions' inputs: a map.
    pub extensions: Option<Value>,
    /// The options; where none is there the member is not written.
    pub options: Options,
    /// The proof of a PIN/UV auth token.
    pub auth: Option<PinUvAuth<'a>>,
}

/// A getAssertion request (CTAP 2.1, section 6.2).
#[derive(Debug, Drop)]
pub struct GetAssertion<'a> {
    /// The relying party id: 1 to 253 bytes.
    pub rp_id: &'a str,
    /// The hash of the client data: 32 bytes.
    pub client_data_hash: &'a [u8],
    /// The ids of credentials one of which is wanted, as in [`MakeCredential::exclude`].
    pub allow: &'a [&'a [u8]],
    /// The extensions' inputs: a map.
    pub extensions: Option<Value>,
    /// The options; `rk` is none of them.
    pub options: Options,
    /// The proof of a PIN/UV auth token.
    pub auth: Option<PinUvAuth<'a>>,
}
