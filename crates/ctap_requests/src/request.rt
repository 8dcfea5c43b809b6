//! Requests (CTAP 2.1, sections 6.1, 6.2, 6.3, 6.4 and 6.6).

/// A credential's descriptor (WebAuthn section 5.8.3).
#[derive(Debug, Drop)]
pub struct Descriptor {
    /// The credential id: 1 to 64 bytes.
    pub id: Vec<u8>,
    /// The member `type`.
    pub kind: String,
}

/// A credential's descriptor whose members are lent by the bytes that were read.
#[derive(Clone, Copy, Debug, Drop)]
pub struct DescriptorView<'a> {
    /// The credential id: 1 to 64 bytes.
    pub id: &'a [u8],
    /// The member `type`.
    pub kind: &'a str,
}

/// A relying party (WebAuthn section 5.4.2).
#[derive(Debug, Drop)]
pub struct RelyingParty {
    /// The relying party id: 1 to 253 bytes.
    pub id: String,
    /// The member `name`.
    pub name: Option<String>,
}

/// A user account (WebAuthn section 5.4.3).
#[derive(Debug, Drop)]
pub struct User {
    /// The user handle: 1 to 64 bytes.
    pub id: Vec<u8>,
    /// The member `name`.
    pub name: Option<String>,
    /// The member `displayName`.
    pub display_name: Option<String>,
}

/// A type and algorithm of credential that is wanted (WebAuthn section 5.3).
#[derive(Debug, Drop)]
pub struct Parameters {
    /// The COSE algorithm's number, from -2^64 to 2^64 - 1.
    pub alg: i128,
    /// The member `type`.
    pub kind: String,
}

/// The options of a makeCredential request.
#[derive(Clone, Copy, Debug, Drop)]
pub struct CreationOptions {
    /// Whether the credential is to be resident.
    pub rk: Option<bool>,
    /// Whether the user's presence is asked for.
    pub up: Option<bool>,
    /// Whether the user is to be verified.
    pub uv: Option<bool>,
}

/// The options of a getAssertion request.
#[derive(Clone, Copy, Debug, Drop)]
pub struct AssertionOptions {
    /// Whether the user's presence is asked for.
    pub up: Option<bool>,
    /// Whether the user is to be verified.
    pub uv: Option<bool>,
}

/// A makeCredential request (CTAP 2.1, section 6.1). Its extensions are not kept.
#[derive(Debug, Drop)]
pub struct MakeCredential {
    /// The hash of the client data: 32 bytes.
    pub client_data_hash: Vec<u8>,
    /// The relying party.
    pub rp: RelyingParty,
    /// The user account.
    pub user: User,
    /// The types and algorithms wanted, the best first.
    pub pub_key_cred_params: Vec<Parameters>,
    /// Credentials one of which must not be there: at most 8.
    pub exclude_list: Option<Vec<Descriptor>>,
    /// The options.
    pub options: Option<CreationOptions>,
}

/// A getAssertion request (CTAP 2.1, section 6.2). Its extensions are not kept.
#[derive(Debug, Drop)]
pub struct GetAssertion {
    /// The relying party id: 1 to 253 bytes.
    pub rp_id: String,
    /// The hash of the client data: 32 bytes.
    pub client_data_hash: Vec<u8>,
    /// Credentials one of which is wanted: 1 to 8.
    pub allow_list: Option<Vec<Descriptor>>,
    /// The options.
    pub options: Option<AssertionOptions>,
}

/// A getAssertion request whose members are lent by the bytes that were read. Its extensions are not
/// kept.
#[derive(Debug, Drop)]
pub struct GetAssertionView<'a> {
    /// The relying party id: 1 to 253 bytes.
    pub rp_id: &'a str,
    /// The hash of the client data: 32 bytes.
    pub client_data_hash: &'a [u8],
    /// Credentials one of which is wanted: 1 to 8.
    pub allow_list: Option<Vec<DescriptorView<'a>>>,
    /// The options.
    pub options: Option<AssertionOptions>,
}

/// A request.
#[derive(Debug, Drop)]
pub enum Request {
    /// Makes a credential (section 6.1).
    MakeCredential(MakeCredential),
    /// Asks for an assertion (section 6.2).
    GetAssertion(GetAssertion),
    /// Asks for the next assertion (section 6.3).
    GetNextAssertion,
    /// Asks what the authenticator is (section 6.4).
    GetInfo,
    /// Removes all credentials (section 6.6).
    Reset,
}

/// A request of which a getAssertion's members are lent by the bytes that were read.
#[derive(Debug, Drop)]
pub enum RequestView<'a> {
    /// Makes a credential (section 6.1).
    MakeCredential(MakeCredential),
    /// Asks for an assertion (section 6.2).
    GetAssertion(GetAssertionView<'a>),
    /// Asks for the next assertion (section 6.3).
    GetNextAssertion,
    /// Asks what the authenticator is (section 6.4).
    GetInfo,
    /// Removes all credentials (section 6.6).
    Reset,
}
