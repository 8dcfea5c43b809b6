//! What requests have.

ghost use Rattle.std.specs.Prelude.{◌≡◌};
ghost use Rattle.pin_key_messages.specs.Protected.{client_data_hash, permission, rp_id};
ghost use Rattle.pin_key_messages.specs.ProtectedView.{message_of};

use ctap_requests::{GetAssertion, MakeCredential};
use pin_client_messages::{AgreementKey, permission};

/// A request of authenticatorClientPIN (CTAP 2.1, section 6.5.5), lent by the bytes that were read.
#[derive(Clone, Copy, Debug, Drop)]
pub struct PinAsked<'a> {
    /// The member `pinUvAuthProtocol`.
    pub protocol: Option<u64>,
    /// The member `subCommand`.
    pub subcommand: u64,
    /// The member `keyAgreement`: the platform's public key, as it was given.
    pub key: Option<AgreementKey<'a>>,
    /// The member `pinUvAuthParam`.
    pub param: Option<&'a [u8]>,
    /// The member `newPinEnc`.
    pub new_pin: Option<&'a [u8]>,
    /// The member `pinHashEnc`.
    pub pin_hash: Option<&'a [u8]>,
    /// The member `permissions`.
    pub permissions: Option<u64>,
    /// The member `rpId`.
    pub rp_id: Option<&'a str>,
}

/// The members of such a request, each of which may be absent.
#[derive(Clone, Copy, Debug, Drop)]
pub(crate) struct AskedMembers<'a> {
    pub protocol: Option<u64>,
    pub subcommand: Option<u64>,
    pub key: Option<AgreementKey<'a>>,
    pub param: Option<&'a [u8]>,
    pub new_pin: Option<&'a [u8]>,
    pub pin_hash: Option<&'a [u8]>,
    pub permissions: Option<u64>,
    pub rp_id: Option<&'a str>,
}

/// What a makeCredential or getAssertion (CTAP 2.1, sections 6.1 and 6.2) says of the user's verification, lent by the
/// bytes that were read.
#[derive(Clone, Copy, Debug, Drop)]
pub struct ParamView<'a> {
    /// The options.
    pub options: Option<OptionsAsked>,
    /// The member `pinUvAuthParam`.
    pub param: Option<&'a [u8]>,
    /// The member `pinUvAuthProtocol`.
    pub protocol: Option<u64>,
}

/// The options of such a request.
#[derive(Clone, Copy, Debug, Drop)]
pub struct OptionsAsked {
    /// The option `up`.
    pub up: Option<bool>,
    /// The option `uv`.
    pub uv: Option<bool>,
}

/// A makeCredential or getAssertion without its members `pinUvAuthParam` and `pinUvAuthProtocol`.
#[derive(Debug, Drop)]
pub enum ProtectedRequest {
    /// Makes a credential (section 6.1).
    MakeCredential(MakeCredential),
    /// Asks for an assertion (section 6.2).
    GetAssertion(GetAssertion),
}

impl ProtectedRequest {
    /// The permission that a token must have for it (CTAP 2.1, section 6.5.5.7): 1, mc, or 2, ga.
    pub fn permission(&self) -> u64
        ensures { result ≡ permission (message_of self.now) }
    {
        match self {
            ProtectedRequest::MakeCredential(_) => permission::MAKE_CREDENTIAL,
            ProtectedRequest::GetAssertion(_) => permission::GET_ASSERTION,
        }
    }

    /// The relying party id.
    pub fn rp_id(&self) -> &str
        ensures { result.now ≡ rp_id (message_of self.now) }
    {
        match self {
            ProtectedRequest::MakeCredential(request) => request.rp.id.as_str(),
            ProtectedRequest::GetAssertion(request) => request.rp_id.as_str(),
        }
    }

    /// The hash of the client data: 32 bytes.
    pub fn client_data_hash(&self) -> &[u8]
        ensures { result.now ≡ client_data_hash (message_of self.now) }
    {
        match self {
            ProtectedRequest::MakeCredential(request) => request.client_data_hash.as_slice(),
            ProtectedRequest::GetAssertion(request) => request.client_data_hash.as_slice(),
        }
    }
}
