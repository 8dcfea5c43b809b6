//! Replies of keys (CTAP 2.1, sections 6.1.2, 6.2.2, 6.3 and 6.4).

use ccbor::Value;

/// A user account (WebAuthn section 5.4.3), lent by the bytes that were read.
#[derive(Clone, Copy, Debug, Drop)]
pub struct UserView<'a> {
    /// The user handle: 1 to 64 bytes.
    pub id: &'a [u8],
    /// The member `icon`, which WebAuthn had before Level 2.
    pub icon: Option<&'a str>,
    /// The member `name`.
    pub name: Option<&'a str>,
    /// The member `displayName`.
    pub display_name: Option<&'a str>,
}

/// A type and algorithm of credential (WebAuthn section 5.3), lent by the bytes that were read.
#[derive(Clone, Copy, Debug, Drop)]
pub struct ParametersView<'a> {
    /// The COSE algorithm's number, from -2^64 to 2^64 - 1.
    pub alg: i128,
    /// The member `type`.
    pub kind: &'a str,
}

/// A reply to makeCredential (section 6.1.2).
#[derive(Debug, Drop)]
pub struct KeyCreation {
    /// The attestation statement's format.
    pub fmt: String,
    /// The authenticator data, with the extension data that are in them.
    pub auth_data: Vec<u8>,
    /// The attestation statement, a map.
    pub statement: Value,
    /// The member `epAtt`: whether an enterprise attestation was given.
    pub enterprise: Option<bool>,
    /// The member `largeBlobKey`.
    pub large_blob_key: Option<Vec<u8>>,
}

/// A reply to getAssertion or getNextAssertion (sections 6.2.2 and 6.3), lent by the bytes that were read.
#[derive(Clone, Copy, Debug, Drop)]
pub struct KeyAssertion<'a> {
    /// The credential id: 1 to 1,023 bytes where the reply has it, else the one that was listed.
    pub credential: &'a [u8],
    /// The authenticator data, with the extension data that are in them.
    pub auth_data: &'a [u8],
    /// The signature.
    pub signature: &'a [u8],
    /// The user account.
    pub user: Option<UserView<'a>>,
    /// The member `numberOfCredentials`: at least 1.
    pub number: Option<u64>,
    /// The member `userSelected`: whether the user chose the credential at the key.
    pub user_selected: Option<bool>,
    /// The member `largeBlobKey`.
    pub large_blob_key: Option<&'a [u8]>,
}

/// The members of a reply to getAssertion or getNextAssertion, and the id that it tells.
#[derive(Clone, Copy, Debug, Drop)]
pub(crate) struct AssertionMembers<'a> {
    pub told: Option<&'a [u8]>,
    pub auth_data: &'a [u8],
    pub signature: &'a [u8],
    pub user: Option<UserView<'a>>,
    pub number: Option<u64>,
    pub user_selected: Option<bool>,
    pub large_blob_key: Option<&'a [u8]>,
}

/// A reply to getInfo (section 6.4), lent by the bytes that were read. Each member but two may be absent.
#[derive(Debug, Drop)]
pub struct KeyInfo<'a> {
    /// The versions that are supported, as `FIDO_2_0` and `U2F_V2`.
    pub versions: Vec<&'a str>,
    /// The extensions that are supported.
    pub extensions: Option<Vec<&'a str>>,
    /// The aaguid: 16 bytes.
    pub aaguid: &'a [u8],
    /// The options and their values, in the order of canonical keys.
    pub options: Option<Vec<(&'a str, bool)>>,
    /// How many bytes a message may have; where it is absent, 1,024.
    pub max_msg_size: Option<u64>,
    /// The PIN/UV auth protocols, the preferred one first.
    pub pin_uv_auth_protocols: Option<Vec<u64>>,
    /// How many descriptors a list may have.
    pub max_credential_count_in_list: Option<u64>,
    /// How many bytes a credential id may have.
    pub max_credential_id_length: Option<u64>,
    /// The transports, as `usb` and `nfc`.
    pub transports: Option<Vec<&'a str>>,
    /// The algorithms, the preferred one first.
    pub algorithms: Option<Vec<ParametersView<'a>>>,
    /// How many code points a PIN has at least.
    pub min_pin_length: Option<u64>,
    /// The version of the key's firmware.
    pub firmware_version: Option<u64>,
    /// How many discoverable credentials there is room for.
    pub remaining_discoverable_credentials: Option<u64>,
}

/// The last members of a reply to getInfo: those from transports on.
#[derive(Debug, Drop)]
pub(crate) struct InfoFeatures<'a> {
    pub transports: Option<Vec<&'a str>>,
    pub algorithms: Option<Vec<ParametersView<'a>>>,
    pub min_pin_length: Option<u64>,
    pub firmware_version: Option<u64>,
    pub remaining_discoverable_credentials: Option<u64>,
}

/// The members of a reply to getInfo after its options.
#[derive(Debug, Drop)]
pub(crate) struct InfoLimits<'a> {
    pub max_msg_size: Option<u64>,
    pub pin_uv_auth_protocols: Option<Vec<u64>>,
    pub max_credential_count_in_list: Option<u64>,
    pub max_credential_id_length: Option<u64>,
    pub features: InfoFeatures<'a>,
}
