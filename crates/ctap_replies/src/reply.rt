//! Replies (CTAP 2.1, sections 6.1, 6.2, 6.3, 6.4 and 6.6).

use ccbor::Value;

/// The command that a reply answers.
#[derive(Clone, Copy, Debug, PartialEq, Eq, Drop)]
pub enum Kind {
    /// A credential was to be made.
    MakeCredential,
    /// An assertion was asked for.
    GetAssertion,
    /// The next assertion was asked for.
    GetNextAssertion,
    /// Information was asked for.
    GetInfo,
    /// All credentials were to be removed.
    Reset,
}

/// A reply to makeCredential (CTAP 2.1, section 6.1.2): an attestation object's parts.
#[derive(Debug, Drop)]
pub struct CreationReply {
    /// The attestation statement's format.
    pub fmt: String,
    /// The authenticator data.
    pub auth_data: Vec<u8>,
    /// The attestation statement, a map.
    pub statement: Value,
}

/// A reply to getAssertion or getNextAssertion (CTAP 2.1, sections 6.2.2 and 6.3).
#[derive(Debug, Drop)]
pub struct AssertionReply {
    /// The credential id: 1 to 64 bytes.
    pub credential: Vec<u8>,
    /// The authenticator data.
    pub auth_data: Vec<u8>,
    /// The signature.
    pub signature: Vec<u8>,
    /// The user handle: 1 to 64 bytes.
    pub user: Option<Vec<u8>>,
    /// How many credentials there are, at least 2; a reply to getNextAssertion never has it.
    pub number: Option<u64>,
}

/// A reply to getAssertion or getNextAssertion whose members are lent: by the bytes that were read, or by who writes it.
#[derive(Clone, Copy, Debug, Drop)]
pub struct AssertionView<'a> {
    /// The credential id: 1 to 64 bytes.
    pub credential: &'a [u8],
    /// The authenticator data.
    pub auth_data: &'a [u8],
    /// The signature.
    pub signature: &'a [u8],
    /// The user handle: 1 to 64 bytes.
    pub user: Option<&'a [u8]>,
    /// How many credentials there are, at least 2; a reply to getNextAssertion never has it.
    pub number: Option<u64>,
}

/// A reply to getInfo (CTAP 2.1, section 6.4).
#[derive(Debug, Drop)]
pub struct InfoReply {
    /// The versions that are supported.
    pub versions: Vec<String>,
    /// The aaguid: 16 bytes.
    pub aaguid: Vec<u8>,
    /// The options and their values, in the order of canonical keys.
    pub options: Vec<(String, bool)>,
    /// How many bytes a message may have.
    pub max_msg_size: u64,
    /// How many descriptors a list may have.
    pub max_credential_count_in_list: u64,
    /// How many bytes a credential id may have.
    pub max_credential_id_length: u64,
}

/// A reply whose status is 0.
#[derive(Debug, Drop)]
pub enum Reply {
    /// A credential was made.
    MakeCredential(CreationReply),
    /// An assertion.
    GetAssertion(AssertionReply),
    /// The next assertion.
    GetNextAssertion(AssertionReply),
    /// What the authenticator is.
    GetInfo(InfoReply),
    /// All credentials were removed.
    Reset,
}
