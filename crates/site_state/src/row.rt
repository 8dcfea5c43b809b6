//! What a table keeps of a credential.

use cose::CoseKey;

/// A registered credential.
#[derive(Debug, Drop)]
pub struct Row {
    /// The credential id: 1 to 64 bytes, or in the open profile to 1,023.
    pub id: Vec<u8>,
    /// The user handle, which names the account: 1 to 64 bytes.
    pub user: Vec<u8>,
    /// The public key.
    pub key: CoseKey,
    /// The signature counter last received.
    pub sign_count: u32,
    /// Whether the credential is eligible for backup, where that is known.
    pub eligible: Option<bool>,
    /// Whether the credential is retired: it signs in no more, and its id stays taken.
    pub retired: bool,
}

/// What the table keeps by a credential's id.
#[derive(Debug, Drop)]
pub(crate) struct StoredRow {
    pub(crate) user: Vec<u8>,
    pub(crate) key: CoseKey,
    pub(crate) sign_count: u32,
    pub(crate) eligible: Option<bool>,
    pub(crate) retired: bool,
}
