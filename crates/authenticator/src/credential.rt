//! A stored credential.

ghost use Rattle.std.specs.Prelude.{◌≡◌, ◌≤◌, length, string_bytes};
ghost use Rattle.sha2.specs.Sha256.{sha256};

use cose::SigningAlg;

/// A public key credential source (WebAuthn Level 2, section 4).
#[derive(Drop)]
pub(crate) struct StoredCredential {
    /// Its id.
    pub id: [u8; 32],
    /// The id of its relying party.
    pub rp_id: String,
    /// The hash of that id, which each assertion has.
    pub rp_id_hash: [u8; 32],
    /// The user handle: 1 to 64 bytes.
    pub user: Vec<u8>,
    /// The secret of its key.
    pub secret: [u8; 32],
    /// The key's algorithm.
    pub alg: SigningAlg,
    /// Whether it is resident (discoverable).
    pub resident: bool,
    /// The signature counter: that of its last assertion, or 0.
    pub sign_count: u32,
    ghost hashed: { rp_id_hash ≡ sha256 (string_bytes rp_id) },
    ghost user_low: { 1 ≤ length user.items },
    ghost user_high: { length user.items ≤ 64 },
}
