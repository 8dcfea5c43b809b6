//! Authenticator data.

ghost use Rattle.std.specs.Prelude.{◌≡◌, ◌≤◌, length, is_some, false};
ghost use Rattle.authdata.specs.Flags.{is_set, HasBackup, AT, ED};

use cose::{CoseKey, KeyView};

/// Attested credential data (WebAuthn section 6.5.1): what an authenticator says of a credential
/// that it made.
#[derive(Debug, Drop)]
pub struct Attested {
    /// The kind of the authenticator.
    pub aaguid: [u8; 16],
    /// The credential id, of 1 to 64 bytes.
    pub id: Vec<u8>,
    /// The credential's public key.
    pub key: CoseKey,
    ghost id_low: { 1 ≤ length id.items },
    ghost id_high: { length id.items ≤ 64 },
}

/// Authenticator data (WebAuthn section 6.1) of the strict profile: what an authenticator says of a ceremony. It has
/// no extensions.
#[derive(Debug, Drop)]
pub struct AuthData {
    /// SHA-256 of the relying party's id.
    pub rp_id_hash: [u8; 32],
    /// The flags, by the bits of `flags`; the reserved ones are kept as they came. `AT` is set
    /// exactly if a credential is attested, `ED` is clear, and `BS` is set only with `BE`.
    pub flags: u8,
    /// The signature counter.
    pub sign_count: u32,
    /// The attested credential, if there is one.
    pub attested: Option<Attested>,
    ghost attested_flag: { is_set flags AT ≡ is_some attested },
    ghost no_extensions: { is_set flags ED ≡ false },
    ghost backup: { HasBackup flags },
}

/// Attested credential data, read where they lie.
#[derive(Clone, Copy, Debug, Drop)]
pub struct AttestedView<'a> {
    /// The kind of the authenticator.
    pub aaguid: [u8; 16],
    /// The credential id, of 1 byte to as many as the profile has.
    pub id: &'a [u8],
    /// The credential's public key.
    pub key: KeyView<'a>,
}

/// Authenticator data, read where they lie: the members of `AuthData`, and the extensions.
#[derive(Clone, Copy, Debug, Drop)]
pub struct AuthView<'a> {
    /// SHA-256 of the relying party's id.
    pub rp_id_hash: [u8; 32],
    /// The flags, as in `AuthData`; `ED` is set exactly if there are extensions.
    pub flags: u8,
    /// The signature counter.
    pub sign_count: u32,
    /// The attested credential, if there is one.
    pub attested: Option<AttestedView<'a>>,
    /// The extensions, if there are any: one map of canonical CBOR with text keys, which `ccbor::View` reads. The
    /// strict profile has none.
    pub extensions: Option<&'a [u8]>,
}
