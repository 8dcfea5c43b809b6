//! The members of a saved authenticator's maps.

ghost use Rattle.std.specs.Prelude.{◌≤◌, length};

use ccbor::ArrayView;
use cose::SigningAlg;

/// A credential that was saved, where it lies.
#[derive(Drop)]
pub(crate) struct SourceView<'a> {
    pub id: [u8; 32],
    pub rp_id: &'a str,
    pub user: &'a [u8],
    pub secret: [u8; 32],
    pub alg: SigningAlg,
    pub resident: bool,
    pub sign_count: u32,
    ghost user_low: { 1 ≤ length user.now },
    ghost user_high: { length user.now ≤ 64 },
}

/// The members of an authenticator's map.
#[derive(Drop)]
pub(crate) struct SavedMembers<'a> {
    pub aaguid: [u8; 16],
    pub uv: bool,
    pub self_signed: bool,
    pub credentials: ArrayView<'a>,
}
