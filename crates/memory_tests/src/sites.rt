//! The site of a relying party, where one user has an account.

use site::{Policy, Site};
use std::alloc::Global;

/// A relying party: its id, and the origin of its pages.
#[derive(Clone, Copy, Drop)]
pub struct Rp {
    pub id: &'static str,
    pub origin: &'static str,
}

/// The relying party.
pub const HERE: Rp = Rp {
    id: "example.org",
    origin: "https://login.example.org",
};

/// The account.
pub const USER: &[u8] = b"user-17";

/// Both attestation types are accepted.
pub const POLICY: Policy = Policy {
    accept_none: true,
    accept_self: true,
};

/// The site of a relying party.
pub fn site_of(alloc: Global, rp: &Rp) -> Option<Site> {
    Site::new(alloc, rp.id, &[rp.origin], POLICY).ok()
}

/// What is saved of a site.
pub fn saved(alloc: Global, site: &Site) -> Option<Vec<u8>> {
    let mut bytes = Vec::new(alloc);
    site.save(&mut bytes).ok()?;
    Some(bytes)
}
