//! The trees of a site's store beside those of its credentials, by their numbers.

/// The table of the relying party.
pub const SITE_TREE: u32 = 2;

/// The table of marks.
pub const MARK_TREE: u32 = 6;

/// The table of the key under which sessions are sealed.
pub const KEY_TREE: u32 = 7;

/// The table of sessions that have ended.
pub const ENDED_SESSION_TREE: u32 = 8;

/// The table of users whose registrations have ended.
pub const ENDED_USER_TREE: u32 = 9;
