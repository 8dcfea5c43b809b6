//! The trees of a store that holds a relying party's credentials, by their numbers.

/// The table of credentials.
pub const CREDENTIAL_TREE: u32 = 0;

/// The index of its column id.
pub const ID_TREE: u32 = 3;

/// The index of its column user_handle.
pub const USER_TREE: u32 = 4;

/// The table of details.
pub const DETAIL_TREE: u32 = 5;
