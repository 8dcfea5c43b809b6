//! Permissions of a pinUvAuthToken, each a bit (CTAP 2.1, section 6.5.5.7).

/// mc: it is for makeCredential.
pub const MAKE_CREDENTIAL: u64 = 0x01;

/// ga: it is for getAssertion.
pub const GET_ASSERTION: u64 = 0x02;
