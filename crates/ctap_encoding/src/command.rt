//! Command bytes (CTAP 2.1, section 6): the first byte of a request.

/// The command byte of authenticatorMakeCredential (section 6.1).
pub const MAKE_CREDENTIAL: u8 = 0x01;

/// The command byte of authenticatorGetAssertion (section 6.2).
pub const GET_ASSERTION: u8 = 0x02;

/// The command byte of authenticatorGetInfo (section 6.4).
pub const GET_INFO: u8 = 0x04;

/// The command byte of authenticatorClientPIN (section 6.5).
pub const CLIENT_PIN: u8 = 0x06;

/// The command byte of authenticatorReset (section 6.6).
pub const RESET: u8 = 0x07;

/// The command byte of authenticatorGetNextAssertion (section 6.3).
pub const GET_NEXT_ASSERTION: u8 = 0x08;
