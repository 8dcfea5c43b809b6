//! Subcommands of authenticatorClientPIN (CTAP 2.1, section 6.5.5).

/// getPINRetries (6.5.5.2).
pub const GET_PIN_RETRIES: u64 = 0x01;

/// getKeyAgreement (6.5.5.4).
pub const GET_KEY_AGREEMENT: u64 = 0x02;

/// setPIN (6.5.5.5).
pub const SET_PIN: u64 = 0x03;

/// changePIN (6.5.5.6).
pub const CHANGE_PIN: u64 = 0x04;

/// getPinToken (6.5.5.7.1).
pub const GET_PIN_TOKEN: u64 = 0x05;

/// getPinUvAuthTokenUsingUvWithPermissions (6.5.5.7.3).
pub const GET_TOKEN_USING_UV: u64 = 0x06;

/// getUVRetries (6.5.5.3).
pub const GET_UV_RETRIES: u64 = 0x07;

/// getPinUvAuthTokenUsingPinWithPermissions (6.5.5.7.2).
pub const GET_TOKEN_USING_PIN: u64 = 0x09;
