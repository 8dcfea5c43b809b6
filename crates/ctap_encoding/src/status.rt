//! Status bytes (CTAP 2.1, section 8.2), under the standard's names. An authenticator sends each as the
//! first byte of a reply. Where reading a request gives one, it is the reply to a
//! request that can't be read; the others are the authenticator's own answers to one that was.

/// Success: sent by each command that was carried out.
pub const OK: u8 = 0x00;

/// The command is not one of these: sent for a request that is refused as it is read.
pub const INVALID_COMMAND: u8 = 0x01;

/// A parameter is invalid: sent for a request that is refused as it is read.
pub const INVALID_PARAMETER: u8 = 0x02;

/// A member is of another type: sent for a request that is refused as it is read.
pub const CBOR_UNEXPECTED_TYPE: u8 = 0x11;

/// The encoding is not canonical CBOR: sent for a request that is refused as it is read.
pub const INVALID_CBOR: u8 = 0x12;

/// A required member is missing: sent for a request that is refused as it is read.
pub const MISSING_PARAMETER: u8 = 0x14;

/// A limit is exceeded: sent for a request that is refused as it is read.
pub const LIMIT_EXCEEDED: u8 = 0x15;

/// A credential of the exclude list is stored: sent by makeCredential.
pub const CREDENTIAL_EXCLUDED: u8 = 0x19;

/// No algorithm of the request is supported: sent by makeCredential.
pub const UNSUPPORTED_ALGORITHM: u8 = 0x26;

/// The user's presence or verification was asked for and isn't given: sent by makeCredential,
/// getAssertion and reset.
pub const OPERATION_DENIED: u8 = 0x27;

/// No room is left for credentials: sent by makeCredential.
pub const KEY_STORE_FULL: u8 = 0x28;

/// An option can't be met, as `uv` where no verification is configured: sent by makeCredential and
/// getAssertion.
pub const INVALID_OPTION: u8 = 0x2c;

/// The operation was cancelled: sent by makeCredential and getAssertion, after a CTAPHID_CANCEL.
pub const KEEPALIVE_CANCEL: u8 = 0x2d;

/// No credential of the relying party is there: sent by getAssertion.
pub const NO_CREDENTIALS: u8 = 0x2e;

/// No assertion is remembered: sent by getNextAssertion.
pub const NOT_ALLOWED: u8 = 0x30;

/// The PIN is wrong: sent by clientPIN; and for an empty pinUvAuthParam where a PIN is set.
pub const PIN_INVALID: u8 = 0x31;

/// No retry is left: sent by clientPIN.
pub const PIN_BLOCKED: u8 = 0x32;

/// A pinUvAuthParam or a token is not that of the request: sent by clientPIN, makeCredential and getAssertion.
pub const PIN_AUTH_INVALID: u8 = 0x33;

/// Three wrong PINs in a row, and no try before the next power cycle: sent by clientPIN.
pub const PIN_AUTH_BLOCKED: u8 = 0x34;

/// No PIN is set: sent by clientPIN; and for an empty pinUvAuthParam.
pub const PIN_NOT_SET: u8 = 0x35;

/// A token is needed: sent by makeCredential where a PIN is set.
pub const PUAT_REQUIRED: u8 = 0x36;

/// The new PIN is too short or too long: sent by clientPIN.
pub const PIN_POLICY_VIOLATION: u8 = 0x37;

/// The subcommand is none of these: sent by clientPIN.
pub const INVALID_SUBCOMMAND: u8 = 0x3e;

/// A permission is asked for that is not given here: sent by clientPIN.
pub const UNAUTHORIZED_PERMISSION: u8 = 0x40;

/// Another fault, as a counter at its end, or an answer of the host of another size: sent by makeCredential, getAssertion,
/// getNextAssertion and clientPIN.
pub const OTHER: u8 = 0x7f;
