//! Requests of authenticatorClientPIN (CTAP 2.1, section 6.5.5).

/// A point of P-256: the public key of a key agreement (CTAP 2.1, section 6.5.6).
#[derive(Clone, Copy, Debug, Drop)]
pub struct Point<'a> {
    /// The coordinate x: 32 bytes.
    pub x: &'a [u8],
    /// The coordinate y: 32 bytes.
    pub y: &'a [u8],
}

/// A subcommand (CTAP 2.1, section 6.5.5), with what it takes beside the protocol.
#[derive(Clone, Copy, Debug, Drop)]
pub enum PinCommand<'a> {
    /// getPINRetries (6.5.5.2).
    PinRetries,
    /// getKeyAgreement (6.5.5.4).
    KeyAgreement,
    /// setPIN (6.5.5.5): the client's public key, pinUvAuthParam, newPinEnc.
    SetPin(Point<'a>, &'a [u8], &'a [u8]),
    /// changePIN (6.5.5.6): the client's public key, pinUvAuthParam, newPinEnc, pinHashEnc.
    ChangePin(Point<'a>, &'a [u8], &'a [u8], &'a [u8]),
    /// getPinToken (6.5.5.7.1): the client's public key, pinHashEnc.
    PinToken(Point<'a>, &'a [u8]),
    /// getPinUvAuthTokenUsingUvWithPermissions (6.5.5.7.3): the client's public key, permissions, rpId.
    TokenByUv(Point<'a>, u64, Option<&'a str>),
    /// getUVRetries (6.5.5.3).
    UvRetries,
    /// getPinUvAuthTokenUsingPinWithPermissions (6.5.5.7.2): the client's public key, pinHashEnc, permissions, rpId.
    TokenByPin(Point<'a>, &'a [u8], u64, Option<&'a str>),
}

/// The members of a request.
#[derive(Clone, Copy, Debug, Drop)]
pub(crate) struct PinMembers<'a> {
    pub protocol: u64,
    pub subcommand: u64,
    pub key: Option<Point<'a>>,
    pub param: Option<&'a [u8]>,
    pub new_pin: Option<&'a [u8]>,
    pub pin_hash: Option<&'a [u8]>,
    pub permissions: Option<u64>,
    pub rp_id: Option<&'a str>,
}
