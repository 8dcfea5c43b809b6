//! What a call is handed, and what it answers.

use pin_protocols::Ask;

/// Words that a host hands to a request of clientPIN, new for each: a key pair of P-256, and a token. They are taken where
/// the request wants them, and are nothing else's later.
#[derive(Clone, Copy, Debug, Drop)]
pub struct PinWords {
    /// What stands for the private key: the host is asked for products by it.
    pub secret: [u8; 32],
    /// The public key's coordinate x.
    pub x: [u8; 32],
    /// The public key's coordinate y.
    pub y: [u8; 32],
    /// The token: random bytes.
    pub token: [u8; 32],
}

/// What comes of a request of clientPIN.
#[derive(Debug, Drop)]
pub enum PinStep {
    /// The host is asked for this: the call is to be made again with its answer, for the same request and with the same words.
    Asks(Ask),
    /// The reply: a status, and what is answered.
    Replies(Vec<u8>),
}

/// Whether a token grants a request.
#[derive(Debug, Drop)]
pub enum Grant {
    /// The host is asked for this: the call is to be made again with its answer.
    Asks(Ask),
    /// The user was verified for this request.
    Granted,
    /// The request is refused by this status (CTAP 2.1, section 8.2).
    Refused(u8),
}
