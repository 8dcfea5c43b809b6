//! The numbers of CTAPHID under the names of CTAP 2.1 section 11.2.

/// The bytes of a packet: a full-speed HID report (section 11.2.4).
pub const PACKET_SIZE: usize = 64;
/// The data bytes of an initial packet (section 11.2.4).
pub const INIT_DATA_SIZE: usize = 57;
/// The data bytes of a continuation packet (section 11.2.4).
pub const CONT_DATA_SIZE: usize = 59;
/// The most bytes of a payload: one initial packet and 128 continuations (section 11.2.4).
pub const MAX_PAYLOAD_SIZE: usize = 7609;

/// The channel on which a client asks for a channel of its own (section 11.2.3).
pub const CTAPHID_BROADCAST_CID: u32 = 0xFFFF_FFFF;
/// The channel that is never handed out (section 11.2.3).
pub const CTAPHID_RESERVED_CID: u32 = 0;

/// Sends the payload back (section 11.2.9.1.4).
pub const CTAPHID_PING: u8 = 0x01;
/// A CTAP1 message (section 11.2.9.1.1).
pub const CTAPHID_MSG: u8 = 0x03;
/// Locks the channel (section 11.2.9.2.2).
pub const CTAPHID_LOCK: u8 = 0x04;
/// Asks for a channel, or begins one anew (section 11.2.9.1.3).
pub const CTAPHID_INIT: u8 = 0x06;
/// Blinks (section 11.2.9.2.1).
pub const CTAPHID_WINK: u8 = 0x08;
/// A CTAP2 request or reply (section 11.2.9.1.2).
pub const CTAPHID_CBOR: u8 = 0x10;
/// Cancels the request of the channel (section 11.2.9.1.5).
pub const CTAPHID_CANCEL: u8 = 0x11;
/// Says that the device still works on a request (section 11.2.9.1.7).
pub const CTAPHID_KEEPALIVE: u8 = 0x3B;
/// Says that a request failed (section 11.2.9.1.6).
pub const CTAPHID_ERROR: u8 = 0x3F;

/// The command in the request is unknown (section 11.2.9.1.6).
pub const ERR_INVALID_CMD: u8 = 0x01;
/// A parameter is invalid (section 11.2.9.1.6).
pub const ERR_INVALID_PAR: u8 = 0x02;
/// The length is invalid for the command (section 11.2.9.1.6).
pub const ERR_INVALID_LEN: u8 = 0x03;
/// A sequence number is wrong (section 11.2.9.1.6).
pub const ERR_INVALID_SEQ: u8 = 0x04;
/// The message took too long (section 11.2.9.1.6).
pub const ERR_MSG_TIMEOUT: u8 = 0x05;
/// The device is busy on another transaction (section 11.2.9.1.6).
pub const ERR_CHANNEL_BUSY: u8 = 0x06;
/// The channel isn't one to send this on (section 11.2.9.1.6).
pub const ERR_INVALID_CHANNEL: u8 = 0x0B;
/// Another error (section 11.2.9.1.6).
pub const ERR_OTHER: u8 = 0x7F;

/// A keepalive's status: the device works on the request (section 11.2.9.1.7).
pub const STATUS_PROCESSING: u8 = 1;
/// A keepalive's status: the device waits for the user's presence (section 11.2.9.1.7).
pub const STATUS_UPNEEDED: u8 = 2;

/// The CTAPHID protocol version (section 11.2.9.1.3).
pub const PROTOCOL_VERSION: u8 = 2;
/// The capability of winking (section 11.2.9.1.3).
pub const CAPABILITY_WINK: u8 = 0x01;
/// The capability of CTAPHID_CBOR (section 11.2.9.1.3).
pub const CAPABILITY_CBOR: u8 = 0x04;
/// The lack of CTAPHID_MSG (section 11.2.9.1.3).
pub const CAPABILITY_NMSG: u8 = 0x08;
