//! The order in which a device judges an initial packet: CTAP 2.1 section 11.2.5, where it leaves the
//! order open this project's own.

ghost use Rattle.std.specs.Prelude.{◌≡◌, ◌⊎◌, unwrap_or};
ghost use Rattle.refusal_order.specs.Lines.{first_true};
ghost use Rattle.hidlink.specs.Ranks.{choices};

use hidframe::ctaphid::{
    CTAPHID_BROADCAST_CID, CTAPHID_CANCEL, CTAPHID_CBOR, CTAPHID_INIT, CTAPHID_PING,
    CTAPHID_RESERVED_CID, ERR_CHANNEL_BUSY, ERR_INVALID_CHANNEL, ERR_INVALID_CMD, ERR_INVALID_LEN,
    ERR_OTHER, MAX_PAYLOAD_SIZE,
};

/// The most channels of one device.
pub const MAX_CHANNELS: u32 = 65_535;

/// What is to be done with an initial packet.
#[derive(Clone, Copy)]
pub enum Arbitration {
    /// An ERROR of this code is sent.
    Refused(u8),
    /// The next channel is handed out.
    NewChannel,
    /// What stands on the channel ends, and the channel begins anew.
    ChannelAnew,
    /// The message that comes in on the channel is broken.
    Interrupted,
    /// The request that the device works on is to be given up.
    Cancelled,
    /// Nothing.
    Ignored,
    /// The message begins.
    Begins,
}

/// The choice for an initial packet, where `channels` were handed out, the device is `busy` or not, and
/// it is receiving or working on this channel or not.
pub fn arbitrate(
    channels: u32,
    busy: bool,
    receiving: bool,
    working: bool,
    cid: u32,
    cmd: u8,
    len: u16,
) -> Arbitration
    ensures { result ≡ unwrap_or (first_true (choices channels busy receiving working cid cmd len)) Arbitration.Begins }
{
    let broadcast = cid == CTAPHID_BROADCAST_CID;
    if cid == CTAPHID_RESERVED_CID || (cid > channels && !broadcast) {
        Arbitration::Refused(ERR_INVALID_CHANNEL)
    } else if broadcast && cmd != CTAPHID_INIT {
        Arbitration::Refused(ERR_INVALID_CHANNEL)
    } else if cmd == CTAPHID_INIT && len != 8 {
        Arbitration::Refused(ERR_INVALID_LEN)
    } else if cmd == CTAPHID_INIT && broadcast && busy {
        Arbitration::Refused(ERR_CHANNEL_BUSY)
    } else if cmd == CTAPHID_INIT && broadcast && channels == MAX_CHANNELS {
        Arbitration::Refused(ERR_OTHER)
    } else if cmd == CTAPHID_INIT && broadcast {
        Arbitration::NewChannel
    } else if cmd == CTAPHID_INIT && busy && !(receiving || working) {
        Arbitration::Refused(ERR_CHANNEL_BUSY)
    } else if cmd == CTAPHID_INIT {
        Arbitration::ChannelAnew
    } else {
        arbitrate_message(busy, receiving, working, cmd, len)
    }
}

/// The choice for an initial packet of another command than INIT on an assigned channel.
fn arbitrate_message(busy: bool, receiving: bool, working: bool, cmd: u8, len: u16) -> Arbitration
    ensures { cmd ≡ 6 ⊎ (result ≡ unwrap_or (first_true (choices 1 busy receiving working 1 cmd len)) Arbitration.Begins) }
{
    if receiving {
        Arbitration::Interrupted
    } else if cmd == CTAPHID_CANCEL && working {
        Arbitration::Cancelled
    } else if cmd == CTAPHID_CANCEL {
        Arbitration::Ignored
    } else if busy {
        Arbitration::Refused(ERR_CHANNEL_BUSY)
    } else if cmd != CTAPHID_PING && cmd != CTAPHID_CBOR {
        Arbitration::Refused(ERR_INVALID_CMD)
    } else if usize::from(len) > MAX_PAYLOAD_SIZE || (cmd == CTAPHID_CBOR && len == 0) {
        Arbitration::Refused(ERR_INVALID_LEN)
    } else {
        Arbitration::Begins
    }
}
