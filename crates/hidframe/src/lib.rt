//! Packets and frames of CTAPHID: section 11.2.4 of CTAP 2.1, "Message and packet structure".
#![tactic(auto)]

pub mod ctaphid;
mod frames;
mod law;

pub use frames::{Frames, TooLong, frame, one_frame_list, packet_at, packet_count};
pub use law::protocol_numbers;

/// A CTAPHID packet: 64 bytes, as one HID report carries them.
#[derive(Clone, Copy, PartialEq, Eq, Debug)]
pub struct Packet(pub [u8; 64]);

/// The fields of a packet (CTAP 2.1 section 11.2.4). `cid` is its channel. Numbers are big-endian.
#[derive(Clone, Copy, Drop)]
pub enum Head<'a> {
    /// An initial packet, whose byte after the channel is at least 0x80: the low seven bits of that
    /// byte are the command `cmd`, 0 to 127; then come the payload's length in bytes, as the sender
    /// says it, and 57 data bytes.
    Init {
        cid: u32,
        cmd: u8,
        len: u16,
        bytes: &'a [u8],
    },
    /// A continuation packet: its sequence number `seq`, 0 to 127, and 59 data bytes.
    Cont {
        cid: u32,
        seq: u8,
        bytes: &'a [u8],
    },
}

impl Packet {
    ghost use Rattle.hidframe.specs.Packets.{HasArea, IsPacket, Says, fields};

    /// The fields of the packet. Each packet has some, so nothing is refused; no memory is taken.
    #[tactic(auto, unfolding(crate::specs::Packets::fields))]
    pub fn read(&self) -> Head<'_>
        ensures says { Says result (fields self.now) }
        ensures area { HasArea result }
        ensures whole { IsPacket self.now }
    {
        let bytes = &self.0[..];
        let cid = u32::from_be_bytes([bytes[0], bytes[1], bytes[2], bytes[3]]);
        if bytes[4] < 128 {
            Head::Cont {
                cid,
                seq: bytes[4],
                bytes: &bytes[5..],
            }
        } else {
            Head::Init {
                cid,
                cmd: bytes[4] - 128,
                len: u16::from_be_bytes([bytes[5], bytes[6]]),
                bytes: &bytes[7..],
            }
        }
    }
}
