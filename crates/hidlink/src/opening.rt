//! The client's way to a channel: CTAP 2.1 section 11.2.9.1.3.

ghost use Rattle.hidframe.specs.declared.ctaphid.TheConstants.{INIT_DATA_SIZE};
ghost use Rattle.std.specs.Prelude.{◌≡◌, ◌++◌, [], ◌∷◌, List, ℕ, length, MatchOption};
ghost use Rattle.hidframe.specs.declared.Packet.{Packet};
ghost use Rattle.hidframe.specs.Pieces.{frame_list};
ghost use Rattle.hidlink.specs.Opens.{Assigns, Heard, IsInitResponse, IsNoInitResponse, opened_channel};

use hidframe::ctaphid::{
    CAPABILITY_CBOR, CTAPHID_BROADCAST_CID, CTAPHID_INIT, CTAPHID_RESERVED_CID, PROTOCOL_VERSION,
};
use hidframe::{Head, Packet, packet_at};
use std::marker::Model;

/// What the packets so far gave.
#[derive(Clone, Copy, PartialEq, Eq, Debug)]
pub enum Opening {
    /// No response to the nonce.
    More,
    /// The channel that the device assigned, neither 0 nor 0xFFFFFFFF.
    Channel(u32),
}

/// The channel that these data bytes assign in response to the nonce.
fn assigned(nonce: &[u8; 8], bytes: &[u8]) -> Option<u32>
    requires { length bytes.now ≡ INIT_DATA_SIZE }
    ensures { MatchOption result ((c : ℕ) → Assigns nonce.now bytes.now c → ⊥) (λ c. Assigns nonce.now bytes.now c) }
{
    let cid = u32::from_be_bytes([bytes[8], bytes[9], bytes[10], bytes[11]]);
    if &bytes[..8] != nonce.as_slice() {
        return None;
    }
    if cid == CTAPHID_RESERVED_CID || cid == CTAPHID_BROADCAST_CID {
        return None;
    }
    if bytes[12] != PROTOCOL_VERSION || bytes[16] & CAPABILITY_CBOR == 0 {
        return None;
    }
    Some(cid)
}

/// The channel that this packet assigns in response to the nonce.
fn response(nonce: &[u8; 8], packet: &Packet) -> Option<u32>
    ensures { MatchOption result (IsNoInitResponse nonce.now packet.now) (λ c. IsInitResponse nonce.now packet.now c) }
{
    match packet.read() {
        Head::Init {
            cid: CTAPHID_BROADCAST_CID,
            cmd: CTAPHID_INIT,
            len: 17,
            bytes,
        } => assigned(nonce, bytes),
        Head::Init { .. } | Head::Cont { .. } => None,
    }
}

/// The channel after one more packet.
#[tactic(auto, using(crate::proofs::Hearing::heard_more, crate::proofs::Hearing::heard_now))]
fn channel_after(channel: Option<u32>, nonce: &[u8; 8], packet: &Packet) -> Option<u32>
    ensures { (ps : List Packet) → Heard nonce.now ps channel → Heard nonce.now (ps ++ packet.now ∷ []) result }
{
    match channel {
        Some(cid) => Some(cid),
        None => response(nonce, packet),
    }
}

/// Asks a device for a channel by an INIT on the broadcast channel, whose nonce of 8 bytes should be
/// random: it distinguishes the response from those to other clients. Takes no memory.
#[derive(Clone, Copy, Debug)]
pub struct Opener {
    nonce: [u8; 8],
    channel: Option<u32>,
}

impl Model for Opener {
    ghost use Rattle.hidlink.specs.Opens.{Asked};

    ghost Value = { Asked };

    ghost view = { λ o. record { nonce = o.nonce; channel = o.channel } };

    ghost inverse = { λ a. record { nonce = a.nonce; channel = a.channel } };
}

impl Opener {
    /// An opener that sends this nonce and has got no packet.
    pub fn new(nonce: [u8; 8]) -> Self
        ensures { result ≡ record { nonce = nonce; channel = None } }
    {
        Opener {
            nonce,
            channel: None,
        }
    }

    /// The packet to send: an INIT of the nonce on the broadcast channel.
    #[tactic(auto, using(crate::proofs::Hearing::first_packet_is, crate::proofs::Hearing::one_packet))]
    pub fn request(&self) -> Packet
        ensures { frame_list CTAPHID_BROADCAST_CID CTAPHID_INIT self.now.nonce ≡ result ∷ [] }
    {
        packet_at(CTAPHID_BROADCAST_CID, CTAPHID_INIT, &self.nonce, 0).unwrap()
    }

    /// Takes a packet: [`Opening::Channel`] from the first response to the nonce on, which is an INIT of
    /// 17 bytes on the broadcast channel whose data begin with the nonce, whose channel is neither 0 nor
    /// 0xFFFFFFFF, whose protocol version is 2 and whose capabilities have 0x04. All other packets are
    /// passed over.
    pub fn feed(&mut self, packet: &Packet) -> Opening
        ensures heard { (ps : List Packet) → Heard self.old.nonce ps self.old.channel
            → Heard self.old.nonce (ps ++ packet.now ∷ []) self.new.channel }
        ensures tells { opened_channel result ≡ self.new.channel }
        ensures nonce { self.new.nonce ≡ self.old.nonce }
    {
        self.channel = channel_after(self.channel, &self.nonce, packet);
        match self.channel {
            None => Opening::More,
            Some(cid) => Opening::Channel(cid),
        }
    }
}
