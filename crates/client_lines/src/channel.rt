//! The channel of an act: packets in, replies out.

ghost use Rattle.std.specs.Prelude.{◌≡◌, ◌++◌, [], ◌∷◌, IfOk, List};
ghost use Rattle.hidframe.specs.declared.Packet.{Packet};
ghost use Rattle.hidframe.specs.Frames.{TheZeroFrames};
ghost use Rattle.hidlink.specs.Feeds.{CollectorAnswers};
ghost use Rattle.hidlink.specs.Wire.{Got};
ghost use Rattle.client_lines.specs.Packets.{IsCarried};

use crate::refused::Refused;
use hidframe::ctaphid::{CTAPHID_CANCEL, CTAPHID_CBOR, CTAPHID_KEEPALIVE, STATUS_UPNEEDED};
use hidframe::{Head, Packet, frame};
use hidlink::{Collector, Ended, Outcome};
use std::alloc::{AllocError, Global};
use std::marker::Model;

/// A channel that the key assigned. A contract sees its number and what it has collected.
#[derive(Drop)]
pub(crate) struct Channel {
    cid: u32,
    collector: Collector,
}

impl Model for Channel {
    ghost use Rattle.std.specs.Prelude.{◌≡◌};
    ghost use Rattle.hidlink.specs.Collected.{Collected};

    ghost Value = { Collected };

    ghost view = { λ c. c.collector };

    ghost invariant = { λ c. c.collector.cid ≡ c.cid };
}

/// What a packet gave.
#[derive(Debug, Drop)]
pub(crate) enum Fed {
    /// Nothing for the channel, or a part of a reply.
    More,
    /// The key is at work.
    Processing,
    /// The user is to touch the key.
    Touch,
    /// The whole reply.
    Reply(Vec<u8>),
}

/// What a packet on the channel says where it is no part of a reply.
fn keepalive(cid: u32, packet: &Packet) -> Fed
    ensures { (ps : List Packet) → IsCarried cid ps result }
{
    match packet.read() {
        Head::Init {
            cid: on,
            cmd: CTAPHID_KEEPALIVE,
            bytes: &[status, ..],
            ..
        } if on == cid => {
            if status == STATUS_UPNEEDED {
                Fed::Touch
            } else {
                Fed::Processing
            }
        }
        _ => Fed::More,
    }
}

/// What the collector's answer to a packet says.
#[tactic(auto, using(crate::proofs::Packets::carried_reply))]
fn said(
    alloc: Global,
    cid: u32,
    packet: &Packet,
    came: Result<Outcome<'_>, Ended>,
) -> Result<Fed, Refused>
    ensures { (ps : List Packet) → CollectorAnswers cid ps packet.now came.entry → IfOk result (IsCarried cid (ps ++ packet.now ∷ [])) }
{
    match came {
        Ok(Outcome::More) => Ok(keepalive(cid, packet)),
        Ok(Outcome::Reply(message)) => Ok(Fed::Reply(Vec::from_slice(alloc, message)?)),
        Ok(Outcome::DeviceError(code)) => Err(Refused::DeviceError(code)),
        Ok(Outcome::Dead(_)) | Err(_) => Err(Refused::ChannelDead),
    }
}

impl Channel {
    /// The channel of this number.
    pub(crate) fn new(alloc: Global, cid: u32) -> Result<Channel, AllocError>
        ensures channel { IfOk result (λ c. c.cid ≡ cid) }
        ensures got { IfOk result (λ c. Got cid [] c.shown) }
    {
        Ok(Channel {
            cid,
            collector: Collector::new(alloc, cid)?,
        })
    }

    /// The packets of a message; the next reply is that to it.
    pub(crate) fn send(&mut self, alloc: Global, message: &[u8]) -> Result<Vec<Packet>, Refused>
        ensures frames { IfOk result (λ packets. TheZeroFrames self.old.cid CTAPHID_CBOR message.now packets.items) }
        ensures channel { self.new.cid ≡ self.old.cid }
        ensures got { Got self.old.cid [] self.new.shown }
    {
        self.collector.restart(self.cid);
        match frame(self.cid, CTAPHID_CBOR, message) {
            Ok(frames) => Ok(frames.collect(alloc)?),
            Err(_) => Err(Refused::Unfit),
        }
    }

    /// The packets that cancel what the key works on.
    pub(crate) fn cancel(&self, alloc: Global) -> Result<Vec<Packet>, Refused>
        ensures { IfOk result (λ packets. TheZeroFrames self.now.cid CTAPHID_CANCEL [] packets.items) }
    {
        match frame(self.cid, CTAPHID_CANCEL, &[]) {
            Ok(frames) => Ok(frames.collect(alloc)?),
            Err(_) => Err(Refused::Unfit),
        }
    }

    /// Takes a packet.
    pub(crate) fn take(&mut self, alloc: Global, packet: &Packet) -> Result<Fed, Refused>
        ensures carried { (ps : List Packet) → Got self.old.cid ps self.old.shown
            → IfOk result (IsCarried self.old.cid (ps ++ packet.now ∷ [])) }
        ensures channel { self.new.cid ≡ self.old.cid }
        ensures got { (ps : List Packet) → Got self.old.cid ps self.old.shown → Got self.old.cid (ps ++ packet.now ∷ []) self.new.shown }
    {
        let came = self.collector.feed(packet);
        said(alloc, self.cid, packet, came)
    }
}
