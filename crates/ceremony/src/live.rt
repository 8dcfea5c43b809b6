//! A ceremony's packets, one at a time.

ghost use Rattle.std.specs.Prelude.{◌≡◌, ◌<◌, ◌+◌, ◌^◌, ◌++◌, [], ◌∷◌, List, ℕ, IfErr, IfOk, OnErr};
ghost use Rattle.hidframe.specs.declared.Packet.{Packet};
ghost use Rattle.hidlink.specs.Feeds.{CollectorAnswers};
ghost use Rattle.hidlink.specs.Wire.{Got};
ghost use Rattle.ceremony.specs.Packets as packets;
ghost use Rattle.ceremony.specs.Packets.{HasGot};
ghost use Rattle.ceremony.specs.Verdict.{Delivers, Undelivered};

use crate::error::Error;
use hidframe::Packet;
use hidlink::{Collector, Ended, Outcome, feed_all};
use std::alloc::{AllocError, Global};
use std::marker::Model;

/// Whether more packets are wanted.
#[derive(Clone, Copy, Debug, PartialEq, Eq, Drop)]
pub enum Fed {
    /// More packets are wanted.
    More,
    /// A message is complete, or none can come any more.
    Ready,
}

/// A ceremony whose packets come one at a time. It makes room for one message, of at most 7,609 bytes, when it is made.
#[derive(Drop)]
pub struct Live {
    pub(crate) collector: Collector,
    pub(crate) taken: u64,
}

impl Model for Live {
    ghost use Rattle.std.specs.Prelude.{List};
    ghost use Rattle.hidframe.specs.declared.Packet.{Packet};
    ghost use Rattle.ceremony.specs.Packets.{LiveState, HasGot};

    ghost Value = { LiveState };

    ghost view = { λ l. record { cid = l.collector.cid; shown = l.collector.shown; taken = l.taken } };

    ghost invariant = { λ l. (ps : List Packet) × HasGot (record { cid = l.collector.cid; shown = l.collector.shown; taken = l.taken }) ps };
}

/// Hands a packet to a collector.
fn collect(collector: &mut Collector, packet: &Packet) -> Result<Fed, Ended>
    ensures channel { collector.new.cid ≡ collector.old.cid }
    ensures got { (ps : List Packet) → Got collector.old.cid ps collector.old.shown
        → Got collector.old.cid (ps ++ packet.now ∷ []) collector.new.shown }
    ensures answer { (ps : List Packet) → Got collector.old.cid ps collector.old.shown
        → packets.LiveAnswers collector.old.cid ps packet.now result }
{
    match collector.feed(packet) {
        Ok(outcome) => match outcome {
            Outcome::More => Ok(Fed::More),
            _ => Ok(Fed::Ready),
        },
        Err(ended) => Err(ended),
    }
}

impl Live {
    /// A ceremony on channel `cid`. Takes the memory that its packets need.
    pub fn new(alloc: Global, cid: u32) -> Result<Self, AllocError>
        ensures channel { IfOk result (λ l. l.cid ≡ cid) }
        ensures got { IfOk result (λ l. HasGot l []) }
    {
        Ok(Live {
            collector: Collector::new(alloc, cid)?,
            taken: 0,
        })
    }

    /// Begins anew, on channel `cid`, in the room that it has. Takes no memory.
    pub fn restart(&mut self, cid: u32)
        ensures channel { self.new.cid ≡ cid }
        ensures got { HasGot self.new [] }
    {
        self.collector.restart(cid);
        self.taken = 0;
    }

    /// Takes a packet that came from the device after the request was sent, of this channel or another.
    ///
    /// Refused as [`Ended`] (5) after `Ready`: the packet changes nothing. Takes no memory. The caller sees to it that
    /// fewer than 2^64 - 1 packets are taken.
    pub fn feed(&mut self, packet: &Packet) -> Result<Fed, Ended>
        requires { self.old.taken + 1 < 2 ^ 64 }
        ensures channel { self.new.cid ≡ self.old.cid }
        ensures got { (ps : List Packet) → HasGot self.old ps → HasGot self.new (ps ++ packet.now ∷ []) }
        ensures answer { (ps : List Packet) → HasGot self.old ps → packets.LiveAnswers self.old.cid ps packet.now result }
    {
        // A match, since `?` would hide that the refusal is the callee's.
        let fed = match collect(&mut self.collector, packet) {
            Ok(fed) => fed,
            Err(ended) => return Err(ended),
        };
        self.taken += 1;
        Ok(fed)
    }

    /// The message that came, or why none did.
    pub(crate) fn message<W>(&self) -> Result<&[u8], Error<W>>
        ensures came { IfOk result (λ m. (ps : List Packet) → HasGot self.now ps → Delivers self.now.cid ps self.now.taken m.now) }
        ensures none { IfErr result (λ e. (ps : List Packet) → HasGot self.now ps → Undelivered self.now.cid ps e) }
        ensures nothing { OnErr result ((ps : List Packet) (n : ℕ) (m : List ℕ) → HasGot self.now ps → Delivers self.now.cid ps n m → ⊥) }
    {
        match self.collector.outcome() {
            Outcome::More => Err(Error::Incomplete),
            Outcome::Reply(message) => Ok(message),
            Outcome::DeviceError(code) => Err(Error::DeviceError(code)),
            Outcome::Dead(kind) => Err(Error::Dead {
                index: self.taken - 1,
                kind,
            }),
        }
    }

    /// Takes the packets, where none was taken before. Those after the message change nothing.
    pub(crate) fn feed_all(&mut self, packets: &[Packet])
        requires { HasGot self.old [] }
        ensures channel { self.new.cid ≡ self.old.cid }
        ensures got { HasGot self.new packets.now }
    {
        self.taken = feed_all(&mut self.collector, packets) as u64;
    }

    /// How many packets it has taken: those up to the one that was answered `Ready`. Takes no memory.
    pub fn fed(&self) -> u64
        ensures { result ≡ self.now.taken }
    {
        self.taken
    }
}
