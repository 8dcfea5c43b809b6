//! The client's end: packets in, one reply out.

ghost use Rattle.hidframe.specs.declared.ctaphid.TheConstants.{CONT_DATA_SIZE, INIT_DATA_SIZE, MAX_PAYLOAD_SIZE};
ghost use Rattle.std.specs.Prelude.{◌≡◌, ◌≤◌, ◌<◌, ◌+◌, ◌*◌, ◌++◌, [], ◌∷◌, List, ℕ, length, take, IfOk, IfSome};
ghost use Rattle.hidlink.specs.Steps.{opened, received};
ghost use Rattle.hidlink.specs.Collected.{Fits, ShowsAfter, shown_view};
ghost use Rattle.std.specs.Prelude.{◌⊎◌, ◌^◌, ◌↔◌, IsTrue};
ghost use Rattle.std.specs.List.{AllByRecursion};
ghost use Rattle.hidframe.specs.declared.Packet.{Packet};
ghost use Rattle.hidframe.specs.Packets.{IsPacket};
ghost use Rattle.hidlink.specs.declared.collection.DeadKind.{DeadKind};
ghost use Rattle.hidlink.specs.Wire.{Carries, Died, Dies, Got, HasEnded, IsBeginning, IsDead};
ghost use Rattle.hidlink.specs.Receives.{IsTaken, Receives};

use crate::room::Inbox;
use hidframe::ctaphid::{
    CTAPHID_CBOR, CTAPHID_ERROR, CTAPHID_KEEPALIVE, MAX_PAYLOAD_SIZE, STATUS_PROCESSING,
    STATUS_UPNEEDED,
};
use hidframe::{Head, Packet, packet_count};
use std::alloc::{AllocError, Global};
use std::marker::Model;
use thiserror::Error;

/// Why no reply can come any more on the channel: what the packet is that killed the list. A message
/// is open once its initial packet came and until its last continuation.
#[derive(Clone, Copy, PartialEq, Eq, Debug)]
pub enum DeadKind {
    /// No message is open: an initial packet whose command is not CBOR, ERROR or KEEPALIVE.
    WrongCommand,
    /// No message is open: CBOR above 7,609 bytes, or ERROR or KEEPALIVE of a length other than 1.
    BadLength,
    /// No message is open: a KEEPALIVE of length 1 whose status is not 1 or 2.
    BadKeepalive,
    /// No message is open: a continuation packet.
    StrayContinuation,
    /// A message is open: a continuation packet with another sequence number than the next.
    WrongSequence,
    /// A message is open: an initial packet.
    Interrupted,
}

impl DeadKind {
    ghost use Rattle.hidlink.specs.Wire.{number_of};

    /// The number of the kind, 1 to 6 in the order of the variants.
    pub fn number(&self) -> u8
        ensures { result ≡ number_of self.now }
    {
        match self {
            DeadKind::WrongCommand => 1,
            DeadKind::BadLength => 2,
            DeadKind::BadKeepalive => 3,
            DeadKind::StrayContinuation => 4,
            DeadKind::WrongSequence => 5,
            DeadKind::Interrupted => 6,
        }
    }
}

/// How far a collector is.
#[derive(Clone, Copy)]
enum Phase {
    Idle,
    Within { len: u16, next: u8 },
    Whole,
    Fault(u8),
    Over(DeadKind),
}

/// Takes a data area of a message of `len` bytes, with which `next` continuations are there.
fn store_data(inbox: &mut Inbox, len: u16, next: u8, bytes: &[u8]) -> Phase
    requires len { len ≤ MAX_PAYLOAD_SIZE }
    requires held { length inbox.old ≤ len }
    requires number { length inbox.old + length bytes.now ≡ INIT_DATA_SIZE + CONT_DATA_SIZE * next }
    ensures shown { shown_view result inbox.new ≡ received len next (inbox.old ++ bytes.now) }
    ensures fits { Fits result inbox.new }
{
    inbox.append(len, bytes);
    if usize::from(next) + 1 < packet_count(usize::from(len)) {
        Phase::Within { len, next }
    } else {
        Phase::Whole
    }
}

/// Takes a packet that begins a message where none is open.
fn open_message(inbox: &mut Inbox, cmd: u8, len: u16, bytes: &[u8]) -> Phase
    requires { length bytes.now ≡ INIT_DATA_SIZE }
    ensures shown { shown_view result inbox.new ≡ opened cmd len bytes.now }
    ensures fits { Fits result inbox.new }
{
    match cmd {
        CTAPHID_CBOR => {
            if usize::from(len) > MAX_PAYLOAD_SIZE {
                return Phase::Over(DeadKind::BadLength);
            }
            inbox.clear();
            store_data(inbox, len, 0, bytes)
        }
        CTAPHID_ERROR => {
            if len == 1 {
                Phase::Fault(bytes[0])
            } else {
                Phase::Over(DeadKind::BadLength)
            }
        }
        CTAPHID_KEEPALIVE => {
            if len != 1 {
                Phase::Over(DeadKind::BadLength)
            } else if bytes[0] == STATUS_PROCESSING || bytes[0] == STATUS_UPNEEDED {
                Phase::Idle
            } else {
                Phase::Over(DeadKind::BadKeepalive)
            }
        }
        _ => Phase::Over(DeadKind::WrongCommand),
    }
}

/// Collects the one reply of a channel.
#[derive(Drop)]
pub struct Collector {
    cid: u32,
    inbox: Inbox,
    phase: Phase,
}

impl Model for Collector {
    ghost use Rattle.hidlink.specs.Collected.{Collected, Fits, shown_view};

    ghost Value = { Collected };

    ghost view = { λ c. record { cid = c.cid; shown = shown_view c.phase c.inbox } };

    ghost invariant = { λ c. Fits c.phase c.inbox };
}

/// What the packets so far gave.
#[derive(Clone, Copy, PartialEq, Eq, Debug)]
pub enum Outcome<'a> {
    /// More packets are wanted.
    More,
    /// The payload of the reply, 0 to 7,609 bytes.
    Reply(&'a [u8]),
    /// The number of the device's error, the one byte of an ERROR message.
    DeviceError(u8),
    /// No reply can come any more.
    Dead(DeadKind),
}

/// The collector has told the reply, the device's error or the death before. Refusal number 5.
#[derive(Clone, Copy, PartialEq, Eq, Debug, Error)]
#[error("the reply is complete or can no longer come")]
pub struct Ended;

impl Ended {
    /// The number of the refusal.
    pub fn number(&self) -> u8
        ensures { result ≡ 5 }
    {
        5
    }
}

impl Collector {
    ghost use Rattle.std.specs.Prelude.{◌↔◌, IsTrue};
    ghost use Rattle.std.specs.Borrow.{sem};
    ghost use Rattle.std.specs.Io.BufRead.{Rests};
    ghost use Rattle.hidframe.specs.declared.Packet.{Packet};
    ghost use Rattle.hidframe.specs.Packets.{Continuation, Initial, IsPacket, fields};
    ghost use Rattle.hidlink.specs.contracts.collection.Collector.{the_row};
    ghost use Rattle.hidlink.specs.Wire.{Got};
    ghost use Rattle.hidlink.specs.Steps.{IsEnded, on_channel, step};
    ghost use Rattle.std.specs.Prelude.{ℕ, length};
    ghost use Rattle.hidlink.specs.Feeds.{CollectorAnswers, Gives, TellsOutcome};

    /// A collector of channel `cid`. Takes the memory that it needs; nothing else does.
    pub fn new(alloc: Global, cid: u32) -> Result<Self, AllocError>
        ensures channel { IfOk result (λ c. c.cid ≡ cid) }
        ensures got { IfOk result (λ c. Got cid [] c.shown) }
    {
        Ok(Collector {
            cid,
            inbox: Inbox::new(alloc)?,
            phase: Phase::Idle,
        })
    }

    /// Begins anew, for a reply on channel `cid`, in the room that it has. Takes no memory.
    pub fn restart(&mut self, cid: u32)
        ensures channel { self.new.cid ≡ cid }
        ensures got { Got cid [] self.new.shown }
    {
        self.cid = cid;
        self.phase = Phase::Idle;
    }

    /// Takes a packet and says what came of it.
    pub fn feed(&mut self, packet: &Packet) -> Result<Outcome<'_>, Ended>
        ensures* after { sem 𝓛 (Rests the_row self.entry (λ new. (new.cid ≡ self.entry.now.cid) ×
            ((ps : List Packet) → Got self.entry.now.cid ps self.entry.now.shown → Got self.entry.now.cid (ps ++ packet.now ∷ []) new.shown))) }
        ensures answer { (ps : List Packet) → Got self.entry.now.cid ps self.entry.now.shown → CollectorAnswers self.entry.now.cid ps packet.now result }
    {
        let ended = self.is_ended();
        self.take(packet);
        if ended {
            return Err(Ended);
        }
        Ok(self.shown())
    }

    /// What the packets so far gave, as often as it is asked. Takes no memory.
    pub fn outcome(&self) -> Outcome<'_>
        ensures { (ps : List Packet) → Got self.now.cid ps self.now.shown → Gives self.now.cid ps result }
    {
        self.shown()
    }

    /// What is shown.
    fn shown(&self) -> Outcome<'_>
        ensures { TellsOutcome self.now.shown result }
    {
        match self.phase {
            Phase::Idle | Phase::Within { .. } => Outcome::More,
            Phase::Whole => Outcome::Reply(self.inbox.bytes()),
            Phase::Fault(code) => Outcome::DeviceError(code),
            Phase::Over(kind) => Outcome::Dead(kind),
        }
    }

    fn is_ended(&self) -> bool
        ensures { IsTrue result ↔ IsEnded self.now.shown }
    {
        match self.phase {
            Phase::Idle => false,
            Phase::Within { .. } => false,
            Phase::Whole | Phase::Fault(_) | Phase::Over(_) => true,
        }
    }

    /// Takes a packet.
    #[tactic(auto, unfolding(crate::specs::Steps::on_channel))]
    fn take(&mut self, packet: &Packet)
        ensures shown { self.new ≡ record self.old { shown = step self.old.cid self.old.shown (fields packet.now) } }
        ensures whole { IsPacket packet.now }
    {
        match packet.read() {
            Head::Init { cid, .. } | Head::Cont { cid, .. } if cid != self.cid => {}
            Head::Init {
                cmd,
                len,
                bytes,
                ..
            } => self.take_initial(cmd, len, bytes),
            Head::Cont { seq, bytes, .. } => self.take_continuation(seq, bytes),
        }
    }

    /// A packet that begins a message, on the channel.
    #[tactic(auto, unfolding(crate::specs::Steps::on_channel))]
    fn take_initial(&mut self, cmd: u8, len: u16, bytes: &[u8])
        requires { length bytes.now ≡ INIT_DATA_SIZE }
        ensures { (cid : ℕ) → self.new ≡ record self.old { shown = on_channel self.old.shown (Initial cid cmd len bytes.now) } }
    {
        match self.phase {
            Phase::Idle => {
                self.phase = open_message(&mut self.inbox, cmd, len, bytes);
            }
            Phase::Within { .. } => {
                self.phase = Phase::Over(DeadKind::Interrupted);
            }
            Phase::Whole | Phase::Fault(_) | Phase::Over(_) => {}
        }
    }

    /// A continuation, on the channel.
    #[tactic(auto, unfolding(crate::specs::Steps::on_channel))]
    fn take_continuation(&mut self, seq: u8, bytes: &[u8])
        requires { length bytes.now ≡ CONT_DATA_SIZE }
        ensures { (cid : ℕ) → self.new ≡ record self.old { shown = on_channel self.old.shown (Continuation cid seq bytes.now) } }
    {
        match self.phase {
            Phase::Idle => {
                self.phase = Phase::Over(DeadKind::StrayContinuation);
            }
            Phase::Within { len, next } => {
                if seq == next {
                    self.phase = store_data(&mut self.inbox, len, next + 1, bytes);
                } else {
                    self.phase = Phase::Over(DeadKind::WrongSequence);
                }
            }
            Phase::Whole | Phase::Fault(_) | Phase::Over(_) => {}
        }
    }
}

/// What a list of packets gave.
#[derive(Clone, Copy, PartialEq, Eq, Debug)]
pub enum Received<'a> {
    /// The reply's payload, 0 to 7,609 bytes, complete with the packet number `used`, from 1.
    Message { message: &'a [u8], used: usize },
    /// The number of the device's error, which the packet number `used`, from 1, brought.
    DeviceError { code: u8, used: usize },
    /// The packet at `index`, from 0, killed the list.
    Dead { index: usize, kind: DeadKind },
    /// More packets are wanted.
    Incomplete,
}

/// Feeds a new collector the packets, and says how many it took until one of them gave the reply, the
/// device's error or the death: all of them, where none did. Those after change nothing. Takes no memory.
pub fn feed_all(collector: &mut Collector, packets: &[Packet]) -> usize
    requires { Got collector.old.cid [] collector.old.shown }
    ensures channel { collector.new.cid ≡ collector.old.cid }
    ensures got { Got collector.old.cid packets.now collector.new.shown }
    ensures taken { IsTaken collector.old.cid packets.now result }
{
    let mut used = 0;
    for packet in packets {
        if !is_late(collector, packet) {
            used += 1;
        }
    }
    used
}

/// Feeds the packets to a new collector, and returns the outcome on its channel. Allocates nothing.
pub fn receive<'a>(collector: &'a mut Collector, packets: &[Packet]) -> Received<'a>
    requires { Got collector.old.cid [] collector.old.shown }
    ensures { Receives collector.entry.now.cid packets.now result }
{
    let used = feed_all(collector, packets);
    received_after(collector, used)
}

/// Feeds a collector a packet, and says whether all had ended before it.
fn is_late(collector: &mut Collector, packet: &Packet) -> bool
    ensures channel { collector.new.cid ≡ collector.old.cid }
    ensures got { (ps : List Packet) → Got collector.old.cid ps collector.old.shown
        → Got collector.old.cid (ps ++ packet.now ∷ []) collector.new.shown }
    ensures late { (ps : List Packet) → Got collector.old.cid ps collector.old.shown
        → (IsTrue result ↔ HasEnded collector.old.cid ps) }
{
    matches!(collector.feed(packet), Err(_))
}

/// What a collector gave with the packet number `used`, from 1.
fn received_after(collector: &Collector, used: usize) -> Received<'_>
    requires { (kind : DeadKind) → collector.now.shown ≡ Died kind → 1 ≤ used }
    ensures { ShowsAfter collector.now.shown used result }
{
    match collector.shown() {
        Outcome::More => Received::Incomplete,
        Outcome::Reply(message) => Received::Message { message, used },
        Outcome::DeviceError(code) => Received::DeviceError { code, used },
        Outcome::Dead(kind) => Received::Dead {
            index: used - 1,
            kind,
        },
    }
}

/// The laws of what a list of packets carries on a channel. At most one beginning of a list carries
/// something, and it carries one thing; nothing is carried by a list that has a dead beginning or
/// that begins a dead list; at most one beginning of a list is the shortest dead one, of one kind; and
/// of a list no beginning carries something where one is dead.
pub fn one_outcome()
    ensures carried { (c j k : ℕ) (ps : List Packet) (cmd other : ℕ) (m n : List ℕ) → j ≤ length ps → k ≤ length ps
        → Carries c (take j ps) cmd m → Carries c (take k ps) other n → (j ≡ k) × (cmd ≡ other) × (m ≡ n) }
    ensures dead { (c : ℕ) (ps qs : List Packet) (cmd : ℕ) (m : List ℕ) → IsDead c ps
        → IsBeginning qs ps ⊎ IsBeginning ps qs → Carries c qs cmd m → ⊥ }
    ensures dies { (c j k : ℕ) (ps : List Packet) (kind other : DeadKind) → c < 2 ^ 32 → AllByRecursion IsPacket ps
        → j ≤ length ps → k ≤ length ps → Dies c (take j ps) kind → Dies c (take k ps) other → (j ≡ k) × (kind ≡ other) }
    ensures apart { (c j k : ℕ) (ps : List Packet) (cmd : ℕ) (m : List ℕ) (kind : DeadKind)
        → Carries c (take j ps) cmd m → Dies c (take k ps) kind → ⊥ }
{}
