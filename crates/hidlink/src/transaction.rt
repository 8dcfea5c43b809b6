//! The authenticator's end: transactions on the channels of one device, CTAP 2.1 sections 11.2.3,
//! 11.2.5 and 11.2.9.

ghost use Rattle.hidframe.specs.declared.ctaphid.TheConstants.{CONT_DATA_SIZE, INIT_DATA_SIZE, MAX_PAYLOAD_SIZE};
ghost use Rattle.std.specs.Prelude.{◌≡◌, ◌⊎◌, ◌≤◌, ◌<◌, ◌+◌, ◌++◌, ◌↔◌, [], ◌∷◌, List, ℕ, Bool, length, take, IfOk, IsErrOf, IsTrue, OnErr, OnOk, Some};
ghost use Rattle.hidframe.specs.Packets.{Continuation, Fields, Initial, fields, IsPacket};
ghost use Rattle.hidlink.specs.declared.transaction.DeviceEvent.{DeviceEvent};
ghost use Rattle.hidlink.specs.declared.transaction.DeviceEvent.TheVariants as step;
ghost use Rattle.hidlink.specs.Told.{TellsEvent};
ghost use Rattle.hidlink.specs.declared.arbitration.TheConstants.{MAX_CHANNELS};
ghost use Rattle.hidlink.specs.History.{Answered, DeviceCall, Expired, Kept, Leaves, Reads, Took};
ghost use Rattle.std.specs.Prelude.{◌*◌, Err};
ghost use Rattle.std.specs.Bool.{OnFalse, OnTrue};
ghost use Rattle.std.specs.Int.{w32, to_be_bytes};
ghost use Rattle.hidlink.specs.Machine.{Does, MayChoose, PhaseFits, came, chosen_effect, effect, packet_effect, state_view};
ghost use Rattle.hidlink.specs.Ranks.{Idle, IsReceiving, IsWorking, TransactionState, chosen_response, error, expiry, init_response, is_busy};
ghost use Rattle.hidlink.specs.Ranks.{is_receiving_on, is_working_on, on_receipt, on_working, packets_of, request_payload, response, working_channel};

use crate::arbitration::{Arbitration, arbitrate};
use crate::room::{Inbox, Outbox};
use byteorder::{BigEndian, ByteOrder};
use hidframe::ctaphid::{
    CAPABILITY_CBOR, CAPABILITY_NMSG, CTAPHID_CBOR, CTAPHID_ERROR, CTAPHID_INIT, CTAPHID_KEEPALIVE,
    ERR_INVALID_SEQ, ERR_MSG_TIMEOUT, MAX_PAYLOAD_SIZE, PROTOCOL_VERSION, STATUS_PROCESSING,
    STATUS_UPNEEDED,
};
use hidframe::{Head, Packet, packet_count};
use std::alloc::{AllocError, Global};
use std::marker::Model;
use thiserror::Error;

/// What a packet gave.
#[derive(Clone, Copy, PartialEq, Eq, Debug)]
pub enum DeviceEvent {
    /// Nothing that the caller has to act on.
    Quiet,
    /// A request is complete on channel `cid`, and the device works on it.
    Request { cid: u32 },
    /// The request that the device works on is to be given up. It is still to be answered, by a CTAP
    /// status 0x2D.
    Cancelled,
    /// The request that the device worked on is gone: its channel began anew.
    Aborted,
}

/// Why a device refuses an answer or a keepalive.
#[derive(Clone, Copy, PartialEq, Eq, Debug, Error)]
pub enum Refusal {
    /// The device works on no request. Refusal number 6.
    #[error("the device works on no request")]
    NotWorking,
    /// The answer has more than 7,609 bytes. Refusal number 4.
    #[error("the answer is longer than 7609 bytes")]
    TooLong,
}

impl Refusal {
    ghost use Rattle.hidlink.specs.Ranks.{refusal_number};

    /// The number of the refusal.
    pub fn number(&self) -> u8
        ensures { result ≡ refusal_number self.now }
    {
        match self {
            Refusal::NotWorking => 6,
            Refusal::TooLong => 4,
        }
    }
}

/// What a device is doing; the bytes are in its inbox.
#[derive(Clone, Copy)]
enum Phase {
    Idle,
    Receiving {
        cid: u32,
        cmd: u8,
        len: u16,
        next: u8,
    },
    Working {
        cid: u32,
    },
}

/// Takes a data area of a message, with which `next` continuations are there: what the device does
/// then, and what the packet gave.
fn advance(
    inbox: &mut Inbox,
    outbox: &mut Outbox,
    cid: u32,
    cmd: u8,
    len: u16,
    next: u8,
    bytes: &[u8],
) -> (Phase, DeviceEvent)
    requires len { len ≤ MAX_PAYLOAD_SIZE }
    requires held { length inbox.old ≤ len }
    requires number { length inbox.old + length bytes.now ≡ INIT_DATA_SIZE + CONT_DATA_SIZE * next }
    requires drained { outbox.old ≡ [] }
    ensures state { state_view result.0 inbox.new ≡ (came 0 cid cmd len next (inbox.old ++ bytes.now)).after }
    ensures fits { PhaseFits result.0 inbox.new }
    ensures left { outbox.new ≡ packets_of (on_receipt cid cmd len next (inbox.old ++ bytes.now)).sent }
    ensures step { result.1 ≡ (on_receipt cid cmd len next (inbox.old ++ bytes.now)).step }
    ensures uncancelled { result.1 ≡ step.Cancelled → ⊥ }
{
    inbox.append(len, bytes);
    if usize::from(next) + 1 < packet_count(usize::from(len)) {
        let receiving = Phase::Receiving {
            cid,
            cmd,
            len,
            next,
        };
        (receiving, DeviceEvent::Quiet)
    } else if cmd == CTAPHID_CBOR {
        (Phase::Working { cid }, DeviceEvent::Request { cid })
    } else {
        outbox.echo(cid, inbox);
        (Phase::Idle, DeviceEvent::Quiet)
    }
}

/// The payload of a response to INIT, whose request had these data bytes.
fn init_payload(named: u32, bytes: &[u8]) -> [u8; 17]
    requires { 8 ≤ length bytes.now }
    ensures { result ≡ take 8 bytes.now ++ (to_be_bytes w32 named ++ 2 ∷ 1 ∷ 0 ∷ 0 ∷ 12 ∷ []) }
{
    let mut payload = [0; 17];
    payload[..8].copy_from_slice(&bytes[..8]);
    BigEndian::write_u32(&mut payload[8..], named);
    payload[12] = PROTOCOL_VERSION;
    payload[13] = 1;
    payload[16] = CAPABILITY_CBOR + CAPABILITY_NMSG;
    payload
}

/// The authenticator's end of all channels of one device. It takes packets and gives requests, takes
/// answers and gives packets; it holds at most 7,609 payload bytes each way and takes memory only
/// when it is made.
///
/// Each call that sends a message wants the last one to be sent: the caller takes its packets by
/// [`Device::next_out`] until there is none.
#[derive(Drop)]
pub struct Device {
    channels: u32,
    phase: Phase,
    inbox: Inbox,
    outbox: Outbox,
}

impl Model for Device {
    ghost use Rattle.std.specs.Prelude.{◌≤◌};
    ghost use Rattle.hidlink.specs.Ranks.{DeviceState};
    ghost use Rattle.hidlink.specs.Machine.{PhaseFits, state_view};

    ghost Value = { DeviceState };

    ghost view = { λ d. record { channels = d.channels; state = state_view d.phase d.inbox; left = d.outbox } };

    ghost invariant = { λ d. record { channels : d.channels ≤ 65535; phase : PhaseFits d.phase d.inbox } };
}

impl Device {
    ghost use Rattle.std.specs.Prelude.{MatchOption};

    /// A device with no channel handed out, that does nothing and has nothing to send. Makes room for
    /// 7,609 bytes each way; refused only where memory for it is wanting.
    #[tactic(auto, using(crate::proofs::Steps::leaves_none))]
    pub fn new(alloc: Global) -> Result<Self, AllocError>
        ensures new { IfOk result (λ d. d ≡ record { channels = 0; state = Idle; left = [] }) }
        ensures history { IfOk result (λ d. Leaves [] d.channels d.state) }
    {
        let inbox = Inbox::new(alloc)?;
        let outbox = Outbox::new(alloc)?;
        Ok(Device {
            channels: 0,
            phase: Phase::Idle,
            inbox,
            outbox,
        })
    }

    /// How many channels it handed out: 1, 2, 3 and so on up to this number, at most 65,535.
    pub fn channels(&self) -> u32
        ensures out { result ≡ self.now.channels }
        ensures most { result ≤ MAX_CHANNELS }
    {
        self.channels
    }

    /// The channel of the request that it works on.
    pub fn working(&self) -> Option<u32>
        ensures { result ≡ working_channel self.now.state }
    {
        match self.phase {
            Phase::Working { cid } => Some(cid),
            Phase::Idle | Phase::Receiving { .. } => None,
        }
    }

    /// The payload of the request that it works on, 1 to 7,609 bytes. The caller sees to it that it
    /// works on one.
    pub fn request(&self) -> &[u8]
        requires { IsWorking self.now.state }
        ensures payload { request_payload self.now.state ≡ Some result.now }
        ensures size { length result.now ≤ MAX_PAYLOAD_SIZE }
    {
        self.inbox.bytes()
    }

    /// Whether no packet is left for [`Device::next_out`]; at most 129 are.
    pub fn drained(&self) -> bool
        ensures drained { IsTrue result ↔ (self.now.left ≡ []) }
        ensures most { length self.now.left ≤ 129 }
    {
        self.outbox.is_drained()
    }

    /// The next packet to send; `None` where none is left. All else stays as it is.
    pub fn next_out(&mut self) -> Option<Packet>
        ensures gives { MatchOption result ((self.old.left ≡ []) × (self.new.left ≡ [])) (λ p. self.old.left ≡ p ∷ self.new.left) }
        ensures most { length self.old.left ≤ 129 }
        ensures rest { self.new ≡ record self.old { left = self.new.left } }
    {
        self.outbox.next()
    }

    /// Takes a packet: at most one message is to be sent after it. The caller sees to it that nothing
    /// is left to send. The order in which an initial packet is judged stands in the crate's README.
    pub fn packet(&mut self, packet: &Packet) -> DeviceEvent
        requires { self.old.left ≡ [] }
        ensures step { result ≡ (response self.old.channels self.old.state (fields packet.now)).step }
        ensures sent { self.new.left ≡ packets_of (response self.old.channels self.old.state (fields packet.now)).sent }
        ensures told { (h : List DeviceCall) → Leaves h self.old.channels self.old.state
            → TellsEvent self.old.state (fields packet.now) self.new.state result }
        ensures cancelled { result ≡ step.Cancelled → IsWorking self.old.state × (self.new ≡ self.old) }
        ensures history { (h : List DeviceCall) → Leaves h self.old.channels self.old.state
            → Leaves (h ++ Took packet.now ∷ []) self.new.channels self.new.state }
    {
        match packet.read() {
            Head::Init {
                cid,
                cmd,
                len,
                bytes,
            } => self.initial(cid, cmd, len, bytes),
            Head::Cont { cid, seq, bytes } => self.continuation(cid, seq, bytes),
        }
    }

    /// Takes an initial packet.
    fn initial(&mut self, cid: u32, cmd: u8, len: u16, bytes: &[u8]) -> DeviceEvent
        requires drained { self.old.left ≡ [] }
        requires bytes { length bytes.now ≡ INIT_DATA_SIZE }
        ensures does { Does self.new result (packet_effect self.old.channels self.old.state (Initial cid cmd len bytes.now))
            (response self.old.channels self.old.state (Initial cid cmd len bytes.now)) }
        ensures cancelled { result ≡ step.Cancelled → IsWorking self.old.state × (self.new ≡ self.old) }
    {
        let receiving = self.is_receiving_on(cid);
        let working = self.is_working_on(cid);
        let choice = arbitrate(
            self.channels,
            self.is_busy(),
            receiving,
            working,
            cid,
            cmd,
            len,
        );
        self.act(choice, cid, cmd, len, bytes)
    }

    /// Does what was chosen for an initial packet.
    fn act(&mut self, choice: Arbitration, cid: u32, cmd: u8, len: u16, bytes: &[u8]) -> DeviceEvent
        requires drained { self.old.left ≡ [] }
        requires bytes { length bytes.now ≡ INIT_DATA_SIZE }
        requires may { MayChoose self.old.channels self.old.state cmd len choice }
        ensures does { Does self.new result (chosen_effect self.old.channels self.old.state cid cmd len bytes.now choice)
            (chosen_response self.old.channels self.old.state cid cmd len bytes.now choice) }
        ensures cancelled { result ≡ step.Cancelled → IsWorking self.old.state × (self.new ≡ self.old) }
    {
        match choice {
            Arbitration::Refused(code) => {
                self.error(cid, code);
                DeviceEvent::Quiet
            }
            Arbitration::NewChannel => {
                self.channels += 1;
                self.answer_init(cid, self.channels, bytes);
                DeviceEvent::Quiet
            }
            Arbitration::ChannelAnew => {
                let aborted = self.is_working_on(cid);
                self.phase = Phase::Idle;
                self.answer_init(cid, cid, bytes);
                if aborted {
                    DeviceEvent::Aborted
                } else {
                    DeviceEvent::Quiet
                }
            }
            Arbitration::Interrupted => {
                self.phase = Phase::Idle;
                self.error(cid, ERR_INVALID_SEQ);
                DeviceEvent::Quiet
            }
            Arbitration::Cancelled => DeviceEvent::Cancelled,
            Arbitration::Ignored => DeviceEvent::Quiet,
            Arbitration::Begins => {
                self.inbox.clear();
                let (phase, step) = advance(
                    &mut self.inbox,
                    &mut self.outbox,
                    cid,
                    cmd,
                    len,
                    0,
                    bytes,
                );
                self.phase = phase;
                step
            }
        }
    }

    /// Takes a continuation.
    fn continuation(&mut self, cid: u32, seq: u8, bytes: &[u8]) -> DeviceEvent
        requires drained { self.old.left ≡ [] }
        requires bytes { length bytes.now ≡ CONT_DATA_SIZE }
        ensures does { Does self.new result (packet_effect self.old.channels self.old.state (Continuation cid seq bytes.now))
            (response self.old.channels self.old.state (Continuation cid seq bytes.now)) }
        ensures cancelled { result ≡ step.Cancelled → IsWorking self.old.state × (self.new ≡ self.old) }
    {
        match self.phase {
            Phase::Receiving {
                cid: receiving,
                cmd,
                len,
                next,
            } => {
                if receiving != cid {
                    return DeviceEvent::Quiet;
                }
                if seq != next {
                    self.phase = Phase::Idle;
                    self.error(cid, ERR_INVALID_SEQ);
                    return DeviceEvent::Quiet;
                }
                let (phase, step) = advance(
                    &mut self.inbox,
                    &mut self.outbox,
                    cid,
                    cmd,
                    len,
                    next + 1,
                    bytes,
                );
                self.phase = phase;
                step
            }
            Phase::Idle | Phase::Working { .. } => DeviceEvent::Quiet,
        }
    }

    /// A response to INIT to send.
    fn answer_init(&mut self, cid: u32, named: u32, bytes: &[u8])
        requires { 8 ≤ length bytes.now }
        ensures { self.new ≡ record self.old { left = packets_of (init_response cid named bytes.now) } }
    {
        let payload = init_payload(named, bytes);
        self.outbox.send(cid, CTAPHID_INIT, &payload);
    }

    /// An ERROR to send.
    fn error(&mut self, cid: u32, code: u8)
        ensures { self.new ≡ record self.old { left = packets_of (error cid code) } }
    {
        self.outbox.send(cid, CTAPHID_ERROR, &[code]);
    }

    fn is_busy(&self) -> bool
        ensures { result ≡ is_busy self.now.state }
    {
        match self.phase {
            Phase::Idle => false,
            Phase::Receiving { .. } | Phase::Working { .. } => true,
        }
    }

    fn is_receiving_on(&self, channel: u32) -> bool
        ensures { result ≡ is_receiving_on self.now.state channel }
    {
        match self.phase {
            Phase::Receiving { cid, .. } => cid == channel,
            Phase::Idle | Phase::Working { .. } => false,
        }
    }

    fn is_working_on(&self, channel: u32) -> bool
        ensures { result ≡ is_working_on self.now.state channel }
    {
        match self.phase {
            Phase::Working { cid } => cid == channel,
            Phase::Idle | Phase::Receiving { .. } => false,
        }
    }

    /// Answers the request that it works on: a CBOR message on its channel is to be sent, and the
    /// device is idle. Refused, in this order: [`Refusal::NotWorking`]; [`Refusal::TooLong`], more than
    /// 7,609 bytes. A refusal changes nothing. The caller sees to it that nothing is left to send.
    #[tactic(auto, using(crate::proofs::Calls::leaves_to))]
    pub fn answer(&mut self, payload: &[u8]) -> Result<(), Refusal>
        requires { self.old.left ≡ [] }
        ensures sent { OnOk result (self.new.left ≡ packets_of (on_working self.old.state CTAPHID_CBOR payload.now)) }
        ensures idle { OnOk result (self.new ≡ record self.old { state = Idle; left = self.new.left }) }
        ensures not_working { IsErrOf result Refusal.NotWorking ↔ (IsWorking self.old.state → ⊥) }
        ensures too_long { IsErrOf result Refusal.TooLong ↔ (IsWorking self.old.state × (MAX_PAYLOAD_SIZE < length payload.now)) }
        ensures refused { OnErr result (self.new ≡ self.old) }
        ensures history { (h : List DeviceCall) → Leaves h self.old.channels self.old.state
            → Leaves (h ++ Answered payload.now ∷ []) self.new.channels self.new.state }
    {
        let Some(cid) = self.working() else {
            return Err(Refusal::NotWorking);
        };
        if payload.len() > MAX_PAYLOAD_SIZE {
            return Err(Refusal::TooLong);
        }
        self.outbox.send(cid, CTAPHID_CBOR, payload);
        self.phase = Phase::Idle;
        Ok(())
    }

    /// Says that it still works: a KEEPALIVE on its channel is to be sent. Refused:
    /// [`Refusal::NotWorking`], which changes nothing. The caller sees to it that the status is 1
    /// (processing) or 2 (user presence needed) and nothing is left to send.
    #[tactic(auto, using(crate::proofs::Calls::leaves_to))]
    pub fn keepalive(&mut self, status: u8) -> Result<(), Refusal>
        requires status { status ≡ STATUS_PROCESSING ⊎ status ≡ STATUS_UPNEEDED }
        requires drained { self.old.left ≡ [] }
        ensures sent { self.new.left ≡ packets_of (on_working self.old.state CTAPHID_KEEPALIVE (status ∷ [])) }
        ensures rest { self.new ≡ record self.old { left = self.new.left } }
        ensures ok { OnOk result (IsWorking self.old.state) }
        ensures not_working { IsErrOf result Refusal.NotWorking ↔ (IsWorking self.old.state → ⊥) }
        ensures only { OnErr result (result ≡ Err Refusal.NotWorking) }
        ensures history { (h : List DeviceCall) → Leaves h self.old.channels self.old.state
            → Leaves (h ++ Kept status ∷ []) self.new.channels self.new.state }
    {
        let Some(cid) = self.working() else {
            return Err(Refusal::NotWorking);
        };
        self.outbox.send(cid, CTAPHID_KEEPALIVE, &[status]);
        Ok(())
    }

    /// Ends a message that took too long: true exactly if one was coming in, whose channel is sent an
    /// ERROR; the device is idle then. Otherwise nothing changes. The caller sees to it that nothing is
    /// left to send.
    #[tactic(auto, using(crate::proofs::Calls::leaves_to))]
    pub fn expire(&mut self) -> bool
        requires { self.old.left ≡ [] }
        ensures expired { IsTrue result ↔ IsReceiving self.old.state }
        ensures sent { self.new.left ≡ packets_of (expiry self.old.state) }
        ensures idle { OnTrue result (self.new ≡ record self.old { state = Idle; left = self.new.left }) }
        ensures same { OnFalse result (self.new ≡ self.old) }
        ensures history { (h : List DeviceCall) → Leaves h self.old.channels self.old.state
            → Leaves (h ++ Expired ∷ []) self.new.channels self.new.state }
    {
        match self.phase {
            Phase::Receiving { cid, .. } => {
                self.phase = Phase::Idle;
                self.error(cid, ERR_MSG_TIMEOUT);
                true
            }
            Phase::Idle => false,
            Phase::Working { .. } => false,
        }
    }
}

/// The law of a packet's step: of what a device did before and after a packet one step tells.
#[tactic(auto, using(crate::proofs::Telling::one_step))]
pub fn one_step()
    ensures { (s t : TransactionState) (f : Fields) (x y : DeviceEvent) → TellsEvent s f t x → TellsEvent s f t y → x ≡ y }
{}

/// The laws of a device's history. Each history has one reading into parts, and leaves a device with
/// one number of channels, at most 65,535, in one state.
pub fn one_history()
    ensures one { (h : List DeviceCall) (ps qs : List (List DeviceCall)) (a b : List DeviceCall) → Reads h ps a → Reads h qs b
        → (ps ≡ qs) × (a ≡ b) }
    ensures one_state { (h : List DeviceCall) (n k : ℕ) (s t : TransactionState) → Leaves h n s → Leaves h k t → (n ≡ k) × (s ≡ t) }
    ensures most { (h : List DeviceCall) (n : ℕ) (s : TransactionState) → Leaves h n s → n ≤ MAX_CHANNELS }
    ensures every { (h : List DeviceCall) → (n : ℕ) × (s : TransactionState) × Leaves h n s }
{}
