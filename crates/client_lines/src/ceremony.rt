//! An act that is under way.

ghost use Rattle.std.specs.Prelude.{◌≡◌, ◌++◌, [], ◌∷◌, IfOk, List, OnErr, option_map};
ghost use Rattle.hidframe.specs.declared.Packet.{Packet};
ghost use Rattle.hidlink.specs.Wire.{Got};
ghost use Rattle.client_lines.specs.Acts.{Begins, Knows, Receives, ReceivesBy, SendsBy, SendsOn, TakesFurther};
ghost use Rattle.client_lines.specs.Knowing.{knowledge_facts};
ghost use Rattle.client_lines.specs.Purposes.{IsPurposeOf};
ghost use Rattle.client_lines.specs.Written.{awaited};
ghost use Rattle.client_acts.specs.declared.act.Further.TheVariants as furthers;

use crate::answer::{Answer, Told};
use crate::channel::{Channel, Fed};
use crate::fault::NotTaken;
use crate::knowing::Knowledge;
use crate::purpose::{Purpose, checked_registration, checked_sign_in};
use crate::refused::Refused;
use crate::stepping::{Awaits, go_on};
use client_acts::{Aim, Begin, Further};
use client_ceremony::Refusal;
use hidframe::ctaphid::{CAPABILITY_CBOR, CTAPHID_BROADCAST_CID, CTAPHID_INIT, ERR_INVALID_CMD};
use hidframe::{Head, Packet};
use hidlink::{Opener, Opening};
use pin_protocols::Ask;
use std::alloc::Global;
use std::mem;

/// How far the way to the key is.
#[derive(Drop)]
enum Link {
    /// A channel is asked for.
    Opening(Opener),
    /// The key assigned one.
    Open(Channel),
}

/// An act that is under way.
#[derive(Drop)]
pub(crate) struct Ceremony {
    knowledge: Knowledge,
    link: Link,
    awaits: Awaits,
}

/// What an act of this aim is for.
fn purpose(alloc: Global, aim: Aim) -> Result<Purpose, Refused>
    ensures { IfOk result (IsPurposeOf aim) }
{
    match aim {
        Aim::Register(options) => Ok(Purpose::Registers(checked_registration(alloc, options)?)),
        Aim::SignIn(options) => Ok(Purpose::SignsIn(checked_sign_in(alloc, options)?)),
        Aim::Inform => Ok(Purpose::Informs),
        Aim::SetPin(pin) => Ok(Purpose::SetsPin(pin)),
        Aim::ChangePin(pin) => Ok(Purpose::ChangesPin(pin)),
    }
}

/// Whether this answers an INIT without a channel for messages: the key has no CTAPHID_CBOR (CTAP 2.1, section 11.2.9.1.3).
fn speaks_u2f_alone(init: &Packet, packet: &Packet) -> bool {
    match packet.read() {
        Head::Init {
            cid: CTAPHID_BROADCAST_CID,
            cmd: CTAPHID_INIT,
            len: 17,
            bytes,
        } => bytes[..8] == init.0[7..15] && bytes[16] & CAPABILITY_CBOR == 0,
        _ => false,
    }
}

/// What the key's error of packets says: one that answers getInfo as an unknown command speaks U2F alone.
fn device_error(knowledge: &Knowledge, code: u8) -> Refused {
    if code == ERR_INVALID_CMD && knowledge.replies.is_empty() {
        Refused::Client(Refusal::U2fOnly)
    } else {
        Refused::DeviceError(code)
    }
}

/// Takes a packet of the channel, and goes on where a reply is whole.
fn receive(
    alloc: Global,
    knowledge: &mut Knowledge,
    channel: &mut Channel,
    packet: &Packet,
) -> Result<(Told, Awaits), Refused>
    ensures received { (ps : List Packet) → Got channel.old.cid ps channel.old.shown
        → Receives channel.old.cid (ps ++ packet.now ∷ []) (knowledge_facts knowledge.old) knowledge.new }
    ensures purpose { knowledge.new.purpose ≡ knowledge.old.purpose }
    ensures sent { IfOk result (λ r. SendsOn channel.old.cid knowledge.new r.0) }
    ensures channel { channel.new.cid ≡ channel.old.cid }
{
    let answer = match channel.take(alloc, packet) {
        Ok(Fed::Reply(message)) => {
            knowledge.replies.push(message)?;
            return go_on(alloc, knowledge, channel);
        }
        Ok(Fed::More) => Answer::Waits,
        Ok(Fed::Processing) => Answer::Works,
        Ok(Fed::Touch) => Answer::Touch,
        Err(Refused::DeviceError(code)) => return Err(device_error(knowledge, code)),
        Err(refused) => return Err(refused),
    };
    Ok((Told::quiet(alloc, answer), Awaits::Packet))
}

impl Ceremony {
    /// Begins an act: what is answered asks the key for a channel.
    pub(crate) fn begin(alloc: Global, begin: Begin) -> Result<(Ceremony, Told), Refused>
        ensures { IfOk result (λ r. Begins begin r.0 r.1) }
    {
        let purpose = purpose(alloc, begin.aim)?;
        let opener = Opener::new(begin.nonce);
        let told = Told {
            send: Vec::from_slice(alloc, &[opener.request()])?,
            answer: Answer::Waits,
        };
        let ceremony = Ceremony {
            knowledge: Knowledge::new(alloc, purpose, begin.built_in),
            link: Link::Opening(opener),
            awaits: Awaits::Packet,
        };
        Ok((ceremony, told))
    }

    /// What the host is asked to compute.
    pub(crate) fn asked(&self) -> Option<&Ask>
        ensures { option_map (λ a. a.now) result ≡ awaited self.now.awaits }
    {
        match &self.awaits {
            Awaits::Computed(ask) => Some(ask),
            _ => None,
        }
    }

    /// What came of it: what is answered, and what is waited for from now on.
    fn settle(&mut self, alloc: Global, came: Result<(Told, Awaits), Refused>) -> Told
        requires { IfOk came (λ r. SendsBy self.old.link self.old.knowledge r.0) }
        ensures sent { SendsBy self.new.link self.new.knowledge result }
        ensures knowledge { self.new.knowledge ≡ self.old.knowledge }
    {
        match came {
            Ok((told, awaits)) => {
                self.awaits = awaits;
                told
            }
            Err(refused) => Told::quiet(alloc, Answer::Refused(refused)),
        }
    }

    /// Goes on by what is known.
    fn go_on(&mut self, alloc: Global) -> Told
        ensures facts { Knows (knowledge_facts self.old.knowledge) self.new.knowledge }
        ensures purpose { self.new.knowledge.purpose ≡ self.old.knowledge.purpose }
        ensures sent { SendsBy self.new.link self.new.knowledge result }
    {
        let came = match &mut self.link {
            Link::Open(channel) => go_on(alloc, &mut self.knowledge, channel),
            Link::Opening(_) => Err(Refused::ChannelDead),
        };
        self.settle(alloc, came)
    }

    /// Takes a packet while the channel is asked for.
    fn open(&mut self, alloc: Global, packet: &Packet) -> Result<(Told, Awaits), Refused>
        ensures received { ReceivesBy self.old.link packet.now (knowledge_facts self.old.knowledge) self.new.knowledge }
        ensures purpose { self.new.knowledge.purpose ≡ self.old.knowledge.purpose }
        ensures sent { IfOk result (λ r. SendsBy self.new.link self.new.knowledge r.0) }
    {
        match &mut self.link {
            Link::Opening(opener) => match opener.feed(packet) {
                Opening::More if speaks_u2f_alone(&opener.request(), packet) => {
                    Err(Refused::Client(Refusal::U2fOnly))
                }
                Opening::More => Ok((Told::quiet(alloc, Answer::Waits), Awaits::Packet)),
                Opening::Channel(cid) => {
                    let mut channel = Channel::new(alloc, cid)?;
                    let came = go_on(alloc, &mut self.knowledge, &mut channel);
                    self.link = Link::Open(channel);
                    came
                }
            },
            Link::Open(channel) => receive(alloc, &mut self.knowledge, channel, packet),
        }
    }

    /// A packet came from the key.
    fn packet(&mut self, alloc: Global, packet: &Packet) -> Result<Told, NotTaken>
        ensures taken { IfOk result (λ told. TakesFurther self.old (furthers.Packet packet.now) told self.new) }
        ensures unchanged { OnErr result (self.new ≡ self.old) }
    {
        if !matches!(self.awaits, Awaits::Packet) {
            return Err(NotTaken::NotAwaited);
        }
        let came = self.open(alloc, packet);
        Ok(self.settle(alloc, came))
    }

    /// The user entered a PIN.
    fn pin(&mut self, alloc: Global, pin: String) -> Result<Told, NotTaken>
        ensures taken { IfOk result (λ told. TakesFurther self.old (furthers.Pin pin) told self.new) }
        ensures unchanged { OnErr result (self.new ≡ self.old) }
    {
        if !matches!(self.awaits, Awaits::Pin) {
            return Err(NotTaken::NotAwaited);
        }
        self.knowledge.pin = Some(pin);
        self.knowledge.is_wrong = false;
        Ok(self.go_on(alloc))
    }

    /// The host computed what was asked for.
    fn computed(&mut self, alloc: Global, bytes: Vec<u8>) -> Result<Told, NotTaken>
        ensures taken { IfOk result (λ told. TakesFurther self.old (furthers.Computed bytes) told self.new) }
        ensures unchanged { OnErr result (self.new ≡ self.old) }
    {
        match mem::replace(&mut self.awaits, Awaits::Packet) {
            Awaits::Computed(ask) => {
                if self.knowledge.answers.add(ask, bytes).is_err() {
                    let refused = Refused::Client(Refusal::Memory);
                    return Ok(Told::quiet(alloc, Answer::Refused(refused)));
                }
                Ok(self.go_on(alloc))
            }
            other => {
                self.awaits = other;
                Err(NotTaken::NotAwaited)
            }
        }
    }

    /// The user chose a credential.
    fn choose(&mut self, alloc: Global, number: u64) -> Result<Told, NotTaken>
        ensures taken { IfOk result (λ told. TakesFurther self.old (furthers.Choose number) told self.new) }
        ensures unchanged { OnErr result (self.new ≡ self.old) }
    {
        let Awaits::Choice(count) = self.awaits else {
            return Err(NotTaken::NotAwaited);
        };
        match usize::try_from(number) {
            Ok(number) if number < count => {
                self.knowledge.chosen = Some(number);
                Ok(self.go_on(alloc))
            }
            _ => Err(NotTaken::NoSuchCredential),
        }
    }

    /// The user cancels: the key is answered where it is at work, and else the act is over.
    fn cancel(&self, alloc: Global) -> Told
        ensures { TakesFurther self.now furthers.Cancel result self.now }
    {
        let send = match &self.link {
            Link::Open(channel) if matches!(self.awaits, Awaits::Packet) => channel.cancel(alloc),
            _ => Err(Refused::Cancelled),
        };
        match send {
            Ok(send) => Told {
                send,
                answer: Answer::Waits,
            },
            Err(refused) => Told::quiet(alloc, Answer::Refused(refused)),
        }
    }

    /// Takes what takes the act further; an error changes nothing.
    pub(crate) fn take(&mut self, alloc: Global, further: Further) -> Result<Told, NotTaken>
        ensures taken { IfOk result (λ told. TakesFurther self.old further told self.new) }
        ensures unchanged { OnErr result (self.new ≡ self.old) }
    {
        match further {
            Further::Packet(packet) => self.packet(alloc, &packet),
            Further::Pin(pin) => self.pin(alloc, pin),
            Further::Computed(bytes) => self.computed(alloc, bytes),
            Further::Choose(number) => self.choose(alloc, number),
            Further::Cancel => Ok(self.cancel(alloc)),
        }
    }
}
