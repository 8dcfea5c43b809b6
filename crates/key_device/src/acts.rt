//! The acts at a security key.

ghost use Rattle.std.specs.Prelude.{◌≡◌, ◌≤◌, ◌⊎◌, IfOk, IsErrOf, IsSome, None, OnErr, OnOk, length, option_map};
ghost use Rattle.hidlink.specs.Ranks.{IsWorking};
ghost use Rattle.authenticator.specs.Signing.{AgreesOn};
ghost use Rattle.authenticator.specs.Steps.{Keys};
ghost use Rattle.key_pin.specs.State.{over, pin_view};
ghost use Rattle.key_device.specs.Acts.{IsDecision, PassesOn, TakesAnswer, TakesDecision, TakesPacket, TakesWords};
ghost use Rattle.key_device.specs.Acts.{WaitsForAnswer, WaitsForUser, WaitsForWords, WantsAnswer, WantsWords, is_set};
ghost use Rattle.key_device.specs.Key.{IsSigned};
ghost use Rattle.key_device.specs.Stages.{is_some};
ghost use Rattle.key_device.specs.declared.error.KeyError.TheVariants as errors;
ghost use Rattle.hidlink.specs.declared.transaction.DeviceEvent.{DeviceEvent};
ghost use Rattle.security_key.specs.declared.serving.Act.TheVariants as act;
ghost use Rattle.security_key.specs.declared.serving.Served.TheVariants as serves;

use crate::computing::compute_on;
use crate::deciding::{Decision, decide_as_it_is, decide_granted, is_set, touched};
use crate::error::KeyError;
use crate::key::KeyDevice;
use crate::reading::read;
use crate::sending::{answer, make_room};
use crate::stage::{Computation, Stage, Told};
use authenticator::{Consent, NO_KEYS, Pending, PublicKeys, Words};
use hidframe::Packet;
use hidframe::ctaphid::STATUS_UPNEEDED;
use hidlink::DeviceEvent;
use key_pin::{ClientPin, PinWords};
use pin_protocols::Answers;
use security_key::{Act, Served, begin_serving, drain, finish_serving};
use std::alloc::Global;

/// What the device told of an act that signs nothing.
fn event_of(served: Served) -> DeviceEvent
    ensures { (event : DeviceEvent) → served ≡ serves.Done event → result ≡ event }
{
    match served {
        Served::Done(event) => event,
        Served::Signs(_) => DeviceEvent::Quiet,
    }
}

/// A try that is under way is over.
fn give_up(pin: &mut Option<ClientPin>)
    ensures { option_map pin_view pin.new ≡ option_map over (option_map pin_view pin.old) }
{
    if let Some(pin) = pin {
        pin.give_up();
    }
}

/// Whether a PIN is set.
fn has_pin(pin: &Option<ClientPin>) -> bool
    ensures { result ≡ is_some (is_set (option_map pin_view pin.now)) }
{
    match pin {
        Some(pin) => is_set(pin),
        None => false,
    }
}

/// What a decision comes to.
fn decided(stage: &mut Stage, pending: &mut Option<Pending>, waits: Option<Pending>) -> Told
    ensures { IsDecision waits result stage.old stage.new pending.new }
{
    let told = match &waits {
        Some(_) => Told::Signs,
        None => {
            *stage = Stage::Nothing;
            Told::Event(DeviceEvent::Quiet)
        }
    };
    *pending = waits;
    told
}

impl KeyDevice {
    /// The user is still to decide on the request that waits: a keepalive.
    pub fn wait(&mut self, out: &mut Vec<Packet>) -> Result<Told, KeyError>
        ensures waited { IfOk result (λ t. PassesOn self.old act.Wait out.old.items t self.new out.new.items) }
        ensures not_working { IsErrOf result errors.NotWorking → IsWorking self.old.device.state → ⊥ }
        ensures errors { OnErr result (IsErrOf result errors.NotWorking ⊎ IsErrOf result errors.Memory) }
        ensures unchanged { OnErr result (self.new ≡ self.old) }
        ensures out { OnErr result (out.new.items ≡ out.old.items) }
    {
        make_room(out)?;
        match self.device.keepalive(STATUS_UPNEEDED) {
            Ok(()) => {
                drain(&mut self.device, out);
                Ok(Told::Event(DeviceEvent::Quiet))
            }
            Err(_) => Err(KeyError::NotWorking),
        }
    }

    /// The message that is coming in took too long.
    pub fn expire(&mut self, out: &mut Vec<Packet>) -> Result<Told, KeyError>
        ensures expired { IfOk result (λ t. PassesOn self.old act.Expire out.old.items t self.new out.new.items) }
        ensures memory { OnErr result (IsErrOf result errors.Memory) }
        ensures unchanged { OnErr result (self.new ≡ self.old) }
        ensures out { OnErr result (out.new.items ≡ out.old.items) }
    {
        make_room(out)?;
        self.device.expire();
        drain(&mut self.device, out);
        Ok(Told::Event(DeviceEvent::Quiet))
    }

    /// A packet comes. A request that is complete with it is read.
    pub fn packet(
        &mut self,
        alloc: Global,
        packet: Packet,
        out: &mut Vec<Packet>,
    ) -> Result<Told, KeyError>
        ensures taken { IfOk result (λ t. TakesPacket self.old packet out.old.items t self.new out.new.items) }
        ensures memory { OnErr result (IsErrOf result errors.Memory) }
        ensures unchanged { OnErr result (self.new ≡ self.old) }
        ensures out { OnErr result (out.new.items ≡ out.old.items) }
    {
        let worked = self.device.working().is_some();
        let served = begin_serving(
            &mut self.device,
            &mut self.authenticator,
            &NO_KEYS,
            Act::Packet(packet),
            out,
        )?;
        let event = event_of(served);
        match self.device.working() {
            Some(cid) => {
                if worked {
                    Ok(Told::Event(event))
                } else {
                    let told = read(
                        &mut self.device,
                        &self.pin,
                        &mut self.stage,
                        alloc,
                        cid,
                        out,
                    );
                    Ok(told)
                }
            }
            None => {
                give_up(&mut self.pin);
                self.stage = Stage::Nothing;
                self.pending = None;
                Ok(Told::Event(event))
            }
        }
    }

    /// The host's words, for a request that waits for them. One that was not read yet is read, and waits for what is answered then.
    pub fn compute(
        &mut self,
        alloc: Global,
        words: PinWords,
        out: &mut Vec<Packet>,
    ) -> Result<Told, KeyError>
        ensures taken { IfOk result (λ t. TakesWords self.old.stage self.old words out.old.items t self.new out.new.items) }
        // A refusal, where no request waits for words, changes nothing; if memory ran out, the computation may begin anew.
        ensures not_computing { IsErrOf result errors.NotComputing → (WaitsForWords self.old.stage → ⊥) }
        ensures errors { OnErr result (IsErrOf result errors.NotComputing ⊎ IsErrOf result errors.Memory) }
        ensures unchanged { IsErrOf result errors.NotComputing → self.new ≡ self.old }
        ensures memory { OnErr result (WantsWords self.old.stage self.old words self.new) }
        ensures out { OnErr result (out.new.items ≡ out.old.items) }
    {
        make_room(out)?;
        let Some(cid) = self.device.working() else {
            return Err(KeyError::NotComputing);
        };
        match self.stage.take() {
            Stage::Words(request) => compute_on(
                &mut self.device,
                &mut self.pin,
                &mut self.stage,
                alloc,
                cid,
                request,
                words,
                Answers::new(alloc),
                out,
            ),
            Stage::Unread => Ok(read(
                &mut self.device,
                &self.pin,
                &mut self.stage,
                alloc,
                cid,
                out,
            )),
            stage => {
                self.stage = stage;
                Err(KeyError::NotComputing)
            }
        }
    }

    /// The host's answer to what it is asked.
    pub fn answer(
        &mut self,
        alloc: Global,
        answer: Vec<u8>,
        out: &mut Vec<Packet>,
    ) -> Result<Told, KeyError>
        ensures taken { IfOk result (λ t. TakesAnswer self.old.stage self.old answer.items out.old.items t self.new out.new.items) }
        // A refusal, where nothing is asked, changes nothing; if memory ran out, the computation may begin anew.
        ensures not_asking { IsErrOf result errors.NotAsking → (WaitsForAnswer self.old.stage → ⊥) }
        ensures errors { OnErr result (IsErrOf result errors.NotAsking ⊎ IsErrOf result errors.Memory) }
        ensures unchanged { IsErrOf result errors.NotAsking → self.new ≡ self.old }
        ensures memory { OnErr result (WantsAnswer self.old.stage self.old answer.items self.new) }
        ensures out { OnErr result (out.new.items ≡ out.old.items) }
    {
        make_room(out)?;
        let Some(cid) = self.device.working() else {
            return Err(KeyError::NotAsking);
        };
        match self.stage.take() {
            Stage::Answer(request, computation) => {
                let Computation {
                    words,
                    mut answers,
                    ask,
                } = computation;
                match answers.add(ask, answer) {
                    Ok(()) => compute_on(
                        &mut self.device,
                        &mut self.pin,
                        &mut self.stage,
                        alloc,
                        cid,
                        request,
                        words,
                        answers,
                        out,
                    ),
                    Err(_) => {
                        self.stage = Stage::Words(request);
                        Err(KeyError::Memory)
                    }
                }
            }
            stage => {
                self.stage = stage;
                Err(KeyError::NotAsking)
            }
        }
    }

    /// The user decides on the request that waits; the random words are for a credential that it may make. Of a key that takes PINs
    /// a token says whether the user is verified, and not the consent. A request that was not read yet is read, and waits for what
    /// is answered then.
    pub fn decide<K: PublicKeys>(
        &mut self,
        alloc: Global,
        keys: &K,
        consent: Consent,
        words: Words,
        out: &mut Vec<Packet>,
    ) -> Result<Told, KeyError>
        // by each function from secrets to keys that has the keys' own for the secret that is passed
        ensures taken { (public : Keys) → AgreesOn words.secret public (K.public_of keys.now)
            → IfOk result (λ t. TakesDecision public self.old.stage self.old consent words out.old.items t self.new out.new.items) }
        // A refusal changes nothing: memory ran out, or a request waits for the user.
        ensures not_working { IsErrOf result errors.NotWorking → (WaitsForUser self.old.stage → ⊥) }
        ensures errors { OnErr result (IsErrOf result errors.NotWorking ⊎ IsErrOf result errors.Memory) }
        ensures unchanged { OnErr result (self.new ≡ self.old) }
        ensures out { OnErr result (out.new.items ≡ out.old.items) }
    {
        make_room(out)?;
        let Some(channel) = self.device.working() else {
            return Err(KeyError::NotWorking);
        };
        let decision = Decision {
            channel,
            consent,
            words,
        };
        let (device, authenticator) = (&mut self.device, &mut self.authenticator);
        let pin = &mut self.pin;
        match &self.stage {
            Stage::User => {
                let waits = decide_as_it_is(
                    device,
                    authenticator,
                    pin,
                    alloc,
                    keys,
                    decision,
                    out,
                )?;
                Ok(decided(&mut self.stage, &mut self.pending, waits))
            }
            Stage::Granted(granted) => {
                let waits = decide_granted(
                    device,
                    authenticator,
                    pin,
                    granted,
                    keys,
                    decision,
                    out,
                )?;
                Ok(decided(&mut self.stage, &mut self.pending, waits))
            }
            Stage::Touch => {
                answer(device, &[touched(has_pin(pin), consent.present)], out);
                Ok(decided(&mut self.stage, &mut self.pending, None))
            }
            Stage::Unread => Ok(read(device, pin, &mut self.stage, alloc, channel, out)),
            _ => Err(KeyError::NotWorking),
        }
    }

    /// Takes the signature, of 1 to 128 bytes, that is waited for, and answers the request.
    pub fn sign(&mut self, signature: &[u8], out: &mut Vec<Packet>) -> Result<(), KeyError>
        requires low { 1 ≤ length signature.now }
        requires high { length signature.now ≤ 128 }
        ensures signed { OnOk result (IsSigned self.old out.old.items signature.now self.new out.new.items) }
        // It is refused where nothing waits for one; and only if memory runs out, and then what waited is gone, and nothing else has
        // changed.
        ensures not_signing { IsErrOf result errors.NotSigning → self.old.pending ≡ None }
        ensures memory { OnErr result (IsErrOf result errors.NotSigning ⊎ (IsErrOf result errors.Memory × IsSome self.old.pending)) }
        ensures refused { OnErr result (self.new ≡ record self.old { pending = None }) }
        ensures out { OnErr result (out.new.items ≡ out.old.items) }
    {
        let Some(pending) = self.pending.take() else {
            return Err(KeyError::NotSigning);
        };
        finish_serving(
            &mut self.device,
            &mut self.authenticator,
            pending,
            signature,
            out,
        )?;
        self.stage = Stage::Nothing;
        Ok(())
    }
}
