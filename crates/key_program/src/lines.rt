//! The security key over lines.

ghost use Rattle.std.specs.Prelude.{◌≡◌, ◌++◌, [], IfErr, IfOk, OnErr, OnOk};
ghost use Rattle.key_device.specs.Key.{IsNew, asked_at};
ghost use Rattle.key_device.specs.declared.error.KeyError.TheVariants as errors;
ghost use Rattle.key_program.specs.Lines.{Answers, Does, IsCarriedOut, IsRefused, IsSavedPin, done_lines, fault_line, given_lines};
ghost use Rattle.key_program.specs.Told.{act_lines};
ghost use Rattle.key_program.specs.declared.command.LineCommand.TheVariants as lines;
ghost use Rattle.key_program.specs.declared.lines.Fault.TheVariants as faults;

use crate::command::{LineCommand, line_command};
use crate::telling::{
    MOST_TOLD, tell_ask, tell_bytes, tell_channel, tell_event, tell_packets, tell_pending,
};
use authdata::AttestationType;
use authenticator::MAX_SIGNATURE;
use hidframe::Packet;
use key_device::{KeyDevice, KeyError, KeyLoadError, Told, UserVerification};
use std::alloc::{AllocError, Global};
use std::marker::Model;

/// Why a line has no effect.
#[derive(Clone, Copy, Drop)]
enum Fault {
    /// It has none of the forms that the key reads.
    BadLine,
    /// A signature has 1 to 128 bytes.
    BadSignature,
    /// The bytes are no saved authenticator.
    BadAuthenticator,
    /// The bytes are no saved PIN.
    BadPin,
    /// The key refuses it.
    Refused(KeyError),
}

impl From<AllocError> for Fault {
    ghost from_gives = { λ _ f. f ≡ faults.Refused errors.Memory };

    fn from(_e: AllocError) -> Fault {
        Fault::Refused(KeyError::Memory)
    }
}

impl From<KeyError> for Fault {
    ghost from_gives = { λ e f. f ≡ faults.Refused e };

    fn from(error: KeyError) -> Fault {
        Fault::Refused(error)
    }
}

impl From<KeyLoadError> for Fault {
    ghost use Rattle.key_program.specs.Lines.{told_of_load};

    ghost from_gives = { λ e f. f ≡ told_of_load e };

    fn from(error: KeyLoadError) -> Fault {
        match error {
            KeyLoadError::BadAuthenticator => Fault::BadAuthenticator,
            KeyLoadError::BadPin => Fault::BadPin,
            KeyLoadError::NoPin => Fault::BadLine,
            KeyLoadError::Memory => Fault::Refused(KeyError::Memory),
        }
    }
}

/// The text of a fault.
fn text(fault: Fault) -> &'static str
    ensures { result.now ≡ fault_line fault }
{
    match fault {
        Fault::BadLine => "error bad line\n",
        Fault::BadSignature => "error a signature has 1 to 128 bytes\n",
        Fault::BadAuthenticator => "error the bytes are no saved authenticator\n",
        Fault::BadPin => "error the bytes are no saved PIN\n",
        Fault::Refused(error) => match error {
            KeyError::NotWorking => "error no request waits for a decision\n",
            KeyError::NotComputing => "error no request waits for words\n",
            KeyError::NotAsking => "error nothing is asked\n",
            KeyError::NotSigning => "error no request waits for a signature\n",
            KeyError::Memory => "error out of memory\n",
        },
    }
}

/// What a line gives beside packets.
#[derive(Drop)]
enum Given {
    /// What an act came to.
    Told(Told),
    /// The authenticator's saved bytes, and the PIN's where it takes PINs.
    Saved(Vec<u8>, Option<Vec<u8>>),
    /// Nothing.
    Nothing,
}

/// A security key, and the packets that a line is answered by.
#[derive(Drop)]
pub struct KeyLines {
    key: KeyDevice,
    sent: Vec<Packet>,
}

impl Model for KeyLines {
    ghost use Rattle.key_program.specs.Lines.{KeyLinesState};

    ghost Value = { KeyLinesState };

    ghost view = { λ k. record { key = k.key; sent = k.sent.items } };
}

/// The saved bytes of its PIN, where it takes PINs.
fn saved_pin(key: &KeyDevice, alloc: Global) -> Result<Option<Vec<u8>>, AllocError>
    ensures { IfOk result (IsSavedPin key.now.pin) }
{
    if !key.takes_pin() {
        return Ok(None);
    }
    let mut pin = Vec::new(alloc);
    key.save_pin(&mut pin)?;
    Ok(Some(pin))
}

/// Tells what an act came to.
fn tell_act(key: &KeyDevice, act: Told, told: &mut Vec<u8>) -> Result<(), AllocError>
    ensures { OnOk result (told.new.items ≡ told.old.items ++ act_lines act (asked_at key.now.stage) key.now.pending) }
{
    match act {
        Told::Event(event) => tell_event(told, event),
        Told::Computes { cid } => tell_channel(told, b"computes ", cid),
        Told::Asks => match key.ask() {
            Some(ask) => tell_ask(told, ask),
            None => Ok(()),
        },
        Told::Signs => match key.pending() {
            Some(pending) => tell_pending(told, pending),
            None => Ok(()),
        },
    }
}

/// Tells what a line gave.
fn tell(key: &KeyDevice, given: Given, told: &mut Vec<u8>) -> Result<(), AllocError>
    ensures { OnOk result (told.new.items ≡ told.old.items ++ given_lines given key.now) }
{
    match given {
        Given::Told(act) => tell_act(key, act, told),
        Given::Saved(authenticator, pin) => {
            tell_bytes(told, b"saved ", &authenticator)?;
            match pin {
                Some(pin) => tell_bytes(told, b"pin ", &pin),
                None => Ok(()),
            }
        }
        Given::Nothing => Ok(()),
    }
}

impl KeyLines {
    /// A security key without credentials and PIN, whose device has handed out no channel.
    pub fn new(
        alloc: Global,
        aaguid: [u8; 16],
        verification: UserVerification,
        attest: AttestationType,
    ) -> Result<KeyLines, AllocError>
        ensures created { IfOk result (λ k. IsNew aaguid verification attest k.key) }
        ensures sent { IfOk result (λ k. k.sent ≡ []) }
    {
        Ok(KeyLines {
            key: KeyDevice::new(alloc, aaguid, verification, attest)?,
            sent: Vec::new(alloc),
        })
    }

    /// Takes the signature that is waited for, and answers the request.
    fn sign(&mut self, signature: Vec<u8>) -> Result<Given, Fault>
        ensures done { IfOk result (λ g. IsCarriedOut (lines.Signature signature) self.old.key self.old.sent g self.new.key self.new.sent) }
        ensures refused { IfErr result (λ f. IsRefused (lines.Signature signature) self.old.key f self.new.key) }
        ensures sent { OnErr result (self.new.sent ≡ self.old.sent) }
    {
        if signature.is_empty() || MAX_SIGNATURE < signature.len() {
            return Err(Fault::BadSignature);
        }
        self.key.sign(&signature, &mut self.sent)?;
        Ok(Given::Nothing)
    }

    /// The saved bytes, in which secrets stand as they are.
    fn save(&self, alloc: Global) -> Result<Given, Fault>
        ensures done { IfOk result (λ g. IsCarriedOut lines.Save self.now.key self.now.sent g self.now.key self.now.sent) }
        ensures refused { IfErr result (λ f. f ≡ faults.Refused errors.Memory) }
    {
        let mut authenticator = Vec::new(alloc);
        self.key.save(&mut authenticator)?;
        let pin = saved_pin(&self.key, alloc)?;
        Ok(Given::Saved(authenticator, pin))
    }

    /// Does what a line says.
    fn carry_out(&mut self, alloc: Global, command: LineCommand) -> Result<Given, Fault>
        ensures done { IfOk result (λ g. IsCarriedOut command self.old.key self.old.sent g self.new.key self.new.sent) }
        ensures refused { IfErr result (λ f. IsRefused command self.old.key f self.new.key) }
        ensures sent { OnErr result (self.new.sent ≡ self.old.sent) }
    {
        let (key, sent) = (&mut self.key, &mut self.sent);
        match command {
            LineCommand::Packet(packet) => Ok(Given::Told(key.packet(alloc, packet, sent)?)),
            LineCommand::Decide(consent, words, keys) => {
                Ok(Given::Told(key.decide(alloc, &keys, consent, words, sent)?))
            }
            LineCommand::Wait => Ok(Given::Told(key.wait(sent)?)),
            LineCommand::Expire => Ok(Given::Told(key.expire(sent)?)),
            LineCommand::Compute(words) => Ok(Given::Told(key.compute(alloc, words, sent)?)),
            LineCommand::Answer(answer) => Ok(Given::Told(key.answer(alloc, answer, sent)?)),
            LineCommand::Signature(signature) => self.sign(signature),
            LineCommand::Save => self.save(alloc),
            LineCommand::Load(bytes) => {
                key.load(alloc, &bytes)?;
                Ok(Given::Nothing)
            }
            LineCommand::LoadPin(bytes) => {
                key.load_pin(&bytes)?;
                Ok(Given::Nothing)
            }
            LineCommand::Power => {
                key.power_up(alloc)?;
                Ok(Given::Nothing)
            }
            LineCommand::Over => {
                key.end_token();
                Ok(Given::Nothing)
            }
        }
    }

    /// Does what a line says, where it has one of the forms.
    fn do_line(&mut self, alloc: Global, line: &str) -> Result<Given, Fault>
        ensures { Does line.now self.old.key result self.new.key self.new.sent }
    {
        self.sent.clear();
        match line_command(alloc, self.key.takes_pin(), line) {
            Some(command) => self.carry_out(alloc, command),
            None => Err(Fault::BadLine),
        }
    }

    /// Tells what came of a line.
    fn tell_done(&self, done: Result<Given, Fault>, told: &mut Vec<u8>) -> Result<(), AllocError>
        ensures { OnOk result (told.new.items ≡ told.old.items ++ done_lines done self.now.key) }
    {
        match done {
            Ok(given) => tell(&self.key, given, told),
            Err(fault) => told.extend_from_slice(text(fault).as_bytes()),
        }
    }

    /// Answers a line: what it gives, or an error; and after that a line of a dot. Refused only where there was no memory to tell it.
    pub fn answer(
        &mut self,
        alloc: Global,
        line: &str,
        told: &mut Vec<u8>,
    ) -> Result<(), AllocError>
        ensures { OnOk result (Answers line.now self.old.key told.old.items self.new.key told.new.items) }
    {
        told.reserve(MOST_TOLD)?;
        let done = self.do_line(alloc, line);
        self.tell_done(done, told)?;
        tell_packets(told, self.sent.as_slice())?;
        told.extend_from_slice(b".\n")
    }
}
