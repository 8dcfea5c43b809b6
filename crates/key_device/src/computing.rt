//! What the PIN makes of a request.

ghost use Rattle.std.specs.Prelude.{◌≡◌, ◌+◌, ◌≤◌, ◌∷◌, [], IfErr, IfOk, IsErrOf, IsSome, OnErr, Some, option_map, vec_capacity, vec_len};
ghost use Rattle.hidlink.specs.Ranks.{IsWorking};
ghost use Rattle.pin_protocols.specs.Asks.{ask_view, entries};
ghost use Rattle.key_pin.specs.State.{PinState, pin_view};
ghost use Rattle.key_device.specs.Computing.{Awaits, Computes, ComputesCommand, ComputesProtected, IsGrantedStage, IsUndone};
ghost use Rattle.key_device.specs.Sending.{IsAnswered};
ghost use Rattle.hidlink.specs.declared.transaction.DeviceEvent.TheVariants as events;
ghost use Rattle.key_device.specs.declared.error.KeyError.TheVariants as errors;
ghost use Rattle.key_device.specs.declared.stage.Stage.TheVariants as stages;
ghost use Rattle.key_device.specs.declared.stage.PinRequest.TheVariants as requests;
ghost use Rattle.key_device.specs.declared.stage.Told.TheVariants as told;

use crate::command::{PinCommand, lent_command};
use crate::error::KeyError;
use crate::sending::answer;
use crate::stage::{Computation, GrantedRequest, PinRequest, ProtectedAsked, Stage, Told};
use hidframe::Packet;
use hidlink::{Device, DeviceEvent};
use key_pin::{ClientPin, Grant, PinStep, PinWords};
use pin_protocols::{Answers, Ask};
use std::alloc::Global;

/// Nothing more is waited for.
const DONE: Told = Told::Event(DeviceEvent::Quiet);

/// The host is asked.
fn asks(request: PinRequest, words: PinWords, answers: Answers, ask: Ask) -> (Stage, Told)
    ensures awaits { Awaits request words (entries answers) (ask_view ask) result.0 }
    ensures told { result.1 ≡ told.Asks }
{
    let computation = Computation {
        words,
        answers,
        ask,
    };
    (Stage::Answer(request, computation), Told::Asks)
}

/// A token grants it: the user decides.
fn grants(asked: ProtectedAsked, cid: u32) -> (Stage, Told)
    ensures granted { IsGrantedStage asked result.0 }
    ensures told { result.1 ≡ told.Event (events.Request cid) }
{
    let ProtectedAsked {
        bytes,
        presence,
        ..
    } = asked;
    let granted = GrantedRequest { bytes, presence };
    let waits = Told::Event(DeviceEvent::Request { cid });
    (Stage::Granted(granted), waits)
}

/// It is answered by a status.
fn refuses(device: &mut Device, status: u8, out: &mut Vec<Packet>) -> (Stage, Told)
    requires left { device.old.left ≡ [] }
    requires works { IsWorking device.old.state }
    requires room { vec_len out.old + 129 ≤ vec_capacity out.old }
    ensures stage { result.0 ≡ stages.Nothing }
    ensures told { result.1 ≡ told.Event events.Quiet }
    ensures answered { IsAnswered device.old out.old.items (status ∷ []) device.new out.new.items }
    ensures drained { device.new.left ≡ [] }
{
    answer(device, &[status], out);
    (Stage::Nothing, DONE)
}

/// A request of authenticatorClientPIN goes on. Without memory it is to begin anew: it comes back.
fn command_goes_on(
    device: &mut Device,
    pin: &mut ClientPin,
    alloc: Global,
    command: PinCommand,
    words: PinWords,
    answers: Answers,
    out: &mut Vec<Packet>,
) -> Result<(Stage, Told), PinRequest>
    requires left { device.old.left ≡ [] }
    requires works { IsWorking device.old.state }
    requires room { vec_len out.old + 129 ≤ vec_capacity out.old }
    ensures computed { IfOk result (λ r. ComputesCommand (pin_view pin.old) words (entries answers) device.old out.old.items (requests.Command command) r.0 r.1
        (pin_view pin.new) device.new out.new.items) }
    ensures drained { device.new.left ≡ [] }
    // Without memory what was read comes back, and device and `out` are as they were.
    ensures back { IfErr result (λ r. r ≡ requests.Command command) }
    ensures undone { OnErr result (IsUndone (pin_view pin.old) words (entries answers) (requests.Command command) (pin_view pin.new)) }
    ensures device { OnErr result (device.new ≡ device.old) }
    ensures out { OnErr result (out.new.items ≡ out.old.items) }
{
    match pin.handle(alloc, &lent_command(&command), &words, &answers) {
        Ok(PinStep::Asks(ask)) => Ok(asks(PinRequest::Command(command), words, answers, ask)),
        Ok(PinStep::Replies(reply)) => {
            answer(device, &reply, out);
            Ok((Stage::Nothing, DONE))
        }
        Err(_) => Err(PinRequest::Command(command)),
    }
}

/// A makeCredential or getAssertion goes on: whether the token grants it. Without memory it is to begin anew: it comes back.
fn protected_goes_on(
    device: &mut Device,
    pin: &mut ClientPin,
    alloc: Global,
    cid: u32,
    asked: ProtectedAsked,
    words: PinWords,
    answers: Answers,
    out: &mut Vec<Packet>,
) -> Result<(Stage, Told), PinRequest>
    requires left { device.old.left ≡ [] }
    requires works { IsWorking device.old.state }
    requires room { vec_len out.old + 129 ≤ vec_capacity out.old }
    ensures computed { IfOk result (λ r. ComputesProtected (pin_view pin.old) words (entries answers) device.old cid out.old.items (requests.Protected asked) r.0 r.1
        (pin_view pin.new) device.new out.new.items) }
    ensures drained { device.new.left ≡ [] }
    // Without memory what was read comes back, and device and `out` are as they were.
    ensures back { IfErr result (λ r. r ≡ requests.Protected asked) }
    ensures undone { OnErr result (IsUndone (pin_view pin.old) words (entries answers) (requests.Protected asked) (pin_view pin.new)) }
    ensures device { OnErr result (device.new ≡ device.old) }
    ensures out { OnErr result (out.new.items ≡ out.old.items) }
{
    let grant = pin.verify(
        alloc,
        &answers,
        asked.protocol,
        &asked.param,
        asked.permission,
        &asked.rp_id,
        &asked.client_data_hash,
    );
    match grant {
        Ok(Grant::Asks(ask)) => Ok(asks(PinRequest::Protected(asked), words, answers, ask)),
        Ok(Grant::Granted) => Ok(grants(asked, cid)),
        Ok(Grant::Refused(status)) => Ok(refuses(device, status, out)),
        Err(_) => Err(PinRequest::Protected(asked)),
    }
}

/// A request in which the PIN has a part goes on by the host's words and its answers so far: what it waits for then. Without memory
/// it is to begin anew: it comes back.
fn go_on(
    device: &mut Device,
    pin: &mut ClientPin,
    alloc: Global,
    cid: u32,
    request: PinRequest,
    words: PinWords,
    answers: Answers,
    out: &mut Vec<Packet>,
) -> Result<(Stage, Told), PinRequest>
    requires left { device.old.left ≡ [] }
    requires works { IsWorking device.old.state }
    requires room { vec_len out.old + 129 ≤ vec_capacity out.old }
    ensures computed { IfOk result (λ r. Computes (pin_view pin.old) words (entries answers) device.old cid out.old.items request r.0 r.1
        (pin_view pin.new) device.new out.new.items) }
    ensures drained { device.new.left ≡ [] }
    // Without memory what was read comes back, and device and `out` are as they were.
    ensures back { IfErr result (λ r. r ≡ request) }
    ensures undone { OnErr result (IsUndone (pin_view pin.old) words (entries answers) request (pin_view pin.new)) }
    ensures device { OnErr result (device.new ≡ device.old) }
    ensures out { OnErr result (out.new.items ≡ out.old.items) }
{
    match request {
        PinRequest::Command(command) => {
            command_goes_on(device, pin, alloc, command, words, answers, out)
        }
        PinRequest::Protected(asked) => {
            protected_goes_on(device, pin, alloc, cid, asked, words, answers, out)
        }
    }
}

/// Goes on, or begins, with a key that takes PINs, and keeps what the request waits for then: without memory the host's words, anew.
pub(crate) fn compute_on(
    device: &mut Device,
    pin: &mut Option<ClientPin>,
    stage: &mut Stage,
    alloc: Global,
    cid: u32,
    request: PinRequest,
    words: PinWords,
    answers: Answers,
    out: &mut Vec<Packet>,
) -> Result<Told, KeyError>
    requires left { device.old.left ≡ [] }
    requires works { IsWorking device.old.state }
    requires room { vec_len out.old + 129 ≤ vec_capacity out.old }
    requires takes { IsSome pin.old }
    ensures computed { IfOk result (λ t. (s : PinState) × (u : PinState) × (option_map pin_view pin.old ≡ Some s) × (option_map pin_view pin.new ≡ Some u)
        × Computes s words (entries answers) device.old cid out.old.items request stage.new t u device.new out.new.items) }
    ensures drained { device.new.left ≡ [] }
    // Without memory device and `out` are as they were.
    ensures memory { OnErr result (IsErrOf result errors.Memory) }
    ensures undone { OnErr result ((s : PinState) × (u : PinState) × (option_map pin_view pin.old ≡ Some s) × (option_map pin_view pin.new ≡ Some u)
        × IsUndone s words (entries answers) request u) }
    ensures stage { OnErr result (stage.new ≡ stages.Words request) }
    ensures device { OnErr result (device.new ≡ device.old) }
    ensures out { OnErr result (out.new.items ≡ out.old.items) }
{
    let Some(pin) = pin else {
        unreachable!("it takes PINs");
    };
    match go_on(device, pin, alloc, cid, request, words, answers, out) {
        Ok((next, told)) => {
            *stage = next;
            Ok(told)
        }
        Err(request) => {
            *stage = Stage::Words(request);
            Err(KeyError::Memory)
        }
    }
}
