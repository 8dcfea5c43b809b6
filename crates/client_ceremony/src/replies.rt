//! Messages and their replies.

ghost use Rattle.std.specs.Prelude.{◌≡◌, ◌∷◌, [], true, IfOk, IfErr, None, Some, slice_get};
ghost use Rattle.ctap_open_replies.specs.Replies.{IsReply, TellsInfo};
ghost use Rattle.ctap_open_replies.specs.ReplyView.{info_view};
ghost use Rattle.pin_client_messages.specs.CommandView.{command_view, point_view};
ghost use Rattle.pin_client_messages.specs.Replies.{TellsPin};
ghost use Rattle.pin_client_messages.specs.ReplyView.{reply_view};
ghost use Rattle.client_ceremony.specs.Ceremonies.{GetsInfo, HasInfo, NoInfo};
ghost use Rattle.client_ceremony.specs.Exchanges.{Told, Unread, Untold};
ghost use Rattle.client_ceremony.specs.Facts.{facts};
ghost use Rattle.client_ceremony.specs.Pieces.{OrMemory, OrNoRoom};
ghost use Rattle.client_ceremony.specs.Tokens.{Asking, HasPin, HasPoint, HasRetries, IsPointOf, NoBytes, NoPin, NoPoint, NoPointOf, NoRetries, PinTold, PinUntold, is_true, none_left, retries_fault};
ghost use Rattle.client_ceremony.specs.declared.halt.Halt.TheVariants as halts;
ghost use Rattle.client_ceremony.specs.declared.step.Step.TheVariants as steps;

use crate::halt::Halt;
use crate::refusal::{Refusal, of_reply};
use crate::step::Step;
use crate::told::is_fido2;
use crate::wish::Known;
use ctap_encoding::Error;
use ctap_encoding::command::GET_INFO;
use ctap_open_replies::{KeyInfo, read_info};
use ctap_open_requests::RequestError;
use pin_client_messages::{PinCommand, PinReply, Point, read_pin_reply, write_pin};
use pin_protocols::Protocol;
use std::alloc::{AllocError, Global};

/// The message of a command byte alone.
pub(crate) fn bare(alloc: Global, command: u8) -> Result<Vec<u8>, AllocError>
    ensures { IfOk result (λ m. m.items ≡ command ∷ []) }
{
    let mut message = Vec::new(alloc);
    message.push(command)?;
    Ok(message)
}

/// The reply to this message, before which so many others are sent.
pub(crate) fn reply_to<'a>(
    known: &Known<'a>,
    place: usize,
    message: Vec<u8>,
) -> Result<&'a [u8], Halt<'a>>
    ensures replied { IfOk result (λ r. slice_get (facts known.now).replies place ≡ Some r.now) }
    ensures sends { IfErr result (λ h. (slice_get (facts known.now).replies place ≡ None) × (h ≡ halts.Steps place (steps.Sends message))) }
{
    match known.replies.get(place) {
        Some(reply) => Ok(reply.as_slice()),
        None => Err(Halt::Steps(place, Step::Sends(message))),
    }
}

/// What a reply to getInfo tells.
fn info_reply<'a>(alloc: Global, reply: &'a [u8]) -> Result<KeyInfo<'a>, Refusal>
    ensures told { IfOk result (λ info. IsReply TellsInfo (info_view info) reply.now) }
    ensures unread { IfErr result (Unread TellsInfo reply.now) }
{
    match read_info(alloc, reply) {
        Ok(info) => Ok(info),
        Err(e) => Err(of_reply(e)),
    }
}

/// What the key told to getInfo.
fn info_told<'a>(alloc: Global, known: &Known<'a>) -> Result<KeyInfo<'a>, Halt<'a>>
    ensures told { IfOk result (λ info. Told (facts known.now) 0 GetsInfo TellsInfo (info_view info)) }
    ensures halts { IfErr result (OrMemory (Untold (facts known.now) 0 GetsInfo TellsInfo)) }
{
    let message = match bare(alloc, GET_INFO) {
        Ok(message) => message,
        Err(_) => return Err(Halt::Refuses(Refusal::Memory)),
    };
    let reply = match reply_to(known, 0, message) {
        Ok(reply) => reply,
        Err(halt) => return Err(halt),
    };
    match info_reply(alloc, reply) {
        Ok(info) => Ok(info),
        Err(refusal) => Err(Halt::Refuses(refusal)),
    }
}

/// What the key told of itself (CTAP 2.1, section 6.4), where it has a version of CTAP 2.
pub(crate) fn information<'a>(alloc: Global, known: &Known<'a>) -> Result<KeyInfo<'a>, Halt<'a>>
    ensures info { IfOk result (λ info. HasInfo (facts known.now) (info_view info)) }
    ensures halts { IfErr result (OrMemory (NoInfo (facts known.now))) }
{
    let info = match info_told(alloc, known) {
        Ok(info) => info,
        Err(halt) => return Err(halt),
    };
    if !is_fido2(&info) {
        return Err(Halt::Refuses(Refusal::U2fOnly));
    }
    Ok(info)
}

/// What a reply to clientPIN tells.
pub(crate) fn pin_reply<'a>(reply: &'a [u8]) -> Result<PinReply<'a>, Refusal>
    ensures told { IfOk result (λ t. IsReply TellsPin (reply_view t) reply.now) }
    ensures unread { IfErr result (Unread TellsPin reply.now) }
{
    match read_pin_reply(reply) {
        Ok(told) => Ok(told),
        Err(e) => Err(of_reply(e)),
    }
}

/// The message of a subcommand.
fn pin_message(
    alloc: Global,
    protocol: Protocol,
    command: &PinCommand<'_>,
) -> Result<Vec<u8>, Refusal>
    ensures written { IfOk result (λ m. Asking protocol (command_view command.now) m.items) }
    ensures none { IfErr result (OrNoRoom (NoBytes protocol (command_view command.now))) }
{
    match write_pin(alloc, protocol.number(), command) {
        Ok(message) => Ok(message),
        Err(Error::Unfit) => Err(Refusal::Request(RequestError::Unfit)),
        Err(_) => Err(Refusal::Memory),
    }
}

/// What is answered to a subcommand, before which so many messages are sent.
fn pin_told<'a>(
    alloc: Global,
    known: &Known<'a>,
    place: usize,
    protocol: Protocol,
    command: &PinCommand<'_>,
) -> Result<PinReply<'a>, Halt<'a>>
    ensures told { IfOk result (λ t. PinTold (facts known.now) place protocol (command_view command.now) (reply_view t)) }
    ensures halts { IfErr result (OrMemory (PinUntold (facts known.now) place protocol (command_view command.now))) }
{
    let message = match pin_message(alloc, protocol, command) {
        Ok(message) => message,
        Err(refusal) => return Err(Halt::Refuses(refusal)),
    };
    let reply = match reply_to(known, place, message) {
        Ok(reply) => reply,
        Err(halt) => return Err(halt),
    };
    match pin_reply(reply) {
        Ok(told) => Ok(told),
        Err(refusal) => Err(Halt::Refuses(refusal)),
    }
}

fn none_left(retries: Option<u64>) -> bool
    ensures { result ≡ none_left retries }
{
    match retries {
        Some(left) => left == 0,
        None => false,
    }
}

fn is_true(told: Option<bool>) -> bool
    ensures { result ≡ is_true told }
{
    match told {
        Some(told) => told,
        None => false,
    }
}

/// Why no PIN is asked for.
fn retries_fault(told: &PinReply<'_>) -> Option<Refusal>
    ensures { result ≡ retries_fault (reply_view told.now) }
{
    if none_left(told.pin_retries) {
        return Some(Refusal::PinBlocked);
    }
    if is_true(told.power_cycle) {
        return Some(Refusal::PowerCycle);
    }
    None
}

/// How many attempts are left, by getPINRetries (CTAP 2.1, section 6.5.5.2), which follows getInfo.
fn retries<'a>(
    alloc: Global,
    known: &Known<'a>,
    protocol: Protocol,
) -> Result<Option<u64>, Halt<'a>>
    ensures left { IfOk result (HasRetries (facts known.now) protocol) }
    ensures halts { IfErr result (OrMemory (NoRetries (facts known.now) protocol)) }
{
    let told = match pin_told(alloc, known, 1, protocol, &PinCommand::PinRetries) {
        Ok(told) => told,
        Err(halt) => return Err(halt),
    };
    match retries_fault(&told) {
        Some(refusal) => Err(Halt::Refuses(refusal)),
        None => Ok(told.pin_retries),
    }
}

/// The user's PIN.
pub(crate) fn user_pin<'a>(
    alloc: Global,
    known: &Known<'a>,
    protocol: Protocol,
) -> Result<&'a str, Halt<'a>>
    ensures pin { IfOk result (λ pin. HasPin (facts known.now) protocol pin.now) }
    ensures halts { IfErr result (OrMemory (NoPin (facts known.now) protocol)) }
{
    let retries = match retries(alloc, known, protocol) {
        Ok(retries) => retries,
        Err(halt) => return Err(halt),
    };
    match known.pin {
        Some(pin) => Ok(pin),
        None => Err(Halt::Steps(2, Step::NeedsPin(retries))),
    }
}

/// The key's point.
fn point_of<'a>(told: &PinReply<'a>) -> Result<Point<'a>, Refusal>
    ensures point { IfOk result (λ p. IsPointOf (reply_view told.now) (point_view p)) }
    ensures none { IfErr result (NoPointOf (reply_view told.now)) }
{
    let key = match told.key {
        Some(key) => key,
        None => return Err(Refusal::NotReadable),
    };
    match key.point() {
        Some(point) => Ok(point),
        None => Err(Refusal::BadPoint),
    }
}

/// The key's point, by getKeyAgreement (CTAP 2.1, section 6.5.5.4), before which so many messages are sent.
pub(crate) fn agreement<'a>(
    alloc: Global,
    known: &Known<'a>,
    place: usize,
    protocol: Protocol,
) -> Result<Point<'a>, Halt<'a>>
    ensures point { IfOk result (λ p. HasPoint (facts known.now) place protocol (point_view p)) }
    ensures halts { IfErr result (OrMemory (NoPoint (facts known.now) place protocol)) }
{
    let told = match pin_told(alloc, known, place, protocol, &PinCommand::KeyAgreement) {
        Ok(told) => told,
        Err(halt) => return Err(halt),
    };
    match point_of(&told) {
        Ok(point) => Ok(point),
        Err(refusal) => Err(Halt::Refuses(refusal)),
    }
}
