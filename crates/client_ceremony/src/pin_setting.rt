//! A first PIN, and another (CTAP 2.1, sections 6.5.5.5 and 6.5.5.6).

ghost use Rattle.std.specs.Prelude.{◌≡◌, ◌<◌, IfErr, IfOk};
ghost use Rattle.ctap_open_replies.specs.ReplyView.{info_view};
ghost use Rattle.pin_client_messages.specs.CommandView.{point_view};
ghost use Rattle.client_ceremony.specs.Ceremonies.{ChangesBy, ChangesPin, Done, SetsBy, SetsNot, SetsPin, SetsTo, min_length, pin_set_fault};
ghost use Rattle.client_ceremony.specs.Facts.{facts};
ghost use Rattle.client_ceremony.specs.Pieces.{OrMemory};

use crate::halt::{Halt, stopped};
use crate::refusal::{Refusal, of_reply};
use crate::replies::{agreement, reply_to, user_pin};
use crate::step::Step;
use crate::told::protocol_of;
use crate::wish::Known;
use ctap_open_replies::KeyInfo;
use ctap_open_requests::option_value;
use pin_client_messages::{Point, read_done};
use pin_protocols::{Protocol, change_pin_request, set_pin_request};
use std::alloc::Global;

/// Why there is no PIN to be set, or none to be changed, where the key told this.
fn pin_set_fault(is_set: bool, told: Option<bool>) -> Option<Refusal>
    ensures { result ≡ pin_set_fault is_set told }
{
    match told {
        None => Some(Refusal::PinNotOffered),
        Some(true) => {
            if is_set {
                None
            } else {
                Some(Refusal::PinAlreadySet)
            }
        }
        Some(false) => {
            if is_set {
                Some(Refusal::PinNotSet)
            } else {
                None
            }
        }
    }
}

/// The protocol, where the key has a PIN or not, as is wanted.
fn protocol_where(info: &KeyInfo<'_>, is_set: bool) -> Result<Protocol, Refusal>
    ensures sets { IfOk result (SetsBy (info_view info.now) is_set) }
    ensures not { IfErr result (SetsNot (info_view info.now) is_set) }
{
    match pin_set_fault(is_set, option_value(info, "clientPin")) {
        Some(refusal) => return Err(refusal),
        None => {}
    }
    match protocol_of(info) {
        Some(protocol) => Ok(protocol),
        None => Err(Refusal::NoProtocol),
    }
}

/// How many code points a PIN has at least.
fn min_pin_length(info: &KeyInfo<'_>) -> u64
    ensures { result ≡ min_length (info_view info.now) }
{
    match info.min_pin_length {
        Some(min) => min,
        None => 4,
    }
}

/// What is next with this request, before which so many messages are sent.
fn done<'a>(known: &Known<'a>, place: usize, request: Vec<u8>) -> Halt<'a>
    requires { place < 8 }
    ensures { OrMemory (Done (facts known.now) place (λ m. m ≡ request.items)) result }
{
    let reply = match reply_to(known, place, request) {
        Ok(reply) => reply,
        Err(halt) => return halt,
    };
    match read_done(reply) {
        Ok(()) => Halt::Steps(place + 1, Step::PinIsSet),
        Err(e) => Halt::Refuses(of_reply(e)),
    }
}

/// A first PIN with this point.
fn set_to<'a>(
    alloc: Global,
    known: &Known<'a>,
    info: &KeyInfo<'_>,
    protocol: Protocol,
    peer: &Point<'_>,
    new_pin: &str,
) -> Halt<'a>
    ensures { OrMemory (SetsTo (facts known.now) (info_view info.now) new_pin.now protocol (point_view peer.now)) result }
{
    let min = min_pin_length(info);
    match set_pin_request(alloc, known.answers, protocol, peer, min, new_pin) {
        Ok(request) => done(known, 2, request),
        Err(stop) => stopped(2, stop),
    }
}

/// A first PIN, after getInfo.
pub(crate) fn first_pin<'a>(
    alloc: Global,
    known: &Known<'a>,
    info: &KeyInfo<'_>,
    new_pin: &str,
) -> Halt<'a>
    ensures { OrMemory (SetsPin (facts known.now) (info_view info.now) new_pin.now) result }
{
    let protocol = match protocol_where(info, false) {
        Ok(protocol) => protocol,
        Err(refusal) => return Halt::Refuses(refusal),
    };
    match agreement(alloc, known, 1, protocol) {
        Ok(peer) => set_to(alloc, known, info, protocol, &peer, new_pin),
        Err(halt) => halt,
    }
}

/// Another PIN with this point, in place of this one.
fn changed_to<'a>(
    alloc: Global,
    known: &Known<'a>,
    info: &KeyInfo<'_>,
    protocol: Protocol,
    peer: &Point<'_>,
    pin: &str,
    new_pin: &str,
) -> Halt<'a>
    ensures { OrMemory (ChangesBy (facts known.now) (info_view info.now) new_pin.now protocol pin.now (point_view peer.now)) result }
{
    let min = min_pin_length(info);
    match change_pin_request(alloc, known.answers, protocol, peer, pin, min, new_pin) {
        Ok(request) => done(known, 3, request),
        Err(stop) => stopped(3, stop),
    }
}

/// Another PIN, after getInfo.
pub(crate) fn another_pin<'a>(
    alloc: Global,
    known: &Known<'a>,
    info: &KeyInfo<'_>,
    new_pin: &str,
) -> Halt<'a>
    ensures { OrMemory (ChangesPin (facts known.now) (info_view info.now) new_pin.now) result }
{
    let protocol = match protocol_where(info, true) {
        Ok(protocol) => protocol,
        Err(refusal) => return Halt::Refuses(refusal),
    };
    let pin = match user_pin(alloc, known, protocol) {
        Ok(pin) => pin,
        Err(halt) => return halt,
    };
    match agreement(alloc, known, 2, protocol) {
        Ok(peer) => changed_to(alloc, known, info, protocol, &peer, pin, new_pin),
        Err(halt) => halt,
    }
}
