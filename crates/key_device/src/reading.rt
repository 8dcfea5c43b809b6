//! Reading a request that is complete.

ghost use Rattle.std.specs.Prelude.{◌≡◌, [], Bool, IfOk, Some, option_map};
ghost use Rattle.hidlink.specs.Ranks.{IsWorking};
ghost use Rattle.key_pin.specs.State.{pin_view};
ghost use Rattle.pin_key_messages.specs.ProtectedView.{flags_view, protection_view};
ghost use Rattle.key_device.specs.Reading.{ByParam, ReadsAs, ReadsCommand, ReadsParam, ReadsProtected, asks_presence, asks_verification, command_of, without_param};
ghost use Rattle.key_device.specs.Stages.{IsReading, Reads};

use crate::command::kept_command;
use crate::deciding::is_set;
use crate::sending::{answer, make_room};
use crate::stage::{PinRequest, ProtectedAsked, Stage, Told};
use ctap_encoding::Error;
use ctap_encoding::command::{CLIENT_PIN, GET_ASSERTION, MAKE_CREDENTIAL};
use ctap_encoding::status::{INVALID_OPTION, OTHER, PUAT_REQUIRED};
use hidframe::Packet;
use hidlink::{Device, DeviceEvent};
use key_pin::ClientPin;
use pin_key_messages::{
    OptionsAsked, ParamView, bare_request, protected_request, read_param, read_pin,
};
use std::alloc::{AllocError, Global};

/// How a request is answered.
#[derive(Drop)]
pub(crate) enum Reading {
    /// By the PIN, or by the authenticator once a token grants it: the host computes.
    Pin(PinRequest),
    /// By the authenticator, as it is, once the user has decided.
    AsItIs,
    /// Its pinUvAuthParam is empty: by a status, once the user touches the key.
    Touch,
    /// By this status.
    Refused(u8),
}

/// The command byte.
pub(crate) fn command_of(request: &[u8]) -> Option<u8>
    ensures { result ≡ command_of request.now }
{
    match request.split_first() {
        Some((command, _)) => Some(*command),
        None => None,
    }
}

/// Whether the option `uv` is there and true.
fn asks_verification(options: Option<OptionsAsked>) -> bool
    ensures { result ≡ asks_verification (option_map flags_view options) }
{
    match options {
        Some(options) => match options.uv {
            Some(uv) => uv,
            None => false,
        },
        None => false,
    }
}

/// Whether the user's presence is asked for: the option `up` is not false.
fn asks_presence(options: Option<OptionsAsked>) -> bool
    ensures { result ≡ asks_presence (option_map flags_view options) }
{
    match options {
        Some(options) => match options.up {
            Some(up) => up,
            None => true,
        },
        None => true,
    }
}

/// A request of authenticatorClientPIN.
fn read_command(alloc: Global, request: &[u8]) -> Result<Reading, AllocError>
    ensures { IfOk result (ReadsCommand request.now) }
{
    match read_pin(request) {
        Ok(asked) => {
            let command = kept_command(alloc, &asked)?;
            Ok(Reading::Pin(PinRequest::Command(command)))
        }
        Err(Error::Status(status)) => Ok(Reading::Refused(status)),
        Err(_) => Ok(Reading::Refused(OTHER)),
    }
}

/// A makeCredential or getAssertion that has this pinUvAuthParam.
fn read_protected(
    alloc: Global,
    request: &[u8],
    view: &ParamView<'_>,
    param: &[u8],
) -> Result<Reading, AllocError>
    ensures { IfOk result (ReadsProtected request.now (protection_view view.now) param.now) }
{
    let part = match protected_request(alloc, request) {
        Ok(part) => part,
        Err(Error::Memory) => return Err(AllocError),
        Err(Error::Status(status)) => return Ok(Reading::Refused(status)),
        Err(_) => return Ok(Reading::Refused(OTHER)),
    };
    let permission = part.permission();
    let rp_id = String::from_str(alloc, part.rp_id())?;
    let client_data_hash = Vec::from_slice(alloc, part.client_data_hash())?;
    let param = Vec::from_slice(alloc, param)?;
    match bare_request(alloc, part) {
        Ok(bytes) => Ok(Reading::Pin(PinRequest::Protected(ProtectedAsked {
            permission,
            rp_id,
            client_data_hash,
            protocol: view.protocol,
            param,
            presence: asks_presence(view.options),
            bytes,
        }))),
        Err(Error::Memory) => Err(AllocError),
        Err(_) => Ok(Reading::Refused(OTHER)),
    }
}

/// A makeCredential or getAssertion that has this pinUvAuthParam, or an empty one.
fn read_shown(
    alloc: Global,
    request: &[u8],
    view: &ParamView<'_>,
    param: &[u8],
) -> Result<Reading, AllocError>
    ensures { IfOk result (λ r. (needs_token : Bool) → ByParam needs_token request.now (protection_view view.now) (Some param.now) r) }
{
    match param {
        [] => Ok(Reading::Touch),
        _ => read_protected(alloc, request, view, param),
    }
}

/// A makeCredential or getAssertion without pinUvAuthParam. A token is needed where a PIN is set and a credential is to be made;
/// there is no built-in verification.
fn without_param(view: &ParamView<'_>, needs_token: bool) -> Reading
    ensures { result ≡ without_param needs_token (protection_view view.now).options }
{
    if needs_token {
        Reading::Refused(PUAT_REQUIRED)
    } else if asks_verification(view.options) {
        Reading::Refused(INVALID_OPTION)
    } else {
        Reading::AsItIs
    }
}

/// A makeCredential or getAssertion.
fn read_by_param(alloc: Global, request: &[u8], needs_token: bool) -> Result<Reading, AllocError>
    ensures { IfOk result (ReadsParam needs_token request.now) }
{
    match read_param(request) {
        Ok(view) => match view.param {
            Some(param) => read_shown(alloc, request, &view, param),
            None => Ok(without_param(&view, needs_token)),
        },
        Err(Error::Status(status)) => Ok(Reading::Refused(status)),
        Err(_) => Ok(Reading::Refused(OTHER)),
    }
}

/// How a request is answered by a key that takes PINs, where one is set or not.
pub(crate) fn read_request(
    alloc: Global,
    request: &[u8],
    is_set: bool,
) -> Result<Reading, AllocError>
    ensures { IfOk result (ReadsAs is_set request.now) }
{
    match command_of(request) {
        Some(CLIENT_PIN) => read_command(alloc, request),
        Some(MAKE_CREDENTIAL) => read_by_param(alloc, request, is_set),
        Some(GET_ASSERTION) => read_by_param(alloc, request, false),
        _ => Ok(Reading::AsItIs),
    }
}

/// How the request that the device works on is answered.
fn reading_of(
    device: &Device,
    pin: &Option<ClientPin>,
    alloc: Global,
) -> Result<Reading, AllocError>
    requires { IsWorking device.now.state }
    ensures { IfOk result (IsReading (option_map pin_view pin.now) device.now.state) }
{
    match pin {
        Some(pin) => read_request(alloc, device.request(), is_set(pin)),
        None => Ok(Reading::AsItIs),
    }
}

/// What the request that the device works on waits for. One that is refused is answered.
fn read_anew(
    device: &mut Device,
    pin: &Option<ClientPin>,
    alloc: Global,
    cid: u32,
    out: &mut Vec<Packet>,
) -> (Stage, Told)
    requires left { device.old.left ≡ [] }
    requires works { IsWorking device.old.state }
    ensures read { Reads (option_map pin_view pin.now) device.old cid out.old.items result.0 result.1 device.new out.new.items }
    ensures drained { device.new.left ≡ [] }
{
    let waits = Told::Event(DeviceEvent::Request { cid });
    if make_room(out).is_err() {
        return (Stage::Unread, waits);
    }
    match reading_of(device, pin, alloc) {
        Ok(Reading::Pin(request)) => (Stage::Words(request), Told::Computes { cid }),
        Ok(Reading::AsItIs) => (Stage::User, waits),
        Ok(Reading::Touch) => (Stage::Touch, waits),
        Ok(Reading::Refused(status)) => {
            answer(device, &[status], out);
            (Stage::Nothing, Told::Event(DeviceEvent::Quiet))
        }
        Err(_) => (Stage::Unread, waits),
    }
}

/// Reads the request that the device works on, and keeps what it waits for. One that is refused is answered.
pub(crate) fn read(
    device: &mut Device,
    pin: &Option<ClientPin>,
    stage: &mut Stage,
    alloc: Global,
    cid: u32,
    out: &mut Vec<Packet>,
) -> Told
    requires left { device.old.left ≡ [] }
    requires works { IsWorking device.old.state }
    ensures read { Reads (option_map pin_view pin.now) device.old cid out.old.items stage.new result device.new out.new.items }
    ensures drained { device.new.left ≡ [] }
{
    let (next, told) = read_anew(device, pin, alloc, cid, out);
    *stage = next;
    told
}
