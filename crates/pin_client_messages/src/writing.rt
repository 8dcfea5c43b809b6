//! Writing a request.

ghost use Rattle.std.specs.Prelude.{◌≡◌, ℕ, List, IfOk, IfErr, IsErrOf, ◌∷◌};
ghost use Rattle.ccbor.specs.Canon.{Canon};
ghost use Rattle.ccbor.specs.View.{view};
ghost use Rattle.ctap_encoding.specs.Table.{gravest, record_of};
ghost use Rattle.ctap_encoding.specs.Numbers.{IsWritingError};
ghost use Rattle.ctap_encoding.specs.declared.error.Error.TheVariants as errors;
ghost use Rattle.pin_client_messages.specs.CommandView.{command_view};
ghost use Rattle.pin_client_messages.specs.Commands.{PinRequest, pin_content, pin_members};
ghost use Rattle.pin_client_messages.specs.Pieces.{content_of};

use crate::command::{PinCommand, PinMembers};
use crate::subcommand;
use crate::values::members_value;
use ccbor::{MapKey, Value, encode};
use cose::label;
use ctap_encoding::command::CLIENT_PIN;
use ctap_encoding::member::client_pin;
use ctap_encoding::{Error, Fault, Holds, gravest};
use std::alloc::{AllocError, Global};

const KEY: Holds = Holds::Record(&[
    (MapKey::Uint(label::KTY), true, Holds::Number),
    (MapKey::Uint(label::ALG), true, Holds::Number),
    (MapKey::Nint(label::CRV), true, Holds::Number),
    (
        MapKey::Nint(label::X),
        true,
        Holds::Sized(32, 32, Fault::InvalidSize, &Holds::Bytes),
    ),
    (
        MapKey::Nint(label::Y),
        true,
        Holds::Sized(32, 32, Fault::InvalidSize, &Holds::Bytes),
    ),
]);

const CLIENT_PIN_MAP: Holds = Holds::Record(&[
    (client_pin::PIN_UV_AUTH_PROTOCOL, true, Holds::Unsigned(0)),
    (client_pin::SUB_COMMAND, true, Holds::Unsigned(0)),
    (client_pin::KEY_AGREEMENT, false, KEY),
    (client_pin::PIN_UV_AUTH_PARAM, false, Holds::Bytes),
    (client_pin::NEW_PIN_ENC, false, Holds::Bytes),
    (client_pin::PIN_HASH_ENC, false, Holds::Bytes),
    (client_pin::PERMISSIONS, false, Holds::Unsigned(0)),
    (
        client_pin::RP_ID,
        false,
        Holds::Sized(1, 253, Fault::OverLimit, &Holds::Text),
    ),
]);

/// The gravest fault in a request's map.
fn map_fault(value: &Value) -> Option<Fault>
    ensures { result ≡ gravest (record_of pin_members) (view value.now) }
{
    gravest(&CLIENT_PIN_MAP, value)
}

/// The members of a subcommand's map.
fn members_of<'a>(protocol: u64, command: &PinCommand<'a>) -> PinMembers<'a>
    ensures { content_of result ≡ pin_content protocol (command_view command.now) }
{
    let none = PinMembers {
        protocol,
        subcommand: 0,
        key: None,
        param: None,
        new_pin: None,
        pin_hash: None,
        permissions: None,
        rp_id: None,
    };
    match *command {
        PinCommand::PinRetries => PinMembers {
            subcommand: subcommand::GET_PIN_RETRIES,
            ..none
        },
        PinCommand::KeyAgreement => PinMembers {
            subcommand: subcommand::GET_KEY_AGREEMENT,
            ..none
        },
        PinCommand::SetPin(key, param, new_pin) => PinMembers {
            subcommand: subcommand::SET_PIN,
            key: Some(key),
            param: Some(param),
            new_pin: Some(new_pin),
            ..none
        },
        PinCommand::ChangePin(key, param, new_pin, pin_hash) => PinMembers {
            subcommand: subcommand::CHANGE_PIN,
            key: Some(key),
            param: Some(param),
            new_pin: Some(new_pin),
            pin_hash: Some(pin_hash),
            ..none
        },
        PinCommand::PinToken(key, pin_hash) => PinMembers {
            subcommand: subcommand::GET_PIN_TOKEN,
            key: Some(key),
            pin_hash: Some(pin_hash),
            ..none
        },
        PinCommand::TokenByUv(key, permissions, rp_id) => PinMembers {
            subcommand: subcommand::GET_TOKEN_USING_UV,
            key: Some(key),
            permissions: Some(permissions),
            rp_id,
            ..none
        },
        PinCommand::UvRetries => PinMembers {
            subcommand: subcommand::GET_UV_RETRIES,
            ..none
        },
        PinCommand::TokenByPin(key, pin_hash, permissions, rp_id) => PinMembers {
            subcommand: subcommand::GET_TOKEN_USING_PIN,
            key: Some(key),
            pin_hash: Some(pin_hash),
            permissions: Some(permissions),
            rp_id,
            ..none
        },
    }
}

/// The command byte and the encoding of a map without a fault.
fn with_map(alloc: Global, value: &Value) -> Result<Vec<u8>, Error>
    ensures written { IfOk result (λ v. (rest : List ℕ) × (v.items ≡ 6 ∷ rest) × Canon (view value.now) rest) }
    ensures unfit { IsErrOf result errors.Unfit → (rest : List ℕ) → Canon (view value.now) rest → ⊥ }
    ensures errors { IfErr result IsWritingError }
{
    let mut out = Vec::new(alloc);
    out.push(CLIENT_PIN).map_err(AllocError::from)?;
    match encode(value, &mut out) {
        Ok(()) => Ok(out),
        Err(ccbor::Error::Unfit) => Err(Error::Unfit),
        Err(_) => Err(Error::Memory),
    }
}

/// The bytes of a request of authenticatorClientPIN (CTAP 2.1, section 6.5.5) by a PIN/UV auth protocol: the command
/// byte 0x06 and one canonical map. The protocol is written with each subcommand, since CTAP 2.0 wanted it.
///
/// Refused as [`Error::Unfit`] (1) where a coordinate hasn't 32 bytes, or an rp id 1 to 253. Otherwise only
/// [`Error::Memory`] is answered.
pub fn write_pin(alloc: Global, protocol: u64, command: &PinCommand<'_>) -> Result<Vec<u8>, Error>
    ensures spelled { IfOk result (λ v. PinRequest protocol (command_view command.now) v.items) }
    // It is called unfit only if there is no such request.
    ensures unfit { IsErrOf result errors.Unfit → (bs : List ℕ) → PinRequest protocol (command_view command.now) bs → ⊥ }
    ensures errors { IfErr result IsWritingError }
{
    let members = members_of(protocol, command);
    let value = members_value(alloc, &members)?;
    match map_fault(&value) {
        None => with_map(alloc, &value),
        Some(_) => Err(Error::Unfit),
    }
}
