//! The values of a request's members.

ghost use Rattle.std.specs.Prelude.{◌≡◌, [], IfOk, OnOk, option_map};
ghost use Rattle.ccbor.specs.Item.{bytes, map, text, uint};
ghost use Rattle.ccbor.specs.View.{pairs_view, view};
ghost use Rattle.ctap_encoding.specs.Content.{item_of};
ghost use Rattle.ctap_encoding.specs.Table.{record_of};
ghost use Rattle.pin_client_messages.specs.CommandView.{point_view};
ghost use Rattle.pin_client_messages.specs.Commands.{key_members, pin_members, point_content};
ghost use Rattle.pin_client_messages.specs.Pieces.{content_of};

use crate::command::{PinMembers, Point};
use ccbor::Value;
use cose::{algorithm, curve, key_type, label};
use ctap_encoding::member::client_pin;
use ctap_encoding::{bytes_value, push_if_there, push_member, text_value};
use std::alloc::{AllocError, Global};

/// The COSE_Key of a point for the key agreement (CTAP 2.1, section 6.5.6).
pub fn point_value(alloc: Global, point: &Point<'_>) -> Result<Value, AllocError>
    ensures { IfOk result (λ v. view v ≡ item_of (record_of key_members) (point_content (point_view point.now))) }
{
    let x = bytes_value(alloc, point.x)?;
    let y = bytes_value(alloc, point.y)?;
    let pairs = vec![in alloc;
        (Value::Uint(label::KTY), Value::Uint(key_type::EC2)),
        (
            Value::Uint(label::ALG),
            Value::Nint(algorithm::ECDH_ES_HKDF_256)
        ),
        (Value::Nint(label::CRV), Value::Uint(curve::P256)),
        (Value::Nint(label::X), x),
        (Value::Nint(label::Y), y),
    ]?;
    Ok(Value::Map(pairs))
}

fn point_if_there(alloc: Global, point: Option<Point<'_>>) -> Result<Option<Value>, AllocError>
    ensures { IfOk result (λ v. option_map view v
        ≡ option_map (item_of (record_of key_members)) (option_map point_content (option_map point_view point.entry))) }
{
    match point {
        Some(point) => Ok(Some(point_value(alloc, &point)?)),
        None => Ok(None),
    }
}

/// The value of bytes that may be absent.
pub fn bytes_if_there(alloc: Global, content: Option<&[u8]>) -> Result<Option<Value>, AllocError>
    ensures { IfOk result (λ v. option_map view v ≡ option_map bytes (option_map (λ b. b.now) content.entry)) }
{
    match content {
        Some(content) => Ok(Some(bytes_value(alloc, content)?)),
        None => Ok(None),
    }
}

/// The value of a text that may be absent.
pub fn text_if_there(alloc: Global, content: Option<&str>) -> Result<Option<Value>, AllocError>
    ensures { IfOk result (λ v. option_map view v ≡ option_map text (option_map (λ b. b.now) content.entry)) }
{
    match content {
        Some(content) => Ok(Some(text_value(alloc, content)?)),
        None => Ok(None),
    }
}

/// The value of a number that may be absent.
pub fn number_if_there(number: Option<u64>) -> Option<Value>
    ensures { option_map view result ≡ option_map uint number }
{
    match number {
        Some(number) => Some(Value::Uint(number)),
        None => None,
    }
}

/// Adds the members of a request's map to none.
fn push_members(
    alloc: Global,
    pairs: &mut Vec<(Value, Value)>,
    members: &PinMembers<'_>,
) -> Result<(), AllocError>
    requires { pairs.old.items ≡ [] }
    ensures { OnOk result (map (pairs_view pairs.new.items) ≡ item_of (record_of pin_members) (content_of members.now)) }
{
    let protocol = Value::Uint(members.protocol);
    push_member(alloc, pairs, client_pin::PIN_UV_AUTH_PROTOCOL, protocol)?;
    let subcommand = Value::Uint(members.subcommand);
    push_member(alloc, pairs, client_pin::SUB_COMMAND, subcommand)?;
    let key = point_if_there(alloc, members.key)?;
    push_if_there(alloc, pairs, client_pin::KEY_AGREEMENT, key)?;
    let param = bytes_if_there(alloc, members.param)?;
    push_if_there(alloc, pairs, client_pin::PIN_UV_AUTH_PARAM, param)?;
    let new_pin = bytes_if_there(alloc, members.new_pin)?;
    push_if_there(alloc, pairs, client_pin::NEW_PIN_ENC, new_pin)?;
    let pin_hash = bytes_if_there(alloc, members.pin_hash)?;
    push_if_there(alloc, pairs, client_pin::PIN_HASH_ENC, pin_hash)?;
    let permissions = number_if_there(members.permissions);
    push_if_there(alloc, pairs, client_pin::PERMISSIONS, permissions)?;
    let rp_id = text_if_there(alloc, members.rp_id)?;
    push_if_there(alloc, pairs, client_pin::RP_ID, rp_id)?;
    Ok(())
}

/// The value of a request's map.
pub(crate) fn members_value(alloc: Global, members: &PinMembers<'_>) -> Result<Value, AllocError>
    ensures { IfOk result (λ v. view v ≡ item_of (record_of pin_members) (content_of members.now)) }
{
    let mut pairs = Vec::new(alloc);
    push_members(alloc, &mut pairs, members)?;
    Ok(Value::Map(pairs))
}
