//! Reading the map of a reply, where it lies.

ghost use Rattle.std.specs.Prelude.{◌≡◌, option_map};
ghost use Rattle.ccbor.specs.Access.{key_item, member};
ghost use Rattle.ccbor.specs.Viewing.{shown};
ghost use Rattle.ctap_encoding.specs.Table.{record_of};
ghost use Rattle.ctap_encoding.specs.Reading.{Yields, maybe};
ghost use Rattle.ctap_open_replies.specs.Reading.{open_in};
ghost use Rattle.pin_client_messages.specs.Commands.{key_members};
ghost use Rattle.pin_client_messages.specs.Replies.{key_content, reply_content, reply_members};
ghost use Rattle.pin_client_messages.specs.ReplyView.{key_view, reply_view};

use crate::reply::{AgreementKey, PinReply};
use ccbor::{MapKey, View};
use cose::label;
use ctap_encoding::member::client_pin_reply;
use ctap_encoding::{Shape, any_map};
use ctap_open_replies::{
    bytes_if_there, number_at, sized_bytes_at, truth_if_there, unsigned_if_there,
};

fn agreement_key<'a>(value: &View<'a>) -> Result<AgreementKey<'a>, Shape>
    ensures { Yields (λ k. key_content (key_view k)) result (open_in (record_of key_members) (shown value.now)) }
{
    any_map(value)?;
    let kty = number_at(value, MapKey::Uint(label::KTY))?;
    let alg = number_at(value, MapKey::Uint(label::ALG))?;
    let crv = number_at(value, MapKey::Nint(label::CRV))?;
    let x = sized_bytes_at(value, MapKey::Nint(label::X), 32, 32)?;
    let y = sized_bytes_at(value, MapKey::Nint(label::Y), 32, 32)?;
    Ok(AgreementKey {
        kty,
        alg,
        crv,
        x,
        y,
    })
}

/// The public key at a key that may be absent.
pub fn agreement_key_if_there<'a>(
    value: &View<'a>,
    key: MapKey<'_>,
) -> Result<Option<AgreementKey<'a>>, Shape>
    ensures { Yields (λ o. option_map key_content (option_map key_view o)) result
        (maybe (open_in (record_of key_members)) (member (key_item key.entry) (shown value.now))) }
{
    match value.get(key) {
        Some(held) => Ok(Some(agreement_key(&held)?)),
        None => Ok(None),
    }
}

/// The members of a reply.
pub fn reply<'a>(value: &View<'a>) -> Result<PinReply<'a>, Shape>
    ensures { Yields (λ r. reply_content (reply_view r)) result (open_in (record_of reply_members) (shown value.now)) }
{
    any_map(value)?;
    let key = agreement_key_if_there(value, client_pin_reply::KEY_AGREEMENT)?;
    let token = bytes_if_there(value, client_pin_reply::PIN_UV_AUTH_TOKEN)?;
    let pin_retries = unsigned_if_there(value, client_pin_reply::PIN_RETRIES, 0)?;
    let power_cycle = truth_if_there(value, client_pin_reply::POWER_CYCLE_STATE)?;
    let uv_retries = unsigned_if_there(value, client_pin_reply::UV_RETRIES, 0)?;
    Ok(PinReply {
        key,
        token,
        pin_retries,
        power_cycle,
        uv_retries,
    })
}
