//! Reading the maps of requests, where they lie.

ghost use Rattle.std.specs.Prelude.{◌≡◌, option_map};
ghost use Rattle.ccbor.specs.Access.{key_item, member, text_in};
ghost use Rattle.ccbor.specs.Viewing.{shown};
ghost use Rattle.ctap_encoding.specs.Table.{record_of};
ghost use Rattle.ctap_encoding.specs.Reading.{Yields, maybe};
ghost use Rattle.ctap_open_replies.specs.Reading.{open_in};
ghost use Rattle.pin_key_messages.specs.Asking.{asked_members};
ghost use Rattle.pin_key_messages.specs.Pieces.{content_of};
ghost use Rattle.pin_key_messages.specs.Protected.{flag_content, flag_members, protection_content, protection_members};
ghost use Rattle.pin_key_messages.specs.ProtectedView.{flags_view, protection_view};

use crate::asked::{AskedMembers, OptionsAsked, ParamView};
use ccbor::{MapKey, View};
use ctap_encoding::member::client_pin;
use ctap_encoding::{Shape, any_map};
use ctap_open_replies::{bytes_if_there, truth_if_there, unsigned_if_there};
use pin_client_messages::agreement_key_if_there;

/// A text, where it lies.
fn text<'a>(value: &View<'a>) -> Result<&'a str, Shape>
    ensures { Yields (λ s. s.now) result (text_in (shown value.now)) }
{
    match value.as_text() {
        Some(content) => Ok(content),
        None => Err(Shape),
    }
}

/// The text at a key that may be absent.
fn text_if_there<'a>(value: &View<'a>, key: MapKey<'_>) -> Result<Option<&'a str>, Shape>
    ensures { Yields (λ o. option_map (λ s. s.now) o) result (maybe text_in (member (key_item key.entry) (shown value.now))) }
{
    match value.get(key) {
        Some(held) => Ok(Some(text(&held)?)),
        None => Ok(None),
    }
}

/// The members of a request of authenticatorClientPIN.
pub(crate) fn asked<'a>(value: &View<'a>) -> Result<AskedMembers<'a>, Shape>
    ensures { Yields (λ m. content_of m) result (open_in (record_of asked_members) (shown value.now)) }
{
    any_map(value)?;
    let protocol = unsigned_if_there(value, client_pin::PIN_UV_AUTH_PROTOCOL, 0)?;
    let subcommand = unsigned_if_there(value, client_pin::SUB_COMMAND, 0)?;
    let key = agreement_key_if_there(value, client_pin::KEY_AGREEMENT)?;
    let param = bytes_if_there(value, client_pin::PIN_UV_AUTH_PARAM)?;
    let new_pin = bytes_if_there(value, client_pin::NEW_PIN_ENC)?;
    let pin_hash = bytes_if_there(value, client_pin::PIN_HASH_ENC)?;
    let permissions = unsigned_if_there(value, client_pin::PERMISSIONS, 0)?;
    let rp_id = text_if_there(value, client_pin::RP_ID)?;
    Ok(AskedMembers {
        protocol,
        subcommand,
        key,
        param,
        new_pin,
        pin_hash,
        permissions,
        rp_id,
    })
}

/// The options of a request.
fn options(value: &View<'_>) -> Result<OptionsAsked, Shape>
    ensures { Yields (λ o. flag_content (flags_view o)) result (open_in (record_of flag_members) (shown value.now)) }
{
    any_map(value)?;
    let up = truth_if_there(value, MapKey::Text("up"))?;
    let uv = truth_if_there(value, MapKey::Text("uv"))?;
    Ok(OptionsAsked { up, uv })
}

/// The options at a key that may be absent.
fn options_if_there(value: &View<'_>, key: MapKey<'_>) -> Result<Option<OptionsAsked>, Shape>
    ensures { Yields (λ o. option_map flag_content (option_map flags_view o)) result
        (maybe (open_in (record_of flag_members)) (member (key_item key.entry) (shown value.now))) }
{
    match value.get(key) {
        Some(held) => Ok(Some(options(&held)?)),
        None => Ok(None),
    }
}

/// What a request's map says of the user's verification, by the numbers of its members.
pub(crate) fn protection<'a>(
    value: &View<'a>,
    options: u64,
    param: u64,
    protocol: u64,
) -> Result<ParamView<'a>, Shape>
    ensures { Yields (λ p. protection_content options param protocol (protection_view p)) result
        (open_in (record_of (protection_members options param protocol)) (shown value.now)) }
{
    any_map(value)?;
    let options = options_if_there(value, MapKey::Uint(options))?;
    let param = bytes_if_there(value, MapKey::Uint(param))?;
    let protocol = unsigned_if_there(value, MapKey::Uint(protocol), 0)?;
    Ok(ParamView {
        options,
        param,
        protocol,
    })
}
