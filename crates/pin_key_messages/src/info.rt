//! The reply to getInfo of a key that takes PINs.

ghost use Rattle.std.specs.Prelude.{◌≡◌, ◌⊎◌, [], ◌∷◌, IfErr, IfOk, codes, true};
ghost use Rattle.ccbor.specs.View.{view};
ghost use Rattle.ctap_encoding.specs.Content.{item_of};
ghost use Rattle.ctap_encoding.specs.Table.{a_text, list_of, record_of, truths, unsigned};
ghost use Rattle.ctap_encoding.specs.Numbers.{IsWritingError};
ghost use Rattle.ctap_encoding.specs.declared.error.Error.TheVariants as errors;
ghost use Rattle.ctap_open_replies.specs.Replies.{Info, IsReply, Refused, TellsInfo};
ghost use Rattle.ctap_open_replies.specs.ReplyView.{info_view};
ghost use Rattle.pin_key_messages.specs.Informing.{KeyInfoBytes, key_info_content, key_info_members};

use crate::writing::with_value;
use ccbor::{MapKey, Value};
use ctap_encoding::member::get_info_reply;
use ctap_encoding::{Error, bytes_value, push_if_there, push_member, text_value};
use ctap_open_replies::{KeyInfo, read_info};
use pin_client_messages::number_if_there;
use std::alloc::{AllocError, Global};

/// The versions.
fn versions(alloc: Global) -> Result<Value, AllocError>
    ensures { IfOk result (λ v. view v ≡ item_of (list_of a_text) (codes "FIDO_2_0" ∷ codes "FIDO_2_1" ∷ [])) }
{
    let mut texts = Vec::new(alloc);
    texts.push(text_value(alloc, "FIDO_2_0")?)?;
    texts.push(text_value(alloc, "FIDO_2_1")?)?;
    Ok(Value::Array(texts))
}

/// The options, and whether a PIN is set.
fn options(alloc: Global, is_set: bool) -> Result<Value, AllocError>
    ensures { IfOk result (λ v. view v ≡ item_of truths
        ((codes "rk", true) ∷ (codes "up", true) ∷ (codes "clientPin", is_set) ∷ (codes "pinUvAuthToken", true) ∷ [])) }
{
    let mut pairs = Vec::new(alloc);
    push_member(alloc, &mut pairs, MapKey::Text("rk"), Value::Bool(true))?;
    push_member(alloc, &mut pairs, MapKey::Text("up"), Value::Bool(true))?;
    push_member(
        alloc,
        &mut pairs,
        MapKey::Text("clientPin"),
        Value::Bool(is_set),
    )?;
    push_member(
        alloc,
        &mut pairs,
        MapKey::Text("pinUvAuthToken"),
        Value::Bool(true),
    )?;
    Ok(Value::Map(pairs))
}

/// The PIN/UV auth protocols.
fn protocols(alloc: Global) -> Result<Value, AllocError>
    ensures { IfOk result (λ v. view v ≡ item_of (list_of (unsigned 0)) (2 ∷ 1 ∷ [])) }
{
    let mut numbers = Vec::new(alloc);
    numbers.push(Value::Uint(2))?;
    numbers.push(Value::Uint(1))?;
    Ok(Value::Array(numbers))
}

/// The value of the reply's map.
fn info_value(alloc: Global, told: &KeyInfo<'_>, is_set: bool) -> Result<Value, AllocError>
    ensures { IfOk result (λ v. view v ≡ item_of (record_of key_info_members) (key_info_content (info_view told.now) is_set)) }
{
    let mut pairs = Vec::new(alloc);
    let list = versions(alloc)?;
    push_member(alloc, &mut pairs, get_info_reply::VERSIONS, list)?;
    let aaguid = bytes_value(alloc, told.aaguid)?;
    push_member(alloc, &mut pairs, get_info_reply::AAGUID, aaguid)?;
    let list = options(alloc, is_set)?;
    push_member(alloc, &mut pairs, get_info_reply::OPTIONS, list)?;
    push_if_there(
        alloc,
        &mut pairs,
        get_info_reply::MAX_MSG_SIZE,
        number_if_there(told.max_msg_size),
    )?;
    let list = protocols(alloc)?;
    push_member(
        alloc,
        &mut pairs,
        get_info_reply::PIN_UV_AUTH_PROTOCOLS,
        list,
    )?;
    let count = number_if_there(told.max_credential_count_in_list);
    push_if_there(
        alloc,
        &mut pairs,
        get_info_reply::MAX_CREDENTIAL_COUNT_IN_LIST,
        count,
    )?;
    let length = number_if_there(told.max_credential_id_length);
    push_if_there(
        alloc,
        &mut pairs,
        get_info_reply::MAX_CREDENTIAL_ID_LENGTH,
        length,
    )?;
    Ok(Value::Map(pairs))
}

/// The bytes of the reply.
fn told_info(alloc: Global, told: &KeyInfo<'_>, is_set: bool) -> Result<Vec<u8>, Error>
    ensures written { IfOk result (λ v. KeyInfoBytes (info_view told.now) is_set v.items) }
    ensures errors { IfErr result IsWritingError }
{
    let value = info_value(alloc, told, is_set)?;
    with_value(alloc, &value)
}

/// The reply to getInfo (CTAP 2.1, section 6.4) of a key that takes PINs, from the authenticator's reply without one: its
/// aaguid and its limits, and whether a PIN is set.
///
/// Refused as [`read_info`] refuses the authenticator's reply; and as [`Error::Unfit`] where no bytes are the reply.
pub fn write_key_info(alloc: Global, told: &[u8], is_set: bool) -> Result<Vec<u8>, Error>
    ensures written { IfOk result (λ v. (q : Info) × IsReply TellsInfo q told.now × KeyInfoBytes q is_set v.items) }
    ensures refused { IfErr result (λ e. (e ≡ errors.Unfit) ⊎ Refused TellsInfo told.now e) }
{
    // A `match` where the proof speaks of the error: `?` hides it behind its conversion.
    match read_info(alloc, told) {
        Ok(told) => told_info(alloc, &told, is_set),
        Err(e) => Err(e),
    }
}
