//! The values of replies' maps.

ghost use Rattle.std.specs.Prelude.{◌≡◌, IfOk, map, string_bytes};
ghost use Rattle.ccbor.specs.View.{view};
ghost use Rattle.ctap_encoding.specs.Table.{a_text, truths, list_of};
ghost use Rattle.ctap_encoding.specs.Content.{item_of};
ghost use Rattle.ctap_replies.specs.Replies.{creation_reply_item, info_item};
ghost use Rattle.ctap_replies.specs.ReplyView.{creation_reply_view, info_view};

use crate::reply::{CreationReply, InfoReply};
use ccbor::{MapKey, Value};
use ctap_encoding::member::{get_info_reply, make_credential_reply};
use ctap_encoding::{bytes_value, push_member, text_value};
use std::alloc::{AllocError, Global};

/// The value of a reply to makeCredential.
pub fn creation_reply_value(alloc: Global, reply: CreationReply) -> Result<Value, AllocError>
    ensures { IfOk result (λ v. view v ≡ creation_reply_item (creation_reply_view reply)) }
{
    let CreationReply {
        fmt,
        auth_data,
        statement,
    } = reply;
    let mut pairs = Vec::new(alloc);
    push_member(
        alloc,
        &mut pairs,
        make_credential_reply::FMT,
        Value::Text(fmt),
    )?;
    push_member(
        alloc,
        &mut pairs,
        make_credential_reply::AUTH_DATA,
        Value::Bytes(auth_data),
    )?;
    push_member(
        alloc,
        &mut pairs,
        make_credential_reply::ATT_STMT,
        statement,
    )?;
    Ok(Value::Map(pairs))
}

fn texts_value(alloc: Global, texts: &[String]) -> Result<Value, AllocError>
    ensures { IfOk result (λ v. view v ≡ item_of (list_of a_text) (map string_bytes texts.now)) }
{
    let mut items = Vec::new(alloc);
    for text in texts {
        items.push(text_value(alloc, text)?)?;
    }
    Ok(Value::Array(items))
}

fn truths_value(alloc: Global, options: &[(String, bool)]) -> Result<Value, AllocError>
    ensures { IfOk result (λ v. view v
        ≡ item_of truths (map (λ o. (string_bytes o.0, o.1)) options.now)) }
{
    let mut pairs = Vec::new(alloc);
    for (name, truth) in options {
        push_member(alloc, &mut pairs, MapKey::Text(name), Value::Bool(*truth))?;
    }
    Ok(Value::Map(pairs))
}

/// The value of a reply to getInfo.
pub fn info_value(alloc: Global, reply: &InfoReply) -> Result<Value, AllocError>
    ensures { IfOk result (λ v. view v ≡ info_item (info_view reply.now)) }
{
    let mut pairs = Vec::new(alloc);
    let versions = texts_value(alloc, &reply.versions)?;
    push_member(alloc, &mut pairs, get_info_reply::VERSIONS, versions)?;
    let aaguid = bytes_value(alloc, &reply.aaguid)?;
    push_member(alloc, &mut pairs, get_info_reply::AAGUID, aaguid)?;
    let options = truths_value(alloc, &reply.options)?;
    push_member(alloc, &mut pairs, get_info_reply::OPTIONS, options)?;
    let size = Value::Uint(reply.max_msg_size);
    push_member(alloc, &mut pairs, get_info_reply::MAX_MSG_SIZE, size)?;
    let count = Value::Uint(reply.max_credential_count_in_list);
    push_member(
        alloc,
        &mut pairs,
        get_info_reply::MAX_CREDENTIAL_COUNT_IN_LIST,
        count,
    )?;
    let length = Value::Uint(reply.max_credential_id_length);
    push_member(
        alloc,
        &mut pairs,
        get_info_reply::MAX_CREDENTIAL_ID_LENGTH,
        length,
    )?;
    Ok(Value::Map(pairs))
}
