//! Reading the maps of replies, where they lie.

ghost use Rattle.std.specs.Prelude.{◌≡◌, map, string_bytes};
ghost use Rattle.ccbor.specs.Viewing.{shown};
ghost use Rattle.ctap_encoding.specs.Table.{a_text, some_bytes, truths, list_of, record_of, sized};
ghost use Rattle.ctap_encoding.specs.Reading.{Gives, Yields, read_in, named_truth};
ghost use Rattle.ctap_encoding.specs.declared.fault.Fault.TheVariants as faults;
ghost use Rattle.ctap_replies.specs.Replies.{credential_members, credential_content, reply_user_members, reply_user_content, creation_reply_members};
ghost use Rattle.ctap_replies.specs.Replies.{creation_reply_content, assertion_reply_members, assertion_reply_content, info_members, info_content};
ghost use Rattle.ctap_replies.specs.ReplyView.{creation_reply_view, lent_assertion_view, info_view};

use crate::reply::{AssertionView, CreationReply, InfoReply};
use ccbor::{MapKey, View};
use ctap_encoding::member::{get_assertion_reply, get_info_reply, make_credential_reply};
use ctap_encoding::{
    MapError, Shape, any_map, bytes, end, items, members, optional, required, sized, text,
    that_text, truth, unsigned,
};
use std::alloc::Global;

/// A credential id or a user handle: 1 to 64 bytes.
fn id<'a>(value: &View<'a>) -> Result<&'a [u8], Shape>
    ensures { Yields (λ b. b.now) result
        (read_in (sized 1 64 faults.OverLimit some_bytes) (shown value.now)) }
{
    sized(value, 1, 64)?;
    bytes(value)
}

/// The id of a descriptor of type `public-key`.
fn credential<'a>(value: &View<'a>) -> Result<&'a [u8], Shape>
    ensures { Yields (λ b. credential_content b.now) result
        (read_in (record_of credential_members) (shown value.now)) }
{
    let rest = members(value)?;
    let (held, rest) = required(&rest, MapKey::Text("id"))?;
    let credential = id(&held)?;
    let (held, rest) = required(&rest, MapKey::Text("type"))?;
    that_text(&held, "public-key")?;
    end(&rest)?;
    Ok(credential)
}

/// The id of a user.
fn user<'a>(value: &View<'a>) -> Result<&'a [u8], Shape>
    ensures { Yields (λ b. reply_user_content b.now) result
        (read_in (record_of reply_user_members) (shown value.now)) }
{
    let rest = members(value)?;
    let (held, rest) = required(&rest, MapKey::Text("id"))?;
    let user = id(&held)?;
    end(&rest)?;
    Ok(user)
}

/// A reply to getAssertion or getNextAssertion (CTAP 2.1, sections 6.2.2 and 6.3). Nothing is copied,
/// and no memory is taken.
pub fn assertion_reply<'a>(value: &View<'a>) -> Result<AssertionView<'a>, Shape>
    ensures { Yields (λ r. assertion_reply_content (lent_assertion_view r)) result
        (read_in (record_of assertion_reply_members) (shown value.now)) }
{
    let rest = members(value)?;
    let (held, rest) = required(&rest, get_assertion_reply::CREDENTIAL)?;
    let credential = credential(&held)?;
    let (held, rest) = required(&rest, get_assertion_reply::AUTH_DATA)?;
    let auth_data = bytes(&held)?;
    let (held, rest) = required(&rest, get_assertion_reply::SIGNATURE)?;
    let signature = bytes(&held)?;
    let (held, rest) = optional(rest, get_assertion_reply::USER);
    let user = match held {
        Some(held) => Some(user(&held)?),
        None => None,
    };
    let (held, rest) = optional(rest, get_assertion_reply::NUMBER_OF_CREDENTIALS);
    let number = match held {
        Some(held) => Some(unsigned(&held, 2)?),
        None => None,
    };
    end(&rest)?;
    Ok(AssertionView {
        credential,
        auth_data,
        signature,
        user,
        number,
    })
}

/// A reply to makeCredential (CTAP 2.1, section 6.1.2), copied out.
pub fn creation_reply(alloc: Global, value: &View<'_>) -> Result<CreationReply, MapError>
    ensures { Gives (λ r. creation_reply_content (creation_reply_view r)) result
        (read_in (record_of creation_reply_members) (shown value.now)) }
{
    let rest = members(value)?;
    let (held, rest) = required(&rest, make_credential_reply::FMT)?;
    let fmt = text(alloc, &held)?;
    let (held, rest) = required(&rest, make_credential_reply::AUTH_DATA)?;
    let auth_data = bytes(&held)?;
    let (held, rest) = required(&rest, make_credential_reply::ATT_STMT)?;
    any_map(&held)?;
    end(&rest)?;
    Ok(CreationReply {
        fmt,
        auth_data: Vec::from_slice(alloc, auth_data)?,
        statement: held.to_value(alloc)?,
    })
}

fn texts(alloc: Global, value: &View<'_>) -> Result<Vec<String>, MapError>
    ensures { Gives (λ v. map string_bytes v.items) result (read_in (list_of a_text) (shown value.now)) }
{
    let mut rest = items(value)?;
    let mut all = Vec::new(alloc);
    while let Some((item, after)) = rest.split_first() {
        all.push(text(alloc, &item)?)?;
        rest = after;
    }
    Ok(all)
}

fn named_truth(alloc: Global, name: &View<'_>, value: &View<'_>) -> Result<(String, bool), MapError>
    ensures { Gives (λ o. (string_bytes o.0, o.1)) result
        (named_truth (shown name.now) (shown value.now)) }
{
    let name = text(alloc, name)?;
    let truth = truth(value)?;
    Ok((name, truth))
}

fn truths(alloc: Global, value: &View<'_>) -> Result<Vec<(String, bool)>, MapError>
    ensures { Gives (λ v. map (λ o. (string_bytes o.0, o.1)) v.items) result
        (read_in truths (shown value.now)) }
{
    let mut rest = members(value)?;
    let mut all = Vec::new(alloc);
    while let Some((name, value, after)) = rest.split_first() {
        all.push(named_truth(alloc, &name, &value)?)?;
        rest = after;
    }
    Ok(all)
}

/// A reply to getInfo (CTAP 2.1, section 6.4), copied out.
pub fn info(alloc: Global, value: &View<'_>) -> Result<InfoReply, MapError>
    ensures { Gives (λ r. info_content (info_view r)) result
        (read_in (record_of info_members) (shown value.now)) }
{
    let rest = members(value)?;
    let (held, rest) = required(&rest, get_info_reply::VERSIONS)?;
    let versions = texts(alloc, &held)?;
    let (held, rest) = required(&rest, get_info_reply::AAGUID)?;
    sized(&held, 16, 16)?;
    let aaguid = bytes(&held)?;
    let (held, rest) = required(&rest, get_info_reply::OPTIONS)?;
    let options = truths(alloc, &held)?;
    let (held, rest) = required(&rest, get_info_reply::MAX_MSG_SIZE)?;
    let max_msg_size = unsigned(&held, 0)?;
    let (held, rest) = required(&rest, get_info_reply::MAX_CREDENTIAL_COUNT_IN_LIST)?;
    let max_credential_count_in_list = unsigned(&held, 0)?;
    let (held, rest) = required(&rest, get_info_reply::MAX_CREDENTIAL_ID_LENGTH)?;
    let max_credential_id_length = unsigned(&held, 0)?;
    end(&rest)?;
    Ok(InfoReply {
        versions,
        aaguid: Vec::from_slice(alloc, aaguid)?,
        options,
        max_msg_size,
        max_credential_count_in_list,
        max_credential_id_length,
    })
}
