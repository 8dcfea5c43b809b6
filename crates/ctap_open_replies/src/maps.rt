//! Reading the maps of replies, where they lie.

ghost use Rattle.std.specs.Prelude.{◌≡◌, IfOk, option_map};
ghost use Rattle.ccbor.specs.Access.{key_item, member};
ghost use Rattle.ccbor.specs.Viewing.{shown};
ghost use Rattle.ctap_encoding.specs.Table.{record_of};
ghost use Rattle.ctap_encoding.specs.Reading.{Gives, Yields, maybe};
ghost use Rattle.ctap_open_replies.specs.Reading.{assertion_in, open_in, open_members, or_listed};
ghost use Rattle.ctap_open_replies.specs.Replies.{assertion_members, creation_content, creation_members, credential_content, credential_members};
ghost use Rattle.ctap_open_replies.specs.Replies.{info_content, info_members, user_content, user_members};
ghost use Rattle.ctap_open_replies.specs.Pieces.{content_of, feature_content, feature_members, limit_content, limit_members};
ghost use Rattle.ctap_open_replies.specs.ReplyView.{assertion_view, creation_view, info_view, user_view};

use crate::leaf::{
    bytes_at, bytes_if_there, map_at, sized_bytes_at, text_at, text_if_there, that_text_at,
    truth_if_there, unsigned_if_there,
};
use crate::lists::{
    numbers_if_there, parameters_if_there, texts_at, texts_if_there, truths_if_there,
};
use crate::reply::{
    AssertionMembers, InfoFeatures, InfoLimits, KeyAssertion, KeyCreation, KeyInfo, UserView,
};
use ccbor::{MapKey, View};
use ctap_encoding::member::{get_assertion_reply, get_info_reply, make_credential_reply};
use ctap_encoding::{MapError, Shape, any_map};
use std::alloc::{AllocError, Global};

/// The id of a descriptor of type `public-key`.
fn credential<'a>(value: &View<'a>) -> Result<&'a [u8], Shape>
    ensures { Yields (λ b. credential_content b.now) result
        (open_in (record_of credential_members) (shown value.now)) }
{
    any_map(value)?;
    let id = sized_bytes_at(value, MapKey::Text("id"), 1, 1023)?;
    that_text_at(value, MapKey::Text("type"), "public-key")?;
    Ok(id)
}

/// The id of a descriptor that may be absent.
fn credential_if_there<'a>(value: &View<'a>, key: MapKey<'_>) -> Result<Option<&'a [u8]>, Shape>
    ensures { Yields (λ o. option_map credential_content (option_map (λ b. b.now) o)) result
        (maybe (open_in (record_of credential_members)) (member (key_item key.entry) (shown value.now))) }
{
    match value.get(key) {
        Some(held) => Ok(Some(credential(&held)?)),
        None => Ok(None),
    }
}

/// A user account.
fn user<'a>(value: &View<'a>) -> Result<UserView<'a>, Shape>
    ensures { Yields (λ u. user_content (user_view u)) result
        (open_in (record_of user_members) (shown value.now)) }
{
    any_map(value)?;
    let id = sized_bytes_at(value, MapKey::Text("id"), 1, 64)?;
    let icon = text_if_there(value, MapKey::Text("icon"))?;
    let name = text_if_there(value, MapKey::Text("name"))?;
    let display_name = text_if_there(value, MapKey::Text("displayName"))?;
    Ok(UserView {
        id,
        icon,
        name,
        display_name,
    })
}

/// A user account that may be absent.
fn user_if_there<'a>(value: &View<'a>, key: MapKey<'_>) -> Result<Option<UserView<'a>>, Shape>
    ensures { Yields (λ o. option_map user_content (option_map user_view o)) result
        (maybe (open_in (record_of user_members)) (member (key_item key.entry) (shown value.now))) }
{
    match value.get(key) {
        Some(held) => Ok(Some(user(&held)?)),
        None => Ok(None),
    }
}

/// Bytes that may be absent, copied out.
fn owned_if_there(alloc: Global, held: Option<&[u8]>) -> Result<Option<Vec<u8>>, AllocError>
    ensures { IfOk result (λ o. option_map (λ v. v.items) o ≡ option_map (λ b. b.now) held.entry) }
{
    match held {
        Some(content) => Ok(Some(Vec::from_slice(alloc, content)?)),
        None => Ok(None),
    }
}

/// The id that a reply tells, or else the one that was listed; [`Shape`] without either.
fn credential_of<'a>(told: Option<&'a [u8]>, listed: Option<&'a [u8]>) -> Result<&'a [u8], Shape>
    ensures { Yields (λ b. b.now) result (or_listed (option_map (λ b. b.now) listed.entry) (option_map (λ b. b.now) told.entry)) }
{
    match told {
        Some(id) => Ok(id),
        None => match listed {
            Some(id) => Ok(id),
            None => Err(Shape),
        },
    }
}

/// A reply to makeCredential (section 6.1.2), copied out.
pub fn creation(alloc: Global, value: &View<'_>) -> Result<KeyCreation, MapError>
    ensures { Gives (λ r. creation_content (creation_view r)) result
        (open_in (record_of creation_members) (shown value.now)) }
{
    any_map(value)?;
    let fmt = text_at(value, make_credential_reply::FMT)?;
    let auth_data = bytes_at(value, make_credential_reply::AUTH_DATA)?;
    let statement = map_at(value, make_credential_reply::ATT_STMT)?;
    let enterprise = truth_if_there(value, make_credential_reply::EP_ATT)?;
    let large_blob_key = bytes_if_there(value, make_credential_reply::LARGE_BLOB_KEY)?;
    Ok(KeyCreation {
        fmt: String::from_str(alloc, fmt)?,
        auth_data: Vec::from_slice(alloc, auth_data)?,
        statement: statement.to_value(alloc)?,
        enterprise,
        large_blob_key: owned_if_there(alloc, large_blob_key)?,
    })
}

/// The members of a reply to getAssertion or getNextAssertion (sections 6.2.2 and 6.3), and the id that it tells.
fn assertion_members<'a>(value: &View<'a>) -> Result<AssertionMembers<'a>, Shape>
    ensures { Yields (λ r. content_of r) result (open_in (record_of assertion_members) (shown value.now)) }
{
    any_map(value)?;
    let told = credential_if_there(value, get_assertion_reply::CREDENTIAL)?;
    let auth_data = bytes_at(value, get_assertion_reply::AUTH_DATA)?;
    let signature = bytes_at(value, get_assertion_reply::SIGNATURE)?;
    let user = user_if_there(value, get_assertion_reply::USER)?;
    let number = unsigned_if_there(value, get_assertion_reply::NUMBER_OF_CREDENTIALS, 1)?;
    let user_selected = truth_if_there(value, get_assertion_reply::USER_SELECTED)?;
    let large_blob_key = bytes_if_there(value, get_assertion_reply::LARGE_BLOB_KEY)?;
    Ok(AssertionMembers {
        told,
        auth_data,
        signature,
        user,
        number,
        user_selected,
        large_blob_key,
    })
}

/// A reply to getAssertion or getNextAssertion, where the id `listed` is that of the one credential of the allow list.
pub fn assertion<'a>(value: &View<'a>, listed: Option<&'a [u8]>) -> Result<KeyAssertion<'a>, Shape>
    ensures { Yields (λ r. assertion_view r) result (assertion_in (option_map (λ b. b.now) listed.entry) (shown value.now)) }
{
    let members = assertion_members(value)?;
    let credential = credential_of(members.told, listed)?;
    Ok(KeyAssertion {
        credential,
        auth_data: members.auth_data,
        signature: members.signature,
        user: members.user,
        number: members.number,
        user_selected: members.user_selected,
        large_blob_key: members.large_blob_key,
    })
}

/// The last members of a reply to getInfo: those from transports on.
fn info_features<'a>(alloc: Global, value: &View<'a>) -> Result<InfoFeatures<'a>, MapError>
    ensures { Gives (λ r. feature_content r) result (open_members feature_members (shown value.now)) }
{
    let transports = texts_if_there(alloc, value, get_info_reply::TRANSPORTS)?;
    let algorithms = parameters_if_there(alloc, value, get_info_reply::ALGORITHMS)?;
    let min_pin_length = unsigned_if_there(value, get_info_reply::MIN_PIN_LENGTH, 0)?;
    let firmware_version = unsigned_if_there(value, get_info_reply::FIRMWARE_VERSION, 0)?;
    let remaining_discoverable_credentials = unsigned_if_there(
        value,
        get_info_reply::REMAINING_DISCOVERABLE_CREDENTIALS,
        0,
    )?;
    Ok(InfoFeatures {
        transports,
        algorithms,
        min_pin_length,
        firmware_version,
        remaining_discoverable_credentials,
    })
}

/// The members of a reply to getInfo after its options.
fn info_limits<'a>(alloc: Global, value: &View<'a>) -> Result<InfoLimits<'a>, MapError>
    ensures { Gives (λ r. limit_content r) result (open_members limit_members (shown value.now)) }
{
    let max_msg_size = unsigned_if_there(value, get_info_reply::MAX_MSG_SIZE, 0)?;
    let pin_uv_auth_protocols = numbers_if_there(
        alloc,
        value,
        get_info_reply::PIN_UV_AUTH_PROTOCOLS,
    )?;
    let max_credential_count_in_list = unsigned_if_there(
        value,
        get_info_reply::MAX_CREDENTIAL_COUNT_IN_LIST,
        0,
    )?;
    let max_credential_id_length = unsigned_if_there(
        value,
        get_info_reply::MAX_CREDENTIAL_ID_LENGTH,
        0,
    )?;
    let features = info_features(alloc, value)?;
    Ok(InfoLimits {
        max_msg_size,
        pin_uv_auth_protocols,
        max_credential_count_in_list,
        max_credential_id_length,
        features,
    })
}

/// A reply to getInfo (section 6.4).
pub fn info<'a>(alloc: Global, value: &View<'a>) -> Result<KeyInfo<'a>, MapError>
    ensures { Gives (λ r. info_content (info_view r)) result
        (open_in (record_of info_members) (shown value.now)) }
{
    any_map(value)?;
    let versions = texts_at(alloc, value, get_info_reply::VERSIONS)?;
    let extensions = texts_if_there(alloc, value, get_info_reply::EXTENSIONS)?;
    let aaguid = sized_bytes_at(value, get_info_reply::AAGUID, 16, 16)?;
    let options = truths_if_there(alloc, value, get_info_reply::OPTIONS)?;
    let limits = info_limits(alloc, value)?;
    Ok(KeyInfo {
        versions,
        extensions,
        aaguid,
        options,
        max_msg_size: limits.max_msg_size,
        pin_uv_auth_protocols: limits.pin_uv_auth_protocols,
        max_credential_count_in_list: limits.max_credential_count_in_list,
        max_credential_id_length: limits.max_credential_id_length,
        transports: limits.features.transports,
        algorithms: limits.features.algorithms,
        min_pin_length: limits.features.min_pin_length,
        firmware_version: limits.features.firmware_version,
        remaining_discoverable_credentials: limits.features.remaining_discoverable_credentials,
    })
}
