//! Writing a request.

ghost use Rattle.std.specs.Prelude.{◌≡◌, ◌⊎◌, [], ◌∷◌, ◌<◌, ◌≤◌, ℕ, List, IfOk, IfErr, IsErrOf, OnOk, None, length, map, option_map};
ghost use Rattle.ccbor.specs.Access.{key_item};
ghost use Rattle.ccbor.specs.Canon.{Canon};
ghost use Rattle.ccbor.specs.Item.{map as map_of};
ghost use Rattle.ccbor.specs.View.{pairs_view, view};
ghost use Rattle.ctap_encoding.specs.Building.{pair_list_view};
ghost use Rattle.ctap_encoding.specs.Content.{item_of};
ghost use Rattle.ctap_encoding.specs.Table.{record_of};
ghost use Rattle.ctap_open_replies.specs.ReplyView.{info_view};
ghost use Rattle.ctap_open_requests.specs.Limits.{IsRefused, IsWritten, max_message};
ghost use Rattle.ctap_open_requests.specs.Pieces.{Finishes, with_end};
ghost use Rattle.ctap_open_requests.specs.Requests.{AssertionOf, CreationOf, assertion_content, assertion_members, creation_content, creation_members};
ghost use Rattle.ctap_open_requests.specs.RequestView.{assertion_view, auth_view, creation_view, options_view};
ghost use Rattle.ctap_open_requests.specs.declared.error.RequestError.TheVariants as errors;

use crate::error::RequestError;
use crate::limits::{check_limits, max_message};
use crate::request::{GetAssertion, MakeCredential, Options, PinUvAuth};
use crate::tables::{assertion_fault, creation_fault};
use crate::values::{
    algorithms_value, descriptors_if_there, options_if_there, rp_value, user_value,
};
use ccbor::{MapKey, Value, encode};
use ctap_encoding::command::{GET_ASSERTION, MAKE_CREDENTIAL};
use ctap_encoding::member::{get_assertion, make_credential};
use ctap_encoding::{Fault, bytes_value, push_if_there, push_member, text_value};
use ctap_open_replies::KeyInfo;
use pin_client_messages::{bytes_if_there, number_if_there};
use std::alloc::{AllocError, Global};

/// The members of the proof of a token.
fn auth_members<'a>(auth: Option<PinUvAuth<'a>>) -> (Option<&'a [u8]>, Option<u64>)
    ensures param { option_map (λ b. b.now) result.0 ≡ option_map (λ a. a.param) (option_map auth_view auth.entry) }
    ensures protocol { result.1 ≡ option_map (λ a. a.protocol) (option_map auth_view auth.entry) }
{
    match auth {
        Some(auth) => (Some(auth.param), Some(auth.protocol)),
        None => (None, None),
    }
}

/// Adds the options and the proof of a token: `pinUvAuthParam` and `pinUvAuthProtocol`, each by its key.
fn push_end(
    alloc: Global,
    pairs: &mut Vec<(Value, Value)>,
    keys: (MapKey<'_>, MapKey<'_>, MapKey<'_>),
    options: &Options,
    auth: Option<PinUvAuth<'_>>,
) -> Result<(), AllocError>
    ensures { OnOk result (pair_list_view pairs.new.items
        ≡ with_end (key_item keys.entry.0) (key_item keys.entry.1) (key_item keys.entry.2) (options_view options.now) (option_map auth_view auth.entry) (pair_list_view pairs.old.items)) }
{
    let (options_key, param_key, protocol_key) = keys;
    let options = options_if_there(alloc, options)?;
    push_if_there(alloc, pairs, options_key, options)?;
    let (param, protocol) = auth_members(auth);
    let param = bytes_if_there(alloc, param)?;
    push_if_there(alloc, pairs, param_key, param)?;
    let protocol = number_if_there(protocol);
    push_if_there(alloc, pairs, protocol_key, protocol)?;
    Ok(())
}

/// Adds the members of a makeCredential request to none.
fn push_creation(
    alloc: Global,
    pairs: &mut Vec<(Value, Value)>,
    request: MakeCredential<'_>,
) -> Result<(), AllocError>
    requires { pairs.old.items ≡ [] }
    ensures { OnOk result (map_of (pairs_view pairs.new.items) ≡ item_of (record_of creation_members) (creation_content (creation_view request.entry))) }
{
    let hash = bytes_value(alloc, request.client_data_hash)?;
    push_member(alloc, pairs, make_credential::CLIENT_DATA_HASH, hash)?;
    let rp = rp_value(alloc, &request.rp)?;
    push_member(alloc, pairs, make_credential::RP, rp)?;
    let user = user_value(alloc, &request.user)?;
    push_member(alloc, pairs, make_credential::USER, user)?;
    let algorithms = algorithms_value(alloc, request.algorithms)?;
    push_member(
        alloc,
        pairs,
        make_credential::PUB_KEY_CRED_PARAMS,
        algorithms,
    )?;
    let exclude = descriptors_if_there(alloc, request.exclude)?;
    push_if_there(alloc, pairs, make_credential::EXCLUDE_LIST, exclude)?;
    push_if_there(
        alloc,
        pairs,
        make_credential::EXTENSIONS,
        request.extensions,
    )?;
    let keys = (
        make_credential::OPTIONS,
        make_credential::PIN_UV_AUTH_PARAM,
        make_credential::PIN_UV_AUTH_PROTOCOL,
    );
    push_end(alloc, pairs, keys, &request.options, request.auth)?;
    Ok(())
}

/// The value of a makeCredential request's map.
fn creation_value(alloc: Global, request: MakeCredential<'_>) -> Result<Value, AllocError>
    ensures { IfOk result (λ v. view v ≡ item_of (record_of creation_members) (creation_content (creation_view request.entry))) }
{
    let mut pairs = Vec::new(alloc);
    push_creation(alloc, &mut pairs, request)?;
    Ok(Value::Map(pairs))
}

/// Adds the members of a getAssertion request to none.
fn push_assertion(
    alloc: Global,
    pairs: &mut Vec<(Value, Value)>,
    request: GetAssertion<'_>,
) -> Result<(), AllocError>
    requires { pairs.old.items ≡ [] }
    ensures { OnOk result (map_of (pairs_view pairs.new.items) ≡ item_of (record_of assertion_members) (assertion_content (assertion_view request.entry))) }
{
    let rp_id = text_value(alloc, request.rp_id)?;
    push_member(alloc, pairs, get_assertion::RP_ID, rp_id)?;
    let hash = bytes_value(alloc, request.client_data_hash)?;
    push_member(alloc, pairs, get_assertion::CLIENT_DATA_HASH, hash)?;
    let allow = descriptors_if_there(alloc, request.allow)?;
    push_if_there(alloc, pairs, get_assertion::ALLOW_LIST, allow)?;
    push_if_there(alloc, pairs, get_assertion::EXTENSIONS, request.extensions)?;
    let options = Options {
        rk: None,
        up: request.options.up,
        uv: request.options.uv,
    };
    let keys = (
        get_assertion::OPTIONS,
        get_assertion::PIN_UV_AUTH_PARAM,
        get_assertion::PIN_UV_AUTH_PROTOCOL,
    );
    push_end(alloc, pairs, keys, &options, request.auth)?;
    Ok(())
}

/// The value of a getAssertion request's map.
fn assertion_value(alloc: Global, request: GetAssertion<'_>) -> Result<Value, AllocError>
    ensures { IfOk result (λ v. view v ≡ item_of (record_of assertion_members) (assertion_content (assertion_view request.entry))) }
{
    let mut pairs = Vec::new(alloc);
    push_assertion(alloc, &mut pairs, request)?;
    Ok(Value::Map(pairs))
}

/// The command byte and the encoding of a map.
fn message(alloc: Global, command: u8, value: &Value) -> Result<Vec<u8>, RequestError>
    ensures written { IfOk result (λ v. (rest : List ℕ) × (v.items ≡ command ∷ rest) × Canon (view value.now) rest) }
    ensures unfit { IsErrOf result errors.Unfit → (rest : List ℕ) → Canon (view value.now) rest → ⊥ }
    ensures errors { IfErr result (λ e. (e ≡ errors.Unfit) ⊎ (e ≡ errors.Memory)) }
{
    let mut out = Vec::new(alloc);
    out.push(command).map_err(AllocError::from)?;
    match encode(value, &mut out) {
        Ok(()) => Ok(out),
        Err(ccbor::Error::Unfit) => Err(RequestError::Unfit),
        Err(_) => Err(RequestError::Memory),
    }
}

/// The request's bytes, where they are no more than the key takes.
fn no_longer(bytes: Vec<u8>, max: u64) -> Result<Vec<u8>, RequestError>
    ensures short { IfOk result (λ v. (v.items ≡ bytes.items) × (length bytes.items ≤ max)) }
    ensures long { IfErr result (λ e. (e ≡ errors.MessageTooLong) × (max < length bytes.items)) }
{
    if max < bytes.len() as u64 {
        return Err(RequestError::MessageTooLong);
    }
    Ok(bytes)
}

/// The request's bytes by its value, where that has no fault.
fn finished(
    alloc: Global,
    command: u8,
    fault: Option<Fault>,
    value: &Value,
    max: u64,
) -> Result<Vec<u8>, RequestError>
    ensures { Finishes (λ v. v.items) max
        (λ bs. (rest : List ℕ) × (bs ≡ command ∷ rest) × Canon (view value.now) rest × (fault ≡ None)) result }
{
    if fault.is_some() {
        return Err(RequestError::Unfit);
    }
    match message(alloc, command, value) {
        Ok(bytes) => no_longer(bytes, max),
        Err(e) => Err(e),
    }
}

fn creation_bytes(
    alloc: Global,
    request: MakeCredential<'_>,
    max: u64,
) -> Result<Vec<u8>, RequestError>
    ensures { Finishes (λ v. v.items) max (CreationOf (creation_view request.entry)) result }
{
    let value = creation_value(alloc, request)?;
    let fault = creation_fault(&value);
    finished(alloc, MAKE_CREDENTIAL, fault, &value, max)
}

fn assertion_bytes(
    alloc: Global,
    request: GetAssertion<'_>,
    max: u64,
) -> Result<Vec<u8>, RequestError>
    ensures { Finishes (λ v. v.items) max (AssertionOf (assertion_view request.entry)) result }
{
    let value = assertion_value(alloc, request)?;
    let fault = assertion_fault(&value);
    finished(alloc, GET_ASSERTION, fault, &value, max)
}

/// The bytes of a makeCredential request (CTAP 2.1, section 6.1) to a key that told this of itself: the command byte
/// and one canonical map.
///
/// Refused by the first of these that applies: [`RequestError::OptionNotOffered`] of an option that is asked for
/// as true, and that the key did not tell as true (`up` is true where it was not given);
/// [`RequestError::ListTooLong`] and [`RequestError::IdTooLong`] of more ids than maxCredentialCountInList, or
/// an id of more bytes than maxCredentialIdLength, where these were given; [`RequestError::Unfit`] of a hash that
/// hasn't 32 bytes, an rp id outside 1 to 253, a user handle outside 1 to 64, an id outside 1 to 1,023, and
/// extensions that are no map or have no canonical encoding of three levels; [`RequestError::MessageTooLong`] of
/// more bytes than maxMsgSize, which is 1,024 where it was not given. Otherwise only [`RequestError::Memory`] is answered.
pub fn write_creation(
    alloc: Global,
    info: &KeyInfo<'_>,
    request: MakeCredential<'_>,
) -> Result<Vec<u8>, RequestError>
    ensures written { IfOk result (λ v. IsWritten (info_view info.now) (options_view request.entry.options) (map (λ b. b.now) request.entry.exclude.now)
        (CreationOf (creation_view request.entry)) v.items) }
    ensures refused { IfErr result (IsRefused (info_view info.now) (options_view request.entry.options) (map (λ b. b.now) request.entry.exclude.now)
        (CreationOf (creation_view request.entry))) }
{
    if let Err(e) = check_limits(info, &request.options, request.exclude) {
        return Err(e);
    }
    creation_bytes(alloc, request, max_message(info))
}

/// The bytes of a getAssertion request (CTAP 2.1, section 6.2) to a key that told this of itself.
///
/// Refused as [`write_creation`] refuses; of the option `rk` too, which is not written.
pub fn write_assertion(
    alloc: Global,
    info: &KeyInfo<'_>,
    request: GetAssertion<'_>,
) -> Result<Vec<u8>, RequestError>
    ensures written { IfOk result (λ v. IsWritten (info_view info.now) (options_view request.entry.options) (map (λ b. b.now) request.entry.allow.now)
        (AssertionOf (assertion_view request.entry)) v.items) }
    ensures refused { IfErr result (IsRefused (info_view info.now) (options_view request.entry.options) (map (λ b. b.now) request.entry.allow.now)
        (AssertionOf (assertion_view request.entry))) }
{
    if let Err(e) = check_limits(info, &request.options, request.allow) {
        return Err(e);
    }
    assertion_bytes(alloc, request, max_message(info))
}
