//! The values of requests' members.

ghost use Rattle.std.specs.Prelude.{◌≡◌, IfOk, map, option_map};
ghost use Rattle.ccbor.specs.Item.{boolean};
ghost use Rattle.ccbor.specs.View.{view};
ghost use Rattle.ctap_encoding.specs.Content.{item_of, number_item};
ghost use Rattle.ctap_encoding.specs.Table.{list_of, record_of};
ghost use Rattle.ctap_requests.specs.Entities.{creation_options_content, creation_options_members, parameters_members, rp_content, rp_members, user_content, user_members};
ghost use Rattle.ctap_open_replies.specs.Replies.{credential_content, credential_members};
ghost use Rattle.ctap_open_requests.specs.Requests.{algorithm_content, descriptors, options_content};
ghost use Rattle.ctap_open_requests.specs.RequestView.{options_view, rp_view, user_view};

use crate::request::{Options, RelyingParty, User};
use ccbor::{MapKey, Value};
use ctap_encoding::{bytes_value, push_if_there, push_member, text_value};
use pin_client_messages::text_if_there;
use std::alloc::{AllocError, Global};

/// The type of a public key credential (WebAuthn section 5.8.2).
const PUBLIC_KEY: &str = "public-key";

fn truth_if_there(truth: Option<bool>) -> Option<Value>
    ensures { option_map view result ≡ option_map boolean truth }
{
    match truth {
        Some(truth) => Some(Value::Bool(truth)),
        None => None,
    }
}

fn number_value(number: i64) -> Value
    ensures { view result ≡ number_item number }
{
    match u64::try_from(number) {
        Ok(n) => Value::Uint(n),
        Err(_) => Value::Nint((-1 - number) as u64),
    }
}

/// The value of a relying party.
pub fn rp_value(alloc: Global, rp: &RelyingParty<'_>) -> Result<Value, AllocError>
    ensures { IfOk result (λ v. view v ≡ item_of (record_of rp_members) (rp_content (rp_view rp.now))) }
{
    let id = text_value(alloc, rp.id)?;
    let name = text_if_there(alloc, rp.name)?;
    let mut pairs = Vec::new(alloc);
    push_member(alloc, &mut pairs, MapKey::Text("id"), id)?;
    push_if_there(alloc, &mut pairs, MapKey::Text("name"), name)?;
    Ok(Value::Map(pairs))
}

/// The value of a user account.
pub fn user_value(alloc: Global, user: &User<'_>) -> Result<Value, AllocError>
    ensures { IfOk result (λ v. view v ≡ item_of (record_of user_members) (user_content (user_view user.now))) }
{
    let name = text_if_there(alloc, user.name)?;
    let display_name = text_if_there(alloc, user.display_name)?;
    let id = bytes_value(alloc, user.id)?;
    let mut pairs = Vec::new(alloc);
    push_member(alloc, &mut pairs, MapKey::Text("id"), id)?;
    push_if_there(alloc, &mut pairs, MapKey::Text("name"), name)?;
    push_if_there(alloc, &mut pairs, MapKey::Text("displayName"), display_name)?;
    Ok(Value::Map(pairs))
}

fn algorithm_value(alloc: Global, alg: i64) -> Result<Value, AllocError>
    ensures { IfOk result (λ v. view v ≡ item_of (record_of parameters_members) (algorithm_content alg)) }
{
    let kind = text_value(alloc, PUBLIC_KEY)?;
    let mut pairs = Vec::new(alloc);
    push_member(alloc, &mut pairs, MapKey::Text("alg"), number_value(alg))?;
    push_member(alloc, &mut pairs, MapKey::Text("type"), kind)?;
    Ok(Value::Map(pairs))
}

/// The value of the algorithms that are wanted.
pub fn algorithms_value(alloc: Global, algorithms: &[i64]) -> Result<Value, AllocError>
    ensures { IfOk result (λ v. view v ≡ item_of (list_of (record_of parameters_members)) (map algorithm_content algorithms.now)) }
{
    let mut items = Vec::new(alloc);
    for alg in algorithms {
        items.push(algorithm_value(alloc, *alg)?)?;
    }
    Ok(Value::Array(items))
}

fn descriptor_value(alloc: Global, id: &[u8]) -> Result<Value, AllocError>
    ensures { IfOk result (λ v. view v ≡ item_of (record_of credential_members) (credential_content id.now)) }
{
    let id = bytes_value(alloc, id)?;
    let kind = text_value(alloc, PUBLIC_KEY)?;
    let mut pairs = Vec::new(alloc);
    push_member(alloc, &mut pairs, MapKey::Text("id"), id)?;
    push_member(alloc, &mut pairs, MapKey::Text("type"), kind)?;
    Ok(Value::Map(pairs))
}

fn descriptors_value(alloc: Global, ids: &[&[u8]]) -> Result<Value, AllocError>
    ensures { IfOk result (λ v. view v ≡ item_of (list_of (record_of credential_members)) (map credential_content (map (λ b. b.now) ids.now))) }
{
    let mut items = Vec::new(alloc);
    for id in ids {
        items.push(descriptor_value(alloc, id)?)?;
    }
    Ok(Value::Array(items))
}

/// The value of a list of descriptors, if it has one.
pub fn descriptors_if_there(alloc: Global, ids: &[&[u8]]) -> Result<Option<Value>, AllocError>
    ensures { IfOk result (λ v. option_map view v
        ≡ option_map (item_of (list_of (record_of credential_members))) (descriptors (map (λ b. b.now) ids.now))) }
{
    if ids.is_empty() {
        return Ok(None);
    }
    Ok(Some(descriptors_value(alloc, ids)?))
}

fn options_value(alloc: Global, options: &Options) -> Result<Value, AllocError>
    ensures { IfOk result (λ v. view v ≡ item_of (record_of creation_options_members) (creation_options_content (options_view options.now))) }
{
    let mut pairs = Vec::new(alloc);
    push_if_there(
        alloc,
        &mut pairs,
        MapKey::Text("rk"),
        truth_if_there(options.rk),
    )?;
    push_if_there(
        alloc,
        &mut pairs,
        MapKey::Text("up"),
        truth_if_there(options.up),
    )?;
    push_if_there(
        alloc,
        &mut pairs,
        MapKey::Text("uv"),
        truth_if_there(options.uv),
    )?;
    Ok(Value::Map(pairs))
}

/// The value of the options, if there is one.
pub fn options_if_there(alloc: Global, options: &Options) -> Result<Option<Value>, AllocError>
    ensures { IfOk result (λ v. option_map view v
        ≡ option_map (item_of (record_of creation_options_members)) (options_content (options_view options.now))) }
{
    match (options.rk, options.up, options.uv) {
        (None, None, None) => Ok(None),
        _ => Ok(Some(options_value(alloc, options)?)),
    }
}
