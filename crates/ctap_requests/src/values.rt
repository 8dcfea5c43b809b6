//! The values of requests' maps.

ghost use Rattle.std.specs.Prelude.{◌≡◌, IfOk, map, option_map, string_bytes};
ghost use Rattle.ccbor.specs.View.{view};
ghost use Rattle.ccbor.specs.Item.{text, boolean};
ghost use Rattle.ctap_encoding.specs.Table.{record_of, list_of};
ghost use Rattle.ctap_encoding.specs.Content.{item_of, number_item};
ghost use Rattle.ctap_requests.specs.Pieces.{is_number, all_numbers, Builds};
ghost use Rattle.ctap_requests.specs.Entities.{descriptor_members, descriptor_content, rp_members, rp_content, user_members, user_content};
ghost use Rattle.ctap_requests.specs.Entities.{parameters_members, parameters_content, creation_options_members, creation_options_content};
ghost use Rattle.ctap_requests.specs.Entities.{assertion_options_members, assertion_options_content};
ghost use Rattle.ctap_requests.specs.RequestView.{descriptor_view, rp_view, user_view, parameters_view, creation_options_view, assertion_options_view};

use crate::request::{
    AssertionOptions, CreationOptions, Descriptor, Parameters, RelyingParty, User,
};
use ccbor::{MapKey, Value};
use ctap_encoding::{Error, bytes_value, push_if_there, push_member, text_value};
use std::alloc::{AllocError, Global};

fn text_if_there(alloc: Global, content: &Option<String>) -> Result<Option<Value>, AllocError>
    ensures { IfOk result (λ v. option_map view v
        ≡ option_map text (option_map (λ s. string_bytes s) content.now)) }
{
    match content {
        Some(content) => Ok(Some(text_value(alloc, content)?)),
        None => Ok(None),
    }
}

fn truth_value(truth: Option<bool>) -> Option<Value>
    ensures { option_map view result ≡ option_map boolean truth }
{
    match truth {
        Some(truth) => Some(Value::Bool(truth)),
        None => None,
    }
}

fn number_value(number: i128) -> Result<Value, Error>
    ensures { Builds (is_number number) (number_item number) result }
{
    match u64::try_from(number) {
        Ok(n) => Ok(Value::Uint(n)),
        Err(_) => match u64::try_from(-1 - number) {
            Ok(n) => Ok(Value::Nint(n)),
            Err(_) => Err(Error::Unfit),
        },
    }
}

fn descriptor_value(alloc: Global, descriptor: &Descriptor) -> Result<Value, AllocError>
    ensures { IfOk result (λ v. view v ≡ item_of (record_of descriptor_members) (descriptor_content (descriptor_view descriptor.now))) }
{
    let id = bytes_value(alloc, &descriptor.id)?;
    let kind = text_value(alloc, &descriptor.kind)?;
    let mut pairs = Vec::new(alloc);
    push_member(alloc, &mut pairs, MapKey::Text("id"), id)?;
    push_member(alloc, &mut pairs, MapKey::Text("type"), kind)?;
    Ok(Value::Map(pairs))
}

fn descriptors_value(alloc: Global, list: &[Descriptor]) -> Result<Value, AllocError>
    ensures { IfOk result (λ v. view v ≡ item_of (list_of (record_of descriptor_members)) (map descriptor_content (map descriptor_view list.now))) }
{
    let mut items = Vec::new(alloc);
    for descriptor in list {
        items.push(descriptor_value(alloc, descriptor)?)?;
    }
    Ok(Value::Array(items))
}

/// The value of a list of descriptors that may be absent.
pub fn descriptors_if_there(
    alloc: Global,
    list: &Option<Vec<Descriptor>>,
) -> Result<Option<Value>, AllocError>
    ensures { IfOk result (λ v. option_map view v
        ≡ option_map (item_of (list_of (record_of descriptor_members)))
        (option_map (map descriptor_content) (option_map (λ v. map descriptor_view v.items) list.now))) }
{
    match list {
        Some(list) => Ok(Some(descriptors_value(alloc, list)?)),
        None => Ok(None),
    }
}

/// The value of a relying party.
pub fn rp_value(alloc: Global, rp: &RelyingParty) -> Result<Value, AllocError>
    ensures { IfOk result (λ v. view v ≡ item_of (record_of rp_members) (rp_content (rp_view rp.now))) }
{
    let id = text_value(alloc, &rp.id)?;
    let name = text_if_there(alloc, &rp.name)?;
    let mut pairs = Vec::new(alloc);
    push_member(alloc, &mut pairs, MapKey::Text("id"), id)?;
    push_if_there(alloc, &mut pairs, MapKey::Text("name"), name)?;
    Ok(Value::Map(pairs))
}

/// The value of a user account.
pub fn user_value(alloc: Global, user: &User) -> Result<Value, AllocError>
    ensures { IfOk result (λ v. view v ≡ item_of (record_of user_members) (user_content (user_view user.now))) }
{
    let name = text_if_there(alloc, &user.name)?;
    let display_name = text_if_there(alloc, &user.display_name)?;
    let id = bytes_value(alloc, &user.id)?;
    let mut pairs = Vec::new(alloc);
    push_member(alloc, &mut pairs, MapKey::Text("id"), id)?;
    push_if_there(alloc, &mut pairs, MapKey::Text("name"), name)?;
    push_if_there(alloc, &mut pairs, MapKey::Text("displayName"), display_name)?;
    Ok(Value::Map(pairs))
}

fn parameters_value(alloc: Global, parameters: &Parameters) -> Result<Value, Error>
    ensures { Builds (is_number parameters.now.alg)
        (item_of (record_of parameters_members) (parameters_content (parameters_view parameters.now))) result }
{
    let alg = number_value(parameters.alg)?;
    let kind = text_value(alloc, &parameters.kind)?;
    let mut pairs = Vec::new(alloc);
    push_member(alloc, &mut pairs, MapKey::Text("alg"), alg)?;
    push_member(alloc, &mut pairs, MapKey::Text("type"), kind)?;
    Ok(Value::Map(pairs))
}

/// The value of a list of types and algorithms; `Unfit` where an algorithm's number has no head.
pub fn parameter_list_value(alloc: Global, list: &[Parameters]) -> Result<Value, Error>
    ensures { Builds (all_numbers (map parameters_view list.now))
        (item_of (list_of (record_of parameters_members)) (map parameters_content (map parameters_view list.now))) result }
{
    let mut items = Vec::new(alloc);
    for parameters in list {
        // A match, since `?` would hide that the refusal is the callee's.
        match parameters_value(alloc, parameters) {
            Ok(value) => items.push(value).map_err(AllocError::from)?,
            Err(e) => return Err(e),
        }
    }
    Ok(Value::Array(items))
}

/// The value of options, each of which may be absent.
fn options_value(
    alloc: Global,
    rk: Option<bool>,
    up: Option<bool>,
    uv: Option<bool>,
) -> Result<Value, AllocError>
    ensures { IfOk result (λ v. view v
        ≡ item_of (record_of creation_options_members) (creation_options_content (record { rk = rk; up = up; uv = uv }))) }
{
    let mut pairs = Vec::new(alloc);
    push_if_there(alloc, &mut pairs, MapKey::Text("rk"), truth_value(rk))?;
    push_if_there(alloc, &mut pairs, MapKey::Text("up"), truth_value(up))?;
    push_if_there(alloc, &mut pairs, MapKey::Text("uv"), truth_value(uv))?;
    Ok(Value::Map(pairs))
}

/// The value of a makeCredential request's options, which may be absent.
pub fn creation_options_if_there(
    alloc: Global,
    options: &Option<CreationOptions>,
) -> Result<Option<Value>, AllocError>
    ensures { IfOk result (λ v. option_map view v
        ≡ option_map (item_of (record_of creation_options_members)) (option_map creation_options_content (option_map creation_options_view options.now))) }
{
    match options {
        Some(options) => {
            let value = options_value(alloc, options.rk, options.up, options.uv)?;
            Ok(Some(value))
        }
        None => Ok(None),
    }
}

/// The value of a getAssertion request's options, which may be absent.
pub fn assertion_options_if_there(
    alloc: Global,
    options: &Option<AssertionOptions>,
) -> Result<Option<Value>, AllocError>
    ensures { IfOk result (λ v. option_map view v
        ≡ option_map (item_of (record_of assertion_options_members)) (option_map assertion_options_content (option_map assertion_options_view options.now))) }
{
    match options {
        Some(options) => Ok(Some(options_value(alloc, None, options.up, options.uv)?)),
        None => Ok(None),
    }
}
