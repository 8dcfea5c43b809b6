//! What a key tells of itself (CTAP 2.1, section 6.4), as JSON.

ghost use Rattle.std.specs.Prelude.{◌≤◌, IfOk, OnOk};
ghost use Rattle.serde_json.specs.Data.{depth, items_depth, members_depth};
ghost use Rattle.serde_json.specs.View.{items_view, members_view, view};
ghost use Rattle.client_lines.specs.Shallow.{AreFlat};

use crate::refused::Refused;
use crate::shallow::ShallowMembers;
use crate::values::{put_flat, texts, texts_or_null};
use client_ceremony::Refusal;
use ctap_encoding::Error;
use ctap_open_replies::{KeyInfo, ParametersView, read_info};
use json_lines::{base64_text, number_or_null};
use serde_json::{Map, Value, put};
use std::alloc::{AllocError, Global};

/// The numbers of protocols, as a list.
#[tactic(auto, using(crate::proofs::Depths::items_more))]
fn protocol_list(alloc: Global, told: &[u64]) -> Result<Vec<Value>, AllocError>
    ensures { IfOk result (λ list. items_depth (items_view list.items) ≤ 0) }
{
    let mut list = Vec::with_capacity(alloc, told.len())?;
    for number in told {
        list.push(Value::from(*number))?;
    }
    Ok(list)
}

/// The numbers of protocols; null where they are not told.
fn protocols(alloc: Global, told: &Option<Vec<u64>>) -> Result<Value, AllocError>
    ensures { IfOk result (λ v. depth (view v) ≤ 1) }
{
    let Some(told) = told else {
        return Ok(Value::Null);
    };
    let list = protocol_list(alloc, told.as_slice())?;
    Ok(Value::Array(list))
}

/// Adds a member that is no object and no array.
#[tactic(auto, using(crate::proofs::Depths::put_plain))]
fn put_plain(
    out: &mut Map<String, Value>,
    alloc: Global,
    name: &str,
    value: Value,
) -> Result<(), AllocError>
    requires value { depth (view value) ≤ 0 }
    requires members { members_depth (members_view out.old.entries) ≤ 0 }
    ensures { OnOk result (members_depth (members_view out.new.entries) ≤ 0) }
{
    put(out, alloc, name, value)
}

/// Options by name, as members.
fn option_members(alloc: Global, told: &[(&str, bool)]) -> Result<Map<String, Value>, AllocError>
    ensures { IfOk result (λ m. members_depth (members_view m.entries) ≤ 0) }
{
    let mut members = Map::new(alloc);
    for (name, truth) in told {
        put_plain(&mut members, alloc, name, Value::Bool(*truth))?;
    }
    Ok(members)
}

/// Options by name; null where they are not told.
fn options(alloc: Global, told: &Option<Vec<(&str, bool)>>) -> Result<Value, AllocError>
    ensures { IfOk result (λ v. depth (view v) ≤ 1) }
{
    let Some(told) = told else {
        return Ok(Value::Null);
    };
    let members = option_members(alloc, told.as_slice())?;
    Ok(Value::Object(members))
}

/// The number of an algorithm; null where it has more than 63 bits.
fn algorithm(parameters: &ParametersView<'_>) -> Value
    ensures { depth (view result) ≤ 0 }
{
    match i64::try_from(parameters.alg) {
        Ok(number) => Value::from(number),
        Err(_) => Value::Null,
    }
}

/// The numbers of algorithms, as a list.
#[tactic(auto, using(crate::proofs::Depths::items_more))]
fn algorithm_list(alloc: Global, told: &[ParametersView<'_>]) -> Result<Vec<Value>, AllocError>
    ensures { IfOk result (λ list. items_depth (items_view list.items) ≤ 0) }
{
    let mut list = Vec::with_capacity(alloc, told.len())?;
    for parameters in told {
        list.push(algorithm(parameters))?;
    }
    Ok(list)
}

/// The numbers of algorithms; null where they are not told.
fn algorithms(alloc: Global, told: &Option<Vec<ParametersView<'_>>>) -> Result<Value, AllocError>
    ensures { IfOk result (λ v. depth (view v) ≤ 1) }
{
    let Some(told) = told else {
        return Ok(Value::Null);
    };
    let list = algorithm_list(alloc, told.as_slice())?;
    Ok(Value::Array(list))
}

/// Adds the limits that the key told.
fn put_limits(
    alloc: Global,
    info: &KeyInfo<'_>,
    out: &mut Map<String, Value>,
) -> Result<(), AllocError>
    requires { AreFlat (members_view out.old.entries) }
    ensures { OnOk result (AreFlat (members_view out.new.entries)) }
{
    put_flat(out, alloc, "max_message", number_or_null(info.max_msg_size))?;
    put_flat(
        out,
        alloc,
        "max_credentials_in_list",
        number_or_null(info.max_credential_count_in_list),
    )?;
    put_flat(
        out,
        alloc,
        "max_credential_id_length",
        number_or_null(info.max_credential_id_length),
    )?;
    put_flat(
        out,
        alloc,
        "min_pin_length",
        number_or_null(info.min_pin_length),
    )?;
    put_flat(
        out,
        alloc,
        "firmware_version",
        number_or_null(info.firmware_version),
    )?;
    put_flat(
        out,
        alloc,
        "remaining_credentials",
        number_or_null(info.remaining_discoverable_credentials),
    )
}

/// Adds what the key says that it can do.
fn put_abilities(
    alloc: Global,
    info: &KeyInfo<'_>,
    out: &mut Map<String, Value>,
) -> Result<(), AllocError>
    requires { AreFlat (members_view out.old.entries) }
    ensures { OnOk result (AreFlat (members_view out.new.entries)) }
{
    put_flat(
        out,
        alloc,
        "versions",
        texts(alloc, info.versions.as_slice())?,
    )?;
    put_flat(
        out,
        alloc,
        "extensions",
        texts_or_null(alloc, &info.extensions)?,
    )?;
    put_flat(out, alloc, "aaguid", base64_text(alloc, info.aaguid)?)?;
    put_flat(out, alloc, "options", options(alloc, &info.options)?)?;
    put_flat(
        out,
        alloc,
        "protocols",
        protocols(alloc, &info.pin_uv_auth_protocols)?,
    )?;
    put_flat(
        out,
        alloc,
        "transports",
        texts_or_null(alloc, &info.transports)?,
    )?;
    put_flat(
        out,
        alloc,
        "algorithms",
        algorithms(alloc, &info.algorithms)?,
    )
}

/// Why getInfo's reply is not read.
fn refused(error: Error) -> Refused {
    match error {
        Error::Memory => Refused::Client(Refusal::Memory),
        Error::Refused(status) => Refused::from(Refusal::Status(status)),
        _ => Refused::Client(Refusal::NotReadable),
    }
}

/// What a key told of itself by this reply.
pub(crate) fn key_info(alloc: Global, reply: &[u8]) -> Result<KeyInfo<'_>, Refused> {
    match read_info(alloc, reply) {
        Ok(info) => Ok(info),
        Err(error) => Err(refused(error)),
    }
}

/// The members that tell what getInfo's reply says.
pub(crate) fn information(alloc: Global, reply: &[u8]) -> Result<ShallowMembers, Refused> {
    let info = key_info(alloc, reply)?;
    let mut members = Map::new(alloc);
    put_abilities(alloc, &info, &mut members)?;
    put_limits(alloc, &info, &mut members)?;
    Ok(ShallowMembers { members })
}
