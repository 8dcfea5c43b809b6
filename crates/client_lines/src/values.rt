//! Values of JSON that nest few levels deep.

ghost use Rattle.std.specs.Prelude.{◌≤◌, IfOk, OnOk};
ghost use Rattle.serde_json.specs.Data.{depth, items_depth};
ghost use Rattle.serde_json.specs.View.{items_view, members_view, view};
ghost use Rattle.client_lines.specs.Shallow.{AreFlat, IsFlat};

use serde_json::{Map, Value, put};
use std::alloc::{AllocError, Global};

/// Adds a member that nests at most 2 deep.
#[tactic(auto, using(crate::proofs::Depths::put_flat))]
pub(crate) fn put_flat(
    out: &mut Map<String, Value>,
    alloc: Global,
    name: &str,
    value: Value,
) -> Result<(), AllocError>
    requires value { IsFlat (view value) }
    requires members { AreFlat (members_view out.old.entries) }
    ensures { OnOk result (AreFlat (members_view out.new.entries)) }
{
    put(out, alloc, name, value)
}

/// Texts, as a list.
#[tactic(auto, using(crate::proofs::Depths::items_more))]
fn text_list(alloc: Global, texts: &[&str]) -> Result<Vec<Value>, AllocError>
    ensures { IfOk result (λ list. items_depth (items_view list.items) ≤ 0) }
{
    let mut list = Vec::with_capacity(alloc, texts.len())?;
    for text in texts {
        list.push(Value::try_from_str(alloc, text)?)?;
    }
    Ok(list)
}

/// Texts.
pub(crate) fn texts(alloc: Global, texts: &[&str]) -> Result<Value, AllocError>
    ensures { IfOk result (λ v. depth (view v) ≤ 1) }
{
    let list = text_list(alloc, texts)?;
    Ok(Value::Array(list))
}

/// A text; null where there is none.
pub(crate) fn text_or_null(alloc: Global, text: Option<&str>) -> Result<Value, AllocError>
    ensures { IfOk result (λ v. depth (view v) ≤ 0) }
{
    match text {
        Some(text) => Value::try_from_str(alloc, text),
        None => Ok(Value::Null),
    }
}

/// Texts; null where they are not told.
pub(crate) fn texts_or_null(alloc: Global, told: &Option<Vec<&str>>) -> Result<Value, AllocError>
    ensures { IfOk result (λ v. depth (view v) ≤ 1) }
{
    match told {
        Some(list) => texts(alloc, list.as_slice()),
        None => Ok(Value::Null),
    }
}
