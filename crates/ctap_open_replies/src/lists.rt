//! The lists in a reply to getInfo, lent where they lie.

ghost use Rattle.std.specs.Prelude.{◌≡◌, map, option_map};
ghost use Rattle.ccbor.specs.Access.{key_item, member};
ghost use Rattle.ccbor.specs.Viewing.{shown};
ghost use Rattle.ctap_encoding.specs.Table.{a_text, list_of, record_of, truths, unsigned};
ghost use Rattle.ctap_encoding.specs.Reading.{Gives, Yields, maybe, named_truth};
ghost use Rattle.ctap_open_replies.specs.Reading.{held_in, open_in};
ghost use Rattle.ctap_open_replies.specs.Replies.{parameters_content, parameters_members};
ghost use Rattle.ctap_open_replies.specs.ReplyView.{parameters_view};

use crate::leaf::{number_at, text, text_at, value_at};
use crate::reply::ParametersView;
use ccbor::{MapKey, View};
use ctap_encoding::{MapError, Shape, any_map, items, members, truth, unsigned};
use std::alloc::Global;

fn texts<'a>(alloc: Global, value: &View<'a>) -> Result<Vec<&'a str>, MapError>
    ensures { Gives (λ v. map (λ s. s.now) v.items) result (open_in (list_of a_text) (shown value.now)) }
{
    let mut rest = items(value)?;
    let mut all = Vec::new(alloc);
    while let Some((item, after)) = rest.split_first() {
        all.push(text(&item)?)?;
        rest = after;
    }
    Ok(all)
}

/// The texts at a key.
pub fn texts_at<'a>(
    alloc: Global,
    value: &View<'a>,
    key: MapKey<'_>,
) -> Result<Vec<&'a str>, MapError>
    ensures { Gives (λ v. map (λ s. s.now) v.items) result
        (held_in (open_in (list_of a_text)) (member (key_item key.entry) (shown value.now))) }
{
    let held = value_at(value, key)?;
    texts(alloc, &held)
}

/// The texts at a key that may be absent.
pub fn texts_if_there<'a>(
    alloc: Global,
    value: &View<'a>,
    key: MapKey<'_>,
) -> Result<Option<Vec<&'a str>>, MapError>
    ensures { Gives (λ o. option_map (λ v. map (λ s. s.now) v.items) o) result
        (maybe (open_in (list_of a_text)) (member (key_item key.entry) (shown value.now))) }
{
    match value.get(key) {
        Some(held) => Ok(Some(texts(alloc, &held)?)),
        None => Ok(None),
    }
}

fn numbers(alloc: Global, value: &View<'_>) -> Result<Vec<u64>, MapError>
    ensures { Gives (λ v. v.items) result (open_in (list_of (unsigned 0)) (shown value.now)) }
{
    let mut rest = items(value)?;
    let mut all = Vec::new(alloc);
    while let Some((item, after)) = rest.split_first() {
        all.push(unsigned(&item, 0)?)?;
        rest = after;
    }
    Ok(all)
}

/// The unsigned numbers at a key that may be absent.
pub fn numbers_if_there(
    alloc: Global,
    value: &View<'_>,
    key: MapKey<'_>,
) -> Result<Option<Vec<u64>>, MapError>
    ensures { Gives (λ o. option_map (λ v. v.items) o) result
        (maybe (open_in (list_of (unsigned 0))) (member (key_item key.entry) (shown value.now))) }
{
    match value.get(key) {
        Some(held) => Ok(Some(numbers(alloc, &held)?)),
        None => Ok(None),
    }
}

fn named_truth<'a>(name: &View<'a>, value: &View<'a>) -> Result<(&'a str, bool), Shape>
    ensures { Yields (λ o. (o.0.now, o.1)) result (named_truth (shown name.now) (shown value.now)) }
{
    let name = text(name)?;
    let truth = truth(value)?;
    Ok((name, truth))
}

fn truths<'a>(alloc: Global, value: &View<'a>) -> Result<Vec<(&'a str, bool)>, MapError>
    ensures { Gives (λ v. map (λ o. (o.0.now, o.1)) v.items) result (open_in truths (shown value.now)) }
{
    let mut rest = members(value)?;
    let mut all = Vec::new(alloc);
    while let Some((name, value, after)) = rest.split_first() {
        all.push(named_truth(&name, &value)?)?;
        rest = after;
    }
    Ok(all)
}

/// The texts and their truth values at a key that may be absent.
pub fn truths_if_there<'a>(
    alloc: Global,
    value: &View<'a>,
    key: MapKey<'_>,
) -> Result<Option<Vec<(&'a str, bool)>>, MapError>
    ensures { Gives (λ o. option_map (λ v. map (λ p. (p.0.now, p.1)) v.items) o) result
        (maybe (open_in truths) (member (key_item key.entry) (shown value.now))) }
{
    match value.get(key) {
        Some(held) => Ok(Some(truths(alloc, &held)?)),
        None => Ok(None),
    }
}

fn parameters<'a>(value: &View<'a>) -> Result<ParametersView<'a>, Shape>
    ensures { Yields (λ p. parameters_content (parameters_view p)) result
        (open_in (record_of parameters_members) (shown value.now)) }
{
    any_map(value)?;
    let alg = number_at(value, MapKey::Text("alg"))?;
    let kind = text_at(value, MapKey::Text("type"))?;
    Ok(ParametersView { alg, kind })
}

fn parameter_list<'a>(alloc: Global, value: &View<'a>) -> Result<Vec<ParametersView<'a>>, MapError>
    ensures { Gives (λ v. map parameters_content (map parameters_view v.items)) result
        (open_in (list_of (record_of parameters_members)) (shown value.now)) }
{
    let mut rest = items(value)?;
    let mut all = Vec::new(alloc);
    while let Some((item, after)) = rest.split_first() {
        all.push(parameters(&item)?)?;
        rest = after;
    }
    Ok(all)
}

/// The types and algorithms at a key that may be absent.
pub fn parameters_if_there<'a>(
    alloc: Global,
    value: &View<'a>,
    key: MapKey<'_>,
) -> Result<Option<Vec<ParametersView<'a>>>, MapError>
    ensures { Gives (λ o. option_map (λ v. map parameters_content (map parameters_view v.items)) o) result
        (maybe (open_in (list_of (record_of parameters_members))) (member (key_item key.entry) (shown value.now))) }
{
    match value.get(key) {
        Some(held) => Ok(Some(parameter_list(alloc, &held)?)),
        None => Ok(None),
    }
}
