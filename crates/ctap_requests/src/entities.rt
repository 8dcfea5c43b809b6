//! Reading the maps inside requests: descriptors and options where they lie, the others copied out.

ghost use Rattle.std.specs.Prelude.{◌≡◌, map, option_map, string_bytes};
ghost use Rattle.ccbor.specs.Viewing.{shown};
ghost use Rattle.ctap_encoding.specs.Table.{record_of, list_of};
ghost use Rattle.ctap_encoding.specs.Reading.{Gives, Yields, maybe, read_in};
ghost use Rattle.ccbor.specs.Access.{text_in};
ghost use Rattle.ctap_requests.specs.Entities.{descriptor_members, descriptor_content, rp_members, rp_content, user_members, user_content};
ghost use Rattle.ctap_requests.specs.Entities.{parameters_members, parameters_content, creation_options_members, creation_options_content};
ghost use Rattle.ctap_requests.specs.Entities.{assertion_options_members, assertion_options_content};
ghost use Rattle.ctap_requests.specs.RequestView.{lent_descriptor_view, rp_view, user_view, parameters_view, creation_options_view, assertion_options_view};

use crate::request::{
    AssertionOptions, CreationOptions, DescriptorView, Parameters, RelyingParty, User,
};
use ccbor::{MapKey, View};
use ctap_encoding::{
    MapError, Shape, bytes, end, items, members, number, optional, required, sized, text,
    truth_if_there,
};
use std::alloc::Global;

/// The text, where it lies.
pub fn lent_text<'a>(value: &View<'a>) -> Result<&'a str, Shape>
    ensures { Yields (λ s. s.now) result (text_in (shown value.now)) }
{
    match value.as_text() {
        Some(content) => Ok(content),
        None => Err(Shape),
    }
}

fn descriptor<'a>(value: &View<'a>) -> Result<DescriptorView<'a>, Shape>
    ensures { Yields (λ d. descriptor_content (lent_descriptor_view d)) result
        (read_in (record_of descriptor_members) (shown value.now)) }
{
    let rest = members(value)?;
    let (held, rest) = required(&rest, MapKey::Text("id"))?;
    sized(&held, 1, 64)?;
    let id = bytes(&held)?;
    let (held, rest) = required(&rest, MapKey::Text("type"))?;
    let kind = lent_text(&held)?;
    end(&rest)?;
    Ok(DescriptorView { id, kind })
}

/// The descriptors of a list, where they lie.
pub fn descriptors<'a>(alloc: Global, value: &View<'a>) -> Result<Vec<DescriptorView<'a>>, MapError>
    ensures { Gives (λ v. map descriptor_content (map lent_descriptor_view v.items)) result
        (read_in (list_of (record_of descriptor_members)) (shown value.now)) }
{
    let mut rest = items(value)?;
    let mut all = Vec::new(alloc);
    while let Some((item, after)) = rest.split_first() {
        all.push(descriptor(&item)?)?;
        rest = after;
    }
    Ok(all)
}

/// A text that may be absent.
fn text_if_there(alloc: Global, held: Option<View<'_>>) -> Result<Option<String>, MapError>
    ensures { Gives (λ o. option_map (λ s. string_bytes s) o) result
        (maybe text_in (option_map shown held.entry)) }
{
    match held {
        Some(value) => Ok(Some(text(alloc, &value)?)),
        None => Ok(None),
    }
}

/// A relying party.
pub fn relying_party(alloc: Global, value: &View<'_>) -> Result<RelyingParty, MapError>
    ensures { Gives (λ r. rp_content (rp_view r)) result
        (read_in (record_of rp_members) (shown value.now)) }
{
    let rest = members(value)?;
    let (held, rest) = required(&rest, MapKey::Text("id"))?;
    sized(&held, 1, 253)?;
    let id = text(alloc, &held)?;
    let (held, rest) = optional(rest, MapKey::Text("name"));
    let name = text_if_there(alloc, held)?;
    end(&rest)?;
    Ok(RelyingParty { id, name })
}

/// A user account.
pub fn user(alloc: Global, value: &View<'_>) -> Result<User, MapError>
    ensures { Gives (λ u. user_content (user_view u)) result
        (read_in (record_of user_members) (shown value.now)) }
{
    let rest = members(value)?;
    let (held, rest) = required(&rest, MapKey::Text("id"))?;
    sized(&held, 1, 64)?;
    let id = Vec::from_slice(alloc, bytes(&held)?)?;
    let (held, rest) = optional(rest, MapKey::Text("name"));
    let name = text_if_there(alloc, held)?;
    let (held, rest) = optional(rest, MapKey::Text("displayName"));
    let display_name = text_if_there(alloc, held)?;
    end(&rest)?;
    Ok(User {
        id,
        name,
        display_name,
    })
}

fn parameters(alloc: Global, value: &View<'_>) -> Result<Parameters, MapError>
    ensures { Gives (λ p. parameters_content (parameters_view p)) result
        (read_in (record_of parameters_members) (shown value.now)) }
{
    let rest = members(value)?;
    let (held, rest) = required(&rest, MapKey::Text("alg"))?;
    let alg = number(&held)?;
    let (held, rest) = required(&rest, MapKey::Text("type"))?;
    let kind = text(alloc, &held)?;
    end(&rest)?;
    Ok(Parameters { alg, kind })
}

/// The types and algorithms of a list.
pub fn parameter_list(alloc: Global, value: &View<'_>) -> Result<Vec<Parameters>, MapError>
    ensures { Gives (λ v. map parameters_content (map parameters_view v.items)) result
        (read_in (list_of (record_of parameters_members)) (shown value.now)) }
{
    let mut rest = items(value)?;
    let mut all = Vec::new(alloc);
    while let Some((item, after)) = rest.split_first() {
        all.push(parameters(alloc, &item)?)?;
        rest = after;
    }
    Ok(all)
}

/// The options of a makeCredential request.
pub fn creation_options(value: &View<'_>) -> Result<CreationOptions, Shape>
    ensures { Yields (λ o. creation_options_content (creation_options_view o)) result
        (read_in (record_of creation_options_members) (shown value.now)) }
{
    let rest = members(value)?;
    let (held, rest) = optional(rest, MapKey::Text("rk"));
    let rk = truth_if_there(held)?;
    let (held, rest) = optional(rest, MapKey::Text("up"));
    let up = truth_if_there(held)?;
    let (held, rest) = optional(rest, MapKey::Text("uv"));
    let uv = truth_if_there(held)?;
    end(&rest)?;
    Ok(CreationOptions { rk, up, uv })
}

/// The options of a getAssertion request.
pub fn assertion_options(value: &View<'_>) -> Result<AssertionOptions, Shape>
    ensures { Yields (λ o. assertion_options_content (assertion_options_view o)) result
        (read_in (record_of assertion_options_members) (shown value.now)) }
{
    let rest = members(value)?;
    let (held, rest) = optional(rest, MapKey::Text("up"));
    let up = truth_if_there(held)?;
    let (held, rest) = optional(rest, MapKey::Text("uv"));
    let uv = truth_if_there(held)?;
    end(&rest)?;
    Ok(AssertionOptions { up, uv })
}
