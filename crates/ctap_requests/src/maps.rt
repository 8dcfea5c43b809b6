//! Reading the maps of requests: a getAssertion's where it lies, a makeCredential's copied out. Extensions are
//! passed over.

ghost use Rattle.std.specs.Prelude.{◌≡◌, map, None, option_map};
ghost use Rattle.ccbor.specs.Viewing.{shown};
ghost use Rattle.ctap_encoding.specs.Table.{any_map, record_of, list_of, sized, not_empty};
ghost use Rattle.ctap_encoding.specs.Reading.{Gives, Yields, maybe, read_in};
ghost use Rattle.ctap_encoding.specs.declared.fault.Fault.TheVariants as faults;
ghost use Rattle.ctap_requests.specs.Entities.{descriptor_members, descriptor_content, creation_options_members, creation_options_content};
ghost use Rattle.ctap_requests.specs.Entities.{assertion_options_members, assertion_options_content};
ghost use Rattle.ctap_requests.specs.Pieces.{forget_creation, forget_assertion};
ghost use Rattle.ctap_requests.specs.Requests.{creation_members, creation_content, assertion_members, assertion_content};
ghost use Rattle.ctap_requests.specs.RequestView.{descriptor_view, lent_descriptor_view, creation_options_view, assertion_options_view};
ghost use Rattle.ctap_requests.specs.RequestView.{creation_view, lent_get_assertion_view};

use crate::entities::{
    assertion_options, creation_options, descriptors, lent_text, parameter_list, relying_party,
    user,
};
use crate::owned::owned_descriptors;
use crate::request::{
    AssertionOptions, CreationOptions, Descriptor, DescriptorView, GetAssertionView, MakeCredential,
};
use ccbor::View;
use ctap_encoding::member::{get_assertion, make_credential};
use ctap_encoding::{
    MapError, Shape, any_map, bytes, end, members, not_empty, optional, required, sized,
};
use std::alloc::Global;

/// At most 8 descriptors, which may be absent.
fn exclude_list(alloc: Global, held: Option<View<'_>>) -> Result<Option<Vec<Descriptor>>, MapError>
    ensures { Gives (λ o. option_map (λ v. map descriptor_content (map descriptor_view v.items)) o) result
        (maybe (read_in (sized 0 8 faults.OverLimit (list_of (record_of descriptor_members)))) (option_map shown held.entry)) }
{
    let Some(value) = held else {
        return Ok(None);
    };
    sized(&value, 0, 8)?;
    let lent = descriptors(alloc, &value)?;
    Ok(Some(owned_descriptors(alloc, &lent)?))
}

/// From 1 to 8 descriptors, which may be absent.
fn allow_list<'a>(
    alloc: Global,
    held: Option<View<'a>>,
) -> Result<Option<Vec<DescriptorView<'a>>>, MapError>
    ensures { Gives (λ o. option_map (λ v. map descriptor_content (map lent_descriptor_view v.items)) o) result
        (maybe (read_in (not_empty faults.InvalidSize (sized 0 8 faults.OverLimit (list_of (record_of descriptor_members))))) (option_map shown held.entry)) }
{
    let Some(value) = held else {
        return Ok(None);
    };
    not_empty(&value)?;
    sized(&value, 0, 8)?;
    Ok(Some(descriptors(alloc, &value)?))
}

/// Extensions, which may be absent: any map.
fn extensions(held: &Option<View<'_>>) -> Result<(), Shape>
    ensures { Yields (λ u. option_map shown held.now) result
        (maybe (read_in any_map) (option_map shown held.now)) }
{
    match held {
        Some(value) => any_map(value),
        None => Ok(()),
    }
}

fn creation_options_if_there(held: Option<View<'_>>) -> Result<Option<CreationOptions>, Shape>
    ensures { Yields (λ o. option_map (λ x. creation_options_content (creation_options_view x)) o) result
        (maybe (read_in (record_of creation_options_members)) (option_map shown held.entry)) }
{
    match held {
        Some(value) => Ok(Some(creation_options(&value)?)),
        None => Ok(None),
    }
}

fn assertion_options_if_there(held: Option<View<'_>>) -> Result<Option<AssertionOptions>, Shape>
    ensures { Yields (λ o. option_map (λ x. assertion_options_content (assertion_options_view x)) o) result
        (maybe (read_in (record_of assertion_options_members)) (option_map shown held.entry)) }
{
    match held {
        Some(value) => Ok(Some(assertion_options(&value)?)),
        None => Ok(None),
    }
}

/// The map of a makeCredential request (CTAP 2.1, section 6.1).
pub fn creation(alloc: Global, value: &View<'_>) -> Result<MakeCredential, MapError>
    ensures { Gives (λ q. creation_content (creation_view q) None) result
        (option_map forget_creation (read_in (record_of creation_members) (shown value.now))) }
{
    let rest = members(value)?;
    let (held, rest) = required(&rest, make_credential::CLIENT_DATA_HASH)?;
    sized(&held, 32, 32)?;
    let hash = bytes(&held)?;
    let (held, rest) = required(&rest, make_credential::RP)?;
    let rp = relying_party(alloc, &held)?;
    let (held, rest) = required(&rest, make_credential::USER)?;
    let user = user(alloc, &held)?;
    let (held, rest) = required(&rest, make_credential::PUB_KEY_CRED_PARAMS)?;
    let pub_key_cred_params = parameter_list(alloc, &held)?;
    let (held, rest) = optional(rest, make_credential::EXCLUDE_LIST);
    let exclude_list = exclude_list(alloc, held)?;
    let (held, rest) = optional(rest, make_credential::EXTENSIONS);
    extensions(&held)?;
    let (held, rest) = optional(rest, make_credential::OPTIONS);
    let options = creation_options_if_there(held)?;
    end(&rest)?;
    Ok(MakeCredential {
        client_data_hash: Vec::from_slice(alloc, hash)?,
        rp,
        user,
        pub_key_cred_params,
        exclude_list,
        options,
    })
}

/// The map of a getAssertion request (CTAP 2.1, section 6.2).
pub fn assertion<'a>(alloc: Global, value: &View<'a>) -> Result<GetAssertionView<'a>, MapError>
    ensures { Gives (λ q. assertion_content (lent_get_assertion_view q) None) result
        (option_map forget_assertion (read_in (record_of assertion_members) (shown value.now))) }
{
    let rest = members(value)?;
    let (held, rest) = required(&rest, get_assertion::RP_ID)?;
    sized(&held, 1, 253)?;
    let rp_id = lent_text(&held)?;
    let (held, rest) = required(&rest, get_assertion::CLIENT_DATA_HASH)?;
    sized(&held, 32, 32)?;
    let client_data_hash = bytes(&held)?;
    let (held, rest) = optional(rest, get_assertion::ALLOW_LIST);
    let allow_list = allow_list(alloc, held)?;
    let (held, rest) = optional(rest, get_assertion::EXTENSIONS);
    extensions(&held)?;
    let (held, rest) = optional(rest, get_assertion::OPTIONS);
    let options = assertion_options_if_there(held)?;
    end(&rest)?;
    Ok(GetAssertionView {
        rp_id,
        client_data_hash,
        allow_list,
        options,
    })
}
