//! What is lent of a request, in memory of its own.

ghost use Rattle.std.specs.Prelude.{◌≡◌, IfOk, map, option_map};
ghost use Rattle.ctap_requests.specs.RequestView.{descriptor_view, lent_descriptor_view, assertion_view, lent_get_assertion_view, request_view};
ghost use Rattle.ctap_requests.specs.RequestView.{lent_request_view};

use crate::request::{
    Descriptor, DescriptorView, GetAssertion, GetAssertionView, Request, RequestView,
};
use std::alloc::{AllocError, Global};

fn owned_descriptor(
    alloc: Global,
    descriptor: &DescriptorView<'_>,
) -> Result<Descriptor, AllocError>
    ensures { IfOk result (λ d. descriptor_view d ≡ lent_descriptor_view descriptor.now) }
{
    Ok(Descriptor {
        id: Vec::from_slice(alloc, descriptor.id)?,
        kind: String::from_str(alloc, descriptor.kind)?,
    })
}

/// The descriptors of a list.
pub fn owned_descriptors(
    alloc: Global,
    list: &[DescriptorView<'_>],
) -> Result<Vec<Descriptor>, AllocError>
    ensures { IfOk result (λ v. map descriptor_view v.items ≡ map lent_descriptor_view list.now) }
{
    let mut all = Vec::with_capacity(alloc, list.len())?;
    for descriptor in list {
        all.push(owned_descriptor(alloc, descriptor)?)?;
    }
    Ok(all)
}

fn owned_allow_list(
    alloc: Global,
    list: &Option<Vec<DescriptorView<'_>>>,
) -> Result<Option<Vec<Descriptor>>, AllocError>
    ensures { IfOk result (λ o. option_map (λ v. map descriptor_view v.items) o
        ≡ option_map (λ v. map lent_descriptor_view v.items) list.now) }
{
    match list {
        Some(list) => Ok(Some(owned_descriptors(alloc, list)?)),
        None => Ok(None),
    }
}

fn owned_assertion(
    alloc: Global,
    request: &GetAssertionView<'_>,
) -> Result<GetAssertion, AllocError>
    ensures { IfOk result (λ q. assertion_view q ≡ lent_get_assertion_view request.now) }
{
    Ok(GetAssertion {
        rp_id: String::from_str(alloc, request.rp_id)?,
        client_data_hash: Vec::from_slice(alloc, request.client_data_hash)?,
        allow_list: owned_allow_list(alloc, &request.allow_list)?,
        options: request.options,
    })
}

/// The request.
pub fn owned_request(alloc: Global, request: RequestView<'_>) -> Result<Request, AllocError>
    ensures { IfOk result (λ q. request_view q ≡ lent_request_view request.entry) }
{
    match request {
        RequestView::MakeCredential(request) => Ok(Request::MakeCredential(request)),
        RequestView::GetAssertion(request) => {
            Ok(Request::GetAssertion(owned_assertion(alloc, &request)?))
        }
        RequestView::GetNextAssertion => Ok(Request::GetNextAssertion),
        RequestView::GetInfo => Ok(Request::GetInfo),
        RequestView::Reset => Ok(Request::Reset),
    }
}
