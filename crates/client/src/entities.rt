//! The lists in a request.

ghost use Rattle.std.specs.Prelude.{◌≡◌, IfOk, map, option_map};
ghost use Rattle.cose.specs.Keys.{number_of};
ghost use Rattle.ctap_requests.specs.RequestView.{descriptor_view, parameters_view};
ghost use Rattle.client.specs.Asked.{descriptor_of, descriptors_of, parameters_of};
ghost use Rattle.client.specs.Options.{ids_of};

use cose::Alg;
use ctap_requests::{Descriptor, Parameters};
use std::alloc::{AllocError, Global};

/// The type of a public key credential (WebAuthn Level 2, section 5.8.2).
const PUBLIC_KEY: &str = "public-key";

/// The descriptor of a credential.
fn descriptor(alloc: Global, id: &[u8]) -> Result<Descriptor, AllocError>
    ensures { IfOk result (λ d. descriptor_view d ≡ descriptor_of id.now) }
{
    Ok(Descriptor {
        id: Vec::from_slice(alloc, id)?,
        kind: String::from_str(alloc, PUBLIC_KEY)?,
    })
}

/// The descriptors of a list.
fn each_descriptor(alloc: Global, ids: &[&[u8]]) -> Result<Vec<Descriptor>, AllocError>
    ensures { IfOk result (λ v. map descriptor_view v.items ≡ map descriptor_of (ids_of ids.now)) }
{
    let mut all = Vec::new(alloc);
    for id in ids {
        all.push(descriptor(alloc, id)?)?;
    }
    Ok(all)
}

/// The descriptors of a list, if there is any.
pub fn descriptors(alloc: Global, ids: &[&[u8]]) -> Result<Option<Vec<Descriptor>>, AllocError>
    ensures { IfOk result (λ o. option_map (λ v. map descriptor_view v.items) o
        ≡ descriptors_of (ids_of ids.now)) }
{
    if ids.is_empty() {
        return Ok(None);
    }
    Ok(Some(each_descriptor(alloc, ids)?))
}

/// An algorithm that is wanted.
fn parameter(alloc: Global, alg: Alg) -> Result<Parameters, AllocError>
    ensures { IfOk result (λ p. parameters_view p ≡ parameters_of alg) }
{
    Ok(Parameters {
        alg: i128::from(alg.number()),
        kind: String::from_str(alloc, PUBLIC_KEY)?,
    })
}

/// The algorithms that are wanted.
pub fn parameters(alloc: Global, algs: &[Alg]) -> Result<Vec<Parameters>, AllocError>
    ensures { IfOk result (λ v. map parameters_view v.items ≡ map parameters_of algs.now) }
{
    let mut all = Vec::new(alloc);
    for alg in algs {
        all.push(parameter(alloc, *alg)?)?;
    }
    Ok(all)
}
