//! Writing a request.

ghost use Rattle.std.specs.Prelude.{◌≡◌, ◌∷◌, ℕ, List, [], IfOk, IfErr, IsErrOf, None, map};
ghost use Rattle.ccbor.specs.Canon.{Canon};
ghost use Rattle.ccbor.specs.View.{view};
ghost use Rattle.ctap_requests.specs.Pieces.{all_numbers, Builds, Written};
ghost use Rattle.ctap_encoding.specs.Table.{gravest};
ghost use Rattle.ctap_requests.specs.Requests.{map_of, creation_item, assertion_item, make_credential, get_assertion, RequestOf};
ghost use Rattle.ctap_requests.specs.RequestView.{parameters_view, creation_view, assertion_view, request_view};
ghost use Rattle.ctap_requests.specs.Status.{NoStatus};
ghost use Rattle.ctap_encoding.specs.Numbers.{IsWritingError};
ghost use Rattle.ctap_encoding.specs.declared.error.Error.TheVariants as errors;

use crate::request::{GetAssertion, MakeCredential, Request};
use crate::tables::map_fault;
use crate::values::{
    assertion_options_if_there, creation_options_if_there, descriptors_if_there,
    parameter_list_value, rp_value, user_value,
};
use ccbor::{Value, encode};
use ctap_encoding::command::{GET_ASSERTION, GET_INFO, GET_NEXT_ASSERTION, MAKE_CREDENTIAL, RESET};
use ctap_encoding::member::{get_assertion, make_credential};
use ctap_encoding::{Error, bytes_value, push_if_there, push_member, text_value};
use std::alloc::{AllocError, Global};

/// The value of a makeCredential request's map; `Unfit` where an algorithm's number has no head.
fn creation_value(alloc: Global, request: &MakeCredential) -> Result<Value, Error>
    ensures { Builds (all_numbers (map parameters_view request.now.pub_key_cred_params.items))
        (creation_item (creation_view request.now) None) result }
{
    let mut pairs = Vec::new(alloc);
    let exclude_list = descriptors_if_there(alloc, &request.exclude_list)?;
    let hash = bytes_value(alloc, &request.client_data_hash)?;
    push_member(alloc, &mut pairs, make_credential::CLIENT_DATA_HASH, hash)?;
    let rp = rp_value(alloc, &request.rp)?;
    push_member(alloc, &mut pairs, make_credential::RP, rp)?;
    let user = user_value(alloc, &request.user)?;
    push_member(alloc, &mut pairs, make_credential::USER, user)?;
    let parameters = parameter_list_value(alloc, &request.pub_key_cred_params)?;
    push_member(
        alloc,
        &mut pairs,
        make_credential::PUB_KEY_CRED_PARAMS,
        parameters,
    )?;
    push_if_there(
        alloc,
        &mut pairs,
        make_credential::EXCLUDE_LIST,
        exclude_list,
    )?;
    let options = creation_options_if_there(alloc, &request.options)?;
    push_if_there(alloc, &mut pairs, make_credential::OPTIONS, options)?;
    Ok(Value::Map(pairs))
}

/// The value of a getAssertion request's map.
fn assertion_value(alloc: Global, request: &GetAssertion) -> Result<Value, AllocError>
    ensures { IfOk result (λ v. view v ≡ assertion_item (assertion_view request.now) None) }
{
    let mut pairs = Vec::new(alloc);
    let rp_id = text_value(alloc, &request.rp_id)?;
    push_member(alloc, &mut pairs, get_assertion::RP_ID, rp_id)?;
    let hash = bytes_value(alloc, &request.client_data_hash)?;
    push_member(alloc, &mut pairs, get_assertion::CLIENT_DATA_HASH, hash)?;
    let allow_list = descriptors_if_there(alloc, &request.allow_list)?;
    push_if_there(alloc, &mut pairs, get_assertion::ALLOW_LIST, allow_list)?;
    let options = assertion_options_if_there(alloc, &request.options)?;
    push_if_there(alloc, &mut pairs, get_assertion::OPTIONS, options)?;
    Ok(Value::Map(pairs))
}

/// The command byte and the value's encoding.
fn with_value(alloc: Global, command: u8, value: &Value) -> Result<Vec<u8>, Error>
    ensures written { IfOk result (λ bytes. (rest : List ℕ) × (bytes.items ≡ command ∷ rest)
        × Canon (view value.now) rest) }
    ensures unfit { IsErrOf result errors.Unfit → (rest : List ℕ) → Canon (view value.now) rest → ⊥ }
    ensures errors { IfErr result IsWritingError }
{
    let mut out = command_alone(alloc, command)?;
    match encode(value, &mut out) {
        Ok(()) => Ok(out),
        Err(ccbor::Error::Unfit) => Err(Error::Unfit),
        Err(_) => Err(Error::Memory),
    }
}

/// The command byte and the encoding of its map, if that has no fault.
fn with_map(alloc: Global, command: u8, value: &Value) -> Result<Vec<u8>, Error>
    ensures written { IfOk result (λ bytes. (rest : List ℕ) × (bytes.items ≡ command ∷ rest)
        × Canon (view value.now) rest × (gravest (map_of command) (view value.now) ≡ None)) }
    ensures unfit { IsErrOf result errors.Unfit → gravest (map_of command) (view value.now) ≡ None
        → (rest : List ℕ) → Canon (view value.now) rest → ⊥ }
    ensures errors { IfErr result IsWritingError }
{
    match map_fault(command, value) {
        None => with_value(alloc, command, value),
        Some(_) => Err(Error::Unfit),
    }
}

fn creation_bytes(alloc: Global, request: &MakeCredential) -> Result<Vec<u8>, Error>
    ensures { Written (λ v. v.items) (make_credential (creation_view request.now)) result }
{
    match creation_value(alloc, request) {
        Ok(value) => with_map(alloc, MAKE_CREDENTIAL, &value),
        Err(e) => Err(e),
    }
}

fn assertion_bytes(alloc: Global, request: &GetAssertion) -> Result<Vec<u8>, Error>
    ensures { Written (λ v. v.items) (get_assertion (assertion_view request.now)) result }
{
    let value = assertion_value(alloc, request)?;
    with_map(alloc, GET_ASSERTION, &value)
}

/// A command byte alone.
fn command_alone(alloc: Global, command: u8) -> Result<Vec<u8>, AllocError>
    ensures { IfOk result (λ bytes. bytes.items ≡ command ∷ []) }
{
    let mut out = Vec::new(alloc);
    out.push(command)?;
    Ok(out)
}

/// The bytes of a request, without extensions.
///
/// Refused as [`Error::Unfit`] where it has none that [`read_request`](crate::read_request) reads:
/// where an algorithm's number is outside -2^64 to 2^64 - 1, a length or count outside its limit,
/// or the allow list there and empty. Otherwise only [`Error::Memory`] is answered.
pub fn write_request(alloc: Global, request: &Request) -> Result<Vec<u8>, Error>
    ensures spelled { IfOk result (λ bytes.
        RequestOf (request_view request.now) None bytes.items) }
    ensures clean { IfOk result (λ bytes. NoStatus bytes.items) }
    // It is called unfit only if each of its spellings is refused with a status.
    ensures unfit { IsErrOf result errors.Unfit
        → (bs : List ℕ) → RequestOf (request_view request.now) None bs → NoStatus bs → ⊥ }
    ensures errors { IfErr result IsWritingError }
{
    match request {
        Request::MakeCredential(request) => creation_bytes(alloc, request),
        Request::GetAssertion(request) => assertion_bytes(alloc, request),
        Request::GetNextAssertion => Ok(command_alone(alloc, GET_NEXT_ASSERTION)?),
        Request::GetInfo => Ok(command_alone(alloc, GET_INFO)?),
        Request::Reset => Ok(command_alone(alloc, RESET)?),
    }
}
