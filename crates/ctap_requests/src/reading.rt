//! Reading a request.

ghost use Rattle.std.specs.Prelude.{◌≡◌, ◌≢◌, ◌∷◌, ◌⊎◌, true, Some, None, IfOk, IfErr};
ghost use Rattle.ccbor.specs.Item.{Item};
ghost use Rattle.ccbor.specs.Canon.{Canon};
ghost use Rattle.ccbor.specs.Viewing.{shown};
ghost use Rattle.ctap_encoding.specs.Table.{gravest};
ghost use Rattle.ctap_encoding.specs.declared.fault.Fault as map_faults;
ghost use Rattle.ctap_encoding.specs.declared.error.Error.TheVariants as errors;
ghost use Rattle.ctap_requests.specs.Pieces.{rank_of, Alone};
ghost use Rattle.ctap_requests.specs.Requests.{map_of, make_credential, get_assertion};
ghost use Rattle.ctap_requests.specs.RequestView.{creation_view, lent_get_assertion_view, request_view, lent_request_view};
ghost use Rattle.ctap_requests.specs.Status.{status_of, Refused, IsRequest};

use crate::maps::{assertion, creation};
use crate::owned::owned_request;
use crate::request::{GetAssertionView, MakeCredential, Request, RequestView};
use crate::tables::map_fault;
use ccbor::View;
use ctap_encoding::command::{GET_ASSERTION, GET_INFO, GET_NEXT_ASSERTION, MAKE_CREDENTIAL, RESET};
use ctap_encoding::status::{
    CBOR_UNEXPECTED_TYPE, INVALID_CBOR, INVALID_COMMAND, INVALID_PARAMETER, LIMIT_EXCEEDED,
    MISSING_PARAMETER,
};
use ctap_encoding::{Error, Fault};
use std::alloc::Global;

/// What a map's gravest fault is answered by.
fn status_of(fault: Fault) -> u8
    ensures { result ≡ status_of (rank_of fault) }
{
    match fault {
        Fault::AnotherKind => CBOR_UNEXPECTED_TYPE,
        Fault::UnlistedKey => INVALID_PARAMETER,
        Fault::MissingMember => MISSING_PARAMETER,
        Fault::InvalidSize => INVALID_PARAMETER,
        Fault::OverLimit => LIMIT_EXCEEDED,
    }
}

/// What the map of a command's request is answered by, which has a fault; or that memory ran out.
fn refusal(alloc: Global, command: u8, value: &View<'_>) -> Error
    requires { gravest (map_of command) (shown value.now) ≢ None }
    ensures { (result ≡ errors.Memory) ⊎ ((f : map_faults.Fault)
        × (gravest (map_of command) (shown value.now) ≡ Some f) × (result ≡ errors.Status (status_of (rank_of f)))) }
{
    let Ok(value) = value.to_value(alloc) else {
        return Error::Memory;
    };
    match map_fault(command, &value) {
        Some(fault) => Error::Status(status_of(fault)),
        None => unreachable!(),
    }
}

/// The value that follows the command byte.
fn whole<'a>(rest: &'a [u8]) -> Result<View<'a>, Error>
    ensures found { IfOk result (λ v. Canon (shown v) rest.now) }
    ensures none { IfErr result (λ _. (v : Item) → Canon v rest.now → ⊥) }
    ensures errors { IfErr result (λ e. e ≡ errors.Status 0x12) }
{
    match View::check_all(rest) {
        Ok(value) => Ok(value),
        Err(_) => Err(Error::Status(INVALID_CBOR)),
    }
}

/// A makeCredential request.
fn creation_request(alloc: Global, rest: &[u8]) -> Result<MakeCredential, Error>
    ensures found { IfOk result (λ q. IsRequest (make_credential (creation_view q)) (1 ∷ rest.now)) }
    ensures refused { IfErr result (λ e. Refused (1 ∷ rest.now) e) }
{
    // A match, since `?` would hide that the refusal is the callee's.
    let value = match whole(rest) {
        Ok(value) => value,
        Err(e) => return Err(e),
    };
    match creation(alloc, &value) {
        Ok(request) => Ok(request),
        Err(ctap_encoding::MapError::Memory) => Err(Error::Memory),
        Err(ctap_encoding::MapError::Shape) => Err(refusal(alloc, MAKE_CREDENTIAL, &value)),
    }
}

/// A getAssertion request.
fn assertion_request<'a>(alloc: Global, rest: &'a [u8]) -> Result<GetAssertionView<'a>, Error>
    ensures found { IfOk result (λ q. IsRequest (get_assertion (lent_get_assertion_view q)) (2 ∷ rest.now)) }
    ensures refused { IfErr result (λ e. Refused (2 ∷ rest.now) e) }
{
    // A match, since `?` would hide that the refusal is the callee's.
    let value = match whole(rest) {
        Ok(value) => value,
        Err(e) => return Err(e),
    };
    match assertion(alloc, &value) {
        Ok(request) => Ok(request),
        Err(ctap_encoding::MapError::Memory) => Err(Error::Memory),
        Err(ctap_encoding::MapError::Shape) => Err(refusal(alloc, GET_ASSERTION, &value)),
    }
}

/// A request that is its command byte alone.
fn alone<'a>(request: RequestView<'a>, rest: &[u8]) -> Result<RequestView<'a>, Error>
    ensures { Alone request.entry rest.now result }
{
    match rest.split_first() {
        None => Ok(request),
        Some(_) => Err(Error::Status(INVALID_PARAMETER)),
    }
}

/// The request of these bytes. The members of a getAssertion lie in them: of what they hold nothing is
/// copied, and memory is taken only for the list of the descriptors. The inside of extensions isn't
/// looked at, and they are not kept.
///
/// Otherwise it is refused by [`Error::Status`] with the status byte of the first of these that
/// applies (CTAP 2.1, section 8.2, has the bytes; their order is this product's), or as
/// [`Error::Memory`]:
///
/// 1. 0x01: there is no byte, or another command byte;
/// 2. 0x02: getInfo, reset or getNextAssertion with bytes after the command byte;
/// 3. 0x12: what follows the command byte isn't one whole canonical CBOR value;
/// 4. 0x11: it isn't a map, or a member at any level has another kind;
/// 5. 0x02: a map other than extensions has a key that isn't listed;
/// 6. 0x14: a required member is missing at any level;
/// 7. 0x02: the hash hasn't 32 bytes, or the allow list is there and empty;
/// 8. 0x15: a relying party id outside 1 to 253 bytes, a user's or descriptor's id outside 1 to 64,
///    or a list of more than 8 descriptors.
pub fn view_request(alloc: Global, bytes: &[u8]) -> Result<RequestView<'_>, Error>
    ensures found { IfOk result (λ q. IsRequest (lent_request_view q) bytes.now) }
    ensures refused { IfErr result (λ e. Refused bytes.now e) }
{
    let Some((command, rest)) = bytes.split_first() else {
        return Err(Error::Status(INVALID_COMMAND));
    };
    match *command {
        MAKE_CREDENTIAL => match creation_request(alloc, rest) {
            Ok(request) => Ok(RequestView::MakeCredential(request)),
            Err(e) => Err(e),
        },
        GET_ASSERTION => match assertion_request(alloc, rest) {
            Ok(request) => Ok(RequestView::GetAssertion(request)),
            Err(e) => Err(e),
        },
        GET_INFO => alone(RequestView::GetInfo, rest),
        RESET => alone(RequestView::Reset, rest),
        GET_NEXT_ASSERTION => alone(RequestView::GetNextAssertion, rest),
        _ => Err(Error::Status(INVALID_COMMAND)),
    }
}

/// The request of these bytes, in memory of its own.
///
/// Refused as [`view_request`] refuses.
pub fn read_request(alloc: Global, bytes: &[u8]) -> Result<Request, Error>
    ensures found { IfOk result (λ q. IsRequest (request_view q) bytes.now) }
    ensures refused { IfErr result (λ e. Refused bytes.now e) }
{
    match view_request(alloc, bytes) {
        Ok(request) => Ok(owned_request(alloc, request)?),
        Err(e) => Err(e),
    }
}
