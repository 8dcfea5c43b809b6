//! Asking an authenticator (WebAuthn Level 2, sections 5.1.3 and 5.1.4).

ghost use Rattle.std.specs.Prelude.{◌≡◌, IfErr, IfOk, OnOk};
ghost use Rattle.ctap_requests.specs.RequestView.{request_view};
ghost use Rattle.client.specs.Asked.{Asks, ClientCall, IsRefused, PassesRequest, registration_call, sent_view, sign_in_call};
ghost use Rattle.client.specs.Options.{registration_options_view, sign_in_options_view};
ghost use Rattle.client.specs.Steps.{MayAsk};

use crate::building::{client_data, get_assertion, make_credential};
use crate::error::RequestError;
use crate::options::{CreationOptions, RequestOptions};
use crate::origin::check_origin;
use crate::outgoing::{Outgoing, packets_of};
use clientdata::CeremonyType;
use ctap_requests::Request;
use std::alloc::Global;

/// What a call hands out that has these client data and asks for this request.
fn outgoing(
    alloc: Global,
    client_data: Vec<u8>,
    request: &Request,
    cid: u32,
) -> Result<Outgoing, RequestError>
    ensures passes { (x : ClientCall) → MayAsk x.origin x.rp_id → request_view request.now ≡ x.request → OnOk result (PassesRequest x) }
    ensures asks { (x : ClientCall) → client_data.items ≡ x.client_data → request_view request.now ≡ x.request
        → IfOk result (λ out. Asks x cid (sent_view out)) }
    ensures refused { (x : ClientCall) → MayAsk x.origin x.rp_id → request_view request.now ≡ x.request → IfErr result (IsRefused x) }
{
    let packets = packets_of(alloc, request, cid)?;
    Ok(Outgoing {
        client_data,
        packets,
    })
}

/// Asks for a sign-in (WebAuthn Level 2, section 5.1.4; CTAP 2.1, section 6.2) on channel `cid`, for a
/// caller of this origin. The client data say that the call is not cross-origin. The request has an allow list
/// only where there is an id, each of type `public-key`, and options only where the user is to be verified.
///
/// Refused by the first of these that applies: [`RequestError::BadOrigin`] (19), of an origin above
/// 1,024 bytes, or that is not the serialised origin of a URL of scheme `https` with a domain;
/// [`RequestError::RpIdNotOfOrigin`] (20), of an rp id that is empty, or neither the origin's host nor what
/// follows a dot of it; [`RequestError::Unfit`] (1), of an rp id above 253 bytes, an id outside 1 to 64
/// bytes, or more than 8 ids. No request that fits has more than 7,609 bytes. Otherwise only
/// [`RequestError::Memory`] is answered.
pub fn assertion_request(
    alloc: Global,
    origin: &str,
    options: &RequestOptions<'_>,
    cid: u32,
) -> Result<Outgoing, RequestError>
    ensures passes { OnOk result (PassesRequest (sign_in_call origin.now (sign_in_options_view options.now))) }
    ensures asks { IfOk result (λ out. Asks (sign_in_call origin.now (sign_in_options_view options.now)) cid (sent_view out)) }
    ensures refused { IfErr result (IsRefused (sign_in_call origin.now (sign_in_options_view options.now))) }
{
    check_origin(alloc, origin, options.rp_id)?;
    let client_data = client_data(alloc, CeremonyType::Get, options.challenge, origin)?;
    let request = get_assertion(alloc, options, &client_data)?;
    outgoing(alloc, client_data, &Request::GetAssertion(request), cid)
}

/// Asks for a registration (WebAuthn Level 2, section 5.1.3; CTAP 2.1, section 6.1) on channel `cid`, for
/// a caller of this origin. The client data say that the call is not cross-origin. The request has each name,
/// each algorithm with the type `public-key`, an exclude list only where there is an id, each of that type,
/// and of the options `rk` and `uv` those that are true.
///
/// Refused by the first of these that applies: [`RequestError::BadOrigin`] (19) and
/// [`RequestError::RpIdNotOfOrigin`] (20), as of [`assertion_request`]; [`RequestError::Unfit`] (1), of an rp
/// id above 253 bytes, a user handle or an id outside 1 to 64 bytes, or more than 8 ids;
/// [`RequestError::TooLong`] (4), of names and algorithms that make the request longer than 7,609 bytes.
/// Otherwise only [`RequestError::Memory`] is answered.
pub fn creation_request(
    alloc: Global,
    origin: &str,
    options: &CreationOptions<'_>,
    cid: u32,
) -> Result<Outgoing, RequestError>
    ensures passes { OnOk result (PassesRequest (registration_call origin.now (registration_options_view options.now))) }
    ensures asks { IfOk result (λ out. Asks (registration_call origin.now (registration_options_view options.now)) cid (sent_view out)) }
    ensures refused { IfErr result (IsRefused (registration_call origin.now (registration_options_view options.now))) }
{
    check_origin(alloc, origin, options.rp_id)?;
    let client_data = client_data(alloc, CeremonyType::Create, options.challenge, origin)?;
    let request = make_credential(alloc, options, &client_data)?;
    outgoing(alloc, client_data, &Request::MakeCredential(request), cid)
}
