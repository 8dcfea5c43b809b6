//! The client data and the requests that the options ask for.

ghost use Rattle.std.specs.Prelude.{◌≡◌, IfOk, Some, false, option_map};
ghost use Rattle.clientdata.specs.Serialised.{client_data_text};
ghost use Rattle.ctap_requests.specs.RequestView.{assertion_options_view, assertion_view, creation_options_view, creation_view, rp_view, user_view};
ghost use Rattle.client.specs.Asked.{assertion_flags, assertion_of, creation_flags, creation_of, wanted};
ghost use Rattle.client.specs.Options.{registration_options_view, sign_in_options_view};

use crate::entities::{descriptors, parameters};
use crate::options::{CreationOptions, RequestOptions};
use clientdata::{CeremonyType, ClientData, hash, serialise};
use ctap_requests::{AssertionOptions, GetAssertion, MakeCredential, RelyingParty, User};
use std::alloc::{AllocError, Global};

/// The client data of a ceremony, not cross-origin.
pub fn client_data(
    alloc: Global,
    kind: CeremonyType,
    challenge: &[u8],
    origin: &str,
) -> Result<Vec<u8>, AllocError>
    ensures { IfOk result (λ v. v.items ≡ client_data_text kind challenge.now origin.now false) }
{
    let record = ClientData {
        kind,
        challenge: Vec::from_slice(alloc, challenge)?,
        origin: String::from_str(alloc, origin)?,
        cross_origin: false,
    };
    Ok(serialise(alloc, &record)?.into_bytes())
}

/// An option that is written only where it is true.
fn wanted(flag: bool) -> Option<bool>
    ensures { result ≡ wanted flag }
{
    if flag { Some(true) } else { None }
}

/// The options of a sign-in, if there are any to write.
fn assertion_options(uv: bool) -> Option<AssertionOptions>
    ensures { option_map assertion_options_view result ≡ assertion_flags uv }
{
    if uv {
        Some(AssertionOptions {
            up: None,
            uv: Some(true),
        })
    } else {
        None
    }
}

/// The options of a registration, if there are any to write.
fn creation_options(rk: bool, uv: bool) -> Option<ctap_requests::CreationOptions>
    ensures { option_map creation_options_view result ≡ creation_flags rk uv }
{
    if rk || uv {
        Some(ctap_requests::CreationOptions {
            rk: wanted(rk),
            up: None,
            uv: wanted(uv),
        })
    } else {
        None
    }
}

/// The getAssertion request of a sign-in with these client data.
pub fn get_assertion(
    alloc: Global,
    options: &RequestOptions<'_>,
    client_data: &[u8],
) -> Result<GetAssertion, AllocError>
    ensures { IfOk result (λ q. assertion_view q
        ≡ assertion_of (sign_in_options_view options.now) client_data.now) }
{
    Ok(GetAssertion {
        rp_id: String::from_str(alloc, options.rp_id)?,
        client_data_hash: Vec::from_slice(alloc, &hash(client_data))?,
        allow_list: descriptors(alloc, options.allow)?,
        options: assertion_options(options.uv),
    })
}

/// The relying party of a registration.
fn relying_party(alloc: Global, id: &str, name: &str) -> Result<RelyingParty, AllocError>
    ensures { IfOk result (λ r. rp_view r ≡ record { id = id.now; name = Some name.now }) }
{
    Ok(RelyingParty {
        id: String::from_str(alloc, id)?,
        name: Some(String::from_str(alloc, name)?),
    })
}

/// The user account of a registration.
fn user(alloc: Global, id: &[u8], name: &str, display_name: &str) -> Result<User, AllocError>
    ensures { IfOk result (λ u. user_view u ≡ record {
      id = id.now;
      name = Some name.now;
      display_name = Some display_name.now;
    }) }
{
    Ok(User {
        id: Vec::from_slice(alloc, id)?,
        name: Some(String::from_str(alloc, name)?),
        display_name: Some(String::from_str(alloc, display_name)?),
    })
}

/// The makeCredential request of a registration with these client data.
pub fn make_credential(
    alloc: Global,
    options: &CreationOptions<'_>,
    client_data: &[u8],
) -> Result<MakeCredential, AllocError>
    ensures { IfOk result (λ q. creation_view q
        ≡ creation_of (registration_options_view options.now) client_data.now) }
{
    Ok(MakeCredential {
        client_data_hash: Vec::from_slice(alloc, &hash(client_data))?,
        rp: relying_party(alloc, options.rp_id, options.rp_name)?,
        user: user(
            alloc,
            options.user_id,
            options.user_name,
            options.display_name,
        )?,
        pub_key_cred_params: parameters(alloc, options.algs)?,
        exclude_list: descriptors(alloc, options.exclude)?,
        options: creation_options(options.rk, options.uv),
    })
}
