//! What an act that is under way is for, in memory of its own.

ghost use Rattle.std.specs.Prelude.{◌≡◌, IfOk, MatchOption, false, string_bytes};
ghost use Rattle.client.specs.Steps.{MayAsk};
ghost use Rattle.clientdata.specs.Serialised.{client_data_text};
ghost use Rattle.client_lines.specs.Purposes.{IsRegistrationOf, IsSignInOf};

use crate::refused::Refused;
use client::{RequestError, check_origin};
use client_acts::{Account, CreationOptions, Extensions, RequestOptions};
use client_ceremony::{Refusal, Requirement};
use clientdata::{CeremonyType, ClientData, hash, serialise};
use std::alloc::{AllocError, Global};

/// The most bytes of a user handle (WebAuthn Level 2, section 4).
const MAX_USER_HANDLE: usize = 64;

/// A registration.
#[derive(Debug, Drop)]
pub(crate) struct Registration {
    pub rp_id: String,
    pub rp_name: Option<String>,
    pub user: Account,
    pub algorithms: Vec<i64>,
    pub exclude: Vec<Vec<u8>>,
    pub resident: Requirement,
    pub verification: Requirement,
    pub attestation: bool,
    pub extensions: Extensions,
    pub client_data: String,
    pub hash: [u8; 32],
}

/// A sign-in.
#[derive(Debug, Drop)]
pub(crate) struct SignIn {
    pub rp_id: String,
    pub allow: Vec<Vec<u8>>,
    pub verification: Requirement,
    pub client_data: String,
    pub hash: [u8; 32],
}

/// What an act is for.
#[derive(Debug, Drop)]
pub(crate) enum Purpose {
    Registers(Registration),
    SignsIn(SignIn),
    Informs,
    SetsPin(String),
    ChangesPin(String),
}

/// What `client` refuses.
fn refused(error: RequestError) -> Refused {
    match error {
        RequestError::BadOrigin => Refused::BadOrigin,
        RequestError::RpIdNotOfOrigin => Refused::RpIdNotOfOrigin,
        RequestError::Unfit | RequestError::TooLong => Refused::Unfit,
        RequestError::Memory => Refused::Client(Refusal::Memory),
    }
}

/// The host of an origin of the scheme `https`: what stands after the scheme, up to the port.
fn host_of(origin: &str) -> &str {
    let Some(host) = origin.strip_prefix("https://") else {
        return "";
    };
    match host.split_once(":") {
        Some((host, _)) => host,
        None => host,
    }
}

/// The rp id, which is the origin's host where none is named; the origin may ask for it.
fn checked_rp_id(alloc: Global, origin: &str, rp_id: Option<String>) -> Result<String, Refused>
    ensures may_ask { IfOk result (λ id. MayAsk origin.now (string_bytes id)) }
    ensures named { IfOk result (λ id. MatchOption rp_id (Unit {0}) (λ named. id ≡ named)) }
{
    let rp_id = match rp_id {
        Some(rp_id) => rp_id,
        None => String::from_str(alloc, host_of(origin))?,
    };
    match check_origin(alloc, origin, rp_id.as_str()) {
        Ok(()) => Ok(rp_id),
        Err(error) => Err(refused(error)),
    }
}

/// The client data of a ceremony, not cross-origin.
fn client_data(
    alloc: Global,
    kind: CeremonyType,
    challenge: Vec<u8>,
    origin: String,
) -> Result<String, AllocError>
    ensures { IfOk result (λ text. string_bytes text ≡ client_data_text kind challenge.items (string_bytes origin) false) }
{
    serialise(
        alloc,
        &ClientData {
            kind,
            challenge,
            origin,
            cross_origin: false,
        },
    )
}

/// Whether a key can be asked for these: a user handle of 1 to 64 bytes, and some algorithm.
fn is_fit(options: &CreationOptions) -> bool {
    let handle = options.user.id.len();
    1 <= handle && handle <= MAX_USER_HANDLE && !options.algorithms.is_empty()
}

/// The registration of these options.
pub(crate) fn checked_registration(
    alloc: Global,
    options: CreationOptions,
) -> Result<Registration, Refused>
    ensures { IfOk result (IsRegistrationOf options) }
{
    if !is_fit(&options) {
        return Err(Refused::Unfit);
    }
    let CreationOptions {
        origin,
        rp_id,
        rp_name,
        user,
        challenge,
        algorithms,
        exclude,
        resident,
        verification,
        attestation,
        extensions,
    } = options;
    let rp_id = checked_rp_id(alloc, origin.as_str(), rp_id)?;
    let client_data = client_data(alloc, CeremonyType::Create, challenge, origin)?;
    let hash = hash(client_data.as_bytes());
    Ok(Registration {
        rp_id,
        rp_name,
        user,
        algorithms,
        exclude,
        resident,
        verification,
        attestation,
        extensions,
        client_data,
        hash,
    })
}

/// The sign-in of these options.
pub(crate) fn checked_sign_in(alloc: Global, options: RequestOptions) -> Result<SignIn, Refused>
    ensures { IfOk result (IsSignInOf options) }
{
    let RequestOptions {
        origin,
        rp_id,
        challenge,
        allow,
        verification,
    } = options;
    let rp_id = checked_rp_id(alloc, origin.as_str(), rp_id)?;
    let client_data = client_data(alloc, CeremonyType::Get, challenge, origin)?;
    let hash = hash(client_data.as_bytes());
    Ok(SignIn {
        rp_id,
        allow,
        verification,
        client_data,
        hash,
    })
}
