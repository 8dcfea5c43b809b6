//! The calls of a site in memory and of an authenticator, as events of a run: what a call that is done makes of its site, or of the
//! authenticator in whatever world, is an event's effect. Each function makes the call, and nothing else.

ghost use Rattle.std.specs.Prelude.{◌≡◌, ◌≤◌, IfOk, OnOk, map, option_map, true};
ghost use Rattle.verification.specs.Views.{assertion_parts_view, registration_parts_view};
ghost use Rattle.site_state.specs.Sessions.{OpensRegistration, OpensSignIn};
ghost use Rattle.agreement.specs.Acting.{Acts, Answers, Loads, Reloads, Restores};
ghost use Rattle.agreement.specs.World.{Abandons, Begins, Bounds, Registers, RegistersBy, Retires, SignsIn, SignsInBy, SiteActs};

use authdata::Profile;
use authenticator::{Authenticator, Consent, LoadError, Words};
use ceremony::{Accepted, Enrolled};
use cose::{Alg, Signer, Verifier};
use hidframe::Packet;
use site::{Error, Policy, Registered, Session, SignedIn, Site, Started, Table};
use site_state::{Asks, BeginError, Sessions};
use std::alloc::{AllocError, Global};
use verification::{
    AssertionParts, RegistrationParts, RegistrationRefusal, SignInRefusal, VerificationError,
};

/// Begins a sign-in.
pub fn begin_sign_in(
    site: &mut Site,
    user: Option<&[u8]>,
    allow: &[&[u8]],
    uv: bool,
    words: &[u8; 24],
) -> Result<Started, BeginError>
    ensures { OnOk result (Acts site.old (Begins (OpensSignIn (option_map (λ u. u.now) user.entry) (map (λ id. id.now) allow.now) uv words.now)) site.new) }
{
    site.begin_sign_in(user, allow, uv, *words)
}

/// Begins a registration.
pub fn begin_registration(
    site: &mut Site,
    user: &[u8],
    algorithms: &[Alg],
    uv: bool,
    asks: Asks,
    words: &[u8; 24],
) -> Result<Started, BeginError>
    ensures { OnOk result (Acts site.old (Begins (OpensRegistration user.now algorithms.now uv words.now asks)) site.new) }
{
    site.begin_registration_for(user, algorithms, uv, asks, *words)
}

/// Abandons a session, where it is open.
pub fn abandon(site: &mut Site, session: u64) -> bool
    ensures { Acts site.old (Abandons session) site.new }
{
    site.abandon(session)
}

/// Retires a credential.
pub fn retire(site: &mut Site, id: &[u8]) -> bool
    ensures { result ≡ true → Acts site.old (Retires id.now) site.new }
{
    site.retire(id)
}

/// Bounds the sessions that are open at a time.
pub fn set_max_open(site: &mut Site, max_open: usize)
    ensures { Acts site.old (Bounds max_open) site.new }
{
    site.set_max_open(max_open)
}

/// Finishes a sign-in with a response.
pub fn finish_parts<V: Verifier>(
    site: &mut Site,
    verifier: &V,
    session: u64,
    response: &AssertionParts<'_>,
) -> Result<SignedIn, VerificationError<SignInRefusal>>
    ensures { OnOk result (SiteActs (V.valid verifier.now) site.old (SignsIn session (assertion_parts_view response.now)) site.new) }
{
    site.finish_parts(verifier, session, response)
}

/// Finishes a registration with a response.
pub fn finish_registration_parts<V: Verifier>(
    site: &mut Site,
    verifier: &V,
    session: u64,
    response: &RegistrationParts<'_>,
) -> Result<Registered, VerificationError<RegistrationRefusal>>
    ensures { OnOk result (SiteActs (V.valid verifier.now) site.old (Registers session (registration_parts_view response.now)) site.new) }
{
    site.finish_registration_parts(verifier, session, response)
}

/// Signs in by packets.
pub fn sign_in<V: Verifier>(
    alloc: Global,
    site: &mut Site,
    verifier: &V,
    session: u64,
    cid: u32,
    client_data: &[u8],
    packets: &[Packet],
) -> Result<Accepted, ceremony::Error<SignInRefusal>>
    ensures { OnOk result (SiteActs (V.valid verifier.now) site.old (SignsInBy session cid packets.now client_data.now) site.new) }
{
    ceremony::sign_in(alloc, site, verifier, session, cid, client_data, packets)
}

/// Registers by packets.
pub fn register<V: Verifier>(
    alloc: Global,
    site: &mut Site,
    verifier: &V,
    session: u64,
    cid: u32,
    client_data: &[u8],
    packets: &[Packet],
) -> Result<Enrolled, ceremony::Error<RegistrationRefusal>>
    ensures { OnOk result (SiteActs (V.valid verifier.now) site.old (RegistersBy session cid packets.now client_data.now) site.new) }
{
    ceremony::register(alloc, site, verifier, session, cid, client_data, packets)
}

/// Loads the site that was saved.
pub fn load(
    alloc: Global,
    profile: Profile,
    bytes: &[u8],
    rp_id: &str,
    origins: &[&str],
    top_origins: &[&str],
    policy: Policy,
) -> Result<Site, Error>
    ensures { IfOk result (Loads rp_id.now bytes.now) }
{
    Site::load_framed_by(alloc, profile, bytes, rp_id, origins, top_origins, policy)
}

/// Gives a new site the table and the sessions that were stored.
pub fn restore(site: &mut Site, table: Table, sessions: Sessions) -> bool
    requires next { 1 ≤ sessions.next }
    ensures { result ≡ true → Restores site.old.rp.rp_id table sessions site.new }
{
    site.restore(table, sessions)
}

/// Asks an authenticator something.
pub fn handle<S: Signer>(
    authenticator: &mut Authenticator,
    scheme: &S,
    channel: u32,
    request: &[u8],
    consent: Consent,
    words: Words,
) -> Result<Vec<u8>, AllocError>
    ensures { OnOk result (Answers (S.valid scheme.now) (S.public_of scheme.now) authenticator.old channel request.now consent words authenticator.new) }
{
    authenticator.handle(scheme, channel, request, consent, words)
}

/// Loads the authenticator that was saved.
pub fn reload(alloc: Global, bytes: &[u8]) -> Result<Authenticator, LoadError>
    ensures { IfOk result (Reloads bytes.now) }
{
    Authenticator::load(alloc, bytes)
}
