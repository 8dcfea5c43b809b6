//! The calls of a site over a store, as calls of a history: whatever its trees hold before a call that is done, they hold after it what
//! the history's call makes of that, where the disk gives back what was written. Each function makes the call, and nothing else.

ghost use Rattle.std.specs.Prelude.{◌≡◌, IfOk, OnOk, map, option_map, true};
ghost use Rattle.verification.specs.Views.{assertion_parts_view, registration_parts_view};
ghost use Rattle.site_rows.specs.Endings.{Endings, HoldsEndings};
ghost use Rattle.site_stored.specs.State.{ended_user_tree};
ghost use Rattle.site_seal.specs.Seal.{ordered};
ghost use Rattle.site_state.specs.Sessions.{OpensRegistration, OpensSignIn};
ghost use Rattle.stored_runs.specs.Made.{Makes, MakesBegun, MakesCommitted, MakesNew, MakesOpened};
ghost use Rattle.agreement.specs.Acting.{nothing_valid};
ghost use Rattle.stored_runs.specs.History.{Abandons, Deletes, Erases, Registers, Retires, RetiresAll, SignsIn};

use cose::{Alg, Verifier};
use site_state::{Asks, Detail};
use site_stored::{
    BeginFailure, Begun, Bounds, CreateFailure, Failure, FinishFailure, OpenFailure, Opening,
    Registered, SessionFailure, SignedIn, StoredSite,
};
use sqlite_trees::store::Store;
use std::alloc::Global;
use verification::{
    AssertionParts, Policy, RegistrationParts, RegistrationRefusal, RelyingParty, SignInRefusal,
};

/// Finishes a sign-in in the session of this text.
pub fn finish_parts<V: Verifier, S: Store>(
    site: &mut StoredSite<S>,
    verifier: &V,
    text: &[u8],
    response: &AssertionParts<'_>,
    now: u64,
) -> Result<SignedIn, FinishFailure<SignInRefusal>>
    ensures { IfOk result (λ x. Makes S.Store.view (V.valid verifier.now) site.old (λ n. SignsIn n text.now (assertion_parts_view response.now) now) site.new) }
{
    site.finish_parts(verifier, text, response, now)
}

/// Finishes a registration in the session of this text.
pub fn finish_registration_parts<V: Verifier, S: Store>(
    site: &mut StoredSite<S>,
    verifier: &V,
    text: &[u8],
    response: &RegistrationParts<'_>,
    detail: Detail,
    now: u64,
) -> Result<Registered, FinishFailure<RegistrationRefusal>>
    ensures { IfOk result (λ x. (users : Endings) → HoldsEndings ended_user_tree users (S.Store.view site.old.store).trees
        → Makes S.Store.view (V.valid verifier.now) site.old (λ n. Registers n text.now (registration_parts_view response.now) now) site.new) }
{
    site.finish_registration_parts(verifier, text, response, detail, now)
}

/// Abandons the session of a text, where it is open.
pub fn abandon<S: Store>(
    site: &mut StoredSite<S>,
    text: &[u8],
    now: u64,
) -> Result<bool, SessionFailure>
    ensures { IfOk result (λ was. was ≡ true → Makes {A = Unit {0}} S.Store.view nothing_valid site.old (λ u. Abandons text.now now) site.new) }
{
    site.abandon(text, now)
}

/// Retires a credential.
pub fn retire<S: Store>(site: &mut StoredSite<S>, id: &[u8], now: u64) -> Result<bool, Failure>
    ensures { IfOk result (λ was. Makes {A = Unit {0}} S.Store.view nothing_valid site.old (λ u. Retires id.now was now) site.new) }
{
    site.retire(id, now)
}

/// Deletes a credential.
pub fn delete<S: Store>(site: &mut StoredSite<S>, id: &[u8], now: u64) -> Result<bool, Failure>
    ensures { IfOk result (λ was. Makes {A = Unit {0}} S.Store.view nothing_valid site.old (λ u. Deletes id.now was now) site.new) }
{
    site.delete(id, now)
}

/// Retires all credentials of a user.
pub fn retire_all<S: Store>(
    site: &mut StoredSite<S>,
    user: &[u8],
    now: u64,
) -> Result<usize, Failure>
    ensures { IfOk result (λ told. Makes S.Store.view nothing_valid site.old (λ ids. RetiresAll user.now ids now) site.new) }
{
    site.retire_all(user, now)
}

/// Deletes all credentials of a user.
pub fn erase<S: Store>(site: &mut StoredSite<S>, user: &[u8], now: u64) -> Result<usize, Failure>
    ensures { IfOk result (λ told. Makes S.Store.view nothing_valid site.old (λ ids. Erases user.now ids now) site.new) }
{
    site.erase(user, now)
}

/// Begins a sign-in, and hands its text out.
pub fn begin_sign_in<S: Store>(
    site: &mut StoredSite<S>,
    user: Option<&[u8]>,
    allow: &[&[u8]],
    uv: bool,
    words: &[u8; 24],
    now: u64,
) -> Result<Begun, BeginFailure>
    ensures { IfOk result (λ b. MakesBegun S.Store.view site.old (OpensSignIn (option_map (λ u. u.now) user.entry) (map (λ id. id.now) allow.now) uv words.now) now b site.new) }
{
    site.begin_sign_in(user, allow, uv, *words, now)
}

/// Begins a registration, and hands its text out.
pub fn begin_registration<S: Store>(
    site: &mut StoredSite<S>,
    user: &[u8],
    algorithms: &[Alg],
    uv: bool,
    asks: Asks,
    words: &[u8; 24],
    now: u64,
) -> Result<Begun, BeginFailure>
    ensures { IfOk result (λ b. MakesBegun S.Store.view site.old (OpensRegistration user.now (ordered algorithms.now) uv words.now asks) now b site.new) }
{
    site.begin_registration(user, algorithms, uv, asks, *words, now)
}

/// Commits what was called.
pub fn commit<S: Store>(site: &mut StoredSite<S>) -> Result<(), Failure>
    ensures { OnOk result (MakesCommitted S.Store.view site.old site.new) }
{
    site.commit()
}

/// Opens the site that a store holds.
pub fn open<S: Store>(
    alloc: Global,
    opening: Opening,
    life: u64,
    store: S,
) -> Result<StoredSite<S>, (OpenFailure, S)>
    ensures { IfOk result (MakesOpened S.Store.view) }
{
    StoredSite::open(alloc, opening, life, store)
}

/// Makes a site, in a store whose trees are a new site's.
pub fn create<S: Store>(
    alloc: Global,
    party: RelyingParty,
    policy: Policy,
    bounds: Bounds,
    key: [u8; 32],
    life: u64,
    store: S,
) -> Result<StoredSite<S>, (CreateFailure, S)>
    ensures { IfOk result (MakesNew S.Store.view) }
{
    StoredSite::create(alloc, party, policy, bounds, key, life, store)
}
