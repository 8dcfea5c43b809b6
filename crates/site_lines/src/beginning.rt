//! Beginning a ceremony.

ghost use Rattle.std.specs.Prelude.{◌≡◌, IfErr, IfOk, OnOk, false, map};
ghost use Rattle.sqlite_trees.specs.View.{IsClean};
ghost use Rattle.site_rows.specs.Calls.{IsQuiet};
ghost use Rattle.site_stored.specs.Calls.{IsNotBegun, IsSame};
ghost use Rattle.site_stored.specs.Causes.{IfBeginStore, IsDamaged};
ghost use Rattle.site_state.specs.Sessions.{Opening};
ghost use Rattle.site_lines.specs.Answers.{Begins, Keeps, TellsRegistrationBegun, TellsSignInBegun, opens_registration, opens_sign_in};
ghost use Rattle.site_lines.specs.Causes.{FailsBy, IsCausedIn, RefusesBegin};
ghost use Rattle.site_lines.specs.Details.{AreKnown, TellsAllowed, TellsExcluded};
ghost use Rattle.site_lines.specs.Private.{IsNotBegunAfter, not_begun as not_begun_of};

use crate::answer::{Answer, NotBegun};
use crate::knowing::{Unknown, all_known};
use site_acts::{BeginRegistration, BeginSignIn, Known};
use site_state::BeginError;
use site_stored::{BeginFailure, Begun, StoredSite};
use sqlite_trees::store::Store;
use std::alloc::{AllocError, Global};

/// A session that has begun, and what is known of the credentials that are named.
#[derive(Drop)]
struct BegunWith {
    begun: Begun,
    known: Vec<Known>,
}

/// The ids, lent.
fn lent<'a>(alloc: Global, ids: &'a [Vec<u8>]) -> Result<Vec<&'a [u8]>, AllocError>
    ensures { IfOk result (λ list. map (λ id. id.now) list.items ≡ map (λ id. id.items) ids.now) }
{
    let mut list = Vec::with_capacity(alloc, ids.len())?;
    for id in ids {
        list.push(id.as_slice())?;
    }
    Ok(list)
}

/// What is known of the credentials that are named.
fn named<S: Store>(
    alloc: Global,
    site: &mut StoredSite<S>,
    ids: &[Vec<u8>],
) -> Result<Vec<Known>, BeginFailure>
    requires live { site.old.is_shut ≡ false }
    ensures known { IfOk result (λ list. AreKnown S.Store.view site.old site.new (map (λ id. id.items) ids.now) list.items) }
    ensures same { OnOk result (IsSame S.Store.view site.old site.new) }
    ensures refused { IfErr result (λ why. (o : Opening) → IsNotBegunAfter S.Store.view site.old site.new o why) }
    ensures cause { IsClean (S.Store.view site.new.store) → IfErr result (IfBeginStore (IsCausedIn S.Store.view S.Store.faults site.old site.new ⊥ (IsDamaged (S.Store.view site.old.store).trees))) }
    ensures quiet { IsQuiet S.Store site.old.store site.new.store }
{
    let Ok(ids) = lent(alloc, ids) else {
        return Err(BeginFailure::Site(BeginError::Memory));
    };
    match all_known(alloc, site, ids.as_slice()) {
        Ok(known) => Ok(known),
        Err(Unknown::Memory) => Err(BeginFailure::Site(BeginError::Memory)),
        Err(Unknown::Failed(why)) => Err(BeginFailure::Store(why)),
    }
}

/// Begins a sign-in.
fn started_sign_in<S: Store>(
    alloc: Global,
    site: &mut StoredSite<S>,
    words: [u8; 24],
    now: u64,
    begin: &BeginSignIn,
) -> Result<Begun, BeginFailure>
    ensures begun { IfOk result (λ s.
        Begins S.Store.view (opens_sign_in begin.now words) words now s site.old site.new) }
    ensures refused { IfErr result (IsNotBegun site.old site.new (opens_sign_in begin.now words)) }
    ensures cause { IsClean (S.Store.view site.new.store) → IfErr result (IfBeginStore (IsCausedIn S.Store.view S.Store.faults site.old site.new (RefusesBegin (S.Store.view site.old.store) site.old) ⊥)) }
    ensures quiet { IsQuiet S.Store site.old.store site.new.store }
{
    let Ok(allow) = lent(alloc, begin.allow.as_slice()) else {
        return Err(BeginFailure::Site(BeginError::Memory));
    };
    site.begin_sign_in(
        begin.user.as_deref(),
        allow.as_slice(),
        begin.user_verification,
        words,
        now,
    )
}

/// What is answered where no session begins.
fn not_begun(why: BeginFailure) -> Answer
    ensures { result ≡ not_begun_of why }
{
    match why {
        BeginFailure::Site(why) => Answer::NotBegun(NotBegun::Refused(why)),
        BeginFailure::NoNumber => Answer::NotBegun(NotBegun::NoNumber),
        BeginFailure::Store(why) => Answer::Failed(why),
    }
}

/// Begins a sign-in, with what is known of the credentials that may answer.
#[tactic(auto, using(crate::proofs::Detailed::begins_after, crate::proofs::Detailed::not_begun_after, crate::proofs::Detailed::of_details_then))]
fn known_sign_in<S: Store>(
    alloc: Global,
    site: &mut StoredSite<S>,
    words: [u8; 24],
    now: u64,
    begin: &BeginSignIn,
) -> Result<BegunWith, BeginFailure>
    requires live { site.old.is_shut ≡ false }
    ensures begun { IfOk result (λ b.
        Begins S.Store.view (opens_sign_in begin.now words) words now b.begun site.old site.new) }
    ensures known { IfOk result (λ b. AreKnown S.Store.view site.old site.new (map (λ id. id.items) begin.now.allow.items) b.known.items) }
    ensures refused { IfErr result (IsNotBegunAfter S.Store.view site.old site.new (opens_sign_in begin.now words)) }
    ensures cause { IsClean (S.Store.view site.new.store) → IfErr result (IfBeginStore (IsCausedIn S.Store.view S.Store.faults site.old site.new (RefusesBegin (S.Store.view site.old.store) site.old) (IsDamaged (S.Store.view site.old.store).trees))) }
    ensures quiet { IsQuiet S.Store site.old.store site.new.store }
{
    let known = match named(alloc, site, begin.allow.as_slice()) {
        Ok(known) => known,
        Err(why) => return Err(why),
    };
    match started_sign_in(alloc, site, words, now, begin) {
        Ok(begun) => Ok(BegunWith { begun, known }),
        Err(why) => Err(why),
    }
}

/// Begins a sign-in.
#[tactic(auto, using(crate::proofs::Detailed::sign_in_after, crate::proofs::Detailed::keeps_after))]
pub(crate) fn begin_sign_in<S: Store>(
    alloc: Global,
    site: &mut StoredSite<S>,
    words: [u8; 24],
    now: u64,
    begin: BeginSignIn,
) -> Answer
    requires live { site.old.is_shut ≡ false }
    ensures told { TellsSignInBegun S.Store.view begin words now site.old site.new result }
    ensures details { TellsAllowed S.Store.view begin site.old site.new result }
    ensures kept { Keeps S.Store.view site.old site.new result }
    ensures cause { FailsBy S.Store.view S.Store.faults site.old site.new (RefusesBegin (S.Store.view site.old.store) site.old) (IsDamaged (S.Store.view site.old.store).trees) result }
    ensures quiet { IsQuiet S.Store site.old.store site.new.store }
{
    match known_sign_in(alloc, site, words, now, &begin) {
        Ok(named) => Answer::SignInBegun(named.begun, begin, named.known),
        Err(why) => not_begun(why),
    }
}

/// Begins a registration.
fn started_registration<S: Store>(
    site: &mut StoredSite<S>,
    words: [u8; 24],
    now: u64,
    begin: &BeginRegistration,
) -> Result<Begun, BeginFailure>
    ensures begun { IfOk result (λ s.
        Begins S.Store.view (opens_registration begin.now words) words now s site.old site.new) }
    ensures refused { IfErr result (IsNotBegun site.old site.new (opens_registration begin.now words)) }
    ensures cause { IsClean (S.Store.view site.new.store) → IfErr result (IfBeginStore (IsCausedIn S.Store.view S.Store.faults site.old site.new (RefusesBegin (S.Store.view site.old.store) site.old) ⊥)) }
    ensures quiet { IsQuiet S.Store site.old.store site.new.store }
{
    site.begin_registration(
        begin.user.as_slice(),
        begin.algorithms.as_slice(),
        begin.user_verification,
        begin.asks,
        words,
        now,
    )
}

/// Begins a registration, with what is known of the credentials that the account has.
#[tactic(auto, using(crate::proofs::Detailed::begins_after, crate::proofs::Detailed::not_begun_after, crate::proofs::Detailed::of_details_then))]
fn known_registration<S: Store>(
    alloc: Global,
    site: &mut StoredSite<S>,
    words: [u8; 24],
    now: u64,
    begin: &BeginRegistration,
) -> Result<BegunWith, BeginFailure>
    requires live { site.old.is_shut ≡ false }
    ensures begun { IfOk result (λ b.
        Begins S.Store.view (opens_registration begin.now words) words now b.begun site.old site.new) }
    ensures known { IfOk result (λ b. AreKnown S.Store.view site.old site.new (map (λ id. id.items) begin.now.exclude.items) b.known.items) }
    ensures refused { IfErr result (IsNotBegunAfter S.Store.view site.old site.new (opens_registration begin.now words)) }
    ensures cause { IsClean (S.Store.view site.new.store) → IfErr result (IfBeginStore (IsCausedIn S.Store.view S.Store.faults site.old site.new (RefusesBegin (S.Store.view site.old.store) site.old) (IsDamaged (S.Store.view site.old.store).trees))) }
    ensures quiet { IsQuiet S.Store site.old.store site.new.store }
{
    let known = match named(alloc, site, begin.exclude.as_slice()) {
        Ok(known) => known,
        Err(why) => return Err(why),
    };
    match started_registration(site, words, now, begin) {
        Ok(begun) => Ok(BegunWith { begun, known }),
        Err(why) => Err(why),
    }
}

/// Begins a registration.
#[tactic(auto, using(crate::proofs::Detailed::registration_after, crate::proofs::Detailed::keeps_after))]
pub(crate) fn begin_registration<S: Store>(
    alloc: Global,
    site: &mut StoredSite<S>,
    words: [u8; 24],
    now: u64,
    begin: BeginRegistration,
) -> Answer
    requires live { site.old.is_shut ≡ false }
    ensures told { TellsRegistrationBegun S.Store.view begin words now site.old site.new result }
    ensures details { TellsExcluded S.Store.view begin site.old site.new result }
    ensures kept { Keeps S.Store.view site.old site.new result }
    ensures cause { FailsBy S.Store.view S.Store.faults site.old site.new (RefusesBegin (S.Store.view site.old.store) site.old) (IsDamaged (S.Store.view site.old.store).trees) result }
    ensures quiet { IsQuiet S.Store site.old.store site.new.store }
{
    match known_registration(alloc, site, words, now, &begin) {
        Ok(named) => Answer::RegistrationBegun(named.begun, begin, named.known),
        Err(why) => not_begun(why),
    }
}
