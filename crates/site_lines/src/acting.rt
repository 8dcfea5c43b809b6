//! Carrying out an act.

ghost use Rattle.std.specs.Prelude.{◌≡◌, IfErr, IfOk, None, OnOk, Some, false, map, option_map};
ghost use Rattle.sqlite_trees.specs.View.{IsClean};
ghost use Rattle.site_rows.specs.Calls.{IsQuiet};
ghost use Rattle.site_lines.specs.Answers.{Keeps, Tells, TellsAbandoned, TellsDeleted, TellsErased, TellsRetired, TellsRetiredAll, TellsRows, TellsStatus};
ghost use Rattle.site_lines.specs.Details.{AreKnown, ForgetsDetail, ForgetsDetails, TellsDetails, TellsRowDetails};
ghost use Rattle.site_lines.specs.Causes.{AreTooMany, FailsBy, FailsIn, FailsShut, IsCausedIn, RefusesRetire, RefusesRetireAll};
ghost use Rattle.site_lines.specs.Private.{IfUnknown, IsUnknown, IsWithKnown, unknown as unknown_of};
ghost use Rattle.site_stored.specs.Calls.{IsSame};
ghost use Rattle.site_stored.specs.Causes.{IsDamaged, IsUnknownEnding, RefusesEnding};
ghost use Rattle.site_stored.specs.Causes as stored;
ghost use Rattle.site_stored.specs.State.{ended_session_tree, ended_user_tree};

use crate::answer::{Answer, Counts};
use crate::beginning::{begin_registration, begin_sign_in};
use crate::finishing::{finish_registration, finish_sign_in};
use crate::knowing::{Unknown, all_known};
use json_lines::LineError;
use site_acts::{Act, Known};
use site_state::Row;
use site_stored::{Failure, SessionFailure, StoredSite};
use sqlite_trees::store::Store;
use std::alloc::{AllocError, Global};

/// Retires the credential of an id.
fn retire<S: Store>(site: &mut StoredSite<S>, credential: &[u8], now: u64) -> Answer
    ensures told { TellsRetired S.Store.view now credential.now site.old site.new result }
    ensures kept { Keeps S.Store.view site.old site.new result }
    ensures cause { FailsBy S.Store.view S.Store.faults site.old site.new (RefusesRetire (S.Store.view site.old.store) credential.now) (IsDamaged (S.Store.view site.old.store).trees) result }
    ensures quiet { IsQuiet S.Store site.old.store site.new.store }
{
    match site.retire(credential, now) {
        Ok(was) => Answer::Retired(was),
        Err(why) => Answer::Failed(why),
    }
}

/// Deletes the credential of an id.
fn delete<S: Store>(site: &mut StoredSite<S>, credential: &[u8], now: u64) -> Answer
    ensures told { TellsDeleted S.Store.view now credential.now site.old site.new result }
    ensures details { ForgetsDetail S.Store.view credential.now site.old site.new result }
    ensures kept { Keeps S.Store.view site.old site.new result }
    ensures cause { FailsBy S.Store.view S.Store.faults site.old site.new (RefusesEnding ended_user_tree (S.Store.view site.old.store)) (IsDamaged (S.Store.view site.old.store).trees) result }
    ensures quiet { IsQuiet S.Store site.old.store site.new.store }
{
    match site.delete(credential, now) {
        Ok(was) => Answer::Deleted(was),
        Err(why) => Answer::Failed(why),
    }
}

/// Retires each credential of a user.
fn retire_all<S: Store>(site: &mut StoredSite<S>, user: &[u8], now: u64) -> Answer
    ensures told { TellsRetiredAll S.Store.view now user.now site.old site.new result }
    ensures kept { Keeps S.Store.view site.old site.new result }
    ensures cause { FailsBy S.Store.view S.Store.faults site.old site.new (RefusesRetireAll (S.Store.view site.old.store) user.now) (stored.AreTooMany user.now (S.Store.view site.old.store).trees) result }
    ensures quiet { IsQuiet S.Store site.old.store site.new.store }
{
    match site.retire_all(user, now) {
        Ok(count) => Answer::RetiredAll(count),
        Err(why) => Answer::Failed(why),
    }
}

/// Deletes each credential of a user.
fn erase<S: Store>(site: &mut StoredSite<S>, user: &[u8], now: u64) -> Answer
    ensures told { TellsErased S.Store.view now user.now site.old site.new result }
    ensures details { ForgetsDetails S.Store.view user.now site.old site.new result }
    ensures kept { Keeps S.Store.view site.old site.new result }
    ensures cause { FailsBy S.Store.view S.Store.faults site.old site.new (RefusesEnding ended_user_tree (S.Store.view site.old.store)) (stored.AreTooMany user.now (S.Store.view site.old.store).trees) result }
    ensures quiet { IsQuiet S.Store site.old.store site.new.store }
{
    match site.erase(user, now) {
        Ok(count) => Answer::Erased(count),
        Err(why) => Answer::Failed(why),
    }
}

/// Ends a session.
fn abandon<S: Store>(site: &mut StoredSite<S>, session: &[u8], now: u64) -> Answer
    ensures told { TellsAbandoned S.Store.view now session.now site.old site.new result }
    ensures kept { Keeps S.Store.view site.old site.new result }
    ensures cause { FailsBy S.Store.view S.Store.faults site.old site.new (RefusesEnding ended_session_tree (S.Store.view site.old.store)) (IsUnknownEnding ended_session_tree (S.Store.view site.old.store).trees) result }
    ensures quiet { IsQuiet S.Store site.old.store site.new.store }
{
    match site.abandon(session, now) {
        Ok(was) => Answer::Abandoned(was),
        Err(SessionFailure::Memory) => Answer::Error(LineError::Memory),
        Err(SessionFailure::Store(why)) => Answer::Failed(why),
    }
}

/// The ids of rows, lent.
fn ids_of<'a>(alloc: Global, rows: &'a [Row]) -> Result<Vec<&'a [u8]>, AllocError>
    ensures { IfOk result (λ list. map (λ id. id.now) list.items ≡ map (λ r. r.id.items) rows.now) }
{
    let mut list = Vec::with_capacity(alloc, rows.len())?;
    for row in rows {
        list.push(row.id.as_slice())?;
    }
    Ok(list)
}

/// What is known of the credentials of rows.
fn known_of<S: Store>(
    alloc: Global,
    site: &mut StoredSite<S>,
    rows: &[Row],
) -> Result<Vec<Known>, Unknown>
    requires live { site.old.is_shut ≡ false }
    ensures known { IfOk result (λ list. AreKnown S.Store.view site.old site.new (map (λ r. r.id.items) rows.now) list.items) }
    ensures same { OnOk result (IsSame S.Store.view site.old site.new) }
    ensures unknown { IfErr result (IsUnknown S.Store.view site.old site.new) }
    ensures cause { IsClean (S.Store.view site.new.store) → IfErr result (IfUnknown (IsCausedIn S.Store.view S.Store.faults site.old site.new ⊥ (IsDamaged (S.Store.view site.old.store).trees))) }
    ensures quiet { IsQuiet S.Store site.old.store site.new.store }
{
    let ids = ids_of(alloc, rows)?;
    all_known(alloc, site, ids.as_slice())
}

/// What is answered where nothing is answered of credentials.
fn unknown(why: Unknown) -> Answer
    ensures { result ≡ unknown_of why }
{
    match why {
        Unknown::Memory => Answer::Error(LineError::Memory),
        Unknown::Failed(why) => Answer::Failed(why),
    }
}

/// Rows, with what is known of each.
fn with_known<S: Store>(alloc: Global, site: &mut StoredSite<S>, rows: Vec<Row>) -> Answer
    requires live { site.old.is_shut ≡ false }
    ensures told { IsWithKnown S.Store.view rows site.old site.new result }
    ensures cause { FailsBy S.Store.view S.Store.faults site.old site.new ⊥ (IsDamaged (S.Store.view site.old.store).trees) result }
    ensures quiet { IsQuiet S.Store site.old.store site.new.store }
{
    match known_of(alloc, site, rows.as_slice()) {
        Ok(known) => Answer::Rows(rows, known),
        Err(why) => unknown(why),
    }
}

/// The credentials of a user.
fn rows_of<S: Store>(alloc: Global, site: &mut StoredSite<S>, user: &[u8]) -> Answer
    requires live { site.old.is_shut ≡ false }
    ensures details { TellsRowDetails S.Store.view site.old site.new result }
    ensures told { TellsRows S.Store.view (Some user.now) site.old site.new result }
    ensures kept { Keeps S.Store.view site.old site.new result }
    ensures cause { FailsBy S.Store.view S.Store.faults site.old site.new ⊥ (AreTooMany (Some user.now) (S.Store.view site.old.store)) result }
    ensures quiet { IsQuiet S.Store site.old.store site.new.store }
{
    match site.rows_of(user) {
        Ok(rows) => with_known(alloc, site, rows),
        Err(why) => Answer::Failed(why),
    }
}

/// All credentials.
fn all_rows<S: Store>(alloc: Global, site: &mut StoredSite<S>) -> Answer
    requires live { site.old.is_shut ≡ false }
    ensures details { TellsRowDetails S.Store.view site.old site.new result }
    ensures told { TellsRows S.Store.view None site.old site.new result }
    ensures kept { Keeps S.Store.view site.old site.new result }
    ensures cause { FailsBy S.Store.view S.Store.faults site.old site.new ⊥ (AreTooMany None (S.Store.view site.old.store)) result }
    ensures quiet { IsQuiet S.Store site.old.store site.new.store }
{
    match site.rows() {
        Ok(rows) => with_known(alloc, site, rows),
        Err(why) => Answer::Failed(why),
    }
}

/// The credentials of a user, or all.
fn rows<S: Store>(alloc: Global, site: &mut StoredSite<S>, user: Option<&[u8]>) -> Answer
    requires live { site.old.is_shut ≡ false }
    ensures details { TellsRowDetails S.Store.view site.old site.new result }
    ensures told { TellsRows S.Store.view (option_map (λ u. u.now) user.entry) site.old site.new result }
    ensures kept { Keeps S.Store.view site.old site.new result }
    ensures cause { FailsBy S.Store.view S.Store.faults site.old site.new ⊥ (AreTooMany (option_map (λ u. u.now) user.entry) (S.Store.view site.old.store)) result }
    ensures quiet { IsQuiet S.Store site.old.store site.new.store }
{
    match user {
        Some(user) => rows_of(alloc, site, user),
        None => all_rows(alloc, site),
    }
}

/// How many there are.
fn status<S: Store>(site: &StoredSite<S>) -> Answer
    ensures told { TellsStatus site.now site.now result }
    ensures kept { Keeps S.Store.view site.now site.now result }
    ensures cause { FailsShut result }
{
    Answer::Status(Counts {
        credentials: site.count(),
        next_session: site.next_session(),
    })
}

/// Carries out an act, at this second of the host's clock. What it answers is to be committed before it is answered.
#[tactic(auto, using(crate::proofs::Detailed::fails, crate::proofs::Caused::shut_fails))]
pub fn carry_out<S: Store>(
    alloc: Global,
    site: &mut StoredSite<S>,
    words: [u8; 24],
    now: u64,
    act: Act,
) -> Answer
    ensures told { Tells S.Store.view words now act site.old site.new result }
    ensures details { TellsDetails S.Store.view now act site.old site.new result }
    ensures kept { Keeps S.Store.view site.old site.new result }
    // A failure has its cause in it.
    ensures cause { FailsIn S.Store.view S.Store.faults now act site.old site.new result }
    // Nothing of it is in the file before it is committed.
    ensures quiet { IsQuiet S.Store site.old.store site.new.store }
{
    if site.is_shut() {
        return Answer::Failed(Failure::Shut);
    }
    match act {
        Act::BeginRegistration(begin) => begin_registration(alloc, site, words, now, begin),
        Act::FinishRegistration(finish) => finish_registration(alloc, site, now, finish),
        Act::BeginSignIn(begin) => begin_sign_in(alloc, site, words, now, begin),
        Act::FinishSignIn(finish) => finish_sign_in(alloc, site, now, finish),
        Act::Retire(credential) => retire(site, credential.as_slice(), now),
        Act::Delete(credential) => delete(site, credential.as_slice(), now),
        Act::RetireAll(user) => retire_all(site, user.as_slice(), now),
        Act::Erase(user) => erase(site, user.as_slice(), now),
        Act::Abandon(session) => abandon(site, session.as_slice(), now),
        Act::Rows(user) => rows(alloc, site, user.as_deref()),
        Act::Status => status(site),
        Act::Backup(path) => Answer::Backup(path),
    }
}
