//! A site over a store without rows.

ghost use Rattle.std.specs.Prelude.{◌≡◌, ◌⊎◌, ◌≤◌, IfErr, IfOk, MatchResult, OnOk};
ghost use Rattle.std.specs.FinMap as finite;
ghost use Rattle.sqlite_trees.specs.Tree.{Trees};
ghost use Rattle.sqlite_trees.specs.View.{IsClean};
ghost use Rattle.site_stored.specs.Causes.{IfCreateStore, IsStartCaused, RefusesCommit, RefusesKey, CreateFails};
ghost use Rattle.site_rows.specs.Endings.{HoldsEndings};
ghost use Rattle.site_stored.specs.State.{HasKey, HoldsSite, ended_session_tree, ended_user_tree, mark_after};
ghost use Rattle.site_stored.specs.Private.{IsNew, TakesReals, IsSettled};
ghost use Rattle.site_rows.specs.Calls.{IfClean, IsQuiet};
ghost use Rattle.site_stored.specs.Starts.{IsMade};

use crate::failure::CreateFailure;
use crate::kept::StoredSite;
use crate::key::write_key;
use crate::marks::{mark_after, write_mark};
use crate::rows::reserve;
use crate::scan::{has_trees, is_empty, rest};
use crate::site_store::SiteStore;
use crate::trees::{ENDED_SESSION_TREE, ENDED_USER_TREE, KEY_TREE, MARK_TREE, SITE_TREE};
use site_rows::{CREDENTIAL_TREE, DETAIL_TREE, ID_TREE, USER_TREE};
use sqlite_trees::store::Store;
use std::alloc::Global;
use verification::{Policy, RelyingParty};

/// How much a site may have.
#[derive(Clone, Copy, Debug, PartialEq, Eq, Drop)]
pub struct Bounds {
    /// How many seconds a session is open that begins, at most 1,000,000; more is 1,000,000.
    pub lifetime: u64,
    /// The most credentials.
    pub credentials: u32,
}

/// That a store has the trees of a site, without rows.
fn check_new<S: Store>(alloc: Global, store: &mut S) -> Result<(), CreateFailure>
    ensures new { OnOk result (IsClean (S.Store.view store.new) → IsNew (S.Store.view store.new)) }
    ensures reals { OnOk result (TakesReals (S.Store.view store.old) (S.Store.view store.new)) }
    ensures cause { CreateFails S.Store store.old store.new ⊥ result }
    ensures quiet { IsQuiet S.Store store.old store.new }
{
    rest(store)?;
    if !has_trees(store) {
        return Err(CreateFailure::NotNew);
    }
    let credentials = is_empty(alloc, store, CREDENTIAL_TREE)?;
    let site = is_empty(alloc, store, SITE_TREE)?;
    let by_id = is_empty(alloc, store, ID_TREE)?;
    let by_user = is_empty(alloc, store, USER_TREE)?;
    let details = is_empty(alloc, store, DETAIL_TREE)?;
    let marks = is_empty(alloc, store, MARK_TREE)?;
    let key = is_empty(alloc, store, KEY_TREE)?;
    let sessions = is_empty(alloc, store, ENDED_SESSION_TREE)?;
    let users = is_empty(alloc, store, ENDED_USER_TREE)?;
    if !(credentials && site && by_id && by_user && details && marks && key && sessions && users) {
        return Err(CreateFailure::NotNew);
    }
    Ok(())
}

/// Commits the row of a relying party that has no credential, and has given no number.
fn write_new<S: Store>(
    alloc: Global,
    party: &RelyingParty,
    key: &[u8; 32],
    life: u64,
    store: &mut S,
) -> Result<(), CreateFailure>
    ensures held { OnOk result (IsClean (S.Store.view store.new) → HoldsSite finite.empty party.now.rp_id 1 (S.Store.view store.new).trees) }
    ensures key { OnOk result (IsClean (S.Store.view store.new) → HasKey key.now (S.Store.view store.new).trees) }
    ensures none { OnOk result (IsClean (S.Store.view store.new) → HoldsEndings ended_session_tree finite.empty (S.Store.view store.new).trees
        × HoldsEndings ended_user_tree finite.empty (S.Store.view store.new).trees) }
    ensures ready { OnOk result (IfClean (S.Store.view store.new) IsSettled) }
    ensures cause { CreateFails S.Store store.old store.new (RefusesCommit (S.Store.view store.old).committed_reals party.now.rp_id 1 life 0 ⊎ RefusesKey (S.Store.view store.old).committed_reals key.now) result }
    ensures counts { S.Store.faults store.old ≤ S.Store.faults store.new }
    ensures crash { (db : Trees) → IsClean (S.Store.view store.new) → S.Store.recovers store.new db
        → S.Store.recovers store.old db ⊎ HoldsSite finite.empty party.now.rp_id 1 db }
{
    check_new(alloc, store)?;
    reserve(alloc, store, party.rp_id(), 1)?;
    write_key(alloc, store, key)?;
    write_mark(alloc, store, life, 0)?;
    store.commit()?;
    Ok(())
}

impl<S: Store> StoredSite<S> {
    /// A site without credentials and sessions, in a store whose trees are the tables and indices of a site, without rows. What an
    /// earlier transaction of the store has not committed is undone. `key` is 32 random bytes, under which it seals its sessions, and
    /// `life` a random number, the mark of its first commit.
    ///
    /// `NotNew` where a tree has another shape, or a row; nothing is written then. `Failed` where the disk or memory failed. The
    /// store is handed back.
    pub fn create(
        alloc: Global,
        party: RelyingParty,
        policy: Policy,
        bounds: Bounds,
        key: [u8; 32],
        life: u64,
        mut store: S,
    ) -> Result<StoredSite<S>, (CreateFailure, S)>
        ensures made { IfOk result (IsMade S.Store.view party policy bounds) }
        ensures key { IfOk result (λ s. s.key ≡ key) }
        ensures marks { IfOk result (λ s. (s.mark ≡ life) × (s.next_mark ≡ mark_after life)) }
        ensures cause { IfErr result (λ e. IsClean (S.Store.view e.1) → IfCreateStore (IsStartCaused (S.Store.view store) (S.Store.faults store) (S.Store.faults e.1)
            (RefusesCommit (S.Store.view store).committed_reals party.rp_id 1 life 0 ⊎ RefusesKey (S.Store.view store).committed_reals key)) e.0) }
        ensures counts { MatchResult result (λ s. S.Store.faults store ≤ S.Store.faults s.store) (λ e. S.Store.faults store ≤ S.Store.faults e.1) }
        // An open after a crash finds what it could find before, or the new site.
        ensures crash { IfOk result (λ s. (db : Trees) → IsClean (S.Store.view s.store) → S.Store.recovers s.store db
            → S.Store.recovers store db ⊎ HoldsSite finite.empty party.rp_id 1 db) }
        ensures failed { IfErr result (λ e. (db : Trees) → IsClean (S.Store.view e.1) → S.Store.recovers e.1 db
            → S.Store.recovers store db ⊎ HoldsSite finite.empty party.rp_id 1 db) }
    {
        match write_new(alloc, &party, &key, life, &mut store) {
            Ok(()) => Ok(StoredSite {
                party,
                policy,
                key,
                lifetime: bounds.lifetime,
                next: 1,
                mark: life,
                next_mark: mark_after(life),
                count: 0,
                last: 0,
                most: bounds.credentials,
                held: SiteStore {
                    alloc,
                    store,
                    reserved: 1,
                    durable: 1,
                    is_pending: false,
                    is_shut: false,
                },
            }),
            Err(why) => Err((why, store)),
        }
    }
}
