//! A relying party over a store.

ghost use Rattle.std.specs.Prelude.{◌≡◌, ◌⊎◌, ◌≤◌, ℕ, IfErr, OnOk, IsErrOf, true};
ghost use Rattle.sqlite_trees.specs.Tree.{Trees};
ghost use Rattle.sqlite_trees.specs.View.{IsClean};
ghost use Rattle.site_rows.specs.Held.{Placed};
ghost use Rattle.site_stored.specs.State.{AreReserved, IsHeld, IsSound, committed_as, known, to_commit, site_tree, mark_tree};
ghost use Rattle.site_stored.specs.Calls.{IsCommit, IsFailure};
ghost use Rattle.site_stored.specs.Causes.{RefusesCommit, SiteFails};
ghost use Rattle.site_stored.specs.declared.failure.Failure.TheVariants as failures;

use crate::failure::Failure;
use crate::marks::mark_after;
use crate::rows::to_commit;
use crate::site_store::SiteStore;
use sqlite_trees::store::Store;
use std::marker::Model;
use verification::{Policy, RelyingParty};

/// A relying party whose credentials are rows of a store, and whose sessions are texts that it has sealed: nothing is kept of one
/// that has begun, and one that was answered or abandoned is a row of the store until its time is over.
///
/// A call writes what it answers, and `commit` commits all that was written since the last one: answer only after
/// it. So one commit serves many calls. A failure of the disk or of memory while it writes shuts the site: each further call
/// says so, and what an open of the file finds is what was committed.
#[derive(Drop)]
pub struct StoredSite<S: Store> {
    pub(crate) party: RelyingParty,
    pub(crate) policy: Policy,
    pub(crate) key: [u8; 32],
    pub(crate) lifetime: u64,
    pub(crate) next: u64,
    pub(crate) mark: u64,
    pub(crate) next_mark: u64,
    pub(crate) count: u32,
    pub(crate) last: u32,
    pub(crate) most: u32,
    pub(crate) held: SiteStore<S>,
}

impl<S: Store> Model for StoredSite<S> {
    ghost use Rattle.site_stored.specs.State.{IsSound, StoredState, kept_code};

    ghost Value = { StoredState S };

    ghost coded = { kept_code S.code };

    ghost view = { λ s. record {
      rp = s.party;
      policy = s.policy;
      key = s.key;
      lifetime = s.lifetime;
      next = s.next;
      reserved = s.held.reserved;
      durable = s.held.durable;
      mark = s.mark;
      next_mark = s.next_mark;
      count = s.count;
      last = s.last;
      most = s.most;
      store = s.held.store;
      is_shut = s.held.is_shut;
      is_pending = s.held.is_pending;
    } };

    ghost invariant = { λ s. IsSound S.Store.view (record {
      rp = s.party;
      policy = s.policy;
      key = s.key;
      lifetime = s.lifetime;
      next = s.next;
      reserved = s.held.reserved;
      durable = s.held.durable;
      mark = s.mark;
      next_mark = s.next_mark;
      count = s.count;
      last = s.last;
      most = s.most;
      store = s.held.store;
      is_shut = s.held.is_shut;
      is_pending = s.held.is_pending;
    }) };
}

impl<S: Store> StoredSite<S> {
    /// Whether an earlier failure has shut it.
    pub fn is_shut(&self) -> bool
        ensures { result ≡ self.now.is_shut }
    {
        self.held.is_shut
    }

    /// Whether something is written that is not committed.
    pub fn is_pending(&self) -> bool
        ensures { result ≡ self.now.is_pending }
    {
        self.held.is_pending
    }

    /// How many credentials there are, retired ones too.
    pub fn count(&self) -> u32
        ensures { result ≡ self.now.count }
    {
        self.count
    }

    /// The relying party.
    pub fn party(&self) -> &RelyingParty
        ensures { result.now ≡ self.now.rp }
    {
        &self.party
    }

    /// The number that the next session will have.
    pub fn next_session(&self) -> u64
        ensures { result ≡ self.now.next }
    {
        self.next
    }

    /// What is to be kept elsewhere: as `at_least` of [`open`](StoredSite::open) it refuses each copy that lacks the last commit, and
    /// never the store itself.
    pub fn known(&self) -> u64
        ensures { result ≡ known self.now.durable }
    {
        self.held.durable.saturating_sub(1)
    }

    /// Commits what was written since the last commit, if anything was. What the calls since then answered may be written now.
    ///
    /// More numbers are reserved in the same commit, and the next session has none that an earlier commit has reserved: so its
    /// number differs from that of each earlier copy of the store (`open`). The commit has a mark of its own, and names that of the
    /// commit before it.
    pub fn commit(&mut self) -> Result<(), Failure>
        ensures kept { OnOk result (IsCommit self.old self.new) }
        ensures given { OnOk result (AreReserved self.new) }
        ensures held { OnOk result (IsClean (S.Store.view self.new.store) → (placed : Placed) → IsHeld placed self.old (S.Store.view self.old.store).trees
            → IsHeld placed self.new (S.Store.view self.new.store).trees) }
        ensures beside { OnOk result (IsClean (S.Store.view self.new.store) → (tree : ℕ) → (tree ≡ site_tree → ⊥) → (tree ≡ mark_tree → ⊥)
            → (S.Store.view self.new.store).trees tree ≡ (S.Store.view self.old.store).trees tree) }
        // After it a crash leaves all of it.
        ensures durable { OnOk result (IsClean (S.Store.view self.new.store) → (db : Trees) → S.Store.recovers self.new.store db
            → db ≡ (S.Store.view self.new.store).trees) }
        // In it a crash leaves all or nothing of it.
        ensures crash { (db : Trees) → S.Store.recovers self.new.store db
            → (db ≡ committed_as self.old (S.Store.view self.old.store).trees) ⊎ S.Store.recovers self.old.store db }
        ensures cause { SiteFails S.Store self.old.store self.new.store
            (RefusesCommit (S.Store.view self.old.store).reals self.old.rp.rp_id (to_commit self.old.durable self.old.reserved) self.old.next_mark self.old.mark) ⊥ result }
        ensures counts { S.Store.faults self.old.store ≤ S.Store.faults self.new.store }
        ensures failed { IfErr result (IsFailure self.old self.new) }
        ensures shut { self.old.is_shut ≡ true → IsErrOf result failures.Shut }
    {
        if self.held.is_shut {
            return Err(Failure::Shut);
        }
        if !self.held.is_pending {
            return Ok(());
        }
        let durable = self.held.durable;
        let reserved = to_commit(durable, self.held.reserved);
        self.held.reserve(self.party.rp_id(), reserved)?;
        self.held.put_mark(self.next_mark, self.mark)?;
        self.held.commit()?;
        self.mark = self.next_mark;
        self.next_mark = mark_after(self.mark);
        self.next = u64::max(self.next, durable);
        Ok(())
    }

    /// Ends it, and gives the store back.
    pub fn close(self) -> S
        ensures { result ≡ self.store }
    {
        let held = self.held;
        held.store
    }
}
