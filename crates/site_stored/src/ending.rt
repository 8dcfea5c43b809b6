//! What has ended, in a site's store.

ghost use Rattle.std.specs.Prelude.{◌≡◌, ◌<◌, ◌^◌, IfOk, OnOk, is_some};
ghost use Rattle.std.specs.FinMap as finite;
ghost use Rattle.sqlite_trees.specs.View.{IsClean, IsStorableRow};
ghost use Rattle.site_rows.specs.Endings.{Endings, FitsRow, HoldsEndings, IsEnded, Purges, ending_row};
ghost use Rattle.site_stored.specs.Causes.{IsUnknownEnding, SiteFails};
ghost use Rattle.site_stored.specs.State.{ended_session_tree};
ghost use Rattle.site_stored.specs.Private.{EndsIn, IsEndingTree, IsOpenStore, IsReadyStore, ReadsStore, WritesStore};

use crate::failure::Failure;
use crate::site_store::SiteStore;
use crate::trees::ENDED_SESSION_TREE;
use site_rows::{Ending, find_ending, purge_ending, put_ending};
use sqlite_trees::store::Store;

impl<S: Store> SiteStore<S> {
    /// What has ended under a number. A failure shuts it.
    pub(crate) fn ending(&mut self, tree: u32, number: u64) -> Result<Option<Ending>, Failure>
        requires ready { IsOpenStore S.Store self.old }
        requires tree { IsEndingTree tree }
        requires fits { number < 2 ^ 63 }
        ensures found { IfOk result (λ found. IsClean (S.Store.view self.new.store) → (endings : Endings)
            → HoldsEndings tree endings (S.Store.view self.old.store).trees → found ≡ finite.get endings number) }
        ensures reads { ReadsStore S.Store self.old self.new result }
        ensures cause { SiteFails S.Store self.old.store self.new.store ⊥ (IsUnknownEnding tree (S.Store.view self.old.store).trees) result }
    {
        self.is_shut = true;
        let found = find_ending(self.alloc, &mut self.store, tree, number)?;
        self.is_shut = false;
        Ok(found)
    }

    /// Sets what has ended under a number. A failure shuts it.
    pub(crate) fn put_ending(
        &mut self,
        tree: u32,
        number: u64,
        ending: Ending,
    ) -> Result<(), Failure>
        requires ready { IsReadyStore S.Store self.old }
        requires tree { IsEndingTree tree }
        requires fits { FitsRow number ending }
        ensures put { OnOk result (IsClean (S.Store.view self.new.store)
            → IsEnded tree (S.Store.view self.old.store) (S.Store.view self.new.store) (λ endings. finite.insert endings number ending)) }
        ensures writes { WritesStore S.Store self.old self.new self.old.reserved result }
        ensures cause { SiteFails S.Store self.old.store self.new.store
            (¬ IsStorableRow ((S.Store.view self.old.store).reals tree) (ending_row number ending)) ⊥ result }
    {
        self.is_shut = true;
        put_ending(self.alloc, &mut self.store, tree, number, ending)?;
        self.is_pending = true;
        self.is_shut = false;
        Ok(())
    }

    /// Takes out what need not be known any more at this second, if the first ending from a number on is such. A failure shuts
    /// it.
    pub(crate) fn purge(&mut self, tree: u32, from: u64, now: u64) -> Result<(), Failure>
        requires ready { IsReadyStore S.Store self.old }
        requires tree { IsEndingTree tree }
        requires fits { from < 2 ^ 63 }
        ensures purged { OnOk result (IsClean (S.Store.view self.new.store) → Purges tree now (S.Store.view self.old.store) (S.Store.view self.new.store)) }
        ensures writes { WritesStore S.Store self.old self.new self.old.reserved result }
        ensures cause { SiteFails S.Store self.old.store self.new.store ⊥ ⊥ result }
    {
        self.is_shut = true;
        purge_ending(self.alloc, &mut self.store, tree, from, now)?;
        self.is_pending = true;
        self.is_shut = false;
        Ok(())
    }

    /// Whether a session has ended. A failure shuts it.
    pub(crate) fn has_ended(&mut self, session: u64) -> Result<bool, Failure>
        requires ready { IsOpenStore S.Store self.old }
        requires fits { session < 2 ^ 63 }
        ensures told { IfOk result (λ was. IsClean (S.Store.view self.new.store) → (endings : Endings)
            → HoldsEndings ended_session_tree endings (S.Store.view self.old.store).trees → was ≡ is_some (finite.get endings session)) }
        ensures reads { ReadsStore S.Store self.old self.new result }
        ensures cause { SiteFails S.Store self.old.store self.new.store ⊥ (IsUnknownEnding ended_session_tree (S.Store.view self.old.store).trees) result }
    {
        let found = self.ending(ENDED_SESSION_TREE, session)?;
        Ok(found.is_some())
    }

    /// Sets what has ended under a number, and takes out what need not be known any more, if the first ending from `from` on is
    /// such. A failure shuts it.
    pub(crate) fn end(
        &mut self,
        tree: u32,
        number: u64,
        ending: Ending,
        from: u64,
        now: u64,
    ) -> Result<(), Failure>
        requires ready { IsReadyStore S.Store self.old }
        requires tree { IsEndingTree tree }
        requires fits { FitsRow number ending }
        requires from { from < 2 ^ 63 }
        ensures ended { OnOk result (IsClean (S.Store.view self.new.store)
            → EndsIn tree now number ending (S.Store.view self.old.store) (S.Store.view self.new.store)) }
        ensures writes { WritesStore S.Store self.old self.new self.old.reserved result }
        ensures cause { SiteFails S.Store self.old.store self.new.store
            (¬ IsStorableRow ((S.Store.view self.old.store).reals tree) (ending_row number ending)) ⊥ result }
    {
        self.purge(tree, from, now)?;
        self.put_ending(tree, number, ending)
    }
}
