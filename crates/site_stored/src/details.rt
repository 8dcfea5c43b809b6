//! The details of a site's credentials.

ghost use Rattle.std.specs.Prelude.{◌≡◌, IfOk, OnOk, option_map};
ghost use Rattle.std.specs.FinMap as finite;
ghost use Rattle.sqlite_trees.specs.View.{IsClean, IsStorableRow};
ghost use Rattle.site_rows.specs.Details.{Details, HoldsDetails, IsDetailed, detail_row, used};
ghost use Rattle.site_state.specs.Details.{detail_view};
ghost use Rattle.site_rows.specs.Trees.{detail_tree};
ghost use Rattle.site_stored.specs.Causes.{SiteFails};
ghost use Rattle.site_stored.specs.Private.{IsReadyStore, IsOpenStore, ReadsStore, WritesStore};

use crate::failure::Failure;
use crate::site_store::SiteStore;
use site_rows::{delete_detail, find_detail, mark_used, put_detail};
use site_state::Detail;
use sqlite_trees::store::Store;

impl<S: Store> SiteStore<S> {
    /// The detail of the credential at a place; none where nothing is known. A failure shuts it.
    pub(crate) fn detail(&mut self, place: u32) -> Result<Option<Detail>, Failure>
        requires ready { IsOpenStore S.Store self.old }
        ensures found { IfOk result (λ found. IsClean (S.Store.view self.new.store) → (details : Details)
            → HoldsDetails details (S.Store.view self.old.store).trees → option_map detail_view found ≡ finite.get details place) }
        ensures reads { ReadsStore S.Store self.old self.new result }
        ensures cause { SiteFails S.Store self.old.store self.new.store ⊥ ⊥ result }
    {
        self.is_shut = true;
        let found = find_detail(self.alloc, &mut self.store, place)?;
        self.is_shut = false;
        Ok(found)
    }

    /// Sets the detail of the credential at a place. A failure shuts it.
    pub(crate) fn put_detail(&mut self, place: u32, detail: &Detail) -> Result<(), Failure>
        requires ready { IsReadyStore S.Store self.old }
        ensures put { OnOk result (IsClean (S.Store.view self.new.store) → IsDetailed (S.Store.view self.old.store) (S.Store.view self.new.store)
            (λ details. finite.insert details place (detail_view detail.now))) }
        ensures writes { WritesStore S.Store self.old self.new self.old.reserved result }
        ensures cause { SiteFails S.Store self.old.store self.new.store
            (¬ IsStorableRow ((S.Store.view self.old.store).reals detail_tree) (detail_row place (detail_view detail.now))) ⊥ result }
    {
        self.is_shut = true;
        put_detail(self.alloc, &mut self.store, place, detail)?;
        self.is_pending = true;
        self.is_shut = false;
        Ok(())
    }

    /// Sets when the credential at a place was last used. A failure shuts it.
    pub(crate) fn mark_used(&mut self, place: u32, now: i64) -> Result<(), Failure>
        requires ready { IsReadyStore S.Store self.old }
        ensures used { OnOk result (IsClean (S.Store.view self.new.store) → IsDetailed (S.Store.view self.old.store) (S.Store.view self.new.store)
            (λ details. finite.insert details place (used now (finite.get details place)))) }
        ensures writes { WritesStore S.Store self.old self.new self.old.reserved result }
        ensures cause { SiteFails S.Store self.old.store self.new.store
            ((details : Details) → HoldsDetails details (S.Store.view self.old.store).trees → ¬ IsStorableRow ((S.Store.view self.old.store).reals detail_tree) (detail_row place (used now (finite.get details place)))) ⊥ result }
    {
        self.is_shut = true;
        mark_used(self.alloc, &mut self.store, place, now)?;
        self.is_pending = true;
        self.is_shut = false;
        Ok(())
    }

    /// Takes out the detail of the credential at a place. A failure shuts it.
    pub(crate) fn forget(&mut self, place: u32) -> Result<(), Failure>
        requires ready { IsReadyStore S.Store self.old }
        ensures forgotten { OnOk result (IsClean (S.Store.view self.new.store) → IsDetailed (S.Store.view self.old.store) (S.Store.view self.new.store)
            (λ details. finite.remove details place)) }
        ensures writes { WritesStore S.Store self.old self.new self.old.reserved result }
        ensures cause { SiteFails S.Store self.old.store self.new.store ⊥ ⊥ result }
    {
        self.is_shut = true;
        delete_detail(&mut self.store, place)?;
        self.is_pending = true;
        self.is_shut = false;
        Ok(())
    }
}
