//! The store of a site.

ghost use Rattle.std.specs.Prelude.{◌≡◌, [], ◌∷◌, ◌⊎◌, ◌+◌, ◌≤◌, ℕ, List, IfOk, OnOk, None, Some, false};
ghost use Rattle.std.specs.FinMap as finite;
ghost use Rattle.sqlite_trees.specs.Tree.{Trees};
ghost use Rattle.sqlite_trees.specs.View.{IsClean, IsStorableRow};
ghost use Rattle.verification.specs.Records.{Credential};
ghost use Rattle.verification.specs.Views.{credential_view};
ghost use Rattle.site_state.specs.RowViews.{rows_view};
ghost use Rattle.site_rows.specs.Causes.{IsRefused};
ghost use Rattle.site_rows.specs.Rows.{credential_row};
ghost use Rattle.site_rows.specs.Held.{HasNone, Holds, IsWritten, Placed};
ghost use Rattle.site_stored.specs.Calls.{KeepsBeside};
ghost use Rattle.site_stored.specs.Causes.{AreTooMany, IsDamaged, RefusesNumber, SiteFails};
ghost use Rattle.site_stored.specs.Private.{AreUsers, IsFoundAs, TellsHad, IsReadyStore, IsOpenStore, FailsShut, ReadsStore, WritesStore, LeavesStore};
ghost use Rattle.site_stored.specs.State.{HoldsSite, IsReady, mark_row, with_mark, with_site, mark_tree, site_tree, FitsColumn};
ghost use Rattle.site_rows.specs.Trees.{credential_tree};

use crate::failure::Failure;
use crate::marks::write_mark;
use crate::rows::{BLOCK, reserve};
use site_rows::Found;
use site_state::Row;
use sqlite_trees::store::Store;
use std::alloc::Global;
use verification::RowView;

/// The store of a site, the number below which all may have been given, the same by what is committed, whether something is written that is not committed, and whether a failure has shut it.
#[derive(Drop)]
pub(crate) struct SiteStore<S: Store> {
    pub(crate) alloc: Global,
    pub(crate) store: S,
    pub(crate) reserved: u64,
    pub(crate) durable: u64,
    pub(crate) is_pending: bool,
    pub(crate) is_shut: bool,
}

impl<S: Store> SiteStore<S> {
    /// The credential of an id, with its place. A failure shuts it.
    pub(crate) fn find(&mut self, id: &[u8]) -> Result<Option<Found>, Failure>
        requires ready { IsOpenStore S.Store self.old }
        ensures found { IfOk result (λ found. IsClean (S.Store.view self.new.store) → (placed : Placed)
            → Holds placed (S.Store.view self.old.store).trees → IsFoundAs placed id.now found) }
        ensures reads { ReadsStore S.Store self.old self.new result }
        ensures cause { SiteFails S.Store self.old.store self.new.store ⊥ (IsDamaged (S.Store.view self.old.store).trees) result }
    {
        self.is_shut = true;
        let found = site_rows::find(self.alloc, &mut self.store, id)?;
        self.is_shut = false;
        Ok(found)
    }

    /// The credentials of a user, in order of registration. A failure shuts it.
    pub(crate) fn find_all(&mut self, user: &[u8]) -> Result<Vec<Row>, Failure>
        requires ready { IsOpenStore S.Store self.old }
        ensures rows { IfOk result (λ rows. IsClean (S.Store.view self.new.store) → (placed : Placed)
            → Holds placed (S.Store.view self.old.store).trees → AreUsers user.now placed (rows_view rows.items)) }
        ensures reads { ReadsStore S.Store self.old self.new result }
        ensures cause { SiteFails S.Store self.old.store self.new.store ⊥ (AreTooMany user.now (S.Store.view self.old.store).trees) result }
    {
        self.is_shut = true;
        let rows = site_rows::find_all(self.alloc, &mut self.store, user)?;
        self.is_shut = false;
        Ok(rows)
    }

    /// Whether a credential has an id. A failure shuts it.
    pub(crate) fn has(&mut self, id: &[u8]) -> Result<bool, Failure>
        requires ready { IsOpenStore S.Store self.old }
        ensures told { IfOk result (λ had. IsClean (S.Store.view self.new.store) → (placed : Placed)
            → Holds placed (S.Store.view self.old.store).trees → TellsHad placed id.now had) }
        ensures reads { ReadsStore S.Store self.old self.new result }
        ensures cause { SiteFails S.Store self.old.store self.new.store ⊥ (IsDamaged (S.Store.view self.old.store).trees) result }
    {
        let found = self.find(id)?;
        Ok(found.is_some())
    }

    /// Sets the credential at a place, whose id and user stay. A failure shuts it.
    pub(crate) fn set(&mut self, place: u32, credential: &RowView<'_>) -> Result<(), Failure>
        requires ready { IsReadyStore S.Store self.old }
        ensures written { OnOk result (IsClean (S.Store.view self.new.store) → (placed : Placed) (was : Credential) → Holds placed (S.Store.view self.old.store).trees
            → finite.get placed place ≡ Some was → (credential_view credential.now).id ≡ was.id → (credential_view credential.now).user ≡ was.user
            → IsWritten (S.Store.view self.old.store) (S.Store.view self.new.store) (finite.insert placed place (credential_view credential.now))) }
        ensures writes { WritesStore S.Store self.old self.new self.old.reserved result }
        ensures cause { SiteFails S.Store self.old.store self.new.store
            (¬ IsStorableRow ((S.Store.view self.old.store).reals credential_tree) (credential_row place (credential_view credential.now))) ⊥ result }
    {
        self.is_shut = true;
        site_rows::set(self.alloc, &mut self.store, place, credential)?;
        self.is_pending = true;
        self.is_shut = false;
        Ok(())
    }

    /// Adds a credential. A failure shuts it.
    pub(crate) fn add(&mut self, place: u32, credential: &RowView<'_>) -> Result<(), Failure>
        requires ready { IsReadyStore S.Store self.old }
        ensures written { OnOk result (IsClean (S.Store.view self.new.store) → (placed : Placed) → Holds placed (S.Store.view self.old.store).trees
            → finite.get placed place ≡ None → HasNone placed (credential_view credential.now).id
            → IsWritten (S.Store.view self.old.store) (S.Store.view self.new.store) (finite.insert placed place (credential_view credential.now))) }
        ensures writes { WritesStore S.Store self.old self.new self.old.reserved result }
        ensures cause { SiteFails S.Store self.old.store self.new.store (IsRefused (S.Store.view self.old.store).reals place (credential_view credential.now)) ⊥ result }
    {
        self.is_shut = true;
        site_rows::add(self.alloc, &mut self.store, place, credential)?;
        self.is_pending = true;
        self.is_shut = false;
        Ok(())
    }

    /// Takes out the credential at a place. A failure shuts it.
    pub(crate) fn remove(&mut self, place: u32, credential: &RowView<'_>) -> Result<(), Failure>
        requires ready { IsReadyStore S.Store self.old }
        ensures written { OnOk result (IsClean (S.Store.view self.new.store) → (placed : Placed) → Holds placed (S.Store.view self.old.store).trees
            → finite.get placed place ≡ Some (credential_view credential.now)
            → IsWritten (S.Store.view self.old.store) (S.Store.view self.new.store) (finite.remove placed place)) }
        ensures writes { WritesStore S.Store self.old self.new self.old.reserved result }
        ensures cause { SiteFails S.Store self.old.store self.new.store ⊥ ⊥ result }
    {
        self.is_shut = true;
        site_rows::remove(self.alloc, &mut self.store, place, credential)?;
        self.is_pending = true;
        self.is_shut = false;
        Ok(())
    }

    /// Reserves the numbers below one. A failure shuts it.
    pub(crate) fn reserve(&mut self, rp_id: &str, reserved: u64) -> Result<(), Failure>
        requires fits { FitsColumn reserved }
        requires ready { IsReadyStore S.Store self.old }
        ensures held { OnOk result (IsClean (S.Store.view self.new.store) → (placed : Placed) (was : ℕ) → HoldsSite placed rp_id.now was (S.Store.view self.old.store).trees
            → HoldsSite placed rp_id.now self.new.reserved (S.Store.view self.new.store).trees) }
        ensures trees { OnOk result (IsClean (S.Store.view self.new.store)
            → (S.Store.view self.new.store).trees ≡ with_site rp_id.now reserved (S.Store.view self.old.store).trees) }
        ensures writes { WritesStore S.Store self.old self.new reserved result }
        ensures cause { SiteFails S.Store self.old.store self.new.store (RefusesNumber (S.Store.view self.old.store).reals rp_id.now reserved) ⊥ result }
    {
        self.is_shut = true;
        reserve(self.alloc, &mut self.store, rp_id, reserved)?;
        self.reserved = reserved;
        self.is_pending = true;
        self.is_shut = false;
        Ok(())
    }

    /// Writes the row of the commit that is to come. A failure shuts it.
    pub(crate) fn put_mark(&mut self, mark: u64, follows: u64) -> Result<(), Failure>
        requires ready { IsReadyStore S.Store self.old }
        ensures held { OnOk result (IsClean (S.Store.view self.new.store) → (placed : Placed) (rp_id : List ℕ) (next : ℕ) → HoldsSite placed rp_id next (S.Store.view self.old.store).trees
            → HoldsSite placed rp_id next (S.Store.view self.new.store).trees) }
        ensures trees { OnOk result (IsClean (S.Store.view self.new.store)
            → (S.Store.view self.new.store).trees ≡ with_mark mark follows (S.Store.view self.old.store).trees) }
        ensures writes { WritesStore S.Store self.old self.new self.old.reserved result }
        ensures cause { SiteFails S.Store self.old.store self.new.store
            (¬ IsStorableRow ((S.Store.view self.old.store).reals mark_tree) (mark_row mark follows)) ⊥ result }
    {
        self.is_shut = true;
        write_mark(self.alloc, &mut self.store, mark, follows)?;
        self.is_pending = true;
        self.is_shut = false;
        Ok(())
    }

    /// Reserves more numbers where the next one is above those that are reserved. A failure shuts it.
    pub(crate) fn reserve_for(&mut self, rp_id: &str, next: u64) -> Result<(), Failure>
        requires near { self.old.is_shut ≡ false → next ≤ self.old.reserved + 1 }
        requires fits { FitsColumn (next + 1000) }
        requires reserved { FitsColumn self.old.reserved }
        requires ready { IsOpenStore S.Store self.old }
        ensures reserved { OnOk result (next ≤ self.new.reserved) }
        ensures above { OnOk result (self.old.reserved ≤ self.new.reserved) }
        ensures fits { FitsColumn self.new.reserved }
        ensures held { OnOk result (IsClean (S.Store.view self.new.store) → (placed : Placed) → HoldsSite placed rp_id.now self.old.reserved (S.Store.view self.old.store).trees
            → HoldsSite placed rp_id.now self.new.reserved (S.Store.view self.new.store).trees) }
        ensures beside { OnOk result (IsClean (S.Store.view self.new.store)
            → KeepsBeside (site_tree ∷ []) (S.Store.view self.old.store).trees (S.Store.view self.new.store).trees) }
        ensures leaves { LeavesStore S.Store self.old self.new result }
        ensures durable { self.new.durable ≡ self.old.durable }
        ensures failed { FailsShut self.old self.new result }
        ensures cause { SiteFails S.Store self.old.store self.new.store (RefusesNumber (S.Store.view self.old.store).reals rp_id.now (next + 999)) ⊥ result }
    {
        if next <= self.reserved {
            return Ok(());
        }
        self.reserve(rp_id, next + BLOCK - 1)?;
        Ok(())
    }

    /// Commits what is written. A failure shuts it.
    pub(crate) fn commit(&mut self) -> Result<(), Failure>
        requires ready { IsReadyStore S.Store self.old }
        ensures same { OnOk result (IsClean (S.Store.view self.new.store) → (S.Store.view self.new.store).trees ≡ (S.Store.view self.old.store).trees) }
        ensures ready { OnOk result (IsClean (S.Store.view self.new.store) → IsReady (S.Store.view self.new.store) false) }
        ensures clean { IsClean (S.Store.view self.new.store) → IsClean (S.Store.view self.old.store) }
        ensures open { OnOk result ((self.new.is_shut ≡ false) × (self.new.is_pending ≡ false) × (self.new.reserved ≡ self.old.reserved) × (self.new.durable ≡ self.old.reserved)) }
        ensures failed { FailsShut self.old self.new result }
        ensures cause { SiteFails S.Store self.old.store self.new.store ⊥ ⊥ result }
        ensures counts { S.Store.faults self.old.store ≤ S.Store.faults self.new.store }
        ensures crash { (db : Trees) → S.Store.recovers self.new.store db
            → (IsClean (S.Store.view self.old.store) × (db ≡ (S.Store.view self.old.store).trees)) ⊎ S.Store.recovers self.old.store db }
    {
        self.is_shut = true;
        self.store.commit()?;
        self.durable = self.reserved;
        self.is_pending = false;
        self.is_shut = false;
        Ok(())
    }
}
