//! The credentials as a list.

ghost use Rattle.std.specs.Prelude.{◌≡◌, ◌≤◌, ◌^◌, ◌-◌, ◌⊎◌, ◌∷◌, IfErr, IfOk, IfSome, List, ℕ, OnOk, None, Some, filter, length};
ghost use Rattle.std.specs.Str.{bytes_eq};
ghost use Rattle.sqlite_value.specs.Order.{Row as Columns};
ghost use Rattle.sqlite_disk.specs.Disk.{MoreFaults};
ghost use Rattle.sqlite_trees.specs.View.{HasCause, IsClean};
ghost use Rattle.site_state.specs.RowViews.{row_view, rows_view};
ghost use Rattle.site_rows.specs.Held.{Holds, Placed, placed_rows, rows_of};
ghost use Rattle.site_rows.specs.Rows.{credential_row};
ghost use Rattle.site_stored.specs.State.{IsHeld};
ghost use Rattle.site_stored.specs.Private.{AreCredentials, IsCredentialRow, HadNoRow};
ghost use Rattle.site_rows.specs.Calls.{HasCursor, Reads, LookUpFails};
ghost use Rattle.site_rows.specs.Trees.{credential_tree};
ghost use Rattle.site_stored.specs.Causes.{AreTooMany, SiteFails};
ghost use Rattle.site_stored.specs.Calls.{ReadsSite};

use crate::failure::Failure;
use crate::kept::StoredSite;
use crate::scan::begin_scan;
use site_rows::{CREDENTIAL_TREE, RowError, int_at, read_credential};
use site_state::Row;
use sqlite_trees::error::StoreError;
use sqlite_trees::store::Store;
use sqlite_value::row::Row as Columns;
use std::alloc::Global;

/// The credential of a row.
fn credential_of(alloc: Global, row: &Columns) -> Result<Row, StoreError>
    ensures read { IfOk result (λ c. (place : ℕ) × (row.now ≡ credential_row place (row_view c))) }
    ensures cause { IfErr result (λ e. (e ≡ StoreError.OutOfMemory) ⊎ ((e ≡ StoreError.Corrupt) × (IsCredentialRow row.now → ⊥))) }
{
    let Some(place) = int_at(row, 0) else {
        return Err(StoreError::Corrupt);
    };
    let Ok(place) = u32::try_from(place) else {
        return Err(StoreError::Corrupt);
    };
    match read_credential(alloc, place, row) {
        Ok(credential) => Ok(credential),
        Err(RowError::BadRow) => Err(StoreError::Corrupt),
        Err(RowError::Memory) => Err(StoreError::OutOfMemory),
    }
}

/// The credential at the cursor; none where none is there.
fn next_credential<S: Store>(
    alloc: Global,
    store: &mut S,
    row: &mut Columns,
) -> Result<Option<Row>, StoreError>
    requires live { HasCursor (S.Store.view store.old) }
    ensures live { OnOk result (HasCursor (S.Store.view store.new)) }
    ensures read { IfOk result (λ found. IfSome found (λ c. IsClean (S.Store.view store.new) → (left : List Columns) → (S.Store.view store.old).cursors 0 ≡ Some left
        → (place : ℕ) × (more : List Columns) × (left ≡ credential_row place (row_view c) ∷ more) × ((S.Store.view store.new).cursors 0 ≡ Some more))) }
    ensures ended { IfOk result (λ found. found ≡ None → HadNoRow (S.Store.view store.old) (S.Store.view store.new)) }
    ensures reads { Reads S.Store store.old store.new result }
    ensures cause { IsClean (S.Store.view store.new) → IfErr result (λ e. HasCause (S.Store.view store.old) (MoreFaults (S.Store.faults store.old) (S.Store.faults store.new)) ⊥ e
        ⊎ ((e ≡ StoreError.Corrupt) × ((left : List Columns) → (S.Store.view store.old).cursors 0 ≡ Some left → AreCredentials left → ⊥))) }
{
    if !store.next(0, row)? {
        return Ok(None);
    }
    let credential = credential_of(alloc, row)?;
    Ok(Some(credential))
}

/// The credentials of a store in order of registration.
fn read_all<S: Store>(alloc: Global, store: &mut S) -> Result<Vec<Row>, StoreError>
    ensures rows { IfOk result (λ rows. IsClean (S.Store.view store.new) → (placed : Placed) → (S.Store.view store.old).trees credential_tree ≡ placed_rows placed
        → rows_view rows.items ≡ rows_of placed) }
    ensures reads { Reads S.Store store.old store.new result }
    ensures cause { LookUpFails S.Store store.old store.new (λ placed. 2 ^ 32 - 1 ≤ length (rows_of placed)) result }
{
    begin_scan(alloc, store, CREDENTIAL_TREE)?;
    let mut row = Columns::new(alloc);
    let mut rows = Vec::new(alloc);
    for _read in 0..u32::MAX {
        let Some(credential) = next_credential(alloc, store, &mut row)? else {
            return Ok(rows);
        };
        rows.push(credential)?;
    }
    Err(StoreError::Corrupt)
}

impl<S: Store> StoredSite<S> {
    /// The credentials in order of registration, retired ones too. It reads each row, and takes memory for each.
    pub fn rows(&mut self) -> Result<Vec<Row>, Failure>
        ensures rows { IfOk result (λ rows. IsClean (S.Store.view self.new.store) → (placed : Placed) → IsHeld placed self.old (S.Store.view self.old.store).trees
            → rows_view rows.items ≡ rows_of placed) }
        ensures reads { ReadsSite S.Store self.old self.new result }
        ensures cause { SiteFails S.Store self.old.store self.new.store
            ⊥ ((placed : Placed) → Holds placed (S.Store.view self.old.store).trees → 2 ^ 32 - 1 ≤ length (rows_of placed)) result }
    {
        if self.held.is_shut {
            return Err(Failure::Shut);
        }
        self.held.is_shut = true;
        let rows = read_all(self.held.alloc, &mut self.held.store)?;
        self.held.is_shut = false;
        Ok(rows)
    }

    /// The credentials of a user in order of registration, retired ones too. It reads these alone, and takes memory for each.
    pub fn rows_of(&mut self, user: &[u8]) -> Result<Vec<Row>, Failure>
        ensures rows { IfOk result (λ rows. IsClean (S.Store.view self.new.store) → (placed : Placed) → IsHeld placed self.old (S.Store.view self.old.store).trees
            → rows_view rows.items ≡ filter (λ c. bytes_eq c.user user.now) (rows_of placed)) }
        ensures reads { ReadsSite S.Store self.old self.new result }
        ensures cause { SiteFails S.Store self.old.store self.new.store ⊥ (AreTooMany user.now (S.Store.view self.old.store).trees) result }
    {
        if self.held.is_shut {
            return Err(Failure::Shut);
        }
        let rows = self.held.find_all(user)?;
        Ok(rows)
    }
}
