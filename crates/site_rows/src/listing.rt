//! The credentials of a user.

ghost use Rattle.std.specs.Prelude.{◌≡◌, ◌≤◌, ◌^◌, ◌-◌, ◌∷◌, ℕ, IfOk, IfSome, List, OnOk, None, Some, filter, length};
ghost use Rattle.std.specs.FinMap as finite;
ghost use Rattle.std.specs.Str.{bytes_eq};
ghost use Rattle.sqlite_value.specs.Order.{Row as Columns};
ghost use Rattle.sqlite_trees.specs.View.{IsClean};
ghost use Rattle.verification.specs.Records.{Credential};
ghost use Rattle.site_state.specs.RowViews.{row_view, rows_view};
ghost use Rattle.site_rows.specs.Held.{HasTrees, Holds, Placed, entry as entry_of, placed_rows, rows_of};
ghost use Rattle.site_rows.specs.Private.{AreEntries, IsPast};
ghost use Rattle.site_rows.specs.Calls.{IfClean, HasCursor, Reads, LookUpFails};
ghost use Rattle.site_rows.specs.Trees.{credential_tree, HasTable};

use crate::entries::{next_place, seek_key};
use crate::finding::credential_at;
use crate::trees::USER_TREE;
use site_state::Row as StoredRow;
use sqlite_trees::error::StoreError;
use sqlite_trees::store::Store;
use sqlite_value::row::Row;
use std::alloc::Global;

/// The credential of the entry at the cursor; none where it is another user's, or where none is left.
fn next_credential<S: Store>(
    alloc: Global,
    store: &mut S,
    user: &[u8],
    entry: &mut Row,
) -> Result<Option<StoredRow>, StoreError>
    requires live { HasCursor (S.Store.view store.old) }
    requires table { IfClean (S.Store.view store.old) (HasTable credential_tree) }
    ensures live { OnOk result (HasCursor (S.Store.view store.new)) }
    ensures read { IfOk result (λ found. IfSome found (λ c. IsClean (S.Store.view store.new) → (left : List Columns) → (S.Store.view store.old).cursors 0 ≡ Some left
        → AreEntries left → (place : ℕ) × (more : List Columns) × (left ≡ entry_of user.now place ∷ more) × ((S.Store.view store.new).cursors 0 ≡ Some more)
        × ((placed : Placed) → (S.Store.view store.old).trees credential_tree ≡ placed_rows placed → finite.get placed place ≡ Some (row_view c)))) }
    ensures past { IfOk result (λ found. found ≡ None → IsClean (S.Store.view store.new) → (left : List Columns) → (S.Store.view store.old).cursors 0 ≡ Some left
        → AreEntries left → IsPast user.now left) }
    ensures reads { Reads S.Store store.old store.new result }
    ensures cause { LookUpFails S.Store store.old store.new
        (λ placed. (left : List Columns) → (S.Store.view store.old).cursors 0 ≡ Some left → AreEntries left → (place : ℕ) × (more : List Columns)
        × (left ≡ entry_of user.now place ∷ more) × ((c : Credential) → finite.get placed place ≡ Some c → ⊥)) result }
{
    let Some(place) = next_place(store, user, entry)? else {
        return Ok(None);
    };
    let credential = credential_at(alloc, store, place)?;
    Ok(Some(credential))
}

/// The credentials of a user in order of registration, retired ones too. It reads these alone, by the index.
///
/// An error is the store's, as of `find`. Nothing has changed but a cursor.
pub fn find_all<S: Store>(
    alloc: Global,
    store: &mut S,
    user: &[u8],
) -> Result<Vec<StoredRow>, StoreError>
    requires trees { IfClean (S.Store.view store.old) HasTrees }
    ensures rows { IfOk result (λ rows. IsClean (S.Store.view store.new) → (placed : Placed) → Holds placed (S.Store.view store.old).trees
        → rows_view rows.items ≡ filter (λ c. bytes_eq c.user user.now) (rows_of placed)) }
    ensures reads { Reads S.Store store.old store.new result }
    ensures cause { LookUpFails S.Store store.old store.new (λ placed. 2 ^ 32 - 1 ≤ length (filter (λ c. bytes_eq c.user user.now) (rows_of placed))) result }
{
    seek_key(alloc, store, USER_TREE, user)?;
    let mut entry = Row::new(alloc);
    let mut rows = Vec::new(alloc);
    for _read in 0..u32::MAX {
        let Some(credential) = next_credential(alloc, store, user, &mut entry)? else {
            return Ok(rows);
        };
        rows.push(credential)?;
    }
    Err(StoreError::Corrupt)
}
