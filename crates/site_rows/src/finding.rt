//! Finding a credential.

ghost use Rattle.std.specs.Prelude.{◌≡◌, IfOk, IfSome, OnOk, None, Some};
ghost use Rattle.std.specs.FinMap as finite;
ghost use Rattle.sqlite_trees.specs.View.{IsClean, StayLive};
ghost use Rattle.verification.specs.Views.{credential_view};
ghost use Rattle.site_state.specs.RowViews.{row_view};
ghost use Rattle.verification.specs.Records.{Credential};
ghost use Rattle.site_rows.specs.Held.{HasNone, HasTrees, Holds, IsAt, Placed, placed_rows};
ghost use Rattle.site_rows.specs.Calls.{IfClean, Reads, LookUpFails};
ghost use Rattle.site_rows.specs.Trees.{credential_tree, HasTable};

use crate::credentials::read_credential;
use crate::entries::{first_place, rowid_of};
use crate::error::RowError;
use crate::trees::{CREDENTIAL_TREE, ID_TREE};
use site_state::Row as StoredRow;
use sqlite_trees::error::StoreError;
use sqlite_trees::store::Store;
use sqlite_value::row::Row;
use std::alloc::Global;
use verification::RowView;

/// A credential where it stands.
#[derive(Drop)]
pub struct Found {
    /// Its place, which rises in order of registration.
    pub place: u32,
    /// The credential.
    pub credential: StoredRow,
}

/// A credential, lent.
pub fn lent(row: &StoredRow) -> RowView<'_>
    ensures { credential_view result ≡ row_view row.now }
{
    RowView {
        id: &row.id,
        user: &row.user,
        key: row.key.view(),
        sign_count: row.sign_count,
        eligible: row.eligible,
        retired: row.retired,
    }
}

/// The credential at a place; an error of the store's where none is there, or its row is no credential's.
pub(crate) fn credential_at<S: Store>(
    alloc: Global,
    store: &mut S,
    place: u32,
) -> Result<StoredRow, StoreError>
    requires table { IfClean (S.Store.view store.old) (HasTable credential_tree) }
    ensures there { IfOk result (λ c. IsClean (S.Store.view store.new) → (placed : Placed)
        → (S.Store.view store.old).trees credential_tree ≡ placed_rows placed → finite.get placed place ≡ Some (row_view c)) }
    ensures cursors { OnOk result (IsClean (S.Store.view store.new) → S.Store.view store.new ≡ S.Store.view store.old) }
    ensures live { OnOk result (StayLive (S.Store.view store.old) (S.Store.view store.new)) }
    ensures reads { Reads S.Store store.old store.new result }
    ensures cause { LookUpFails S.Store store.old store.new (λ placed. (c : Credential) → finite.get placed place ≡ Some c → ⊥) result }
{
    let mut row = Row::new(alloc);
    if !store.get(CREDENTIAL_TREE, rowid_of(place), &mut row)? {
        return Err(StoreError::Corrupt);
    }
    match read_credential(alloc, place, &row) {
        Ok(credential) => Ok(credential),
        Err(RowError::BadRow) => Err(StoreError::Corrupt),
        Err(RowError::Memory) => Err(StoreError::OutOfMemory),
    }
}

/// The credential of an id, with its place; none where no credential has it.
///
/// An error is the store's: `Corrupt` also where the trees are none that hold credentials. Nothing has changed but a cursor.
pub fn find<S: Store>(alloc: Global, store: &mut S, id: &[u8]) -> Result<Option<Found>, StoreError>
    requires trees { IfClean (S.Store.view store.old) HasTrees }
    ensures found { IfOk result (λ found. IfSome found (λ x. IsClean (S.Store.view store.new) → (placed : Placed)
        → Holds placed (S.Store.view store.old).trees → IsAt placed id.now x.place (row_view x.credential))) }
    ensures none { IfOk result (λ found. found ≡ None → IsClean (S.Store.view store.new) → (placed : Placed)
        → Holds placed (S.Store.view store.old).trees → HasNone placed id.now) }
    ensures reads { Reads S.Store store.old store.new result }
    ensures cause { LookUpFails S.Store store.old store.new (λ _. ⊥) result }
{
    let Some(place) = first_place(alloc, store, ID_TREE, id)? else {
        return Ok(None);
    };
    let credential = credential_at(alloc, store, place)?;
    Ok(Some(Found { place, credential }))
}
