//! Writing credentials, within the transaction that is begun.

ghost use Rattle.std.specs.Prelude.{◌≡◌, OnOk, None, Some};
ghost use Rattle.std.specs.FinMap as finite;
ghost use Rattle.sqlite_trees.specs.View.{IsClean, IsStorableRow};
ghost use Rattle.verification.specs.Records.{Credential};
ghost use Rattle.verification.specs.Views.{credential_view};
ghost use Rattle.site_rows.specs.Causes.{IsRefused};
ghost use Rattle.site_rows.specs.Rows.{credential_row as row_of};
ghost use Rattle.site_rows.specs.Held.{HasNone, HasTrees, Holds, IsWritten, Placed};
ghost use Rattle.site_rows.specs.Calls.{IfClean, Writes, StoreFails};
ghost use Rattle.site_rows.specs.Trees.{credential_tree};

use crate::credentials::credential_row;
use crate::entries::{entry, rowid_of};
use crate::trees::{CREDENTIAL_TREE, ID_TREE, USER_TREE};
use sqlite_trees::error::StoreError;
use sqlite_trees::store::Store;
use std::alloc::Global;
use verification::RowView;

/// Adds a credential, at a place where none stands and with an id that none has.
///
/// An error is the store's, and the transaction may then be written in part: it is to be rolled back.
pub fn add<S: Store>(
    alloc: Global,
    store: &mut S,
    place: u32,
    credential: &RowView<'_>,
) -> Result<(), StoreError>
    requires trees { IfClean (S.Store.view store.old) HasTrees }
    ensures added { OnOk result (IsClean (S.Store.view store.new) → (placed : Placed) → Holds placed (S.Store.view store.old).trees
        → finite.get placed place ≡ None → HasNone placed (credential_view credential.now).id
        → IsWritten (S.Store.view store.old) (S.Store.view store.new) (finite.insert placed place (credential_view credential.now))) }
    ensures writes { Writes S.Store store.old store.new result }
    ensures cause { StoreFails S.Store store.old store.new (IsRefused (S.Store.view store.old).reals place (credential_view credential.now)) result }
{
    let row = credential_row(alloc, place, credential)?;
    let by_id = entry(alloc, credential.id, place)?;
    let by_user = entry(alloc, credential.user, place)?;
    store.put(CREDENTIAL_TREE, &row)?;
    store.insert(ID_TREE, &by_id)?;
    store.insert(USER_TREE, &by_user)
}

/// Sets the credential at a place, whose id and user stay.
///
/// An error is the store's, as of `add`.
pub fn set<S: Store>(
    alloc: Global,
    store: &mut S,
    place: u32,
    credential: &RowView<'_>,
) -> Result<(), StoreError>
    requires trees { IfClean (S.Store.view store.old) HasTrees }
    ensures set { OnOk result (IsClean (S.Store.view store.new) → (placed : Placed) (was : Credential) → Holds placed (S.Store.view store.old).trees
        → finite.get placed place ≡ Some was → (credential_view credential.now).id ≡ was.id → (credential_view credential.now).user ≡ was.user
        → IsWritten (S.Store.view store.old) (S.Store.view store.new) (finite.insert placed place (credential_view credential.now))) }
    ensures writes { Writes S.Store store.old store.new result }
    ensures cause { StoreFails S.Store store.old store.new
        (¬ IsStorableRow ((S.Store.view store.old).reals credential_tree) (row_of place (credential_view credential.now))) result }
{
    let row = credential_row(alloc, place, credential)?;
    store.put(CREDENTIAL_TREE, &row)
}

/// Takes out the credential at a place.
///
/// An error is the store's, as of `add`.
pub fn remove<S: Store>(
    alloc: Global,
    store: &mut S,
    place: u32,
    credential: &RowView<'_>,
) -> Result<(), StoreError>
    requires trees { IfClean (S.Store.view store.old) HasTrees }
    ensures removed { OnOk result (IsClean (S.Store.view store.new) → (placed : Placed) → Holds placed (S.Store.view store.old).trees
        → finite.get placed place ≡ Some (credential_view credential.now)
        → IsWritten (S.Store.view store.old) (S.Store.view store.new) (finite.remove placed place)) }
    ensures writes { Writes S.Store store.old store.new result }
    ensures cause { StoreFails S.Store store.old store.new ⊥ result }
{
    let by_id = entry(alloc, credential.id, place)?;
    let by_user = entry(alloc, credential.user, place)?;
    store.delete(CREDENTIAL_TREE, rowid_of(place))?;
    store.remove(ID_TREE, &by_id)?;
    store.remove(USER_TREE, &by_user)
}
