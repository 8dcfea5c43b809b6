//! Reading the rows of a tree.

ghost use Rattle.std.specs.Prelude.{◌≡◌, [], IfOk, IsTrue, OnOk, Some, false};
ghost use Rattle.sqlite_trees.specs.View.{IsClean};
ghost use Rattle.site_rows.specs.Held.{HasTrees};
ghost use Rattle.site_stored.specs.Private.{IsAtRest, TakesReals};
ghost use Rattle.site_rows.specs.Calls.{HasCursor, IsQuiet, Reads, StoreFails};
ghost use Rattle.site_rows.specs.Trees.{detail_tree, HasTable};
ghost use Rattle.site_stored.specs.State.{ended_session_tree, ended_user_tree, key_tree, mark_tree, site_tree};
ghost use Rattle.site_stored.specs.Causes.{StartFails};

use crate::trees::{ENDED_SESSION_TREE, ENDED_USER_TREE, KEY_TREE, MARK_TREE, SITE_TREE};
use site_rows::{CREDENTIAL_TREE, DETAIL_TREE, ID_TREE, USER_TREE};
use sqlite_trees::error::StoreError;
use sqlite_trees::store::{Direction, Shape, Store};
use sqlite_value::keys::Order;
use sqlite_value::row::Row;
use std::alloc::Global;

/// Places a cursor at the first row of a tree.
pub(crate) fn begin_scan<S: Store>(
    alloc: Global,
    store: &mut S,
    tree: u32,
) -> Result<(), StoreError>
    ensures first { OnOk result (IsClean (S.Store.view store.new) → (S.Store.view store.new).cursors 0 ≡ Some ((S.Store.view store.old).trees tree)) }
    ensures live { OnOk result (HasCursor (S.Store.view store.new)) }
    ensures reads { Reads S.Store store.old store.new result }
    ensures cause { StoreFails S.Store store.old store.new ⊥ result }
{
    let key = Row::new(alloc);
    store.seek(0, tree, &key, Direction::Forward)?;
    Ok(())
}

/// Whether a tree has no row.
pub(crate) fn is_empty<S: Store>(
    alloc: Global,
    store: &mut S,
    tree: u32,
) -> Result<bool, StoreError>
    ensures empty { IfOk result (λ empty. IsClean (S.Store.view store.new) → IsTrue empty → (S.Store.view store.old).trees tree ≡ []) }
    ensures other { IfOk result (λ empty. IsClean (S.Store.view store.new) → empty ≡ false → (S.Store.view store.old).trees tree ≡ [] → ⊥) }
    ensures reads { Reads S.Store store.old store.new result }
    ensures cause { StoreFails S.Store store.old store.new ⊥ result }
{
    begin_scan(alloc, store, tree)?;
    let mut row = Row::new(alloc);
    let found = store.next(0, &mut row)?;
    Ok(!found)
}

/// Undoes what an earlier transaction has not committed.
pub(crate) fn rest<S: Store>(store: &mut S) -> Result<(), StoreError>
    ensures rests { OnOk result (IsClean (S.Store.view store.new) → IsAtRest (S.Store.view store.new)) }
    ensures reals { OnOk result (TakesReals (S.Store.view store.old) (S.Store.view store.new)) }
    ensures cause { StartFails S.Store store.old store.new ⊥ result }
    ensures quiet { IsQuiet S.Store store.old store.new }
{
    store.rollback();
    if store.is_broken() {
        return Err(StoreError::Broken);
    }
    Ok(())
}

/// Whether the trees have the shapes of a site's.
pub(crate) fn has_trees<S: Store>(store: &S) -> bool
    ensures { IsTrue result → HasTrees (S.Store.view store.now) × HasTable site_tree (S.Store.view store.now)
        × HasTable detail_tree (S.Store.view store.now) × HasTable mark_tree (S.Store.view store.now)
        × HasTable key_tree (S.Store.view store.now) × HasTable ended_session_tree (S.Store.view store.now) × HasTable ended_user_tree (S.Store.view store.now) }
{
    store.shape(CREDENTIAL_TREE) == Shape::Table
        && store.shape(SITE_TREE) == Shape::Table
        && store.shape(ID_TREE) == Shape::Index(Order::PLAIN)
        && store.shape(USER_TREE) == Shape::Index(Order::PLAIN)
        && store.shape(DETAIL_TREE) == Shape::Table
        && store.shape(MARK_TREE) == Shape::Table
        && store.shape(KEY_TREE) == Shape::Table
        && store.shape(ENDED_SESSION_TREE) == Shape::Table
        && store.shape(ENDED_USER_TREE) == Shape::Table
}
