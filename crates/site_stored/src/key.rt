//! The key under which a site seals its sessions, as a row of its store.

ghost use Rattle.std.specs.Prelude.{◌≡◌, IfOk, IfSome, OnOk, length};
ghost use Rattle.sqlite_trees.specs.Tree.{put_row};
ghost use Rattle.sqlite_trees.specs.View.{IsClean, IsStorableRow, SetsTree};
ghost use Rattle.site_rows.specs.Calls.{IfClean, Reads, StoreFails, Writes};
ghost use Rattle.site_rows.specs.Trees.{HasTable};
ghost use Rattle.site_stored.specs.Private.{IsNotOlder, LacksMemory, ReadingFails};
ghost use Rattle.site_stored.specs.State.{HasKey, key_row, key_tree};

use crate::failure::OpenFailure;
use crate::trees::KEY_TREE;
use site_rows::blob_at;
use sqlite_trees::error::StoreError;
use sqlite_trees::store::Store;
use sqlite_value::row::Row;
use sqlite_value::value::ValueRef;
use std::alloc::{AllocError, Global};

/// The row of a key.
fn key_row(alloc: Global, key: &[u8; 32]) -> Result<Row, AllocError>
    ensures row { IfOk result (λ row. row ≡ key_row key.now) }
{
    let mut row = Row::new(alloc);
    row.push(ValueRef::Int(1))?;
    row.push(ValueRef::Null)?;
    row.push(ValueRef::Blob(key))?;
    Ok(row)
}

/// Writes the row of a key.
pub(crate) fn write_key<S: Store>(
    alloc: Global,
    store: &mut S,
    key: &[u8; 32],
) -> Result<(), StoreError>
    requires table { IfClean (S.Store.view store.old) (HasTable key_tree) }
    ensures set { OnOk result (IsClean (S.Store.view store.new) → SetsTree (S.Store.view store.old) (S.Store.view store.new) key_tree (put_row (key_row key.now))) }
    ensures writes { Writes S.Store store.old store.new result }
    ensures cause { StoreFails S.Store store.old store.new (¬ IsStorableRow ((S.Store.view store.old).reals key_tree) (key_row key.now)) result }
{
    let row = key_row(alloc, key)?;
    store.put(KEY_TREE, &row)
}

/// The key in a row.
fn key_in(row: &Row) -> Option<[u8; 32]> {
    <[u8; 32]>::try_from(blob_at(row, 2)?).ok()
}

/// The key in a row, which is one that a site has written.
fn read_row(alloc: Global, row: &Row) -> Result<[u8; 32], OpenFailure>
    ensures row { IfOk result (λ key. row.now ≡ key_row key) }
    ensures age { IsNotOlder result }
    ensures cause { LacksMemory result }
{
    let Some(key) = key_in(row) else {
        return Err(OpenFailure::BadRow);
    };
    let written = key_row(alloc, &key)?;
    if !row.is_same(&written) {
        return Err(OpenFailure::BadRow);
    }
    Ok(key)
}

/// The key of the site that a store holds.
pub(crate) fn read_key<S: Store>(alloc: Global, store: &mut S) -> Result<[u8; 32], OpenFailure>
    requires table { IfClean (S.Store.view store.old) (HasTable key_tree) }
    ensures key { IfOk result (λ key. IsClean (S.Store.view store.new) → HasKey key (S.Store.view store.old).trees) }
    ensures reads { Reads S.Store store.old store.new result }
    ensures age { IsNotOlder result }
    ensures cause { ReadingFails S.Store store.old store.new result }
{
    let mut row = Row::new(alloc);
    if !store.get(KEY_TREE, 1, &mut row)? {
        return Err(OpenFailure::NoSite);
    }
    read_row(alloc, &row)
}
