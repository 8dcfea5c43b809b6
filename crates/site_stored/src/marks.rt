//! The marks of commits, which tie a log to its file.

ghost use Rattle.std.specs.Prelude.{◌≡◌, ℕ, pos, List, [], ◌∷◌, IfOk, OnOk};
ghost use Rattle.sqlite_value.specs.declared.value.Value.TheVariants.{Null, Int, Blob};
ghost use Rattle.sqlite_trees.specs.Tree.{put_row};
ghost use Rattle.sqlite_trees.specs.View.{IsClean, IsStorableRow, SetsTree};
ghost use Rattle.site_rows.specs.Held.{Placed};
ghost use Rattle.site_stored.specs.State.{HasMark, HoldsSite, mark_after, mark_row, mark_tree};
ghost use Rattle.site_rows.specs.Calls.{IfClean, Reads, Writes, StoreFails};
ghost use Rattle.site_rows.specs.Trees.{HasTable};
ghost use Rattle.site_stored.specs.Private.{ReadingFails, LacksMemory, IsNotOlder};

use crate::failure::OpenFailure;
use crate::trees::MARK_TREE;
use sqlite_trees::error::StoreError;
use sqlite_trees::store::Store;
use sqlite_value::row::Row;
use sqlite_value::value::ValueRef;
use std::alloc::{AllocError, Global};

/// The sum of a mark is a multiple of this number.
const TIMES: u128 = 11_400_714_819_323_198_485;

/// The row with these bytes.
fn row_with(alloc: Global, mark: &[u8], follows: &[u8], sum: &[u8]) -> Result<Row, AllocError>
    ensures row { IfOk result (λ row. row ≡ Int (pos 1) ∷ Null ∷ Blob mark.now ∷ Blob follows.now ∷ Blob sum.now ∷ []) }
{
    let mut row = Row::new(alloc);
    row.push(ValueRef::Int(1))?;
    row.push(ValueRef::Null)?;
    row.push(ValueRef::Blob(mark))?;
    row.push(ValueRef::Blob(follows))?;
    row.push(ValueRef::Blob(sum))?;
    Ok(row)
}

/// The row of a commit that has a mark, and follows another.
fn mark_row(alloc: Global, mark: u64, follows: u64) -> Result<Row, AllocError>
    ensures row { IfOk result (λ row. row ≡ mark_row mark follows) }
{
    let sum = u128::from(mark) * TIMES;
    row_with(
        alloc,
        &mark.to_be_bytes(),
        &follows.to_be_bytes(),
        &sum.to_be_bytes(),
    )
}

/// Writes the row of a commit.
pub(crate) fn write_mark<S: Store>(
    alloc: Global,
    store: &mut S,
    mark: u64,
    follows: u64,
) -> Result<(), StoreError>
    requires table { IfClean (S.Store.view store.old) (HasTable mark_tree) }
    ensures held { OnOk result (IsClean (S.Store.view store.new) → (placed : Placed) (rp_id : List ℕ) (next : ℕ) → HoldsSite placed rp_id next (S.Store.view store.old).trees
        → HoldsSite placed rp_id next (S.Store.view store.new).trees) }
    ensures set { OnOk result (IsClean (S.Store.view store.new) → SetsTree (S.Store.view store.old) (S.Store.view store.new) mark_tree (put_row (mark_row mark follows))) }
    ensures writes { Writes S.Store store.old store.new result }
    ensures cause { StoreFails S.Store store.old store.new (¬ IsStorableRow ((S.Store.view store.old).reals mark_tree) (mark_row mark follows)) result }
{
    let row = mark_row(alloc, mark, follows)?;
    store.put(MARK_TREE, &row)
}

/// The number of 8 bytes in a column.
fn number_in(row: &Row, at: usize) -> Option<u64> {
    let ValueRef::Blob(bytes) = row.get(at) else {
        return None;
    };
    let Ok(bytes) = <[u8; 8]>::try_from(bytes) else {
        return None;
    };
    Some(u64::from_be_bytes(bytes))
}

/// That a row is that of a commit that has a mark, and follows another.
fn check_row(alloc: Global, row: &Row, mark: u64, follows: u64) -> Result<(), OpenFailure>
    ensures row { OnOk result (row.now ≡ mark_row mark follows) }
    ensures age { IsNotOlder result }
    ensures cause { LacksMemory result }
{
    let written = mark_row(alloc, mark, follows)?;
    if !row.is_same(&written) {
        return Err(OpenFailure::BadRow);
    }
    Ok(())
}

/// The mark in the row of a commit.
fn mark_in(alloc: Global, row: &Row) -> Result<u64, OpenFailure>
    ensures row { IfOk result (λ mark. (follows : ℕ) × (row.now ≡ mark_row mark follows)) }
    ensures age { IsNotOlder result }
    ensures cause { LacksMemory result }
{
    let (Some(mark), Some(follows)) = (number_in(row, 2), number_in(row, 3)) else {
        return Err(OpenFailure::BadRow);
    };
    check_row(alloc, row, mark, follows)?;
    Ok(mark)
}

/// The mark of the last commit; 0 where nothing was committed since the table was made.
pub(crate) fn read_mark<S: Store>(alloc: Global, store: &mut S) -> Result<u64, OpenFailure>
    requires table { IfClean (S.Store.view store.old) (HasTable mark_tree) }
    ensures mark { IfOk result (λ mark. IsClean (S.Store.view store.new) → HasMark mark (S.Store.view store.old).trees) }
    ensures reads { Reads S.Store store.old store.new result }
    ensures age { IsNotOlder result }
    ensures cause { ReadingFails S.Store store.old store.new result }
{
    let mut row = Row::new(alloc);
    if !store.get(MARK_TREE, 1, &mut row)? {
        return Ok(0);
    }
    mark_in(alloc, &row)
}

/// The mark of the commit after one.
pub(crate) fn mark_after(mark: u64) -> u64
    ensures { result ≡ mark_after mark }
{
    if mark < u64::MAX { mark + 1 } else { 0 }
}
