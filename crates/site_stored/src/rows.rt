//! The row of the relying party.

ghost use Rattle.std.specs.Prelude.{◌≡◌, ◌≤◌, ℕ, IfOk, OnOk};
ghost use Rattle.sqlite_trees.specs.Tree.{put_row};
ghost use Rattle.sqlite_trees.specs.View.{IsClean, SetsTree};
ghost use Rattle.site_rows.specs.Held.{Placed};
ghost use Rattle.site_stored.specs.Causes.{RefusesNumber};
ghost use Rattle.site_stored.specs.State.{HoldsSite, moved_on, site_row, site_row_of, to_commit, site_tree, FitsColumn};
ghost use Rattle.site_rows.specs.Calls.{IfClean, Writes, StoreFails};
ghost use Rattle.site_rows.specs.Trees.{HasTable};
ghost use Rattle.site_stored.specs.Private.{GoesOn};

use crate::trees::SITE_TREE;
use sqlite_trees::error::StoreError;
use sqlite_trees::store::Store;
use sqlite_value::row::Row;
use sqlite_value::value::ValueRef;
use std::alloc::{AllocError, Global};

/// The version of a file.
pub(crate) const VERSION: i64 = 4;

/// The row of a relying party in a file of a version, none of whose sessions had this number or a higher one.
pub fn site_row_of(alloc: Global, version: u64, rp_id: &str, next: u64) -> Result<Row, AllocError>
    requires version { version ≤ 4 }
    requires fits { FitsColumn next }
    ensures row { IfOk result (λ row. row ≡ site_row_of version rp_id.now next) }
{
    let mut row = Row::new(alloc);
    row.push(ValueRef::Int(1))?;
    row.push(ValueRef::Null)?;
    row.push(ValueRef::Int(version as i64))?;
    row.push(ValueRef::Text(rp_id.as_bytes()))?;
    row.push(ValueRef::Int(next as i64))?;
    Ok(row)
}

/// The same in a file of this version.
pub(crate) fn site_row(alloc: Global, rp_id: &str, next: u64) -> Result<Row, AllocError>
    requires fits { FitsColumn next }
    ensures row { IfOk result (λ row. row ≡ site_row rp_id.now next) }
{
    site_row_of(alloc, VERSION as u64, rp_id, next)
}

/// How many numbers are reserved at a time.
pub(crate) const BLOCK: u64 = 1_000;

/// The number below which all may be given once more are reserved, as far as a column holds it.
pub(crate) fn moved_on(reserved: u64) -> u64
    requires fits { FitsColumn reserved }
    ensures moved { result ≡ moved_on reserved }
    ensures above { GoesOn reserved result }
{
    if reserved < (1 << 63) - BLOCK {
        reserved + BLOCK
    } else {
        reserved
    }
}

/// The number that a commit writes, where this one is committed and that one reserved.
pub(crate) fn to_commit(durable: u64, reserved: u64) -> u64
    requires fits { FitsColumn reserved }
    ensures moved { result ≡ to_commit durable reserved }
    ensures above { GoesOn reserved result }
{
    if durable < reserved {
        reserved
    } else {
        moved_on(reserved)
    }
}

/// Reserves the numbers below one.
pub(crate) fn reserve<S: Store>(
    alloc: Global,
    store: &mut S,
    rp_id: &str,
    next: u64,
) -> Result<(), StoreError>
    requires fits { FitsColumn next }
    requires table { IfClean (S.Store.view store.old) (HasTable site_tree) }
    ensures reserved { OnOk result (IsClean (S.Store.view store.new) → (placed : Placed) (was : ℕ) → HoldsSite placed rp_id.now was (S.Store.view store.old).trees
        → HoldsSite placed rp_id.now next (S.Store.view store.new).trees) }
    ensures set { OnOk result (IsClean (S.Store.view store.new) → SetsTree (S.Store.view store.old) (S.Store.view store.new) site_tree (put_row (site_row rp_id.now next))) }
    ensures writes { Writes S.Store store.old store.new result }
    ensures cause { StoreFails S.Store store.old store.new (RefusesNumber (S.Store.view store.old).reals rp_id.now next) result }
{
    let row = site_row(alloc, rp_id, next)?;
    store.put(SITE_TREE, &row)
}
