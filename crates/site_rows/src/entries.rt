//! Entries of an index.

ghost use Rattle.std.specs.Prelude.{◌≡◌, ◌<◌, ◌^◌, [], ◌∷◌, ℕ, pos, IfOk, IfSome, OnOk, List, None, Some};
ghost use Rattle.sqlite_value.specs.Keys.{plain};
ghost use Rattle.sqlite_value.specs.Order.{Row as Columns};
ghost use Rattle.sqlite_value.specs.declared.value.Value.TheVariants.{Blob};
ghost use Rattle.sqlite_trees.specs.Tree.{IsIndex, from_key};
ghost use Rattle.sqlite_trees.specs.View.{IsClean};
ghost use Rattle.site_rows.specs.Held.{Stands, entry as entry_of};
ghost use Rattle.site_rows.specs.Private.{AreEntries, IsPast};
ghost use Rattle.site_rows.specs.Calls.{IfClean, HasCursor, Reads, StoreFails};
ghost use Rattle.site_rows.specs.Trees.{HasIndex};

use crate::values::{blob_at, int_at};
use sqlite_trees::error::StoreError;
use sqlite_trees::store::{Direction, Store};
use sqlite_value::row::Row;
use sqlite_value::value::ValueRef;
use std::alloc::{AllocError, Global};

/// A place as a rowid.
pub(crate) fn rowid_of(place: u32) -> i64
    ensures { result ≡ pos place }
{
    i64::from(place)
}

/// The entry of a place under a key.
pub(crate) fn entry(alloc: Global, key: &[u8], place: u32) -> Result<Row, AllocError>
    ensures { IfOk result (λ row. row ≡ entry_of key.now place) }
{
    let mut row = Row::new(alloc);
    row.push(ValueRef::Blob(key))?;
    row.push(ValueRef::Int(rowid_of(place)))?;
    Ok(row)
}

/// The place of an entry under a key; none where it is under another.
fn place_in(entry: &Row, key: &[u8]) -> Option<u32>
    ensures place { IfSome result (λ place. (k : List ℕ) (p : ℕ) → entry.now ≡ entry_of k p → entry.now ≡ entry_of key.now place) }
    ensures none { result ≡ None → (p : ℕ) → p < 2 ^ 32 → entry.now ≡ entry_of key.now p → ⊥ }
{
    if blob_at(entry, 0)? != key {
        return None;
    }
    match u32::try_from(int_at(entry, 1)?) {
        Ok(place) => Some(place),
        Err(_) => None,
    }
}

/// Places a cursor at the first entry of a key.
pub(crate) fn seek_key<S: Store>(
    alloc: Global,
    store: &mut S,
    tree: u32,
    key: &[u8],
) -> Result<(), StoreError>
    requires index { IfClean (S.Store.view store.old) (HasIndex tree) }
    ensures sought { OnOk result (IsClean (S.Store.view store.new)
        → (S.Store.view store.new).cursors 0 ≡ Some (from_key plain (Blob key.now ∷ []) ((S.Store.view store.old).trees tree))) }
    ensures sorted { OnOk result (IsClean (S.Store.view store.new) → IsIndex plain ((S.Store.view store.old).trees tree)) }
    ensures live { OnOk result (HasCursor (S.Store.view store.new)) }
    ensures reads { Reads S.Store store.old store.new result }
    ensures cause { StoreFails S.Store store.old store.new ⊥ result }
{
    let mut prefix = Row::new(alloc);
    prefix.push(ValueRef::Blob(key))?;
    store.seek(0, tree, &prefix, Direction::Forward)?;
    Ok(())
}

/// The place of the entry at the cursor; none where it is under another key, or where none is left.
pub(crate) fn next_place<S: Store>(
    store: &mut S,
    key: &[u8],
    entry: &mut Row,
) -> Result<Option<u32>, StoreError>
    requires live { HasCursor (S.Store.view store.old) }
    ensures live { OnOk result (HasCursor (S.Store.view store.new)) }
    ensures place { IfOk result (λ found. IfSome found (λ place. IsClean (S.Store.view store.new) → (left : List Columns) → (S.Store.view store.old).cursors 0 ≡ Some left
        → AreEntries left → (more : List Columns) × (left ≡ entry_of key.now place ∷ more) × ((S.Store.view store.new).cursors 0 ≡ Some more))) }
    ensures past { IfOk result (λ found. found ≡ None → IsClean (S.Store.view store.new) → (left : List Columns) → (S.Store.view store.old).cursors 0 ≡ Some left
        → AreEntries left → IsPast key.now left) }
    ensures reads { Reads S.Store store.old store.new result }
    ensures cause { StoreFails S.Store store.old store.new ⊥ result }
{
    if !store.next(0, entry)? {
        return Ok(None);
    }
    Ok(place_in(entry, key))
}

/// The place of the first entry of a key.
pub(crate) fn first_place<S: Store>(
    alloc: Global,
    store: &mut S,
    tree: u32,
    key: &[u8],
) -> Result<Option<u32>, StoreError>
    requires index { IfClean (S.Store.view store.old) (HasIndex tree) }
    ensures place { IfOk result (λ found. IfSome found (λ place. IsClean (S.Store.view store.new) → AreEntries ((S.Store.view store.old).trees tree)
        → Stands (entry_of key.now place) ((S.Store.view store.old).trees tree))) }
    ensures none { IfOk result (λ found. found ≡ None → IsClean (S.Store.view store.new) → AreEntries ((S.Store.view store.old).trees tree)
        → (p : ℕ) → Stands (entry_of key.now p) ((S.Store.view store.old).trees tree) → ⊥) }
    ensures reads { Reads S.Store store.old store.new result }
    ensures cause { StoreFails S.Store store.old store.new ⊥ result }
{
    seek_key(alloc, store, tree, key)?;
    let mut entry = Row::new(alloc);
    let found = next_place(store, key, &mut entry)?;
    Ok(found)
}
