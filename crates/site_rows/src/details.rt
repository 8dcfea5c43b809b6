//! Finding details, and writing them within the transaction that is begun.

ghost use Rattle.std.specs.Prelude.{◌≡◌, IfOk, OnOk, option_map};
ghost use Rattle.std.specs.FinMap as finite;
ghost use Rattle.sqlite_trees.specs.View.{IsClean, IsStorableRow};
ghost use Rattle.site_rows.specs.Details.{Details, HoldsDetails, IsDetailed, detail_row as row_of, used};
ghost use Rattle.site_state.specs.Details.{detail_view};
ghost use Rattle.site_rows.specs.Calls.{IfClean, Reads, Writes, StoreFails};
ghost use Rattle.site_rows.specs.Trees.{detail_tree, HasTable};

use crate::detail::{detail_row, read_detail};
use crate::trees::DETAIL_TREE;
use site_state::Detail;
use sqlite_trees::error::StoreError;
use sqlite_trees::store::Store;
use sqlite_value::row::Row;
use std::alloc::Global;

/// The detail of the credential at a place; none where none is known, or where its row is no detail's.
pub fn find_detail<S: Store>(
    alloc: Global,
    store: &mut S,
    place: u32,
) -> Result<Option<Detail>, StoreError>
    requires table { IfClean (S.Store.view store.old) (HasTable detail_tree) }
    ensures found { IfOk result (λ found. IsClean (S.Store.view store.new) → (details : Details)
        → HoldsDetails details (S.Store.view store.old).trees → option_map detail_view found ≡ finite.get details place) }
    ensures reads { Reads S.Store store.old store.new result }
    ensures cause { StoreFails S.Store store.old store.new ⊥ result }
{
    let mut row = Row::new(alloc);
    if !store.get(DETAIL_TREE, i64::from(place), &mut row)? {
        return Ok(None);
    }
    let found = read_detail(alloc, &row)?;
    Ok(found)
}

/// Sets the detail of the credential at a place.
///
/// An error is the store's, and the transaction may then be written in part: it is to be rolled back.
pub fn put_detail<S: Store>(
    alloc: Global,
    store: &mut S,
    place: u32,
    detail: &Detail,
) -> Result<(), StoreError>
    requires table { IfClean (S.Store.view store.old) (HasTable detail_tree) }
    ensures put { OnOk result (IsClean (S.Store.view store.new)
        → IsDetailed (S.Store.view store.old) (S.Store.view store.new) (λ details. finite.insert details place (detail_view detail.now))) }
    ensures writes { Writes S.Store store.old store.new result }
    ensures cause { StoreFails S.Store store.old store.new (¬ IsStorableRow ((S.Store.view store.old).reals detail_tree) (row_of place (detail_view detail.now))) result }
{
    let row = detail_row(alloc, place, detail)?;
    store.put(DETAIL_TREE, &row)
}

/// Takes out the detail of the credential at a place, if one is known.
///
/// An error is the store's, as of `put_detail`.
pub fn delete_detail<S: Store>(store: &mut S, place: u32) -> Result<(), StoreError>
    requires table { IfClean (S.Store.view store.old) (HasTable detail_tree) }
    ensures deleted { OnOk result (IsClean (S.Store.view store.new)
        → IsDetailed (S.Store.view store.old) (S.Store.view store.new) (λ details. finite.remove details place)) }
    ensures writes { Writes S.Store store.old store.new result }
    ensures cause { StoreFails S.Store store.old store.new ⊥ result }
{
    store.delete(DETAIL_TREE, i64::from(place))
}

/// The detail, used at this second; where none is known nothing else is.
fn used_at(alloc: Global, known: Option<Detail>, now: i64) -> Detail
    ensures { detail_view result ≡ used now (option_map detail_view known) }
{
    match known {
        Some(detail) => Detail {
            used_at: Some(now),
            ..detail
        },
        None => Detail {
            created_at: None,
            used_at: Some(now),
            transports: Vec::new(alloc),
            aaguid: None,
        },
    }
}

/// Sets when the credential at a place was last used, in seconds of the host's clock.
///
/// An error is the store's, as of `put_detail`.
pub fn mark_used<S: Store>(
    alloc: Global,
    store: &mut S,
    place: u32,
    now: i64,
) -> Result<(), StoreError>
    requires table { IfClean (S.Store.view store.old) (HasTable detail_tree) }
    ensures used { OnOk result (IsClean (S.Store.view store.new) → IsDetailed (S.Store.view store.old) (S.Store.view store.new)
        (λ details. finite.insert details place (used now (finite.get details place)))) }
    ensures writes { Writes S.Store store.old store.new result }
    ensures cause { StoreFails S.Store store.old store.new
        ((details : Details) → HoldsDetails details (S.Store.view store.old).trees → ¬ IsStorableRow ((S.Store.view store.old).reals detail_tree) (row_of place (used now (finite.get details place)))) result }
{
    let known = find_detail(alloc, store, place)?;
    put_detail(alloc, store, place, &used_at(alloc, known, now))
}
