//! What has ended, and until when that has to be known.

ghost use Rattle.std.specs.Prelude.{◌≡◌, ◌<◌, ◌≤◌, ◌^◌, ℕ, pos, [], ◌∷◌, IfOk, IfSome, List, OnOk, Some, true};
ghost use Rattle.std.specs.FinMap as finite;
ghost use Rattle.sqlite_value.specs.Keys.{plain};
ghost use Rattle.sqlite_value.specs.Order.{Row as Columns, column};
ghost use Rattle.sqlite_trees.specs.Tree.{from_key};
ghost use Rattle.sqlite_value.specs.Value.{owned};
ghost use Rattle.sqlite_value.specs.declared.value.Value.TheVariants.{Int};
ghost use Rattle.sqlite_trees.specs.View.{IsClean, IsStorableRow};
ghost use Rattle.site_rows.specs.Calls.{IfClean, Reads, Writes, StoreFails};
ghost use Rattle.site_rows.specs.Endings.{EndingFails, Endings, FitsRow, HoldsEndings, IsEnded, Purges, ending_row as row_of};
ghost use Rattle.site_rows.specs.Trees.{HasTable};
ghost use Rattle.site_rows.specs.declared.ending.Ending.{Ending as Said};

use crate::values::int_at;
use sqlite_trees::error::StoreError;
use sqlite_trees::store::{Direction, Store};
use sqlite_value::row::Row;
use sqlite_value::value::ValueRef;
use std::alloc::{AllocError, Global};

/// What is said of something that has ended, and the second of the host's clock until which that has to be known. Each is
/// below 2^63.
#[derive(Clone, Copy, Debug, PartialEq, Eq, Drop)]
pub struct Ending {
    /// What is said of it.
    pub said: u64,
    /// The first second in which it need not be known any more.
    pub until: u64,
}

/// A number below 2^63 as the value of a column.
fn number_value<'a>(number: u64) -> ValueRef<'a>
    requires { number < 2 ^ 63 }
    ensures { owned result ≡ Int (pos number) }
{
    ValueRef::Int(number as i64)
}

/// The row of what has ended, under its number.
fn ending_row(alloc: Global, number: u64, ending: Ending) -> Result<Row, AllocError>
    requires { FitsRow number ending }
    ensures { IfOk result (λ row. row ≡ row_of number ending) }
{
    let mut row = Row::new(alloc);
    row.push(number_value(number))?;
    row.push(ValueRef::Null)?;
    row.push(number_value(ending.said))?;
    row.push(number_value(ending.until))?;
    Ok(row)
}

/// The number in a column; none where it has another value, or a number below 0.
fn number_at(row: &Row, at: usize) -> Option<u64>
    ensures { (n : ℕ) → column row.now at ≡ Int (pos n) → result ≡ Some n }
{
    u64::try_from(int_at(row, at)?).ok()
}

/// The ending of a row; none where it is no such row.
fn read_ending(row: &Row) -> Option<Ending>
    ensures { (number : ℕ) (e : Said) → row.now ≡ row_of number e → result ≡ Some e }
{
    let said = number_at(row, 2)?;
    let until = number_at(row, 3)?;
    Some(Ending { said, until })
}

/// What has ended under a number, in a table of endings.
///
/// An error is the store's: `Corrupt` also where the row is no ending's. Nothing has changed but a cursor.
pub fn find_ending<S: Store>(
    alloc: Global,
    store: &mut S,
    tree: u32,
    number: u64,
) -> Result<Option<Ending>, StoreError>
    requires fits { number < 2 ^ 63 }
    requires table { IfClean (S.Store.view store.old) (HasTable tree) }
    ensures found { IfOk result (λ found. IsClean (S.Store.view store.new) → (endings : Endings)
        → HoldsEndings tree endings (S.Store.view store.old).trees → found ≡ finite.get endings number) }
    ensures reads { Reads S.Store store.old store.new result }
    ensures cause { EndingFails S.Store tree store.old store.new result }
{
    let mut row = Row::new(alloc);
    if !store.get(tree, number as i64, &mut row)? {
        return Ok(None);
    }
    match read_ending(&row) {
        Some(ending) => Ok(Some(ending)),
        None => Err(StoreError::Corrupt),
    }
}

/// Sets what has ended under a number, in a table of endings.
///
/// An error is the store's, and the transaction may then be written in part: it is to be rolled back.
pub fn put_ending<S: Store>(
    alloc: Global,
    store: &mut S,
    tree: u32,
    number: u64,
    ending: Ending,
) -> Result<(), StoreError>
    requires fits { FitsRow number ending }
    requires table { IfClean (S.Store.view store.old) (HasTable tree) }
    ensures put { OnOk result (IsClean (S.Store.view store.new)
        → IsEnded tree (S.Store.view store.old) (S.Store.view store.new) (λ endings. finite.insert endings number ending)) }
    ensures writes { Writes S.Store store.old store.new result }
    ensures cause { StoreFails S.Store store.old store.new (¬ IsStorableRow ((S.Store.view store.old).reals tree) (row_of number ending)) result }
{
    let row = ending_row(alloc, number, ending)?;
    store.put(tree, &row)
}

/// The number of the row at the cursor, where what has ended there need not be known any more at this second.
fn past_number(row: &Row, now: u64) -> Option<i64>
    ensures { (n : ℕ) (e : Said) → row.now ≡ row_of n e → IfSome result (λ id. (id ≡ pos n) × (e.until ≤ now)) }
{
    if number_at(row, 3)? > now {
        return None;
    }
    int_at(row, 0)
}

/// Reads the first row from a number on, if there is one.
fn first_from<S: Store>(
    alloc: Global,
    store: &mut S,
    tree: u32,
    from: u64,
    row: &mut Row,
) -> Result<bool, StoreError>
    requires fits { from < 2 ^ 63 }
    requires table { IfClean (S.Store.view store.old) (HasTable tree) }
    ensures found { IfOk result (λ found. found ≡ true → IsClean (S.Store.view store.new) → (left : List Columns)
        × (from_key plain (Int (pos from) ∷ []) ((S.Store.view store.old).trees tree) ≡ row.new ∷ left)) }
    ensures reads { Reads S.Store store.old store.new result }
    ensures cause { StoreFails S.Store store.old store.new ⊥ result }
{
    let mut key = Row::new(alloc);
    key.push(number_value(from))?;
    store.seek(0, tree, &key, Direction::Forward)?;
    store.next(0, row)
}

/// Takes out the first ending from a number on, in a table of endings, where it need not be known any more at this second of
/// the host's clock.
///
/// An error is the store's, as of `put_ending`.
pub fn purge_ending<S: Store>(
    alloc: Global,
    store: &mut S,
    tree: u32,
    from: u64,
    now: u64,
) -> Result<(), StoreError>
    requires fits { from < 2 ^ 63 }
    requires table { IfClean (S.Store.view store.old) (HasTable tree) }
    ensures purged { OnOk result (IsClean (S.Store.view store.new) → Purges tree now (S.Store.view store.old) (S.Store.view store.new)) }
    ensures writes { Writes S.Store store.old store.new result }
    ensures cause { StoreFails S.Store store.old store.new ⊥ result }
{
    let mut row = Row::new(alloc);
    if !first_from(alloc, store, tree, from, &mut row)? {
        return Ok(());
    }
    match past_number(&row, now) {
        Some(number) => store.delete(tree, number),
        None => Ok(()),
    }
}
