//! A file of version 1, 2 or 3.

ghost use Rattle.std.specs.Prelude.{◌≡◌, ◌≤◌, ℕ, OnOk};
ghost use Rattle.site_stored.specs.State.{site_row_of};
ghost use Rattle.site_rows.specs.Calls.{HasCursor, Reads};
ghost use Rattle.site_files.specs.Files.{FindsEarlier};

use crate::error::FileError;
use crate::tables::Earlier;
use site_rows::{CREDENTIAL_TREE, DETAIL_TREE, RowError, int_at, read_credential};
use site_stored::{SITE_TREE, site_row_of};
use sqlite_trees::error::StoreError;
use sqlite_trees::store::{Direction, Shape, Store};
use sqlite_value::row::Row;
use std::alloc::Global;

/// The table of open sessions, in a file of version 1.
const SESSION_TREE: u32 = 1;

/// The number of an earlier version.
fn number_of(version: Earlier) -> u64
    ensures first { 1 ≤ result }
    ensures last { result ≤ 3 }
{
    match version {
        Earlier::First => 1,
        Earlier::Second => 2,
        Earlier::Third => 3,
    }
}

/// That the version in a row of a relying party is none above 4.
fn check_version(row: &Row) -> Result<(), FileError> {
    match int_at(row, 2) {
        Some(version) if version > 4 => Err(FileError::Newer),
        _ => Ok(()),
    }
}

/// That a row is this relying party's, of this version.
fn check_row(alloc: Global, version: u64, rp_id: &str, row: &Row) -> Result<(), FileError>
    requires { version ≤ 3 }
    ensures earlier { OnOk result ((next : ℕ) × (row.now ≡ site_row_of version rp_id.now next)) }
{
    check_version(row)?;
    let Some(next) = int_at(row, 4) else {
        return Err(FileError::NoSite);
    };
    if next < 1 {
        return Err(FileError::NoSite);
    }
    let written = site_row_of(alloc, version, rp_id, next as u64)?;
    if !row.is_same(&written) {
        return Err(FileError::OtherSite);
    }
    Ok(())
}

/// That the row of the relying party is this relying party's, of this version.
fn check_party<S: Store>(
    alloc: Global,
    version: Earlier,
    rp_id: &str,
    store: &mut S,
) -> Result<(), FileError>
    ensures earlier { OnOk result (FindsEarlier rp_id.now (S.Store.view store.old) (S.Store.view store.new)) }
    ensures reads { Reads S.Store store.old store.new result }
{
    if store.shape(SITE_TREE) != Shape::Table {
        return Err(FileError::OtherTables);
    }
    let mut row = Row::new(alloc);
    if !store.get(SITE_TREE, 1, &mut row)? {
        return Err(FileError::NoSite);
    }
    check_row(alloc, number_of(version), rp_id, &row)
}

/// That a row is a credential's.
fn check_credential(alloc: Global, row: &Row) -> Result<(), FileError> {
    let Some(place) = int_at(row, 0) else {
        return Err(FileError::BadRow);
    };
    let Ok(place) = u32::try_from(place) else {
        return Err(FileError::BadRow);
    };
    match read_credential(alloc, place, row) {
        Ok(_credential) => Ok(()),
        Err(RowError::BadRow) => Err(FileError::BadRow),
        Err(RowError::Memory) => Err(FileError::Failed(StoreError::OutOfMemory)),
    }
}

/// Places a cursor at the first row of a tree.
fn begin<S: Store>(alloc: Global, store: &mut S, tree: u32) -> Result<(), StoreError>
    ensures live { OnOk result (HasCursor (S.Store.view store.new)) }
    ensures reads { Reads S.Store store.old store.new result }
{
    let key = Row::new(alloc);
    store.seek(0, tree, &key, Direction::Forward)?;
    Ok(())
}

/// Takes the credential's row at the cursor: false where there is none.
fn next_is_credential<S: Store>(
    alloc: Global,
    store: &mut S,
    row: &mut Row,
) -> Result<bool, FileError>
    requires live { HasCursor (S.Store.view store.old) }
    ensures live { OnOk result (HasCursor (S.Store.view store.new)) }
    ensures reads { Reads S.Store store.old store.new result }
{
    if !store.next(0, row)? {
        return Ok(false);
    }
    check_credential(alloc, row)?;
    Ok(true)
}

/// That each row of the table of credentials is one's.
fn check_credentials<S: Store>(alloc: Global, store: &mut S) -> Result<(), FileError>
    ensures reads { Reads S.Store store.old store.new result }
{
    begin(alloc, store, CREDENTIAL_TREE)?;
    let mut row = Row::new(alloc);
    for _ in 0..u32::MAX {
        if !next_is_credential(alloc, store, &mut row)? {
            return Ok(());
        }
    }
    Err(FileError::TooMany)
}

/// That a store whose tables are those of an earlier version holds a site of this relying party, as far as it is taken over: its row,
/// and those of its credentials.
pub fn check_earlier<S: Store>(
    alloc: Global,
    version: Earlier,
    rp_id: &str,
    store: &mut S,
) -> Result<(), FileError>
    ensures earlier { OnOk result (FindsEarlier rp_id.now (S.Store.view store.old) (S.Store.view store.new)) }
    ensures reads { Reads S.Store store.old store.new result }
{
    check_party(alloc, version, rp_id, store)?;
    check_credentials(alloc, store)
}

/// Whether a tree has no row.
fn is_empty<S: Store>(alloc: Global, store: &mut S, tree: u32) -> Result<bool, StoreError>
    ensures reads { Reads S.Store store.old store.new result }
{
    begin(alloc, store, tree)?;
    let mut row = Row::new(alloc);
    let found = store.next(0, &mut row)?;
    Ok(!found)
}

/// That the tables of an earlier version in a store have no row: a creation was cut off.
pub fn check_empty<S: Store>(
    alloc: Global,
    version: Earlier,
    store: &mut S,
) -> Result<(), FileError>
    ensures reads { Reads S.Store store.old store.new result }
{
    // Open sessions, or details.
    let more = match version {
        Earlier::First => SESSION_TREE,
        Earlier::Second | Earlier::Third => DETAIL_TREE,
    };
    let credentials = is_empty(alloc, store, CREDENTIAL_TREE)?;
    let site = is_empty(alloc, store, SITE_TREE)?;
    let rest = is_empty(alloc, store, more)?;
    if !(credentials && site && rest) {
        return Err(FileError::Exists);
    }
    Ok(())
}

/// Why a store with other tables is refused: `Newer` where they are those of a later version, whose row says so.
pub fn why_other<S: Store>(alloc: Global, store: &mut S) -> FileError {
    if store.shape(SITE_TREE) != Shape::Table {
        return FileError::OtherTables;
    }
    let mut row = Row::new(alloc);
    let found = match store.get(SITE_TREE, 1, &mut row) {
        Ok(found) => found,
        Err(e) => return e.into(),
    };
    match check_version(&row) {
        Err(e) if found => e,
        _ => FileError::OtherTables,
    }
}
