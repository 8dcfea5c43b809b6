//! Making a site's file.

ghost use Rattle.std.specs.Prelude.{IfOk};
ghost use Rattle.sqlite_store.specs.FileStore.{view};
ghost use Rattle.site_rows.specs.Calls.{IfClean};
ghost use Rattle.site_files.specs.Files.{IsNumbered};
ghost use Rattle.site_stored.specs.Starts.{IsMade};

use crate::FileSite;
use crate::bounds::check_bounds;
use crate::closing::closed;
use crate::earlier::check_empty;
use crate::error::FileError;
use crate::looking::{NO_KEY, NO_MARK, looked_at, outcome_of, unless_in_use};
use crate::opening::same_party;
use crate::stores::{connected, latest_at, list_at, random};
use crate::tables::{Earlier, Listed, list_of, made, upgraded};
use site_disk::{Found, SiteFile, found_at};
use site_stored::{Bounds, StoredSite};
use sqlite::{Alter, FileStore, Start};
use sqlite_disk::Disk;
use std::alloc::Global;
use verification::{Policy, RelyingParty};

/// The store with the tables of version 4, of those of an earlier one that have no row.
fn taken_up<S: Alter + Drop>(
    alloc: Global,
    version: Earlier,
    mut store: S,
) -> Result<S, (FileError, S)>
    requires numbered { IfClean (S.Store.view store) IsNumbered }
{
    match check_empty(alloc, version, &mut store) {
        Ok(()) => upgraded(alloc, version, None, store),
        Err(e) => Err((e, store)),
    }
}

/// The store with the tables of a site: they are made where it lists nothing, and taken as they are where a creation was cut off
/// after their commit. `Exists` where it lists others, or rows stand in those of an earlier version.
fn with_tables<S: Alter + Drop>(alloc: Global, store: S) -> Result<S, (FileError, S)>
    requires numbered { IfClean (S.Store.view store) IsNumbered }
{
    match list_of(alloc, &store) {
        Ok(Listed::Nothing) => made(alloc, store),
        Ok(Listed::Earlier(version)) => taken_up(alloc, version, store),
        Ok(Listed::Latest) => Ok(store),
        Ok(Listed::Other) => Err((FileError::Exists, store)),
        Err(e) => Err((e, store)),
    }
}

/// A site without credentials and sessions over a store with the tables of one.
fn site_over<S: Alter + Drop>(
    alloc: Global,
    party: RelyingParty,
    policy: Policy,
    bounds: Bounds,
    key: [u8; 32],
    life: u64,
    store: S,
) -> Result<StoredSite<S>, (FileError, S)>
    ensures made { IfOk result (IsMade S.Store.view party policy bounds) }
{
    match list_of(alloc, &store) {
        Ok(Listed::Latest) => {}
        Ok(_) => return Err((FileError::Exists, store)),
        Err(e) => return Err((e, store)),
    }
    match StoredSite::create(alloc, party, policy, bounds, key, life, store) {
        Ok(site) => Ok(site),
        Err((e, store)) => Err((e.into(), store)),
    }
}

/// Makes the tables of a site in a store that lists nothing, and the site in them; a creation that was cut off is taken up.
/// `key` is 32 random bytes, under which it seals its sessions, and `life` a random number, the first mark of a commit. `BadBound` and `Exists` as `create`. The store is handed back.
pub fn create_over<S: Alter + Drop>(
    alloc: Global,
    party: RelyingParty,
    policy: Policy,
    bounds: Bounds,
    key: [u8; 32],
    life: u64,
    store: S,
) -> Result<StoredSite<S>, (FileError, S)>
    requires numbered { IfClean (S.Store.view store) IsNumbered }
    ensures made { IfOk result (IsMade S.Store.view party policy bounds) }
{
    if let Err(e) = check_bounds(bounds) {
        return Err((e, store));
    }
    let store = with_tables(alloc, store)?;
    site_over(alloc, party, policy, bounds, key, life, store)
}

/// The same store, whose file begins from now on as a SQLite file does, which `open` asks.
fn written<D: Disk + Drop>(mut store: FileStore<D>) -> Result<FileStore<D>, FileError> {
    match store.checkpoint() {
        Ok(()) => Ok(store),
        Err(e) => Err(closed((e.into(), store))),
    }
}

/// The same store with the tables of a site.
fn tabled<D: Disk + Drop>(alloc: Global, store: FileStore<D>) -> Result<FileStore<D>, FileError>
    requires { IfClean (view store) IsNumbered }
{
    match with_tables(alloc, store) {
        Ok(store) => written(store),
        Err(refused) => Err(closed(refused)),
    }
}

/// Makes a file with the tables of a site, or takes up one that a creation left.
fn new_file<S: Start>(
    rt: &HostRuntime,
    path: &str,
    sums: bool,
    wary: bool,
    start: S,
) -> Result<FileStore<SiteFile<S>>, FileError> {
    match connected(rt, path, sums, wary, start) {
        Ok(store) => tabled(rt.alloc(), store),
        Err(e) => Err(e),
    }
}

/// The store of a file that is there: one of version 4 is not read by SQL, as at an open.
fn found_file<S: Start>(
    rt: &HostRuntime,
    path: &str,
    sums: bool,
    wary: bool,
    start: S,
) -> Result<FileStore<SiteFile<S>>, FileError> {
    match list_at(rt, path) {
        Ok(Listed::Latest) => match latest_at(rt, path, wary, start) {
            Ok(store) => written(store),
            Err(e) => Err(e),
        },
        _ => new_file(rt, path, sums, wary, start),
    }
}

/// That the files at a path hold nothing, and a site can be made in them. All that a creation does is done over what is read of
/// them, so that nothing is written where it refuses them.
fn check_create(
    rt: &HostRuntime,
    path: &str,
    party: &RelyingParty,
    policy: Policy,
    bounds: Bounds,
) -> Result<(), FileError> {
    let alloc = rt.alloc();
    let party = same_party(alloc, party)?;
    match looked_at(rt, path) {
        Ok(store) => {
            outcome_of(create_over(alloc, party, policy, bounds, NO_KEY, NO_MARK, store))
        },
        Err(e) => Err(e),
    }
}

/// That no file stands at a path, or one in which a site can be made: whether it is to be looked at as a SQLite file.
fn is_there(
    rt: &HostRuntime,
    path: &str,
    party: &RelyingParty,
    policy: Policy,
    bounds: Bounds,
) -> Result<bool, FileError> {
    match found_at(rt, path)? {
        Found::Other => Err(FileError::Exists),
        Found::LoneLog => Err(FileError::LoneLog),
        Found::Nothing | Found::Empty => Ok(false),
        Found::Sqlite => {
            check_create(rt, path, party, policy, bounds)?;
            Ok(true)
        }
    }
}

/// The store of the files at a path, with the tables of a site.
fn store_for<S: Start>(
    rt: &HostRuntime,
    path: &str,
    party: &RelyingParty,
    policy: Policy,
    bounds: Bounds,
    sums: bool,
    wary: bool,
    start: S,
) -> Result<FileStore<SiteFile<S>>, FileError> {
    match is_there(rt, path, party, policy, bounds) {
        Ok(true) => found_file(rt, path, sums, wary, start),
        Ok(false) => new_file(rt, path, sums, wary, start),
        Err(e) => Err(unless_in_use(rt, path, e)),
    }
}

/// A site without credentials and sessions over the store of a file, which is closed where it is refused.
fn site_in<D: Disk + Drop>(
    alloc: Global,
    party: RelyingParty,
    policy: Policy,
    bounds: Bounds,
    key: [u8; 32],
    life: u64,
    store: FileStore<D>,
) -> Result<StoredSite<FileStore<D>>, FileError>
    ensures made { IfOk result (IsMade view party policy bounds) }
{
    match site_over(alloc, party, policy, bounds, key, life, store) {
        Ok(site) => Ok(site),
        Err(refused) => Err(closed(refused)),
    }
}

/// Makes a site's file at a path, and its log beside it (the path and `-wal`), for a relying party without credentials and
/// sessions. A program passes `Unknown` as `start`, which stands for what the files held.
///
/// With `sums` each page of the database file ends in its sum, as of SQLite's cksumvfs, which each open tests: so most changed
/// bytes are noticed. A `sqlite3` without that extension reads such a file, and spoils it when it writes. `wary` as at `open`.
///
/// `key` is 32 random bytes, under which the site seals its sessions. `BadBound` where more than 1,000,000 credentials could be registered, `Exists` where a file is there
/// that holds something, `LoneLog` where its log is there alone, `NotSqlite`, `DamagedLog` and `OtherLog` where the two are no sound SQLite file;
/// nothing is made or changed then. `InUse`, `CannotOpen` and `Failed` where the system, the disk or memory failed.
///
/// A creation that is cut off leaves no file, or one that holds nothing: it is empty, or has no table, or the tables of a
/// site without rows. `open` refuses it as `NoSite`, and the next `create` takes it up.
pub fn create<S: Start>(
    rt: &HostRuntime,
    path: &str,
    party: RelyingParty,
    policy: Policy,
    bounds: Bounds,
    sums: bool,
    wary: bool,
    key: [u8; 32],
    start: S,
) -> Result<FileSite<S>, FileError>
    ensures made { IfOk result (IsMade view party policy bounds) }
{
    check_bounds(bounds)?;
    let life = random(rt)?;
    match store_for(rt, path, &party, policy, bounds, sums, wary, start) {
        Ok(store) => site_in(rt.alloc(), party, policy, bounds, key, life, store),
        Err(e) => Err(e),
    }
}
