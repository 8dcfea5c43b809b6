//! Opening a site's file.

ghost use Rattle.std.specs.Prelude.{◌≡◌, ◌⊎◌, IfOk};
ghost use Rattle.sqlite_wal.specs.Files.{image_at};
ghost use Rattle.sqlite_trees.specs.View.{IsClean};
ghost use Rattle.sqlite_store.specs.FileStore.{view};
ghost use Rattle.site_files.specs.Earlier.{IsEarlier};
ghost use Rattle.site_rows.specs.Calls.{IfClean};
ghost use Rattle.site_files.specs.Files.{IsNumbered, RestsNumbered, ShowsHeld, TakesFrom, TakesOver};
ghost use Rattle.site_stored.specs.Starts.{IsOpened};

use crate::FileSite;
use crate::bounds::check_bounds;
use crate::closing::closed;
use crate::earlier::{check_earlier, why_other};
use crate::error::FileError;
use crate::looking::{NO_KEY, NO_MARK, looked_at, outcome_of, plain_log, unless_in_use};
use crate::stores::{connected, latest_at, list_at, random};
use crate::tables::{Earlier, Listed, list_of, upgraded};
use site_disk::{Found, ShortLog, SiteFile, found_at, mend_log, put_back};
use site_stored::{Opening, StoredSite};
use sqlite::{Alter, FileStore, Start};
use sqlite_disk::Disk;
use sqlite_trees::error::StoreError;
use std::alloc::Global;
use verification::RelyingParty;

/// That a file stands at a path that may be a SQLite file's.
fn check_sqlite(rt: &HostRuntime, path: &str) -> Result<(), FileError> {
    match found_at(rt, path)? {
        Found::Sqlite => Ok(()),
        Found::Nothing => Err(FileError::NoFile),
        Found::LoneLog => Err(FileError::LoneLog),
        Found::Empty => Err(FileError::NoSite),
        Found::Other => Err(FileError::NotSqlite),
    }
}

/// The store of a SQLite file. Where it lists the tables of version 4 its rows are not read, so that an open takes little time and
/// memory; else SQL opens it, which names what is refused.
fn store_at<S: Start>(
    rt: &HostRuntime,
    path: &str,
    wary: bool,
    start: S,
) -> Result<FileStore<SiteFile<S>>, FileError>
    ensures rests { IfOk result (λ store. RestsNumbered (view store)) }
    ensures found { IfOk result (λ store. ShowsHeld (image_at S.Start) (view store)) }
{
    match list_at(rt, path) {
        Ok(Listed::Latest) => latest_at(rt, path, wary, start),
        _ => connected(rt, path, false, wary, start),
    }
}

/// The store with the tables of version 4, of those of an earlier one with a site of this relying party, which has this key from now on.
fn taken_over<S: Alter + Drop>(
    alloc: Global,
    version: Earlier,
    rp_id: &str,
    key: &[u8; 32],
    mut store: S,
) -> Result<S, (FileError, S)>
    requires numbered { IfClean (S.Store.view store) IsNumbered }
    ensures earlier { IfOk result (λ new. IsClean (S.Store.view new) → IsClean (S.Store.view store) × IsEarlier rp_id.now (S.Store.view store).trees) }
{
    match check_earlier(alloc, version, rp_id, &mut store) {
        Ok(()) => upgraded(alloc, version, Some(key), store),
        Err(e) => Err((e, store)),
    }
}

/// The store with the tables of version 4: as it is, or taken over from an earlier one.
fn newest<S: Alter + Drop>(
    alloc: Global,
    rp_id: &str,
    key: &[u8; 32],
    mut store: S,
) -> Result<S, (FileError, S)>
    requires numbered { IfClean (S.Store.view store) IsNumbered }
    ensures found { IfOk result (λ new. (new ≡ store) ⊎ (IsClean (S.Store.view new) → IsClean (S.Store.view store) × IsEarlier rp_id.now (S.Store.view store).trees)) }
{
    match list_of(alloc, &store) {
        Ok(Listed::Latest) => Ok(store),
        Ok(Listed::Earlier(version)) => taken_over(alloc, version, rp_id, key, store),
        Ok(Listed::Nothing) => Err((FileError::NoSite, store)),
        Ok(Listed::Other) => Err((why_other(alloc, &mut store), store)),
        Err(e) => Err((e, store)),
    }
}

/// The site that a store holds whose tables are those of a site, of this relying party. Tables of an earlier version are taken over in one
/// transaction, with this key. `life` is a random number, the first mark of a commit. Refusals as `open`; the store is handed back.
pub fn open_over<S: Alter + Drop>(
    alloc: Global,
    opening: Opening,
    key: &[u8; 32],
    life: u64,
    store: S,
) -> Result<StoredSite<S>, (FileError, S)>
    requires numbered { IfClean (S.Store.view store) IsNumbered }
    ensures opened { IfOk result (IsOpened S.Store.view opening) }
    // What it holds is what the store held, which was of this version or of an earlier one.
    ensures found { IfOk result (λ s. TakesOver opening.party.rp_id (S.Store.view store) (S.Store.view s.store)) }
{
    if let Err(e) = check_bounds(opening.bounds) {
        return Err((e, store));
    }
    if store.is_broken() {
        return Err((FileError::Failed(StoreError::Broken), store));
    }
    let store = newest(alloc, opening.party.rp_id(), key, store)?;
    match StoredSite::open(alloc, opening, life, store) {
        Ok(site) => Ok(site),
        Err((e, store)) => Err((e.into(), store)),
    }
}

/// A relying party of the same rp id, without origins.
pub fn same_party(alloc: Global, party: &RelyingParty) -> Result<RelyingParty, FileError> {
    Ok(RelyingParty::with_profile(alloc, party.profile(), party.rp_id(), &[])?)
}

/// The same, of a relying party without origins.
fn same_opening(alloc: Global, opening: &Opening) -> Result<Opening, FileError> {
    Ok(Opening {
        party: same_party(alloc, &opening.party)?,
        policy: opening.policy,
        bounds: opening.bounds,
        at_least: opening.at_least,
    })
}

/// That the files at a path are opened as they stand. All that an open does is done over what is read of them, so that nothing is
/// written where it refuses them.
fn check_open(rt: &HostRuntime, path: &str, opening: &Opening) -> Result<(), FileError> {
    check_sqlite(rt, path)?;
    let alloc = rt.alloc();
    let opening = same_opening(alloc, opening)?;
    match looked_at(rt, path) {
        Ok(store) => outcome_of(open_over(alloc, opening, &NO_KEY, NO_MARK, store)),
        Err(e) => Err(e),
    }
}

/// Why files are refused, whose log is put back where it was too short for a commit.
fn with_log(rt: &HostRuntime, path: &str, log: Option<ShortLog>, e: FileError) -> FileError {
    if let Some(log) = log {
        put_back(rt, path, &log);
    }
    e
}

/// The site that the store of a file holds, which is closed where it is refused. Clauses as of `open_over`.
fn site_in<D: Disk + Drop>(
    alloc: Global,
    opening: Opening,
    key: &[u8; 32],
    life: u64,
    store: FileStore<D>,
) -> Result<StoredSite<FileStore<D>>, FileError>
    requires numbered { IfClean (view store) IsNumbered }
    ensures opened { IfOk result (IsOpened view opening) }
    ensures found { IfOk result (λ s. TakesOver opening.party.rp_id (view store) (view s.store)) }
{
    match open_over(alloc, opening, key, life, store) {
        Ok(site) => Ok(site),
        Err(refused) => Err(closed(refused)),
    }
}

/// The site of the files at a path.
fn opened<S: Start>(
    rt: &HostRuntime,
    path: &str,
    opening: Opening,
    key: &[u8; 32],
    wary: bool,
    start: S,
) -> Result<FileSite<S>, FileError>
    ensures opened { IfOk result (IsOpened view opening) }
    ensures found { IfOk result (λ s. TakesFrom (image_at S.Start) opening.party.rp_id (view s.store)) }
{
    let life = random(rt)?;
    match store_at(rt, path, wary, start) {
        Ok(store) => site_in(rt.alloc(), opening, key, life, store),
        Err(e) => Err(e),
    }
}

/// Looks at the files at a path, as an open would find them, and mends their log. A log that is too short for a commit is handed back,
/// and then nothing is looked at.
fn looked_through(
    rt: &HostRuntime,
    path: &str,
    opening: &Opening,
) -> Result<Option<ShortLog>, FileError> {
    if let Ok(Some(log)) = plain_log(rt, path) {
        return Ok(Some(log));
    }
    if let Err(e) = check_open(rt, path, opening) {
        return Err(unless_in_use(rt, path, e));
    }
    mend_log(rt, path)?;
    Ok(None)
}

/// The site of a file, of this relying party. Its sessions that are open stay so, and the numbers go on. A program passes `Unknown` as `start`,
/// which stands for what the files held.
///
/// A file of an earlier version is upgraded, in one commit, and seals its sessions under `key` from now on, 32 random bytes; those that were
/// open end. `key` is not used else.
///
/// A copy of the file from before the last commit that was told before the session `at_least` is `Older`.
///
/// With `wary` each commit flushes twice, and nothing is supposed of a write that is cut off. Without it each byte of
/// such a write is old or new, below the flushed end of the log.
///
/// `BadBound` where more than 1,000,000 credentials could be registered, `NoFile`, `LoneLog`, `InUse`
/// and `CannotOpen` where the file is not opened, `DamagedLog` where its log's header is damaged, `OtherLog` where the log does not go on
/// from the file, as one beside an older copy or a newer one, `NotSqlite` where it is no sound
/// SQLite file, `NoSite` where it is empty or has no table, `OtherTables` where it lists other tables than `create` makes, `NoSite`
/// where they have no row of a site, `Newer` where that row has a later version, `OtherSite` where it has another rp id, `Older`
/// where no session can have had that number, `TooMany` and `BadRow` where a row is no credential's, `Failed` where the disk or
/// memory failed.
pub fn open<S: Start>(
    rt: &HostRuntime,
    path: &str,
    opening: Opening,
    key: &[u8; 32],
    wary: bool,
    start: S,
) -> Result<FileSite<S>, FileError>
    ensures opened { IfOk result (IsOpened view opening) }
    // Its rows are those that the file held, unless it was of an earlier version.
    ensures found { IfOk result (λ s. TakesFrom (image_at S.Start) opening.party.rp_id (view s.store)) }
{
    check_bounds(opening.bounds)?;
    let log = looked_through(rt, path, &opening)?;
    match opened(rt, path, opening, key, wary, start) {
        Ok(site) => Ok(site),
        Err(e) => Err(with_log(rt, path, log, e)),
    }
}
