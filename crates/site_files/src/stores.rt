//! The store of a site's files.

ghost use Rattle.std.specs.Prelude.{◌≡◌, Bool, IfOk, IsTrue, OnOk};
ghost use Rattle.sqlite_wal.specs.Files.{image_at};
ghost use Rattle.sqlite_pool.specs.Stored.{used_size};
ghost use Rattle.sqlite_trees.specs.Tree.{Trees};
ghost use Rattle.sqlite_trees.specs.View.{IsClean};
ghost use Rattle.sqlite_store.specs.FileStore.{view};
ghost use Rattle.sqlite.specs.Files.{HoldsDatabase, image_of};
ghost use Rattle.sqlite_store.specs.Unopened.{AreUsable, files_of, image, state_of};
ghost use Rattle.site_files.specs.Files.{IsFoundIn, RestsNumbered, ShowsHeld};

use crate::error::FileError;
use crate::tables::{Listed, latest, list_in};
use site_disk::{Found, SiteFile, files_at, has_sums_at, head_at};
use sqlite::{Connection, FileStore, Files, Options, Start, Unknown};
use sqlite_disk::Disk;
use sqlite_pager::Pager;
use sqlite_store::{OpenError, Unopened};
use sqlite_trees::error::StoreError;
use sqlite_value::row::Row;
use sqlite_value::value::ValueRef;
use sqlite_wal::PageSize;
use std::alloc::{AllocError, Global};
use std::hash::{BuildHasher, RandomState};

/// The size of a page in a site's file.
const PAGE_SIZE: usize = 4096;

/// A random number.
pub fn random(rt: &HostRuntime) -> Result<u64, FileError> {
    Ok(RandomState::new(rt)?.hash_one(&0u8))
}

/// A number that others don't know, for the sums of the log.
pub fn options(rt: &HostRuntime) -> Result<Options, FileError> {
    Ok(Options::new(random(rt)?))
}

/// Files, to be opened with the tables of version 4, whose pages end in sums or not.
pub fn unopened<D: Disk + Drop>(
    alloc: Global,
    files: Files<D>,
    options: Options,
    has_sums: bool,
) -> Result<Unopened<D>, FileError>
    ensures usable { IfOk result (λ it. AreUsable it) }
    ensures files { IfOk result (λ it. files_of it ≡ (files.log, files.db)) }
    ensures size { IfOk result (λ it. (state_of it).page_size ≡ used_size 4096 has_sums) }
{
    if !files.log.may_be_used() || !files.db.may_be_used() {
        return Err(FileError::Failed(StoreError::Io));
    }
    let size = PageSize::new(PAGE_SIZE).unwrap();
    let Ok(pager) = Pager::new(alloc, files, size, options) else {
        return Err(FileError::Failed(StoreError::OutOfMemory));
    };
    match Unopened::with_sums(alloc, pager, &latest(), has_sums) {
        Ok(it) => Ok(it),
        Err(_) => Err(FileError::Failed(StoreError::OutOfMemory)),
    }
}

/// Why files are not opened. `NotSqlite` where they are no sound SQLite files with these pages.
fn failure(e: OpenError) -> FileError {
    match e {
        OpenError::OutOfMemory => FileError::Failed(StoreError::OutOfMemory),
        OpenError::Io => FileError::Failed(StoreError::Io),
        OpenError::Full => FileError::Failed(StoreError::Full),
        OpenError::Refused => FileError::NotSqlite,
    }
}

/// The rows of a file's list without the pages where trees begin.
fn without_roots(alloc: Global, listed: &[Row]) -> Result<Vec<Row>, AllocError> {
    let mut rows = Vec::new(alloc);
    for entry in listed {
        let mut row = Row::new(alloc);
        for at in [0, 1, 2, 3, 5] {
            row.push(entry.get(at))?;
        }
        rows.push(row)?;
    }
    Ok(rows)
}

/// The place of the table of marks in the list of a file, since version 3.
const MARK_AT: usize = 5;

/// The page where the table of marks begins, of the list of a file whose commits have marks.
fn mark_root(listed: &[Row]) -> u32 {
    match listed.get(MARK_AT) {
        Some(row) => match row.get(4) {
            ValueRef::Int(root) => u32::try_from(root).unwrap_or(0),
            _ => 0,
        },
        None => 0,
    }
}

/// What files list.
#[derive(Clone, Copy, Drop)]
pub struct Catalog {
    pub listed: Listed,
    /// The page where the table of marks begins, where it has one.
    pub mark_root: u32,
}

/// What files list, of which only that is read.
pub fn list_of_files<D: Disk>(alloc: Global, it: &mut Unopened<D>) -> Result<Catalog, FileError>
    requires { AreUsable it.old }
    ensures usable { OnOk result (AreUsable it.new) }
{
    match it.read_catalog() {
        Ok(listed) => {
            let rows = without_roots(alloc, listed.as_slice())?;
            Ok(Catalog {
                listed: list_in(alloc, rows.as_slice())?,
                mark_root: mark_root(listed.as_slice()),
            })
        }
        Err(e) => Err(failure(e)),
    }
}

/// What the file at a path lists. `NotSqlite` where it does not begin as a SQLite file does, is none, or has pages of another size.
/// The log of a file that does not begin so is not touched: it may have the mark of a creation that was cut off.
pub fn list_at(rt: &HostRuntime, path: &str) -> Result<Listed, FileError> {
    if head_at(rt, path)? != Found::Sqlite {
        return Err(FileError::NotSqlite);
    }
    let has_sums = has_sums_at(rt, path)?;
    let options = options(rt)?;
    match sqlite_std_file::open(rt, path, Unknown) {
        Ok(files) => listed_in(rt.alloc(), unopened(rt.alloc(), files, options, has_sums)?),
        Err(e) => Err(e.into()),
    }
}

/// The store of files with the tables of version 4, whose pages and trees are tested.
pub fn opened<D: Disk + Drop>(it: Unopened<D>) -> Result<FileStore<D>, FileError>
    requires { AreUsable it }
    ensures numbered { IfOk result (λ store. IsTrue (view store).is_numbered) }
    ensures rests { IfOk result (λ store. (view store).committed ≡ (view store).trees) }
    ensures found { IfOk result (λ store. IsClean (view store) → (has_sums : Bool) → (state_of it).page_size ≡ used_size 4096 has_sums
        → IsFoundIn (image it) (view store).trees) }
{
    match it.open_numbered() {
        Ok(store) => Ok(store),
        Err((e, _)) => Err(failure(e)),
    }
}

/// Closes files that were not opened.
pub fn left<D: Disk + Drop>(it: Unopened<D>) {
    drop(it.close());
}

/// What files list that were not opened yet. Nothing else of them is read.
pub fn listed_in<D: Disk + Drop>(alloc: Global, mut it: Unopened<D>) -> Result<Listed, FileError>
    requires { AreUsable it }
{
    let list = list_of_files(alloc, &mut it);
    left(it);
    Ok(list?.listed)
}

/// The store of files that SQL opens. A new file has sums of its pages, or not.
pub fn by_sql<D: Disk + Drop>(
    alloc: Global,
    files: Files<D>,
    options: Options,
    has_sums: bool,
) -> Result<FileStore<D>, FileError>
    ensures rests { IfOk result (λ store. RestsNumbered (view store)) }
    ensures found { IfOk result (λ store. IsClean (view store) → IsTrue (view store).is_open → (db : Trees)
        → HoldsDatabase (image_of D.Disk files) db → (view store).trees ≡ db) }
{
    if !files.may_be_used() {
        return Err(FileError::Failed(StoreError::Io));
    }
    match Connection::open_files_with(alloc, files, options, has_sums) {
        Ok(conn) => Ok(conn.into_store()),
        Err((e, _)) => Err(e.into()),
    }
}

/// The store of the files at a path, each of whose rows is read and tested with its entries in the indices. `CannotOpen` where
/// SQLite takes the path for no file's name.
pub fn connected<S: Start>(
    rt: &HostRuntime,
    path: &str,
    has_sums: bool,
    wary: bool,
    start: S,
) -> Result<FileStore<SiteFile<S>>, FileError>
    ensures rests { IfOk result (λ store. RestsNumbered (view store)) }
    ensures found { IfOk result (λ store. ShowsHeld (image_at S.Start) (view store)) }
{
    if path == ":memory:" || path.starts_with("file:") {
        return Err(FileError::CannotOpen);
    }
    let options = options(rt)?;
    match files_at(rt, path, wary, start) {
        Ok(files) => by_sql(rt.alloc(), files, options, has_sums),
        Err(e) => Err(e.into()),
    }
}

/// The store of files of version 4, whose pages end in sums or not.
fn latest_of<D: Disk + Drop>(
    alloc: Global,
    files: Files<D>,
    options: Options,
    has_sums: bool,
) -> Result<FileStore<D>, FileError>
    ensures rests { IfOk result (λ store. RestsNumbered (view store)) }
    ensures found { IfOk result (λ store. IsClean (view store) → IsFoundIn (image_of D.Disk files) (view store).trees) }
{
    let it = unopened(alloc, files, options, has_sums)?;
    opened(it)
}

/// The store of a file of version 4: its list, its pages and its trees are tested, and what rows say of each other is not.
/// `NotSqlite` where it is none, or damaged: where its pages end in sums
/// each is tested.
pub fn latest_at<S: Start>(
    rt: &HostRuntime,
    path: &str,
    wary: bool,
    start: S,
) -> Result<FileStore<SiteFile<S>>, FileError>
    ensures rests { IfOk result (λ store. RestsNumbered (view store)) }
    ensures found { IfOk result (λ store. ShowsHeld (image_at S.Start) (view store)) }
{
    let has_sums = has_sums_at(rt, path)?;
    let options = options(rt)?;
    match files_at(rt, path, wary, start) {
        Ok(files) => latest_of(rt.alloc(), files, options, has_sums),
        Err(e) => Err(e.into()),
    }
}
