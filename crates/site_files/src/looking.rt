//! What an open would find in the files at a path, looked at before one of them is changed.

ghost use Rattle.std.specs.Prelude.{IfOk, OnOk};
ghost use Rattle.sqlite_store.specs.FileStore.{view};
ghost use Rattle.sqlite_store.specs.Unopened.{AreUsable};
ghost use Rattle.site_rows.specs.Calls.{IfClean};
ghost use Rattle.site_files.specs.Files.{IsNumbered};

use crate::error::FileError;
use crate::stores::{Catalog, by_sql, left, list_of_files, listed_in, opened, options, unopened};
use crate::tables::Listed;
use site_disk::{
    Found, Seen, ShortLog, goes_on, has_sums_at, head_at, is_in_use, log_at, mark_on,
    may_hold_commits, memory_of, seen_files, short_log,
};
use sqlite::{FileStore, Options};
use sqlite_disk::Disk;
use sqlite_store::Unopened;
use std::fs;

/// As for an open, but that the log is never copied into the file.
fn options_without_checkpoint(rt: &HostRuntime) -> Result<Options, FileError> {
    let mut options = options(rt)?;
    options.checkpoint_frames = usize::MAX;
    Ok(options)
}

/// The log of the file at a path, as it is to be read. `DamagedLog` where its header is damaged, and `NotSqlite` where the file is
/// empty and the log may hold commits: an open would begin anew.
fn log_beside(rt: &HostRuntime, path: &str) -> Result<Vec<u8>, FileError> {
    let Some(log) = log_at(rt, path)? else {
        return Err(FileError::DamagedLog);
    };
    if may_hold_commits(log.len() as u64) && fs::metadata(rt, path)?.len() == 0 {
        return Err(FileError::NotSqlite);
    }
    Ok(log)
}

/// That the log of a file whose commits have marks goes on from it.
fn check_log(rt: &HostRuntime, path: &str, log: &[u8], mark_root: u32) -> Result<(), FileError> {
    let mut memory = memory_of(rt.alloc(), log)?;
    let file = mark_on(rt, path, mark_root)?;
    if !goes_on(rt.alloc(), &mut memory, mark_root, file)? {
        return Err(FileError::OtherLog);
    }
    Ok(())
}

/// What files list. `OtherLog` where its commits have marks and the log does not go on from the file.
fn checked_list<D: Disk>(
    rt: &HostRuntime,
    path: &str,
    log: &[u8],
    it: &mut Unopened<D>,
) -> Result<Listed, FileError>
    requires { AreUsable it.old }
    ensures usable { OnOk result (AreUsable it.new) }
{
    let Catalog { listed, mark_root } = list_of_files(rt.alloc(), it)?;
    if listed.has_marks() {
        check_log(rt, path, log, mark_root)?;
    }
    Ok(listed)
}

/// The files at a path, whose writes are kept in memory, with this log.
fn seen_at(rt: &HostRuntime, path: &str, log: &[u8]) -> Result<Unopened<Seen>, FileError>
    ensures usable { IfOk result (λ it. AreUsable it) }
{
    let has_sums = has_sums_at(rt, path)?;
    let options = options_without_checkpoint(rt)?;
    match seen_files(rt, path, log) {
        Ok(files) => unopened(rt.alloc(), files, options, has_sums),
        Err(e) => Err(e.into()),
    }
}

/// The store of the same, which SQL opens.
fn seen_by_sql(rt: &HostRuntime, path: &str, log: &[u8]) -> Result<FileStore<Seen>, FileError>
    ensures numbered { IfOk result (λ store. IfClean (view store) IsNumbered) }
{
    let options = options_without_checkpoint(rt)?;
    match seen_files(rt, path, log) {
        Ok(files) => by_sql(rt.alloc(), files, options, false),
        Err(e) => Err(e.into()),
    }
}

/// The store of the files at a path, whose writes are kept in memory. `DamagedLog` where the header of the log is damaged, `OtherLog`
/// where it does not go on from the file, and else as an open refuses them.
pub fn looked_at(rt: &HostRuntime, path: &str) -> Result<FileStore<Seen>, FileError>
    ensures numbered { IfOk result (λ store. IfClean (view store) IsNumbered) }
{
    let log = log_beside(rt, path)?;
    let mut it = seen_at(rt, path, log.as_slice())?;
    match checked_list(rt, path, log.as_slice(), &mut it) {
        Ok(Listed::Latest) => opened(it),
        // SQL names what is refused.
        Ok(_) | Err(FileError::NotSqlite) => {
            left(it);
            seen_by_sql(rt, path, log.as_slice())
        }
        Err(e) => {
            left(it);
            Err(e)
        }
    }
}

/// What the file at a path lists, with its log. `DamagedLog` and `OtherLog` as `looked_at`.
pub fn list_with_log(rt: &HostRuntime, path: &str) -> Result<Listed, FileError> {
    if head_at(rt, path)? != Found::Sqlite {
        return Err(FileError::NotSqlite);
    }
    let log = log_beside(rt, path)?;
    let mut it = seen_at(rt, path, log.as_slice())?;
    let listed = checked_list(rt, path, log.as_slice(), &mut it);
    left(it);
    listed
}

/// The first mark of a site that is only looked at: nothing of it is written.
pub const NO_MARK: u64 = 0;

/// The key of a site of an earlier version that is only looked at.
pub const NO_KEY: [u8; 32] = [0; 32];

/// That a site was made over what is looked at, or why not.
pub fn outcome_of<T: Drop, S: Drop>(outcome: Result<T, (FileError, S)>) -> Result<(), FileError> {
    match outcome {
        Ok(_site) => Ok(()),
        Err((e, _store)) => Err(e),
    }
}

/// The log of a file at a path that lists the tables of version 4, where it is too short for a commit: an open of it writes
/// nothing but a new log.
pub fn plain_log(rt: &HostRuntime, path: &str) -> Result<Option<ShortLog>, FileError> {
    if head_at(rt, path)? != Found::Sqlite {
        return Ok(None);
    }
    let Some(log) = short_log(rt, path)? else {
        return Ok(None);
    };
    let it = seen_at(rt, path, &[])?;
    Ok(match listed_in(rt.alloc(), it)? {
        Listed::Latest => Some(log),
        _ => None,
    })
}

/// Why files are refused: `InUse` where somebody has them open, since they were read while he may have written them.
pub fn unless_in_use(rt: &HostRuntime, path: &str, e: FileError) -> FileError {
    if e == FileError::NoFile || e == FileError::LoneLog {
        return e;
    }
    match is_in_use(rt, path) {
        Ok(true) => FileError::InUse,
        _ => e,
    }
}
