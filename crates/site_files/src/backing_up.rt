//! A copy of a site's file.

use crate::closing::copied_and_closed;
use crate::error::{FileError, copy_failure};
use crate::looking::list_with_log;
use crate::stores::latest_at;
use crate::tables::Listed;
use site_disk::{Names, copy_parts, name_part, remove_parts};
use sqlite::Unknown;
use std::fs;

/// That the file is there, and nothing at the name of the copy.
fn check_names(rt: &HostRuntime, names: &Names) -> Result<(), FileError> {
    if !fs::exists(rt, names.file.as_str())? {
        return Err(FileError::NoFile);
    }
    if fs::exists(rt, names.to.as_str())? || fs::exists(rt, names.to_log.as_str())? {
        return Err(FileError::Exists);
    }
    Ok(())
}

/// Copies the log into the part, which is a sound SQLite file with the tables of a site, from which its log goes on.
fn settle(rt: &HostRuntime, part: &str) -> Result<(), FileError> {
    // An open would pass over a log whose header is damaged, and cut it off.
    if list_with_log(rt, part)? != Listed::Latest {
        return Err(FileError::OtherTables);
    }
    match latest_at(rt, part, true, Unknown) {
        Ok(store) => copied_and_closed(store),
        Err(e) => Err(e),
    }
}

/// Makes the part whole.
fn make_part(rt: &HostRuntime, names: &Names) -> Result<(), FileError> {
    copy_parts(rt, names).map_err(copy_failure)?;
    settle(rt, names.part.as_str())?;
    name_part(rt, names).map_err(copy_failure)
}

/// Copies a site's file, as it was last committed, to a new file, which needs no log and appears under its name once it is whole.
/// The site may be open, but nothing is written meanwhile.
///
/// It is made under the names `TO.part` and `TO.part-wal`; what an earlier backup that was cut off left there is replaced.
///
/// `NoFile` where no file stands at the path, `Exists` where a file or a log stands at the other name; `NotSqlite`, `DamagedLog`,
/// `OtherLog` and `OtherTables` where the copy is no sound file of a site; `CannotOpen` and `Failed` where the system, the disk or
/// memory failed.
/// No new file is there then.
pub fn backup(rt: &HostRuntime, path: &str, to: &str) -> Result<(), FileError> {
    let names = Names::new(rt, path, to)?;
    check_names(rt, &names)?;
    let done = make_part(rt, &names);
    if done.is_err() {
        let _ = remove_parts(rt, &names);
    }
    done
}
