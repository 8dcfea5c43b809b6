//! The files of a copy that is made.

use crate::path::log_of;
use std::fs::{self, File, OpenOptions};
use std::io;

/// The file that is copied, its log, the copy, and the names under which the copy is made.
#[derive(Drop)]
pub struct Names {
    pub file: String,
    pub log: String,
    pub to: String,
    pub to_log: String,
    pub part: String,
    pub part_log: String,
}

impl Names {
    pub fn new(rt: &HostRuntime, path: &str, to: &str) -> io::Result<Names> {
        let alloc = rt.alloc();
        Ok(Names {
            file: String::from_str(alloc, path)?,
            log: log_of(rt, path)?,
            to: String::from_str(alloc, to)?,
            to_log: format!(in alloc; "{to}-wal")?,
            part: format!(in alloc; "{to}.part")?,
            part_log: format!(in alloc; "{to}.part-wal")?,
        })
    }
}

/// Removes a file, if it is there.
fn remove(rt: &HostRuntime, path: &str) -> io::Result<()> {
    if fs::exists(rt, path)? {
        fs::remove_file(rt, path)?;
    }
    Ok(())
}

/// Removes what is there under the names of the parts.
pub fn remove_parts(rt: &HostRuntime, names: &Names) -> io::Result<()> {
    remove(rt, names.part.as_str())?;
    remove(rt, names.part_log.as_str())
}

/// Copies the file and its log.
pub fn copy_parts(rt: &HostRuntime, names: &Names) -> io::Result<()> {
    remove_parts(rt, names)?;
    fs::copy(rt, names.file.as_str(), names.part.as_str())?;
    if fs::exists(rt, names.log.as_str())? {
        fs::copy(rt, names.log.as_str(), names.part_log.as_str())?;
    }
    Ok(())
}

/// Flushes the folder of a file, so that its name outlives a crash.
fn flush_folder(rt: &HostRuntime, path: &str) -> io::Result<()> {
    let mut folder = fs::canonicalize(rt, path)?;
    folder.pop();
    let folder = File::open(rt, folder.as_str())?;
    folder.sync_all()
}

/// Flushes the part, which needs no log, and gives it the name of the copy.
pub fn name_part(rt: &HostRuntime, names: &Names) -> io::Result<()> {
    let file = OpenOptions::new()
        .write(true)
        .open(rt, names.part.as_str())?;
    file.sync_all()?;
    remove(rt, names.part_log.as_str())?;
    fs::rename(rt, names.part.as_str(), names.to.as_str())?;
    if let Err(e) = flush_folder(rt, names.to.as_str()) {
        remove(rt, names.to.as_str())?;
        return Err(e);
    }
    Ok(())
}
