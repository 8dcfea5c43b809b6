//! The log beside a file, looked at, mended and put back.

ghost use Rattle.std.specs.Prelude.{◌↔◌, ◌≤◌, IsTrue};

use crate::path::log_of;
use sqlite::Unknown;
use sqlite_std_file::OpenError;
use sqlite_wal::checksum_of;
use std::fs::{self, File, OpenOptions};
use std::io::{self, Read};
use std::os::unix::fs::FileExt;

/// The bytes of a log's header and of a frame's: SQLite passes over a log that is shorter.
const SHORTEST: u64 = 56;

/// What the header of a log begins with (fileformat2.html, 4.1). It is written alone, as a log ends and as one begins, so that a crash may
/// leave any byte there.
const FIRST: u8 = 0x37;

/// The number at this place of a log's header.
fn number_at(log: &[u8], at: usize) -> u32 {
    match log.get(at..at.saturating_add(4)) {
        Some([a, b, c, d]) => u32::from_be_bytes([*a, *b, *c, *d]),
        _ => 0,
    }
}

/// Whether the header of a log is whole (fileformat2.html, 4.1), whatever its first byte is.
fn is_whole(log: &[u8]) -> bool {
    let mut signed = [0; 24];
    let Some(found) = log.get(..24) else {
        return false;
    };
    signed.copy_from_slice(found);
    signed[0] = FIRST;
    let is_big = match number_at(&signed, 0) {
        0x377f_0682 => false,
        0x377f_0683 => true,
        _ => return false,
    };
    checksum_of(is_big, (0, 0), &signed) == (number_at(log, 24), number_at(log, 28))
}

/// Whether a log may hold commits, by its length.
pub fn may_hold_commits(len: u64) -> bool
    ensures { IsTrue result ↔ (56 ≤ len) }
{
    SHORTEST <= len
}

/// A log as it is to be read, whose first byte is put in where the rest of its header is whole: as it ended, all of it is in the file,
/// and as it begins, it has no frame. None where the header is damaged: no log is passed over that may hold commits. While a header
/// is written its first byte is 0.
fn read_as(mut log: Vec<u8>) -> Option<Vec<u8>> {
    if !may_hold_commits(log.len() as u64) {
        return Some(log);
    }
    if is_whole(log.as_slice()) {
        log.as_mut_slice()[0] = FIRST;
        return Some(log);
    }
    if log.first() == Some(&0) {
        return Some(log);
    }
    None
}

/// The bytes of the log of a file at a path, none where it is not there, as they are to be read. `None` where its header is damaged.
pub fn log_at(rt: &HostRuntime, path: &str) -> io::Result<Option<Vec<u8>>> {
    let log = log_of(rt, path)?;
    if !fs::exists(rt, log.as_str())? {
        return Ok(Some(Vec::new(rt.alloc())));
    }
    Ok(read_as(fs::read(rt, log.as_str())?))
}

/// The log of a file, which is not there or too short for a commit: it says nothing.
#[derive(Drop)]
pub enum ShortLog {
    Absent,
    There(Vec<u8>),
}

/// The log of a file at a path, where it is too short for a commit.
pub fn short_log(rt: &HostRuntime, path: &str) -> io::Result<Option<ShortLog>> {
    let log = log_of(rt, path)?;
    if !fs::exists(rt, log.as_str())? {
        return Ok(Some(ShortLog::Absent));
    }
    if may_hold_commits(fs::metadata(rt, log.as_str())?.len()) {
        return Ok(None);
    }
    Ok(Some(ShortLog::There(fs::read(rt, log.as_str())?)))
}

/// Whether the header of the log at a path is whole but for its first byte.
fn lacks_first(rt: &HostRuntime, log: &str) -> io::Result<bool> {
    if !fs::exists(rt, log)? {
        return Ok(false);
    }
    let mut file = File::open(rt, log)?;
    let mut head = [0; 32];
    match file.read_exact(&mut head) {
        Ok(()) => Ok(head[0] != FIRST && is_whole(&head)),
        Err(e) if e.kind() == io::ErrorKind::UnexpectedEof => Ok(false),
        Err(e) => Err(e),
    }
}

/// Writes the first byte of the log at a path.
fn write_first(rt: &HostRuntime, log: &str) -> io::Result<()> {
    let file = OpenOptions::new().write(true).open(rt, log)?;
    file.write_all_at(&[FIRST], 0)?;
    file.sync_all()
}

/// Writes the first byte of the log at a path, where it is still wanted. These files are held meanwhile.
fn mend_held<H: Drop>(rt: &HostRuntime, log: &str, _held: H) -> io::Result<()> {
    if !lacks_first(rt, log)? {
        return Ok(());
    }
    write_first(rt, log)
}

/// The same, where nobody else has the files at the path.
fn mend_alone(rt: &HostRuntime, path: &str, log: &str) -> Result<(), OpenError> {
    match sqlite_std_file::open(rt, path, Unknown) {
        Ok(files) => Ok(mend_held(rt, log, files)?),
        Err(e) => Err(e),
    }
}

/// Writes the first byte of the log of a file at a path, where the rest of its header is whole: an open would pass over it. It is to
/// be looked at before.
pub fn mend_log(rt: &HostRuntime, path: &str) -> Result<(), OpenError> {
    let log = log_of(rt, path)?;
    if !lacks_first(rt, log.as_str())? {
        return Ok(());
    }
    // Another process may be about to write that byte.
    mend_alone(rt, path, log.as_str())
}

/// Takes away a log that an open has made, while it has the files.
fn remove_log(rt: &HostRuntime, path: &str) -> io::Result<()> {
    fs::remove_file(rt, log_of(rt, path)?.as_str())
}

/// Puts back a log. These files are held meanwhile.
fn write_back<H: Drop>(rt: &HostRuntime, path: &str, log: &ShortLog, _held: H) -> io::Result<()> {
    if !matches!(short_log(rt, path), Ok(Some(ShortLog::There(_)))) {
        return Ok(());
    }
    match log {
        ShortLog::Absent => remove_log(rt, path),
        ShortLog::There(bytes) => fs::write(rt, log_of(rt, path)?.as_str(), bytes.as_slice()),
    }
}

/// Puts back the log of files that an open has refused. Where that fails what is there is left: such a log says nothing.
pub fn put_back(rt: &HostRuntime, path: &str, log: &ShortLog) {
    if let Ok(files) = sqlite_std_file::open(rt, path, Unknown) {
        let _ = write_back(rt, path, log, files);
    }
}

/// Leaves no log that was not there. These files are held meanwhile.
fn leave<H: Drop>(rt: &HostRuntime, path: &str, had_log: bool, _held: H) -> io::Result<()> {
    if had_log {
        return Ok(());
    }
    remove_log(rt, path)
}

/// Opens the files at a path, which nobody else has, and leaves them.
fn open_and_leave(rt: &HostRuntime, path: &str, had_log: bool) -> Result<(), OpenError> {
    match sqlite_std_file::open(rt, path, Unknown) {
        Ok(files) => Ok(leave(rt, path, had_log, files)?),
        Err(e) => Err(e),
    }
}

/// Whether somebody has the files at a path open. No log is left that was not there.
pub fn is_in_use(rt: &HostRuntime, path: &str) -> Result<bool, OpenError> {
    let had_log = fs::exists(rt, log_of(rt, path)?.as_str())?;
    match open_and_leave(rt, path, had_log) {
        Ok(()) => Ok(false),
        Err(OpenError::Busy) => Ok(true),
        Err(e) => Err(e),
    }
}
