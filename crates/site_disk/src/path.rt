//! What stands at a path, looked at before SQLite's files are opened.

use std::fs::{self, File};
use std::io::{self, Read};
use std::path::PathBuf;

/// What a SQLite file begins with (fileformat2.html, 1.2).
const HEAD: [u8; 16] = *b"SQLite format 3\0";

/// What stands at a path.
#[derive(Clone, Copy, PartialEq, Eq, Drop)]
pub enum Found {
    /// No file.
    Nothing,
    /// No file, but its log.
    LoneLog,
    /// An empty file, without a log: a creation was cut off before it wrote.
    Empty,
    /// A file that begins as a SQLite file does, or one with a log, which may have the file's first page.
    Sqlite,
    /// Another file.
    Other,
}

/// The path of a file's log, which stands beside the file that a link leads to.
pub fn log_of(rt: &HostRuntime, path: &str) -> io::Result<String> {
    let real = match fs::canonicalize(rt, path) {
        Err(e) if e.kind() == io::ErrorKind::NotFound => PathBuf::from(String::from_str(
            rt.alloc(),
            path,
        )?),
        real => real?,
    };
    Ok(format!(in rt.alloc(); "{}-wal", real.as_str())?)
}

/// What a file begins as.
pub fn head_at(rt: &HostRuntime, path: &str) -> io::Result<Found> {
    if fs::metadata(rt, path)?.len() == 0 {
        return Ok(Found::Empty);
    }
    let mut file = File::open(rt, path)?;
    let mut head = [0; 16];
    match file.read_exact(&mut head) {
        Ok(()) if head == HEAD => Ok(Found::Sqlite),
        Ok(()) => Ok(Found::Other),
        Err(e) if e.kind() == io::ErrorKind::UnexpectedEof => Ok(Found::Other),
        Err(e) => Err(e),
    }
}

/// Whether the header of a file says that 8 bytes of each page are reserved, for its sum. In a file with sums they are.
pub fn has_sums_at(rt: &HostRuntime, path: &str) -> io::Result<bool> {
    let mut file = File::open(rt, path)?;
    let mut head = [0; 21];
    match file.read_exact(&mut head) {
        Ok(()) => Ok(head[20] == 8),
        Err(e) if e.kind() == io::ErrorKind::UnexpectedEof => Ok(false),
        Err(e) => Err(e),
    }
}

/// What stands at a path.
pub fn found_at(rt: &HostRuntime, path: &str) -> io::Result<Found> {
    let has_log = fs::exists(rt, log_of(rt, path)?.as_str())?;
    match (fs::exists(rt, path)?, has_log) {
        (true, true) => Ok(Found::Sqlite),
        (true, false) => head_at(rt, path),
        (false, true) => Ok(Found::LoneLog),
        (false, false) => Ok(Found::Nothing),
    }
}
