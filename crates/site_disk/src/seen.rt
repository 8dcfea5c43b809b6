//! The files at a path, to be looked at.

ghost use Rattle.std.specs.Prelude.{IfOk, IsTrue};
ghost use Rattle.sqlite_disk.specs.Memory.{memory_is_usable};

use crate::look::Look;
use crate::mark::{FileMark, file_mark};
use sqlite::Files;
use sqlite_disk::{Disk, Memory};
use std::alloc::Global;
use std::fs::{self, File};
use std::io;
use std::os::unix::fs::FileExt;

/// A file that is looked at, as far as it is in memory.
pub type Seen = Look<Memory>;

/// A database file of no more bytes is read into memory: a first open that was cut off is finished there.
const SMALL: u64 = 65_536;

/// A file in memory with these bytes.
pub fn memory_of(alloc: Global, bytes: &[u8]) -> io::Result<Memory>
    ensures usable { IfOk result (λ memory. IsTrue (memory_is_usable memory)) }
{
    let mut memory = Memory::new(alloc);
    memory.write_at(0, bytes)?;
    Ok(memory)
}

/// The database file at this path.
fn database_at(rt: &HostRuntime, path: &str) -> io::Result<Seen> {
    if fs::metadata(rt, path)?.len() <= SMALL {
        let bytes = fs::read(rt, path)?;
        return Ok(Look::in_memory(memory_of(rt.alloc(), bytes.as_slice())?));
    }
    let file = File::open(rt, path)?;
    Ok(Look::on_disk(file, Memory::new(rt.alloc())))
}

/// The files at a path, whose log is read as these bytes.
pub fn seen_files(rt: &HostRuntime, path: &str, log: &[u8]) -> io::Result<Files<Seen>> {
    Ok(Files {
        log: Look::in_memory(memory_of(rt.alloc(), log)?),
        db: database_at(rt, path)?,
    })
}

/// What a file has on this page, where its log is left out.
pub fn mark_on(rt: &HostRuntime, path: &str, root: u32) -> io::Result<FileMark> {
    let file = File::open(rt, path)?;
    let mut page = [0; 4096];
    let at = u64::from(root.saturating_sub(1)) * 4096;
    match file.read_exact_at(&mut page, at) {
        Ok(()) => Ok(file_mark(Some(&page))),
        Err(e) if e.kind() == io::ErrorKind::UnexpectedEof => Ok(file_mark(None)),
        Err(e) => Err(e),
    }
}
