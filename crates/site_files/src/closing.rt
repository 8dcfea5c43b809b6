//! Ending a site over a file.

use crate::FileSite;
use crate::error::FileError;
use sqlite::{FileStore, Start};
use sqlite_disk::Disk;
use sqlite_trees::store::Store;

/// Why nothing is made over a store of files, which is closed.
pub(crate) fn closed<D: Disk + Drop>(refused: (FileError, FileStore<D>)) -> FileError {
    let (e, store) = refused;
    drop(store.close());
    e
}

/// Copies the log into the file, and closes both.
pub(crate) fn copied_and_closed<D: Disk + Drop>(mut store: FileStore<D>) -> Result<(), FileError> {
    let copied = store.checkpoint();
    drop(store.close());
    copied?;
    Ok(())
}

/// The same, where what is not committed is undone first.
fn ended<D: Disk + Drop>(mut store: FileStore<D>) -> Result<(), FileError> {
    store.rollback();
    copied_and_closed(store)
}

/// Copies the log into the file, and closes both: the file alone is the site then. What is not committed is undone. A site that is
/// only dropped needs its log.
///
/// `Failed` where the disk or memory failed: the next `open` finds what was committed.
pub fn close<S: Start>(site: FileSite<S>) -> Result<(), FileError> {
    ended(site.close())
}
