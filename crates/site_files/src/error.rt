//! Why a file is not made or opened as a site's.

use site_stored::{CreateFailure, OpenFailure};
use sqlite::{Error, ErrorCode};
use sqlite_std_file::OpenError;
use sqlite_trees::error::StoreError;
use sqlite_wal::Error as LogError;
use std::alloc::{AllocError, AllocFailed};
use std::io;

/// Why a file is not made or opened as a site's.
#[derive(Clone, Copy, Debug, PartialEq, Eq, Drop, thiserror::Error)]
pub enum FileError {
    /// No file stands at the path.
    #[error("there is no file at this path")]
    NoFile,
    /// A file stands at the path that holds something.
    #[error("there is a file at this path")]
    Exists,
    /// No file stands at the path, but its log does.
    #[error("there is no file at this path, but its log (FILE-wal): put the file back, or delete the log")]
    LoneLog,
    /// Another handle or another process has the file open.
    #[error("the file is in use")]
    InUse,
    /// The system doesn't open the file, or a second name, a link or a rollback journal stands in the way.
    #[error("the file can't be opened")]
    CannotOpen,
    /// The header of the file's log is damaged, and what it may hold would be passed over.
    #[error("the file's log (FILE-wal) is damaged")]
    DamagedLog,
    /// The file's log does not go on from it: one of the two was put there from elsewhere, as an older copy.
    #[error("the log (FILE-wal) is another file's, or of another time")]
    OtherLog,
    /// The file is no sound SQLite file.
    #[error("the file is no sound SQLite file")]
    NotSqlite,
    /// The file has other tables than a site's.
    #[error("the file has other tables than a site's")]
    OtherTables,
    /// The file is empty, or has no table, or its tables have no row of a site.
    #[error("the file has no site")]
    NoSite,
    /// The rp id is another, or the version is none.
    #[error("the file is of another site or version")]
    OtherSite,
    /// The version is a later one.
    #[error("the file is of a later version")]
    Newer,
    /// A session had a number that is none of those that the file says were given.
    #[error("the file is an older copy than is known")]
    Older,
    /// There are more credentials than a site has.
    #[error("there are more rows than a site has")]
    TooMany,
    /// A row is none that a site has written.
    #[error("a row is not one that a site has written")]
    BadRow,
    /// More than 1,000,000 credentials could be registered.
    #[error("a bound is above 1,000,000")]
    BadBound,
    /// The disk or memory failed.
    #[error("{0}")]
    Failed(StoreError),
}

impl From<io::Error> for FileError {
    fn from(e: io::Error) -> FileError {
        match e.kind() {
            io::ErrorKind::NotFound => FileError::NoFile,
            io::ErrorKind::OutOfMemory => FileError::Failed(StoreError::OutOfMemory),
            _ => FileError::CannotOpen,
        }
    }
}

impl From<AllocError> for FileError {
    fn from(_e: AllocError) -> FileError {
        FileError::Failed(StoreError::OutOfMemory)
    }
}

impl<T: Drop> From<AllocFailed<T>> for FileError {
    fn from(_e: AllocFailed<T>) -> FileError {
        FileError::Failed(StoreError::OutOfMemory)
    }
}

impl From<StoreError> for FileError {
    fn from(e: StoreError) -> FileError {
        FileError::Failed(e)
    }
}

impl From<Error> for FileError {
    fn from(e: Error) -> FileError {
        let Error::SqliteFailure(code) = e else {
            return FileError::CannotOpen;
        };
        match code {
            ErrorCode::DatabaseBusy => FileError::InUse,
            ErrorCode::NotADatabase | ErrorCode::DatabaseCorrupt => FileError::NotSqlite,
            ErrorCode::OutOfMemory => FileError::Failed(StoreError::OutOfMemory),
            ErrorCode::SystemIoFailure => FileError::Failed(StoreError::Io),
            ErrorCode::DiskFull => FileError::Failed(StoreError::Full),
            ErrorCode::Closed => FileError::Failed(StoreError::Broken),
            ErrorCode::ConstraintViolation(_) => FileError::BadRow,
            _ => FileError::CannotOpen,
        }
    }
}

impl From<OpenError> for FileError {
    fn from(e: OpenError) -> FileError {
        match e {
            OpenError::OutOfMemory => FileError::Failed(StoreError::OutOfMemory),
            OpenError::Busy => FileError::InUse,
            OpenError::Io(error) if error.kind() == io::ErrorKind::OutOfMemory => {
                FileError::Failed(StoreError::OutOfMemory)
            }
            _ => FileError::CannotOpen,
        }
    }
}

impl From<LogError> for FileError {
    fn from(e: LogError) -> FileError {
        match e {
            LogError::OutOfMemory => FileError::Failed(StoreError::OutOfMemory),
            LogError::Io(error) => error.into(),
            _ => FileError::NotSqlite,
        }
    }
}

/// Why a copy is not made.
pub(crate) fn copy_failure(e: io::Error) -> FileError {
    match e.kind() {
        io::ErrorKind::OutOfMemory => FileError::Failed(StoreError::OutOfMemory),
        io::ErrorKind::StorageFull => FileError::Failed(StoreError::Full),
        io::ErrorKind::NotFound | io::ErrorKind::PermissionDenied => FileError::CannotOpen,
        _ => FileError::Failed(StoreError::Io),
    }
}

impl From<CreateFailure> for FileError {
    fn from(e: CreateFailure) -> FileError {
        match e {
            CreateFailure::NotNew => FileError::Exists,
            CreateFailure::Failed(e) => FileError::Failed(e),
        }
    }
}

impl From<OpenFailure> for FileError {
    fn from(e: OpenFailure) -> FileError {
        match e {
            OpenFailure::NoSite => FileError::NoSite,
            OpenFailure::OtherSite => FileError::OtherSite,
            OpenFailure::Newer => FileError::Newer,
            OpenFailure::Older => FileError::Older,
            OpenFailure::TooMany => FileError::TooMany,
            OpenFailure::BadRow => FileError::BadRow,
            OpenFailure::Failed(e) => FileError::Failed(e),
        }
    }
}
