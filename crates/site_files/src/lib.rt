//! A relying party's site over a SQLite file.
#![tactic(auto)]

mod backing_up;
mod bounds;
mod closing;
mod creating;
mod earlier;
mod error;
mod looking;
mod opening;
mod stores;
mod tables;

pub use backing_up::backup;
pub use closing::close;
pub use creating::{create, create_over};
pub use error::FileError;
pub use opening::{open, open_over};
pub use site_disk::{SiteDisk, SiteFile, WaryStart};
use site_stored::StoredSite;
pub use sqlite::{FileFrom, FileStore, Start, Unknown};

/// A site over a file and its log.
pub type FileSite<S> = StoredSite<FileStore<SiteFile<S>>>;
