//! The files below a site: the disk, of two kinds, as they are opened; or what stands at a path, only looked at.
#![tactic(auto)]

mod copying;
mod log;
mod look;
mod mark;
mod path;
mod seen;
mod site_disk;

pub use copying::{Names, copy_parts, name_part, remove_parts};
pub use log::{ShortLog, is_in_use, log_at, may_hold_commits, mend_log, put_back, short_log};
pub use look::Look;
pub use mark::{FileMark, Mark, file_mark, goes_on, mark_in};
pub use path::{Found, found_at, has_sums_at, head_at};
pub use seen::{Seen, mark_on, memory_of, seen_files};
pub use site_disk::{SiteDisk, SiteFile, WaryStart, files_at};
