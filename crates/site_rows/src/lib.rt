//! A relying party's credentials in a store's trees: each a row of a table, found by its id and by its user; and what is known
//! of them beside what verdicts ask for, in a table of its own.
#![tactic(auto)]

mod credentials;
mod detail;
mod details;
mod ending;
mod entries;
mod error;
mod finding;
mod listing;
mod trees;
mod values;
mod writing;

pub use credentials::{credential_row, read_credential};
pub use detail::{detail_row, read_detail};
pub use details::{delete_detail, find_detail, mark_used, put_detail};
pub use ending::{Ending, find_ending, purge_ending, put_ending};
pub use error::RowError;
pub use finding::{Found, find, lent};
pub use listing::find_all;
pub use trees::{CREDENTIAL_TREE, DETAIL_TREE, ID_TREE, USER_TREE};
pub use values::{blob_at, int_at, text_at, truth, truth_in, truth_or_null};
pub use writing::{add, remove, set};
