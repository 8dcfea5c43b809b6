//! A relying party whose credentials are rows of a SQLite file, and whose sessions are texts that it has sealed.
#![tactic(auto)]

mod begin;
mod change;
mod create;
mod details;
mod ending;
mod erase;
mod failure;
mod finish;
mod kept;
mod key;
mod law;
mod listing;
mod looking;
mod marks;
mod open;
mod registration;
mod rows;
mod scan;
mod session;
mod site_store;
mod summary;
mod trees;

pub use create::Bounds;
pub use failure::{BeginFailure, CreateFailure, Failure, FinishFailure, OpenFailure};
pub use finish::SignedIn;
pub use kept::StoredSite;
pub use law::stored_laws;
pub use open::Opening;
pub use registration::Registered;
pub use rows::site_row_of;
pub use session::{Begun, SessionFailure, number_in};
pub use summary::Summary;
pub use trees::{ENDED_SESSION_TREE, ENDED_USER_TREE, KEY_TREE, MARK_TREE, SITE_TREE};
