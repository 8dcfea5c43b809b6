//! What a relying party keeps in memory: its credentials in a table, found by id without a walk and shown in order of registration
//! (WebAuthn Level 2, section 7); and the ceremonies that it has begun, as open sessions by number, each with what it expects
//! (sections 7.1 and 7.2), which may end by themselves.
#![tactic(auto)]

mod began_at;
mod detail;
mod error;
mod row;
mod session;
mod sessions;
mod table;
mod timed;

pub use detail::Detail;
pub use error::BeginError;
pub use row::Row;
pub use session::{Asks, Session};
pub use sessions::{
    MAX_LISTED, MAX_OPEN, Sessions, Started, max_listed, registration_session, sign_in_session,
};
pub use table::{MAX_ROWS, MAX_USER, Rows, Table, TableError, is_within};
pub use timed::TimedSessions;
