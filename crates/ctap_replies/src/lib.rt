//! Replies of CTAP 2.1 (sections 6.1 to 6.4 and 6.6), in the message encoding of section 8.
#![tactic(auto)]

mod assertions;
mod maps;
mod reading;
mod reply;
mod tables;
mod usual;
mod values;
mod writing;

pub use assertions::write_assertion;
pub use reading::{read_assertion, read_creation, read_reply};
pub use reply::{AssertionReply, AssertionView, CreationReply, InfoReply, Kind, Reply};
pub use writing::write_reply;
