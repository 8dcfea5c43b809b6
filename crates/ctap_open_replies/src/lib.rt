//! Replies as keys give them (CTAP 2.1, sections 6.1 to 6.4): members that are not listed are passed over, and
//! those that are optional may be absent. `ctap_replies` has the strict reading.
#![tactic(auto)]

mod leaf;
mod lists;
mod maps;
mod reading;
mod reply;

pub use leaf::{bytes_if_there, number_at, sized_bytes_at, truth_if_there, unsigned_if_there};
pub use reading::{read_assertion, read_creation, read_info, value_of};
pub use reply::{KeyAssertion, KeyCreation, KeyInfo, ParametersView, UserView};
