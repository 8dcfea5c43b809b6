//! A security key (CTAP 2.1, sections 6 and 11.2): a device of CTAPHID, its authenticator, and its PIN where it takes one, in one
//! act at a time, for a host that signs and computes elsewhere.
#![tactic(auto)]

mod acts;
mod command;
mod computing;
mod deciding;
mod error;
mod key;
mod reading;
mod saving;
mod sending;
mod stage;

pub use error::{KeyError, KeyLoadError};
pub use key::{KeyDevice, UserVerification};
pub use stage::Told;
