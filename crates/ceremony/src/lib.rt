//! Ceremonies, from USB packets to a site's verdict: CTAPHID and CTAP 2.1 below, the steps of WebAuthn Level 2, section 7,
//! on top.
#![tactic(auto)]

mod error;
mod law;
mod live;
mod registration;
mod signing_in;

pub use error::Error;
pub use law::one_verdict;
pub use live::{Fed, Live};
pub use registration::{Enrolled, register};
pub use signing_in::{Accepted, sign_in};
