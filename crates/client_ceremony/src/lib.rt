//! A client's ceremony with a security key, step by step: which message is next, what the host or the user is asked
//! for, and what came of it (CTAP 2.1, section 6; WebAuthn Level 2, sections 5.1.3 and 5.1.4). It keeps no state: the
//! call is made again with more of what is known.
#![tactic(auto)]

mod assertions;
mod commands;
mod halt;
mod next;
mod pin_setting;
mod refusal;
mod replies;
mod step;
mod tokens;
mod told;
mod verified;
mod verifying;
mod way;
mod wish;

pub use next::next_step;
pub use refusal::Refusal;
pub use step::Step;
pub use way::is_discoverable;
pub use wish::{Asserting, Creating, Known, Requirement, Wish};
