//! The authenticator's side of clientPIN (CTAP 2.1, section 6.5): a PIN is set, changed and tried, and tokens are given for
//! it. The mathematics is the host's: a call that wants some tells what it asks for, and is made again with the answer.
#![tactic(auto)]

mod checks;
mod computing;
mod end;
mod grants;
mod handling;
mod law;
mod outcome;
mod pins;
mod saving;
mod setting;
mod state;
mod tokens;
mod tries;
mod words;

pub use law::pin_laws;
pub use saving::PinLoadError;
pub use state::ClientPin;
pub use words::{Grant, PinStep, PinWords};
