//! The messages of a PIN (CTAP 2.1, section 6.5), a key's end: requests of authenticatorClientPIN read, replies written,
//! and what a makeCredential or getAssertion has of pinUvAuthParam.
#![tactic(auto)]

mod asked;
mod bare;
mod info;
mod maps;
mod param;
mod reading;
mod writing;

pub use asked::{OptionsAsked, ParamView, PinAsked, ProtectedRequest};
pub use bare::{bare_request, protected_request};
pub use info::write_key_info;
pub use param::read_param;
pub use reading::read_pin;
pub use writing::write_pin_reply;
