//! The messages of authenticatorClientPIN (CTAP 2.1, section 6.5.5), a client's end: its requests written, and a key's
//! replies read with members that are not listed passed over.
#![tactic(auto)]

mod command;
mod maps;
pub mod permission;
mod reading;
mod reply;
pub mod subcommand;
mod values;
mod writing;

pub use command::{PinCommand, Point};
pub use maps::agreement_key_if_there;
pub use reading::{read_done, read_pin_reply};
pub use reply::{AgreementKey, PinReply};
pub use values::{bytes_if_there, number_if_there, point_value, text_if_there};
pub use writing::write_pin;
