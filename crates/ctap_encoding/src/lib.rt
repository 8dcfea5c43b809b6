//! The message encoding of CTAP 2.1 (section 8): maps of CBOR whose members a table describes, as those of section 6 (the faults
//! of a value against a table, and reading a map's members where they lie); the command bytes and the numbers of members
//! (section 6), and the status bytes (section 8.2); and why a message is not read or not written.
#![tactic(auto)]

mod building;
pub mod command;
mod error;
mod fault;
mod faults;
mod law;
mod leaf;
mod map_error;
pub mod member;
pub mod status;
mod table;
mod walk;

pub use building::{bytes_value, push_if_there, push_member, text_value};
pub use error::Error;
pub use fault::Fault;
pub use faults::gravest;
pub use law::status_numbers;
pub use leaf::{
    any_map, bytes, not_empty, number, sized, text, that_text, truth, truth_if_there, unsigned,
};
pub use map_error::{MapError, Shape};
pub use table::Holds;
pub use walk::{end, items, members, optional, required};
