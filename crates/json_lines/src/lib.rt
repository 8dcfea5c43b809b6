//! Lines of JSON, as both programs over lines read and write them. It does no output.
#![tactic(auto)]

mod error;
mod input;
mod line_id;
mod members;
mod names;
mod nesting;
mod reading;
mod writing;

pub use error::{LineError, LineFault};
pub use input::{READ_AT_ONCE, arguments, next_line};
pub use members::{
    bytes, decoded, flag, items, list_of_bytes, member, needed, number, optional_bytes,
    optional_text, text, text_or,
};
pub use names::check_names;
pub use nesting::{MAX_NESTING, nests_within};
pub use reading::{MAX_LINE, Numbered, read_object};
pub use writing::{base64_text, number_or_null, write_line};

/// The version of the programs.
pub const VERSION: &str = "0.1.0";
