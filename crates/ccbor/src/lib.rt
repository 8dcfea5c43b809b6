//! Canonical CBOR: the CTAP2 canonical CBOR encoding form of CTAP 2.1, "Message Encoding", over the
//! heads of RFC 8949, section 3.
//!
//! An encoding is a head and then a body. The head is one byte, with a major type and an info, and
//! then the argument, if that byte has no room for it:
//!
//! ```text
//!      first byte            0, 1, 2, 4 or 8 bytes
//!   +--------+---------+   +-------------------------+   +---------+
//!   | major  |  info   |   | argument, highest first |   |  body   |
//!   | 3 bits | 5 bits  |   |                         |   |         |
//!   +--------+---------+   +-------------------------+   +---------+
//!
//!   info 0 to 23           the argument is the info
//!   info 24, 25, 26, 27    the argument is in the next 1, 2, 4, 8 bytes
//!
//!   major   argument                     body
//!   0       the number n                 none
//!   1       n, for the number -1 - n     none
//!   2       how many bytes               the bytes
//!   3       how many bytes               the bytes, which are UTF-8
//!   4       how many items               the items
//!   5       how many pairs               key, value, key, value, ..
//!   7       20 for false, 21 for true    none
//! ```
//!
//! Each argument has its shortest form, a map's keys are numbers or texts in order, and at most
//! four arrays and maps lie in one another. There is nothing else: no tags, floats, null or
//! indefinite lengths. So each [`Value`] has one encoding or none, and [`decode`] takes no other.
//! A [`View`] reads a value where its encoding lies.
#![tactic(auto)]

mod access;
mod appending;
mod error;
mod front;
mod head;
mod law;
mod leaf;
mod order;
mod passing;
mod reading;
mod value;
mod view;
mod writing;

pub use access::{is_end, split_key, value_at};
pub use appending::{append_bytes, append_map_head, append_text, append_unsigned};
pub use error::Error;
pub use front::bytes_first;
pub use law::{nothing_first, one_spelling, shown_values};
pub use reading::{decode, decode_all};
pub use value::{MAX_DEPTH, MapKey, Value};
pub use view::{ArrayView, MapView, View};
pub use writing::encode;
