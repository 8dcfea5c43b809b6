//! DER, the distinguished encoding rules of ASN.1 (X.690, sections 8, 10 and 11), read where the bytes lie.
//!
//! An element is one identifier octet, a length and the content:
//!
//! ```text
//!    identifier octet                    length                        content
//!   +-------+-------------+--------+   +----------------------------+   +---------+
//!   | class | constructed | number |   | in the fewest octets, 1..5 |   |         |
//!   | 2 bits| 1 bit       | 5 bits |   | highest first              |   |         |
//!   +-------+-------------+--------+   +----------------------------+   +---------+
//! ```
//!
//! Each length has its one form, and so has each content that is read here: booleans, integers, bit strings and
//! object identifiers. Tag numbers are at most 30, and a length is below 2^32. Nothing is copied, no memory is
//! taken, and no function calls itself.
#![tactic(auto)]

mod contents;
mod element;
mod error;
mod identifiers;
mod tag;

pub use contents::{
    BitString, Integer, read_bit_string, read_boolean, read_integer, read_unsigned,
};
pub use element::{Element, read_element, read_optional, read_tagged, read_whole};
pub use error::Error;
pub use identifiers::read_object_identifier;
pub use tag::{Class, Tag};
