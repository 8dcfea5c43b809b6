//! The first line of a list: of an order of refusals the one that applies, of a list of steps the one that
//! fails, of a table the one whose test is true. Definitions and their laws; nothing here runs.
#![tactic(auto)]

mod law;

pub use law::{Line, joined_lines, one_first_line, tested_lines};
