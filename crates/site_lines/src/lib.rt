//! A site over lines: from a line of bytes to a line of bytes, each a JSON object. It does no input and no output.
#![tactic(auto)]

mod acting;
mod answer;
mod beginning;
mod finishing;
mod knowing;
mod line;
mod log;
mod tally;
mod values;
mod writing;

pub use acting::carry_out;
pub use answer::{Answer, Counts, NotBegun};
pub use line::{Answered, Arrived, answer_lines};
pub use log::{Logged, log_line};
pub use tally::Tally;
pub use writing::{Teller, write_answer};
