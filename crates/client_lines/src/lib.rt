//! A client over lines: from a line of bytes to a line of bytes, each a JSON object, and packets of a security key in both. It
//! does no input and no output.
#![tactic(auto)]

mod answer;
mod ceremony;
mod channel;
mod fault;
mod information;
mod knowing;
mod line;
mod machine;
mod purpose;
mod refused;
mod responses;
mod shallow;
mod stepping;
mod values;
mod writing;

pub use fault::{Fault, NotTaken};
pub use line::answer_line;
pub use machine::Client;
