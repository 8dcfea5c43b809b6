//! What a line of a client asks for, read from its bytes. It does no input and no output.
#![tactic(auto)]

mod act;
mod acts;
mod members;
mod options;
mod reading;

pub use act::{Act, Aim, Begin, Further};
pub use acts::acts_help;
pub use options::{Account, CreationOptions, Extensions, RequestOptions};
pub use reading::{Line, read_line};
