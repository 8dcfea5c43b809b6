//! Passkey sign-in, from USB packets to a site's verdict, and the program `passkey`: the public paths of both.
#![tactic(auto)]

mod arguments;
mod check;
mod here;
mod hex_text;
mod inspect;
mod program;
mod replay;
mod script;
mod script_lines;

pub use agreement::{agreement, of_all_runs};
pub use arguments::{Inspection, Subcommand, command};
pub use ceremony::{Accepted, Enrolled, Error, Fed, Live, one_verdict, register, sign_in};
pub use here::run_here;
pub use hex_text::unhex;
pub use program::{MAX_INPUT, run};
pub use security_key::{
    Act, ServeError, Served, begin_serving, finish_serving, serve, serving_laws,
};
