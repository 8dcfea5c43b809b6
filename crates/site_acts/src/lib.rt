//! Lines of a site, as far as they need no store: what a line asks for, read from its bytes; what the page is given; and which
//! signature the host is to verify. It does no input and no output.
#![tactic(auto)]

mod act;
mod acts;
mod algorithms;
mod asking;
mod joining;
mod keys;
mod known;
mod options;
mod reading;
mod response;
mod transports;
mod verified;

pub use act::{Act, BeginRegistration, BeginSignIn, FinishRegistration, FinishSignIn};
pub use acts::acts_help;
pub use asking::{registration_asks, sign_in_asks};
pub use joining::{joined, separate};
pub use known::Known;
pub use options::{creation_options, request_options, texts};
pub use reading::{Line, read_line};
pub use transports::{MOST_TRANSPORTS, is_transport};
pub use verified::Verified;
