//! PIN/UV auth protocols one and two (CTAP 2.1, sections 6.5.6 and 6.5.7): which bytes are computed of what, by both
//! sides, and a client's requests. The mathematics is the host's: a call that wants some tells what it asks for, and is made again with the
//! answer. SHA-256 alone is computed here.
#![tactic(auto)]

mod answers;
mod ask;
mod pin;
mod protocol;
mod requests;
mod session;
mod stop;
mod token;

pub use answers::{Answers, answered};
pub use ask::{Ask, Operation};
pub use pin::{PinFault, code_points, pin_fault};
pub use protocol::Protocol;
pub use requests::{Scope, change_pin_request, set_pin_request, token_request, uv_token_request};
pub use session::{Secret, authenticated, opened, product, sealed, shared_secret};
pub use stop::Stop;
pub use token::{pin_uv_auth_param, pin_uv_auth_token};
