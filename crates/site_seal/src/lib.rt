//! A ceremony that has begun as a text under a site's key, so that the site keeps nothing for it: the visitor is handed the
//! text with the options, and hands it back with the response.
#![tactic(auto)]

mod error;
mod hmac;
mod law;
mod opening;
mod sealing;
mod session;

pub use error::SealError;
pub use hmac::{are_equal, hmac_sha256, user_number};
pub use law::{one_text, same_steps};
pub use opening::open;
pub use sealing::{algorithms_in_order, seal_registration, seal_sign_in};
pub use session::{Opened, OpenedCeremony, OpenedSignIn};
