//! Requests as keys on sale take them (CTAP 2.1, sections 6.1 to 6.4), within what a key told of itself by getInfo.
//! `ctap_requests` has those of the strict profile.
#![tactic(auto)]

mod error;
mod extensions;
mod limits;
mod request;
mod tables;
mod values;
mod writing;

pub use error::RequestError;
pub use extensions::{
    AssertionExtensions, CreationExtensions, HmacSecret, assertion_extensions, creation_extensions,
};
pub use limits::option_value;
pub use request::{GetAssertion, MakeCredential, Options, PinUvAuth, RelyingParty, User};
pub use writing::{write_assertion, write_creation};
