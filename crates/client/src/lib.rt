//! The client of a ceremony (WebAuthn Level 2, sections 5.1.3 and 5.1.4): what stands between a relying
//! party and an authenticator. It tests who calls, asks the authenticator in packets of CTAPHID, and hands
//! its reply to the relying party.
#![tactic(auto)]

mod asking;
mod building;
mod entities;
mod error;
mod law;
mod options;
mod origin;
mod outgoing;
mod reading;
mod responses;

pub use asking::{assertion_request, creation_request};
pub use error::{RequestError, ResponseError};
pub use law::one_asking;
pub use options::{CreationOptions, RequestOptions};
pub use origin::check_origin;
pub use outgoing::{Outgoing, next_request};
pub use reading::{read_assertion, read_creation};
pub use responses::{
    assertion_response, assertion_response_of, attestation_object, creation_response,
};
