//! Requests of CTAP 2.1 (sections 6.1 to 6.4 and 6.6), in the message encoding of section 8.
#![tactic(auto)]

mod entities;
mod law;
mod maps;
mod owned;
mod reading;
mod request;
mod tables;
mod values;
mod writing;

pub use law::one_rank;
pub use reading::{read_request, view_request};
pub use request::{
    AssertionOptions, CreationOptions, Descriptor, DescriptorView, GetAssertion, GetAssertionView,
    MakeCredential, Parameters, RelyingParty, Request, RequestView, User,
};
pub use writing::write_request;
