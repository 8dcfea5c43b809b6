//! The messages of CTAP 2.1, under one path: requests (sections 6.1 to 6.4 and 6.6), of the crate `ctap_requests`, and their
//! replies, of the crate `ctap_replies`, in the message encoding of section 8.
#![tactic(auto)]

pub use ctap_encoding::{Error, status, status_numbers};
pub use ctap_replies::{
    AssertionReply, AssertionView, CreationReply, InfoReply, Kind, Reply, read_assertion,
    read_creation, read_reply, write_assertion, write_reply,
};
pub use ctap_requests::{
    AssertionOptions, CreationOptions, Descriptor, DescriptorView, GetAssertion, GetAssertionView,
    MakeCredential, Parameters, RelyingParty, Request, RequestView, User, one_rank, read_request,
    view_request, write_request,
};
