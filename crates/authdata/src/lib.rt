//! Authenticator data (WebAuthn section 6.1) and attestation objects (WebAuthn section 6.5).
#![tactic(auto)]

mod auth;
mod error;
pub mod flags;
mod law;
mod members;
mod object;
mod parts;
mod profile;
mod reading;
mod response;
mod statement;
mod writing;

pub use auth::{Attested, AttestedView, AuthData, AuthView};
pub use error::Error;
pub use law::{
    flag_bits, key_inside, one_object, one_reading, one_refusal, one_statement, profiles, sizes,
};
pub use object::{AttestationObject, AttestationView};
pub use profile::Profile;
pub use reading::{read, read_view};
pub use response::{AssertionResponse, RegistrationResponse};
pub use statement::{AttestationType, check_statement};
pub use writing::write;
