//! A case to explain, in JSON: a response of WebAuthn, and what a relying party verifies it by.
#![tactic(auto)]

mod attempt;
mod case;
mod error;
mod parts;
mod row;
mod sessions;

pub use attempt::{RegistrationCase, SignInCase};
pub use case::{Kind, parts_of, profile_name, value_of};
pub use error::CaseError;
pub use parts::Parts;
pub use row::CredentialRow;
