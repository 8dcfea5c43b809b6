//! The steps by which a relying party verifies a sign-in (WebAuthn Level 2, section 7.2) and a registration
//! (section 7.1), for a site that keeps its own sessions and credentials: each call judges one response by what
//! it is handed, and keeps nothing.
#![tactic(auto)]

mod attested;
mod client_data;
mod coordinates;
mod flag;
mod law;
mod party;
mod record;
mod refusal;
mod registration;
mod signature;
mod signing_in;
mod verifier;

pub use attested::attested_key;
pub use authdata::Profile;
pub use coordinates::{Coordinate, key_from};
pub use law::profiles;
pub use party::{Policy, RelyingParty};
pub use record::{AssertionParts, RegistrationParts, RegistrationSession, RowView, SignInSession};
pub use refusal::{RegistrationRefusal, SignInRefusal, VerificationError};
pub use registration::{
    AdmittedCredential, RegistrationAttempt, VerifiedRegistration, counts_as_none,
    verify_registration,
};
pub use signature::{SignatureView, VerifiedSignature};
pub use signing_in::{SignInAttempt, VerifiedAssertion, verify_assertion};
pub use verifier::HostVerifier;
