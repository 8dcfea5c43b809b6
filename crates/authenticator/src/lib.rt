//! A software authenticator (CTAP 2.1, sections 6.1 to 6.4 and 6.6).
#![tactic(auto)]

mod assertion;
mod attestation;
mod authenticator;
mod consent;
mod credential;
mod credentials;
mod error;
mod get_assertion;
mod keys;
mod law;
mod loading;
mod make_credential;
mod members;
mod options;
mod pending;
mod reading;
mod remembered;
mod reply;
mod saving;
mod signing;

pub use authenticator::Authenticator;
pub use consent::{Consent, Words};
pub use error::LoadError;
pub use keys::{HandedKeys, NO_KEYS, PublicKeys, SchemeKeys};
pub use law::{saving_laws, signing_laws, step_laws};
pub use make_credential::MAX_CREDENTIALS;
pub use pending::{Begun, Pending};
pub use signing::MAX_SIGNATURE;
