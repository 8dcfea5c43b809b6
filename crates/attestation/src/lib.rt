//! Attestation statements (WebAuthn Level 2, section 8): which authenticator made a credential, as its certificates say.
//!
//! [`read_statement`] takes a statement apart where it lies. [`signature_asked`] says which signature the host is to verify,
//! and [`judge`] gives the verdict with what the host verified: each step of the format's verification procedure, in the
//! standard's order, or the first that fails. The path from the certificates to a root is the host's.
#![tactic(auto)]

mod algorithm;
mod apple;
mod certificate_list;
mod fido_u2f;
mod inputs;
mod judging;
mod key;
mod members;
mod packed;
mod refusal;
mod rules;
mod signature;
mod statement;
mod verifier;
mod x5c;

pub use algorithm::Algorithm;
pub use certificate_list::{Certificates, MAX_CERTIFICATES};
pub use inputs::Inputs;
pub use judging::{Attestation, AttestationType, judge, signature_asked};
pub use key::SigningKey;
pub use refusal::AttestationRefusal;
pub use signature::{AskedSignature, Message, SignatureVerifier};
pub use statement::{Content, Format, MAX_STATEMENT, Statement, read_statement};
pub use verifier::{HostVerifier, VerifiedSignature};
