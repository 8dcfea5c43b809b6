//! Client data of WebAuthn Level 2, section 5.8.1: its text written, checked and read, its hash,
//! and challenges in base64url (RFC 4648, section 5).
#![tactic(auto)]

mod challenge;
mod digest;
mod error;
mod expected;
mod law;
mod members;
mod passing;
mod quoting;
mod record;
mod seen;
mod serialising;
mod text;

pub use challenge::{challenge_characters, challenge_text, is_challenge_text};
pub use digest::hash;
pub use error::Error;
pub use expected::{ExpectedOrigin, is_serialised, is_serialised_for_any};
pub use law::{challenge_texts, digest_lengths, serialised_texts};
pub use quoting::quoted_text;
pub use record::{CeremonyType, ClientData};
pub use seen::{Binding, CrossOrigin, Seen, TopOrigin, read};
pub use serialising::{limited_verify, serialise};
pub use text::Text;
