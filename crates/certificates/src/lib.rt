//! X.509 certificates (RFC 5280, section 4), read where they lie, for attestation by certificates (WebAuthn section 8).
//!
//! [`read_certificate`] takes the DER of one certificate apart, and gives the bytes that its signature is over. What
//! it has of names, the key and extensions is raw there, and is read by calls of its own: [`read_key`],
//! [`find_attribute`], [`find_extension`] and what an extension says. No signature is verified, no time compared, and
//! no name compared by its text.
#![tactic(auto)]

mod certificate;
mod error;
mod extension;
mod field;
mod key;
mod law;
mod meaning;
mod name;
mod tags;
mod usage;
mod validity;

pub use certificate::{Certificate, TbsCertificate, Version, read_certificate};
pub use error::Error;
pub use extension::{Extension, find_extension};
pub use key::{PublicKey, read_key};
pub use law::one_reading;
pub use meaning::{
    AAGUID, ANDROID_KEY_DESCRIPTION, APPLE_NONCE, BASIC_CONSTRAINTS, BasicConstraints,
    SUBJECT_ALTERNATIVE_NAME, read_aaguid, read_apple_nonce, read_basic_constraints,
};
pub use name::{
    Attribute, COMMON_NAME, COUNTRY, ORGANIZATION, ORGANIZATIONAL_UNIT, find_attribute,
};
pub use usage::{AIK_CERTIFICATE, EXTENDED_KEY_USAGE, has_purpose};
pub use validity::{Time, Validity};
