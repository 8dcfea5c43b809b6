//! What a WebAuthn response contains, for people to read: client data, authenticator data and attestation objects as far as they
//! can be read, also where a relying party refuses them. Nothing here verifies anything.
#![tactic(auto)]

mod attestation;
mod auth_data;
mod client_data;
mod entries;
mod fault;
mod flags;
mod floats;
mod heads;
mod key;
mod members;
mod notation;
mod quoting;

pub use attestation::{Attestation, write_attestation};
pub use auth_data::{Attested, AuthData, write_auth_data};
pub use client_data::{ClientData, write_client_data};
pub use fault::Fault;
pub use flags::flag_names;
pub use key::algorithm_name;
pub use members::{put_json, put_null_or_hex, put_null_or_text};
pub use notation::notation_of;
pub use quoting::{ascii_json, json_text};
