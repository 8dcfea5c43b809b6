//! COSE keys (RFC 9052 section 7, RFC 9053 section 7, RFC 8230 section 4) and the signature schemes that work with
//! them.
#![tactic(auto)]

mod bench;
mod key;
mod law;
mod list;
mod numbers;
mod reading;
mod rsa;
mod scheme;

pub use bench::BenchScheme;
pub use key::{Alg, CoseKey, KeyView, NotAKey, SigningAlg};
pub use law::{one_key_each, sizes_of_keys, sizes_of_rsa_keys};
pub use list::{ListScheme, is_joined};
pub use numbers::{algorithm, curve, key_type, label};
pub use rsa::{RsaKey, RsaView, is_exponent, is_modulus};
pub use scheme::{Signer, Verifier};
