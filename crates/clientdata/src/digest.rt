//! The hash of client data.

ghost use Rattle.std.specs.Prelude.{◌≡◌};
ghost use Rattle.clientdata.specs.Serialised.{hash_of};

use sha2::{Digest, Sha256};

/// The hash of the serialized client data: SHA-256 (FIPS 180-4) of the bytes as they came
/// (WebAuthn Level 2, section 5.8.1). It takes no memory.
pub fn hash(bytes: &[u8]) -> [u8; 32]
    ensures { result ≡ hash_of bytes.now }
{
    Sha256::digest(bytes)
}
