//! The key under which a self attestation signs.

ghost use Rattle.std.specs.Prelude.{MatchOption};
ghost use Rattle.cose.specs.Keys.{lent_key_view};
ghost use Rattle.verification.specs.AttestedKey.{AttestsKey, AttestsNoKey};

use authdata::{Profile, read_view};
use cose::KeyView;

/// The public key that authenticator data attest, read where it lies (WebAuthn Level 2, section 6.5.1). None where the bytes
/// are no authenticator data of this profile, or attest no credential. It takes no memory.
pub fn attested_key(profile: Profile, auth_data: &[u8]) -> Option<KeyView<'_>>
    ensures { MatchOption result (AttestsNoKey profile auth_data.now) (λ key. AttestsKey profile auth_data.now (lent_key_view key)) }
{
    let Ok(data) = read_view(profile, auth_data) else {
        return None;
    };
    match data.attested {
        Some(credential) => Some(credential.key),
        None => None,
    }
}
