//! Assertions (WebAuthn Level 2, section 6.3.3).

ghost use Rattle.std.specs.Prelude.{◌≡◌, ◌<◌, ◌≤◌, ◌+◌, IfOk, IfSome, false, length, option_map};
ghost use Rattle.authdata.specs.Flags as bits;
ghost use Rattle.authdata.specs.declared.profile.Profile.TheVariants.{Strict};
ghost use Rattle.authdata.specs.Layout.{AuthOf};
ghost use Rattle.ctap_replies.specs.ReplyView.{lent_assertion_view};
ghost use Rattle.authenticator.specs.Private.{FitsReply, IsCount};
ghost use Rattle.authenticator.specs.Steps.{assertion_data, shown_user, up_bit, uv_bit};
ghost use Rattle.authenticator.specs.Views.{asked_view, credential_source_view};

use crate::credential::StoredCredential;
use crate::remembered::AskedAssertion;
use authdata::AuthData;
use authdata::flags::{UP, UV};
use ctap_replies::AssertionView;
use std::alloc::{AllocError, Global};

/// The flags of an assertion.
fn flags(up: bool, uv: bool) -> u8
    ensures value { result ≡ up_bit up + uv_bit uv }
    ensures bare { bits.is_set result bits.AT ≡ false }
    ensures no_extensions { bits.is_set result bits.ED ≡ false }
{
    match (up, uv) {
        (true, true) => UP | UV,
        (true, false) => UP,
        (false, true) => UV,
        (false, false) => 0,
    }
}

/// The bytes of the authenticator data of a credential's next assertion.
pub(crate) fn auth_data(
    alloc: Global,
    credential: &StoredCredential,
    asked: &AskedAssertion,
) -> Result<Vec<u8>, AllocError>
    requires { credential.now.sign_count < 4294967295 }
    ensures spelled { IfOk result (λ bytes. AuthOf Strict (assertion_data (credential_source_view credential.now) (asked_view asked.now)) bytes.items) }
    ensures size { IfOk result (λ bytes. length bytes.items ≡ 37) }
{
    let data = AuthData {
        rp_id_hash: credential.rp_id_hash,
        flags: flags(asked.up, asked.uv),
        sign_count: credential.sign_count + 1,
        attested: None,
    };
    authdata::write(alloc, &data)
}

/// The user handle, which is shown for a resident credential.
fn shown_user(credential: &StoredCredential) -> Option<&[u8]>
    ensures { option_map (λ b. b.now) result ≡ shown_user (credential_source_view credential.now) }
{
    if !credential.resident {
        return None;
    }
    Some(credential.user.as_slice())
}

/// A credential's next assertion: 32 bytes of id, and the user handle where it is resident.
pub(crate) fn shown<'a>(
    credential: &'a StoredCredential,
    auth_data: &'a [u8],
    signature: &'a [u8],
    number: Option<u64>,
) -> AssertionView<'a>
    requires auth_data { length auth_data.now ≡ 37 }
    requires signature { length signature.now ≤ 128 }
    requires number { IfSome number IsCount }
    ensures fits { FitsReply (lent_assertion_view result) }
    ensures credential { result.credential.now ≡ credential.entry.now.id }
    ensures auth_data { result.auth_data.now ≡ auth_data.entry.now }
    ensures signature { result.signature.now ≡ signature.entry.now }
    ensures user { option_map (λ b. b.now) result.user ≡ shown_user (credential_source_view credential.entry.now) }
    ensures number { result.number ≡ number }
{
    AssertionView {
        credential: &credential.id,
        auth_data,
        signature,
        user: shown_user(credential),
        number,
    }
}
