//! What an accepted response says, told to the host.

ghost use Rattle.std.specs.Prelude.{◌≡◌, ◌≤◌, length};
ghost use Rattle.authdata.specs.Layout.{extension_bytes, lent_auth_view};
ghost use Rattle.passkey_c.specs.Seen.{TellsSeen, TellsView};

use crate::input::{write_front, write_key};
use crate::parts::{AssertionOut, RegistrationOut};
use authdata::{AuthView, flags};
use verification::VerifiedRegistration;

/// How many bytes the extensions have.
fn extensions_size(view: &AuthView<'_>) -> usize
    ensures { result ≡ length (extension_bytes (lent_auth_view view.now).extensions) }
{
    match view.extensions {
        Some(extensions) => extensions.len(),
        None => 0,
    }
}

/// Tells what the authenticator data of a sign-in say.
pub(crate) fn tell_data(view: &AuthView<'_>, out: &mut AssertionOut)
    ensures { TellsView out.new view.now }
{
    out.sign_count = view.sign_count;
    out.eligible = flags::is_set(view.flags, flags::BE);
    out.backed_up = flags::is_set(view.flags, flags::BS);
    out.user_verified = flags::is_set(view.flags, flags::UV);
    out.flags = view.flags;
    out.extensions_size = extensions_size(view);
}

/// Tells what a registration attests.
pub(crate) fn tell_registration(verified: &VerifiedRegistration<'_>, out: &mut RegistrationOut)
    requires { length verified.now.credential.id ≤ 1023 }
    ensures { TellsSeen out.new verified.now }
{
    let auth_data = verified.auth_data();
    let credential = verified.credential();
    out.id_size = write_front(credential.id, &mut out.id);
    write_key(&credential.key, &mut out.key);
    out.sign_count = auth_data.sign_count;
    out.eligible = flags::is_set(auth_data.flags, flags::BE);
    out.backed_up = flags::is_set(auth_data.flags, flags::BS);
    out.user_verified = flags::is_set(auth_data.flags, flags::UV);
    out.flags = auth_data.flags;
    out.aaguid = credential.aaguid;
    out.format = if verified.format() == "none" { 0 } else { 1 };
    out.extensions_size = extensions_size(auth_data);
}
