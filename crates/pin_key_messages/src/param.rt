//! What a makeCredential or getAssertion says of the user's verification.

ghost use Rattle.std.specs.Prelude.{◌≡◌, ◌⊎◌, ◌∷◌, ℕ, List, IfErr, IfOk};
ghost use Rattle.pin_key_messages.specs.Asking.{IsSaid};
ghost use Rattle.pin_key_messages.specs.Pieces.{UntoldBy};
ghost use Rattle.pin_key_messages.specs.Protected.{IsProtection, RefusedProtection, TellsProtection, protection_members};
ghost use Rattle.pin_key_messages.specs.ProtectedView.{protection_view};

use crate::asked::ParamView;
use crate::maps::protection;
use crate::reading::{after, whole};
use ctap_encoding::Error;
use ctap_encoding::command::{GET_ASSERTION, MAKE_CREDENTIAL};
use ctap_encoding::member::{get_assertion, make_credential};
use ctap_encoding::status::{CBOR_UNEXPECTED_TYPE, INVALID_COMMAND};

/// What the map after a command byte says, by the numbers of its members.
fn param_in(rest: &[u8], options: u64, param: u64, protocol: u64) -> Result<ParamView<'_>, Error>
    ensures found { IfOk result (λ p. (command : ℕ) → IsSaid command (TellsProtection options param protocol) (protection_view p) (command ∷ rest.now)) }
    ensures refused { IfErr result (λ e. (command : ℕ) → UntoldBy command (protection_members options param protocol) (command ∷ rest.now) e) }
{
    // A `match` where the proof speaks of the error: `?` hides it behind its conversion.
    let value = match whole(rest) {
        Ok(value) => value,
        Err(e) => return Err(e),
    };
    match protection(&value, options, param, protocol) {
        Ok(view) => Ok(view),
        Err(_) => Err(Error::Status(CBOR_UNEXPECTED_TYPE)),
    }
}

/// What a makeCredential (CTAP 2.1, section 6.1) or getAssertion (6.2), with its command byte, says of the user's
/// verification. Other members are not looked at.
///
/// Refused as [`Error::Status`] with the first of these that applies: 0x01 another command; 0x12 not one whole canonical
/// CBOR value; 0x11 no map, or one of these members of another kind.
pub fn read_param(request: &[u8]) -> Result<ParamView<'_>, Error>
    ensures found { IfOk result (λ p. IsProtection (protection_view p) request.now) }
    ensures refused { IfErr result (λ e. RefusedProtection request.now e) }
{
    if let Some(rest) = after(request, MAKE_CREDENTIAL) {
        return param_in(
            rest,
            make_credential::OPTIONS_NUMBER,
            make_credential::PIN_UV_AUTH_PARAM_NUMBER,
            make_credential::PIN_UV_AUTH_PROTOCOL_NUMBER,
        );
    }
    match after(request, GET_ASSERTION) {
        Some(rest) => param_in(
            rest,
            get_assertion::OPTIONS_NUMBER,
            get_assertion::PIN_UV_AUTH_PARAM_NUMBER,
            get_assertion::PIN_UV_AUTH_PROTOCOL_NUMBER,
        ),
        None => Err(Error::Status(INVALID_COMMAND)),
    }
}
