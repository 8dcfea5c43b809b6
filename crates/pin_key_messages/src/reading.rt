//! Reading a request.

ghost use Rattle.std.specs.Prelude.{◌≡◌, ◌∷◌, ℕ, List, IfErr, IfNone, IfOk, IfSome, None, Some};
ghost use Rattle.ccbor.specs.Canon.{Canon};
ghost use Rattle.ccbor.specs.Item.{Item};
ghost use Rattle.ccbor.specs.Viewing.{shown};
ghost use Rattle.ctap_encoding.specs.declared.error.Error.TheVariants as errors;
ghost use Rattle.pin_key_messages.specs.Asking.{IsSaid, Refused, TellsAsking, asked_content};
ghost use Rattle.pin_key_messages.specs.AskingView.{asking_view};
ghost use Rattle.pin_key_messages.specs.Pieces.{content_of};

use crate::asked::{AskedMembers, PinAsked};
use crate::maps::asked;
use ccbor::View;
use ctap_encoding::Error;
use ctap_encoding::command::CLIENT_PIN;
use ctap_encoding::status::{
    CBOR_UNEXPECTED_TYPE, INVALID_CBOR, INVALID_COMMAND, MISSING_PARAMETER,
};

/// One whole canonical value.
pub(crate) fn whole(bytes: &[u8]) -> Result<View<'_>, Error>
    ensures found { IfOk result (λ v. Canon (shown v) bytes.now) }
    ensures none { IfErr result (λ _. (v : Item) → Canon v bytes.now → ⊥) }
    ensures errors { IfErr result (λ e. e ≡ errors.Status 0x12) }
{
    match View::check_all(bytes) {
        Ok(value) => Ok(value),
        Err(_) => Err(Error::Status(INVALID_CBOR)),
    }
}

/// What follows this command byte, where it is there.
pub(crate) fn after(request: &[u8], command: u8) -> Option<&[u8]>
    ensures found { IfSome result (λ r. request.now ≡ command ∷ r.now) }
    ensures none { IfNone result ((rest : List ℕ) → request.now ≡ command ∷ rest → ⊥) }
{
    match request.split_first() {
        Some((first, rest)) if *first == command => Some(rest),
        _ => None,
    }
}

/// The request, where it has a subcommand.
fn with_subcommand<'a>(members: &AskedMembers<'a>) -> Result<PinAsked<'a>, Error>
    ensures found { IfOk result (λ a. content_of members.now ≡ asked_content (Some (asking_view a).subcommand) (asking_view a)) }
    ensures none { IfErr result (λ _. members.now.subcommand ≡ None) }
    ensures errors { IfErr result (λ e. e ≡ errors.Status 0x14) }
{
    let Some(subcommand) = members.subcommand else {
        return Err(Error::Status(MISSING_PARAMETER));
    };
    Ok(PinAsked {
        protocol: members.protocol,
        subcommand,
        key: members.key,
        param: members.param,
        new_pin: members.new_pin,
        pin_hash: members.pin_hash,
        permissions: members.permissions,
        rp_id: members.rp_id,
    })
}

/// The request of authenticatorClientPIN (CTAP 2.1, section 6.5.5) of these bytes, with its command byte 0x06. Its
/// members lie in the bytes: nothing is copied. Those that are not listed are passed over, and each but the subcommand
/// may be absent.
///
/// Refused as [`Error::Status`] with the first of these that applies: 0x01 another command; 0x12 not one whole canonical
/// CBOR value; 0x11 no map, or a listed member of another kind, or a key without one of its parts or with coordinates
/// that haven't 32 bytes; 0x14 no subcommand.
pub fn read_pin(request: &[u8]) -> Result<PinAsked<'_>, Error>
    ensures found { IfOk result (λ a. IsSaid 6 TellsAsking (asking_view a) request.now) }
    ensures refused { IfErr result (λ e. Refused request.now e) }
{
    let Some(rest) = after(request, CLIENT_PIN) else {
        return Err(Error::Status(INVALID_COMMAND));
    };
    // A `match` where the proof speaks of the error: `?` hides it behind its conversion.
    let value = match whole(rest) {
        Ok(value) => value,
        Err(e) => return Err(e),
    };
    match asked(&value) {
        Ok(members) => with_subcommand(&members),
        Err(_) => Err(Error::Status(CBOR_UNEXPECTED_TYPE)),
    }
}
