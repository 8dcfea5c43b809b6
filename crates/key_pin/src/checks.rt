//! What a request must have.

ghost use Rattle.std.specs.Prelude.{◌≡◌, option_map};
ghost use Rattle.pin_client_messages.specs.CommandView.{point_view};
ghost use Rattle.pin_client_messages.specs.ReplyView.{key_view};
ghost use Rattle.key_pin.specs.Pieces.{Gives};
ghost use Rattle.key_pin.specs.Steps.{allowed_permissions, client_point, is_agreement_key, known_protocol, needed, unset, without_scope};

use crate::end::End;
use ctap_encoding::status::{
    INVALID_PARAMETER, MISSING_PARAMETER, PIN_AUTH_INVALID, UNAUTHORIZED_PERMISSION,
};
use pin_client_messages::{AgreementKey, Point, permission};
use pin_protocols::Protocol;

pub(crate) fn needed_number(member: Option<u64>) -> Result<u64, End>
    ensures { Gives (λ n. n) result (needed member) }
{
    match member {
        Some(number) => Ok(number),
        None => Err(End::Refused(MISSING_PARAMETER)),
    }
}

pub(crate) fn needed_bytes<'a>(member: Option<&'a [u8]>) -> Result<&'a [u8], End>
    ensures { Gives (λ b. b.now) result (needed (option_map (λ b. b.now) member.entry)) }
{
    match member {
        Some(bytes) => Ok(bytes),
        None => Err(End::Refused(MISSING_PARAMETER)),
    }
}

pub(crate) fn needed_text<'a>(member: Option<&'a str>) -> Result<&'a str, End>
    ensures { Gives (λ b. b.now) result (needed (option_map (λ b. b.now) member.entry)) }
{
    match member {
        Some(text) => Ok(text),
        None => Err(End::Refused(MISSING_PARAMETER)),
    }
}

pub(crate) fn needed_key<'a>(member: Option<AgreementKey<'a>>) -> Result<AgreementKey<'a>, End>
    ensures { Gives key_view result (needed (option_map key_view member.entry)) }
{
    match member {
        Some(key) => Ok(key),
        None => Err(End::Refused(MISSING_PARAMETER)),
    }
}

pub(crate) fn known_protocol(number: u64) -> Result<Protocol, End>
    ensures { Gives (λ p. p) result (known_protocol number) }
{
    match Protocol::of(number) {
        Some(protocol) => Ok(protocol),
        None => Err(End::Refused(INVALID_PARAMETER)),
    }
}

#[tactic(auto, unfolding(crate::specs::Steps::client_point))]
pub(crate) fn client_point<'a>(key: &AgreementKey<'a>) -> Result<Point<'a>, End>
    ensures { Gives point_view result (client_point (key_view key.now)) }
{
    match key.point() {
        Some(point) if point.x.len() == 32 && point.y.len() == 32 => Ok(point),
        _ => Err(End::Refused(INVALID_PARAMETER)),
    }
}

pub(crate) fn unset(pin: &Option<[u8; 16]>) -> Result<(), End>
    ensures { Gives (λ _. tt) result (unset pin.now) }
{
    match pin {
        None => Ok(()),
        Some(_) => Err(End::Refused(PIN_AUTH_INVALID)),
    }
}

pub(crate) fn without_scope(permissions: Option<u64>, rp_id: Option<&str>) -> Result<(), End>
    ensures { Gives (λ _. tt) result (without_scope permissions (option_map (λ b. b.now) rp_id.entry)) }
{
    match (permissions, rp_id) {
        (None, None) => Ok(()),
        _ => Err(End::Refused(INVALID_PARAMETER)),
    }
}

pub(crate) fn allowed_permissions(permissions: u64) -> Result<(), End>
    ensures { Gives (λ _. tt) result (allowed_permissions permissions) }
{
    if permissions == 0 {
        return Err(End::Refused(INVALID_PARAMETER));
    }
    if permissions > (permission::MAKE_CREDENTIAL | permission::GET_ASSERTION) {
        return Err(End::Refused(UNAUTHORIZED_PERMISSION));
    }
    Ok(())
}
