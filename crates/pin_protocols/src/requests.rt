//! The requests of clientPIN that are made of a PIN or of the key's own verification.

ghost use Rattle.std.specs.Prelude.{◌≡◌, ◌⊎◌, ◌++◌, ℕ, List, IfErr, IfOk, IsErrOf, None, Some, option_map};
ghost use Rattle.pin_client_messages.specs.CommandView.{command_view, point_view};
ghost use Rattle.pin_client_messages.specs.Commands.{PinRequest};
ghost use Rattle.pin_protocols.specs.Asks.{Answered, Stops, entries};
ghost use Rattle.pin_protocols.specs.Flows.{by_pin, IsChangePin, IsChangePinAsk, IsSessionAsk, IsSetPin, IsSetPinAsk, IsTokenAsk, IsTokenByPin, IsTokenByUv, NoRequest, Requests};
ghost use Rattle.pin_protocols.specs.FlowView.{scope_view};
ghost use Rattle.pin_protocols.specs.Pins.{padded, pin_fault, pin_hash};
ghost use Rattle.pin_protocols.specs.Protocols.{Authenticates, authentication, encryption, number};
ghost use Rattle.pin_protocols.specs.declared.stop.Stop.TheVariants as stops;

use crate::answers::Answers;
use crate::pin::{padded, pin_fault, pin_hash};
use crate::protocol::Protocol;
use crate::session::{Secret, authenticated, begun, joined, sealed};
use crate::stop::Stop;
use pin_client_messages::{PinCommand, Point, write_pin};
use std::alloc::Global;

/// What a token is for (CTAP 2.1, section 6.5.5.7).
#[derive(Clone, Copy, Debug, Drop)]
pub struct Scope<'a> {
    /// The permissions, a sum: 1 makeCredential, 2 getAssertion, 4 credential management, 8 bio enrolment, 16 large
    /// blobs, 32 configuration.
    pub permissions: u64,
    /// The rp id, 1 to 253 bytes, for the first two permissions.
    pub rp_id: Option<&'a str>,
}

/// The bytes of a subcommand.
fn sent(alloc: Global, protocol: Protocol, command: &PinCommand<'_>) -> Result<Vec<u8>, Stop>
    ensures sent { IfOk result (λ v. PinRequest (number protocol) (command_view command.now) v.items) }
    ensures unfit { IsErrOf result stops.Unfit → (bs : List ℕ) → PinRequest (number protocol) (command_view command.now) bs → ⊥ }
    ensures errors { IfErr result (λ e. (e ≡ stops.Unfit) ⊎ (e ≡ stops.Memory)) }
{
    match write_pin(alloc, protocol.number(), command) {
        Ok(bytes) => Ok(bytes),
        Err(ctap_encoding::Error::Unfit) => Err(Stop::Unfit),
        Err(_) => Err(Stop::Memory),
    }
}

/// The encryption of a PIN's hash.
fn sealed_hash<'a>(
    alloc: Global,
    answers: &'a Answers,
    protocol: Protocol,
    secret: &Secret,
    pin: &str,
) -> Result<&'a [u8], Stop>
    ensures sealed { IfOk result (λ b. Answered (entries answers.now) (encryption protocol secret.now.aes.items (pin_hash pin.now)) b.now) }
    ensures stops { IfErr result (Stops (entries answers.now) (λ a. a ≡ encryption protocol secret.now.aes.items (pin_hash pin.now))) }
{
    let hash = pin_hash(alloc, pin)?;
    sealed(alloc, answers, protocol, secret, &hash)
}

/// The encryption of a new PIN.
fn sealed_pin<'a>(
    alloc: Global,
    answers: &'a Answers,
    protocol: Protocol,
    secret: &Secret,
    pin: &str,
) -> Result<&'a [u8], Stop>
    ensures sealed { IfOk result (λ b. Answered (entries answers.now) (encryption protocol secret.now.aes.items (padded pin.now)) b.now) }
    ensures stops { IfErr result (Stops (entries answers.now) (λ a. a ≡ encryption protocol secret.now.aes.items (padded pin.now))) }
{
    let padded = padded(alloc, pin)?;
    sealed(alloc, answers, protocol, secret, &padded)
}

/// A message authenticated by the secret.
fn tagged<'a>(
    alloc: Global,
    answers: &'a Answers,
    protocol: Protocol,
    secret: &Secret,
    message: &[u8],
) -> Result<&'a [u8], Stop>
    ensures tagged { IfOk result (λ b. Authenticates (entries answers.now) protocol secret.now.hmac.items message.now b.now) }
    ensures stops { IfErr result (Stops (entries answers.now) (λ a. a ≡ authentication secret.now.hmac.items message.now)) }
{
    authenticated(alloc, answers, protocol, &secret.hmac, message)
}

/// Two messages authenticated as one.
fn tagged_both<'a>(
    alloc: Global,
    answers: &'a Answers,
    protocol: Protocol,
    secret: &Secret,
    front: &[u8],
    back: &[u8],
) -> Result<&'a [u8], Stop>
    ensures tagged { IfOk result (λ b. Authenticates (entries answers.now) protocol secret.now.hmac.items (front.now ++ back.now) b.now) }
    ensures stops { IfErr result (Stops (entries answers.now) (λ a. a ≡ authentication secret.now.hmac.items (front.now ++ back.now))) }
{
    let message = joined(alloc, front, back)?;
    tagged(alloc, answers, protocol, secret, &message)
}

/// The subcommand that asks for a token by PIN.
fn by_pin<'a>(own: Point<'a>, sealed: &'a [u8], scope: Option<Scope<'a>>) -> PinCommand<'a>
    ensures { command_view result ≡ by_pin (point_view own.entry) sealed.now (option_map scope_view scope.entry) }
{
    match scope {
        Some(scope) => PinCommand::TokenByPin(own, sealed, scope.permissions, scope.rp_id),
        None => PinCommand::PinToken(own, sealed),
    }
}

/// The request that asks for a token by PIN (CTAP 2.1, sections 6.5.5.7.1 and 6.5.5.7.2), with the point that the key
/// told in its reply to getKeyAgreement: by getPinToken, or with these permissions and for this rp id by
/// getPinUvAuthTokenUsingPinWithPermissions.
///
/// Stops as [`Stop::Asks`] at each of these that is not yet answered: the agreement, by protocol two the two keys of
/// the secret, and the encryption of the first 16 bytes of the PIN's SHA-256. Otherwise refused as
/// [`Stop::BadAnswer`], or as [`Stop::Unfit`] of an rp id outside 1 to 253 bytes.
pub fn token_request(
    alloc: Global,
    answers: &Answers,
    protocol: Protocol,
    peer: &Point<'_>,
    pin: &str,
    scope: Option<Scope<'_>>,
) -> Result<Vec<u8>, Stop>
    ensures made { IfOk result (λ v. Requests protocol (IsTokenByPin (entries answers.now) protocol (point_view peer.now) pin.now (option_map scope_view scope.entry)) v.items) }
    ensures none { IfErr result (NoRequest (entries answers.now) protocol (IsTokenAsk (entries answers.now) protocol (point_view peer.now) pin.now) (λ _. ⊥)
        (IsTokenByPin (entries answers.now) protocol (point_view peer.now) pin.now (option_map scope_view scope.entry))) }
{
    let session = match begun(alloc, answers, protocol, peer) {
        Ok(session) => session,
        Err(e) => return Err(e),
    };
    let sealed_hash = match sealed_hash(alloc, answers, protocol, &session.secret, pin) {
        Ok(sealed) => sealed,
        Err(e) => return Err(e),
    };
    let command = by_pin(session.own, sealed_hash, scope);
    sent(alloc, protocol, &command)
}

/// The request that asks for a token by the key's own verification, with these permissions and for this rp id
/// (CTAP 2.1, section 6.5.5.7.3). Stops as [`token_request`], but for what is made of a PIN.
pub fn uv_token_request(
    alloc: Global,
    answers: &Answers,
    protocol: Protocol,
    peer: &Point<'_>,
    scope: &Scope<'_>,
) -> Result<Vec<u8>, Stop>
    ensures made { IfOk result (λ v. Requests protocol (IsTokenByUv (entries answers.now) protocol (point_view peer.now) (scope_view scope.now)) v.items) }
    ensures none { IfErr result (NoRequest (entries answers.now) protocol (IsSessionAsk (entries answers.now) protocol (point_view peer.now)) (λ _. ⊥)
        (IsTokenByUv (entries answers.now) protocol (point_view peer.now) (scope_view scope.now))) }
{
    let session = match begun(alloc, answers, protocol, peer) {
        Ok(session) => session,
        Err(e) => return Err(e),
    };
    let command = PinCommand::TokenByUv(session.own, scope.permissions, scope.rp_id);
    sent(alloc, protocol, &command)
}

/// The request that sets a first PIN (CTAP 2.1, section 6.5.5.5). `min` is the key's minPINLength, and 4 where it told
/// none.
///
/// Refused as [`Stop::Pin`] where [`pin_fault`] says why. Stops as [`token_request`]; with the secret it asks for the
/// encryption of the padded PIN, and then for that to be authenticated.
pub fn set_pin_request(
    alloc: Global,
    answers: &Answers,
    protocol: Protocol,
    peer: &Point<'_>,
    min: u64,
    new_pin: &str,
) -> Result<Vec<u8>, Stop>
    ensures made { IfOk result (λ v. Requests protocol (IsSetPin (entries answers.now) protocol (point_view peer.now) new_pin.now) v.items) }
    ensures fit { IfOk result (λ _. pin_fault min new_pin.now ≡ None) }
    ensures none { IfErr result (NoRequest (entries answers.now) protocol (IsSetPinAsk (entries answers.now) protocol (point_view peer.now) new_pin.now)
        (λ f. pin_fault min new_pin.now ≡ Some f) (IsSetPin (entries answers.now) protocol (point_view peer.now) new_pin.now)) }
{
    match pin_fault(min, new_pin) {
        Some(fault) => return Err(Stop::Pin(fault)),
        None => {}
    }
    let session = match begun(alloc, answers, protocol, peer) {
        Ok(session) => session,
        Err(e) => return Err(e),
    };
    let sealed_pin = match sealed_pin(alloc, answers, protocol, &session.secret, new_pin) {
        Ok(sealed) => sealed,
        Err(e) => return Err(e),
    };
    let tagged = match tagged(alloc, answers, protocol, &session.secret, sealed_pin) {
        Ok(param) => param,
        Err(e) => return Err(e),
    };
    let command = PinCommand::SetPin(session.own, tagged, sealed_pin);
    sent(alloc, protocol, &command)
}

/// The request that sets a new PIN in place of the one that the key has (CTAP 2.1, section 6.5.5.6), as of
/// [`set_pin_request`]; the encryption of the old PIN's hash is asked for too, and both are authenticated.
pub fn change_pin_request(
    alloc: Global,
    answers: &Answers,
    protocol: Protocol,
    peer: &Point<'_>,
    pin: &str,
    min: u64,
    new_pin: &str,
) -> Result<Vec<u8>, Stop>
    ensures made { IfOk result (λ v. Requests protocol (IsChangePin (entries answers.now) protocol (point_view peer.now) pin.now new_pin.now) v.items) }
    ensures fit { IfOk result (λ _. pin_fault min new_pin.now ≡ None) }
    ensures none { IfErr result (NoRequest (entries answers.now) protocol (IsChangePinAsk (entries answers.now) protocol (point_view peer.now) pin.now new_pin.now)
        (λ f. pin_fault min new_pin.now ≡ Some f) (IsChangePin (entries answers.now) protocol (point_view peer.now) pin.now new_pin.now)) }
{
    match pin_fault(min, new_pin) {
        Some(fault) => return Err(Stop::Pin(fault)),
        None => {}
    }
    let session = match begun(alloc, answers, protocol, peer) {
        Ok(session) => session,
        Err(e) => return Err(e),
    };
    let sealed_pin = match sealed_pin(alloc, answers, protocol, &session.secret, new_pin) {
        Ok(sealed) => sealed,
        Err(e) => return Err(e),
    };
    let sealed_hash = match sealed_hash(alloc, answers, protocol, &session.secret, pin) {
        Ok(sealed) => sealed,
        Err(e) => return Err(e),
    };
    let tagged_both = match tagged_both(
        alloc,
        answers,
        protocol,
        &session.secret,
        sealed_pin,
        sealed_hash,
    ) {
        Ok(param) => param,
        Err(e) => return Err(e),
    };
    let command = PinCommand::ChangePin(session.own, tagged_both, sealed_pin, sealed_hash);
    sent(alloc, protocol, &command)
}
