//! PIN/UV auth tokens (CTAP 2.1, section 6.5.5.7).

ghost use Rattle.std.specs.Prelude.{◌≡◌, ◌<◌, IfOk, IfErr, option_map};
ghost use Rattle.pin_client_messages.specs.CommandView.{point_view};
ghost use Rattle.pin_client_messages.specs.ReplyView.{reply_view};
ghost use Rattle.pin_client_messages.specs.Replies.{TellsPin};
ghost use Rattle.pin_protocols.specs.FlowView.{scope_view};
ghost use Rattle.client_ceremony.specs.Exchanges.{Told, Untold};
ghost use Rattle.client_ceremony.specs.Facts.{facts};
ghost use Rattle.client_ceremony.specs.Pieces.{OrMemory};
ghost use Rattle.client_ceremony.specs.Tokens.{ByPin, ByUv, HasToken, HasTokenByPin, HasTokenByUv, NoTokenByPin, NoTokenByUv, NoTokenOf, NotAskedByPin, NotAskedByUv, TokenIn, Unopened};

use crate::halt::{Halt, stopped};
use crate::refusal::Refusal;
use crate::replies::{agreement, pin_reply, reply_to, user_pin};
use crate::wish::Known;
use pin_client_messages::{PinReply, Point};
use pin_protocols::{Protocol, Scope, pin_uv_auth_token, token_request, uv_token_request};
use std::alloc::Global;

/// What the key told to this request, before which so many messages are sent.
fn token_told<'a>(
    known: &Known<'a>,
    place: usize,
    request: Vec<u8>,
) -> Result<PinReply<'a>, Halt<'a>>
    ensures told { IfOk result (λ t. Told (facts known.now) place (λ m. m ≡ request.items) TellsPin (reply_view t)) }
    ensures halts { IfErr result (OrMemory (Untold (facts known.now) place (λ m. m ≡ request.items) TellsPin)) }
{
    let reply = match reply_to(known, place, request) {
        Ok(reply) => reply,
        Err(halt) => return Err(halt),
    };
    match pin_reply(reply) {
        Ok(told) => Ok(told),
        Err(refusal) => Err(Halt::Refuses(refusal)),
    }
}

/// The token of a reply, decrypted, after so many messages and that one.
fn token_of<'a>(
    alloc: Global,
    known: &Known<'a>,
    place: usize,
    protocol: Protocol,
    peer: &Point<'_>,
    told: &PinReply<'_>,
) -> Result<&'a [u8], Halt<'a>>
    requires { place < 8 }
    ensures token { IfOk result (λ b. TokenIn (facts known.now) protocol (point_view peer.now) (reply_view told.now) b.now) }
    ensures halts { IfErr result (OrMemory (NoTokenOf (facts known.now) place protocol (point_view peer.now) (reply_view told.now))) }
{
    let token = match told.token {
        Some(token) => token,
        None => return Err(Halt::Refuses(Refusal::NotReadable)),
    };
    match pin_uv_auth_token(alloc, known.answers, protocol, peer, token) {
        Ok(token) => Ok(token),
        Err(stop) => Err(stopped(place + 1, stop)),
    }
}

/// The token that the key gives for this request, before which so many messages are sent.
fn opened<'a>(
    alloc: Global,
    known: &Known<'a>,
    place: usize,
    protocol: Protocol,
    peer: &Point<'_>,
    request: Vec<u8>,
) -> Result<&'a [u8], Halt<'a>>
    requires { place < 8 }
    ensures token { IfOk result (λ b. HasToken (facts known.now) place protocol (point_view peer.now) (λ m. m ≡ request.items) b.now) }
    ensures halts { IfErr result (OrMemory (Unopened (facts known.now) place protocol (point_view peer.now) (λ m. m ≡ request.items))) }
{
    let told = match token_told(known, place, request) {
        Ok(told) => told,
        Err(halt) => return Err(halt),
    };
    match token_of(alloc, known, place, protocol, peer, &told) {
        Ok(token) => Ok(token),
        Err(halt) => Err(halt),
    }
}

/// A token by this PIN and with this point, after getInfo, getPINRetries and getKeyAgreement.
fn asked_by_pin<'a>(
    alloc: Global,
    known: &Known<'a>,
    protocol: Protocol,
    peer: &Point<'_>,
    pin: &str,
    scope: Option<Scope<'_>>,
) -> Result<&'a [u8], Halt<'a>>
    ensures token { IfOk result (λ b. HasToken (facts known.now) 3 protocol (point_view peer.now)
        (ByPin (facts known.now) protocol (point_view peer.now) pin.now (option_map scope_view scope.entry)) b.now) }
    ensures halts { IfErr result (OrMemory (NotAskedByPin (facts known.now) protocol (point_view peer.now) pin.now (option_map scope_view scope.entry))) }
{
    let request = match token_request(alloc, known.answers, protocol, peer, pin, scope) {
        Ok(request) => request,
        Err(stop) => return Err(stopped(3, stop)),
    };
    match opened(alloc, known, 3, protocol, peer, request) {
        Ok(token) => Ok(token),
        Err(halt) => Err(halt),
    }
}

/// A token by PIN: after getInfo.
pub(crate) fn token_by_pin<'a>(
    alloc: Global,
    known: &Known<'a>,
    protocol: Protocol,
    scope: Option<Scope<'_>>,
) -> Result<&'a [u8], Halt<'a>>
    ensures token { IfOk result (λ b. HasTokenByPin (facts known.now) protocol (option_map scope_view scope.entry) b.now) }
    ensures halts { IfErr result (OrMemory (NoTokenByPin (facts known.now) protocol (option_map scope_view scope.entry))) }
{
    let pin = match user_pin(alloc, known, protocol) {
        Ok(pin) => pin,
        Err(halt) => return Err(halt),
    };
    let peer = match agreement(alloc, known, 2, protocol) {
        Ok(peer) => peer,
        Err(halt) => return Err(halt),
    };
    match asked_by_pin(alloc, known, protocol, &peer, pin, scope) {
        Ok(token) => Ok(token),
        Err(halt) => Err(halt),
    }
}

/// A token by the key's own verification, with this point, after getInfo and getKeyAgreement.
fn asked_by_uv<'a>(
    alloc: Global,
    known: &Known<'a>,
    protocol: Protocol,
    peer: &Point<'_>,
    scope: &Scope<'_>,
) -> Result<&'a [u8], Halt<'a>>
    ensures token { IfOk result (λ b. HasToken (facts known.now) 2 protocol (point_view peer.now)
        (ByUv (facts known.now) protocol (point_view peer.now) (scope_view scope.now)) b.now) }
    ensures halts { IfErr result (OrMemory (NotAskedByUv (facts known.now) protocol (point_view peer.now) (scope_view scope.now))) }
{
    let request = match uv_token_request(alloc, known.answers, protocol, peer, scope) {
        Ok(request) => request,
        Err(stop) => return Err(stopped(2, stop)),
    };
    match opened(alloc, known, 2, protocol, peer, request) {
        Ok(token) => Ok(token),
        Err(halt) => Err(halt),
    }
}

/// A token by the key's own verification: after getInfo.
pub(crate) fn token_by_uv<'a>(
    alloc: Global,
    known: &Known<'a>,
    protocol: Protocol,
    scope: &Scope<'_>,
) -> Result<&'a [u8], Halt<'a>>
    ensures token { IfOk result (λ b. HasTokenByUv (facts known.now) protocol (scope_view scope.now) b.now) }
    ensures halts { IfErr result (OrMemory (NoTokenByUv (facts known.now) protocol (scope_view scope.now))) }
{
    let peer = match agreement(alloc, known, 1, protocol) {
        Ok(peer) => peer,
        Err(halt) => return Err(halt),
    };
    match asked_by_uv(alloc, known, protocol, &peer, scope) {
        Ok(token) => Ok(token),
        Err(halt) => Err(halt),
    }
}
