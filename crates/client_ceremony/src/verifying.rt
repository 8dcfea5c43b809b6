//! The user's verification, for a command (CTAP 2.1, sections 6.1 and 6.2).

ghost use Rattle.std.specs.Prelude.{◌≡◌, ◌<◌, IfOk, IfErr, Some, option_map};
ghost use Rattle.ctap_open_replies.specs.ReplyView.{info_view};
ghost use Rattle.pin_protocols.specs.FlowView.{scope_view};
ghost use Rattle.client_ceremony.specs.Facts.{facts};
ghost use Rattle.client_ceremony.specs.Pieces.{OrMemory, verified_view};
ghost use Rattle.client_ceremony.specs.Tokens.{AuthFrom, NoAuthFrom, NoProtocol, Unverified, UnverifiedByPin, UnverifiedByUv, Verifies, VerifiesByPin, VerifiesByUv, pin_scope};
ghost use Rattle.client_ceremony.specs.Way.{protocol_told};
ghost use Rattle.client_ceremony.specs.declared.way.Way.TheVariants as ways;

use crate::halt::{Halt, stopped};
use crate::refusal::Refusal;
use crate::tokens::{token_by_pin, token_by_uv};
use crate::told::{is_on, protocol_of};
use crate::verified::Verified;
use crate::way::Way;
use crate::wish::Known;
use ctap_open_replies::KeyInfo;
use ctap_open_requests::PinUvAuth;
use pin_protocols::{Protocol, Scope, pin_uv_auth_param};
use std::alloc::Global;

/// The client data's hash, authenticated by a token.
fn by_token<'a>(
    alloc: Global,
    known: &Known<'a>,
    place: usize,
    protocol: Protocol,
    token: &[u8],
    hash: &[u8],
) -> Result<Verified<'a>, Halt<'a>>
    requires { place < 8 }
    ensures verified { IfOk result (λ v. AuthFrom (facts known.now) place protocol hash.now token.now (verified_view v)) }
    ensures halts { IfErr result (OrMemory (NoAuthFrom (facts known.now) place protocol hash.now token.now)) }
{
    match pin_uv_auth_param(alloc, known.answers, protocol, token, hash) {
        Ok(param) => Ok(Verified {
            auth: Some(PinUvAuth {
                param,
                protocol: protocol.number(),
            }),
            uv: None,
            place,
        }),
        Err(stop) => Err(stopped(place, stop)),
    }
}

/// The permissions that a token by PIN is asked for with: none where the key knows them not.
fn pin_scope<'a>(info: &KeyInfo<'_>, scope: &Scope<'a>) -> Option<Scope<'a>>
    ensures { option_map scope_view result ≡ pin_scope (info_view info.now) (scope_view scope.now) }
{
    if is_on(info, "pinUvAuthToken") {
        Some(*scope)
    } else {
        None
    }
}

/// By PIN, with this protocol.
fn verified_by_pin<'a>(
    alloc: Global,
    known: &Known<'a>,
    protocol: Protocol,
    scope: Option<Scope<'_>>,
    hash: &[u8],
) -> Result<Verified<'a>, Halt<'a>>
    ensures verified { IfOk result (λ v. VerifiesByPin (facts known.now) protocol (option_map scope_view scope.entry) hash.now (verified_view v)) }
    ensures halts { IfErr result (OrMemory (UnverifiedByPin (facts known.now) protocol (option_map scope_view scope.entry) hash.now)) }
{
    let token = match token_by_pin(alloc, known, protocol, scope) {
        Ok(token) => token,
        Err(halt) => return Err(halt),
    };
    match by_token(alloc, known, 4, protocol, token, hash) {
        Ok(verified) => Ok(verified),
        Err(halt) => Err(halt),
    }
}

/// By the key itself, with this protocol.
fn verified_by_uv<'a>(
    alloc: Global,
    known: &Known<'a>,
    protocol: Protocol,
    scope: &Scope<'_>,
    hash: &[u8],
) -> Result<Verified<'a>, Halt<'a>>
    ensures verified { IfOk result (λ v. VerifiesByUv (facts known.now) protocol (scope_view scope.now) hash.now (verified_view v)) }
    ensures halts { IfErr result (OrMemory (UnverifiedByUv (facts known.now) protocol (scope_view scope.now) hash.now)) }
{
    let token = match token_by_uv(alloc, known, protocol, scope) {
        Ok(token) => token,
        Err(halt) => return Err(halt),
    };
    match by_token(alloc, known, 3, protocol, token, hash) {
        Ok(verified) => Ok(verified),
        Err(halt) => Err(halt),
    }
}

/// The protocol.
fn protocol_told(info: &KeyInfo<'_>) -> Result<Protocol, Refusal>
    ensures told { IfOk result (λ p. protocol_told (info_view info.now) ≡ Some p) }
    ensures none { IfErr result (NoProtocol (info_view info.now)) }
{
    match protocol_of(info) {
        Some(protocol) => Ok(protocol),
        None => Err(Refusal::NoProtocol),
    }
}

/// By PIN.
fn with_pin<'a>(
    alloc: Global,
    known: &Known<'a>,
    info: &KeyInfo<'_>,
    scope: &Scope<'_>,
    hash: &[u8],
) -> Result<Verified<'a>, Halt<'a>>
    ensures verified { IfOk result (λ v. Verifies (facts known.now) (info_view info.now) ways.Pin (scope_view scope.now) hash.now (verified_view v)) }
    ensures halts { IfErr result (OrMemory (Unverified (facts known.now) (info_view info.now) ways.Pin (scope_view scope.now) hash.now)) }
{
    let protocol = match protocol_told(info) {
        Ok(protocol) => protocol,
        Err(refusal) => return Err(Halt::Refuses(refusal)),
    };
    match verified_by_pin(alloc, known, protocol, pin_scope(info, scope), hash) {
        Ok(verified) => Ok(verified),
        Err(halt) => Err(halt),
    }
}

/// By the key itself, for a token.
fn with_uv<'a>(
    alloc: Global,
    known: &Known<'a>,
    info: &KeyInfo<'_>,
    scope: &Scope<'_>,
    hash: &[u8],
) -> Result<Verified<'a>, Halt<'a>>
    ensures verified { IfOk result (λ v. Verifies (facts known.now) (info_view info.now) ways.BuiltInToken (scope_view scope.now) hash.now (verified_view v)) }
    ensures halts { IfErr result (OrMemory (Unverified (facts known.now) (info_view info.now) ways.BuiltInToken (scope_view scope.now) hash.now)) }
{
    let protocol = match protocol_told(info) {
        Ok(protocol) => protocol,
        Err(refusal) => return Err(Halt::Refuses(refusal)),
    };
    match verified_by_uv(alloc, known, protocol, scope, hash) {
        Ok(verified) => Ok(verified),
        Err(halt) => Err(halt),
    }
}

/// What a command for this scope and of this client data's hash has of the verification.
pub(crate) fn verification<'a>(
    alloc: Global,
    known: &Known<'a>,
    info: &KeyInfo<'_>,
    way: Way,
    scope: &Scope<'_>,
    hash: &[u8],
) -> Result<Verified<'a>, Halt<'a>>
    ensures verified { IfOk result (λ v. Verifies (facts known.now) (info_view info.now) way (scope_view scope.now) hash.now (verified_view v)) }
    ensures halts { IfErr result (OrMemory (Unverified (facts known.now) (info_view info.now) way (scope_view scope.now) hash.now)) }
{
    match way {
        Way::BuiltInToken => with_uv(alloc, known, info, scope, hash),
        Way::BuiltInOption => Ok(Verified {
            auth: None,
            uv: Some(true),
            place: 1,
        }),
        Way::Pin => with_pin(alloc, known, info, scope, hash),
        Way::Presence => Ok(Verified {
            auth: None,
            uv: None,
            place: 1,
        }),
        Way::Nothing => Err(Halt::Refuses(Refusal::NoVerification)),
    }
}
