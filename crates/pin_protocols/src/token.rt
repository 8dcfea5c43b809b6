//! A token that a key gave, and what is made of it.

ghost use Rattle.std.specs.Prelude.{◌≡◌, IfErr, IfOk, length};
ghost use Rattle.pin_client_messages.specs.CommandView.{point_view};
ghost use Rattle.pin_protocols.specs.Asks.{Stops, entries};
ghost use Rattle.pin_protocols.specs.Flows.{IsToken, NoToken};
ghost use Rattle.pin_protocols.specs.Protocols.{Authenticates, authentication, is_token_size};

use crate::answers::Answers;
use crate::protocol::Protocol;
use crate::session::{authenticated, begun, opened};
use crate::stop::Stop;
use pin_client_messages::Point;
use std::alloc::Global;

fn is_token_size(protocol: Protocol, told: &[u8]) -> bool
    ensures { result ≡ is_token_size protocol (length told.now) }
{
    match protocol {
        Protocol::One => told.len() == 16 || told.len() == 32,
        Protocol::Two => told.len() == 48,
    }
}

/// The PIN/UV auth token that a key told, encrypted, in its reply to a request of [`token_request`](crate::token_request)
/// or [`uv_token_request`](crate::uv_token_request), with the point, the protocol and the answers of that request.
/// It lies in the answers: 16 or 32 bytes by protocol one, 32 by two.
///
/// Refused as [`Stop::BadToken`] of a token of another size. Stops as those requests, and at its decryption.
pub fn pin_uv_auth_token<'a>(
    alloc: Global,
    answers: &'a Answers,
    protocol: Protocol,
    peer: &Point<'_>,
    told: &[u8],
) -> Result<&'a [u8], Stop>
    ensures token { IfOk result (λ b. IsToken (entries answers.now) protocol (point_view peer.now) told.now b.now) }
    ensures none { IfErr result (NoToken (entries answers.now) protocol (point_view peer.now) told.now) }
{
    if !is_token_size(protocol, told) {
        return Err(Stop::BadToken);
    }
    let session = match begun(alloc, answers, protocol, peer) {
        Ok(session) => session,
        Err(e) => return Err(e),
    };
    match opened(alloc, answers, protocol, &session.secret, told) {
        Ok(token) => Ok(token),
        Err(e) => Err(e),
    }
}

/// The member `pinUvAuthParam` of a makeCredential or getAssertion request (CTAP 2.1, sections 6.1 and 6.2): the
/// client data's hash authenticated by the token. It lies in the answers: 16 bytes by protocol one, 32 by two.
///
/// Stops at the authentication.
pub fn pin_uv_auth_param<'a>(
    alloc: Global,
    answers: &'a Answers,
    protocol: Protocol,
    token: &[u8],
    client_data_hash: &[u8],
) -> Result<&'a [u8], Stop>
    ensures param { IfOk result (λ b. Authenticates (entries answers.now) protocol token.now client_data_hash.now b.now) }
    ensures stops { IfErr result (Stops (entries answers.now) (λ a. a ≡ authentication token.now client_data_hash.now)) }
{
    authenticated(alloc, answers, protocol, token, client_data_hash)
}
