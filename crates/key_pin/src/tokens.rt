//! getPinToken and getPinUvAuthTokenUsingPinWithPermissions (CTAP 2.1, sections 6.5.5.7.1 and 6.5.5.7.2).

ghost use Rattle.std.specs.Prelude.{◌≡◌, IfOk, option_map, string_bytes};
ghost use Rattle.pin_protocols.specs.Asks.{entries};
ghost use Rattle.pin_protocols.specs.FlowView.{scope_view, secret_view};
ghost use Rattle.key_pin.specs.Pieces.{Gives, Reaches, attempt_view, outcome_view};
ghost use Rattle.key_pin.specs.Query.{query_view};
ghost use Rattle.key_pin.specs.State.{pin_view};
ghost use Rattle.key_pin.specs.Steps.{counting, pin_token_begun, token, token_begun, token_given};

use crate::checks::{
    allowed_permissions, known_protocol, needed_bytes, needed_key, needed_number, needed_text,
    without_scope,
};
use crate::computing::encrypted;
use crate::end::End;
use crate::outcome::Outcome;
use crate::state::{ClientPin, KeyPair, Token};
use crate::tries::{Attempt, is_right};
use crate::words::PinWords;
use pin_client_messages::permission;
use pin_key_messages::PinAsked;
use pin_protocols::{Answers, Protocol, Scope, Secret};
use std::alloc::{AllocError, Global};

/// An rp id, in memory of its own.
fn kept_rp_id(alloc: Global, rp_id: Option<&str>) -> Result<Option<String>, AllocError>
    ensures { IfOk result (λ s. option_map string_bytes s ≡ option_map (λ b. b.now) rp_id.entry) }
{
    match rp_id {
        Some(rp_id) => Ok(Some(String::from_str(alloc, rp_id)?)),
        None => Ok(None),
    }
}

/// A token of these bytes and this scope, encrypted.
#[tactic(auto, unfolding(crate::specs::Steps::token_given))]
fn token_given<'a>(
    alloc: Global,
    answers: &'a Answers,
    protocol: Protocol,
    secret: &Secret,
    bytes: &[u8; 32],
    scope: &Scope<'_>,
) -> Result<Outcome<'a>, End>
    ensures { Gives outcome_view result (token_given (entries answers.now) protocol (secret_view secret.now) bytes.now (scope_view scope.now)) }
{
    let sealed = encrypted(alloc, answers, protocol, secret, bytes)?;
    let token = Token {
        protocol,
        bytes: *bytes,
        permissions: scope.permissions,
        rp_id: kept_rp_id(alloc, scope.rp_id)?,
    };
    Ok(Outcome::TokenTold(token, sealed))
}

/// What comes of a try for a token that was counted.
#[tactic(auto, unfolding(crate::specs::Steps::token))]
fn token<'a>(
    alloc: Global,
    answers: &'a Answers,
    words: &PinWords,
    attempt: &Attempt<'_>,
    scope: &Scope<'_>,
) -> Result<Outcome<'a>, End>
    ensures { Gives outcome_view result (token (entries answers.now) words.now (attempt_view attempt.now, scope_view scope.now)) }
{
    if !is_right(alloc, answers, attempt)? {
        return Ok(Outcome::Mismatch);
    }
    token_given(
        alloc,
        answers,
        attempt.protocol,
        &attempt.secret,
        &words.token,
        scope,
    )
}

impl ClientPin {
    /// The beginning of a getPinToken: the token is for both permissions, and for any relying party.
    #[tactic(auto, unfolding(crate::specs::Steps::pin_token_begun))]
    fn pin_token_begun<'a>(
        &self,
        alloc: Global,
        answers: &Answers,
        pair: &KeyPair,
        asked: &PinAsked<'a>,
    ) -> Result<(Attempt<'a>, Scope<'a>), End>
        ensures { Gives (λ x. (attempt_view x.0, scope_view x.1)) result (pin_token_begun (entries answers.now) pair.now (query_view asked.now) (pin_view self.now)) }
    {
        let number = needed_number(asked.protocol)?;
        let key = needed_key(asked.key)?;
        let pin_hash = needed_bytes(asked.pin_hash)?;
        without_scope(asked.permissions, asked.rp_id)?;
        let protocol = known_protocol(number)?;
        let attempt = self.try_begun(alloc, answers, pair, protocol, &key, pin_hash)?;
        let scope = Scope {
            permissions: permission::MAKE_CREDENTIAL | permission::GET_ASSERTION,
            rp_id: None,
        };
        Ok((attempt, scope))
    }

    /// The beginning of a getPinUvAuthTokenUsingPinWithPermissions.
    #[tactic(auto, unfolding(crate::specs::Steps::token_begun))]
    fn token_begun<'a>(
        &self,
        alloc: Global,
        answers: &Answers,
        pair: &KeyPair,
        asked: &PinAsked<'a>,
    ) -> Result<(Attempt<'a>, Scope<'a>), End>
        ensures { Gives (λ x. (attempt_view x.0, scope_view x.1)) result (token_begun (entries answers.now) pair.now (query_view asked.now) (pin_view self.now)) }
    {
        let number = needed_number(asked.protocol)?;
        let key = needed_key(asked.key)?;
        let pin_hash = needed_bytes(asked.pin_hash)?;
        let permissions = needed_number(asked.permissions)?;
        let protocol = known_protocol(number)?;
        allowed_permissions(permissions)?;
        let rp_id = needed_text(asked.rp_id)?;
        let attempt = self.try_begun(alloc, answers, pair, protocol, &key, pin_hash)?;
        let scope = Scope {
            permissions,
            rp_id: Some(rp_id),
        };
        Ok((attempt, scope))
    }

    /// getPinToken: the try is counted before anything is made of pinHashEnc.
    pub(crate) fn pin_token<'a>(
        &mut self,
        alloc: Global,
        answers: &'a Answers,
        words: &PinWords,
        pair: &KeyPair,
        asked: &PinAsked<'_>,
    ) -> Result<Outcome<'a>, End>
        ensures { Reaches (counting (pin_token_begun (entries answers.now) pair.now (query_view asked.now) (pin_view self.old)) (token (entries answers.now) words.now) (pin_view self.old))
            (pin_view self.old) result (pin_view self.new) }
    {
        let (attempt, scope) = match self.pin_token_begun(alloc, answers, pair, asked) {
            Ok(begun) => begun,
            Err(end) => return Err(end),
        };
        self.count();
        token(alloc, answers, words, &attempt, &scope)
    }

    /// getPinUvAuthTokenUsingPinWithPermissions: the try is counted before anything is made of pinHashEnc.
    pub(crate) fn token_with_permissions<'a>(
        &mut self,
        alloc: Global,
        answers: &'a Answers,
        words: &PinWords,
        pair: &KeyPair,
        asked: &PinAsked<'_>,
    ) -> Result<Outcome<'a>, End>
        ensures { Reaches (counting (token_begun (entries answers.now) pair.now (query_view asked.now) (pin_view self.old)) (token (entries answers.now) words.now) (pin_view self.old))
            (pin_view self.old) result (pin_view self.new) }
    {
        let (attempt, scope) = match self.token_begun(alloc, answers, pair, asked) {
            Ok(begun) => begun,
            Err(end) => return Err(end),
        };
        self.count();
        token(alloc, answers, words, &attempt, &scope)
    }
}
