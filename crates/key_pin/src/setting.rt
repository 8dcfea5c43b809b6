//! setPIN and changePIN (CTAP 2.1, sections 6.5.5.5 and 6.5.5.6).

ghost use Rattle.std.specs.Prelude.{◌≡◌, ◌++◌, ℕ, IfOk, List, Result};
ghost use Rattle.pin_protocols.specs.Asks.{entries};
ghost use Rattle.pin_protocols.specs.FlowView.{secret_view};
ghost use Rattle.key_pin.specs.Host.{Ending, verified};
ghost use Rattle.key_pin.specs.Pieces.{Gives, Reaches, attempt_view, outcome_view};
ghost use Rattle.key_pin.specs.Query.{query_view};
ghost use Rattle.key_pin.specs.State.{pin_view};
ghost use Rattle.key_pin.specs.Steps.{change_begun, changed, counting, replaced, set_pin};

use crate::checks::{known_protocol, needed_bytes, needed_key, needed_number, unset};
use crate::computing::verified;
use crate::end::End;
use crate::outcome::Outcome;
use crate::pins::new_hash;
use crate::state::{ClientPin, KeyPair};
use crate::tries::{Attempt, is_right, shared};
use pin_key_messages::PinAsked;
use pin_protocols::{Answers, Protocol, Secret};
use std::alloc::{AllocError, Global};

/// Two messages as one.
fn joined(alloc: Global, front: &[u8], back: &[u8]) -> Result<Vec<u8>, AllocError>
    ensures { IfOk result (λ v. v.items ≡ front.now ++ back.now) }
{
    let mut all = Vec::from_slice(alloc, front)?;
    all.extend_from_slice(back)?;
    Ok(all)
}

/// Whether a param is these two messages authenticated by the shared secret.
fn verified_both(
    alloc: Global,
    answers: &Answers,
    protocol: Protocol,
    secret: &Secret,
    front: &[u8],
    back: &[u8],
    param: &[u8],
) -> Result<(), End>
    ensures { Gives (λ _. tt) result (verified (entries answers.now) protocol (secret_view secret.now).hmac (front.now ++ back.now) param.now) }
{
    let message = joined(alloc, front, back)?;
    verified(alloc, answers, protocol, secret.hmac(), &message, param)
}

/// A new PIN in place of one that was right.
fn replaced<'a>(hash: Result<[u8; 16], End>) -> Result<Outcome<'a>, End>
    ensures { (r : Result (List ℕ) Ending) → Gives (λ h. h) hash r → Gives outcome_view result (replaced r) }
{
    match hash {
        Ok(hash) => Ok(Outcome::PinSet(hash)),
        Err(End::Refused(status)) => Ok(Outcome::PinRefused(status)),
        Err(end) => Err(end),
    }
}

/// What comes of a changePIN that was counted.
#[tactic(auto, unfolding(crate::specs::Steps::changed))]
fn changed<'a>(
    alloc: Global,
    answers: &'a Answers,
    attempt: &Attempt<'_>,
    new_pin: &[u8],
) -> Result<Outcome<'a>, End>
    ensures { Gives outcome_view result (changed (entries answers.now) (attempt_view attempt.now, new_pin.now)) }
{
    if !is_right(alloc, answers, attempt)? {
        return Ok(Outcome::Mismatch);
    }
    let hash = new_hash(alloc, answers, attempt.protocol, &attempt.secret, new_pin);
    replaced(hash)
}

impl ClientPin {
    /// setPIN.
    #[tactic(auto, unfolding(crate::specs::Steps::set_pin))]
    pub(crate) fn set_pin<'a>(
        &self,
        alloc: Global,
        answers: &'a Answers,
        pair: &KeyPair,
        asked: &PinAsked<'_>,
    ) -> Result<Outcome<'a>, End>
        ensures { Gives outcome_view result (set_pin (entries answers.now) pair.now (query_view asked.now) (pin_view self.now)) }
    {
        let number = needed_number(asked.protocol)?;
        let key = needed_key(asked.key)?;
        let new_pin = needed_bytes(asked.new_pin)?;
        let param = needed_bytes(asked.param)?;
        let protocol = known_protocol(number)?;
        unset(&self.pin)?;
        let secret = shared(alloc, answers, pair, protocol, &key)?;
        verified(alloc, answers, protocol, secret.hmac(), new_pin, param)?;
        let hash = new_hash(alloc, answers, protocol, &secret, new_pin)?;
        Ok(Outcome::PinSet(hash))
    }

    /// The beginning of a changePIN.
    #[tactic(auto, unfolding(crate::specs::Steps::change_begun))]
    fn change_begun<'a>(
        &self,
        alloc: Global,
        answers: &Answers,
        pair: &KeyPair,
        asked: &PinAsked<'a>,
    ) -> Result<(Attempt<'a>, &'a [u8]), End>
        ensures { Gives (λ x. (attempt_view x.0, x.1.now)) result (change_begun (entries answers.now) pair.now (query_view asked.now) (pin_view self.now)) }
    {
        let number = needed_number(asked.protocol)?;
        let key = needed_key(asked.key)?;
        let new_pin = needed_bytes(asked.new_pin)?;
        let pin_hash = needed_bytes(asked.pin_hash)?;
        let param = needed_bytes(asked.param)?;
        let protocol = known_protocol(number)?;
        let pin = self.tried_pin()?;
        let secret = shared(alloc, answers, pair, protocol, &key)?;
        verified_both(alloc, answers, protocol, &secret, new_pin, pin_hash, param)?;
        let attempt = Attempt {
            protocol,
            secret,
            pin_hash,
            pin,
        };
        Ok((attempt, new_pin))
    }

    /// changePIN: the try is counted before anything is made of pinHashEnc.
    pub(crate) fn change_pin<'a>(
        &mut self,
        alloc: Global,
        answers: &'a Answers,
        pair: &KeyPair,
        asked: &PinAsked<'_>,
    ) -> Result<Outcome<'a>, End>
        ensures { Reaches (counting (change_begun (entries answers.now) pair.now (query_view asked.now) (pin_view self.old)) (changed (entries answers.now)) (pin_view self.old))
            (pin_view self.old) result (pin_view self.new) }
    {
        let (attempt, new_pin) = match self.change_begun(alloc, answers, pair, asked) {
            Ok(begun) => begun,
            Err(end) => return Err(end),
        };
        self.count();
        changed(alloc, answers, &attempt, new_pin)
    }
}
