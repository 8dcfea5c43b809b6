//! A request of clientPIN (CTAP 2.1, section 6.5.5).

ghost use Rattle.std.specs.Prelude.{◌≡◌, ◌⊎◌, IfOk, OnErr, OnOk};
ghost use Rattle.pin_protocols.specs.Asks.{entries};
ghost use Rattle.key_pin.specs.Outcomes.{IsStep, Unanswered, after};
ghost use Rattle.key_pin.specs.Pieces.{Finishes, Gives, Reaches, outcome_view};
ghost use Rattle.key_pin.specs.Query.{query_view};
ghost use Rattle.key_pin.specs.State.{pin_view, with_pair};
ghost use Rattle.key_pin.specs.Steps.{judged, key_agreement, verdict};

use crate::checks::{known_protocol, needed_number};
use crate::end::End;
use crate::outcome::{Outcome, status_alone};
use crate::state::{ClientPin, KeyPair};
use crate::words::{PinStep, PinWords};
use ctap_encoding::status::INVALID_SUBCOMMAND;
use pin_client_messages::subcommand;
use pin_key_messages::PinAsked;
use pin_protocols::Answers;
use std::alloc::{AllocError, Global};

/// getKeyAgreement.
#[tactic(auto, unfolding(crate::specs::Steps::key_agreement))]
fn key_agreement<'a>(asked: &PinAsked<'_>) -> Result<Outcome<'a>, End>
    ensures { Gives outcome_view result (key_agreement (query_view asked.now)) }
{
    let number = needed_number(asked.protocol)?;
    known_protocol(number)?;
    Ok(Outcome::KeyTold)
}

impl ClientPin {
    /// What comes of a request.
    fn judged<'a>(
        &mut self,
        alloc: Global,
        answers: &'a Answers,
        words: &PinWords,
        pair: &KeyPair,
        asked: &PinAsked<'_>,
    ) -> Result<Outcome<'a>, End>
        ensures { Reaches (judged (entries answers.now) words.now pair.now (query_view asked.now) (pin_view self.old)) (pin_view self.old) result (pin_view self.new) }
    {
        match asked.subcommand {
            subcommand::GET_PIN_RETRIES => Ok(Outcome::RetriesTold),
            subcommand::GET_KEY_AGREEMENT => key_agreement(asked),
            subcommand::SET_PIN => self.set_pin(alloc, answers, pair, asked),
            subcommand::CHANGE_PIN => self.change_pin(alloc, answers, pair, asked),
            subcommand::GET_PIN_TOKEN => self.pin_token(alloc, answers, words, pair, asked),
            subcommand::GET_TOKEN_USING_PIN => self.token_with_permissions(
                alloc, answers, words, pair, asked,
            ),
            _ => Err(End::Refused(INVALID_SUBCOMMAND)),
        }
    }

    /// The answer of a call.
    fn answered(
        &mut self,
        alloc: Global,
        outcome: Result<Outcome<'_>, End>,
    ) -> Result<PinStep, AllocError>
        ensures done { IfOk result (λ step. Finishes outcome.entry (pin_view self.old) step (pin_view self.new)) }
        ensures err { OnErr result (pin_view self.new ≡ pin_view self.old) }
    {
        match outcome {
            Ok(outcome) => {
                let reply = self.reply(alloc, &outcome)?;
                self.carry_out(outcome);
                Ok(PinStep::Replies(reply))
            }
            Err(End::Refused(status)) => {
                let reply = status_alone(alloc, status)?;
                self.counted = false;
                Ok(PinStep::Replies(reply))
            }
            Err(End::Asks(ask)) => Ok(PinStep::Asks(ask)),
            Err(End::Memory) => Err(AllocError),
        }
    }

    /// A request of clientPIN. Where the host is asked, the call is made again with its answer, for the same request and with
    /// the same words.
    ///
    /// The reply is a status of CTAP 2.1, section 8.2, alone, or status 0 and what is answered; 0x7F where an answer of the host has
    /// another size. The steps of each subcommand, in order, stand in `specs/Steps.antt`.
    ///
    /// Before the host is asked to decrypt pinHashEnc, one retry less is left. Where there is no memory, the key pair may have
    /// been taken and the try counted, and no more: the call can be made again.
    pub fn handle(
        &mut self,
        alloc: Global,
        asked: &PinAsked<'_>,
        words: &PinWords,
        answers: &Answers,
    ) -> Result<PinStep, AllocError>
        ensures step { IfOk result (λ step. IsStep (verdict (entries answers.now) words.now (query_view asked.now) (pin_view self.old)) step) }
        ensures state { OnOk result (pin_view self.new ≡ after (verdict (entries answers.now) words.now (query_view asked.now) (pin_view self.old)).outcome
            (verdict (entries answers.now) words.now (query_view asked.now) (pin_view self.old)).state) }
        // Asked is nothing that was answered.
        ensures asks { IfOk result (Unanswered (entries answers.now)) }
        // If memory runs out, the key pair was taken, and the try may have been counted.
        ensures want { OnErr result ((pin_view self.new ≡ with_pair words.now (pin_view self.old))
            ⊎ (pin_view self.new ≡ (verdict (entries answers.now) words.now (query_view asked.now) (pin_view self.old)).state)) }
    {
        let pair = self.take_pair(words);
        let outcome = self.judged(alloc, answers, words, &pair, asked);
        self.answered(alloc, outcome)
    }
}
