//! What comes of a request, and its reply.

ghost use Rattle.std.specs.Prelude.{◌≡◌, ◌∷◌, [], IfOk, option_map, None};
ghost use Rattle.pin_client_messages.specs.ReplyView.{key_view};
ghost use Rattle.pin_key_messages.specs.Replying.{PinReplyBytes};
ghost use Rattle.key_pin.specs.Outcomes.{Replies, done, mismatch_status, nothing_told, public, told_retries};
ghost use Rattle.key_pin.specs.Pieces.{outcome_view};
ghost use Rattle.key_pin.specs.State.{over, pin_view};

use crate::state::{ClientPin, Token};
use ctap_encoding::status::{OK, PIN_AUTH_BLOCKED, PIN_BLOCKED, PIN_INVALID};
use pin_client_messages::{AgreementKey, PinReply};
use pin_key_messages::write_pin_reply;
use std::alloc::{AllocError, Global};

/// What comes of a request.
#[derive(Debug, Drop)]
pub(crate) enum Outcome<'a> {
    /// The retries are answered.
    RetriesTold,
    /// The public key is answered.
    KeyTold,
    /// This hash is of the PIN from now on.
    PinSet([u8; 16]),
    /// The old PIN was right, and the new one is refused by this status.
    PinRefused(u8),
    /// A new token, and how it is answered: encrypted.
    TokenTold(Token, &'a [u8]),
    /// The PIN was wrong.
    Mismatch,
}

/// A reply of this byte alone.
pub(crate) fn status_alone(alloc: Global, status: u8) -> Result<Vec<u8>, AllocError>
    ensures { IfOk result (λ v. v.items ≡ status ∷ []) }
{
    let mut reply = Vec::new(alloc);
    reply.push(status)?;
    Ok(reply)
}

/// A reply that tells these members.
fn told(
    alloc: Global,
    key: Option<AgreementKey<'_>>,
    token: Option<&[u8]>,
    pin_retries: Option<u64>,
    power_cycle: Option<bool>,
) -> Result<Vec<u8>, AllocError>
    ensures { IfOk result (λ v. PinReplyBytes (record {
      key = option_map key_view key.entry;
      token = option_map (λ b. b.now) token.entry;
      pin_retries = pin_retries;
      power_cycle = power_cycle;
      uv_retries = None;
    }) v.items) }
{
    let reply = PinReply {
        key,
        token,
        pin_retries,
        power_cycle,
        uv_retries: None,
    };
    match write_pin_reply(alloc, &reply) {
        Ok(bytes) => Ok(bytes),
        Err(_) => Err(AllocError),
    }
}

impl ClientPin {
    /// The status after a wrong PIN.
    fn mismatch_status(&self) -> u8
        ensures { result ≡ mismatch_status (public (pin_view self.now)) }
    {
        if self.retries == 0 {
            PIN_BLOCKED
        } else if self.mismatches >= 2 {
            PIN_AUTH_BLOCKED
        } else {
            PIN_INVALID
        }
    }

    fn retries_reply(&self, alloc: Global) -> Result<Vec<u8>, AllocError>
        ensures { IfOk result (λ v. PinReplyBytes (told_retries (public (pin_view self.now))) v.items) }
    {
        let retries = Some(u64::from(self.retries));
        told(alloc, None, None, retries, Some(self.mismatches >= 3))
    }

    fn key_reply(&self, alloc: Global) -> Result<Vec<u8>, AllocError>
        ensures { IfOk result (λ v. PinReplyBytes (record nothing_told { key = (public (pin_view self.now)).key }) v.items) }
    {
        let key = self.pair.as_ref().map(|pair| AgreementKey {
            kty: 2,
            alg: -25,
            crv: 1,
            x: &pair.x,
            y: &pair.y,
        });
        told(alloc, key, None, None, None)
    }

    /// The bytes of the reply.
    pub(crate) fn reply(&self, alloc: Global, outcome: &Outcome<'_>) -> Result<Vec<u8>, AllocError>
        ensures { IfOk result (λ v. Replies (Ok (outcome_view outcome.now)) (public (pin_view self.now)) v.items) }
    {
        match outcome {
            Outcome::RetriesTold => self.retries_reply(alloc),
            Outcome::KeyTold => self.key_reply(alloc),
            Outcome::PinSet(_) => status_alone(alloc, OK),
            Outcome::PinRefused(status) => status_alone(alloc, *status),
            Outcome::TokenTold(_, sealed) => told(alloc, None, Some(sealed), None, None),
            Outcome::Mismatch => status_alone(alloc, self.mismatch_status()),
        }
    }

    /// All 8 retries are there again.
    fn restore(&mut self)
        ensures { pin_view self.new ≡ record (pin_view self.old) { retries = 8; mismatches = 0 } }
    {
        self.retries = 8;
        self.mismatches = 0;
    }

    /// The state after it.
    pub(crate) fn carry_out(&mut self, outcome: Outcome<'_>)
        ensures { pin_view self.new ≡ over (done (outcome_view outcome.entry) (pin_view self.old)) }
    {
        match outcome {
            Outcome::RetriesTold | Outcome::KeyTold => {}
            Outcome::PinSet(hash) => {
                self.restore();
                self.pin = Some(hash);
                self.token = None;
            }
            Outcome::PinRefused(_) => self.restore(),
            Outcome::TokenTold(token, _) => {
                self.restore();
                self.token = Some(token);
            }
            Outcome::Mismatch => {
                self.mismatches = if self.mismatches < 3 {
                    self.mismatches + 1
                } else {
                    3
                };
                self.pair = None;
            }
        }
        self.counted = false;
    }
}
