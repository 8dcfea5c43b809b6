//! A try of a PIN (CTAP 2.1, sections 6.5.5.6 and 6.5.5.7).

ghost use Rattle.std.specs.Prelude.{◌≡◌};
ghost use Rattle.pin_client_messages.specs.ReplyView.{key_view};
ghost use Rattle.pin_protocols.specs.Asks.{entries};
ghost use Rattle.pin_protocols.specs.FlowView.{secret_view};
ghost use Rattle.key_pin.specs.Pieces.{Gives, attempt_view};
ghost use Rattle.key_pin.specs.Pins.{sealed_size};
ghost use Rattle.key_pin.specs.State.{pin_view};
ghost use Rattle.key_pin.specs.Steps.{is_right, may_try, pin_of, shared, tried_pin, try_begun};

use crate::checks::client_point;
use crate::computing::{decrypted, is_same, product, secret};
use crate::end::End;
use crate::state::{ClientPin, KeyPair};
use ctap_encoding::status::{PIN_AUTH_BLOCKED, PIN_BLOCKED, PIN_NOT_SET};
use pin_client_messages::AgreementKey;
use pin_protocols::{Answers, Protocol, Secret};
use std::alloc::Global;

/// A try of a PIN as it begins.
#[derive(Debug, Drop)]
pub(crate) struct Attempt<'a> {
    pub protocol: Protocol,
    pub secret: Secret,
    pub pin_hash: &'a [u8],
    pub pin: [u8; 16],
}

/// The shared secret of the own key pair and the client's public key.
#[tactic(auto, unfolding(crate::specs::Steps::shared))]
pub(crate) fn shared(
    alloc: Global,
    answers: &Answers,
    pair: &KeyPair,
    protocol: Protocol,
    key: &AgreementKey<'_>,
) -> Result<Secret, End>
    ensures { Gives secret_view result (shared (entries answers.now) pair.now protocol (key_view key.now)) }
{
    let point = client_point(key)?;
    let z = product(alloc, answers, &pair.key, &point)?;
    secret(alloc, answers, protocol, z)
}

/// How many bytes the ciphertext of 16 has.
fn sealed_hash_size(protocol: Protocol) -> usize
    ensures { result ≡ sealed_size protocol 16 }
{
    match protocol {
        Protocol::One => 16,
        Protocol::Two => 32,
    }
}

/// Whether it is the PIN.
#[tactic(auto, unfolding(crate::specs::Steps::is_right))]
pub(crate) fn is_right(alloc: Global, answers: &Answers, attempt: &Attempt<'_>) -> Result<bool, End>
    ensures { Gives (λ b. b) result (is_right (entries answers.now) (attempt_view attempt.now)) }
{
    if attempt.pin_hash.len() != sealed_hash_size(attempt.protocol) {
        return Ok(false);
    }
    let hash = decrypted(
        alloc,
        answers,
        attempt.protocol,
        &attempt.secret,
        attempt.pin_hash,
    )?;
    Ok(is_same(hash, &attempt.pin))
}

impl ClientPin {
    /// The hash of the PIN that is set.
    fn pin_of(&self) -> Result<[u8; 16], End>
        ensures { Gives (λ h. h) result (pin_of (pin_view self.now).pin) }
    {
        match self.pin {
            Some(hash) => Ok(hash),
            None => Err(End::Refused(PIN_NOT_SET)),
        }
    }

    /// Whether a PIN may be tried.
    fn may_try(&self) -> Result<(), End>
        ensures { Gives (λ _. tt) result (may_try (pin_view self.now)) }
    {
        if self.counted {
            return Ok(());
        }
        if self.retries == 0 {
            return Err(End::Refused(PIN_BLOCKED));
        }
        if self.mismatches >= 3 {
            return Err(End::Refused(PIN_AUTH_BLOCKED));
        }
        Ok(())
    }

    /// The hash of the PIN that is set, where it may be tried.
    #[tactic(auto, unfolding(crate::specs::Steps::tried_pin))]
    pub(crate) fn tried_pin(&self) -> Result<[u8; 16], End>
        ensures { Gives (λ h. h) result (tried_pin (pin_view self.now)) }
    {
        let hash = self.pin_of()?;
        self.may_try()?;
        Ok(hash)
    }

    /// The beginning of a try for a token.
    #[tactic(auto, unfolding(crate::specs::Steps::try_begun))]
    pub(crate) fn try_begun<'a>(
        &self,
        alloc: Global,
        answers: &Answers,
        pair: &KeyPair,
        protocol: Protocol,
        key: &AgreementKey<'_>,
        pin_hash: &'a [u8],
    ) -> Result<Attempt<'a>, End>
        ensures { Gives attempt_view result (try_begun (entries answers.now) pair.now protocol (key_view key.now) pin_hash.now (pin_view self.now)) }
    {
        let pin = self.tried_pin()?;
        let secret = shared(alloc, answers, pair, protocol, key)?;
        Ok(Attempt {
            protocol,
            secret,
            pin_hash,
            pin,
        })
    }
}
