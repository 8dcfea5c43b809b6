//! The security key.

ghost use Rattle.std.specs.Prelude.{◌≡◌, ◌↔◌, IfOk, IsSome, IsTrue, OnErr, OnOk, option_map};
ghost use Rattle.key_pin.specs.State.{pin_view, powered_up, without_token};
ghost use Rattle.key_device.specs.Key.{IsNew, asked_at, is_verifying, new_pin, plugged_in, without_its_token};

use crate::deciding::forget;
use crate::stage::Stage;
use authdata::AttestationType;
use authenticator::{Authenticator, Pending};
use hidlink::Device;
use key_pin::ClientPin;
use pin_protocols::Ask;
use std::alloc::{AllocError, Global};
use std::marker::Model;

/// How a security key verifies its user (CTAP 2.1, section 6.4, the options `uv` and `clientPin`).
#[derive(Clone, Copy, Debug, PartialEq, Eq, Drop)]
pub enum UserVerification {
    /// Not at all.
    Absent,
    /// By itself: its host says whether the user is verified.
    BuiltIn,
    /// By a PIN alone.
    Pin,
}

/// A device, its authenticator, its PIN where it takes one, and what the request that the device works on waits for.
#[derive(Drop)]
pub struct KeyDevice {
    pub(crate) device: Device,
    pub(crate) authenticator: Authenticator,
    pub(crate) pin: Option<ClientPin>,
    pub(crate) stage: Stage,
    pub(crate) pending: Option<Pending>,
}

impl Model for KeyDevice {
    ghost use Rattle.std.specs.Prelude.{option_map};
    ghost use Rattle.key_pin.specs.State.{pin_view};
    ghost use Rattle.key_device.specs.Key.{IsSound, KeyDeviceState};

    ghost Value = { KeyDeviceState };

    ghost view = { λ k. record { device = k.device; authenticator = k.authenticator; pin = option_map pin_view k.pin; stage = k.stage; pending = k.pending } };

    ghost invariant = { λ k. IsSound (record { device = k.device; authenticator = k.authenticator; pin = option_map pin_view k.pin; stage = k.stage; pending = k.pending }) };
}

/// The PIN of a new key.
fn new_pin(verification: UserVerification) -> Option<ClientPin>
    ensures { option_map pin_view result ≡ new_pin verification }
{
    match verification {
        UserVerification::Pin => Some(ClientPin::new()),
        UserVerification::Absent => None,
        UserVerification::BuiltIn => None,
    }
}

/// Whether a new key's authenticator is configured with verification.
fn is_verifying(verification: UserVerification) -> bool
    ensures { result ≡ is_verifying verification }
{
    match verification {
        UserVerification::Absent => false,
        UserVerification::BuiltIn => true,
        UserVerification::Pin => true,
    }
}

/// The key is plugged in.
fn power_up_pin(pin: &mut Option<ClientPin>)
    ensures { option_map pin_view pin.new ≡ option_map powered_up (option_map pin_view pin.old) }
{
    if let Some(pin) = pin {
        pin.power_up();
    }
}

/// The token's time is over.
fn end_token_of(pin: &mut Option<ClientPin>)
    ensures { option_map pin_view pin.new ≡ option_map without_token (option_map pin_view pin.old) }
{
    if let Some(pin) = pin {
        pin.end_token();
    }
}

impl KeyDevice {
    /// A key without credentials and PIN, whose device has handed out no channel.
    pub fn new(
        alloc: Global,
        aaguid: [u8; 16],
        verification: UserVerification,
        attest: AttestationType,
    ) -> Result<KeyDevice, AllocError>
        ensures { IfOk result (IsNew aaguid verification attest) }
    {
        let device = Device::new(alloc)?;
        Ok(KeyDevice {
            device,
            authenticator: Authenticator::new(alloc, aaguid, is_verifying(verification), attest),
            pin: new_pin(verification),
            stage: Stage::Nothing,
            pending: None,
        })
    }

    /// Whether it takes PINs.
    pub fn takes_pin(&self) -> bool
        ensures { IsTrue result ↔ IsSome self.now.pin }
    {
        self.pin.is_some()
    }

    /// What the host is asked for.
    pub fn ask(&self) -> Option<&Ask>
        ensures { option_map (λ a. a.now) result ≡ asked_at self.now.stage }
    {
        match &self.stage {
            Stage::Answer(_, computation) => Some(&computation.ask),
            _ => None,
        }
    }

    /// What waits for its signature.
    pub fn pending(&self) -> Option<&Pending>
        ensures { option_map (λ p. p.now) result ≡ self.now.pending }
    {
        match &self.pending {
            Some(pending) => Some(pending),
            None => None,
        }
    }

    /// The key is plugged in anew: its channels, its token and key agreement, what waits and what is remembered are gone.
    /// Credentials, PIN and retries stay. Without memory nothing has changed.
    pub fn power_up(&mut self, alloc: Global) -> Result<(), AllocError>
        ensures ok { OnOk result (self.new ≡ plugged_in self.old) }
        ensures err { OnErr result (self.new ≡ self.old) }
    {
        let device = Device::new(alloc)?;
        forget(&mut self.authenticator)?;
        self.device = device;
        power_up_pin(&mut self.pin);
        self.stage = Stage::Nothing;
        self.pending = None;
        Ok(())
    }

    /// The token's time is over.
    pub fn end_token(&mut self)
        ensures { self.new ≡ without_its_token self.old }
    {
        end_token_of(&mut self.pin);
    }
}
