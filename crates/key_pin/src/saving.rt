//! What outlives a power cycle.

ghost use Rattle.std.specs.Prelude.{◌≡◌, ◌++◌, IfOk, OnErr, OnOk};
ghost use Rattle.key_pin.specs.Saved.{FitsPin, saved};
ghost use Rattle.key_pin.specs.State.{PinState, pin_view, powered_up};

use crate::state::ClientPin;
use std::alloc::AllocError;

/// Why bytes are not loaded.
#[derive(Clone, Copy, Debug, PartialEq, Eq, Drop, thiserror::Error)]
pub enum PinLoadError {
    /// The bytes are no saved PIN.
    #[error("the bytes are no saved PIN")]
    BadPin,
}

/// The version of the bytes.
const VERSION: u8 = 1;

impl ClientPin {
    /// Appends what [`load`](ClientPin::load) takes: the PIN's hash and the retries. From the hash of a short PIN the PIN is
    /// easily found, so the bytes are to be kept as the PIN is.
    ///
    /// Where there is no memory the output's bytes are as they were.
    pub fn save(&self, out: &mut Vec<u8>) -> Result<(), AllocError>
        ensures saved { OnOk result (out.new.items ≡ out.old.items ++ saved (pin_view self.now)) }
        ensures unchanged { OnErr result (out.new.items ≡ out.old.items) }
    {
        out.try_reserve(18)?;
        out.push(VERSION)?;
        out.push(self.retries)?;
        if let Some(pin) = &self.pin {
            out.extend_from_slice(pin)?;
        }
        Ok(())
    }

    /// The PIN and the retries that were saved; there is no token, no key pair, and no wrong PIN in a row.
    ///
    /// Refused as [`PinLoadError::BadPin`] of what `save` gives of no key: another version, more than 8 retries, fewer without a PIN,
    /// or another size than 2 or 18.
    pub fn load(bytes: &[u8]) -> Result<ClientPin, PinLoadError>
        ensures loaded { IfOk result (λ p. (bytes.now ≡ saved (pin_view p)) × FitsPin (pin_view p).pin (pin_view p).retries
            × (pin_view p ≡ powered_up (pin_view p))) }
        // It is refused only where the bytes are of no such PIN.
        ensures bad { OnErr result ((s : PinState) → FitsPin s.pin s.retries → bytes.now ≡ saved s → ⊥) }
    {
        let [VERSION, retries, hash @ ..] = bytes else {
            return Err(PinLoadError::BadPin);
        };
        let retries = *retries;
        if hash.is_empty() && retries == 8 {
            return Ok(ClientPin::new());
        }
        if hash.len() != 16 || retries > 8 {
            return Err(PinLoadError::BadPin);
        }
        let mut pin = [0; 16];
        pin.copy_from_slice(hash);
        Ok(ClientPin {
            pin: Some(pin),
            retries,
            mismatches: 0,
            pair: None,
            token: None,
            counted: false,
        })
    }
}
