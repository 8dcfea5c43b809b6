//! What outlives a power cycle.

ghost use Rattle.std.specs.Prelude.{◌≡◌, ◌++◌, IsErrOf, None, OnErr, OnOk};
ghost use Rattle.authenticator.specs.Laws.{SoundState};
ghost use Rattle.authenticator.specs.Saved.{AppendsSaved, SavedOf};
ghost use Rattle.authenticator.specs.State.{AuthenticatorState};
ghost use Rattle.key_pin.specs.Saved.{FitsPin, saved};
ghost use Rattle.key_pin.specs.State.{PinState};
ghost use Rattle.key_device.specs.Key.{IsLoaded, IsPinLoaded, saved_pin, unread};
ghost use Rattle.key_device.specs.declared.error.KeyLoadError.TheVariants as loads;

use crate::error::KeyLoadError;
use crate::key::KeyDevice;
use crate::stage::Stage;
use authenticator::Authenticator;
use hidlink::Device;
use key_pin::ClientPin;
use std::alloc::{AllocError, Global};

/// A request that the device works on is to be read anew.
fn put_aside(device: &Device, stage: &mut Stage)
    ensures { stage.new ≡ unread device.now.state stage.old }
{
    if device.working().is_some() {
        *stage = Stage::Unread;
    }
}

impl KeyDevice {
    /// Appends the authenticator's saved bytes, in which its secrets stand as they are.
    pub fn save(&self, out: &mut Vec<u8>) -> Result<(), AllocError>
        ensures saved { OnOk result (AppendsSaved self.now.authenticator out.old.items out.new.items) }
        ensures unchanged { OnErr result (out.new.items ≡ out.old.items) }
    {
        self.authenticator.save(out)
    }

    /// Appends the saved bytes of the PIN: its hash, and the retries; nothing where it takes none.
    pub fn save_pin(&self, out: &mut Vec<u8>) -> Result<(), AllocError>
        ensures saved { OnOk result (out.new.items ≡ out.old.items ++ saved_pin self.now.pin) }
        ensures unchanged { OnErr result (out.new.items ≡ out.old.items) }
    {
        match &self.pin {
            Some(pin) => pin.save(out),
            None => Ok(()),
        }
    }

    /// Takes the authenticator that was saved in place of its own. A request that waits for its signature is to be decided anew.
    pub fn load(&mut self, alloc: Global, bytes: &[u8]) -> Result<(), KeyLoadError>
        ensures loaded { OnOk result (IsLoaded self.old bytes.now self.new) }
        ensures sound { OnOk result (SoundState self.new.authenticator) }
        // It is refused only where the bytes are no authenticator's, or if memory runs out,
        ensures bad { IsErrOf result loads.BadAuthenticator → (a : AuthenticatorState) → SoundState a → SavedOf a bytes.now → ⊥ }
        ensures no_pin { IsErrOf result loads.BadPin → ⊥ }
        ensures takes { IsErrOf result loads.NoPin → ⊥ }
        // and then nothing has changed.
        ensures unchanged { OnErr result (self.new ≡ self.old) }
    {
        self.authenticator = Authenticator::load(alloc, bytes)?;
        self.pending = None;
        Ok(())
    }

    /// Takes the PIN that was saved in place of its own. A request that waits is to be read anew.
    pub fn load_pin(&mut self, bytes: &[u8]) -> Result<(), KeyLoadError>
        ensures loaded { OnOk result (IsPinLoaded self.old bytes.now self.new) }
        // It is refused only where the key takes no PIN, or the bytes are of none,
        ensures none { IsErrOf result loads.NoPin → self.old.pin ≡ None }
        ensures bad { IsErrOf result loads.BadPin → (s : PinState) → FitsPin s.pin s.retries → bytes.now ≡ saved s → ⊥ }
        ensures authenticator { IsErrOf result loads.BadAuthenticator → ⊥ }
        ensures memory { IsErrOf result loads.Memory → ⊥ }
        // and then nothing has changed.
        ensures unchanged { OnErr result (self.new ≡ self.old) }
    {
        if self.pin.is_none() {
            return Err(KeyLoadError::NoPin);
        }
        self.pin = Some(ClientPin::load(bytes)?);
        self.pending = None;
        put_aside(&self.device, &mut self.stage);
        Ok(())
    }
}
