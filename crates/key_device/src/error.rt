//! Why an act is refused.

ghost use Rattle.key_device.specs.declared.error.KeyError.TheVariants as errors;
ghost use Rattle.key_device.specs.declared.error.KeyLoadError.TheVariants as loads;
ghost use Rattle.std.specs.Prelude.{◌≡◌};

use authenticator::LoadError;
use key_pin::PinLoadError;
use security_key::ServeError;
use std::alloc::{AllocError, AllocFailed};

/// Why an act is refused.
#[derive(Clone, Copy, Debug, PartialEq, Eq, Drop, thiserror::Error)]
pub enum KeyError {
    /// No request waits for a decision.
    #[error("no request waits for a decision")]
    NotWorking,
    /// No request waits for words.
    #[error("no request waits for words")]
    NotComputing,
    /// Nothing is asked.
    #[error("nothing is asked")]
    NotAsking,
    /// No request waits for a signature.
    #[error("no request waits for a signature")]
    NotSigning,
    /// There was no memory.
    #[error("out of memory")]
    Memory,
}

impl From<AllocError> for KeyError {
    ghost from_gives = { λ _ e. e ≡ errors.Memory };

    fn from(_e: AllocError) -> KeyError {
        KeyError::Memory
    }
}

impl From<ServeError> for KeyError {
    ghost use Rattle.key_device.specs.Numbers.{told_as};

    ghost from_gives = { λ e f. f ≡ told_as e };

    fn from(error: ServeError) -> KeyError {
        match error {
            ServeError::NotWorking => KeyError::NotWorking,
            ServeError::Memory => KeyError::Memory,
        }
    }
}

/// Why bytes are not loaded.
#[derive(Clone, Copy, Debug, PartialEq, Eq, Drop, thiserror::Error)]
pub enum KeyLoadError {
    /// The bytes are no saved authenticator.
    #[error("the bytes are no saved authenticator")]
    BadAuthenticator,
    /// The bytes are no saved PIN.
    #[error("the bytes are no saved PIN")]
    BadPin,
    /// The key takes no PIN.
    #[error("the key takes no PIN")]
    NoPin,
    /// There was no memory.
    #[error("out of memory")]
    Memory,
}

impl From<LoadError> for KeyLoadError {
    ghost use Rattle.key_device.specs.Numbers.{told_of_load};

    ghost from_gives = { λ e f. f ≡ told_of_load e };

    fn from(error: LoadError) -> KeyLoadError {
        match error {
            LoadError::BadAuthenticator => KeyLoadError::BadAuthenticator,
            LoadError::Memory => KeyLoadError::Memory,
        }
    }
}

impl From<PinLoadError> for KeyLoadError {
    ghost from_gives = { λ _ f. f ≡ loads.BadPin };

    fn from(error: PinLoadError) -> KeyLoadError {
        match error {
            PinLoadError::BadPin => KeyLoadError::BadPin,
        }
    }
}
