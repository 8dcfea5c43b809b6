//! Why bytes are not loaded.

ghost use Rattle.std.specs.Prelude.{◌≡◌, None, Some};
ghost use Rattle.authenticator.specs.Numbers.{refusal_number};
ghost use Rattle.authenticator.specs.declared.error.LoadError.TheVariants as errors;

use std::alloc::AllocError;

/// Why bytes are not loaded.
#[derive(Clone, Copy, Debug, PartialEq, Eq, Drop, thiserror::Error)]
pub enum LoadError {
    /// 30: the bytes are no saved authenticator.
    #[error("the bytes are no saved authenticator")]
    BadAuthenticator,
    /// There was no memory.
    #[error("out of memory")]
    Memory,
}

impl LoadError {
    /// The number of the refusal; none if memory runs out.
    pub fn number(&self) -> Option<u8>
        ensures { result ≡ refusal_number self.now }
    {
        match self {
            LoadError::BadAuthenticator => Some(30),
            LoadError::Memory => None,
        }
    }
}

impl From<AllocError> for LoadError {
    ghost from_gives = { λ _ e. e ≡ errors.Memory };

    fn from(_e: AllocError) -> LoadError {
        LoadError::Memory
    }
}
