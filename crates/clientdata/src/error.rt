//! Why no client data were read.

ghost use Rattle.std.specs.Prelude.{◌≡◌};
ghost use Rattle.clientdata.specs.Refusals.{refusal_number};
ghost use Rattle.clientdata.specs.declared.error.Error.TheVariants as errors;

use std::alloc::AllocError;
use thiserror::Error;

/// Why no client data were read.
#[derive(Debug, Drop, Error)]
pub enum Error {
    /// Refusal 16, of [`read`](crate::read): the bytes are no UTF-8, or begin with a byte order
    /// mark, or are no JSON object whose `type`, `challenge` and `origin` are texts.
    #[error("the client data can't be read")]
    Unreadable,
    /// An allocation failed.
    #[error("out of memory")]
    Memory,
}

impl Error {
    /// The refusal's number; running out of memory has none.
    pub fn number(&self) -> Option<u8>
        ensures { result ≡ refusal_number self.now }
    {
        match self {
            Error::Unreadable => Some(16),
            Error::Memory => None,
        }
    }
}

impl From<AllocError> for Error {
    ghost from_gives = { λ _ e. e ≡ errors.Memory };

    fn from(_e: AllocError) -> Error {
        Error::Memory
    }
}
