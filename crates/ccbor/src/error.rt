//! Why nothing was decoded or encoded.

ghost use Rattle.std.specs.Prelude.{◌≡◌};
ghost use Rattle.ccbor.specs.Refusals.{refusal_number};
ghost use Rattle.ccbor.specs.declared.error.Error.TheVariants as errors;

use std::alloc::{AllocError, AllocFailed};

/// Why nothing was decoded or encoded.
#[derive(Debug, Drop, thiserror::Error)]
pub enum Error {
    /// Refusal 1, of [`encode`](crate::encode): the value has no canonical encoding, since arrays
    /// and maps lie deeper than [`MAX_DEPTH`](crate::MAX_DEPTH), or since a map's keys are of
    /// another kind than numbers and texts, or not in order, or repeated.
    #[error("the value has no canonical encoding")]
    Unfit,
    /// Refusal 2, of [`decode`](crate::decode) and [`decode_all`](crate::decode_all): no front of
    /// the input is a canonical encoding.
    #[error("the input begins with no canonical encoding")]
    NotCanonical,
    /// Refusal 3, of [`decode_all`](crate::decode_all): a front of the input is a canonical
    /// encoding, and bytes follow it.
    #[error("bytes follow the canonical encoding")]
    Trailing,
    /// An allocation failed.
    #[error("out of memory")]
    Memory,
}

impl Error {
    /// The refusal's number; running out of memory has none.
    pub fn number(&self) -> Option<u8>
        ensures { result ≡ refusal_number self.now }
    {
        match self {
            Error::Unfit => Some(1),
            Error::NotCanonical => Some(2),
            Error::Trailing => Some(3),
            Error::Memory => None,
        }
    }
}

impl From<AllocError> for Error {
    ghost from_gives = { λ _ e. e ≡ errors.Memory };

    fn from(_e: AllocError) -> Error {
        Error::Memory
    }
}

impl<T: Drop> From<AllocFailed<T>> for Error {
    ghost from_gives = { λ _ e. e ≡ errors.Memory };

    fn from(_e: AllocFailed<T>) -> Error {
        Error::Memory
    }
}
