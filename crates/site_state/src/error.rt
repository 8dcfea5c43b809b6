//! Why no session begins.

ghost use Rattle.std.specs.Prelude.{◌≡◌};
ghost use Rattle.site_state.specs.Numbers.{refusal_number};
ghost use Rattle.site_state.specs.declared.error.BeginError.TheVariants as errors;

use std::alloc::AllocError;

/// Why no session begins; the first of these that applies.
#[derive(Clone, Copy, Debug, PartialEq, Eq, Drop, thiserror::Error)]
pub enum BeginError {
    /// 27: a user handle is not of 1 to 64 bytes, a credential id not of 1 byte to those of the profile, more than 8
    /// credentials are listed, or no algorithm is offered.
    #[error("what is asked is not within its limits")]
    BadInput,
    /// 21: the most sessions that may be open at a time are open, which are 1,024 where the site gives no other number.
    #[error("too many sessions are open")]
    SessionsFull,
    /// 22: the next session number is the last, 2^64 - 1.
    #[error("the session numbers are used up")]
    Exhausted,
    /// There was no memory; nothing has changed.
    #[error("out of memory")]
    Memory,
}

impl BeginError {
    /// The number of the refusal; none if memory runs out.
    pub fn number(&self) -> Option<u8>
        ensures { result ≡ refusal_number self.now }
    {
        match self {
            BeginError::BadInput => Some(27),
            BeginError::SessionsFull => Some(21),
            BeginError::Exhausted => Some(22),
            BeginError::Memory => None,
        }
    }
}

impl From<AllocError> for BeginError {
    ghost from_gives = { λ _ e. e ≡ errors.Memory };

    fn from(_e: AllocError) -> BeginError {
        BeginError::Memory
    }
}
