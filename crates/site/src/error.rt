//! Why no site is made.

ghost use Rattle.std.specs.Prelude.{◌≡◌};
ghost use Rattle.site.specs.Numbers.{refusal_number};
ghost use Rattle.site.specs.declared.error.Error.TheVariants as errors;

use std::alloc::AllocError;

/// Why no site is made; the first of these that applies.
#[derive(Clone, Copy, Debug, PartialEq, Eq, Drop, thiserror::Error)]
pub enum Error {
    /// 27: the rp id is not of 1 to 253 bytes, or there is no origin.
    #[error("the rp id or the origins are outside their limits")]
    BadInput,
    /// 23: the credentials, or the saved table, are not a table that a site can have.
    #[error("the table of credentials is not one that a site can have")]
    BadTable,
    /// There was no memory.
    #[error("out of memory")]
    Memory,
}

impl Error {
    /// The number of the refusal; none if memory runs out.
    pub fn number(&self) -> Option<u8>
        ensures { result ≡ refusal_number self.now }
    {
        match self {
            Error::BadInput => Some(27),
            Error::BadTable => Some(23),
            Error::Memory => None,
        }
    }
}

impl From<AllocError> for Error {
    ghost from_gives = { λ _ e. e ≡ errors.Memory };

    fn from(_e: AllocError) -> Error {
        Error::Memory
    }
}
