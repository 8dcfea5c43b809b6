//! Why a session is not sealed.

ghost use Rattle.std.specs.Prelude.{◌≡◌};
ghost use Rattle.site_seal.specs.declared.error.SealError.TheVariants as errors;

use std::alloc::AllocError;

/// Why a session is not sealed.
#[derive(Clone, Copy, Debug, PartialEq, Eq, Drop, thiserror::Error)]
pub enum SealError {
    /// A user handle is not of 1 to 64 bytes, an id not of 1 to 1,023, more than 64 ids are listed, or the algorithms are
    /// not some of ES256, EdDSA and RS256 in this order.
    #[error("the session is not within the limits of a sealed text")]
    BadInput,
    /// There was no memory.
    #[error("out of memory")]
    Memory,
}

impl From<AllocError> for SealError {
    ghost from_gives = { λ _ e. e ≡ errors.Memory };

    fn from(_e: AllocError) -> SealError {
        SealError::Memory
    }
}
