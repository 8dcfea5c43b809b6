//! Why a row is not read.

ghost use Rattle.std.specs.Prelude.{◌≡◌};
ghost use Rattle.site_rows.specs.declared.error.RowError.TheVariants as errors;

use std::alloc::AllocError;

/// Why a row is not read.
#[derive(Clone, Copy, Debug, PartialEq, Eq, Drop, thiserror::Error)]
pub enum RowError {
    /// The row is no credential's, or not of this place.
    #[error("the row is not one that a site has written")]
    BadRow,
    /// There was no memory.
    #[error("out of memory")]
    Memory,
}

impl From<AllocError> for RowError {
    ghost from_gives = { λ _ e. e ≡ errors.Memory };

    fn from(_e: AllocError) -> RowError {
        RowError::Memory
    }
}
