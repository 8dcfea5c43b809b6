//! Why bytes are not loaded.

ghost use Rattle.std.specs.Prelude.{◌≡◌};
ghost use Rattle.site.specs.declared.table_error.TableError.TheVariants as errors;

use ctap_encoding::Shape;
use std::alloc::AllocError;

/// Why bytes are not loaded.
#[derive(Clone, Copy, Debug, PartialEq, Eq, Drop, thiserror::Error)]
pub enum TableError {
    /// 23: the bytes are no saved table of this relying party.
    #[error("the bytes are no saved table of this relying party")]
    BadTable,
    /// There was no memory.
    #[error("out of memory")]
    Memory,
}

impl From<Shape> for TableError {
    ghost from_gives = { λ _ e. e ≡ errors.BadTable };

    fn from(_e: Shape) -> TableError {
        TableError::BadTable
    }
}

impl From<AllocError> for TableError {
    ghost from_gives = { λ _ e. e ≡ errors.Memory };

    fn from(_e: AllocError) -> TableError {
        TableError::Memory
    }
}
