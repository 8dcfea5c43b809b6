//! Why a value is not read.

ghost use Rattle.std.specs.Prelude.{◌≡◌};
ghost use Rattle.ctap_encoding.specs.declared.map_error.MapError.TheVariants as errors;

use std::alloc::{AllocError, AllocFailed};

/// Why a value is not read.
#[derive(Clone, Copy, Debug, PartialEq, Eq, Drop, thiserror::Error)]
pub enum MapError {
    /// Memory was wanting.
    #[error("out of memory")]
    Memory,
    /// The value is not of this table.
    #[error("the value has another shape")]
    Shape,
}

/// The value is not of this table: the refusal of what takes no memory.
#[derive(Clone, Copy, Debug, PartialEq, Eq, Drop, thiserror::Error)]
#[error("the value has another shape")]
pub struct Shape;

impl From<Shape> for MapError {
    ghost from_gives = { λ _ e. e ≡ errors.Shape };

    fn from(_e: Shape) -> MapError {
        MapError::Shape
    }
}

impl From<AllocError> for MapError {
    ghost from_gives = { λ _ e. e ≡ errors.Memory };

    fn from(_e: AllocError) -> MapError {
        MapError::Memory
    }
}

impl<T: Drop> From<AllocFailed<T>> for MapError {
    ghost from_gives = { λ _ e. e ≡ errors.Memory };

    fn from(_e: AllocFailed<T>) -> MapError {
        MapError::Memory
    }
}
