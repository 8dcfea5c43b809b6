//! Why a line is refused.

ghost use Rattle.std.specs.Prelude.{◌≡◌};
ghost use Rattle.json_lines.specs.declared.error.LineError.TheVariants as errors;

use std::alloc::{AllocError, AllocFailed};

/// Why a line is refused. Nothing has changed.
#[derive(Clone, Copy, Debug, Drop, thiserror::Error)]
pub enum LineError {
    /// The line has more than [`MAX_LINE`](crate::MAX_LINE) bytes.
    #[error("the line is too long")]
    TooLong,
    /// The line is not UTF-8.
    #[error("the line is not UTF-8")]
    NotUtf8,
    /// The line's objects and arrays nest deeper than [`MAX_NESTING`](crate::MAX_NESTING).
    #[error("the line nests too deep")]
    TooDeep,
    /// The line is no JSON object.
    #[error("the line is no JSON object")]
    NotAnObject,
    /// The member `id` is not a number from 0 to 2^64 - 1.
    #[error("id is no number")]
    BadId,
    /// The member `act` names no act.
    #[error("there is no such act")]
    UnknownAct,
    /// The act takes no member of a name that the line has.
    #[error("the act has no such member")]
    UnknownMember,
    /// A member that is needed is missing.
    #[error("{0} is missing")]
    Missing(&'static str),
    /// A member is of another kind or size, or its bytes are not in base64url without padding.
    #[error("{0} is not in its form")]
    BadForm(&'static str),
    /// There was no memory.
    #[error("out of memory")]
    Memory,
}

impl From<AllocError> for LineError {
    ghost from_gives = { λ _ e. e ≡ errors.Memory };

    fn from(_e: AllocError) -> LineError {
        LineError::Memory
    }
}

impl<T: Drop> From<AllocFailed<T>> for LineError {
    ghost from_gives = { λ _ e. e ≡ errors.Memory };

    fn from(_e: AllocFailed<T>) -> LineError {
        LineError::Memory
    }
}

/// Why a line is refused, and its number.
#[derive(Clone, Copy, Debug, Drop)]
pub struct LineFault {
    /// The line's number; nothing where it has none.
    pub id: Option<u64>,
    /// The cause.
    pub error: LineError,
}
