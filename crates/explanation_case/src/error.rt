//! Why a case is not judged.

ghost use Rattle.std.specs.Prelude.{◌≡◌};
ghost use Rattle.explanation_case.specs.declared.error.CaseError.TheVariants as errors;

use json_lines::LineError;
use std::alloc::{AllocError, AllocFailed};

/// Why a case is not judged.
#[derive(Clone, Copy, Debug, Drop, thiserror::Error)]
pub enum CaseError {
    /// The bytes are not UTF-8.
    #[error("the case is not UTF-8")]
    NotUtf8,
    /// Its objects and arrays nest deeper than `json_lines::MAX_NESTING`.
    #[error("the case nests too deep")]
    TooDeep,
    /// The text is not JSON.
    #[error("the case is not JSON")]
    NotJson,
    /// It has no response of either kind.
    #[error("this is no response of a registration or a sign-in: its member response has neither attestationObject nor signature")]
    NoResponse,
    /// An object has a member that is not known.
    #[error("{0} has a member that is not known")]
    UnknownMember(&'static str),
    /// A member that is needed is missing.
    #[error("{0} is missing")]
    Missing(&'static str),
    /// A member is of another kind or size, or its bytes are not in base64url without padding.
    #[error("{0} is not in its form")]
    BadForm(&'static str),
    /// The response's `id` is not its `rawId`.
    #[error("id is not rawId")]
    OtherId,
    /// There was no memory.
    #[error("out of memory")]
    Memory,
}

impl From<AllocError> for CaseError {
    ghost from_gives = { λ _ e. e ≡ errors.Memory };

    fn from(_e: AllocError) -> CaseError {
        CaseError::Memory
    }
}

impl<T: Drop> From<AllocFailed<T>> for CaseError {
    ghost from_gives = { λ _ e. e ≡ errors.Memory };

    fn from(_e: AllocFailed<T>) -> CaseError {
        CaseError::Memory
    }
}

impl From<LineError> for CaseError {
    fn from(e: LineError) -> CaseError {
        match e {
            LineError::Missing(name) => CaseError::Missing(name),
            LineError::BadForm(name) => CaseError::BadForm(name),
            LineError::Memory => CaseError::Memory,
            LineError::NotUtf8 => CaseError::NotUtf8,
            LineError::TooDeep => CaseError::TooDeep,
            LineError::TooLong
            | LineError::NotAnObject
            | LineError::BadId
            | LineError::UnknownAct
            | LineError::UnknownMember => CaseError::NotJson,
        }
    }
}
