//! Why a request is not written.

ghost use Rattle.std.specs.Prelude.{◌≡◌};
ghost use Rattle.ctap_open_requests.specs.declared.error.RequestError.TheVariants as errors;

use std::alloc::AllocError;

/// Why a request is not written.
#[derive(Clone, Copy, Debug, PartialEq, Eq, Drop, thiserror::Error)]
pub enum RequestError {
    /// Memory was wanting.
    #[error("out of memory")]
    Memory,
    /// An option is asked for that the key did not offer.
    #[error("the key does not offer the option")]
    OptionNotOffered,
    /// A list has more ids than the key takes.
    #[error("the list is longer than the key takes")]
    ListTooLong,
    /// An id has more bytes than the key takes.
    #[error("an id is longer than the key takes")]
    IdTooLong,
    /// No bytes are this request.
    #[error("the request has no encoding")]
    Unfit,
    /// The request has more bytes than the key takes.
    #[error("the request is longer than the key takes")]
    MessageTooLong,
}

impl From<AllocError> for RequestError {
    ghost from_gives = { λ _ e. e ≡ errors.Memory };

    fn from(_e: AllocError) -> RequestError {
        RequestError::Memory
    }
}
