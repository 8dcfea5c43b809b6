//! Why nothing is asked, or no response is made.

ghost use Rattle.std.specs.Prelude.{◌≡◌};
ghost use Rattle.client.specs.Numbers.{request_number, response_number};
ghost use Rattle.client.specs.declared.error.RequestError.TheVariants as requests;

use std::alloc::{AllocError, AllocFailed};
use thiserror::Error;

/// Why an authenticator is asked nothing: the first of the refusals that applies, or that memory ran out.
#[derive(Clone, Copy, Debug, PartialEq, Eq, Drop, Error)]
pub enum RequestError {
    /// Refusal 19: the text is no serialised origin of a URL of the scheme `https` whose host is a domain,
    /// or it has more than 1,024 bytes.
    #[error("the origin is not one that may ask")]
    BadOrigin,
    /// Refusal 20: the rp id is empty, or neither the origin's host nor what follows a dot of it.
    #[error("the rp id is not one of the origin")]
    RpIdNotOfOrigin,
    /// Refusal 1: no bytes are this request: a member of it is outside its limit.
    #[error("the request has no encoding")]
    Unfit,
    /// Refusal 4: the request has more than 7,609 bytes.
    #[error("the request is longer than 7609 bytes")]
    TooLong,
    /// An allocation failed.
    #[error("out of memory")]
    Memory,
}

impl RequestError {
    /// The refusal's number; running out of memory has none.
    pub fn number(&self) -> Option<u8>
        ensures { result ≡ request_number self.now }
    {
        match self {
            RequestError::BadOrigin => Some(19),
            RequestError::RpIdNotOfOrigin => Some(20),
            RequestError::Unfit => Some(1),
            RequestError::TooLong => Some(4),
            RequestError::Memory => None,
        }
    }
}

impl From<AllocError> for RequestError {
    ghost from_gives = { λ _ e. e ≡ requests.Memory };

    fn from(_e: AllocError) -> RequestError {
        RequestError::Memory
    }
}

impl<T: Drop> From<AllocFailed<T>> for RequestError {
    ghost from_gives = { λ _ e. e ≡ requests.Memory };

    fn from(_e: AllocFailed<T>) -> RequestError {
        RequestError::Memory
    }
}

/// Why a registration's response is not made.
#[derive(Clone, Copy, Debug, PartialEq, Eq, Drop, Error)]
pub enum ResponseError {
    /// Refusal 1: no bytes are this attestation object.
    #[error("the attestation object has no encoding")]
    Unfit,
    /// An allocation failed.
    #[error("out of memory")]
    Memory,
}

impl ResponseError {
    /// The refusal's number; running out of memory has none.
    pub fn number(&self) -> Option<u8>
        ensures { result ≡ response_number self.now }
    {
        match self {
            ResponseError::Unfit => Some(1),
            ResponseError::Memory => None,
        }
    }
}
