//! Why a message is not read or not written.

ghost use Rattle.std.specs.Prelude.{◌≡◌};
ghost use Rattle.ctap_encoding.specs.Numbers.{refusal_number};
ghost use Rattle.ctap_encoding.specs.declared.error.Error.TheVariants as errors;

use crate::map_error::MapError;
use std::alloc::AllocError;

/// Why a message is not read or not written.
#[derive(Clone, Copy, Debug, PartialEq, Eq, Drop, thiserror::Error)]
pub enum Error {
    /// Memory was wanting.
    #[error("out of memory")]
    Memory,
    /// Refusal 1, of writing: no bytes are this message.
    #[error("the message has no encoding")]
    Unfit,
    /// Refusal 2, of reading a reply: no whole canonical CBOR value follows the
    /// status.
    #[error("the reply is not canonical CBOR")]
    NotCanonical,
    /// Refusal 13, of reading a reply: the value is not that of such a reply.
    #[error("the reply has another shape")]
    Shape,
    /// Refusal 17, of reading a reply: there is no byte.
    #[error("the reply is empty")]
    Empty,
    /// Refusal 18, of reading a reply: the status byte, which is not 0.
    #[error("the authenticator refused by status {0}")]
    Refused(u8),
    /// Of reading a request: the status byte that answers the request.
    #[error("the request is refused by status {0}")]
    Status(u8),
}

impl Error {
    /// The refusal's number; running out of memory and a request's status have none.
    pub fn number(&self) -> Option<u8>
        ensures { result ≡ refusal_number self.now }
    {
        match self {
            Error::Memory | Error::Status(_) => None,
            Error::Unfit => Some(1),
            Error::NotCanonical => Some(2),
            Error::Shape => Some(13),
            Error::Empty => Some(17),
            Error::Refused(_) => Some(18),
        }
    }
}

impl From<AllocError> for Error {
    ghost from_gives = { λ _ e. e ≡ errors.Memory };

    fn from(_e: AllocError) -> Error {
        Error::Memory
    }
}

impl From<MapError> for Error {
    ghost use Rattle.ctap_encoding.specs.Numbers.{of_map};

    ghost from_gives = { λ e f. f ≡ of_map e };

    fn from(e: MapError) -> Error {
        match e {
            MapError::Memory => Error::Memory,
            MapError::Shape => Error::Shape,
        }
    }
}
