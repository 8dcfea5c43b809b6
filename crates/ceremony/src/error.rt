//! Why a ceremony is refused.

ghost use Rattle.std.specs.Prelude.{◌≡◌};
ghost use Rattle.ceremony.specs.Numbers.{refusal_number};
ghost use Rattle.ceremony.specs.declared.error.Error.TheVariants as errors;

use hidlink::DeadKind;
use std::alloc::AllocError;
use std::fmt::Display;
use thiserror::Error as ErrorType;

/// The layer that refuses a ceremony, and why: the packets, the reply that they carry, or a step of the site's,
/// which is a `W`: [`SignInRefusal`](site::SignInRefusal) or [`RegistrationRefusal`](site::RegistrationRefusal).
#[derive(Clone, Copy, Debug, PartialEq, Eq, Drop, ErrorType)]
#[error_bound(W: Display)]
pub enum Error<W> {
    /// 24: the packets carry no message yet.
    #[error("the packets carry no message yet")]
    Incomplete,
    /// 25: the packet at `index`, counted from 0, is one after which no message can come.
    #[error("packet {index} breaks the message: {kind:?}")]
    Dead { index: u64, kind: DeadKind },
    /// 26: the device sent this error.
    #[error("the device sent error {0:02x}")]
    DeviceError(u8),
    /// The message is no reply to the command: `Empty` (17), `Refused` by its status (18), `NotCanonical` (2) or of
    /// another `Shape` (13).
    #[error("{0}")]
    Reply(ctap_encoding::Error),
    /// The site refuses the response at this step.
    #[error("refused: {0}")]
    Refused(W),
    /// There was no memory; nothing has changed.
    #[error("out of memory")]
    Memory,
}

impl<W> Error<W> {
    /// The number of the refusal; none for a step of the site's, which has its own, and if memory runs out.
    pub fn number(&self) -> Option<u8>
        ensures { result ≡ refusal_number self.now }
    {
        match self {
            Error::Incomplete => Some(24),
            Error::Dead { index: _, kind: _ } => Some(25),
            Error::DeviceError(_) => Some(26),
            Error::Reply(error) => error.number(),
            Error::Refused(_) | Error::Memory => None,
        }
    }
}

impl<W> From<AllocError> for Error<W> {
    ghost from_gives = { λ _ e. e ≡ errors.Memory };

    fn from(_e: AllocError) -> Error<W> {
        Error::Memory
    }
}
