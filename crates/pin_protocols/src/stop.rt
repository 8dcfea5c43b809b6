//! Why a call stops.

ghost use Rattle.std.specs.Prelude.{◌≡◌};
ghost use Rattle.pin_protocols.specs.declared.stop.Stop.TheVariants as stops;

use crate::ask::Ask;
use crate::pin::PinFault;
use std::alloc::AllocError;

/// Why a call stops.
#[derive(Debug, Drop, thiserror::Error)]
pub enum Stop {
    /// Memory was wanting.
    #[error("out of memory")]
    Memory,
    /// The host is asked for this: the call is to be made again with its answer.
    #[error("the host is asked to compute")]
    Asks(Ask),
    /// An answer of the host has another size than it was asked for.
    #[error("the host's answer has another size")]
    BadAnswer,
    /// The PIN can't be set.
    #[error("the PIN can't be set")]
    Pin(PinFault),
    /// The rp id has no byte, or more than 253; or a coordinate of the key's has not 32.
    #[error("the message has no encoding")]
    Unfit,
    /// The key's encrypted token has another size.
    #[error("the token has another size")]
    BadToken,
}

impl From<AllocError> for Stop {
    ghost from_gives = { λ _ e. e ≡ stops.Memory };

    fn from(_e: AllocError) -> Stop {
        Stop::Memory
    }
}
