//! Why a step does not go on.

ghost use Rattle.std.specs.Prelude.{◌≡◌};
ghost use Rattle.key_pin.specs.declared.end.End.TheVariants as ends;

use ctap_encoding::status::OTHER;
use pin_protocols::{Ask, Stop};
use std::alloc::AllocError;

/// Why a step does not go on.
#[derive(Debug, Drop)]
pub(crate) enum End {
    /// Memory was wanting.
    Memory,
    /// The host is asked for this.
    Asks(Ask),
    /// This status is the reply.
    Refused(u8),
}

impl From<AllocError> for End {
    ghost from_gives = { λ _ e. e ≡ ends.Memory };

    fn from(_e: AllocError) -> End {
        End::Memory
    }
}

impl From<Stop> for End {
    ghost use Rattle.key_pin.specs.Pieces.{of_stop};

    ghost from_gives = { λ s e. e ≡ of_stop s };

    fn from(stop: Stop) -> End {
        match stop {
            Stop::Memory => End::Memory,
            Stop::Asks(ask) => End::Asks(ask),
            _ => End::Refused(OTHER),
        }
    }
}
