//! What a command has of the user's verification (CTAP 2.1, sections 6.1 and 6.2).

ghost use Rattle.std.specs.Prelude.{◌<◌};

use ctap_open_requests::PinUvAuth;

/// What a command has of the user's verification, and how many messages are sent before it.
#[derive(Clone, Copy, Debug, Drop)]
pub(crate) struct Verified<'a> {
    pub auth: Option<PinUvAuth<'a>>,
    pub uv: Option<bool>,
    pub place: usize,
    ghost few: { place < 8 },
}
