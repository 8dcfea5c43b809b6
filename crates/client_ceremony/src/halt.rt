//! Where a ceremony halts.

ghost use Rattle.std.specs.Prelude.{◌≡◌};
ghost use Rattle.client_ceremony.specs.Refusals.{stopped};

use crate::refusal::Refusal;
use crate::step::Step;
use ctap_open_requests::RequestError;
use pin_protocols::Stop;

/// Where a ceremony halts.
#[derive(Debug, Drop)]
pub(crate) enum Halt<'a> {
    /// At this step, after so many messages were sent.
    Steps(usize, Step<'a>),
    /// It ends.
    Refuses(Refusal),
}

/// The halt of a call that stops after so many messages.
pub(crate) fn stopped<'a>(sent: usize, stop: Stop) -> Halt<'a>
    ensures { result ≡ stopped sent stop }
{
    match stop {
        Stop::Memory => Halt::Refuses(Refusal::Memory),
        Stop::Asks(ask) => Halt::Steps(sent, Step::Asks(ask)),
        Stop::BadAnswer => Halt::Refuses(Refusal::BadAnswer),
        Stop::Pin(fault) => Halt::Refuses(Refusal::Pin(fault)),
        Stop::Unfit => Halt::Refuses(Refusal::Request(RequestError::Unfit)),
        Stop::BadToken => Halt::Refuses(Refusal::BadToken),
    }
}
