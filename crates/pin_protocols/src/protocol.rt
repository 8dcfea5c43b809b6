//! The protocols.

ghost use Rattle.std.specs.Prelude.{◌≡◌};
ghost use Rattle.pin_protocols.specs.Protocols.{number, protocol_of};

/// A PIN/UV auth protocol (CTAP 2.1, section 6.5.4).
#[derive(Clone, Copy, Debug, PartialEq, Eq, Drop)]
pub enum Protocol {
    /// Protocol one (6.5.6).
    One,
    /// Protocol two (6.5.7).
    Two,
}

impl Protocol {
    /// The number that messages name it by: 1 or 2.
    pub fn number(self) -> u64
        ensures { result ≡ number self }
    {
        match self {
            Protocol::One => 1,
            Protocol::Two => 2,
        }
    }

    /// The protocol of a number, as a key tells them in getInfo.
    pub fn of(number: u64) -> Option<Protocol>
        ensures { result ≡ protocol_of number }
    {
        match number {
            1 => Some(Protocol::One),
            2 => Some(Protocol::Two),
            _ => None,
        }
    }
}
