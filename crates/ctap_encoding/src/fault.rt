//! The faults of a value against a table.

ghost use Rattle.std.specs.Prelude.{◌≡◌, ◌==◌};
ghost use Rattle.ctap_encoding.specs.Table.{place};

/// A fault of a value against a table, the gravest first.
#[derive(Clone, Copy, Debug, PartialEq, Eq, Drop)]
pub enum Fault {
    /// It isn't of the kind that is listed.
    AnotherKind,
    /// A map has a key that isn't listed.
    UnlistedKey,
    /// A required member is missing.
    MissingMember,
    /// A size is one that is invalid.
    InvalidSize,
    /// A size is beyond a limit.
    OverLimit,
}

impl Fault {
    fn place(self) -> u8
        ensures { result ≡ place self }
    {
        match self {
            Fault::AnotherKind => 0,
            Fault::UnlistedKey => 1,
            Fault::MissingMember => 2,
            Fault::InvalidSize => 3,
            Fault::OverLimit => 4,
        }
    }

    /// Whether both are one fault.
    pub fn is(self, other: Fault) -> bool
        ensures { result ≡ (place self == place other) }
    {
        self.place() == other.place()
    }
}
