//! The record that is serialised.

ghost use Rattle.std.specs.Prelude.{◌≡◌};

/// The ceremony that client data were collected for (WebAuthn Level 2, section 5.8.1, `type`).
#[derive(Clone, Copy, Debug, PartialEq, Eq)]
pub enum CeremonyType {
    /// Registration, `webauthn.create`.
    Create,
    /// Sign-in, `webauthn.get`.
    Get,
}

impl CeremonyType {
    ghost use Rattle.clientdata.specs.Serialised.{type_of};

    /// The text of the member `type`.
    pub fn text(self) -> &'static str
        ensures { result.now ≡ type_of self }
    {
        match self {
            CeremonyType::Create => "webauthn.create",
            CeremonyType::Get => "webauthn.get",
        }
    }
}

/// The client data of one ceremony (`CollectedClientData` of WebAuthn Level 2, section 5.8.1,
/// without token binding). Nothing is asked of the lengths.
#[derive(Debug, Drop)]
pub struct ClientData {
    /// The ceremony.
    pub kind: CeremonyType,
    /// The challenge's bytes; the text has them in base64url without padding.
    pub challenge: Vec<u8>,
    /// The origin of the caller, as it is serialised.
    pub origin: String,
    /// Whether the caller's origin isn't that of each document above it.
    pub cross_origin: bool,
}
