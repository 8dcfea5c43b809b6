//! One session.

ghost use Rattle.std.specs.Prelude.{◌≡◌};
ghost use Rattle.site_state.specs.Sessions.{usual};

use verification::{RegistrationSession, SignInSession};

/// How a registration is begun, beside what it offers. Level 3 alone looks at it.
#[derive(Clone, Copy, Debug, PartialEq, Eq, Drop)]
pub struct Asks {
    /// As a conditional create (WebAuthn Level 3, section 5.1.3): no user presence is required.
    pub conditional: bool,
    /// An attestation is asked for (section 5.4.7); where none is, the statement counts as none.
    pub attestation: bool,
}

impl Asks {
    /// Not conditional, and an attestation is asked for, as Level 2 has it.
    pub fn usual() -> Asks
        ensures { result ≡ usual }
    {
        Asks {
            conditional: false,
            attestation: true,
        }
    }
}

/// What an open session expects.
#[derive(Debug, Drop)]
pub enum Session {
    /// A sign-in.
    SignIn(SignInSession),
    /// A registration.
    Registration(RegistrationSession),
}
