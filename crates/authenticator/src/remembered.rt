//! A getAssertion with credentials still to come (CTAP 2.1, section 6.3).

ghost use Rattle.std.specs.Prelude.{◌≡◌, option_map, reverse};
ghost use Rattle.authenticator.specs.Steps.{remembering};
ghost use Rattle.authenticator.specs.Views.{asked_view, remembered_view};

use crate::consent::Consent;

/// What a getAssertion asked, which a getNextAssertion answers again.
#[derive(Drop)]
pub(crate) struct AskedAssertion {
    /// The channel on which it came.
    pub channel: u32,
    /// The hash of the client data.
    pub client_data_hash: Vec<u8>,
    /// Whether UP is to be set.
    pub up: bool,
    /// Whether UV is to be set.
    pub uv: bool,
    /// The consent that was given to it.
    pub consent: Consent,
}

/// The ids of credentials that may answer: the first, and the later ones, of which the last comes first.
#[derive(Drop)]
pub(crate) struct Candidates {
    pub first: [u8; 32],
    pub later: Vec<[u8; 32]>,
}

/// A getAssertion that was answered, and who is still to answer it.
#[derive(Drop)]
pub(crate) struct RememberedAssertion {
    pub asked: AskedAssertion,
    pub candidates: Candidates,
}

/// What is to be remembered once the first has answered.
pub(crate) fn remember(
    asked: AskedAssertion,
    mut later: Vec<[u8; 32]>,
) -> Option<RememberedAssertion>
    ensures { option_map remembered_view result ≡ remembering (asked_view asked) (reverse later.items) }
{
    let first = later.pop()?;
    Some(RememberedAssertion {
        asked,
        candidates: Candidates { first, later },
    })
}
