//! What an act is answered.

ghost use Rattle.std.specs.Prelude.{◌≡◌, []};

use crate::refused::Refused;
use crate::shallow::{ShallowMembers, ShallowValue};
use hidframe::Packet;
use std::alloc::Global;

/// What an act is answered.
#[derive(Debug, Drop)]
pub(crate) enum Answer {
    /// A packet of the key is to be read.
    Waits,
    /// The same, and the key is at work.
    Works,
    /// The same, and the user is to touch the key.
    Touch,
    /// The user's PIN is wanted: how many attempts are left, where it is known, and whether a PIN was just refused.
    NeedsPin { retries: Option<u64>, wrong: bool },
    /// The host is to compute what the act waits for.
    Asks,
    /// The user is to choose one of these credentials.
    Chooses(ShallowValue),
    /// A credential is registered, by this response.
    Registered(ShallowValue),
    /// The user signs in, by this response.
    SignedIn(ShallowValue),
    /// What the key tells of itself.
    Informs(ShallowMembers),
    /// The PIN is set, or changed.
    PinIsSet,
    /// The act is over without having done what it was to do.
    Refused(Refused),
}

impl Answer {
    /// Whether the act is over by it.
    pub(crate) fn is_over(&self) -> bool {
        match self {
            Answer::Waits | Answer::Works | Answer::Touch => false,
            Answer::NeedsPin { .. } | Answer::Asks | Answer::Chooses(_) => false,
            Answer::Registered(_) | Answer::SignedIn(_) | Answer::Informs(_) => true,
            Answer::PinIsSet | Answer::Refused(_) => true,
        }
    }
}

/// An answer, and the packets that are to be sent to the key.
#[derive(Debug, Drop)]
pub(crate) struct Told {
    pub send: Vec<Packet>,
    pub answer: Answer,
}

impl Told {
    /// An answer by which nothing is sent.
    pub(crate) fn quiet(alloc: Global, answer: Answer) -> Told
        ensures { (result.send.items ≡ []) × (result.answer ≡ answer) }
    {
        Told {
            send: Vec::new(alloc),
            answer,
        }
    }
}
