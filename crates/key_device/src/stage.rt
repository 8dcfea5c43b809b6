//! What the request that the device works on waits for.

use crate::command::PinCommand;
use hidlink::DeviceEvent;
use key_pin::PinWords;
use pin_protocols::{Answers, Ask};
use std::mem;

/// A makeCredential or getAssertion with a pinUvAuthParam (CTAP 2.1, sections 6.1 and 6.2), as it was read.
#[derive(Drop)]
pub(crate) struct ProtectedAsked {
    /// The permission that a token must have for it.
    pub permission: u64,
    /// The relying party id.
    pub rp_id: String,
    /// The hash of the client data.
    pub client_data_hash: Vec<u8>,
    /// The member `pinUvAuthProtocol`.
    pub protocol: Option<u64>,
    /// The member `pinUvAuthParam`.
    pub param: Vec<u8>,
    /// Whether it asks for the user's presence.
    pub presence: bool,
    /// Its bytes without these two members, with option `uv` true.
    pub bytes: Vec<u8>,
}

/// A request in which the PIN has a part, as it was read.
#[derive(Drop)]
pub(crate) enum PinRequest {
    /// Of authenticatorClientPIN.
    Command(PinCommand),
    /// With a pinUvAuthParam.
    Protected(ProtectedAsked),
}

/// A request that a token granted.
#[derive(Drop)]
pub(crate) struct GrantedRequest {
    /// What the authenticator is handed: its bytes without its members of the PIN, with option `uv` true.
    pub bytes: Vec<u8>,
    /// Whether it asks for the user's presence.
    pub presence: bool,
}

/// A computation under way: the host's words, its answers, and what it is asked.
#[derive(Drop)]
pub(crate) struct Computation {
    pub words: PinWords,
    pub answers: Answers,
    pub ask: Ask,
}

/// What the request that the device works on waits for.
#[derive(Drop)]
pub(crate) enum Stage {
    /// Nothing: the device works on none.
    Nothing,
    /// To be read: there was no memory for it so far, or another PIN was loaded since.
    Unread,
    /// The host's words.
    Words(PinRequest),
    /// The host's answer.
    Answer(PinRequest, Computation),
    /// The user's decision on it as it is.
    User,
    /// The user's touch: its pinUvAuthParam is empty (CTAP 2.1, section 6.1.2, step 1).
    Touch,
    /// The user's decision, and a token granted it.
    Granted(GrantedRequest),
}

impl Stage {
    ghost use Rattle.std.specs.Prelude.{◌≡◌};
    ghost use Rattle.key_device.specs.declared.stage.Stage.TheVariants as stages;

    /// This, and nothing stays.
    pub(crate) fn take(&mut self) -> Stage
        ensures taken { result ≡ self.old }
        ensures left { self.new ≡ stages.Nothing }
    {
        mem::replace(self, Stage::Nothing)
    }
}

/// What an act comes to, beside packets.
#[derive(Clone, Copy, Debug, PartialEq, Eq, Drop)]
pub enum Told {
    /// It is done, and the device told this; `Request`: the request waits for the user.
    Event(DeviceEvent),
    /// The request on this channel waits for the host's words.
    Computes {
        /// The channel.
        cid: u32,
    },
    /// The host is asked for what `KeyDevice::ask` gives.
    Asks,
    /// The request waits for the signature of what `KeyDevice::pending` gives.
    Signs,
}
