//! What an authenticator keeps for its PIN.

ghost use Rattle.std.specs.Prelude.{◌≡◌, ◌↔◌, IsSome, IsTrue, Some};
ghost use Rattle.key_pin.specs.State.{counted, new_pin_state, over, pair_of, pair_or, pin_view, powered_up, spent, with_pair, without_token};

use crate::words::PinWords;
use pin_protocols::Protocol;

/// A key pair of the key agreement (CTAP 2.1, section 6.5.6).
#[derive(Clone, Copy, Debug, Drop)]
pub(crate) struct KeyPair {
    pub key: [u8; 32],
    pub x: [u8; 32],
    pub y: [u8; 32],
}

/// A pinUvAuthToken in use (CTAP 2.1, section 6.5.2.1).
#[derive(Debug, Drop)]
pub(crate) struct Token {
    pub protocol: Protocol,
    pub bytes: [u8; 32],
    pub permissions: u64,
    pub rp_id: Option<String>,
}

/// The key pair, which is the words' where there is none yet.
fn pair_or(pair: &Option<KeyPair>, words: &PinWords) -> KeyPair
    ensures { result ≡ pair_or words.now pair.now }
{
    match pair {
        Some(pair) => *pair,
        None => KeyPair {
            key: words.secret,
            x: words.x,
            y: words.y,
        },
    }
}

/// An authenticator's PIN (CTAP 2.1, section 6.5): its hash, the retries that are left, the key agreement's key pair, and the
/// token in use. It begins without a PIN.
#[derive(Debug, Drop)]
pub struct ClientPin {
    pub(crate) pin: Option<[u8; 16]>,
    pub(crate) retries: u8,
    pub(crate) mismatches: u8,
    pub(crate) pair: Option<KeyPair>,
    pub(crate) token: Option<Token>,
    pub(crate) counted: bool,
}

impl ClientPin {
    /// No PIN, and 8 retries.
    pub fn new() -> ClientPin
        ensures { pin_view result ≡ new_pin_state }
    {
        ClientPin {
            pin: None,
            retries: 8,
            mismatches: 0,
            pair: None,
            token: None,
            counted: false,
        }
    }

    /// Whether a PIN is set: getInfo's option `clientPin` (CTAP 2.1, section 6.4).
    pub fn is_set(&self) -> bool
        ensures { IsTrue result ↔ IsSome (pin_view self.now).pin }
    {
        self.pin.is_some()
    }

    /// The user was present at a request that was granted: from now on the token has no permissions (CTAP 2.1, section 6.5.3,
    /// `clearPinUvAuthTokenPermissionsExceptLbw`).
    pub fn spend(&mut self)
        ensures { pin_view self.new ≡ spent (pin_view self.old) }
    {
        if let Some(token) = &mut self.token {
            token.permissions = 0;
        }
    }

    /// The token's time is over, which the host's clock says (CTAP 2.1, section 6.5.3, `stopUsingPinUvAuthToken`).
    pub fn end_token(&mut self)
        ensures { pin_view self.new ≡ without_token (pin_view self.old) }
    {
        self.token = None;
    }

    /// A request is given up while the host is asked: the try that was counted stays counted, and is over.
    pub fn give_up(&mut self)
        ensures { pin_view self.new ≡ over (pin_view self.old) }
    {
        self.counted = false;
    }

    /// The key is plugged in: the token, the key pair and the count of wrong PINs in a row are gone.
    pub fn power_up(&mut self)
        ensures { pin_view self.new ≡ powered_up (pin_view self.old) }
    {
        self.mismatches = 0;
        self.pair = None;
        self.token = None;
        self.counted = false;
    }

    /// The key is reset (CTAP 2.1, section 6.6): no PIN, and 8 retries.
    pub fn reset(&mut self)
        ensures { pin_view self.new ≡ new_pin_state }
    {
        *self = ClientPin::new();
    }

    /// Takes the words' key pair where there is none yet.
    pub(crate) fn take_pair(&mut self, words: &PinWords) -> KeyPair
        ensures pair { result ≡ pair_of words.now (pin_view self.old) }
        ensures state { pin_view self.new ≡ with_pair words.now (pin_view self.old) }
    {
        let pair = pair_or(&self.pair, words);
        self.pair = Some(pair);
        pair
    }

    /// Counts the try that is under way, once.
    pub(crate) fn count(&mut self)
        ensures { pin_view self.new ≡ counted (pin_view self.old) }
    {
        if !self.counted {
            self.retries = self.retries.saturating_sub(1);
            self.counted = true;
        }
    }
}
