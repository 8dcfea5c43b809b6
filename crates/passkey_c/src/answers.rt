//! Answers as numbers.

ghost use Rattle.std.specs.Prelude.{◌≡◌, ◌≢◌, MatchOption};
ghost use Rattle.passkey_c.specs.declared.answers.InputFault.TheVariants as faults;
ghost use Rattle.passkey_c.specs.Numbers.{fault_number, limit_number};
ghost use Rattle.passkey_c.specs.Texts.{limit_text};

use std::alloc::AllocError;

/// The answer where a response is accepted.
pub const ACCEPTED: u32 = 0;

/// A member that is out of its limits.
#[derive(Clone, Copy, Debug, PartialEq, Eq, Drop)]
pub enum Limit {
    /// 101: the rp id is not UTF-8.
    RpId,
    /// 102: an origin is not UTF-8.
    Origin,
    /// 103: the challenge is not of 32 bytes.
    Challenge,
    /// 104: the algorithm of the credential's key is none of -7, -8 and -257.
    KeyAlgorithm,
    /// 105: the key's x is not of 32 bytes, or of RS256 no modulus that a key may have.
    KeyX,
    /// 106: the key's y is not of 32 bytes, or of RS256 no exponent that a key may have.
    KeyY,
    /// 107: the algorithm of the key that the host verified with is none of -7, -8 and -257.
    VerifiedAlgorithm,
    /// 108: that key's x is not of 32 bytes, or of RS256 no modulus that a key may have.
    VerifiedX,
    /// 109: that key's y is not of 32 bytes, or of RS256 no exponent that a key may have.
    VerifiedY,
    /// 110: the room for a message is too small.
    MessageRoom,
    /// 111: the room for a signature is too small.
    SignatureRoom,
    /// 112: the number of the profile is none of 0, 1 and 2.
    Profile,
    /// 113: a top origin is not UTF-8.
    TopOrigin,
}

impl Limit {
    /// The number of the answer.
    pub fn number(self) -> u32
        ensures { result ≡ limit_number self }
    {
        match self {
            Limit::RpId => 101,
            Limit::Origin => 102,
            Limit::Challenge => 103,
            Limit::KeyAlgorithm => 104,
            Limit::KeyX => 105,
            Limit::KeyY => 106,
            Limit::VerifiedAlgorithm => 107,
            Limit::VerifiedX => 108,
            Limit::VerifiedY => 109,
            Limit::MessageRoom => 110,
            Limit::SignatureRoom => 111,
            Limit::Profile => 112,
            Limit::TopOrigin => 113,
        }
    }

    /// The limit of this number, the inverse of `number`: 101 to 113. None where it is another number.
    pub fn from_number(number: u32) -> Option<Limit>
        ensures { MatchOption result ((limit : Limit) → limit_number limit ≢ number) (λ limit. limit_number limit ≡ number) }
    {
        match number {
            101 => Some(Limit::RpId),
            102 => Some(Limit::Origin),
            103 => Some(Limit::Challenge),
            104 => Some(Limit::KeyAlgorithm),
            105 => Some(Limit::KeyX),
            106 => Some(Limit::KeyY),
            107 => Some(Limit::VerifiedAlgorithm),
            108 => Some(Limit::VerifiedX),
            109 => Some(Limit::VerifiedY),
            110 => Some(Limit::MessageRoom),
            111 => Some(Limit::SignatureRoom),
            112 => Some(Limit::Profile),
            113 => Some(Limit::TopOrigin),
            _ => None,
        }
    }

    /// The text of the answer.
    pub fn text(self) -> &'static str
        ensures { result.now ≡ limit_text self }
    {
        match self {
            Limit::RpId => "the rp id is not UTF-8",
            Limit::Origin => "an origin is not UTF-8",
            Limit::Challenge => "the challenge is not of 32 bytes",
            Limit::KeyAlgorithm => "the algorithm of the credential's key is not known",
            Limit::KeyX => "the x of the credential's key is out of its limits",
            Limit::KeyY => "the y of the credential's key is out of its limits",
            Limit::VerifiedAlgorithm => "the algorithm of the verified key is not known",
            Limit::VerifiedX => "the x of the verified key is out of its limits",
            Limit::VerifiedY => "the y of the verified key is out of its limits",
            Limit::MessageRoom => "the room for the message is too small",
            Limit::SignatureRoom => "the room for the signature is too small",
            Limit::Profile => "the profile is not known",
            Limit::TopOrigin => "a top origin is not UTF-8",
        }
    }
}

/// Why what was passed is not judged.
#[derive(Clone, Copy, Debug, PartialEq, Eq, Drop)]
pub enum InputFault {
    /// A member is out of its limits.
    Limit(Limit),
    /// There was no memory.
    Memory,
}

impl InputFault {
    /// The number of the answer; 127 where there was no memory.
    pub fn number(self) -> u32
        ensures { result ≡ fault_number self }
    {
        match self {
            InputFault::Limit(limit) => limit.number(),
            InputFault::Memory => 127,
        }
    }
}

impl From<AllocError> for InputFault {
    ghost from_gives = { λ _ fault. fault ≡ faults.Memory };

    fn from(_e: AllocError) -> InputFault {
        InputFault::Memory
    }
}
