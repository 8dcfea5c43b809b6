//! What is wanted of the key, and what is known.

use ctap_open_requests::{AssertionExtensions, CreationExtensions, RelyingParty, User};
use pin_protocols::Answers;

/// Whether something is wanted (WebAuthn Level 2, sections 5.4.6 and 5.8.6).
#[derive(Clone, Copy, Debug, PartialEq, Eq, Drop)]
pub enum Requirement {
    /// The ceremony fails without.
    Required,
    /// Where the key can.
    Preferred,
    /// Not, unless the key wants it itself.
    Discouraged,
}

/// A registration (CTAP 2.1, section 6.1).
#[derive(Clone, Copy, Debug, Drop)]
pub struct Creating<'a> {
    /// The hash of the client data: 32 bytes.
    pub client_data_hash: &'a [u8],
    /// The relying party.
    pub rp: RelyingParty<'a>,
    /// The user account.
    pub user: User<'a>,
    /// The COSE algorithms that are wanted, the best first.
    pub algorithms: &'a [i64],
    /// The ids of credentials one of which must not be there, each of 1 to 1,023 bytes.
    pub exclude: &'a [&'a [u8]],
    /// The extensions' inputs.
    pub extensions: Option<CreationExtensions<'a>>,
    /// Whether the credential is to be discoverable.
    pub resident: Requirement,
    /// Whether the user is to be verified.
    pub verification: Requirement,
}

/// A sign-in (CTAP 2.1, section 6.2).
#[derive(Clone, Copy, Debug, Drop)]
pub struct Asserting<'a> {
    /// The relying party id: 1 to 253 bytes.
    pub rp_id: &'a str,
    /// The hash of the client data: 32 bytes.
    pub client_data_hash: &'a [u8],
    /// The ids of credentials one of which is wanted, each of 1 to 1,023 bytes.
    pub allow: &'a [&'a [u8]],
    /// The extensions' inputs.
    pub extensions: Option<AssertionExtensions<'a>>,
    /// Whether the user is to be verified.
    pub verification: Requirement,
}

/// What is wanted of the key.
#[derive(Clone, Copy, Debug, Drop)]
pub enum Wish<'a> {
    /// A credential.
    Creates(Creating<'a>),
    /// An assertion.
    Asserts(Asserting<'a>),
    /// A first PIN, which is this.
    SetsPin(&'a str),
    /// Another PIN, which is this; the one that it has is [`Known::pin`].
    ChangesPin(&'a str),
}

/// What is known so far.
#[derive(Clone, Copy, Debug, Drop)]
pub struct Known<'a> {
    /// The key's messages, status byte first, in the order of those that they answered: getInfo's first.
    pub replies: &'a [Vec<u8>],
    /// The user's PIN.
    pub pin: Option<&'a str>,
    /// What the host answered.
    pub answers: &'a Answers,
    /// Whether built-in verification may be used: false after it failed, or by the user's choice.
    pub built_in: bool,
    /// Which of several assertions.
    pub chosen: Option<usize>,
}
