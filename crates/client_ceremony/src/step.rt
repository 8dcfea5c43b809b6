//! What is next.

use ctap_open_replies::{KeyAssertion, KeyCreation};
use pin_protocols::Ask;

/// What is next.
#[derive(Debug, Drop)]
pub enum Step<'a> {
    /// This message goes to the key, by CTAPHID_CBOR.
    Sends(Vec<u8>),
    /// The user is asked for the PIN. So many attempts are left, where the key told it.
    NeedsPin(Option<u64>),
    /// The host is asked to compute this.
    Asks(Ask),
    /// One of these is to be chosen, by its place.
    Chooses(Vec<KeyAssertion<'a>>),
    /// The credential was made.
    Created(KeyCreation),
    /// This is the assertion.
    Asserted(KeyAssertion<'a>),
    /// The key has the new PIN.
    PinIsSet,
}
