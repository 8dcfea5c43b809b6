//! Client data that are, byte for byte, what was expected: told without memory.

ghost use Rattle.std.specs.Prelude.{◌≡◌, ◌≢◌, ◌↔◌, ◌++◌, ℕ, List, Bool, Contains, IfOk, IsTrue, IsUtf8, MatchOption};
ghost use Rattle.clientdata.specs.Expected.{IsAfterChallenge, before_challenge, after_challenge};
ghost use Rattle.clientdata.specs.Serialised.{MayCross, client_data_text};

use crate::challenge::challenge_characters;
use crate::quoting::push_quoted;
use crate::record::CeremonyType;
use std::alloc::{AllocError, Global};
use std::marker::Model;

/// An origin that client data are compared with, in UTF-8, of any length. How client data have it is made
/// once, with it. A contract sees the list of its bytes.
#[derive(Drop)]
pub struct ExpectedOrigin {
    origin: String,
    written: String,
}

impl Model for ExpectedOrigin {
    ghost use Rattle.std.specs.Prelude.{◌≡◌, ℕ, List, string_bytes};
    ghost use Rattle.clientdata.specs.Expected.{after_challenge};

    ghost Value = { List ℕ };

    ghost view = { λ o. string_bytes o.origin };

    ghost invariant = { λ o. string_bytes o.written ≡ after_challenge (string_bytes o.origin) };
}

impl ExpectedOrigin {
    /// This origin. It fails only if memory runs out.
    pub fn new(alloc: Global, origin: &str) -> Result<ExpectedOrigin, AllocError>
        ensures { IfOk result (λ o. o ≡ origin.now) }
    {
        let mut written = String::from_str(alloc, "\",\"origin\":")?;
        push_quoted(&mut written, origin)?;
        written.push_str(",\"crossOrigin\":")?;
        Ok(ExpectedOrigin {
            origin: String::from_str(alloc, origin)?,
            written,
        })
    }

    /// The origin, lent.
    pub fn as_str(&self) -> &str
        ensures { result.now ≡ self.now }
    {
        self.origin.as_str()
    }

    /// The text from the end of the challenge to before the last member's value.
    fn written(&self) -> &[u8]
        ensures text { result.now ≡ after_challenge self.now }
        ensures utf8 { IsUtf8 self.now }
    {
        self.written.as_bytes()
    }

    /// Whether these bytes stand after the challenge in serialised client data of this origin, cross-origin only where that is
    /// taken.
    fn ends(&self, rest: &[u8], takes_cross: bool) -> bool
        ensures told { IsTrue result ↔ ((cross : Bool) × MayCross takes_cross cross × IsAfterChallenge self.now cross rest.now) }
        ensures utf8 { IsUtf8 self.now }
    {
        match after(rest, self.written()) {
            Some(rest) if rest == b"false}".as_slice() => true,
            Some(rest) => takes_cross && rest == b"true}".as_slice(),
            None => false,
        }
    }
}

/// The text before the challenge.
fn before_challenge(kind: CeremonyType) -> &'static [u8]
    ensures { result.now ≡ before_challenge kind }
{
    match kind {
        CeremonyType::Create => b"{\"type\":\"webauthn.create\",\"challenge\":\"",
        CeremonyType::Get => b"{\"type\":\"webauthn.get\",\"challenge\":\"",
    }
}

/// What stands after a front of the bytes.
pub(crate) fn after<'a>(bytes: &'a [u8], front: &[u8]) -> Option<&'a [u8]>
    ensures { MatchOption result ((rest : List ℕ) → bytes.now ≢ front.now ++ rest) (λ rest. bytes.now ≡ front.now ++ rest.now) }
{
    bytes.strip_prefix(front)
}

/// What stands after the challenge, where the bytes begin as serialised client data of this ceremony and challenge do.
fn after_challenge<'a>(
    bytes: &'a [u8],
    kind: CeremonyType,
    challenge: &[u8; 32],
) -> Option<&'a [u8]>
    ensures { MatchOption result
        ((origin : List ℕ) (cross : Bool) → bytes.now ≢ client_data_text kind challenge.now origin cross)
        (λ rest. (origin : List ℕ) (cross : Bool)
        → (bytes.now ≡ client_data_text kind challenge.now origin cross) ↔ IsAfterChallenge origin cross rest.now) }
{
    let challenge = challenge_characters(challenge);
    let rest = after(bytes, before_challenge(kind))?;
    after(rest, &challenge)
}

/// Whether the bytes are the serialised client data (WebAuthn Level 2, section 5.8.1.1) of this ceremony,
/// challenge and origin, whether cross-origin or not. It takes no memory.
pub fn is_serialised(
    bytes: &[u8],
    kind: CeremonyType,
    challenge: &[u8; 32],
    origin: &ExpectedOrigin,
) -> bool
    ensures told { IsTrue result ↔ ((cross : Bool) × (bytes.now ≡ client_data_text kind challenge.now origin.now cross)) }
    ensures utf8 { IsTrue result → IsUtf8 origin.now }
{
    match after_challenge(bytes, kind, challenge) {
        Some(rest) => origin.ends(rest, true),
        None => false,
    }
}

/// The same for one of several origins, cross-origin only where that is taken: the challenge's text is made and compared
/// once. It takes no memory.
pub fn is_serialised_for_any(
    bytes: &[u8],
    kind: CeremonyType,
    challenge: &[u8; 32],
    origins: &[ExpectedOrigin],
    takes_cross: bool,
) -> bool
    ensures { IsTrue result ↔ ((origin : List ℕ) × (cross : Bool) × MayCross takes_cross cross × Contains origins.now origin × IsUtf8 origin
        × (bytes.now ≡ client_data_text kind challenge.now origin cross)) }
{
    let Some(rest) = after_challenge(bytes, kind, challenge) else {
        return false;
    };
    for origin in origins {
        if origin.ends(rest, takes_cross) {
            return true;
        }
    }
    false
}
