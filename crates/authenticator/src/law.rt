//! The laws of an authenticator's steps.

ghost use Rattle.authenticator.specs.Laws.{StepLaws};
ghost use Rattle.authenticator.specs.Saved.{SavingLaws};
ghost use Rattle.authenticator.specs.Signing.{SigningLaws};
ghost use Rattle.authenticator.specs.Steps.{Keys};

use cose::Verifier;

/// A new authenticator stores and remembers nothing, and of each step from a sound state:
///
/// - each signing is an attestation, of a message of at least 161 bytes, or an assertion, of exactly 69 bytes with
///   a counter of at least 1, with UP set only if presence was given to its request, and UV only if verification
///   was; so also of a getNextAssertion, for the consent given to the getAssertion that it goes on with;
/// - a stored credential's counter never falls, and an assertion's is one above what it was;
/// - at most 256 credentials are stored, and each id stands once;
/// - what is remembered has flags that follow its consent, and names resident credentials;
/// - a key that is made is that of a stored credential.
///
/// It is so whatever the scheme calls valid, and whichever key is a secret's.
pub fn step_laws<V: Verifier>()
    ensures { (verifier : V) (public : Keys) → StepLaws (V.valid verifier) public }
{}

/// Signing in two steps is signing in one: what [`Authenticator::begin`](crate::Authenticator::begin) answers is a step; where
/// it tells what is to be signed, nothing has changed, and with a signature that is valid what
/// [`Authenticator::finish`](crate::Authenticator::finish) answers is the step that the request asked for.
pub fn signing_laws<V: Verifier>()
    ensures { (verifier : V) (public : Keys) → SigningLaws (V.valid verifier) public }
{}

/// What is saved is what is loaded: bytes are those of one state, which has no others; over a restart the ids, the secrets and
/// the counters are as before, and so is all else but what is remembered; and a sound state stays sound.
pub fn saving_laws()
    ensures { SavingLaws }
{}
