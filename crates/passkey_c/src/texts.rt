//! The texts of answers.

ghost use Rattle.std.specs.Prelude.{◌≡◌, List, MatchOption, ℕ};
ghost use Rattle.passkey_c.specs.Answers.{IsRefusalText};
ghost use Rattle.passkey_c.specs.Parts.{flag_of};
ghost use Rattle.passkey_c.specs.Texts.{IsStepText, IsText, registration_text, sign_in_text};

use crate::answers::Limit;
use verification::{RegistrationRefusal, SignInRefusal};

/// The text of a step of a sign-in.
fn sign_in_text(step: SignInRefusal) -> &'static str
    ensures { result.now ≡ sign_in_text step }
{
    match step {
        SignInRefusal::SessionNotOpen => "the session is not open for sign-in",
        SignInRefusal::CredentialNotAllowed => "the credential is not one that the session allows",
        SignInRefusal::UnknownCredential => "no credential with this id is registered",
        SignInRefusal::OtherUser => "the credential is not the user's",
        SignInRefusal::UnreadableClientData => "the client data cannot be read",
        SignInRefusal::WrongType => "the client data are not of a sign-in",
        SignInRefusal::WrongChallenge => "the challenge is not the session's",
        SignInRefusal::WrongOrigin => "the origin is not the relying party's",
        SignInRefusal::CrossOrigin => "the page is in another site's frame",
        SignInRefusal::WrongTopOrigin => {
            "the page at the top is none that the relying party names"
        }
        SignInRefusal::TokenBinding => "token binding is used",
        SignInRefusal::BadAuthenticatorData =>
            "the authenticator data cannot be read, or they attest a credential",
        SignInRefusal::WrongRelyingParty => "the authenticator data are for another relying party",
        SignInRefusal::UserNotPresent => "the user was not present",
        SignInRefusal::UserNotVerified => "the user was not verified",
        SignInRefusal::BadSignature => "the signature is not valid",
        SignInRefusal::CounterNotGreater =>
            "the signature counter is not greater than the one stored",
        SignInRefusal::EligibilityChanged => "the credential's eligibility for backup has changed",
    }
}

/// The text of a step of a registration.
fn registration_text(step: RegistrationRefusal) -> &'static str
    ensures { result.now ≡ registration_text step }
{
    match step {
        RegistrationRefusal::SessionNotOpen => "the session is not open for registration",
        RegistrationRefusal::UnreadableClientData => "the client data cannot be read",
        RegistrationRefusal::WrongType => "the client data are not of a registration",
        RegistrationRefusal::WrongChallenge => "the challenge is not the session's",
        RegistrationRefusal::WrongOrigin => "the origin is not the relying party's",
        RegistrationRefusal::CrossOrigin => "the page is in another site's frame",
        RegistrationRefusal::WrongTopOrigin => {
            "the page at the top is none that the relying party names"
        }
        RegistrationRefusal::TokenBinding => "token binding is used",
        RegistrationRefusal::BadAttestationObject => {
            "the attestation object cannot be read, or attests no credential"
        }
        RegistrationRefusal::WrongRelyingParty =>
            "the authenticator data are for another relying party",
        RegistrationRefusal::UserNotPresent => "the user was not present",
        RegistrationRefusal::UserNotVerified => "the user was not verified",
        RegistrationRefusal::AlgorithmNotOffered => "the key's algorithm was not offered",
        RegistrationRefusal::UnknownFormat => "the attestation statement's format is unknown",
        RegistrationRefusal::BadStatement => "the attestation statement is not valid",
        RegistrationRefusal::AttestationNotAccepted => "the attestation is not accepted",
        RegistrationRefusal::CredentialRegistered => "the credential is registered",
        RegistrationRefusal::TableFull => "there is no room for another credential",
        RegistrationRefusal::OtherId => "the response's id is not the attested credential's",
    }
}

/// The text of a step; none where no step has this number.
fn step_text(is_registration: bool, number: u8) -> Option<&'static str>
    ensures { MatchOption result ((text : List ℕ) → IsStepText is_registration number text → ⊥)
        (λ text. IsStepText is_registration number text.now) }
{
    if is_registration {
        match RegistrationRefusal::from_number(number) {
            Some(step) => Some(registration_text(step)),
            None => None,
        }
    } else {
        match SignInRefusal::from_number(number) {
            Some(step) => Some(sign_in_text(step)),
            None => None,
        }
    }
}

/// The text of an answer; none where it has none.
fn text_of(is_registration: bool, answer: u32) -> Option<&'static str>
    ensures { MatchOption result ((text : List ℕ) → IsText is_registration answer text → ⊥)
        (λ text. IsText is_registration answer text.now) }
{
    if answer == 0 {
        return Some("accepted");
    }
    if answer == 127 {
        return Some("out of memory");
    }
    if let Some(limit) = Limit::from_number(answer) {
        return Some(limit.text());
    }
    match u8::try_from(answer) {
        Ok(number) => step_text(is_registration, number),
        Err(_) => None,
    }
}

/// Writes the text of an answer, of a registration where the flag is not 0, and tells how many bytes it has: 0 where the
/// answer has no text or the room is too small, and then nothing is written. It takes no memory.
pub fn passkey_refusal_text(is_registration: u32, answer: u32, room: &mut [u8]) -> usize
    ensures { IsRefusalText (flag_of is_registration) answer room.old room.new result }
{
    let Some(text) = text_of(is_registration != 0, answer) else {
        return 0;
    };
    let bytes = text.as_bytes();
    if room.len() < bytes.len() {
        return 0;
    }
    let (front, _) = room.split_at_mut(bytes.len());
    front.copy_from_slice(bytes);
    bytes.len()
}
