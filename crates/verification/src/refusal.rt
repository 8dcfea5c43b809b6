//! Why a response is refused.

ghost use Rattle.std.specs.Prelude.{◌≡◌, ◌≢◌, MatchOption};
ghost use Rattle.verification.specs.Numbers.{sign_in_number, registration_number};
ghost use Rattle.verification.specs.declared.refusal.RegistrationRefusal.{RegistrationRefusal};
ghost use Rattle.verification.specs.declared.refusal.SignInRefusal.{SignInRefusal};
ghost use Rattle.verification.specs.declared.refusal.VerificationError.TheVariants as errors;

use std::alloc::AllocError;
use std::fmt::Display;
use thiserror::Error as ErrorType;

/// The step of section 7.2 at which a sign-in is refused, the first that fails. The program prints `W` and
/// the number.
#[derive(Clone, Copy, Debug, PartialEq, Eq, Drop, ErrorType)]
pub enum SignInRefusal {
    /// 1: the session is not open, or is one for registration.
    #[error("the session is not open for sign-in")]
    SessionNotOpen,
    /// 2: the session lists the credentials that may answer, and this is none of them.
    #[error("the credential is not one that the session allows")]
    CredentialNotAllowed,
    /// 3: no credential with this id is registered, or it is retired, or the one passed has another id.
    #[error("no credential with this id is registered")]
    UnknownCredential,
    /// 4: the session or the response names another user than the credential's, or neither names one.
    #[error("the credential is not the user's")]
    OtherUser,
    /// 5: the client data cannot be read.
    #[error("the client data cannot be read")]
    UnreadableClientData,
    /// 6: the type of the client data is not `webauthn.get`.
    #[error("the client data are not of a sign-in")]
    WrongType,
    /// 7: the challenge is not the session's.
    #[error("the challenge is not the session's")]
    WrongChallenge,
    /// 8: the origin is none of the relying party's.
    #[error("the origin is not the relying party's")]
    WrongOrigin,
    /// 17: in Level 3, `crossOrigin` is neither absent nor `false`, or there is a `topOrigin`, and the relying party names no
    /// page that may frame its own; or `crossOrigin` is no truth value.
    #[error("the page is in another site's frame")]
    CrossOrigin,
    /// 18: in Level 3, `crossOrigin` is `true` or there is a `topOrigin`, and it is none of the pages that may frame the
    /// relying party's.
    #[error("the page at the top is none that the relying party names")]
    WrongTopOrigin,
    /// 9: token binding is used.
    #[error("token binding is used")]
    TokenBinding,
    /// 10: the bytes are no authenticator data, or they attest a credential.
    #[error("the authenticator data cannot be read, or they attest a credential")]
    BadAuthenticatorData,
    /// 11: the relying party's hash is not SHA-256 of the rp id.
    #[error("the authenticator data are for another relying party")]
    WrongRelyingParty,
    /// 12: the flag of user presence is clear.
    #[error("the user was not present")]
    UserNotPresent,
    /// 13: the session requires verification, and its flag is clear.
    #[error("the user was not verified")]
    UserNotVerified,
    /// 14: the signature is not valid over the authenticator data as they came, then the hash of the client
    /// data.
    #[error("the signature is not valid")]
    BadSignature,
    /// 15: the received or the stored counter is not 0, and the received one is not greater.
    #[error("the signature counter is not greater than the one stored")]
    CounterNotGreater,
    /// 16: whether the credential is eligible for backup is known, and the flag says otherwise.
    #[error("the credential's eligibility for backup has changed")]
    EligibilityChanged,
}

impl SignInRefusal {
    /// The number of the step.
    pub fn number(&self) -> u8
        ensures { result ≡ sign_in_number self.now }
    {
        match self {
            SignInRefusal::SessionNotOpen => 1,
            SignInRefusal::CredentialNotAllowed => 2,
            SignInRefusal::UnknownCredential => 3,
            SignInRefusal::OtherUser => 4,
            SignInRefusal::UnreadableClientData => 5,
            SignInRefusal::WrongType => 6,
            SignInRefusal::WrongChallenge => 7,
            SignInRefusal::WrongOrigin => 8,
            SignInRefusal::TokenBinding => 9,
            SignInRefusal::BadAuthenticatorData => 10,
            SignInRefusal::WrongRelyingParty => 11,
            SignInRefusal::UserNotPresent => 12,
            SignInRefusal::UserNotVerified => 13,
            SignInRefusal::BadSignature => 14,
            SignInRefusal::CounterNotGreater => 15,
            SignInRefusal::EligibilityChanged => 16,
            SignInRefusal::CrossOrigin => 17,
            SignInRefusal::WrongTopOrigin => 18,
        }
    }

    /// The step of this number: 1 to 18.
    pub fn from_number(number: u8) -> Option<SignInRefusal>
        ensures { MatchOption result ((step : SignInRefusal) → sign_in_number step ≢ number) (λ step. sign_in_number step ≡ number) }
    {
        match number {
            1 => Some(SignInRefusal::SessionNotOpen),
            2 => Some(SignInRefusal::CredentialNotAllowed),
            3 => Some(SignInRefusal::UnknownCredential),
            4 => Some(SignInRefusal::OtherUser),
            5 => Some(SignInRefusal::UnreadableClientData),
            6 => Some(SignInRefusal::WrongType),
            7 => Some(SignInRefusal::WrongChallenge),
            8 => Some(SignInRefusal::WrongOrigin),
            9 => Some(SignInRefusal::TokenBinding),
            10 => Some(SignInRefusal::BadAuthenticatorData),
            11 => Some(SignInRefusal::WrongRelyingParty),
            12 => Some(SignInRefusal::UserNotPresent),
            13 => Some(SignInRefusal::UserNotVerified),
            14 => Some(SignInRefusal::BadSignature),
            15 => Some(SignInRefusal::CounterNotGreater),
            16 => Some(SignInRefusal::EligibilityChanged),
            17 => Some(SignInRefusal::CrossOrigin),
            18 => Some(SignInRefusal::WrongTopOrigin),
            _ => None,
        }
    }
}

/// The step of section 7.1 at which a registration is refused, the first that fails. The program prints `G`
/// and the number.
#[derive(Clone, Copy, Debug, PartialEq, Eq, Drop, ErrorType)]
pub enum RegistrationRefusal {
    /// 1: the session is not open, or is one for sign-in.
    #[error("the session is not open for registration")]
    SessionNotOpen,
    /// 2: the client data cannot be read.
    #[error("the client data cannot be read")]
    UnreadableClientData,
    /// 3: the type of the client data is not `webauthn.create`.
    #[error("the client data are not of a registration")]
    WrongType,
    /// 4: the challenge is not the session's.
    #[error("the challenge is not the session's")]
    WrongChallenge,
    /// 5: the origin is none of the relying party's.
    #[error("the origin is not the relying party's")]
    WrongOrigin,
    /// 17: in Level 3, `crossOrigin` is neither absent nor `false`, or there is a `topOrigin`, and the relying party names no
    /// page that may frame its own; or `crossOrigin` is no truth value.
    #[error("the page is in another site's frame")]
    CrossOrigin,
    /// 18: in Level 3, `crossOrigin` is `true` or there is a `topOrigin`, and it is none of the pages that may frame the
    /// relying party's.
    #[error("the page at the top is none that the relying party names")]
    WrongTopOrigin,
    /// 6: token binding is used.
    #[error("token binding is used")]
    TokenBinding,
    /// 7: the bytes are no attestation object, or its authenticator data cannot be read or attest no
    /// credential.
    #[error("the attestation object cannot be read, or attests no credential")]
    BadAttestationObject,
    /// 8: the relying party's hash is not SHA-256 of the rp id.
    #[error("the authenticator data are for another relying party")]
    WrongRelyingParty,
    /// 9: the flag of user presence is clear; in Level 3, where the session was not begun as conditional.
    #[error("the user was not present")]
    UserNotPresent,
    /// 10: the session requires verification, and its flag is clear.
    #[error("the user was not verified")]
    UserNotVerified,
    /// 11: the key's algorithm was not offered.
    #[error("the key's algorithm was not offered")]
    AlgorithmNotOffered,
    /// 19: the client names another credential than the response attests: its `rawId`, where it is passed, is another id.
    #[error("the response's id is not the attested credential's")]
    OtherId,
    /// 12: the format of the attestation statement is neither `none` nor `packed`. In Level 3 steps 12 to 14 take it as `none`
    /// where the session asked for no attestation.
    #[error("the attestation statement's format is unknown")]
    UnknownFormat,
    /// 13: the attestation statement is not what its format asks for.
    #[error("the attestation statement is not valid")]
    BadStatement,
    /// 14: the relying party does not accept such an attestation.
    #[error("the attestation is not accepted")]
    AttestationNotAccepted,
    /// 15: a credential with this id is registered, to anyone, retired or not.
    #[error("the credential is registered")]
    CredentialRegistered,
    /// 16: there is no room for another credential.
    #[error("there is no room for another credential")]
    TableFull,
}

impl RegistrationRefusal {
    /// The number of the step.
    pub fn number(&self) -> u8
        ensures { result ≡ registration_number self.now }
    {
        match self {
            RegistrationRefusal::SessionNotOpen => 1,
            RegistrationRefusal::UnreadableClientData => 2,
            RegistrationRefusal::WrongType => 3,
            RegistrationRefusal::WrongChallenge => 4,
            RegistrationRefusal::WrongOrigin => 5,
            RegistrationRefusal::TokenBinding => 6,
            RegistrationRefusal::BadAttestationObject => 7,
            RegistrationRefusal::WrongRelyingParty => 8,
            RegistrationRefusal::UserNotPresent => 9,
            RegistrationRefusal::UserNotVerified => 10,
            RegistrationRefusal::AlgorithmNotOffered => 11,
            RegistrationRefusal::UnknownFormat => 12,
            RegistrationRefusal::BadStatement => 13,
            RegistrationRefusal::AttestationNotAccepted => 14,
            RegistrationRefusal::CredentialRegistered => 15,
            RegistrationRefusal::TableFull => 16,
            RegistrationRefusal::CrossOrigin => 17,
            RegistrationRefusal::WrongTopOrigin => 18,
            RegistrationRefusal::OtherId => 19,
        }
    }

    /// The step of this number: 1 to 19.
    pub fn from_number(number: u8) -> Option<RegistrationRefusal>
        ensures { MatchOption result ((step : RegistrationRefusal) → registration_number step ≢ number) (λ step. registration_number step ≡ number) }
    {
        match number {
            1 => Some(RegistrationRefusal::SessionNotOpen),
            2 => Some(RegistrationRefusal::UnreadableClientData),
            3 => Some(RegistrationRefusal::WrongType),
            4 => Some(RegistrationRefusal::WrongChallenge),
            5 => Some(RegistrationRefusal::WrongOrigin),
            6 => Some(RegistrationRefusal::TokenBinding),
            7 => Some(RegistrationRefusal::BadAttestationObject),
            8 => Some(RegistrationRefusal::WrongRelyingParty),
            9 => Some(RegistrationRefusal::UserNotPresent),
            10 => Some(RegistrationRefusal::UserNotVerified),
            11 => Some(RegistrationRefusal::AlgorithmNotOffered),
            12 => Some(RegistrationRefusal::UnknownFormat),
            13 => Some(RegistrationRefusal::BadStatement),
            14 => Some(RegistrationRefusal::AttestationNotAccepted),
            15 => Some(RegistrationRefusal::CredentialRegistered),
            16 => Some(RegistrationRefusal::TableFull),
            17 => Some(RegistrationRefusal::CrossOrigin),
            18 => Some(RegistrationRefusal::WrongTopOrigin),
            19 => Some(RegistrationRefusal::OtherId),
            _ => None,
        }
    }
}

/// Why a response is not verified: a step refuses it, which is a `W` ([`SignInRefusal`] or [`RegistrationRefusal`]), or
/// there was no memory.
#[derive(Clone, Copy, Debug, PartialEq, Eq, Drop, ErrorType)]
#[error_bound(W: Display)]
pub enum VerificationError<W> {
    /// The first step that fails.
    #[error("{0}")]
    Refused(W),
    /// There was no memory.
    #[error("out of memory")]
    Memory,
}

impl From<SignInRefusal> for VerificationError<SignInRefusal> {
    ghost from_gives = { λ step e. e ≡ errors.Refused step };

    fn from(step: SignInRefusal) -> VerificationError<SignInRefusal> {
        VerificationError::Refused(step)
    }
}

impl From<RegistrationRefusal> for VerificationError<RegistrationRefusal> {
    ghost from_gives = { λ step e. e ≡ errors.Refused step };

    fn from(step: RegistrationRefusal) -> VerificationError<RegistrationRefusal> {
        VerificationError::Refused(step)
    }
}

impl<W> From<AllocError> for VerificationError<W> {
    ghost from_gives = { λ _ e. e ≡ errors.Memory };

    fn from(_e: AllocError) -> VerificationError<W> {
        VerificationError::Memory
    }
}
