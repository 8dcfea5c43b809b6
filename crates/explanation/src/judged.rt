//! The steps of a response as it is judged.

ghost use Rattle.std.specs.Prelude.{IfOk};
ghost use Rattle.explanation.specs.Private.{IsVerdict};
ghost use Rattle.explanation.specs.Told.{AreTold, signature_is};
ghost use Rattle.verification.specs.SignIn.{PassesSignInStep, steps as sign_in_steps};
ghost use Rattle.verification.specs.Registration.{PassesRegistrationStep, steps as registration_steps};
ghost use Rattle.verification.specs.Views.{judged_registration_view, judged_sign_in_view};

use crate::signature::SaidSignature;
use crate::told::{ToldStep, tell};
use std::alloc::{AllocError, Global};
use verification::{
    RegistrationAttempt, RegistrationRefusal, SignInAttempt, SignInRefusal, VerificationError,
    verify_assertion, verify_registration,
};

/// The steps of a sign-in in their order (WebAuthn Level 2, section 7.2).
const SIGN_IN: [SignInRefusal; 18] = [
    SignInRefusal::SessionNotOpen,
    SignInRefusal::CredentialNotAllowed,
    SignInRefusal::UnknownCredential,
    SignInRefusal::OtherUser,
    SignInRefusal::UnreadableClientData,
    SignInRefusal::WrongType,
    SignInRefusal::WrongChallenge,
    SignInRefusal::WrongOrigin,
    SignInRefusal::CrossOrigin,
    SignInRefusal::WrongTopOrigin,
    SignInRefusal::TokenBinding,
    SignInRefusal::BadAuthenticatorData,
    SignInRefusal::WrongRelyingParty,
    SignInRefusal::UserNotPresent,
    SignInRefusal::UserNotVerified,
    SignInRefusal::BadSignature,
    SignInRefusal::CounterNotGreater,
    SignInRefusal::EligibilityChanged,
];

/// The steps of a registration in their order (WebAuthn Level 2, section 7.1).
const REGISTRATION: [RegistrationRefusal; 19] = [
    RegistrationRefusal::SessionNotOpen,
    RegistrationRefusal::UnreadableClientData,
    RegistrationRefusal::WrongType,
    RegistrationRefusal::WrongChallenge,
    RegistrationRefusal::WrongOrigin,
    RegistrationRefusal::CrossOrigin,
    RegistrationRefusal::WrongTopOrigin,
    RegistrationRefusal::TokenBinding,
    RegistrationRefusal::BadAttestationObject,
    RegistrationRefusal::WrongRelyingParty,
    RegistrationRefusal::UserNotPresent,
    RegistrationRefusal::UserNotVerified,
    RegistrationRefusal::AlgorithmNotOffered,
    RegistrationRefusal::OtherId,
    RegistrationRefusal::UnknownFormat,
    RegistrationRefusal::BadStatement,
    RegistrationRefusal::AttestationNotAccepted,
    RegistrationRefusal::CredentialRegistered,
    RegistrationRefusal::TableFull,
];

/// The step of a sign-in that fails; none where each is passed.
fn failed_sign_in(
    alloc: Global,
    attempt: &SignInAttempt<'_, '_>,
    is_valid: bool,
) -> Result<Option<SignInRefusal>, AllocError>
    ensures { IfOk result (IsVerdict (PassesSignInStep (signature_is is_valid) (judged_sign_in_view attempt.now)) sign_in_steps) }
{
    match verify_assertion(alloc, &SaidSignature { is_valid }, attempt) {
        Ok(_) => Ok(None),
        Err(VerificationError::Refused(step)) => Ok(Some(step)),
        Err(VerificationError::Memory) => Err(AllocError),
    }
}

/// Each step of a sign-in, and whether the response passes it, where its signature is valid, or where it is not: no signature
/// is computed here.
pub fn explain_sign_in(
    alloc: Global,
    attempt: &SignInAttempt<'_, '_>,
    is_valid: bool,
) -> Result<Vec<ToldStep<SignInRefusal>>, AllocError>
    ensures { IfOk result (λ rows. AreTold (PassesSignInStep (signature_is is_valid) (judged_sign_in_view attempt.now)) sign_in_steps rows.items) }
{
    let failed = failed_sign_in(alloc, attempt, is_valid)?;
    tell(alloc, &SIGN_IN, failed)
}

/// The step of a registration that fails; none where each is passed.
fn failed_registration(
    alloc: Global,
    attempt: &RegistrationAttempt<'_, '_>,
    is_valid: bool,
    is_registered: bool,
    is_full: bool,
) -> Result<Option<RegistrationRefusal>, AllocError>
    ensures { IfOk result (IsVerdict (PassesRegistrationStep (signature_is is_valid)
        (judged_registration_view attempt.now (λ _. is_registered) is_full)) registration_steps) }
{
    match verify_registration(alloc, &SaidSignature { is_valid }, attempt) {
        Ok(verified) => match verified.admit(is_registered, is_full) {
            Ok(_) => Ok(None),
            Err(step) => Ok(Some(step)),
        },
        Err(VerificationError::Refused(step)) => Ok(Some(step)),
        Err(VerificationError::Memory) => Err(AllocError),
    }
}

/// Each step of a registration, and whether the response passes it, where its signature is valid, or where it is not, and
/// where a credential with its id is registered, or none is. No signature is computed here.
pub fn explain_registration(
    alloc: Global,
    attempt: &RegistrationAttempt<'_, '_>,
    is_valid: bool,
    is_registered: bool,
    is_full: bool,
) -> Result<Vec<ToldStep<RegistrationRefusal>>, AllocError>
    ensures { IfOk result (λ rows. AreTold (PassesRegistrationStep (signature_is is_valid)
        (judged_registration_view attempt.now (λ _. is_registered) is_full)) registration_steps rows.items) }
{
    let failed = failed_registration(alloc, attempt, is_valid, is_registered, is_full)?;
    tell(alloc, &REGISTRATION, failed)
}
