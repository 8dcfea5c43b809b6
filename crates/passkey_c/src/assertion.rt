//! Sign-ins (WebAuthn Level 2, section 7.2).

ghost use Rattle.std.specs.Prelude.{◌≡◌, IfErr, IfOk, OnOk, option_map};
ghost use Rattle.refusal_order.specs.Lines.{Each};
ghost use Rattle.cose.specs.Keys.{lent_key_view};
ghost use Rattle.verification.specs.SignIn.{PassesSignIn};
ghost use Rattle.verification.specs.SignInAnswers.{IsVerifiedSignIn};
ghost use Rattle.verification.specs.Views.{assertion_parts_view, credential_view, sign_in_view};
ghost use Rattle.verification.specs.Signed.{lent_signature_view};
ghost use Rattle.passkey_c.specs.Answers.{IsAssertion};
ghost use Rattle.passkey_c.specs.declared.assertion.Refusal.TheVariants as refusals;
ghost use Rattle.passkey_c.specs.Limits.{IsFault, SignInKeeps, sign_in_limits};
ghost use Rattle.passkey_c.specs.Parts.{flag_of, given_some, key_of, party_of, verified_in};
ghost use Rattle.passkey_c.specs.SignIns.{IsRefused, judged_sign_in, sign_in_validity};

use crate::answers::{ACCEPTED, InputFault, Limit};
use crate::input::{KeyLimit, copies, copy_of, exactly_32, key_from, party_from};
use crate::parts::{AnswerParts, AssertionCall, AssertionOut};
use crate::seen::tell_data;
use crate::signature::verifier_from;
use cose::KeyView;
use std::alloc::Global;
use verification::{
    AssertionParts, HostVerifier, RelyingParty, RowView, SignInAttempt, SignInRefusal,
    SignInSession, VerificationError, VerifiedAssertion, verify_assertion,
};

/// Why a sign-in is not accepted.
#[derive(Clone, Copy, Debug, PartialEq, Eq, Drop)]
enum Refusal {
    Input(InputFault),
    Step(SignInRefusal),
}

impl From<InputFault> for Refusal {
    ghost from_gives = { λ fault e. e ≡ refusals.Input fault };

    fn from(fault: InputFault) -> Refusal {
        Refusal::Input(fault)
    }
}

/// The session that is passed.
fn expected(alloc: Global, call: &AssertionCall<'_>) -> Result<Option<SignInSession>, InputFault>
    ensures found { IfOk result (λ session. option_map sign_in_view session ≡ (judged_sign_in call.now).session) }
    ensures kept { OnOk result (SignInKeeps call.now Limit.Challenge) }
    ensures refused { IfErr result (IsFault (SignInKeeps call.now)) }
{
    if call.has_session == 0 {
        return Ok(None);
    }
    let Some(challenge) = exactly_32(call.session.challenge) else {
        return Err(InputFault::Limit(Limit::Challenge));
    };
    let user = copy_of(alloc, call.session.has_user != 0, call.session.user)?;
    let allow = copies(alloc, call.session.allow)?;
    Ok(Some(SignInSession {
        user,
        allow,
        uv: call.session.user_verification != 0,
        challenge,
    }))
}

/// The key of the credential that is passed.
fn credential_key<'a>(call: &AssertionCall<'a>) -> Result<Option<KeyView<'a>>, InputFault>
    ensures found { IfOk result (λ key. option_map lent_key_view key ≡ given_some (flag_of call.now.has_credential) (key_of call.now.credential.key)) }
    ensures algorithm { OnOk result (SignInKeeps call.now Limit.KeyAlgorithm) }
    ensures x { OnOk result (SignInKeeps call.now Limit.KeyX) }
    ensures y { OnOk result (SignInKeeps call.now Limit.KeyY) }
    ensures refused { IfErr result (IsFault (SignInKeeps call.now)) }
{
    if call.has_credential == 0 {
        return Ok(None);
    }
    match key_from(&call.credential.key) {
        Ok(key) => Ok(Some(key)),
        Err(KeyLimit::Algorithm) => Err(InputFault::Limit(Limit::KeyAlgorithm)),
        Err(KeyLimit::X) => Err(InputFault::Limit(Limit::KeyX)),
        Err(KeyLimit::Y) => Err(InputFault::Limit(Limit::KeyY)),
    }
}

/// The verifier of the signature that the host verified.
fn sign_in_verifier<'a>(call: &AssertionCall<'a>) -> Result<HostVerifier<'a>, InputFault>
    ensures found { IfOk result (λ verifier. option_map lent_signature_view verifier.verified ≡ verified_in (flag_of call.now.has_verified) call.now.verified) }
    ensures algorithm { OnOk result (SignInKeeps call.now Limit.VerifiedAlgorithm) }
    ensures x { OnOk result (SignInKeeps call.now Limit.VerifiedX) }
    ensures y { OnOk result (SignInKeeps call.now Limit.VerifiedY) }
    ensures refused { IfErr result (IsFault (SignInKeeps call.now)) }
{
    match verifier_from(call.has_verified != 0, &call.verified) {
        Ok(verifier) => Ok(verifier),
        Err(KeyLimit::Algorithm) => Err(InputFault::Limit(Limit::VerifiedAlgorithm)),
        Err(KeyLimit::X) => Err(InputFault::Limit(Limit::VerifiedX)),
        Err(KeyLimit::Y) => Err(InputFault::Limit(Limit::VerifiedY)),
    }
}

/// The credential that is passed, with its key.
fn row<'a, 'b: 'a>(call: &AssertionCall<'b>, key: Option<KeyView<'a>>) -> Option<RowView<'a>>
    requires { option_map lent_key_view key ≡ given_some (flag_of call.now.has_credential) (key_of call.now.credential.key) }
    ensures { option_map credential_view result ≡ (judged_sign_in call.now).credential }
{
    let credential = &call.credential;
    let eligible = if credential.is_eligibility_known != 0 {
        Some(credential.eligible != 0)
    } else {
        None
    };
    match key {
        Some(key) => Some(RowView {
            id: credential.id,
            user: credential.user,
            key,
            sign_count: credential.sign_count,
            eligible,
            retired: credential.retired != 0,
        }),
        None => None,
    }
}

/// The client's answer.
fn response<'a, 'b: 'a>(call: &AssertionCall<'b>) -> AssertionParts<'a>
    ensures { assertion_parts_view result ≡ (judged_sign_in call.now).response }
{
    let parts = &call.response;
    AssertionParts {
        credential: parts.credential,
        user: if parts.has_user != 0 {
            Some(parts.user)
        } else {
            None
        },
        auth_data: parts.auth_data,
        signature: parts.signature,
        client_data: parts.client_data,
    }
}

/// Judges a sign-in by what was passed.
fn verified<'a>(
    alloc: Global,
    call: &AssertionCall<'a>,
    party: &RelyingParty,
    session: Option<&SignInSession>,
    key: Option<KeyView<'_>>,
    verifier: &HostVerifier<'_>,
) -> Result<VerifiedAssertion<'a>, Refusal>
    requires party { party.now ≡ party_of call.now.party }
    requires session { option_map (λ s. sign_in_view s.now) session ≡ (judged_sign_in call.now).session }
    requires key { option_map lent_key_view key ≡ given_some (flag_of call.now.has_credential) (key_of call.now.credential.key) }
    requires verified { option_map lent_signature_view verifier.now.verified ≡ verified_in (flag_of call.now.has_verified) call.now.verified }
    requires limits { Each (SignInKeeps call.now) sign_in_limits }
    ensures accepted { OnOk result (PassesSignIn (sign_in_validity call.now) (judged_sign_in call.now)) }
    ensures read { IfOk result (IsVerifiedSignIn (judged_sign_in call.now)) }
    ensures refused { IfErr result (IsRefused call.now) }
{
    let attempt = SignInAttempt {
        party,
        session,
        credential: row(call, key),
        response: response(call),
    };
    match verify_assertion(alloc, verifier, &attempt) {
        Ok(verified) => Ok(verified),
        Err(VerificationError::Refused(step)) => Err(Refusal::Step(step)),
        Err(VerificationError::Memory) => Err(Refusal::Input(InputFault::Memory)),
    }
}

/// Judges a sign-in.
fn judge<'a>(alloc: Global, call: &AssertionCall<'a>) -> Result<VerifiedAssertion<'a>, Refusal>
    ensures accepted { OnOk result (PassesSignIn (sign_in_validity call.now) (judged_sign_in call.now)) }
    ensures read { IfOk result (IsVerifiedSignIn (judged_sign_in call.now)) }
    ensures limits { OnOk result (Each (SignInKeeps call.now) sign_in_limits) }
    ensures refused { IfErr result (IsRefused call.now) }
{
    let party = party_from(alloc, &call.party)?;
    let session = expected(alloc, call)?;
    let key = credential_key(call)?;
    let verifier = sign_in_verifier(call)?;
    verified(alloc, call, &party, session.as_ref(), key, &verifier)
}

/// Judges a sign-in: 0 where each step of section 7.2 is passed, the only valid signature being the one that the host
/// verified, and then what it says is written; else 1 to 18 for the first step that is not passed, 100 and up for a
/// member that is out of its limits, 127 where there was no memory, and nothing is written.
pub fn passkey_assertion(alloc: Global, call: &AssertionCall<'_>, out: &mut AssertionOut) -> u32
    ensures { IsAssertion call.now out.old out.new result }
{
    match judge(alloc, call) {
        Ok(verified) => {
            tell_data(&verified.auth_data, out);
            ACCEPTED
        }
        Err(Refusal::Step(step)) => u32::from(step.number()),
        Err(Refusal::Input(fault)) => fault.number(),
    }
}
