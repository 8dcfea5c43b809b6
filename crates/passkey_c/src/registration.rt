//! Registrations (WebAuthn Level 2, section 7.1).

ghost use Rattle.std.specs.Prelude.{◌≡◌, IfErr, IfOk, OnOk, option_map};
ghost use Rattle.refusal_order.specs.Lines.{Each};
ghost use Rattle.verification.specs.Registration.{PassesRegistration, PassesRegistrationStep, response_steps};
ghost use Rattle.verification.specs.RegistrationAnswers.{IsVerifiedRegistration};
ghost use Rattle.verification.specs.Views.{registration_view};
ghost use Rattle.verification.specs.Signed.{lent_signature_view};
ghost use Rattle.passkey_c.specs.Answers.{IsRegistration};
ghost use Rattle.passkey_c.specs.declared.registration.Refusal.TheVariants as refusals;
ghost use Rattle.passkey_c.specs.Limits.{IsFault, RegistrationKeeps, registration_limits};
ghost use Rattle.passkey_c.specs.Parts.{flag_of, offered, party_of, verified_in};
ghost use Rattle.passkey_c.specs.Registrations.{IsRefused, judged_registration, registration_validity};

use crate::answers::{ACCEPTED, InputFault, Limit};
use crate::input::{KeyLimit, exactly_32, party_from};
use crate::parts::{RegistrationCall, RegistrationOut};
use crate::seen::tell_registration;
use crate::signature::verifier_from;
use cose::Alg;
use std::alloc::{AllocError, Global};
use verification::{
    HostVerifier, Policy, RegistrationAttempt, RegistrationParts, RegistrationRefusal,
    RegistrationSession, RelyingParty, VerificationError, VerifiedRegistration,
    verify_registration,
};

/// Why a registration is not accepted.
#[derive(Clone, Copy, Debug, PartialEq, Eq, Drop)]
enum Refusal {
    Input(InputFault),
    Step(RegistrationRefusal),
}

impl From<InputFault> for Refusal {
    ghost from_gives = { λ fault e. e ≡ refusals.Input fault };

    fn from(fault: InputFault) -> Refusal {
        Refusal::Input(fault)
    }
}

/// The algorithms that were offered.
fn algorithms(alloc: Global, es256: bool, eddsa: bool, rs256: bool) -> Result<Vec<Alg>, AllocError>
    ensures { IfOk result (λ algorithms. algorithms.items ≡ offered es256 eddsa rs256) }
{
    match (es256, eddsa, rs256) {
        (true, true, true) => Vec::from_slice(alloc, &[Alg::Es256, Alg::EdDsa, Alg::Rs256]),
        (true, true, false) => Vec::from_slice(alloc, &[Alg::Es256, Alg::EdDsa]),
        (true, false, true) => Vec::from_slice(alloc, &[Alg::Es256, Alg::Rs256]),
        (true, false, false) => Vec::from_slice(alloc, &[Alg::Es256]),
        (false, true, true) => Vec::from_slice(alloc, &[Alg::EdDsa, Alg::Rs256]),
        (false, true, false) => Vec::from_slice(alloc, &[Alg::EdDsa]),
        (false, false, true) => Vec::from_slice(alloc, &[Alg::Rs256]),
        (false, false, false) => Ok(Vec::new(alloc)),
    }
}

/// The session that is passed.
fn expected(
    alloc: Global,
    call: &RegistrationCall<'_>,
) -> Result<Option<RegistrationSession>, InputFault>
    ensures found { IfOk result (λ session. option_map registration_view session ≡ (judged_registration call.now).session) }
    ensures challenge { OnOk result (RegistrationKeeps call.now Limit.Challenge) }
    ensures refused { IfErr result (IsFault (RegistrationKeeps call.now)) }
{
    if call.has_session == 0 {
        return Ok(None);
    }
    let Some(challenge) = exactly_32(call.session.challenge) else {
        return Err(InputFault::Limit(Limit::Challenge));
    };
    let algorithms = algorithms(
        alloc,
        call.session.offers_es256 != 0,
        call.session.offers_eddsa != 0,
        call.session.offers_rs256 != 0,
    )?;
    let user = Vec::from_slice(alloc, call.session.user)?;
    Ok(Some(RegistrationSession {
        user,
        algorithms,
        uv: call.session.user_verification != 0,
        challenge,
        conditional: call.session.conditional != 0,
        attestation: call.session.attestation != 0,
    }))
}

/// The verifier of the signature that the host verified.
fn registration_verifier<'a>(call: &RegistrationCall<'a>) -> Result<HostVerifier<'a>, InputFault>
    ensures found { IfOk result (λ verifier. option_map lent_signature_view verifier.verified ≡ verified_in (flag_of call.now.has_verified) call.now.verified) }
    ensures algorithm { OnOk result (RegistrationKeeps call.now Limit.VerifiedAlgorithm) }
    ensures x { OnOk result (RegistrationKeeps call.now Limit.VerifiedX) }
    ensures y { OnOk result (RegistrationKeeps call.now Limit.VerifiedY) }
    ensures refused { IfErr result (IsFault (RegistrationKeeps call.now)) }
{
    match verifier_from(call.has_verified != 0, &call.verified) {
        Ok(verifier) => Ok(verifier),
        Err(KeyLimit::Algorithm) => Err(InputFault::Limit(Limit::VerifiedAlgorithm)),
        Err(KeyLimit::X) => Err(InputFault::Limit(Limit::VerifiedX)),
        Err(KeyLimit::Y) => Err(InputFault::Limit(Limit::VerifiedY)),
    }
}

/// Judges a registration by its response.
fn verified<'a>(
    alloc: Global,
    call: &RegistrationCall<'a>,
    party: &RelyingParty,
    session: Option<&RegistrationSession>,
    verifier: &HostVerifier<'_>,
) -> Result<VerifiedRegistration<'a>, Refusal>
    requires party { party.now ≡ party_of call.now.party }
    requires session { option_map (λ s. registration_view s.now) session ≡ (judged_registration call.now).session }
    requires verified { option_map lent_signature_view verifier.now.verified ≡ verified_in (flag_of call.now.has_verified) call.now.verified }
    requires limits { Each (RegistrationKeeps call.now) registration_limits }
    ensures accepted { IfOk result (λ v. IsVerifiedRegistration (judged_registration call.now) v
        × Each (PassesRegistrationStep (registration_validity call.now) (judged_registration call.now)) response_steps) }
    ensures refused { IfErr result (IsRefused call.now) }
{
    let attempt = RegistrationAttempt {
        party,
        policy: Policy {
            accept_none: call.accept_none != 0,
            accept_self: call.accept_self != 0,
        },
        session,
        response: RegistrationParts {
            object: call.response.object,
            client_data: call.response.client_data,
            raw_id: Some(call.raw_id),
        },
    };
    match verify_registration(alloc, verifier, &attempt) {
        Ok(verified) => Ok(verified),
        Err(VerificationError::Refused(step)) => Err(Refusal::Step(step)),
        Err(VerificationError::Memory) => Err(Refusal::Input(InputFault::Memory)),
    }
}

/// Judges a registration.
fn judge<'a>(
    alloc: Global,
    call: &RegistrationCall<'a>,
) -> Result<VerifiedRegistration<'a>, Refusal>
    ensures attested { IfOk result (IsVerifiedRegistration (judged_registration call.now)) }
    ensures accepted { OnOk result (PassesRegistration (registration_validity call.now) (judged_registration call.now)) }
    ensures limits { OnOk result (Each (RegistrationKeeps call.now) registration_limits) }
    ensures refused { IfErr result (IsRefused call.now) }
{
    let party = party_from(alloc, &call.party)?;
    let session = expected(alloc, call)?;
    let verifier = registration_verifier(call)?;
    let verified = verified(alloc, call, &party, session.as_ref(), &verifier)?;
    match verified.admit(call.is_free == 0, call.is_full != 0) {
        Ok(_) => Ok(verified),
        Err(step) => Err(Refusal::Step(step)),
    }
}

/// Judges a registration: 0 where each step of section 7.1 is passed, the only valid signature being the one that the
/// host verified, and then what it attests is written; else 1 to 19 for the first step that is not passed, 100 and up for
/// a member that is out of its limits, 127 where there was no memory, and nothing is written.
pub fn passkey_registration(
    alloc: Global,
    call: &RegistrationCall<'_>,
    out: &mut RegistrationOut,
) -> u32
    ensures { IsRegistration call.now out.old out.new result }
{
    match judge(alloc, call) {
        Ok(verified) => {
            tell_registration(&verified, out);
            ACCEPTED
        }
        Err(Refusal::Step(step)) => u32::from(step.number()),
        Err(Refusal::Input(fault)) => fault.number(),
    }
}
