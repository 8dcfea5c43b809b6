//! Finishing a ceremony.

ghost use Rattle.std.specs.Prelude.{◌≡◌, ◌⊎◌, false, pos};
ghost use Rattle.site_rows.specs.Calls.{IsQuiet};
ghost use Rattle.site_stored.specs.Causes.{AreUnknownEndings, IsDamaged, IsUnknownEnding, RefusesEnding, RefusesRegistered, RefusesSignedIn};
ghost use Rattle.site_stored.specs.State.{ended_session_tree};
ghost use Rattle.authdata.specs.Responses.{assertion_response_view};
ghost use Rattle.site_lines.specs.Named.{named_response};
ghost use Rattle.verification.specs.Views.{assertion_parts_view, registration_parts_view};
ghost use Rattle.site_lines.specs.Answers.{Keeps, TellsRegistration, TellsSignIn};
ghost use Rattle.site_state.specs.Details.{detail_view};
ghost use Rattle.site_lines.specs.Causes.{FailsBy, RefusesFinish};
ghost use Rattle.site_lines.specs.Details.{RegistersDetail, UsesDetail, new_detail};
ghost use Rattle.site_lines.specs.Private.{IsRefusedRegistration, IsRefusedSignIn};

use crate::answer::Answer;
use crate::knowing::detail_of;
use authdata::{AssertionResponse, Profile};
use json_lines::LineError;
use site_acts::{FinishRegistration, FinishSignIn, registration_asks, sign_in_asks};
use site_state::Detail;
use site_stored::{FinishFailure, StoredSite};
use sqlite_trees::store::Store;
use std::alloc::Global;
use verification::{
    AssertionParts, RegistrationParts, RegistrationRefusal, SignInRefusal, VerificationError,
};

/// A sign-in's response, lent.
fn assertion_parts(response: &AssertionResponse) -> AssertionParts<'_>
    ensures { assertion_parts_view result ≡ assertion_response_view response.now }
{
    AssertionParts {
        credential: response.credential.as_slice(),
        user: response.user.as_deref(),
        auth_data: response.auth_data.as_slice(),
        signature: response.signature.as_slice(),
        client_data: response.client_data.as_slice(),
    }
}

/// A registration's response, lent, with the id that the client names.
fn registration_parts(finish: &FinishRegistration) -> RegistrationParts<'_>
    ensures { registration_parts_view result ≡ named_response finish.now }
{
    RegistrationParts {
        object: finish.response.object.as_slice(),
        client_data: finish.response.client_data.as_slice(),
        raw_id: Some(finish.credential.as_slice()),
    }
}

/// What is answered where a step refuses a sign-in: which signature is to be verified, where the host has verified nothing
/// yet and that is the step, or else the step. So it is answered too where the host found the signature invalid.
fn refused_sign_in<S: Store>(
    alloc: Global,
    site: &mut StoredSite<S>,
    step: SignInRefusal,
    finish: FinishSignIn,
) -> Answer
    ensures told { IsRefusedSignIn S.Store.view step finish site.old site.new result }
    ensures kept { Keeps S.Store.view site.old site.new result }
    ensures cause { FailsBy S.Store.view S.Store.faults site.old site.new ⊥ (IsDamaged (S.Store.view site.old.store).trees) result }
    ensures quiet { IsQuiet S.Store site.old.store site.new.store }
{
    let response = finish.response;
    if step != SignInRefusal::BadSignature || !finish.verified.is_nothing() {
        return Answer::SignInRefused(step, response.credential);
    }
    match site.credential(response.credential.as_slice()) {
        Ok(Some(row)) => match sign_in_asks(alloc, &row, &response) {
            Ok(signature) => Answer::Verify(signature),
            Err(_) => Answer::Error(LineError::Memory),
        },
        Ok(None) => Answer::SignInRefused(step, response.credential),
        Err(why) => Answer::Failed(why),
    }
}

/// What is answered where a step refuses a registration: which signature is to be verified, or the step.
fn refused_registration(
    alloc: Global,
    profile: Profile,
    step: RegistrationRefusal,
    finish: FinishRegistration,
) -> Answer
    ensures { IsRefusedRegistration profile step finish result }
{
    if step != RegistrationRefusal::BadStatement || !finish.verified.is_nothing() {
        return Answer::RegistrationRefused(step, finish.credential);
    }
    match registration_asks(alloc, profile, &finish.response) {
        Ok(Some(signature)) => Answer::Verify(signature),
        Ok(None) => Answer::RegistrationRefused(step, finish.credential),
        Err(_) => Answer::Error(LineError::Memory),
    }
}

/// Finishes a sign-in, or asks for its signature.
pub(crate) fn finish_sign_in<S: Store>(
    alloc: Global,
    site: &mut StoredSite<S>,
    now: u64,
    finish: FinishSignIn,
) -> Answer
    requires live { site.old.is_shut ≡ false }
    ensures told { TellsSignIn S.Store.view finish now site.old site.new result }
    ensures details { UsesDetail S.Store.view now finish site.old site.new result }
    ensures kept { Keeps S.Store.view site.old site.new result }
    ensures cause { FailsBy S.Store.view S.Store.faults site.old site.new (RefusesSignedIn (S.Store.view site.old.store) site.old.rp.profile (assertion_response_view finish.response) (pos now) ⊎ RefusesEnding ended_session_tree (S.Store.view site.old.store)) (IsDamaged (S.Store.view site.old.store).trees ⊎ IsUnknownEnding ended_session_tree (S.Store.view site.old.store).trees) result }
    ensures quiet { IsQuiet S.Store site.old.store site.new.store }
{
    let parts = assertion_parts(&finish.response);
    let verifier = finish.verified.verifier();
    match site.finish_parts(&verifier, finish.session.as_slice(), &parts, now) {
        Ok(signed_in) => Answer::SignedIn(signed_in),
        Err(FinishFailure::Site(VerificationError::Refused(step))) => {
            refused_sign_in(alloc, site, step, finish)
        }
        Err(FinishFailure::Site(VerificationError::Memory)) => Answer::Error(LineError::Memory),
        Err(FinishFailure::Store(why)) => Answer::Failed(why),
    }
}

/// Finishes a registration of a credential with this detail, or asks for its signature.
fn finish_with<S: Store>(
    alloc: Global,
    site: &mut StoredSite<S>,
    now: u64,
    finish: FinishRegistration,
    detail: Detail,
) -> Answer
    requires live { site.old.is_shut ≡ false }
    ensures told { TellsRegistration S.Store.view finish now site.old site.new result }
    ensures details { RegistersDetail S.Store.view (detail_view detail) site.old site.new result }
    ensures kept { Keeps S.Store.view site.old site.new result }
    ensures cause { FailsBy S.Store.view S.Store.faults site.old site.new (RefusesRegistered (S.Store.view site.old.store) site.old (named_response finish) (detail_view detail) ⊎ RefusesEnding ended_session_tree (S.Store.view site.old.store)) (IsDamaged (S.Store.view site.old.store).trees ⊎ AreUnknownEndings (S.Store.view site.old.store).trees) result }
    ensures quiet { IsQuiet S.Store site.old.store site.new.store }
{
    let parts = registration_parts(&finish);
    let verifier = finish.verified.verifier();
    match site.finish_registration_parts(
        &verifier,
        finish.session.as_slice(),
        &parts,
        detail,
        now,
    ) {
        Ok(registered) => Answer::Registered(registered),
        Err(FinishFailure::Site(VerificationError::Refused(step))) => {
            refused_registration(alloc, site.party().profile(), step, finish)
        }
        Err(FinishFailure::Site(VerificationError::Memory)) => Answer::Error(LineError::Memory),
        Err(FinishFailure::Store(why)) => Answer::Failed(why),
    }
}

/// Finishes a registration, or asks for its signature.
#[tactic(auto, using(crate::proofs::Kept::same_site))]
pub(crate) fn finish_registration<S: Store>(
    alloc: Global,
    site: &mut StoredSite<S>,
    now: u64,
    finish: FinishRegistration,
) -> Answer
    requires live { site.old.is_shut ≡ false }
    ensures told { TellsRegistration S.Store.view finish now site.old site.new result }
    ensures details { RegistersDetail S.Store.view (new_detail now finish) site.old site.new result }
    ensures kept { Keeps S.Store.view site.old site.new result }
    ensures cause { FailsBy S.Store.view S.Store.faults site.old site.new (RefusesFinish (S.Store.view site.old.store) site.old now finish) (IsDamaged (S.Store.view site.old.store).trees ⊎ AreUnknownEndings (S.Store.view site.old.store).trees) result }
    ensures quiet { IsQuiet S.Store site.old.store site.new.store }
{
    match detail_of(alloc, now, &finish) {
        Ok(detail) => finish_with(alloc, site, now, finish, detail),
        Err(_) => Answer::Error(LineError::Memory),
    }
}
