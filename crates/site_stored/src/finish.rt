//! Finishing a sign-in (WebAuthn Level 2, section 7.2).

ghost use Rattle.std.specs.Prelude.{◌≡◌, ◌⊎◌, ◌∷◌, IfErr, IfNone, IfOk, IfSome, IsErrOf, OnOk, false, option_map, pos, true};
ghost use Rattle.sqlite_trees.specs.View.{IsClean};
ghost use Rattle.authdata.specs.Flags.{is_set, BE};
ghost use Rattle.authdata.specs.Layout.{lent_auth_view};
ghost use Rattle.site_stored.specs.Summaries.{Summarises};
ghost use Rattle.verification.specs.SignInAnswers.{IsRefused};
ghost use Rattle.verification.specs.Views.{assertion_parts_view, credential_view, sign_in_view};
ghost use Rattle.site_state.specs.Table as table;
ghost use Rattle.site_rows.specs.Held.{Placed};
ghost use Rattle.site_rows.specs.Details.{Details, HoldsDetails};
ghost use Rattle.site_rows.specs.Trees.{detail_tree};
ghost use Rattle.site_rows.specs.Endings.{Endings, HoldsEndings};
ghost use Rattle.site_seal.specs.Seal.{SealedSignIn, sign_in};
ghost use Rattle.site_seal.specs.Views.{ceremony_view, sealed_view};
ghost use Rattle.site_stored.specs.Sessions.{EndsSession, accepted, user_of};
ghost use Rattle.site_stored.specs.State.{FitsColumn, IsHeld, ended_session_tree};
ghost use Rattle.site_stored.specs.Calls.{IsNotFinished, IsOneSite, KeepsBeside, RefusesSignIn, SignsIn, TellsUsed, credential_trees};
ghost use Rattle.site_stored.specs.Causes.{IsDamaged, IsUnknownEnding, RefusesEnding, RefusesSignedIn, FinishFails};
ghost use Rattle.site_stored.specs.Private.{ExpectsAs, IsStopped, RefusesFound, SignsInAs, credential_of, judged, IsOpenStore, KeepsNumbers, LeavesStore};
ghost use Rattle.site_stored.specs.declared.failure.Failure.TheVariants as failures;
ghost use Rattle.site_stored.specs.declared.failure.FinishFailure.TheVariants as finishes;
ghost use Rattle.site_rows.specs.Calls.{IsQuiet};

use crate::failure::{Failure, FinishFailure};
use crate::kept::StoredSite;
use crate::session::{ACCEPTED, Given, end_session, open_session};
use crate::site_store::SiteStore;
use crate::summary::{Summary, summary_of};
use authdata::AuthView;
use cose::Verifier;
use site_rows::{Found, lent};
use site_seal::{OpenedCeremony, OpenedSignIn};
use sqlite_trees::store::Store;
use std::alloc::Global;
use verification::{
    AssertionParts, RelyingParty, RowView, SignInAttempt, SignInRefusal, SignInSession,
    VerificationError, VerifiedAssertion, verify_assertion,
};

/// Who signed in, and with which credential.
#[derive(Debug, Drop)]
pub struct SignedIn {
    /// The user handle of the credential's account.
    pub user: Vec<u8>,
    /// The credential id.
    pub credential: Vec<u8>,
    /// What the authenticator data say.
    pub summary: Summary,
}

/// Copies of the user handle and of the credential id, and the summary of the authenticator data.
fn signed_in(
    alloc: Global,
    user: &[u8],
    credential: &[u8],
    auth_data: &AuthView<'_>,
) -> Result<SignedIn, VerificationError<SignInRefusal>>
    ensures copied { IfOk result (λ x. (x.user.items ≡ user.now) × (x.credential.items ≡ credential.now) × Summarises x.summary (lent_auth_view auth_data.now)) }
    ensures memory { IfErr result (λ e. e ≡ VerificationError.Memory) }
{
    Ok(SignedIn {
        user: Vec::from_slice(alloc, user)?,
        credential: Vec::from_slice(alloc, credential)?,
        summary: summary_of(alloc, auth_data)?,
    })
}

/// The credential that was found.
fn credential_in(found: &Option<Found>) -> Option<RowView<'_>>
    ensures { option_map credential_view result ≡ credential_of found.now }
{
    match found {
        Some(found) => Some(lent(&found.credential)),
        None => None,
    }
}

/// A credential after a sign-in.
fn counted<'a>(row: RowView<'a>, verified: &VerifiedAssertion<'_>) -> RowView<'a>
    ensures { credential_view result ≡ table.signed_in verified.now.auth_data.sign_count (is_set verified.now.auth_data.flags BE) (credential_view row.entry) }
{
    RowView {
        sign_count: verified.auth_data.sign_count,
        eligible: Some(verified.eligible()),
        ..row
    }
}

/// The open session for sign-in, of what a text says of it.
fn sign_in_of(given: &Given) -> Option<&OpenedSignIn>
    ensures some { IfSome result (λ s. ceremony_view given.now.opened.ceremony ≡ sign_in (sealed_view s.now)) }
    ensures none { IfNone result ((x : SealedSignIn) → ceremony_view given.now.opened.ceremony ≡ sign_in x → ⊥) }
{
    match &given.opened.ceremony {
        OpenedCeremony::SignIn(session) => Some(session),
        OpenedCeremony::Registration(_) => None,
    }
}

/// The user of the credential that was found; no bytes where none was.
fn user_of(found: &Option<Found>) -> &[u8]
    ensures { result.now ≡ user_of (credential_of found.now) }
{
    match found {
        Some(found) => &found.credential.user,
        None => &[],
    }
}

/// What an open session expects of the credential that was found for this id.
fn expected_of(
    alloc: Global,
    key: &[u8; 32],
    given: &Option<Given>,
    found: &Option<Found>,
    id: &[u8],
) -> Result<Option<SignInSession>, VerificationError<SignInRefusal>>
    ensures expected { IfOk result (λ e. ExpectsAs key.now given.now (user_of (credential_of found.now)) id.now (option_map sign_in_view e)) }
    ensures memory { IfErr result (λ e. e ≡ VerificationError.Memory) }
{
    let Some(given) = given else {
        return Ok(None);
    };
    match sign_in_of(given) {
        Some(session) => Ok(Some(session.expected(alloc, key, user_of(found), id)?)),
        None => Ok(None),
    }
}

/// Judges a response with what was found for it, and writes what it changes of the credential and of its detail.
fn sign_in_found<S: Store, V: Verifier>(
    party: &RelyingParty,
    session: Option<&SignInSession>,
    held: &mut SiteStore<S>,
    verifier: &V,
    response: &AssertionParts<'_>,
    found: &Option<Found>,
    now: u64,
) -> Result<SignedIn, FinishFailure<SignInRefusal>>
    requires ready { IsOpenStore S.Store held.old }
    requires fits { IfSome session (λ _. FitsColumn now) }
    ensures accepted { IfOk result (λ x. SignsInAs (V.valid verifier.now) party.now (option_map (λ e. sign_in_view e.now) session.entry) found.now
        (assertion_parts_view response.now) (pos now) x (S.Store.view held.old.store) (S.Store.view held.new.store)) }
    ensures refused { IfErr result (IsStopped (held.new ≡ held.old) held.new.is_shut (IsRefused (V.valid verifier.now)
        (judged party.now (option_map (λ e. sign_in_view e.now) session.entry) found.now (assertion_parts_view response.now)))) }
    ensures leaves { LeavesStore S.Store held.old held.new result }
    ensures reserved { KeepsNumbers held.old held.new }
    ensures reals { (S.Store.view held.new.store).reals ≡ (S.Store.view held.old.store).reals }
    ensures cause { FinishFails S.Store held.old.store held.new.store
        (RefusesFound (S.Store.view held.old.store) party.now.profile found.now (assertion_parts_view response.now) (pos now)) ⊥ result }
{
    let alloc = held.alloc;
    let verified = verify_assertion(
        alloc,
        verifier,
        &SignInAttempt {
            party,
            session,
            credential: credential_in(found),
            response: *response,
        },
    )?;
    let found = found.as_ref().unwrap();
    let credential = lent(&found.credential);
    let signed_in = signed_in(
        alloc,
        credential.user,
        response.credential,
        &verified.auth_data,
    )?;
    held.set(found.place, &counted(credential, &verified))?;
    held.mark_used(found.place, now as i64)?;
    Ok(signed_in)
}

impl<S: Store> StoredSite<S> {
    /// Finishes a sign-in in the session of a text, at this second of the host's clock: the response's credential keeps the counter and the
    /// mark of eligibility that came, its detail this second as that of its last use, and the session has ended. Commit before
    /// you answer.
    ///
    /// `Site` with the first step of section 7.2 that the response does not pass in this session, or if memory runs out: a text that is
    /// not that of an open session for sign-in has none. Then nothing has changed: the session is open.
    pub fn finish_parts<V: Verifier>(
        &mut self,
        verifier: &V,
        text: &[u8],
        response: &AssertionParts<'_>,
        now: u64,
    ) -> Result<SignedIn, FinishFailure<SignInRefusal>>
        ensures accepted { IfOk result (λ x. IsClean (S.Store.view self.new.store) → (placed : Placed) → IsHeld placed self.old (S.Store.view self.old.store).trees
            → (ended : Endings) → HoldsEndings ended_session_tree ended (S.Store.view self.old.store).trees
            → (after : Placed) × SignsIn (V.valid verifier.now) placed ended self.old now text.now (assertion_parts_view response.now) x after
            × IsHeld after self.new (S.Store.view self.new.store).trees) }
        ensures ended { OnOk result (IsClean (S.Store.view self.new.store) → (placed : Placed) → IsHeld placed self.old (S.Store.view self.old.store).trees
            → (ended : Endings) → HoldsEndings ended_session_tree ended (S.Store.view self.old.store).trees → (after : Endings) × EndsSession self.old accepted now text.now ended after × HoldsEndings ended_session_tree after (S.Store.view self.new.store).trees) }
        ensures beside { OnOk result (IsClean (S.Store.view self.new.store) → (placed : Placed) → IsHeld placed self.old (S.Store.view self.old.store).trees
            → KeepsBeside (ended_session_tree ∷ detail_tree ∷ credential_trees) (S.Store.view self.old.store).trees (S.Store.view self.new.store).trees) }
        ensures used { OnOk result (IsClean (S.Store.view self.new.store) → (placed : Placed) → IsHeld placed self.old (S.Store.view self.old.store).trees
            → (details : Details) → HoldsDetails details (S.Store.view self.old.store).trees
            → TellsUsed placed response.now.credential.now (pos now) details (S.Store.view self.new.store).trees) }
        ensures one { OnOk result (IsOneSite self.old self.new × (self.new.is_shut ≡ false) × (self.new.next ≡ self.old.next)) }
        ensures refused { IfErr result (IsNotFinished S.Store.view self.old self.new (λ why. IsClean (S.Store.view self.new.store) → (placed : Placed)
            → IsHeld placed self.old (S.Store.view self.old.store).trees → (ended : Endings) → HoldsEndings ended_session_tree ended (S.Store.view self.old.store).trees
            → RefusesSignIn (V.valid verifier.now) placed ended self.old now text.now (assertion_parts_view response.now) why)) }
        ensures shut { self.old.is_shut ≡ true → IsErrOf result (finishes.Store failures.Shut) }
        ensures cause { FinishFails S.Store self.old.store self.new.store
            (RefusesSignedIn (S.Store.view self.old.store) self.old.rp.profile (assertion_parts_view response.now) (pos now) ⊎ RefusesEnding ended_session_tree (S.Store.view self.old.store))
            (IsDamaged (S.Store.view self.old.store).trees ⊎ IsUnknownEnding ended_session_tree (S.Store.view self.old.store).trees) result }
        ensures quiet { IsQuiet S.Store self.old.store self.new.store }
    {
        if self.held.is_shut {
            return Err(FinishFailure::Store(Failure::Shut));
        }
        let given = open_session(&self.key, &self.party, self.next, &mut self.held, text, now)?;
        let found = self.held.find(response.credential)?;
        let expected = expected_of(
            self.held.alloc,
            &self.key,
            &given,
            &found,
            response.credential,
        )?;
        let signed_in = sign_in_found(
            &self.party,
            expected.as_ref(),
            &mut self.held,
            verifier,
            response,
            &found,
            now,
        )?;
        let given = given.as_ref().unwrap();
        end_session(&mut self.held, given, ACCEPTED, now)?;
        Ok(signed_in)
    }
}
