//! Finishing a registration (WebAuthn Level 2, section 7.1).

ghost use Rattle.std.specs.Prelude.{◌≡◌, ◌∷◌, ◌<◌, ◌+◌, ◌&&◌, ◌⊎◌, ◌↔◌, IfErr, IfNone, IfSome, IsTrue, IfOk, IsErrOf, IsSome, OnOk, Some, false, option_map, true, nat_lt, not, string_bytes};
ghost use Rattle.std.specs.FinMap as finite;
ghost use Rattle.sqlite_trees.specs.View.{IsClean};
ghost use Rattle.verification.specs.Records.{ExpectedRegistration};
ghost use Rattle.verification.specs.RegistrationAnswers.{IsVerifiedRegistration, new_credential};
ghost use Rattle.verification.specs.Registration.{JudgedRegistration, PassesRegistrationStep, table_steps};
ghost use Rattle.verification.specs.Views.{admitted_view, registration_parts_view, registration_view};
ghost use Rattle.refusal_order.specs.Lines.{Each, FirstFailing};
ghost use Rattle.verification.specs.Shared.{never};
ghost use Rattle.site_state.specs.RowViews.{row_view};
ghost use Rattle.site_rows.specs.Held.{IsSameView, Placed};
ghost use Rattle.site_rows.specs.Details.{Details, HoldsDetails};
ghost use Rattle.site_state.specs.Details.{detail_view};
ghost use Rattle.site_stored.specs.Summaries.{Summarises, with_aaguid};
ghost use Rattle.site_rows.specs.Trees.{detail_tree};
ghost use Rattle.site_rows.specs.Endings.{Endings, HoldsEndings};
ghost use Rattle.site_seal.specs.Seal.{registration};
ghost use Rattle.site_seal.specs.Views.{ceremony_view, session_view};
ghost use Rattle.site_stored.specs.Sessions.{EndsSession, IsCutOff, accepted};
ghost use Rattle.site_stored.specs.State.{FitsColumn, IsHeld, ended_session_tree, ended_user_tree};
ghost use Rattle.site_stored.specs.Calls.{IsNotFinished, IsOneSite, KeepsBeside, RefusesRegistration, Registers, credential_trees};
ghost use Rattle.site_stored.specs.Causes.{AreUnknownEndings, IsCaused, IsDamaged, IsUnknownEnding, RefusesEnding, RefusesRegistered, FinishFails, SiteFails};
ghost use Rattle.site_stored.specs.Private.{Admits, AwaitsAs, IsNotAdmitted, IsOpenIn, IsRegistrationIn, IsStopped, admitted_as, IfSessionStore, IsOpenStore, KeepsNumbers, ReadsSession, ReadsStore};
ghost use Rattle.site_stored.specs.declared.failure.Failure.TheVariants as failures;
ghost use Rattle.site_stored.specs.declared.failure.FinishFailure.TheVariants as finishes;
ghost use Rattle.site_rows.specs.Calls.{IsQuiet};

use crate::failure::{Failure, FinishFailure};
use crate::kept::StoredSite;
use crate::session::{ACCEPTED, Given, SessionFailure, end_session, open_session};
use crate::site_store::SiteStore;
use crate::summary::{Summary, summary_of};
use crate::trees::ENDED_USER_TREE;
use cose::Verifier;
use site_rows::lent;
use site_seal::{OpenedCeremony, user_number};
use site_state::{Detail, Row};
use sqlite_trees::store::Store;
use std::alloc::Global;
use verification::{
    AdmittedCredential, Policy, RegistrationAttempt, RegistrationParts, RegistrationRefusal,
    RegistrationSession, RelyingParty, VerificationError, VerifiedRegistration,
    verify_registration,
};

/// The credential that was registered.
#[derive(Debug, Drop)]
pub struct Registered {
    /// The credential, as it is stored.
    pub credential: Row,
    /// What the authenticator data say beside.
    pub summary: Summary,
    /// The kind of the authenticator.
    pub aaguid: [u8; 16],
    /// The format of what counts as the attestation object: `none`, in Level 3 also where no attestation was asked for, or `packed`.
    pub format: String,
}

/// A registration that passes each step, and its credential.
#[derive(Drop)]
struct Judged<'r> {
    verified: VerifiedRegistration<'r>,
    credential: AdmittedCredential<'r>,
}

/// Whether there is no room for another credential.
fn is_full(count: u32, most: u32, last: u32) -> bool
    ensures { result ≡ not (nat_lt count most && nat_lt last 4294967295) }
{
    !(count < most && last < u32::MAX)
}

/// The last two steps, whose refusals are a site's.
fn admit<'r>(
    verified: &VerifiedRegistration<'r>,
    is_registered: bool,
    is_full: bool,
) -> Result<AdmittedCredential<'r>, FinishFailure<RegistrationRefusal>>
    ensures admitted { IfOk result (λ c. admitted_view c ≡ new_credential verified.now) }
    ensures passes { OnOk result ((x : JudgedRegistration) → IsVerifiedRegistration x verified.now → x.is_registered verified.now.credential.id ≡ is_registered
        → x.is_full ≡ is_full → Each (PassesRegistrationStep never x) table_steps) }
    ensures refused { IfErr result (λ e. (w : _) × (e ≡ finishes.Site (VerificationError.Refused w)) × ((x : JudgedRegistration) → IsVerifiedRegistration x verified.now
        → x.is_registered verified.now.credential.id ≡ is_registered → x.is_full ≡ is_full → FirstFailing (PassesRegistrationStep never x) table_steps w)) }
{
    match verified.admit(is_registered, is_full) {
        Ok(admitted) => Ok(admitted),
        Err(step) => Err(FinishFailure::Site(VerificationError::Refused(step))),
    }
}

/// Judges a response, by whether a credential has its id and there is room.
fn judge<'r, S: Store, V: Verifier>(
    party: &RelyingParty,
    policy: Policy,
    session: Option<&RegistrationSession>,
    held: &mut SiteStore<S>,
    is_full: bool,
    verifier: &V,
    response: &RegistrationParts<'r>,
) -> Result<Judged<'r>, FinishFailure<RegistrationRefusal>>
    requires ready { IsOpenStore S.Store held.old }
    ensures accepted { IfOk result (λ j. Admits (V.valid verifier.now) party.now policy (option_map (λ e. registration_view e.now) session.entry)
        (registration_parts_view response.now) is_full j.verified (S.Store.view held.old.store) (S.Store.view held.new.store)) }
    ensures admitted { IfOk result (λ j. admitted_view j.credential ≡ new_credential j.verified) }
    ensures same { OnOk result (IsSameView (S.Store.view held.old.store) (S.Store.view held.new.store) × (held.new ≡ record held.old { store = held.new.store })) }
    ensures refused { IfErr result (IsStopped (IsSameView (S.Store.view held.old.store) (S.Store.view held.new.store) × (held.new ≡ record held.old { store = held.new.store }))
        held.new.is_shut (IsNotAdmitted (V.valid verifier.now) party.now policy (option_map (λ e. registration_view e.now) session.entry)
        (registration_parts_view response.now) is_full (S.Store.view held.old.store) (S.Store.view held.new.store))) }
    ensures reserved { KeepsNumbers held.old held.new }
    ensures cause { FinishFails S.Store held.old.store held.new.store ⊥ (IsDamaged (S.Store.view held.old.store).trees) result }
    ensures quiet { IsQuiet S.Store held.old.store held.new.store }
{
    let verified = verify_registration(
        held.alloc,
        verifier,
        &RegistrationAttempt {
            party,
            policy,
            session,
            response: *response,
        },
    )?;
    let is_registered = held.has(verified.id())?;
    let credential = admit(&verified, is_registered, is_full)?;
    Ok(Judged {
        verified,
        credential,
    })
}

/// The credential that was admitted, as the session's user's.
fn row_of(
    alloc: Global,
    expected: &RegistrationSession,
    admitted: &AdmittedCredential<'_>,
) -> Result<Row, VerificationError<RegistrationRefusal>>
    ensures row { IfOk result (λ row. row_view row ≡ admitted_as expected.now.user.items (admitted_view admitted.now)) }
    ensures memory { IfErr result (λ e. e ≡ VerificationError.Memory) }
{
    let user = Vec::from_slice(alloc, &expected.user)?;
    let id = Vec::from_slice(alloc, admitted.id)?;
    let key = admitted.key.to_key(alloc)?;
    Ok(Row {
        id,
        user,
        key,
        sign_count: admitted.sign_count,
        eligible: Some(admitted.eligible),
        retired: false,
    })
}

/// What a registration answers, and what is kept of it beside the credential: the detail, with the aaguid that the response
/// attests.
fn told(
    alloc: Global,
    verified: &VerifiedRegistration<'_>,
    credential: Row,
    detail: Detail,
) -> Result<(Registered, Detail), VerificationError<RegistrationRefusal>>
    ensures row { IfOk result (λ x. x.0.credential ≡ credential) }
    ensures data { IfOk result (λ x. Summarises x.0.summary verified.now.auth_data) }
    ensures aaguid { IfOk result (λ x. x.0.aaguid ≡ verified.now.credential.aaguid) }
    ensures format { IfOk result (λ x. string_bytes x.0.format ≡ verified.now.format) }
    ensures detail { IfOk result (λ x. detail_view x.1 ≡ with_aaguid verified.now.credential.aaguid (detail_view detail)) }
    ensures memory { IfErr result (λ e. e ≡ VerificationError.Memory) }
{
    let attested = verified.credential();
    let kept = Vec::from_slice(alloc, &attested.aaguid)?;
    Ok((
        Registered {
            credential,
            summary: summary_of(alloc, verified.auth_data())?,
            aaguid: attested.aaguid,
            format: String::from_str(alloc, verified.format())?,
        },
        Detail {
            aaguid: Some(kept),
            ..detail
        },
    ))
}

/// The open session for registration, of what a text says of it.
fn registration_of(given: &Given) -> Option<&RegistrationSession>
    ensures some { IfSome result (λ s. ceremony_view given.now.opened.ceremony ≡ registration (registration_view s.now)) }
    ensures none { IfNone result ((e : ExpectedRegistration) → ceremony_view given.now.opened.ceremony ≡ registration e → ⊥) }
{
    match &given.opened.ceremony {
        OpenedCeremony::Registration(session) => Some(session),
        OpenedCeremony::SignIn(_) => None,
    }
}

/// What an open session expects, where it is for registration.
fn expected_in(given: &Option<Given>) -> Option<&RegistrationSession>
    ensures { AwaitsAs given.now (option_map (λ e. registration_view e.now) result) }
{
    match given {
        Some(given) => registration_of(given),
        None => None,
    }
}

/// Whether the registrations of a user with this number have ended. A failure shuts it.
fn is_cut_off<S: Store>(
    key: &[u8; 32],
    held: &mut SiteStore<S>,
    number: u64,
    user: &[u8],
) -> Result<bool, Failure>
    requires ready { IsOpenStore S.Store held.old }
    ensures told { IfOk result (λ was. IsClean (S.Store.view held.new.store) → (users : Endings)
        → HoldsEndings ended_user_tree users (S.Store.view held.old.store).trees → IsTrue was ↔ IsCutOff key.now users number user.now) }
    ensures reads { ReadsStore S.Store held.old held.new result }
    ensures cause { SiteFails S.Store held.old.store held.new.store ⊥ (IsUnknownEnding ended_user_tree (S.Store.view held.old.store).trees) result }
{
    match held.ending(ENDED_USER_TREE, user_number(key, user))? {
        Some(ending) => Ok(number < ending.said),
        None => Ok(false),
    }
}

/// The open session of a text, where it is for registration, and no act has ended the registrations of its user since it began. A
/// failure of the store shuts it.
fn open_registration<S: Store>(
    key: &[u8; 32],
    party: &RelyingParty,
    next: u64,
    held: &mut SiteStore<S>,
    text: &[u8],
    now: u64,
) -> Result<Option<Given>, SessionFailure>
    requires ready { IsOpenStore S.Store held.old }
    requires next { FitsColumn next }
    ensures session { IfOk result (λ found. IsClean (S.Store.view held.new.store) → (ended users : Endings)
        → HoldsEndings ended_session_tree ended (S.Store.view held.old.store).trees → HoldsEndings ended_user_tree users (S.Store.view held.old.store).trees
        → IsRegistrationIn key.now party.now.rp_id next ended users now text.now found) }
    ensures opened { IfOk result (λ found. IsClean (S.Store.view held.new.store) → (ended : Endings) → HoldsEndings ended_session_tree ended (S.Store.view held.old.store).trees
        → IfSome found (λ g. IsOpenIn key.now party.now.rp_id next ended now text.now (Some g))) }
    ensures limits { IfOk result (λ found. IfSome found (λ g. (g.number < next) × FitsColumn (session_view g.opened).ends)) }
    ensures reads { ReadsSession S.Store held.old held.new result }
    ensures cause { IsClean (S.Store.view held.new.store) → IfErr result (IfSessionStore (IsCaused (S.Store.view held.old.store) (S.Store.faults held.old.store)
        (S.Store.faults held.new.store) ⊥ (AreUnknownEndings (S.Store.view held.old.store).trees))) }
{
    let given = open_session(key, party, next, held, text, now)?;
    let Some(given) = given else {
        return Ok(None);
    };
    let Some(expected) = registration_of(&given) else {
        return Ok(None);
    };
    if is_cut_off(key, held, given.number, &expected.user)? {
        return Ok(None);
    }
    Ok(Some(given))
}

impl<S: Store> StoredSite<S> {
    /// Finishes a registration in the session of a text, at this second of the host's clock: the credential that the response attests
    /// stands last, as the session's user's, and the session has ended. The detail is kept with it, with the aaguid that the response
    /// attests. Commit before you answer.
    ///
    /// `Site` with the first step of section 7.1 that the response does not pass in this session, or if memory runs out: a text that is
    /// not that of an open session for registration has none, and one whose user has lost a credential since it began. Then nothing has
    /// changed: the session is open.
    pub fn finish_registration_parts<V: Verifier>(
        &mut self,
        verifier: &V,
        text: &[u8],
        response: &RegistrationParts<'_>,
        detail: Detail,
        now: u64,
    ) -> Result<Registered, FinishFailure<RegistrationRefusal>>
        ensures accepted { IfOk result (λ x. IsClean (S.Store.view self.new.store) → (placed : Placed) → IsHeld placed self.old (S.Store.view self.old.store).trees
            → (ended users : Endings) → HoldsEndings ended_session_tree ended (S.Store.view self.old.store).trees
            → HoldsEndings ended_user_tree users (S.Store.view self.old.store).trees
            → (after : Placed) × Registers (V.valid verifier.now) placed ended users self.old now text.now (registration_parts_view response.now) x after
            × IsHeld after self.new (S.Store.view self.new.store).trees) }
        ensures ended { OnOk result (IsClean (S.Store.view self.new.store) → (placed : Placed) → IsHeld placed self.old (S.Store.view self.old.store).trees
            → (ended : Endings) → HoldsEndings ended_session_tree ended (S.Store.view self.old.store).trees → (after : Endings) × EndsSession self.old accepted now text.now ended after × HoldsEndings ended_session_tree after (S.Store.view self.new.store).trees) }
        ensures beside { OnOk result (IsClean (S.Store.view self.new.store) → (placed : Placed) → IsHeld placed self.old (S.Store.view self.old.store).trees
            → KeepsBeside (ended_session_tree ∷ detail_tree ∷ credential_trees) (S.Store.view self.old.store).trees (S.Store.view self.new.store).trees) }
        ensures detailed { IfOk result (λ x. IsClean (S.Store.view self.new.store) → (placed : Placed) → IsHeld placed self.old (S.Store.view self.old.store).trees
            → (details : Details) → HoldsDetails details (S.Store.view self.old.store).trees
            → HoldsDetails (finite.insert details (self.old.last + 1) (with_aaguid x.aaguid (detail_view detail))) (S.Store.view self.new.store).trees) }
        ensures one { OnOk result (IsOneSite self.old self.new × (self.new.is_shut ≡ false) × (self.new.next ≡ self.old.next)) }
        ensures refused { IfErr result (IsNotFinished S.Store.view self.old self.new (λ why. IsClean (S.Store.view self.new.store) → (placed : Placed)
            → IsHeld placed self.old (S.Store.view self.old.store).trees
            → (ended users : Endings) → HoldsEndings ended_session_tree ended (S.Store.view self.old.store).trees
            → HoldsEndings ended_user_tree users (S.Store.view self.old.store).trees
            → RefusesRegistration (V.valid verifier.now) placed ended users self.old now text.now (registration_parts_view response.now) why)) }
        ensures shut { self.old.is_shut ≡ true → IsErrOf result (finishes.Store failures.Shut) }
        ensures cause { FinishFails S.Store self.old.store self.new.store
            (RefusesRegistered (S.Store.view self.old.store) self.old (registration_parts_view response.now) (detail_view detail) ⊎ RefusesEnding ended_session_tree (S.Store.view self.old.store))
            (IsDamaged (S.Store.view self.old.store).trees ⊎ AreUnknownEndings (S.Store.view self.old.store).trees) result }
        ensures quiet { IsQuiet S.Store self.old.store self.new.store }
    {
        if self.held.is_shut {
            return Err(FinishFailure::Store(Failure::Shut));
        }
        let given = open_registration(
            &self.key,
            &self.party,
            self.next,
            &mut self.held,
            text,
            now,
        )?;
        let expected = expected_in(&given);
        let judged = judge(
            &self.party,
            self.policy,
            expected,
            &mut self.held,
            is_full(self.count, self.most, self.last),
            verifier,
            response,
        )?;
        let given = given.as_ref().unwrap();
        let alloc = self.held.alloc;
        let row = row_of(alloc, expected.unwrap(), &judged.credential)?;
        let (registered, kept) = told(alloc, &judged.verified, row, detail)?;
        let place = self.last + 1;
        self.held.add(place, &lent(&registered.credential))?;
        self.held.put_detail(place, &kept)?;
        self.count += 1;
        self.last = place;
        end_session(&mut self.held, given, ACCEPTED, now)?;
        Ok(registered)
    }
}
