//! Judging a registration (WebAuthn Level 2, section 7.1).

ghost use Rattle.std.specs.Prelude.{◌≡◌, ◌↔◌, ◌⊎◌, Bool, Contains, IfErr, IfOk, IfSome, IsTrue, List, None, OnOk, Some, option_map, true, ℕ};
ghost use Rattle.std.specs.Option.{ForSome};
ghost use Rattle.refusal_order.specs.Lines.{Each, FirstFailing};
ghost use Rattle.authdata.specs.Flags.{is_set, UP};
ghost use Rattle.cose.specs.Keys.{alg_of, lent_key_view};
ghost use Rattle.authdata.specs.Objects.{lent_object_view};
ghost use Rattle.authdata.specs.Layout.{AttestedCredential, AuthOf, AuthenticatorData, lent_attested_view, lent_auth_view};
ghost use Rattle.verification.specs.Registration.{Attests, CountsAsNone, JudgedRegistration, NeedsNoPresence, PassesRegistrationStep, attestation_steps, auth_data_steps, counted};
ghost use Rattle.verification.specs.Registration.{client_data_steps, response_steps, table_steps};
ghost use Rattle.verification.specs.Shared.{FailsIn, never};
ghost use Rattle.verification.specs.RegistrationAnswers.{AcceptsAttestation, IsRefused, AttestsAs};
ghost use Rattle.verification.specs.RegistrationAnswers.{AttestsAsNothing, IsVerifiedRegistration, new_credential, step_of};
ghost use Rattle.verification.specs.Views.{admitted_view, judged_registration_view, judged_without_table, registration_view};

use crate::client_data::{ClientDataError, ClientDataStep, check_client_data};
use crate::flag::is_verified_as;
use crate::party::{Policy, RelyingParty};
use crate::record::{RegistrationParts, RegistrationSession};
use crate::refusal::{RegistrationRefusal, VerificationError};
use authdata::{
    AttestationType, AttestationView, AttestedView, AuthView, Profile, flags, read_view,
};
use clientdata::{CeremonyType, hash};
use cose::{Alg, KeyView, Verifier};
use std::alloc::Global;
use std::marker::Model;

/// A registration to be judged.
#[derive(Clone, Copy, Drop)]
pub struct RegistrationAttempt<'a, 'r> {
    /// The relying party.
    pub party: &'a RelyingParty,
    /// The attestations that it accepts.
    pub policy: Policy,
    /// What the session expects; none where it is not open, or is one for sign-in.
    pub session: Option<&'a RegistrationSession>,
    /// The client's answer.
    pub response: RegistrationParts<'r>,
}

/// A credential that may be stored, lent: its registration passes each step.
#[derive(Clone, Copy, Debug, Drop)]
pub struct AdmittedCredential<'a> {
    /// The credential id: 1 to 64 bytes, in the open profile to 1,023.
    pub id: &'a [u8],
    /// The public key.
    pub key: KeyView<'a>,
    /// The signature counter that was received.
    pub sign_count: u32,
    /// Whether the credential is eligible for backup (BE).
    pub eligible: bool,
}

/// A registration that passes each step on the response, and what that attests. Only `admit` gives the credential as one that
/// may be stored, since the steps on the table are left.
#[must_use]
#[derive(Debug, Drop)]
pub struct VerifiedRegistration<'a> {
    auth_data: AuthView<'a>,
    credential: AttestedView<'a>,
    format: &'a str,
}

impl<'a> Model for VerifiedRegistration<'a> {
    ghost use Rattle.authdata.specs.Layout.{lent_attested_view, lent_auth_view};
    ghost use Rattle.verification.specs.Records.{AttestedRegistration};

    ghost Value = { AttestedRegistration };

    ghost view = { λ v. record { auth_data = lent_auth_view v.auth_data; credential = lent_attested_view v.credential; format = v.format.now } };
}

/// What the step on client data is, of those of a registration.
fn refusal_of(line: ClientDataStep) -> RegistrationRefusal
    ensures { result ≡ step_of line }
{
    match line {
        ClientDataStep::Readable => RegistrationRefusal::UnreadableClientData,
        ClientDataStep::Type => RegistrationRefusal::WrongType,
        ClientDataStep::Challenge => RegistrationRefusal::WrongChallenge,
        ClientDataStep::Origin => RegistrationRefusal::WrongOrigin,
        ClientDataStep::CrossOrigin => RegistrationRefusal::CrossOrigin,
        ClientDataStep::TopOrigin => RegistrationRefusal::WrongTopOrigin,
        ClientDataStep::TokenBinding => RegistrationRefusal::TokenBinding,
    }
}

/// Whether the algorithm is one of these.
fn is_offered(algorithms: &[Alg], alg: Alg) -> bool
    ensures { IsTrue result ↔ Contains algorithms.now alg }
{
    for offered in algorithms {
        if *offered == alg {
            return true;
        }
    }
    false
}

/// Whether the session offered the key's algorithm.
fn offers(session: &RegistrationSession, key: &KeyView<'_>) -> bool
    ensures { IsTrue result ↔ Contains (registration_view session.now).algorithms (alg_of (lent_key_view key.now)) }
{
    is_offered(&session.algorithms, key.alg())
}

/// Whether the flags say that the user was present, where that is required.
fn is_present_as(profile: Profile, session: &RegistrationSession, flags: u8) -> bool
    ensures { IsTrue result ↔ ((is_set flags UP ≡ true) ⊎ NeedsNoPresence profile (registration_view session.now)) }
{
    flags::is_set(flags, flags::UP) || (profile == Profile::Level3 && session.conditional)
}

/// Whether an attestation statement counts as none, whatever it is: in Level 3, where none was asked for (WebAuthn Level 3,
/// section 5.4.7, "none").
pub fn counts_as_none(profile: Profile, asked: bool) -> bool
    ensures { IsTrue result ↔ CountsAsNone profile asked }
{
    profile == Profile::Level3 && !asked
}

/// Whether an id is the one that is named, where one is.
fn is_named(raw_id: Option<&[u8]>, id: &[u8]) -> bool
    ensures { IsTrue result ↔ ForSome (option_map (λ r. r.now) raw_id.entry) (λ raw_id. raw_id ≡ id.now) }
{
    match raw_id {
        Some(raw_id) => raw_id == id,
        None => true,
    }
}

/// How the object, as it counts, attests a credential of this key.
fn statement<V: Verifier>(
    verifier: &V,
    profile: Profile,
    asked: bool,
    object: &AttestationView<'_>,
    key: &KeyView<'_>,
    hash: &[u8; 32],
) -> Result<AttestationType, RegistrationRefusal>
    ensures shown { IfOk result (AttestsAs (V.valid verifier.now) (counted profile asked (lent_object_view object.now))
        (lent_key_view key.now) hash.now) }
    ensures refused { IfErr result (AttestsAsNothing (V.valid verifier.now) (counted profile asked (lent_object_view object.now))
        (lent_key_view key.now) hash.now) }
{
    if counts_as_none(profile, asked) {
        return Ok(AttestationType::None);
    }
    match object.check_statement(verifier, key, hash) {
        Ok(kind) => Ok(kind),
        Err(authdata::Error::UnknownFormat) => Err(RegistrationRefusal::UnknownFormat),
        Err(_) => Err(RegistrationRefusal::BadStatement),
    }
}

/// The format of what counts as the object.
fn counted_format<'a>(profile: Profile, asked: bool, object: &AttestationView<'a>) -> &'a str
    ensures { result.now ≡ (counted profile asked (lent_object_view object.now)).fmt }
{
    if counts_as_none(profile, asked) {
        "none"
    } else {
        object.fmt
    }
}

/// Whether the policy accepts this kind of attestation.
fn is_accepted(policy: Policy, kind: AttestationType) -> bool
    ensures { IsTrue result ↔ AcceptsAttestation policy kind }
{
    match kind {
        AttestationType::None => policy.accept_none,
        AttestationType::SelfSigned => policy.accept_self,
    }
}

/// The authenticator data that the bytes are, and the credential that they attest.
fn attested_in(profile: Profile, bytes: &[u8]) -> Option<(AuthView<'_>, AttestedView<'_>)>
    ensures found { IfSome result (λ x. AuthOf profile (lent_auth_view x.0) bytes.now
        × ((lent_auth_view x.0).attested ≡ Some (lent_attested_view x.1))) }
    ensures none { result ≡ None
        → (a : AuthenticatorData) (c : AttestedCredential) → AuthOf profile a bytes.now → a.attested ≡ Some c → ⊥ }
{
    let Ok(auth_data) = read_view(profile, bytes) else {
        return None;
    };
    match auth_data.attested {
        Some(credential) => Some((auth_data, credential)),
        None => None,
    }
}

impl<'a, 'r> RegistrationAttempt<'a, 'r> {
    /// The session, where it is open and the steps on client data are passed.
    fn check_client_data(
        &self,
        alloc: Global,
    ) -> Result<&'a RegistrationSession, VerificationError<RegistrationRefusal>>
        ensures passes { OnOk result (Each (PassesRegistrationStep never (judged_without_table self.now)) client_data_steps) }
        ensures session { IfOk result (λ s. (judged_without_table self.now).session ≡ Some (registration_view s.now)) }
        ensures refused { IfErr result (FailsIn (PassesRegistrationStep never (judged_without_table self.now)) client_data_steps) }
    {
        let Some(session) = self.session else {
            return Err(VerificationError::Refused(RegistrationRefusal::SessionNotOpen));
        };
        match check_client_data(
            alloc,
            self.response.client_data,
            CeremonyType::Create,
            &session.challenge,
            self.party,
        ) {
            Ok(()) => Ok(session),
            Err(ClientDataError::Fails(line)) => Err(VerificationError::Refused(refusal_of(line))),
            Err(ClientDataError::Memory) => Err(VerificationError::Memory),
        }
    }

    /// What the response attests, where the steps on authenticator data are passed, and its attestation object.
    fn attested(
        &self,
        session: &RegistrationSession,
    ) -> Result<(AttestationView<'r>, AuthView<'r>, AttestedView<'r>), RegistrationRefusal>
        requires { (judged_without_table self.now).session ≡ Some (registration_view session.now) }
        ensures passes { OnOk result (Each (PassesRegistrationStep never (judged_without_table self.now)) auth_data_steps) }
        ensures found { IfOk result (λ x. Attests (judged_without_table self.now).rp.profile (judged_without_table self.now).response
            (lent_object_view x.0) (lent_auth_view x.1) (lent_attested_view x.2)) }
        ensures refused { IfErr result (FirstFailing (PassesRegistrationStep never (judged_without_table self.now)) auth_data_steps) }
    {
        let Some(object) = AttestationView::read(self.response.object) else {
            return Err(RegistrationRefusal::BadAttestationObject);
        };
        let Some((auth_data, credential)) = attested_in(self.party.profile(), object.auth_data)
        else {
            return Err(RegistrationRefusal::BadAttestationObject);
        };
        if !self.party.is_hash(&auth_data.rp_id_hash) {
            return Err(RegistrationRefusal::WrongRelyingParty);
        }
        if !is_present_as(self.party.profile(), session, auth_data.flags) {
            return Err(RegistrationRefusal::UserNotPresent);
        }
        if !is_verified_as(session.uv, auth_data.flags) {
            return Err(RegistrationRefusal::UserNotVerified);
        }
        if !offers(session, &credential.key) {
            return Err(RegistrationRefusal::AlgorithmNotOffered);
        }
        if !is_named(self.response.raw_id, credential.id) {
            return Err(RegistrationRefusal::OtherId);
        }
        Ok((object, auth_data, credential))
    }

    /// Whether the steps on the attestation statement are passed.
    fn check_attestation<V: Verifier>(
        &self,
        verifier: &V,
        session: &RegistrationSession,
        object: &AttestationView<'_>,
        auth_data: &AuthView<'_>,
        credential: &AttestedView<'_>,
    ) -> Result<(), RegistrationRefusal>
        requires session { (judged_without_table self.now).session ≡ Some (registration_view session.now) }
        requires attests { Attests (judged_without_table self.now).rp.profile (judged_without_table self.now).response (lent_object_view object.now)
            (lent_auth_view auth_data.now) (lent_attested_view credential.now) }
        ensures passes { OnOk result (Each (PassesRegistrationStep (V.valid verifier.now) (judged_without_table self.now)) attestation_steps) }
        ensures refused { IfErr result (FirstFailing (PassesRegistrationStep (V.valid verifier.now) (judged_without_table self.now)) attestation_steps) }
    {
        let hash = hash(self.response.client_data);
        // A match, since `?` would hide that the refusal is the callee's.
        let profile = self.party.profile();
        let asked = session.attestation;
        let kind = match statement(verifier, profile, asked, object, &credential.key, &hash) {
            Ok(kind) => kind,
            Err(refusal) => return Err(refusal),
        };
        if !is_accepted(self.policy, kind) {
            return Err(RegistrationRefusal::AttestationNotAccepted);
        }
        Ok(())
    }
}

/// Judges a registration by its response: it is verified where it passes each step of section 7.1 on the response;
/// else the first step that it does not pass is answered. Whether there is a place for the credential is left to
/// `VerifiedRegistration::admit`.
///
/// Memory is taken by the reader of the client data alone.
pub fn verify_registration<'r, V: Verifier>(
    alloc: Global,
    verifier: &V,
    attempt: &RegistrationAttempt<'_, 'r>,
) -> Result<VerifiedRegistration<'r>, VerificationError<RegistrationRefusal>>
    ensures accepted { IfOk result (λ v. IsVerifiedRegistration (judged_without_table attempt.now) v
        × ((is_registered : List ℕ → Bool) (is_full : Bool)
        → Each (PassesRegistrationStep (V.valid verifier.now) (judged_registration_view attempt.now is_registered is_full)) response_steps)) }
    ensures refused { IfErr result (λ e. (is_registered : List ℕ → Bool) (is_full : Bool)
        → IsRefused (V.valid verifier.now) (judged_registration_view attempt.now is_registered is_full) e) }
{
    let session = attempt.check_client_data(alloc)?;
    let (object, auth_data, credential) = attempt.attested(session)?;
    attempt.check_attestation(verifier, session, &object, &auth_data, &credential)?;
    Ok(VerifiedRegistration {
        auth_data,
        credential,
        format: counted_format(attempt.party.profile(), session.attestation, &object),
    })
}

impl<'a> VerifiedRegistration<'a> {
    /// The credential id, by which the site looks whether the credential is registered.
    pub fn id(&self) -> &'a [u8]
        ensures { result.now ≡ self.now.credential.id }
    {
        self.credential.id
    }

    /// The authenticator data.
    pub fn auth_data(&self) -> &AuthView<'a>
        ensures { lent_auth_view result.now ≡ self.now.auth_data }
    {
        &self.auth_data
    }

    /// The credential that they attest.
    pub fn credential(&self) -> &AttestedView<'a>
        ensures { lent_attested_view result.now ≡ self.now.credential }
    {
        &self.credential
    }

    /// The format of what counts as the attestation object: `none`, in Level 3 also where no attestation was asked for, or
    /// `packed`.
    pub fn format(&self) -> &'a str
        ensures { result.now ≡ self.now.format }
    {
        self.format
    }

    /// The credential, where there is a place for it: the last two steps, by whether a credential with its id is
    /// registered, to anyone, retired or not, and whether there is no room for another one.
    pub fn admit(
        &self,
        is_registered: bool,
        is_full: bool,
    ) -> Result<AdmittedCredential<'a>, RegistrationRefusal>
        ensures admitted { IfOk result (λ c. admitted_view c ≡ new_credential self.now) }
        ensures passes { OnOk result ((x : JudgedRegistration) → IsVerifiedRegistration x self.now → x.is_registered self.now.credential.id ≡ is_registered
            → x.is_full ≡ is_full → Each (PassesRegistrationStep never x) table_steps) }
        ensures refused { IfErr result (λ w. (x : JudgedRegistration) → IsVerifiedRegistration x self.now
            → x.is_registered self.now.credential.id ≡ is_registered → x.is_full ≡ is_full
            → FirstFailing (PassesRegistrationStep never x) table_steps w) }
    {
        if is_registered {
            return Err(RegistrationRefusal::CredentialRegistered);
        }
        if is_full {
            return Err(RegistrationRefusal::TableFull);
        }
        Ok(AdmittedCredential {
            id: self.credential.id,
            key: self.credential.key,
            sign_count: self.auth_data.sign_count,
            eligible: flags::is_set(self.auth_data.flags, flags::BE),
        })
    }
}
