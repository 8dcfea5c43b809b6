//! Judging an authentication assertion (WebAuthn Level 2, section 7.2).

ghost use Rattle.std.specs.Prelude.{◌≡◌, ◌↔◌, ◌⊎◌, ◌++◌, [], Contains, IfErr, IfOk, IfSome, IsErrOf, IsTrue, None, OnOk, Some, false, map, option_map, true};
ghost use Rattle.std.specs.Option.{ForSome};
ghost use Rattle.sha2.specs.Sha256.{sha256};
ghost use Rattle.refusal_order.specs.Lines.{Each, FirstFailing};
ghost use Rattle.cose.specs.Keys.{lent_key_view};
ghost use Rattle.authdata.specs.Flags.{is_set, AT, BE, BS};
ghost use Rattle.authdata.specs.Layout.{AuthOf, AuthenticatorData, lent_auth_view};
ghost use Rattle.verification.specs.SignIn.{AreUser, IsCounted, PassesSignInStep, PassesSignIn};
ghost use Rattle.verification.specs.SignIn.{credential_steps, client_data_steps, auth_data_steps, signature_steps};
ghost use Rattle.verification.specs.Shared.{FailsIn, never};
ghost use Rattle.verification.specs.SignInAnswers.{IsExpected, IsRefused, IsVerifiedSignIn, step_of};
ghost use Rattle.verification.specs.Views.{judged_sign_in_view, credential_view, sign_in_view};

use crate::client_data::{ClientDataError, ClientDataStep, check_client_data};
use crate::flag::is_verified_as;
use crate::party::RelyingParty;
use crate::record::{AssertionParts, RowView, SignInSession};
use crate::refusal::{SignInRefusal, VerificationError};
use authdata::{AuthView, Profile, flags, read_view};
use clientdata::{CeremonyType, hash};
use cose::{KeyView, Verifier};
use std::alloc::Global;

/// A sign-in to be judged.
#[derive(Clone, Copy, Drop)]
pub struct SignInAttempt<'a, 'r> {
    /// The relying party.
    pub party: &'a RelyingParty,
    /// What the session expects; none where it is not open, or is one for registration.
    pub session: Option<&'a SignInSession>,
    /// The credential that was found for the response, by its id or otherwise; none where none was. One of another
    /// id than the response's is refused as unknown.
    pub credential: Option<RowView<'a>>,
    /// The client's answer.
    pub response: AssertionParts<'r>,
}

/// What an assertion that passes each step says.
#[derive(Clone, Copy, Debug, Drop)]
pub struct VerifiedAssertion<'a> {
    /// The authenticator data. Their counter is the credential's from now on.
    pub auth_data: AuthView<'a>,
}

impl<'a> VerifiedAssertion<'a> {
    /// Whether the credential is eligible for backup (BE), to be stored where it was unknown.
    pub fn eligible(&self) -> bool
        ensures { result ≡ is_set self.now.auth_data.flags BE }
    {
        flags::is_set(self.auth_data.flags, flags::BE)
    }

    /// Whether the credential is backed up now (BS).
    pub fn backed_up(&self) -> bool
        ensures { result ≡ is_set self.now.auth_data.flags BS }
    {
        flags::is_set(self.auth_data.flags, flags::BS)
    }
}

/// Whether each user that is named is this one, and at least one is named.
fn are_user(expected: &Option<Vec<u8>>, named: Option<&[u8]>, user: &[u8]) -> bool
    ensures { IsTrue result ↔ AreUser (option_map (λ u. u.items) expected.now) (option_map (λ u. u.now) named.entry) user.now }
{
    match (expected, named) {
        (None, None) => false,
        (Some(expected), None) => expected.as_slice() == user,
        (None, Some(named)) => named == user,
        (Some(expected), Some(named)) => expected.as_slice() == user && named == user,
    }
}

/// Whether an id is listed, or there is no list.
fn is_allowed(allow: &[Vec<u8>], id: &[u8]) -> bool
    ensures { IsTrue result ↔ ((map (λ v. v.items) allow.now ≡ []) ⊎ Contains (map (λ v. v.items) allow.now) id.now) }
{
    if allow.is_empty() {
        return true;
    }
    for allowed in allow {
        if allowed.as_slice() == id {
            return true;
        }
    }
    false
}

/// Whether a counter has grown, or neither side counts.
fn is_counted(stored: u32, received: u32) -> bool
    ensures { IsTrue result ↔ IsCounted stored received }
{
    stored < received || (stored == 0 && received == 0)
}

/// What the step on client data is, of those of a sign-in.
fn refusal_of(line: ClientDataStep) -> SignInRefusal
    ensures { result ≡ step_of line }
{
    match line {
        ClientDataStep::Readable => SignInRefusal::UnreadableClientData,
        ClientDataStep::Type => SignInRefusal::WrongType,
        ClientDataStep::Challenge => SignInRefusal::WrongChallenge,
        ClientDataStep::Origin => SignInRefusal::WrongOrigin,
        ClientDataStep::CrossOrigin => SignInRefusal::CrossOrigin,
        ClientDataStep::TopOrigin => SignInRefusal::WrongTopOrigin,
        ClientDataStep::TokenBinding => SignInRefusal::TokenBinding,
    }
}

/// Whether the signature is valid over the authenticator data as they came, then the hash of the client data.
fn is_signed<V: Verifier>(verifier: &V, key: &KeyView<'_>, response: &AssertionParts<'_>) -> bool
    ensures { IsTrue result ↔ V.valid verifier.now (lent_key_view key.now)
        (response.now.auth_data.now ++ sha256 response.now.client_data.now) response.now.signature.now }
{
    let hash = hash(response.client_data);
    verifier.verify(key, [response.auth_data, &hash], response.signature)
}

/// Whether the mark of eligibility is what it was, where that is known.
fn is_eligible_as(known: Option<bool>, flags: u8) -> bool
    ensures { IsTrue result ↔ ForSome known (λ eligible. is_set flags BE ≡ eligible) }
{
    match known {
        None => true,
        Some(eligible) => flags::is_set(flags, flags::BE) == eligible,
    }
}

/// The authenticator data that the bytes are, which attest no credential.
fn bare_data(profile: Profile, bytes: &[u8]) -> Option<AuthView<'_>>
    ensures found { IfSome result (λ a. AuthOf profile (lent_auth_view a) bytes.now × (is_set a.flags AT ≡ false)) }
    ensures none { result ≡ None → (a : AuthenticatorData) → AuthOf profile a bytes.now → is_set a.flags AT ≡ false → ⊥ }
{
    let Ok(data) = read_view(profile, bytes) else {
        return None;
    };
    if flags::is_set(data.flags, flags::AT) {
        return None;
    }
    Some(data)
}

impl<'a, 'r> SignInAttempt<'a, 'r> {
    /// The session and the credential, where the steps on them are passed.
    fn expected(&self) -> Result<(&'a SignInSession, RowView<'a>), SignInRefusal>
        ensures passes { OnOk result (Each (PassesSignInStep never (judged_sign_in_view self.now)) credential_steps) }
        ensures session { IfOk result (λ x. (judged_sign_in_view self.now).session ≡ Some (sign_in_view x.0.now)) }
        ensures credential { IfOk result (λ x. (judged_sign_in_view self.now).credential ≡ Some (credential_view x.1)) }
        ensures refused { IfErr result (FirstFailing (PassesSignInStep never (judged_sign_in_view self.now)) credential_steps) }
    {
        let Some(session) = self.session else {
            return Err(SignInRefusal::SessionNotOpen);
        };
        if !is_allowed(&session.allow, self.response.credential) {
            return Err(SignInRefusal::CredentialNotAllowed);
        }
        let Some(credential) = self.credential else {
            return Err(SignInRefusal::UnknownCredential);
        };
        if credential.retired || credential.id != self.response.credential {
            return Err(SignInRefusal::UnknownCredential);
        }
        if !are_user(&session.user, self.response.user, credential.user) {
            return Err(SignInRefusal::OtherUser);
        }
        Ok((session, credential))
    }

    /// Whether the steps on client data are passed, those of a session that is open.
    fn check_client_data(
        &self,
        alloc: Global,
        session: &SignInSession,
    ) -> Result<(), VerificationError<SignInRefusal>>
        requires { (judged_sign_in_view self.now).session ≡ Some (sign_in_view session.now) }
        ensures passes { OnOk result (Each (PassesSignInStep never (judged_sign_in_view self.now)) client_data_steps) }
        ensures refused { IfErr result (FailsIn (PassesSignInStep never (judged_sign_in_view self.now)) client_data_steps) }
        ensures memory { IsErrOf result VerificationError.Memory → IsExpected (judged_sign_in_view self.now) → ⊥ }
    {
        match check_client_data(
            alloc,
            self.response.client_data,
            CeremonyType::Get,
            &session.challenge,
            self.party,
        ) {
            Ok(()) => Ok(()),
            Err(ClientDataError::Fails(line)) => Err(VerificationError::Refused(refusal_of(line))),
            Err(ClientDataError::Memory) => Err(VerificationError::Memory),
        }
    }

    /// The authenticator data, where the steps on them are passed.
    fn auth_data(&self, session: &SignInSession) -> Result<AuthView<'r>, SignInRefusal>
        requires { (judged_sign_in_view self.now).session ≡ Some (sign_in_view session.now) }
        ensures passes { OnOk result (Each (PassesSignInStep never (judged_sign_in_view self.now)) auth_data_steps) }
        ensures found { IfOk result (λ a. AuthOf self.now.party.now.profile (lent_auth_view a) self.now.response.auth_data.now) }
        ensures refused { IfErr result (FirstFailing (PassesSignInStep never (judged_sign_in_view self.now)) auth_data_steps) }
    {
        let Some(data) = bare_data(self.party.profile(), self.response.auth_data) else {
            return Err(SignInRefusal::BadAuthenticatorData);
        };
        if !self.party.is_hash(&data.rp_id_hash) {
            return Err(SignInRefusal::WrongRelyingParty);
        }
        if !flags::is_set(data.flags, flags::UP) {
            return Err(SignInRefusal::UserNotPresent);
        }
        if !is_verified_as(session.uv, data.flags) {
            return Err(SignInRefusal::UserNotVerified);
        }
        Ok(data)
    }

    /// Whether the steps on the signature, the counter and the mark of eligibility are passed.
    fn check_signature<V: Verifier>(
        &self,
        verifier: &V,
        credential: &RowView<'_>,
        auth_data: &AuthView<'_>,
    ) -> Result<(), SignInRefusal>
        requires credential { (judged_sign_in_view self.now).credential ≡ Some (credential_view credential.now) }
        requires auth_data { AuthOf self.now.party.now.profile (lent_auth_view auth_data.now) self.now.response.auth_data.now }
        ensures passes { OnOk result (Each (PassesSignInStep (V.valid verifier.now) (judged_sign_in_view self.now)) signature_steps) }
        ensures refused { IfErr result (FirstFailing (PassesSignInStep (V.valid verifier.now) (judged_sign_in_view self.now)) signature_steps) }
    {
        if !is_signed(verifier, &credential.key, &self.response) {
            return Err(SignInRefusal::BadSignature);
        }
        if !is_counted(credential.sign_count, auth_data.sign_count) {
            return Err(SignInRefusal::CounterNotGreater);
        }
        if !is_eligible_as(credential.eligible, auth_data.flags) {
            return Err(SignInRefusal::EligibilityChanged);
        }
        Ok(())
    }
}

/// Judges an assertion: what it says where it passes each step of section 7.2, or the first step that it does
/// not pass.
///
/// Memory is taken by the reader of the client data alone; want of it is answered only where the first four
/// steps, on the session and the credential, are passed, and the client data are not the text that is expected.
pub fn verify_assertion<'r, V: Verifier>(
    alloc: Global,
    verifier: &V,
    attempt: &SignInAttempt<'_, 'r>,
) -> Result<VerifiedAssertion<'r>, VerificationError<SignInRefusal>>
    ensures accepted { IfOk result (λ x. PassesSignIn (V.valid verifier.now) (judged_sign_in_view attempt.now)
        × IsVerifiedSignIn (judged_sign_in_view attempt.now) x) }
    ensures refused { IfErr result (IsRefused (V.valid verifier.now) (judged_sign_in_view attempt.now)) }
    ensures memory { IsErrOf result VerificationError.Memory → IsExpected (judged_sign_in_view attempt.now) → ⊥ }
{
    let (session, credential) = attempt.expected()?;
    attempt.check_client_data(alloc, session)?;
    let auth_data = attempt.auth_data(session)?;
    attempt.check_signature(verifier, &credential, &auth_data)?;
    Ok(VerifiedAssertion { auth_data })
}
