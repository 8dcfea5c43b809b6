//! Finishing a sign-in (WebAuthn Level 2, section 7.2).

ghost use Rattle.std.specs.Prelude.{◌≡◌, IfErr, IfOk, OnErr, OnOk, option_map};
ghost use Rattle.authdata.specs.Responses.{assertion_response_view};
ghost use Rattle.verification.specs.SignInAnswers.{IsRefused};
ghost use Rattle.verification.specs.SignIn.{PassesSignIn};
ghost use Rattle.verification.specs.Views.{assertion_parts_view, credential_view};
ghost use Rattle.site.specs.Answers.{IsSignedIn};
ghost use Rattle.site.specs.State.{IsAfterSignIn, judged_sign_in};

use crate::site::Site;
use authdata::AssertionResponse;
use cose::Verifier;
use std::alloc::{AllocError, Global};
use verification::{
    AssertionParts, RowView, SignInAttempt, SignInRefusal, VerificationError, verify_assertion,
};

/// Who signed in, and with which credential.
#[derive(Debug, Drop)]
pub struct SignedIn {
    /// The user handle of the credential's account.
    pub user: Vec<u8>,
    /// The credential id.
    pub credential: Vec<u8>,
    /// Whether the credential is backed up now (BS).
    pub backed_up: bool,
}

/// Copies of the user handle and of the credential id.
fn signed_in(
    alloc: Global,
    user: &[u8],
    credential: &[u8],
    backed_up: bool,
) -> Result<SignedIn, AllocError>
    ensures { IfOk result (λ x. (x.user.items ≡ user.now) × (x.credential.items ≡ credential.now) × (x.backed_up ≡ backed_up)) }
{
    Ok(SignedIn {
        user: Vec::from_slice(alloc, user)?,
        credential: Vec::from_slice(alloc, credential)?,
        backed_up,
    })
}

/// The credential that was found.
fn credential_in<'a>(found: &Option<(usize, RowView<'a>)>) -> Option<RowView<'a>>
    ensures { option_map credential_view result ≡ option_map (λ x. credential_view x.1) found.now }
{
    match found {
        Some((_, credential)) => Some(*credential),
        None => None,
    }
}

/// The members of a response that is owned.
fn parts(response: &AssertionResponse) -> AssertionParts<'_>
    ensures { assertion_parts_view result ≡ assertion_response_view response.now }
{
    AssertionParts {
        credential: &response.credential,
        user: response.user.as_deref(),
        auth_data: &response.auth_data,
        signature: &response.signature,
        client_data: &response.client_data,
    }
}

impl Site {
    /// Finishes a sign-in: the response's credential keeps the counter and the mark of eligibility that came, and
    /// the session is closed.
    ///
    /// `Refused` with the first step of section 7.2 that the response does not pass in this session; `Memory` only
    /// where it passes the first four, on session and credential. Then nothing has changed: the session is open.
    pub fn finish_parts<V: Verifier>(
        &mut self,
        verifier: &V,
        session: u64,
        response: &AssertionParts<'_>,
    ) -> Result<SignedIn, VerificationError<SignInRefusal>>
        // It is accepted only if it passes each step,
        ensures accepted { IfOk result (λ x. PassesSignIn (V.valid verifier.now) (judged_sign_in self.old session (assertion_parts_view response.now))
            × IsSignedIn self.old (assertion_parts_view response.now) x) }
        // and refused at the first step that it does not pass.
        ensures refused { IfErr result (IsRefused (V.valid verifier.now) (judged_sign_in self.old session (assertion_parts_view response.now))) }
        ensures after { OnOk result (IsAfterSignIn self.old session (assertion_parts_view response.now) self.new) }
        ensures unchanged { OnErr result (self.new ≡ self.old) }
    {
        let found = self.table.find(response.credential);
        let verified = verify_assertion(
            self.alloc,
            verifier,
            &SignInAttempt {
                party: &self.party,
                session: self.sessions.sign_in(session),
                credential: credential_in(&found),
                response: *response,
            },
        )?;
        let (place, credential) = found.unwrap();
        let signed_in = signed_in(
            self.alloc,
            credential.user,
            response.credential,
            verified.backed_up(),
        )?;
        self.table
            .store(place, verified.auth_data.sign_count, verified.eligible());
        self.sessions.close(session);
        Ok(signed_in)
    }

    /// Finishes a sign-in with a response that is owned: `finish_parts` of what it holds.
    pub fn finish_sign_in<V: Verifier>(
        &mut self,
        verifier: &V,
        session: u64,
        response: &AssertionResponse,
    ) -> Result<SignedIn, VerificationError<SignInRefusal>>
        ensures accepted { IfOk result (λ x. PassesSignIn (V.valid verifier.now) (judged_sign_in self.old session (assertion_response_view response.now))
            × IsSignedIn self.old (assertion_response_view response.now) x) }
        ensures refused { IfErr result (IsRefused (V.valid verifier.now) (judged_sign_in self.old session (assertion_response_view response.now))) }
        ensures after { OnOk result (IsAfterSignIn self.old session (assertion_response_view response.now) self.new) }
        ensures unchanged { OnErr result (self.new ≡ self.old) }
    {
        self.finish_parts(verifier, session, &parts(response))
    }
}
