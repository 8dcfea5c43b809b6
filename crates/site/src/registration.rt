//! Finishing a registration (WebAuthn Level 2, section 7.1).

ghost use Rattle.std.specs.Prelude.{◌≡◌, IfErr, IfOk, OnErr, OnOk};
ghost use Rattle.authdata.specs.Responses.{registration_response_view};
ghost use Rattle.verification.specs.Registration.{PassesRegistration};
ghost use Rattle.verification.specs.RegistrationAnswers.{IsRefused};
ghost use Rattle.verification.specs.Views.{registration_parts_view};
ghost use Rattle.site.specs.Answers.{IsRegistered};
ghost use Rattle.site.specs.State.{IsAfterRegistration, judged_registration};

use crate::site::Site;
use authdata::RegistrationResponse;
use cose::Verifier;
use site_state::Row;
use verification::{
    RegistrationAttempt, RegistrationParts, RegistrationRefusal, VerificationError,
    verify_registration,
};

/// Which credential was registered.
#[derive(Debug, Drop)]
pub struct Registered {
    /// The credential id.
    pub credential: Vec<u8>,
}

/// The members of a response that is owned.
fn parts(response: &RegistrationResponse) -> RegistrationParts<'_>
    ensures { registration_parts_view result ≡ registration_response_view response.now }
{
    RegistrationParts {
        object: &response.object,
        client_data: &response.client_data,
        raw_id: None,
    }
}

impl Site {
    /// Finishes a registration: the credential that the response attests stands last in the table, as the session's
    /// user's, and the session is closed.
    ///
    /// `Refused` with the first step of section 7.1 that the response does not pass in this session; `Memory` where
    /// there was none to read the client data or for the credential. Then nothing has changed: the session is open.
    pub fn finish_registration_parts<V: Verifier>(
        &mut self,
        verifier: &V,
        session: u64,
        response: &RegistrationParts<'_>,
    ) -> Result<Registered, VerificationError<RegistrationRefusal>>
        // It is accepted only if it passes each step,
        ensures accepted { IfOk result (λ x. PassesRegistration (V.valid verifier.now)
            (judged_registration self.old session (registration_parts_view response.now))
            × IsRegistered self.old (registration_parts_view response.now) x) }
        // and refused at the first step that it does not pass.
        ensures refused { IfErr result (IsRefused (V.valid verifier.now) (judged_registration self.old session (registration_parts_view response.now))) }
        ensures after { OnOk result (IsAfterRegistration self.old session (registration_parts_view response.now) self.new) }
        ensures unchanged { OnErr result (self.new ≡ self.old) }
    {
        let alloc = self.alloc;
        let expected = self.sessions.registration(session);
        let verified = verify_registration(
            alloc,
            verifier,
            &RegistrationAttempt {
                party: &self.party,
                policy: self.policy,
                session: expected,
                response: *response,
            },
        )?;
        let is_registered = self.table.has(verified.id());
        let admitted = verified.admit(is_registered, self.table.is_full())?;
        let user = Vec::from_slice(alloc, &expected.unwrap().user)?;
        let id = Vec::from_slice(alloc, admitted.id)?;
        let key = admitted.key.to_key(alloc)?;
        let credential = Vec::from_slice(alloc, admitted.id)?;
        self.table.push(Row {
            id,
            user,
            key,
            sign_count: admitted.sign_count,
            eligible: Some(admitted.eligible),
            retired: false,
        })?;
        self.sessions.close(session);
        Ok(Registered { credential })
    }

    /// Finishes a registration with a response that is owned: `finish_registration_parts` of what it holds.
    pub fn finish_registration<V: Verifier>(
        &mut self,
        verifier: &V,
        session: u64,
        response: &RegistrationResponse,
    ) -> Result<Registered, VerificationError<RegistrationRefusal>>
        ensures accepted { IfOk result (λ x. PassesRegistration (V.valid verifier.now)
            (judged_registration self.old session (registration_response_view response.now))
            × IsRegistered self.old (registration_response_view response.now) x) }
        ensures refused { IfErr result (IsRefused (V.valid verifier.now) (judged_registration self.old session (registration_response_view response.now))) }
        ensures after { OnOk result (IsAfterRegistration self.old session (registration_response_view response.now) self.new) }
        ensures unchanged { OnErr result (self.new ≡ self.old) }
    {
        self.finish_registration_parts(verifier, session, &parts(response))
    }
}
