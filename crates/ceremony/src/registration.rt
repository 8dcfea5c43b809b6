//! Registration, from packets to the site's verdict.

ghost use Rattle.std.specs.Prelude.{◌≡◌, List, None, ℕ, IfErr, IfOk, MatchResult, OnErr, OnOk};
ghost use Rattle.hidframe.specs.declared.Packet.{Packet};
ghost use Rattle.ctap_replies.specs.Replies.{Creation, ReplyOf, creation_reply};
ghost use Rattle.ctap_replies.specs.ReplyView.{creation_reply_view};
ghost use Rattle.authdata.specs.Objects.{ObjectOf};
ghost use Rattle.client.specs.Responses.{object_of};
ghost use Rattle.verification.specs.Registration.{PassesRegistration};
ghost use Rattle.verification.specs.Views.{registration_parts_view};
ghost use Rattle.site.specs.Answers.{IsRegistered};
ghost use Rattle.site.specs.State.{IsAfterRegistration, judged_registration};
ghost use Rattle.ceremony.specs.Packets.{HasGot};
ghost use Rattle.ceremony.specs.Registration as ceremony;
ghost use Rattle.ceremony.specs.Registration.{AcceptsRegistration, IsAfter, response};
ghost use Rattle.ceremony.specs.Verdict.{Refused, RefusedMessage, Succeeds};
ghost use Rattle.ceremony.specs.declared.error.Error.TheVariants as errors;

use crate::error::Error;
use crate::live::Live;
use client::{ResponseError, attestation_object};
use cose::Verifier;
use ctap_replies::{CreationReply, read_creation};
use hidframe::Packet;
use site::{Registered, RegistrationParts, RegistrationRefusal, Site, VerificationError};
use std::alloc::{AllocError, Global};

/// Which credential was registered, and how many packets it took.
#[derive(Debug, Drop)]
pub struct Enrolled {
    /// The credential id: 1 to 64 bytes.
    pub credential: Vec<u8>,
    /// How many packets were used. Later ones change nothing.
    pub used: u64,
}

/// The attestation object of a reply that was read, which always has one.
fn object(alloc: Global, reply: CreationReply) -> Result<Vec<u8>, AllocError>
    requires { (m : List ℕ) × ReplyOf (creation_reply (creation_reply_view reply)) m }
    ensures { IfOk result (λ o. ObjectOf (object_of (creation_reply_view reply)) o.items) }
{
    match attestation_object(alloc, reply) {
        Ok(bytes) => Ok(bytes),
        Err(error) => {
            let unfit = matches!(error, ResponseError::Unfit);
            prove!(!unfit);
            Err(AllocError)
        }
    }
}

/// A response of this object and these client data, whose id is not passed.
fn parts<'a>(object: &'a [u8], client_data: &'a [u8]) -> RegistrationParts<'a>
    ensures { registration_parts_view result ≡ record { object = object.now; client_data = client_data.now; raw_id = None } }
{
    RegistrationParts {
        object,
        client_data,
        raw_id: None,
    }
}

/// Registers by a message.
fn judge<V: Verifier>(
    alloc: Global,
    site: &mut Site,
    verifier: &V,
    session: u64,
    client_data: &[u8],
    message: &[u8],
) -> Result<Registered, Error<RegistrationRefusal>>
    ensures accepted { IfOk result (λ x. (r : Creation) × ReplyOf (creation_reply r) message.now
        × PassesRegistration (V.valid verifier.now) (judged_registration site.old session (response r client_data.now))
        × IsRegistered site.old (response r client_data.now) x × IsAfterRegistration site.old session (response r client_data.now) site.new) }
    ensures complete { (r : Creation) → ReplyOf (creation_reply r) message.now
        → PassesRegistration (V.valid verifier.now) (judged_registration site.old session (response r client_data.now))
        → IfErr result (λ e. e ≡ errors.Memory) }
    ensures refused { IfErr result (RefusedMessage (ceremony.registration (V.valid verifier.now) site.old session client_data.now) message.now) }
    ensures unchanged { OnErr result (site.new ≡ site.old) }
{
    let reply = match read_creation(alloc, message) {
        Ok(reply) => reply,
        Err(error) => match error {
            ctap_encoding::Error::Memory => return Err(Error::Memory),
            _ => return Err(Error::Reply(error)),
        },
    };
    let object = object(alloc, reply)?;
    let response = parts(&object, client_data);
    match site.finish_registration_parts(verifier, session, &response) {
        Ok(registered) => Ok(registered),
        Err(VerificationError::Refused(step)) => Err(Error::Refused(step)),
        Err(VerificationError::Memory) => Err(Error::Memory),
    }
}

impl Live {
    /// Registers by the packets that came, in a session, with the client data that were sent with the request.
    ///
    /// Refusals are those of [`Live::finish`], with the steps of registration; `Memory` comes where there was none for
    /// the reply, the attestation object or the credential. After a refusal it can be called again, in another session
    /// too.
    pub fn finish_registration<V: Verifier>(
        &self,
        alloc: Global,
        site: &mut Site,
        verifier: &V,
        session: u64,
        client_data: &[u8],
    ) -> Result<Enrolled, Error<RegistrationRefusal>>
        // It is accepted after n packets exactly if these carry a reply which passes each step of the site:
        // where it is accepted, they do,
        ensures accepted { (ps : List Packet) → HasGot self.now ps
            → IfOk result (AcceptsRegistration (V.valid verifier.now) site.old session client_data.now self.now.cid ps) }
        // and where they do, it is accepted after just these, unless memory runs out.
        ensures complete { (ps : List Packet) (n : ℕ) (r : Creation) → HasGot self.now ps
            → Succeeds (ceremony.registration (V.valid verifier.now) site.old session client_data.now) self.now.cid ps n r
            → MatchResult result (λ a. a.used ≡ n) (λ e. e ≡ errors.Memory) }

        // Otherwise the first layer or step that fails is named.
        ensures refused { (ps : List Packet) → HasGot self.now ps
            → IfErr result (Refused (ceremony.registration (V.valid verifier.now) site.old session client_data.now) self.now.cid ps) }

        // Once accepted the credential stands last in the table, the session is closed, and nothing else has changed.
        ensures after { (ps : List Packet) → HasGot self.now ps
            → OnOk result (IsAfter site.old session client_data.now self.now.cid ps site.new) }
        ensures unchanged { OnErr result (site.new ≡ site.old) }
    {
        // A match, since `?` would hide that the refusal is the callee's.
        let message = match self.message() {
            Ok(message) => message,
            Err(error) => return Err(error),
        };
        match judge(alloc, site, verifier, session, client_data, message) {
            Ok(Registered { credential }) => Ok(Enrolled {
                credential,
                used: self.fed(),
            }),
            Err(error) => Err(error),
        }
    }
}

/// Registers by packets, in a session, with the client data that were sent with the request: what the site's verdict on
/// them is.
///
/// The packets are those that came from the device after the request was sent, on channel `cid` and on others.
/// Refusals are those of [`Live::finish_registration`]; `Memory` also where there was none for the packets' message.
/// Packets after the message change nothing.
pub fn register<V: Verifier>(
    alloc: Global,
    site: &mut Site,
    verifier: &V,
    session: u64,
    cid: u32,
    client_data: &[u8],
    packets: &[Packet],
) -> Result<Enrolled, Error<RegistrationRefusal>>
    // It is accepted after n packets exactly if these carry a reply which passes each step of the site:
    // where it is accepted, they do,
    ensures accepted { IfOk result (AcceptsRegistration (V.valid verifier.now) site.old session client_data.now cid packets.now) }
    // and where they do, it is accepted after just these, unless memory runs out.
    ensures complete { (n : ℕ) (r : Creation)
        → Succeeds (ceremony.registration (V.valid verifier.now) site.old session client_data.now) cid packets.now n r
        → MatchResult result (λ a. a.used ≡ n) (λ e. e ≡ errors.Memory) }

    // Otherwise the first layer or step that fails is named.
    ensures refused { IfErr result (Refused (ceremony.registration (V.valid verifier.now) site.old session client_data.now) cid packets.now) }

    // Once accepted the credential stands last in the table, the session is closed, and nothing else has changed.
    ensures after { OnOk result (IsAfter site.old session client_data.now cid packets.now site.new) }
    ensures unchanged { OnErr result (site.new ≡ site.old) }
{
    let mut live = Live::new(alloc, cid)?;
    live.feed_all(packets);
    live.finish_registration(alloc, site, verifier, session, client_data)
}
