//! Sign-in, from packets to the site's verdict.

ghost use Rattle.std.specs.Prelude.{◌≡◌, List, ℕ, IfErr, IfOk, MatchResult, OnErr, OnOk};
ghost use Rattle.hidframe.specs.declared.Packet.{Packet};
ghost use Rattle.ctap_replies.specs.Replies.{Assertion, ReplyOf, assertion_reply};
ghost use Rattle.ctap_replies.specs.ReplyView.{lent_assertion_view};
ghost use Rattle.client.specs.Responses.{response_of};
ghost use Rattle.verification.specs.SignIn.{PassesSignIn};
ghost use Rattle.verification.specs.Views.{assertion_parts_view};
ghost use Rattle.site.specs.Answers.{IsSignedIn};
ghost use Rattle.site.specs.State.{IsAfterSignIn, judged_sign_in};
ghost use Rattle.ceremony.specs.Packets.{HasGot};
ghost use Rattle.ceremony.specs.SignIn as ceremony;
ghost use Rattle.ceremony.specs.SignIn.{AcceptsSignIn, Begins, CarriesBeginning, IsAfter};
ghost use Rattle.ceremony.specs.Verdict.{Refused, RefusedMessage, Succeeds};
ghost use Rattle.ceremony.specs.declared.error.Error.TheVariants as errors;

use crate::error::Error;
use crate::live::Live;
use cose::Verifier;
use ctap_replies::{AssertionView, read_assertion};
use hidframe::Packet;
use site::{AssertionParts, SignInRefusal, SignedIn, Site, VerificationError};
use std::alloc::Global;

/// Who signed in, with which credential, and how many packets it took.
#[derive(Debug, Drop)]
pub struct Accepted {
    /// The user handle of the credential's account: 1 to 64 bytes.
    pub user: Vec<u8>,
    /// The credential id: 1 to 64 bytes.
    pub credential: Vec<u8>,
    /// Whether the credential is backed up now (BS).
    pub backed_up: bool,
    /// How many packets were used. Later ones change nothing.
    pub used: u64,
}

/// The response that a reply makes with client data.
fn parts<'a>(reply: &AssertionView<'a>, client_data: &'a [u8]) -> AssertionParts<'a>
    ensures { assertion_parts_view result ≡ response_of (lent_assertion_view reply.now) client_data.now }
{
    AssertionParts {
        credential: reply.credential,
        user: reply.user,
        auth_data: reply.auth_data,
        signature: reply.signature,
        client_data,
    }
}

/// Signs in by a message.
fn judge<V: Verifier>(
    site: &mut Site,
    verifier: &V,
    session: u64,
    client_data: &[u8],
    message: &[u8],
) -> Result<SignedIn, Error<SignInRefusal>>
    ensures accepted { IfOk result (λ x. (r : Assertion) × ReplyOf (assertion_reply r) message.now
        × PassesSignIn (V.valid verifier.now) (judged_sign_in site.old session (response_of r client_data.now))
        × IsSignedIn site.old (response_of r client_data.now) x × IsAfterSignIn site.old session (response_of r client_data.now) site.new) }
    ensures complete { (r : Assertion) → ReplyOf (assertion_reply r) message.now
        → PassesSignIn (V.valid verifier.now) (judged_sign_in site.old session (response_of r client_data.now)) → IfErr result (λ e. e ≡ errors.Memory) }
    ensures refused { IfErr result (RefusedMessage (ceremony.sign_in (V.valid verifier.now) site.old session client_data.now) message.now) }
    ensures memory { IfErr result (λ e. e ≡ errors.Memory
        → (r : Assertion) × ReplyOf (assertion_reply r) message.now × Begins (V.valid verifier.now) site.old session client_data.now r) }
    ensures unchanged { OnErr result (site.new ≡ site.old) }
{
    let reply = match read_assertion(message) {
        Ok(reply) => reply,
        Err(error) => return Err(Error::Reply(error)),
    };
    match site.finish_parts(verifier, session, &parts(&reply, client_data)) {
        Ok(signed_in) => Ok(signed_in),
        Err(VerificationError::Refused(step)) => Err(Error::Refused(step)),
        Err(VerificationError::Memory) => Err(Error::Memory),
    }
}

impl Live {
    /// Signs in by the packets that came, in a session, with the client data that were sent with the request.
    ///
    /// Refusals, the first that applies: of the packets `DeviceError`, `Dead` and `Incomplete`; of the message `Reply`;
    /// of the site `Refused` with its step. `Memory` comes only where the packets carry a reply that passes the steps on
    /// session and credential. After a refusal it can be called again, in another session too.
    pub fn finish<V: Verifier>(
        &self,
        site: &mut Site,
        verifier: &V,
        session: u64,
        client_data: &[u8],
    ) -> Result<Accepted, Error<SignInRefusal>>
        // It is accepted after n packets exactly if these carry a reply which passes each step of the site:
        // where it is accepted, they do,
        ensures accepted { (ps : List Packet) → HasGot self.now ps
            → IfOk result (AcceptsSignIn (V.valid verifier.now) site.old session client_data.now self.now.cid ps) }
        // and where they do, it is accepted after just these, unless memory runs out.
        ensures complete { (ps : List Packet) (n : ℕ) (r : Assertion) → HasGot self.now ps
            → Succeeds (ceremony.sign_in (V.valid verifier.now) site.old session client_data.now) self.now.cid ps n r
            → MatchResult result (λ a. a.used ≡ n) (λ e. e ≡ errors.Memory) }

        // Otherwise the first layer or step that fails is named.
        ensures refused { (ps : List Packet) → HasGot self.now ps
            → IfErr result (Refused (ceremony.sign_in (V.valid verifier.now) site.old session client_data.now) self.now.cid ps) }
        ensures memory { (ps : List Packet) → HasGot self.now ps → IfErr result (λ e. e ≡ errors.Memory
            → CarriesBeginning (V.valid verifier.now) site.old session client_data.now self.now.cid ps) }

        // Once accepted the credential's counter and mark are those received, the session is closed, and nothing else
        // has changed.
        ensures after { (ps : List Packet) → HasGot self.now ps
            → OnOk result (IsAfter site.old session client_data.now self.now.cid ps site.new) }
        ensures unchanged { OnErr result (site.new ≡ site.old) }
    {
        // A match, since `?` would hide that the refusal is the callee's.
        let message = match self.message() {
            Ok(message) => message,
            Err(error) => return Err(error),
        };
        match judge(site, verifier, session, client_data, message) {
            Ok(
                SignedIn {
                    user,
                    credential,
                    backed_up,
                },
            ) => Ok(Accepted {
                user,
                credential,
                backed_up,
                used: self.fed(),
            }),
            Err(error) => Err(error),
        }
    }
}

/// Signs in by packets, in a session, with the client data that were sent with the request: what the site's verdict on
/// them is.
///
/// The packets are those that came from the device after the request was sent, on channel `cid` and on others.
/// Refusals are those of [`Live::finish`]; `Memory` also where there was none for the packets' message. Packets after
/// the message change nothing.
pub fn sign_in<V: Verifier>(
    alloc: Global,
    site: &mut Site,
    verifier: &V,
    session: u64,
    cid: u32,
    client_data: &[u8],
    packets: &[Packet],
) -> Result<Accepted, Error<SignInRefusal>>
    // It is accepted after n packets exactly if these carry a reply which passes each step of the site:
    // where it is accepted, they do,
    ensures accepted { IfOk result (AcceptsSignIn (V.valid verifier.now) site.old session client_data.now cid packets.now) }
    // and where they do, it is accepted after just these, unless memory runs out.
    ensures complete { (n : ℕ) (r : Assertion)
        → Succeeds (ceremony.sign_in (V.valid verifier.now) site.old session client_data.now) cid packets.now n r
        → MatchResult result (λ a. a.used ≡ n) (λ e. e ≡ errors.Memory) }

    // Otherwise the first layer or step that fails is named.
    ensures refused { IfErr result (Refused (ceremony.sign_in (V.valid verifier.now) site.old session client_data.now) cid packets.now) }

    // Once accepted the credential's counter and mark are those received, the session is closed, and nothing else has
    // changed.
    ensures after { OnOk result (IsAfter site.old session client_data.now cid packets.now site.new) }
    ensures unchanged { OnErr result (site.new ≡ site.old) }
{
    let mut live = Live::new(alloc, cid)?;
    live.feed_all(packets);
    live.finish(site, verifier, session, client_data)
}
