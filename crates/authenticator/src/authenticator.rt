//! The authenticator.

ghost use Rattle.std.specs.Prelude.{◌≡◌, ◌≤◌, ◌∷◌, [], IfOk, OnErr, OnOk, length};
ghost use Rattle.ctap_requests.specs.RequestView.{lent_request_view};
ghost use Rattle.ctap_requests.specs.Requests as requests;
ghost use Rattle.authenticator.specs.Private.{HasUser, RequestBegins};
ghost use Rattle.authenticator.specs.Signing.{AgreesOn, Begins, Finishes, HasSize};
ghost use Rattle.authenticator.specs.State.{forgotten, new_state};
ghost use Rattle.authenticator.specs.Steps.{Informs, Keys, Resets, Steps, Unless};
ghost use Rattle.authenticator.specs.Orders.{reset_order};
ghost use Rattle.refusal_order.specs.Lines.{first_true};

use crate::consent::{Consent, Words};
use crate::credential::StoredCredential;
use crate::keys::{PublicKeys, SchemeKeys};
use crate::pending::{Begun, Pending, Work};
use crate::remembered::RememberedAssertion;
use crate::reply::{info_bytes, status_alone, written};
use authdata::AttestationType;
use cose::Signer;
use ctap_encoding::Error;
use ctap_encoding::status::OPERATION_DENIED;
use ctap_replies::Reply;
use ctap_requests::{RequestView, view_request};
use std::alloc::{AllocError, Global};
use std::marker::Model;

/// A software authenticator: its credentials, and at most one getAssertion that a getNextAssertion goes on with.
/// The signature scheme, the user's consent and random words are handed to each call.
#[derive(Drop)]
pub struct Authenticator {
    pub(crate) aaguid: [u8; 16],
    pub(crate) uv: bool,
    pub(crate) attest: AttestationType,
    pub(crate) credentials: Vec<StoredCredential>,
    pub(crate) remembered: Option<RememberedAssertion>,
}

impl Model for Authenticator {
    ghost use Rattle.std.specs.Prelude.{option_map};
    ghost use Rattle.authenticator.specs.State.{AuthenticatorState};
    ghost use Rattle.authenticator.specs.Views.{credential_sources_view, remembered_view};

    ghost Value = { AuthenticatorState };

    ghost view = { λ a. record {
      aaguid = a.aaguid;
      uv = a.uv;
      attest = a.attest;
      credentials = credential_sources_view a.credentials.items;
      remembered = option_map remembered_view a.remembered;
    } };
}

impl Authenticator {
    /// An authenticator without credentials. It takes no memory.
    ///
    /// The aaguid names its kind; `uv` says whether it is configured to verify its user; `attest` how it attests
    /// new credentials: not at all, or by a signature of the credential's own key.
    pub fn new(alloc: Global, aaguid: [u8; 16], uv: bool, attest: AttestationType) -> Authenticator
        ensures { result ≡ new_state aaguid uv attest }
    {
        Authenticator {
            aaguid,
            uv,
            attest,
            credentials: Vec::new(alloc),
            remembered: None,
        }
    }

    /// How many credentials are stored: at most 256.
    pub fn len(&self) -> usize
        ensures { result ≡ length self.now.credentials }
    {
        self.credentials.len()
    }

    /// The allocator that the credentials use.
    pub(crate) fn allocator(&self) -> Global {
        *self.credentials.allocator()
    }

    /// Replies by a status alone; what was remembered is forgotten.
    pub(crate) fn refuse(&mut self, status: u8) -> Result<Vec<u8>, AllocError>
        ensures reply { IfOk result (λ reply. reply.items ≡ status ∷ []) }
        ensures ok { OnOk result (self.new ≡ forgotten self.old) }
        ensures err { OnErr result (self.new ≡ self.old) }
    {
        let reply = status_alone(self.allocator(), status)?;
        self.remembered = None;
        Ok(reply)
    }

    /// Answers a getInfo (CTAP 2.1, section 6.4).
    fn get_info(&mut self) -> Result<Vec<u8>, AllocError>
        ensures done { IfOk result (λ reply. Informs self.old (record { reply = reply.items; state = self.new; signed = []; made = [] })) }
        ensures size { IfOk result (λ reply. length reply.items ≤ 7609) }
        ensures err { OnErr result (self.new ≡ self.old) }
    {
        let reply = info_bytes(self.allocator(), &self.aaguid, self.uv)?;
        self.remembered = None;
        Ok(reply)
    }

    /// Answers a reset (CTAP 2.1, section 6.6).
    fn reset(&mut self, consent: Consent) -> Result<Vec<u8>, AllocError>
        ensures done { IfOk result (λ reply. Unless (first_true (reset_order consent)) self.old
            (record { reply = reply.items; state = self.new; signed = []; made = [] })
            (Resets self.old (record { reply = reply.items; state = self.new; signed = []; made = [] }))) }
        ensures size { IfOk result (λ reply. length reply.items ≤ 7609) }
        ensures err { OnErr result (self.new ≡ self.old) }
    {
        if !consent.present {
            return self.refuse(OPERATION_DENIED);
        }
        let reply = written(self.allocator(), Reply::Reset)?;
        self.credentials.clear();
        self.remembered = None;
        Ok(reply)
    }

    /// Begins a request that was read.
    fn carry_out<K: PublicKeys>(
        &mut self,
        keys: &K,
        channel: u32,
        request: RequestView<'_>,
        consent: Consent,
        words: Words,
    ) -> Result<Begun, AllocError>
        requires { HasUser (lent_request_view request) }
        ensures done { (public : Keys) → AgreesOn words.secret public (K.public_of keys.now)
            → IfOk result (λ begun. RequestBegins public self.old channel consent words (lent_request_view request.entry) begun self.new) }
        ensures size { IfOk result HasSize }
        ensures err { OnErr result (self.new ≡ self.old) }
    {
        match request {
            RequestView::MakeCredential(request) => {
                self.begin_creation(keys, request, consent, words)
            }
            RequestView::GetAssertion(request) => self.begin_assertion(channel, &request, consent),
            RequestView::GetNextAssertion => self.begin_next(channel),
            RequestView::GetInfo => Ok(Begun::Replied(self.get_info()?)),
            RequestView::Reset => Ok(Begun::Replied(self.reset(consent)?)),
        }
    }

    /// The first of two steps, for a host that signs elsewhere: answers a request as [`Authenticator::handle`] does, or
    /// tells what is to be signed. Until [`Authenticator::finish`] takes the signature the authenticator is as it was:
    /// no counter has grown, and no credential was made. So what waits may be dropped.
    ///
    /// Presence and verification are asked for here, in the orders of `handle`. The keys are asked for the public key of
    /// the secret that is passed, where a credential is to be made, and for no other: so they may be the keys of this one
    /// secret alone ([`HandedKeys`](crate::HandedKeys)), and a credential that is stored answers under the keys of its own.
    pub fn begin<K: PublicKeys>(
        &mut self,
        keys: &K,
        channel: u32,
        request: &[u8],
        consent: Consent,
        words: Words,
    ) -> Result<Begun, AllocError>
        ensures begun { (public : Keys) → AgreesOn words.secret public (K.public_of keys.now)
            → IfOk result (λ begun. Begins public self.old channel request.now consent words begun self.new) }
        ensures size { IfOk result HasSize }
        ensures memory { OnErr result (self.new ≡ self.old) }
    {
        match view_request(self.allocator(), request) {
            Ok(request) => self.carry_out(keys, channel, request, consent, words),
            Err(Error::Status(status)) => Ok(Begun::Replied(self.refuse(status)?)),
            Err(_) => Err(AllocError),
        }
    }

    /// The second step: takes the signature, of 1 to 128 bytes, of what [`Authenticator::begin`] told, and answers the
    /// request. The counter grows here, or the credential is stored.
    ///
    /// The authenticator is to be as `begin` left it. If memory runs out, nothing has changed.
    pub fn finish(&mut self, pending: Pending, signature: &[u8]) -> Result<Vec<u8>, AllocError>
        requires low { 1 ≤ length signature.now }
        requires high { length signature.now ≤ 128 }
        ensures finished { IfOk result (λ reply. Finishes self.old pending signature.now reply.items self.new) }
        ensures size { IfOk result (λ reply. length reply.items ≤ 7609) }
        ensures memory { OnErr result (self.new ≡ self.old) }
    {
        let Pending { alg, work, .. } = pending;
        match work {
            Work::Creation(creation) => self.finish_creation(alg, creation, signature),
            Work::Assertion(assertion) => self.finish_assertion(assertion, signature),
            Work::Next(next) => self.finish_next(next, signature),
        }
    }

    /// Answers a request that came on a channel: always with a status byte first, and with at most 7,609 bytes.
    ///
    /// Bytes that are no request are answered by the status byte that
    /// [`view_request`](ctap_requests::view_request) gives for them, and a request by the first of these that applies:
    ///
    /// - makeCredential (CTAP 2.1, section 6.1): 0x26 no algorithm of type `public-key` is supported (ES256 and
    ///   EdDSA are); 0x2C `up` is false, or `uv` is true and verification isn't configured; 0x27 presence isn't
    ///   given, or `uv` is true and verification isn't given; 0x19 a credential of the exclude list is stored for
    ///   the relying party; 0x7F the id passed is taken; 0x28 256 credentials are stored and none is
    ///   overwritten. Otherwise a credential is made, of the first supported algorithm. Where it is resident, it
    ///   takes the place of a resident one of the same relying party and user.
    /// - getAssertion (section 6.2): 0x2C `uv` is true and verification isn't configured; 0x27 `up` isn't false
    ///   and presence isn't given, or `uv` is true and verification isn't given; 0x2E no credential may answer;
    ///   0x7F the first one's counter is at its end. Otherwise the first credential answers, and the others are
    ///   remembered.
    /// - getNextAssertion (section 6.3): 0x30 nothing is remembered on this channel; 0x7F the next credential's
    ///   counter is at its end. Otherwise the next one answers.
    /// - getInfo (section 6.4) is always answered.
    /// - reset (section 6.6): 0x27 presence isn't given. Otherwise all credentials go.
    ///
    /// Each call but a getNextAssertion that is answered forgets what was remembered. If memory runs out,
    /// nothing has changed.
    pub fn handle<S: Signer>(
        &mut self,
        scheme: &S,
        channel: u32,
        request: &[u8],
        consent: Consent,
        words: Words,
    ) -> Result<Vec<u8>, AllocError>
        ensures stepped { IfOk result (λ reply. Steps (S.valid scheme.now)
            (S.public_of scheme.now) self.old channel request.now consent words reply.items self.new) }
        ensures size { IfOk result (λ reply. length reply.items ≤ 7609) }
        ensures memory { OnErr result (self.new ≡ self.old) }
    {
        let keys = SchemeKeys { scheme };
        let begun = self.begin(&keys, channel, request, consent, words);
        let SchemeKeys { scheme } = keys;
        match begun? {
            Begun::Replied(reply) => Ok(reply),
            Begun::Signs(pending) => {
                let signature = pending.signature(self.allocator(), scheme)?;
                self.finish(pending, signature.as_slice())
            }
        }
    }
}
