//! authenticatorMakeCredential (CTAP 2.1, section 6.1).

ghost use Rattle.std.specs.Prelude.{◌≡◌, ◌<◌, ◌≤◌, ◌++◌, ◌∷◌, ◌||◌, [], IfOk, IfSome, OnErr, OnOk, ℤ, codes, length, map, nat_le, option_map};
ghost use Rattle.ctap_requests.specs.RequestView.{creation_view, parameters_view};
ghost use Rattle.ctap_replies.specs.Replies.{ReplyOf, creation_reply};
ghost use Rattle.cose.specs.Keys.{signed_alg};
ghost use Rattle.authdata.specs.Statements.{none_statement, packed_statement};
ghost use Rattle.authenticator.specs.Orders.{first_supported, is_false, is_true, kept, supported, supported_by};
ghost use Rattle.authenticator.specs.Private.{CreationBegins, IsChoice, IsUser, Overwrites, asks_resident, without};
ghost use Rattle.authenticator.specs.Signing.{AgreesOn, HasSize};
ghost use Rattle.authenticator.specs.State.{forgotten};
ghost use Rattle.authenticator.specs.Steps.{Keys, new_credential};
ghost use Rattle.authenticator.specs.Views.{credential_source_view, credential_sources_view};

use crate::attestation::{no_statement, packed};
use crate::authenticator::Authenticator;
use crate::consent::{Consent, Words};
use crate::credential::StoredCredential;
use crate::credentials::{find, is_excluded, is_public_key, resident_place, store};
use crate::keys::PublicKeys;
use crate::options::{creation_options, is_denied, is_false, is_true, is_unmet};
use crate::pending::{Begun, Pending, PendingCreation, Work};
use crate::reply::written;
use authdata::AttestationType;
use cose::SigningAlg;
use ctap_encoding::status::{
    CREDENTIAL_EXCLUDED, INVALID_OPTION, KEY_STORE_FULL, OPERATION_DENIED, OTHER,
    UNSUPPORTED_ALGORITHM,
};
use ctap_replies::{CreationReply, Reply};
use ctap_requests::{MakeCredential, Parameters, RelyingParty, User};
use sha2::{Digest, Sha256};
use std::alloc::{AllocError, Global};

/// The most credentials of one authenticator.
pub const MAX_CREDENTIALS: usize = 256;

/// The algorithm of a COSE number, where it is supported (RFC 9053 section 2).
fn supported(number: i128) -> Option<SigningAlg>
    ensures { result ≡ supported number }
{
    if number == -7 {
        Some(SigningAlg::Es256)
    } else if number == -8 {
        Some(SigningAlg::EdDsa)
    } else {
        None
    }
}

/// The algorithm that the parameters ask for, where it is supported.
fn supported_by(parameters: &Parameters) -> Option<SigningAlg>
    ensures { result ≡ supported_by (parameters_view parameters.now) }
{
    if is_public_key(parameters.kind.as_str()) {
        supported(parameters.alg)
    } else {
        None
    }
}

/// The first algorithm that is supported.
fn first_supported(list: &[Parameters]) -> Option<SigningAlg>
    ensures { result ≡ first_supported (map parameters_view list.now) }
{
    for parameters in list {
        if let Some(alg) = supported_by(parameters) {
            return Some(alg);
        }
    }
    None
}

/// What is made for a makeCredential.
#[derive(Clone, Copy, Drop)]
pub(crate) struct Choice {
    /// The algorithm of the new credential.
    pub alg: SigningAlg,
    /// Whether the user is verified.
    pub uv: bool,
    /// Whether the new credential is to be resident.
    pub resident: bool,
    /// Where the credential stands that it overwrites.
    pub overwritten: Option<usize>,
}

/// Where the credential stands that the new one takes the place of: a resident one of the same relying party and
/// user, where the new one is to be resident.
fn overwritten(
    credentials: &[StoredCredential],
    request: &MakeCredential,
    resident: bool,
) -> Option<usize>
    requires { resident ≡ asks_resident (creation_view request.now) }
    ensures { Overwrites (credential_sources_view credentials.now) (creation_view request.now) result }
{
    if !resident {
        return None;
    }
    resident_place(credentials, request.rp.id.as_str(), &request.user.id)
}

/// Whether no room is left for another credential.
fn is_full(credentials: &[StoredCredential], overwritten: Option<usize>) -> bool
    requires { IfSome overwritten (λ i. i < length credentials.now) }
    ensures { result ≡ nat_le 256 (length (without credentials.now overwritten)) }
{
    match overwritten {
        Some(_) => MAX_CREDENTIALS < credentials.len(),
        None => MAX_CREDENTIALS <= credentials.len(),
    }
}

/// The new credential.
fn new_credential(request: MakeCredential, choice: Choice, words: &Words) -> StoredCredential
    requires { IsUser request.user.id.items }
    ensures { credential_source_view result
        ≡ record (new_credential (creation_view request) choice.alg words.now) { resident = choice.resident } }
{
    let MakeCredential { rp, user, .. } = request;
    let RelyingParty { id: rp_id, .. } = rp;
    let User { id: user, .. } = user;
    StoredCredential {
        id: words.id,
        rp_id_hash: Sha256::digest(rp_id.as_bytes()),
        rp_id,
        user,
        secret: words.secret,
        alg: choice.alg,
        resident: choice.resident,
        sign_count: 0,
    }
}

/// The reply of a credential that is attested by this signature.
fn packed_reply(
    alloc: Global,
    alg: SigningAlg,
    auth_data: Vec<u8>,
    signature: &[u8],
) -> Result<Vec<u8>, AllocError>
    requires low { 1 ≤ length signature.now }
    requires high { length signature.now ≤ 128 }
    requires data { length auth_data.items ≤ 164 }
    ensures reply { IfOk result (λ reply. ReplyOf (creation_reply (record {
      fmt = codes "packed";
      auth_data = auth_data.items;
      statement = packed_statement (signed_alg alg) signature.now;
    })) reply.items) }
    ensures size { IfOk result (λ reply. length reply.items ≤ 7609) }
{
    let signature = Vec::from_slice(alloc, signature)?;
    let statement = packed(alloc, alg, signature)?;
    let fmt = String::from_str(alloc, "packed")?;
    let shown = CreationReply {
        fmt,
        auth_data,
        statement,
    };
    written(alloc, Reply::MakeCredential(shown))
}

impl Authenticator {
    /// What is made for a makeCredential, or the status of the first line of the order that applies.
    fn creation_choice(
        &self,
        request: &MakeCredential,
        consent: Consent,
        words: &Words,
    ) -> Result<Choice, u8>
        ensures { IsChoice self.now (creation_view request.now) consent words.now result }
    {
        let options = creation_options(request.options);
        let Some(alg) = first_supported(&request.pub_key_cred_params) else {
            return Err(UNSUPPORTED_ALGORITHM);
        };
        if is_false(options.up) || is_unmet(options.uv, self.uv) {
            return Err(INVALID_OPTION);
        }
        if is_denied(true, options.uv, consent) {
            return Err(OPERATION_DENIED);
        }
        if is_excluded(
            &self.credentials,
            request.rp.id.as_str(),
            &request.exclude_list,
        ) {
            return Err(CREDENTIAL_EXCLUDED);
        }
        if find(&self.credentials, &words.id).is_some() {
            return Err(OTHER);
        }
        let resident = is_true(options.rk);
        let overwritten = overwritten(&self.credentials, request, resident);
        if is_full(&self.credentials, overwritten) {
            return Err(KEY_STORE_FULL);
        }
        Ok(Choice {
            alg,
            uv: is_true(options.uv),
            resident,
            overwritten,
        })
    }

    /// Stores the new credential, in place of the one that it overwrites; what was remembered is forgotten.
    fn add(
        &mut self,
        request: MakeCredential,
        choice: Choice,
        words: &Words,
    ) -> Result<(), AllocError>
        requires user { IsUser request.user.id.items }
        requires resident { choice.resident ≡ asks_resident (creation_view request) }
        requires overwritten { Overwrites self.old.credentials (creation_view request) choice.overwritten }
        ensures ok { OnOk result (self.new ≡ record (forgotten self.old)
            { credentials = kept self.old.credentials (creation_view request) ++ new_credential (creation_view request) choice.alg words.now ∷ [] }) }
        ensures err { OnErr result (self.new ≡ self.old) }
    {
        let credential = new_credential(request, choice, words);
        store(&mut self.credentials, credential, choice.overwritten)?;
        self.remembered = None;
        Ok(())
    }

    /// Makes a credential without an attestation.
    fn create(
        &mut self,
        request: MakeCredential,
        choice: Choice,
        words: &Words,
        auth_data: Vec<u8>,
    ) -> Result<Vec<u8>, AllocError>
        requires user { IsUser request.user.id.items }
        requires resident { choice.resident ≡ asks_resident (creation_view request) }
        requires overwritten { Overwrites self.old.credentials (creation_view request) choice.overwritten }
        requires size { length auth_data.items ≤ 164 }
        ensures reply { IfOk result (λ reply. ReplyOf (creation_reply (record { fmt = codes "none"; auth_data = auth_data.items; statement = none_statement }))
            reply.items) }
        ensures ok { OnOk result (self.new ≡ record (forgotten self.old)
            { credentials = kept self.old.credentials (creation_view request) ++ new_credential (creation_view request) choice.alg words.now ∷ [] }) }
        ensures size { IfOk result (λ reply. length reply.items ≤ 7609) }
        ensures err { OnErr result (self.new ≡ self.old) }
    {
        let alloc = self.allocator();
        let shown = CreationReply {
            fmt: String::from_str(alloc, "none")?,
            auth_data,
            statement: no_statement(alloc),
        };
        let reply = written(alloc, Reply::MakeCredential(shown))?;
        self.add(request, choice, words)?;
        Ok(reply)
    }

    /// Begins a makeCredential.
    pub(crate) fn begin_creation<K: PublicKeys>(
        &mut self,
        keys: &K,
        request: MakeCredential,
        consent: Consent,
        words: Words,
    ) -> Result<Begun, AllocError>
        requires { IsUser request.user.id.items }
        ensures done { (public : Keys) → AgreesOn words.secret public (K.public_of keys.now)
            → IfOk result (λ begun. CreationBegins public self.old (creation_view request) consent words begun self.new) }
        ensures size { IfOk result HasSize }
        ensures err { OnErr result (self.new ≡ self.old) }
    {
        let alloc = self.allocator();
        let choice = match self.creation_choice(&request, consent, &words) {
            Ok(choice) => choice,
            Err(status) => return Ok(Begun::Replied(self.refuse(status)?)),
        };
        let key = keys.public(choice.alg, &words.secret);
        let auth_data = self.creation_data(alloc, &request, &words.id, key, choice.uv)?;
        match self.attest {
            AttestationType::None => Ok(Begun::Replied(self.create(
                request, choice, &words, auth_data,
            )?)),
            AttestationType::SelfSigned => Ok(Begun::Signs(Pending {
                alg: choice.alg,
                secret: words.secret,
                work: Work::Creation(PendingCreation {
                    request,
                    words,
                    auth_data,
                }),
            })),
        }
    }

    /// Makes a credential, with the signature of its attestation.
    pub(crate) fn finish_creation(
        &mut self,
        alg: SigningAlg,
        pending: PendingCreation,
        signature: &[u8],
    ) -> Result<Vec<u8>, AllocError>
        requires low { 1 ≤ length signature.now }
        requires high { length signature.now ≤ 128 }
        ensures reply { IfOk result (λ reply. ReplyOf (creation_reply (record {
          fmt = codes "packed";
          auth_data = pending.auth_data.items;
          statement = packed_statement (signed_alg alg) signature.now;
        })) reply.items) }
        ensures ok { OnOk result (self.new ≡ record (forgotten self.old)
            { credentials = kept self.old.credentials (creation_view pending.request) ++ new_credential (creation_view pending.request) alg pending.words ∷ [] }) }
        ensures size { IfOk result (λ reply. length reply.items ≤ 7609) }
        ensures err { OnErr result (self.new ≡ self.old) }
    {
        let alloc = self.allocator();
        let PendingCreation {
            request,
            words,
            auth_data,
        } = pending;
        let options = creation_options(request.options);
        let resident = is_true(options.rk);
        let choice = Choice {
            alg,
            uv: is_true(options.uv),
            resident,
            overwritten: overwritten(&self.credentials, &request, resident),
        };
        let reply = packed_reply(alloc, alg, auth_data, signature)?;
        self.add(request, choice, &words)?;
        Ok(reply)
    }
}
