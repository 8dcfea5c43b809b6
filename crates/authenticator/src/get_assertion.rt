//! authenticatorGetAssertion (CTAP 2.1, section 6.2) and authenticatorGetNextAssertion (section 6.3).

ghost use Rattle.std.specs.Prelude.{◌≡◌, ◌<◌, ◌≤◌, ◌∷◌, IfOk, IfSome, List, MatchOption, OnErr, None, Some, length, option_map, reverse, true, ℕ};
ghost use Rattle.ctap_requests.specs.RequestView.{assertion_options_view, lent_get_assertion_view};
ghost use Rattle.ctap_replies.specs.Replies.{assertion_reply, next_reply};
ghost use Rattle.authenticator.specs.Credentials.{credential_of, with_sign_count};
ghost use Rattle.authenticator.specs.Orders.{assertion_flags, candidates, is_at_end, remembered_on};
ghost use Rattle.authenticator.specs.Private.{AssertionBegins, FirstBegins, IsCount, IsGranted, NextBegins, StandsAt};
ghost use Rattle.authenticator.specs.Signing.{AnswersBy, HasSize};
ghost use Rattle.authenticator.specs.State.{Remembered};
ghost use Rattle.authenticator.specs.Steps.{Keys, asked_by, number_with, remembering};
ghost use Rattle.authenticator.specs.Views.{asked_view, credential_source_view, credential_sources_view, candidates_view, remembered_view};

use crate::assertion::{auth_data, shown};
use crate::authenticator::Authenticator;
use crate::consent::Consent;
use crate::credentials::{PlacedCredential, candidates_for, placed, set_sign_count};
use crate::options::{assertion_options, is_denied, is_false, is_true, is_unmet};
use crate::pending::{Begun, Pending, PendingAssertion, PendingNext, Work};
use crate::remembered::{AskedAssertion, Candidates, RememberedAssertion, remember};
use crate::reply::written_assertion;
use ctap_encoding::status::{INVALID_OPTION, NO_CREDENTIALS, NOT_ALLOWED, OPERATION_DENIED, OTHER};
use ctap_requests::{AssertionOptions, GetAssertionView};
use std::alloc::{AllocError, Global};

/// What a getAssertion asks.
fn asked_by(
    alloc: Global,
    channel: u32,
    request: &GetAssertionView<'_>,
    options: AssertionOptions,
    consent: Consent,
) -> Result<AskedAssertion, AllocError>
    requires { assertion_options_view options ≡ assertion_flags (lent_get_assertion_view request.now).options }
    ensures { IfOk result (λ asked. asked_view asked ≡ asked_by channel (lent_get_assertion_view request.now) consent) }
{
    Ok(AskedAssertion {
        channel,
        client_data_hash: Vec::from_slice(alloc, request.client_data_hash)?,
        up: !is_false(options.up),
        uv: is_true(options.uv),
        consent,
    })
}

/// How many may answer, told where there are later ones.
fn number_with(later: &[[u8; 32]]) -> Option<u64>
    ensures count { result ≡ number_with (reverse later.now) }
    ensures fits { IfSome result IsCount }
{
    if later.is_empty() {
        return None;
    }
    Some(later.len() as u64 + 1)
}

impl Authenticator {
    /// The getAssertion that is remembered, if it is this channel's.
    fn remembered_on(&self, channel: u32) -> Option<&RememberedAssertion>
        ensures { option_map (λ r. remembered_view r.now) result ≡ remembered_on channel self.now.remembered }
    {
        match &self.remembered {
            Some(remembered) if remembered.asked.channel == channel => Some(remembered),
            _ => None,
        }
    }

    /// The credential of an id and where it stands, if its counter can grow.
    fn countable(&self, id: &[u8]) -> Option<PlacedCredential<'_>>
        ensures { MatchOption result
            (is_at_end (credential_of id.now self.now.credentials) ≡ true)
            (λ p. (credential_of id.now self.now.credentials ≡ Some (credential_source_view p.credential.now)) × (p.credential.now.sign_count < 4294967295)
            × StandsAt id.now self.now.credentials p.place) }
    {
        let found = placed(&self.credentials, id)?;
        if found.credential.sign_count < u32::MAX {
            Some(found)
        } else {
            None
        }
    }

    /// Who may answer a getAssertion.
    fn candidates(
        &self,
        alloc: Global,
        request: &GetAssertionView<'_>,
    ) -> Result<Option<Candidates>, AllocError>
        ensures { IfOk result (λ o. candidates_view o ≡ candidates self.now.credentials (lent_get_assertion_view request.now).rp_id
            (lent_get_assertion_view request.now).allow_list) }
    {
        candidates_for(alloc, &self.credentials, request.rp_id, &request.allow_list)
    }

    /// The options of a getAssertion, or the status by which it is refused for them or for want of consent.
    fn options_granted(
        &self,
        request: &GetAssertionView<'_>,
        consent: Consent,
    ) -> Result<AssertionOptions, u8>
        ensures { IsGranted self.now (lent_get_assertion_view request.now) consent result }
    {
        let options = assertion_options(request.options);
        if is_unmet(options.uv, self.uv) {
            return Err(INVALID_OPTION);
        }
        if is_denied(!is_false(options.up), options.uv, consent) {
            return Err(OPERATION_DENIED);
        }
        Ok(options)
    }

    /// Stores the counter of the credential at a place, which has answered, and what is remembered from now on.
    fn settle(&mut self, place: usize, sign_count: u32, remembered: Option<RememberedAssertion>)
        requires { place < length self.old.credentials }
        ensures { (id : List ℕ) → StandsAt id self.old.credentials place → self.new ≡ record self.old
            { credentials = with_sign_count id sign_count self.old.credentials; remembered = option_map remembered_view remembered } }
    {
        set_sign_count(&mut self.credentials, place, sign_count);
        self.remembered = remembered;
    }

    /// Asks for the signature with which the first candidate answers.
    fn begin_first(
        &mut self,
        asked: AskedAssertion,
        candidates: Candidates,
    ) -> Result<Begun, AllocError>
        ensures done { (public : Keys) → IfOk result (λ begun. FirstBegins public self.old (candidates_view (Some candidates)) (asked_view asked) begun self.new) }
        ensures size { IfOk result HasSize }
        ensures err { OnErr result (self.new ≡ self.old) }
    {
        let alloc = self.allocator();
        let Some(found) = self.countable(&candidates.first) else {
            return Ok(Begun::Replied(self.refuse(OTHER)?));
        };
        let auth_data = auth_data(alloc, found.credential, &asked)?;
        Ok(Begun::Signs(Pending {
            alg: found.credential.alg,
            secret: found.credential.secret,
            work: Work::Assertion(PendingAssertion {
                asked,
                candidates,
                auth_data,
            }),
        }))
    }

    /// Begins a getAssertion.
    pub(crate) fn begin_assertion(
        &mut self,
        channel: u32,
        request: &GetAssertionView<'_>,
        consent: Consent,
    ) -> Result<Begun, AllocError>
        ensures done { (public : Keys) → IfOk result (λ begun. AssertionBegins public self.old channel
            (lent_get_assertion_view request.now) consent begun self.new) }
        ensures size { IfOk result HasSize }
        ensures err { OnErr result (self.new ≡ self.old) }
    {
        let options = match self.options_granted(request, consent) {
            Ok(options) => options,
            Err(status) => return Ok(Begun::Replied(self.refuse(status)?)),
        };
        let alloc = self.allocator();
        let found = self.candidates(alloc, request)?;
        let Some(candidates) = found else {
            return Ok(Begun::Replied(self.refuse(NO_CREDENTIALS)?));
        };
        let asked = asked_by(alloc, channel, request, options, consent)?;
        self.begin_first(asked, candidates)
    }

    /// Stores the counter of the next candidate, which stands at a place and has answered, and remembers the later ones.
    fn advance(&mut self, place: usize, sign_count: u32)
        requires { place < length self.old.credentials }
        ensures { (r : Remembered) → self.old.remembered ≡ Some r → StandsAt r.next self.old.credentials place
            → self.new ≡ record self.old { credentials = with_sign_count r.next sign_count self.old.credentials; remembered = remembering r.asked r.later } }
    {
        if let Some(remembered) = self.remembered.take() {
            let later = remembered.candidates.later;
            self.settle(place, sign_count, remember(remembered.asked, later));
        }
    }

    /// Begins a getNextAssertion.
    pub(crate) fn begin_next(&mut self, channel: u32) -> Result<Begun, AllocError>
        ensures done { (public : Keys) → IfOk result (λ begun. NextBegins public self.old channel begun self.new) }
        ensures size { IfOk result HasSize }
        ensures err { OnErr result (self.new ≡ self.old) }
    {
        let alloc = self.allocator();
        let Some(remembered) = self.remembered_on(channel) else {
            return Ok(Begun::Replied(self.refuse(NOT_ALLOWED)?));
        };
        let Some(found) = self.countable(&remembered.candidates.first) else {
            return Ok(Begun::Replied(self.refuse(OTHER)?));
        };
        let auth_data = auth_data(alloc, found.credential, &remembered.asked)?;
        let client_data_hash = Vec::from_slice(alloc, &remembered.asked.client_data_hash)?;
        Ok(Begun::Signs(Pending {
            alg: found.credential.alg,
            secret: found.credential.secret,
            work: Work::Next(PendingNext {
                client_data_hash,
                auth_data,
            }),
        }))
    }

    /// The first candidate answers, with its signature.
    pub(crate) fn finish_assertion(
        &mut self,
        pending: PendingAssertion,
        signature: &[u8],
    ) -> Result<Vec<u8>, AllocError>
        requires { length signature.now ≤ 128 }
        ensures done { IfOk result (λ reply. AnswersBy self.old pending.candidates.first (asked_view pending.asked) (reverse pending.candidates.later.items)
            assertion_reply (number_with (reverse pending.candidates.later.items)) pending.auth_data.items signature.now reply.items self.new) }
        ensures size { IfOk result (λ reply. length reply.items ≤ 7609) }
        ensures err { OnErr result (self.new ≡ self.old) }
    {
        let alloc = self.allocator();
        let PendingAssertion {
            asked,
            candidates,
            auth_data,
        } = pending;
        let Some(found) = self.countable(&candidates.first) else {
            return self.refuse(OTHER);
        };
        let number = number_with(&candidates.later);
        let place = found.place;
        let sign_count = found.credential.sign_count + 1;
        let shown = shown(found.credential, auth_data.as_slice(), signature, number);
        let reply = written_assertion(alloc, &shown)?;
        self.settle(place, sign_count, remember(asked, candidates.later));
        Ok(reply)
    }

    /// The next candidate answers, with its signature.
    pub(crate) fn finish_next(
        &mut self,
        pending: PendingNext,
        signature: &[u8],
    ) -> Result<Vec<u8>, AllocError>
        requires { length signature.now ≤ 128 }
        ensures done { IfOk result (λ reply. (r : Remembered) → self.old.remembered ≡ Some r
            → AnswersBy self.old r.next r.asked r.later next_reply None pending.auth_data.items signature.now reply.items self.new) }
        ensures size { IfOk result (λ reply. length reply.items ≤ 7609) }
        ensures err { OnErr result (self.new ≡ self.old) }
    {
        let alloc = self.allocator();
        let Some(remembered) = &self.remembered else {
            return self.refuse(NOT_ALLOWED);
        };
        let Some(found) = self.countable(&remembered.candidates.first) else {
            return self.refuse(OTHER);
        };
        let place = found.place;
        let sign_count = found.credential.sign_count + 1;
        let shown = shown(
            found.credential,
            pending.auth_data.as_slice(),
            signature,
            None,
        );
        let reply = written_assertion(alloc, &shown)?;
        self.advance(place, sign_count);
        Ok(reply)
    }
}
