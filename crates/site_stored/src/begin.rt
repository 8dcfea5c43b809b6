//! Beginning a ceremony.

ghost use Rattle.std.specs.Prelude.{◌≡◌, ◌↔◌, ◌+◌, ◌<◌, ◌^◌, ℕ, List, IfErr, IsErrOf, IsTrue, OnOk, false, map, min, option_map, true};
ghost use Rattle.site_seal.specs.Seal.{ordered};
ghost use Rattle.site_state.specs.Sessions.{IsInput, Opening, OpensRegistration, OpensSignIn, challenge_of};
ghost use Rattle.site_stored.specs.Calls.{Begins, IsNotBegun};
ghost use Rattle.site_stored.specs.Sessions.{begun_text, longest, until};
ghost use Rattle.site_stored.specs.declared.failure.BeginFailure.TheVariants as begins;
ghost use Rattle.site_stored.specs.declared.failure.Failure.TheVariants as failures;
ghost use Rattle.site_stored.specs.Causes.{BeginFails};

use crate::failure::{BeginFailure, Failure};
use crate::kept::StoredSite;
use crate::session::{Begun, LONGEST, rp_id_hash, until};
use cose::Alg;
use site_seal::{algorithms_in_order, seal_registration, seal_sign_in};
use site_state::{Asks, registration_session, sign_in_session};
use sqlite_trees::store::Store;

/// Whether the number after a session's, and those that may be reserved with it, are ones that a column can hold.
fn has_number(next: u64) -> bool
    ensures { IsTrue result ↔ (next + 1001 < 2 ^ 63) }
{
    next < 9_223_372_036_854_774_807
}

impl<S: Store> StoredSite<S> {
    /// When a session that begins at this second expires.
    fn ends_at(&self, now: u64) -> u64
        ensures { result ≡ until now (min self.now.lifetime longest) }
    {
        until(now, u64::min(self.lifetime, LONGEST))
    }

    /// That a session may begin.
    fn check_number(&self) -> Result<(), BeginFailure>
        ensures may { OnOk result ((self.now.is_shut ≡ false) × (self.now.next + 1001 < 2 ^ 63)) }
        ensures not { IfErr result (λ e. (o : Opening) → IsNotBegun self.now self.now o e) }
        ensures shut { self.now.is_shut ≡ true → IsErrOf result (begins.Store failures.Shut) }
    {
        if self.held.is_shut {
            return Err(BeginFailure::Store(Failure::Shut));
        }
        if !has_number(self.next) {
            return Err(BeginFailure::NoNumber);
        }
        Ok(())
    }

    /// The session that has begun, which takes the next number.
    fn begun(&mut self, challenge: [u8; 32], text: Vec<u8>) -> Result<Begun, BeginFailure>
        requires live { self.old.is_shut ≡ false }
        requires number { self.old.next + 1001 < 2 ^ 63 }
        ensures begins { (o : Opening) (words : List ℕ) (now : ℕ) → challenge ≡ challenge_of self.old.next words → text.items ≡ begun_text self.old o now
            → IsInput self.old.rp.profile o → Begins S.Store self.old self.new o words now result }
        ensures cause { BeginFails S.Store self.old self.new result }
    {
        let session = self.next;
        self.held.reserve_for(self.party.rp_id(), session + 1)?;
        self.next = session + 1;
        Ok(Begun {
            session,
            challenge,
            text,
        })
    }

    /// Begins a sign-in at this second of the host's clock: of the account with this user handle, where it is known beforehand; with
    /// one of these credentials, where any are listed, at most 64, and 8 in the strict profile; the user is to be verified or not. The
    /// words are 24 random bytes of the challenge. It writes something once in 1,000 sessions, and keeps nothing.
    ///
    /// `NoNumber` where the number would be within 1,001 of 2^63, then `Site` where what is asked is out of its limits or there is
    /// no memory for it.
    pub fn begin_sign_in(
        &mut self,
        user: Option<&[u8]>,
        allow: &[&[u8]],
        uv: bool,
        words: [u8; 24],
        now: u64,
    ) -> Result<Begun, BeginFailure>
        ensures begins { Begins S.Store self.old self.new (OpensSignIn (option_map (λ u. u.now) user.entry) (map (λ id. id.now) allow.now) uv words) words now result }
        ensures cause { BeginFails S.Store self.old self.new result }
    {
        self.check_number()?;
        let alloc = self.held.alloc;
        let expected = sign_in_session(
            alloc,
            self.party.profile(),
            self.next,
            user,
            allow,
            uv,
            &words,
        )?;
        let ends = self.ends_at(now);
        let text = seal_sign_in(alloc, &self.key, &rp_id_hash(&self.party), ends, &expected)?;
        self.begun(expected.challenge, text)
    }

    /// Begins a registration for the account with this user handle, of 1 to 64 bytes, with these algorithms offered, each once and in
    /// the order ES256, EdDSA, RS256; conditional or not, and with an attestation asked for or not; else as `begin_sign_in`.
    pub fn begin_registration(
        &mut self,
        user: &[u8],
        algorithms: &[Alg],
        uv: bool,
        asks: Asks,
        words: [u8; 24],
        now: u64,
    ) -> Result<Begun, BeginFailure>
        ensures begins { Begins S.Store self.old self.new (OpensRegistration user.now (ordered algorithms.now) uv words asks) words now result }
        ensures cause { BeginFails S.Store self.old self.new result }
    {
        self.check_number()?;
        let alloc = self.held.alloc;
        let offered = algorithms_in_order(algorithms);
        let expected = registration_session(alloc, self.next, user, offered, uv, asks, &words)?;
        let ends = self.ends_at(now);
        let text = seal_registration(alloc, &self.key, &rp_id_hash(&self.party), ends, &expected)?;
        self.begun(expected.challenge, text)
    }
}
