//! The open sessions, with the moments in which they began.

ghost use Rattle.std.specs.Prelude.{◌≡◌, ◌≢◌, ◌<◌, ◌≤◌, ◌+◌, ◌^◌, ◌↔◌, IfErr, IfOk, IfSome, IsSome, IsTrue, OnErr, OnOk, None, is_some, length, map, option_map, ℕ};
ghost use Rattle.std.specs.FinMap as finite;
ghost use Rattle.std.specs.Option.{ForSome};
ghost use Rattle.verification.specs.Views.{registration_view, sign_in_view};
ghost use Rattle.site_state.specs.Table.{IsWithin};
ghost use Rattle.site_state.specs.Sessions.{IsInput, IsRefused, OpensRegistration, OpensSignIn, challenge_of, registration_at, sign_in_at, usual};
ghost use Rattle.authdata.specs.declared.profile.Profile.{Profile as IdProfile};
ghost use Rattle.site_state.specs.Timed.{HaveMoments, IsTrimmed, after_begin, after_end, since, skipped};
ghost use Rattle.site_state.specs.Private.{removed};

use crate::began_at::BeganAt;
use crate::error::BeginError;
use crate::session::Asks;
use crate::sessions::{Sessions, Started};
use authdata::Profile;
use cose::Alg;
use std::alloc::{AllocError, Global};
use std::marker::Model;
use verification::{RegistrationSession, SignInSession};

/// Open sessions, of which the oldest ends where more would be open than the most.
#[derive(Drop)]
pub struct TimedSessions {
    alloc: Global,
    open_sessions: Sessions,
    began: BeganAt,
}

impl Model for TimedSessions {
    ghost use Rattle.site_state.specs.Timed.{HasRoom, HaveMoments, Timed, timed_code};

    ghost Value = { Timed };

    ghost coded = { timed_code };

    ghost view = { λ s. record { open_sessions = s.open_sessions; began = s.began } };

    ghost invariant = { λ s. HaveMoments (record { open_sessions = s.open_sessions; began = s.began })
        × HasRoom (record { open_sessions = s.open_sessions; began = s.began }) };
}

/// Ends the oldest session where the most are open.
fn trim(open_sessions: &mut Sessions, began: &mut BeganAt)
    requires most { 1 ≤ open_sessions.old.max_open }
    requires moments { HaveMoments (record { open_sessions = open_sessions.old; began = began.old }) }
    ensures trimmed { IsTrimmed (record { open_sessions = open_sessions.old; began = began.old })
        (record { open_sessions = open_sessions.new; began = began.new }) }
{
    if open_sessions.has_room() {
        return;
    }
    if let Some(oldest) = began.oldest() {
        began.remove(oldest);
        open_sessions.close(oldest);
    }
}

/// Ends sessions, and tells how many of them were open.
fn close_all(open_sessions: &mut Sessions, began: &mut BeganAt, sessions: &[u64]) -> usize
    ensures closed { open_sessions.new ≡ record open_sessions.old { expected = removed sessions.now open_sessions.old.expected } }
    ensures moments { began.new ≡ removed sessions.now began.old }
    ensures count { result + finite.len open_sessions.new.expected ≡ finite.len open_sessions.old.expected }
{
    let mut count = 0;
    for session in sessions {
        if open_sessions.close(*session) {
            count += 1;
        }
        began.remove(*session);
    }
    count
}

impl TimedSessions {
    /// No open session, and `next` as the number of the next. At most `most` sessions stay open. It takes no memory.
    pub fn new(alloc: Global, next: u64, most: u32) -> TimedSessions
        requires next { 1 ≤ next }
        ensures none { (result.open_sessions.expected ≡ finite.empty) × (result.began ≡ finite.empty) }
        ensures next { result.open_sessions.next ≡ next }
        ensures most { result.open_sessions.max_open ≡ most + 1 }
    {
        let mut open_sessions = Sessions::new(alloc, next);
        open_sessions.set_max_open(most as usize + 1);
        TimedSessions {
            alloc,
            open_sessions,
            began: BeganAt::new(alloc),
        }
    }

    /// The number of the next session.
    pub fn next(&self) -> u64
        ensures { result ≡ self.now.open_sessions.next }
    {
        self.open_sessions.next()
    }

    /// Goes on from a higher number: those below it that were not given are given no more.
    pub fn skip_to(&mut self, next: u64)
        requires { self.old.open_sessions.next ≤ next }
        ensures { self.new ≡ skipped next self.old }
    {
        self.open_sessions.skip_to(next);
    }

    /// How many sessions are open.
    pub fn count(&self) -> usize {
        self.began.count()
    }

    /// What the session of a number expects, where it is open for sign-in.
    pub fn sign_in(&self, session: u64) -> Option<&SignInSession>
        ensures { option_map (λ s. sign_in_view s.now) result ≡ sign_in_at session self.now.open_sessions }
    {
        self.open_sessions.sign_in(session)
    }

    /// What the session of a number expects, where it is open for registration.
    pub fn registration(&self, session: u64) -> Option<&RegistrationSession>
        ensures expected { option_map (λ s. registration_view s.now) result ≡ registration_at session self.now.open_sessions }
        ensures limits { ForSome (registration_at session self.now.open_sessions) (λ e. IsWithin 64 e.user) }
    {
        self.open_sessions.registration(session)
    }

    /// Ends a session: true where it was open. It takes no memory.
    pub fn close(&mut self, session: u64) -> bool
        ensures told { result ≡ is_some (finite.get self.old.open_sessions.expected session) }
        ensures closed { self.new ≡ after_end self.old session }
    {
        self.began.remove(session);
        self.open_sessions.close(session)
    }

    /// Begins a sign-in as `Sessions` does, at this second of the host's clock. Where the most are open the oldest ends.
    ///
    /// `BadInput`, `Exhausted` and `Memory` as of `Sessions`. Then nothing has changed.
    pub fn begin_sign_in(
        &mut self,
        profile: Profile,
        user: Option<&[u8]>,
        allow: &[&[u8]],
        uv: bool,
        words: [u8; 24],
        now: u64,
    ) -> Result<Started, BeginError>
        ensures started { IfOk result (λ s. (s.session ≡ self.old.open_sessions.next) × (s.challenge ≡ challenge_of self.old.open_sessions.next words)) }
        ensures begun { OnOk result (IsTrimmed
            (after_begin self.old (OpensSignIn (option_map (λ u. u.now) user.entry) (map (λ id. id.now) allow.now) uv words) now) self.new) }
        ensures refused { IfErr result (IsRefused profile self.old.open_sessions
            (OpensSignIn (option_map (λ u. u.now) user.entry) (map (λ id. id.now) allow.now) uv words)) }
        // For want of room none is refused.
        ensures room { IfErr result (λ e. e ≡ BeginError.SessionsFull → ⊥) }
        ensures unchanged { OnErr result (self.new ≡ self.old) }
    {
        let number = self.open_sessions.next();
        self.began.insert(number, now)?;
        match self
            .open_sessions
            .begin_sign_in(profile, user, allow, uv, words)
        {
            Ok(started) => {
                trim(&mut self.open_sessions, &mut self.began);
                Ok(started)
            }
            Err(why) => {
                self.began.remove(number);
                Err(why)
            }
        }
    }

    /// Begins a registration as `Sessions` does; else as `begin_sign_in`.
    pub fn begin_registration(
        &mut self,
        user: &[u8],
        algorithms: &[Alg],
        uv: bool,
        words: [u8; 24],
        now: u64,
    ) -> Result<Started, BeginError>
        ensures started { IfOk result (λ s. (s.session ≡ self.old.open_sessions.next) × (s.challenge ≡ challenge_of self.old.open_sessions.next words)) }
        ensures begun { OnOk result (IsTrimmed (after_begin self.old (OpensRegistration user.now algorithms.now uv words usual) now) self.new) }
        ensures refused { (profile : IdProfile) → IfErr result (IsRefused profile self.old.open_sessions (OpensRegistration user.now algorithms.now uv words usual)) }
        // For want of room none is refused.
        ensures room { IfErr result (λ e. e ≡ BeginError.SessionsFull → ⊥) }
        ensures unchanged { OnErr result (self.new ≡ self.old) }
    {
        self.begin_registration_for(user, algorithms, uv, Asks::usual(), words, now)
    }

    /// The same, conditional or not, and with an attestation asked for or not.
    pub fn begin_registration_for(
        &mut self,
        user: &[u8],
        algorithms: &[Alg],
        uv: bool,
        asks: Asks,
        words: [u8; 24],
        now: u64,
    ) -> Result<Started, BeginError>
        ensures started { IfOk result (λ s. (s.session ≡ self.old.open_sessions.next) × (s.challenge ≡ challenge_of self.old.open_sessions.next words)) }
        ensures begun { OnOk result (IsTrimmed (after_begin self.old (OpensRegistration user.now algorithms.now uv words asks) now) self.new) }
        ensures refused { (profile : IdProfile) → IfErr result (IsRefused profile self.old.open_sessions (OpensRegistration user.now algorithms.now uv words asks)) }
        // For want of room none is refused.
        ensures room { IfErr result (λ e. e ≡ BeginError.SessionsFull → ⊥) }
        ensures unchanged { OnErr result (self.new ≡ self.old) }
    {
        let number = self.open_sessions.next();
        self.began.insert(number, now)?;
        match self
            .open_sessions
            .begin_registration_for(user, algorithms, uv, asks, words)
        {
            Ok(started) => {
                trim(&mut self.open_sessions, &mut self.began);
                Ok(started)
            }
            Err(why) => {
                self.began.remove(number);
                Err(why)
            }
        }
    }

    /// Ends each session that began before a second of the host's clock, and answers how many there were. Where there is no
    /// memory nothing has changed.
    ///
    /// A clock that goes back ends no session early, but keeps one longer.
    pub fn expire(&mut self, before: u64) -> Result<usize, AllocError>
        ensures told { IfOk result (λ count. count + finite.len self.new.open_sessions.expected ≡ finite.len self.old.open_sessions.expected) }
        // What is left began at that moment or later, and is as it was.
        ensures expired { OnOk result (self.new ≡ since before self.old) }
        ensures unchanged { OnErr result (self.new ≡ self.old) }
    {
        let ended = self.began.older(self.alloc, before)?;
        Ok(close_all(&mut self.open_sessions, &mut self.began, &ended))
    }
}
