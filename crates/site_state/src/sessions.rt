//! The open sessions.

ghost use Rattle.std.specs.Prelude.{◌≡◌, ◌≤◌, ◌<◌, ◌-◌, ◌^◌, ◌↔◌, [], ◌∷◌, length, map, IfErr, IfOk, IsErrOf, Some, IsSome, IsTrue, OnErr, OnOk, is_some};
ghost use Rattle.std.specs.Prelude.{option_map, ℕ, List, Bool, ◌+◌, ◌⊎◌};
ghost use Rattle.std.specs.FinMap as finite;
ghost use Rattle.std.specs.List.{AllByRecursion};
ghost use Rattle.std.specs.Option.{ForSome};
ghost use Rattle.authdata.specs.declared.profile.Profile.{Profile as IdProfile};
ghost use Rattle.authdata.specs.Profiles.{max_id};
ghost use Rattle.site_state.specs.Table.{IsWithin};
ghost use Rattle.verification.specs.Views.{registration_view, sign_in_view};
ghost use Rattle.site_state.specs.Sessions.{AreLimits, Opening, OpensRegistration, OpensSignIn, IsInput, IsRefused, PassesOpeningStep, IsNotExpected, max_listed, registration_of, sign_in_of};
ghost use Rattle.site_state.specs.Sessions.{PassesOpening, HasNumber, HaveNumbers, begun, challenge_of, closed, registration_at, sign_in_at, usual};
ghost use Rattle.site_state.specs.declared.session.Asks.{Asks as HowBegun};
ghost use Rattle.site_state.specs.Sessions.{challenge_in as expected_challenge};
ghost use Rattle.site_state.specs.SessionViews.{sessions_view, session_view};
ghost use Rattle.site_state.specs.declared.error.BeginError.TheVariants as errors;

use crate::error::BeginError;
use crate::session::{Asks, Session};
use crate::table::{MAX_USER, is_within};
use authdata::Profile;
use byteorder::{BigEndian, ByteOrder};
use cose::Alg;
use std::alloc::{AllocError, Global};
use std::collections::BTreeMap;
use std::marker::Model;
use verification::{RegistrationSession, SignInSession};

/// The most sessions that are open at a time, where no other number is given.
pub const MAX_OPEN: usize = 1_024;

/// The most credentials that a session of the strict profile lists.
pub const MAX_LISTED: usize = 8;

/// The most credentials that a session lists: 64, and 8 in the strict profile.
pub fn max_listed(profile: Profile) -> usize
    ensures { result ≡ max_listed profile }
{
    match profile {
        Profile::Strict => MAX_LISTED,
        Profile::Open | Profile::Level3 => 64,
    }
}

/// A session that has begun.
#[derive(Clone, Copy, Debug, PartialEq, Eq, Drop)]
pub struct Started {
    /// Its number.
    pub session: u64,
    /// The challenge that the client is to answer: the number in 8 big-endian bytes, then the words.
    pub challenge: [u8; 32],
}

/// The open sessions of a relying party. A number is given once.
#[derive(Drop)]
pub struct Sessions {
    alloc: Global,
    by_number: BTreeMap<u64, Session>,
    next: u64,
    max_open: usize,
}

impl Model for Sessions {
    ghost use Rattle.std.specs.Prelude.{◌≡◌, ℕ, length};
    ghost use Rattle.std.specs.FinMap as finite;
    ghost use Rattle.site_state.specs.Sessions.{AreLimits, HaveNumbers, OpenSessions};
    ghost use Rattle.site_state.specs.SessionViews.{sessions_view};
    ghost use Rattle.site_state.specs.Codes.{open_code};

    ghost Value = { OpenSessions };

    ghost coded = { open_code };

    ghost view = { λ s. record { expected = sessions_view s.by_number.entries; next = s.next; max_open = s.max_open } };

    ghost invariant = { λ s. (finite.len (sessions_view s.by_number.entries) ≡ length s.by_number.entries)
        × ((n : ℕ) → AreLimits (finite.get (sessions_view s.by_number.entries) n))
        × HaveNumbers s.next (sessions_view s.by_number.entries) };
}

/// The challenge of a session: its number in 8 big-endian bytes, then the words.
fn challenge_with(number: u64, words: &[u8; 24]) -> [u8; 32]
    ensures { result ≡ challenge_of number words.now }
{
    let mut challenge = [0; 32];
    BigEndian::write_u64(&mut challenge, number);
    challenge[8..].copy_from_slice(words);
    challenge
}

/// Whether each id has 1 byte to those of the profile.
fn are_ids(profile: Profile, ids: &[&[u8]]) -> bool
    ensures { IsTrue result ↔ AllByRecursion (IsWithin (max_id profile)) (map (λ id. id.now) ids.now) }
{
    let most = profile.max_id();
    for id in ids {
        if !is_within(id, most) {
            return false;
        }
    }
    true
}

/// Whether what a sign-in is asked with is within its limits.
fn is_sign_in(profile: Profile, user: Option<&[u8]>, allow: &[&[u8]]) -> bool
    ensures { (words : List ℕ) (uv : Bool) → IsTrue result
        ↔ IsInput profile (OpensSignIn (option_map (λ u. u.now) user.entry) (map (λ id. id.now) allow.now) uv words) }
{
    if let Some(user) = user {
        if !is_within(user, MAX_USER) {
            return false;
        }
    }
    allow.len() <= max_listed(profile) && are_ids(profile, allow)
}

/// Whether what a registration is asked with is within its limits.
fn is_registration(user: &[u8], algorithms: &[Alg]) -> bool
    ensures { (profile : IdProfile) (words : List ℕ) (uv : Bool) (asks : HowBegun) → IsTrue result
        ↔ IsInput profile (OpensRegistration user.now algorithms.now uv words asks) }
{
    is_within(user, MAX_USER) && 1 <= algorithms.len()
}

/// Whether the user handle of a session for registration has 1 to 64 bytes.
fn are_limits(session: &Session) -> bool
    ensures { IsTrue result ↔ AreLimits (Some (session_view session.now)) }
{
    match session {
        Session::SignIn(_) => true,
        Session::Registration(session) => is_within(&session.user, MAX_USER),
    }
}

/// The challenge of a session.
fn challenge_in(session: &Session) -> &[u8]
    ensures { result.now ≡ expected_challenge (session_view session.now) }
{
    match session {
        Session::SignIn(session) => &session.challenge,
        Session::Registration(session) => &session.challenge,
    }
}

/// Whether a session has this number, where the next has that one.
fn has_number(next: u64, number: u64, session: &Session) -> bool
    ensures { IsTrue result ↔ HasNumber next number (session_view session.now) }
{
    let challenge = challenge_in(session);
    number < next && challenge.starts_with(&number.to_be_bytes())
}

/// Copies of the ids.
fn copies(alloc: Global, ids: &[&[u8]]) -> Result<Vec<Vec<u8>>, AllocError>
    ensures { IfOk result (λ v. map (λ id. id.items) v.items ≡ map (λ id. id.now) ids.now) }
{
    let mut copies = Vec::with_capacity(alloc, ids.len())?;
    for id in ids {
        copies.push(Vec::from_slice(alloc, id)?)?;
    }
    Ok(copies)
}

/// A copy of a user handle that is named.
fn copy_of(alloc: Global, user: Option<&[u8]>) -> Result<Option<Vec<u8>>, AllocError>
    ensures { IfOk result (λ copy. option_map (λ u. u.items) copy ≡ option_map (λ u. u.now) user.entry) }
{
    match user {
        None => Ok(None),
        Some(user) => Ok(Some(Vec::from_slice(alloc, user)?)),
    }
}

/// What a sign-in expects that is begun under this number.
fn expected_sign_in(
    alloc: Global,
    number: u64,
    user: Option<&[u8]>,
    allow: &[&[u8]],
    uv: bool,
    words: &[u8; 24],
) -> Result<SignInSession, AllocError>
    ensures { IfOk result (λ e. sign_in_view e
        ≡ sign_in_of number (option_map (λ u. u.now) user.entry) (map (λ id. id.now) allow.now) uv words.now) }
{
    Ok(SignInSession {
        user: copy_of(alloc, user)?,
        allow: copies(alloc, allow)?,
        uv,
        challenge: challenge_with(number, words),
    })
}

/// What a registration expects that is begun under this number.
fn expected_registration(
    alloc: Global,
    number: u64,
    user: &[u8],
    algorithms: &[Alg],
    uv: bool,
    asks: Asks,
    words: &[u8; 24],
) -> Result<RegistrationSession, AllocError>
    ensures { IfOk result (λ e. registration_view e
        ≡ registration_of number user.now algorithms.now uv words.now asks) }
{
    Ok(RegistrationSession {
        user: Vec::from_slice(alloc, user)?,
        algorithms: Vec::from_slice(alloc, algorithms)?,
        uv,
        challenge: challenge_with(number, words),
        conditional: asks.conditional,
        attestation: asks.attestation,
    })
}

/// What a sign-in expects that is begun under this number, for whoever keeps its sessions: as
/// [`begin_sign_in`](Sessions::begin_sign_in) opens it.
///
/// `BadInput` where what is asked is out of its limits, then `Memory`.
pub fn sign_in_session(
    alloc: Global,
    profile: Profile,
    number: u64,
    user: Option<&[u8]>,
    allow: &[&[u8]],
    uv: bool,
    words: &[u8; 24],
) -> Result<SignInSession, BeginError>
    ensures input { OnOk result (IsInput profile (OpensSignIn (option_map (λ u. u.now) user.entry) (map (λ id. id.now) allow.now) uv words.now)) }
    ensures expected { IfOk result (λ e. sign_in_view e
        ≡ sign_in_of number (option_map (λ u. u.now) user.entry) (map (λ id. id.now) allow.now) uv words.now) }
    ensures refused { IfErr result
        (IsNotExpected (IsInput profile (OpensSignIn (option_map (λ u. u.now) user.entry) (map (λ id. id.now) allow.now) uv words.now))) }
{
    if !is_sign_in(profile, user, allow) {
        return Err(BeginError::BadInput);
    }
    let expected = expected_sign_in(alloc, number, user, allow, uv, words)?;
    Ok(expected)
}

/// What a registration expects that is begun under this number; else as [`sign_in_session`].
pub fn registration_session(
    alloc: Global,
    number: u64,
    user: &[u8],
    algorithms: &[Alg],
    uv: bool,
    asks: Asks,
    words: &[u8; 24],
) -> Result<RegistrationSession, BeginError>
    // No profile differs in it.
    ensures input { (profile : IdProfile) → OnOk result (IsInput profile (OpensRegistration user.now algorithms.now uv words.now asks)) }
    ensures expected { IfOk result (λ e. registration_view e
        ≡ registration_of number user.now algorithms.now uv words.now asks) }
    ensures refused { (profile : IdProfile) → IfErr result (IsNotExpected (IsInput profile (OpensRegistration user.now algorithms.now uv words.now asks))) }
{
    if !is_registration(user, algorithms) {
        return Err(BeginError::BadInput);
    }
    let expected = expected_registration(alloc, number, user, algorithms, uv, asks, words)?;
    Ok(expected)
}

impl Sessions {
    /// No open session, and `next` as the number of the next: 1 at first. At most 1,024 are open at a time. It takes no
    /// memory.
    pub fn new(alloc: Global, next: u64) -> Sessions
        requires { 1 ≤ next }
        ensures { result ≡ record { expected = finite.empty; next = next; max_open = 1024 } }
    {
        Sessions {
            alloc,
            by_number: BTreeMap::new(alloc),
            next,
            max_open: MAX_OPEN,
        }
    }

    /// Bounds the sessions that are open at a time. Those that are open stay so, if there are more.
    pub fn set_max_open(&mut self, max_open: usize)
        ensures { self.new ≡ record self.old { max_open = max_open } }
    {
        self.max_open = max_open;
    }

    /// The most sessions that are open at a time.
    pub fn max_open(&self) -> usize
        ensures { result ≡ self.now.max_open }
    {
        self.max_open
    }

    /// The number of the next session, above each that is open.
    pub fn next(&self) -> u64
        ensures next { result ≡ self.now.next }
        ensures numbers { HaveNumbers result self.now.expected }
    {
        self.next
    }

    /// Goes on from a higher number: those below it that were not given are given no more.
    pub fn skip_to(&mut self, next: u64)
        requires { self.old.next ≤ next }
        ensures { self.new ≡ record self.old { next = next } }
    {
        self.next = next;
    }

    /// Whether fewer sessions are open than the most.
    pub fn has_room(&self) -> bool
        ensures { IsTrue result ↔ (finite.len self.now.expected < self.now.max_open) }
    {
        self.by_number.len() < self.max_open
    }

    /// Why what is asked may not begin; whether it is within its limits is passed.
    fn admit(&self, is_input: bool) -> Result<(), BeginError>
        ensures passes { (profile : IdProfile) (asked : Opening) → IsTrue is_input ↔ IsInput profile asked
            → OnOk result (PassesOpening profile self.now asked) }
        ensures refused { (profile : IdProfile) (asked : Opening) → IsTrue is_input ↔ IsInput profile asked
            → IfErr result (IsRefused profile self.now asked) }
    {
        if !is_input {
            return Err(BeginError::BadInput);
        }
        if !self.has_room() {
            return Err(BeginError::SessionsFull);
        }
        if self.next == u64::MAX {
            return Err(BeginError::Exhausted);
        }
        Ok(())
    }

    /// Opens a session under its number, where the next has the number that is passed. One that was open there is dropped.
    fn open(&mut self, number: u64, session: Session, next: u64) -> Result<(), AllocError>
        requires limits { AreLimits (Some (session_view session)) }
        requires number { HasNumber next number (session_view session) }
        requires next { self.old.next ≤ next }
        ensures opened { OnOk result (self.new
            ≡ record self.old { expected = finite.insert self.old.expected number (session_view session); next = next }) }
        ensures unchanged { OnErr result (self.new ≡ self.old) }
    {
        self.by_number.insert(number, session)?;
        self.next = next;
        Ok(())
    }

    /// Opens the next number, which is not the last.
    fn add(&mut self, session: Session) -> Result<(), BeginError>
        requires number { self.old.next < 2 ^ 64 - 1 }
        requires limits { AreLimits (Some (session_view session)) }
        requires challenge { HasNumber (self.old.next + 1) self.old.next (session_view session) }
        ensures opened { OnOk result (self.new
            ≡ record self.old { expected = finite.insert self.old.expected self.old.next (session_view session); next = self.old.next + 1 }) }
        ensures unchanged { OnErr result (self.new ≡ self.old) }
        ensures memory { IfErr result (λ e. e ≡ errors.Memory) }
    {
        let number = self.next;
        self.open(number, session, number + 1)?;
        Ok(())
    }

    /// Opens a session that was open before a restart, under its number. One that was open there is dropped.
    ///
    /// `BadInput` where it is for registration and its user handle is not of 1 to 64 bytes, where the number is not below
    /// the next, or where the challenge does not begin with the number; `Memory` where there was none. Then nothing has
    /// changed.
    pub fn restore(&mut self, number: u64, session: Session) -> Result<(), BeginError>
        ensures opened { OnOk result (self.new ≡ record self.old { expected = finite.insert self.old.expected number (session_view session) }) }
        ensures limits { IsErrOf result BeginError.BadInput
            ↔ ¬ (AreLimits (Some (session_view session)) × HasNumber self.old.next number (session_view session)) }
        ensures named { IfErr result (λ e. (e ≡ errors.BadInput) ⊎ (e ≡ errors.Memory)) }
        ensures unchanged { OnErr result (self.new ≡ self.old) }
    {
        if !are_limits(&session) || !has_number(self.next, number, &session) {
            return Err(BeginError::BadInput);
        }
        self.open(number, session, self.next)?;
        Ok(())
    }

    /// Begins a sign-in: of the account with this user handle, where it is known beforehand; with one of these
    /// credentials, where any are listed, at most [`max_listed`]; the user is to be verified or not. The words are 24 random
    /// bytes of the challenge.
    ///
    /// `BadInput` where the user handle is not of 1 to 64 bytes, an id not of 1 byte to those of the profile, or more
    /// ids are listed than the profile has, then `SessionsFull` where the most sessions are open, then `Exhausted` where the next
    /// number is the last; `Memory` where there was none for the copies or the session. Then nothing has changed.
    pub fn begin_sign_in(
        &mut self,
        profile: Profile,
        user: Option<&[u8]>,
        allow: &[&[u8]],
        uv: bool,
        words: [u8; 24],
    ) -> Result<Started, BeginError>
        ensures passes { OnOk result (PassesOpening profile self.old (OpensSignIn (option_map (λ u. u.now) user.entry) (map (λ id. id.now) allow.now) uv words)) }
        ensures started { IfOk result (λ s. (s.session ≡ self.old.next) × (s.challenge ≡ challenge_of self.old.next words)) }
        ensures begun { OnOk result (self.new ≡ begun self.old (OpensSignIn (option_map (λ u. u.now) user.entry) (map (λ id. id.now) allow.now) uv words)) }
        ensures refused { IfErr result (IsRefused profile self.old (OpensSignIn (option_map (λ u. u.now) user.entry) (map (λ id. id.now) allow.now) uv words)) }
        ensures unchanged { OnErr result (self.new ≡ self.old) }
    {
        self.admit(is_sign_in(profile, user, allow))?;
        let alloc = self.alloc;
        let session = self.next;
        let expected = expected_sign_in(alloc, session, user, allow, uv, &words)?;
        let challenge = expected.challenge;
        self.add(Session::SignIn(expected))?;
        Ok(Started { session, challenge })
    }

    /// Begins a registration for the account with this user handle, with these algorithms offered; the user is
    /// to be verified or not. It is not conditional, and asks for an attestation. The words are 24 random bytes of the
    /// challenge.
    ///
    /// `BadInput` where the user handle is not of 1 to 64 bytes or no algorithm is offered, then as for a sign-in.
    pub fn begin_registration(
        &mut self,
        user: &[u8],
        algorithms: &[Alg],
        uv: bool,
        words: [u8; 24],
    ) -> Result<Started, BeginError>
        // No profile differs in it.
        ensures passes { (profile : IdProfile) → OnOk result (PassesOpening profile self.old (OpensRegistration user.now algorithms.now uv words usual)) }
        ensures started { IfOk result (λ s. (s.session ≡ self.old.next) × (s.challenge ≡ challenge_of self.old.next words)) }
        ensures begun { OnOk result (self.new ≡ begun self.old (OpensRegistration user.now algorithms.now uv words usual)) }
        ensures refused { (profile : IdProfile) → IfErr result (IsRefused profile self.old (OpensRegistration user.now algorithms.now uv words usual)) }
        ensures unchanged { OnErr result (self.new ≡ self.old) }
    {
        self.begin_registration_for(user, algorithms, uv, Asks::usual(), words)
    }

    /// The same, conditional or not, and with an attestation asked for or not.
    pub fn begin_registration_for(
        &mut self,
        user: &[u8],
        algorithms: &[Alg],
        uv: bool,
        asks: Asks,
        words: [u8; 24],
    ) -> Result<Started, BeginError>
        // No profile differs in it.
        ensures passes { (profile : IdProfile) → OnOk result (PassesOpening profile self.old (OpensRegistration user.now algorithms.now uv words asks)) }
        ensures started { IfOk result (λ s. (s.session ≡ self.old.next) × (s.challenge ≡ challenge_of self.old.next words)) }
        ensures begun { OnOk result (self.new ≡ begun self.old (OpensRegistration user.now algorithms.now uv words asks)) }
        ensures refused { (profile : IdProfile) → IfErr result (IsRefused profile self.old (OpensRegistration user.now algorithms.now uv words asks)) }
        ensures unchanged { OnErr result (self.new ≡ self.old) }
    {
        self.admit(is_registration(user, algorithms))?;
        let alloc = self.alloc;
        let session = self.next;
        let expected = expected_registration(alloc, session, user, algorithms, uv, asks, &words)?;
        let challenge = expected.challenge;
        self.add(Session::Registration(expected))?;
        Ok(Started { session, challenge })
    }

    /// The session of a number, where it is open. It takes no memory.
    pub fn get(&self, session: u64) -> Option<&Session>
        ensures expected { option_map (λ s. session_view s.now) result ≡ finite.get self.now.expected session }
        ensures limits { AreLimits (finite.get self.now.expected session) }
    {
        self.by_number.get(&session)
    }

    /// What the session of a number expects, where it is open for sign-in.
    pub fn sign_in(&self, session: u64) -> Option<&SignInSession>
        ensures { option_map (λ s. sign_in_view s.now) result ≡ sign_in_at session self.now }
    {
        match self.get(session)? {
            Session::SignIn(expected) => Some(expected),
            Session::Registration(_) => None,
        }
    }

    /// What the session of a number expects, where it is open for registration.
    pub fn registration(&self, session: u64) -> Option<&RegistrationSession>
        ensures expected { option_map (λ s. registration_view s.now) result ≡ registration_at session self.now }
        ensures limits { ForSome (registration_at session self.now) (λ e. IsWithin 64 e.user) }
    {
        match self.get(session)? {
            Session::SignIn(_) => None,
            Session::Registration(expected) => Some(expected),
        }
    }

    /// Closes a session: true where it was open. It takes no memory.
    pub fn close(&mut self, session: u64) -> bool
        ensures told { result ≡ is_some (finite.get self.old.expected session) }
        ensures closed { self.new ≡ closed session self.old }
    {
        self.by_number.remove(&session).is_some()
    }
}
