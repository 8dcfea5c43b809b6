//! The sessions of a site, which are texts that it has sealed.

ghost use Rattle.std.specs.Prelude.{◌≡◌, ◌∷◌, [], ◌<◌, ◌^◌, ◌↔◌, ℕ, List, IfErr, IfNone, IfOk, IfSome, IsErrOf, IsTrue, OnOk, false, true};
ghost use Rattle.sha2.specs.Sha256.{sha256};
ghost use Rattle.site_seal.specs.Seal.{Session};
ghost use Rattle.site_seal.specs.Views.{ceremony_view, session_view};
ghost use Rattle.site_state.specs.Sessions.{challenge_of};
ghost use Rattle.site_rows.specs.Calls.{IsQuiet};
ghost use Rattle.site_rows.specs.Endings.{Endings, HoldsEndings};
ghost use Rattle.site_rows.specs.Held.{Placed};
ghost use Rattle.sqlite_trees.specs.View.{IsClean};
ghost use Rattle.site_stored.specs.Calls.{IsFailure, IsOneSite, KeepsBeside, TellsAbandoned};
ghost use Rattle.site_stored.specs.Causes.{IsCaused, IsUnknownEnding, RefusesEnding, SiteFails};
ghost use Rattle.site_stored.specs.Sessions.{IsGiven, challenge_in, until};
ghost use Rattle.site_stored.specs.State.{FitsColumn, IsHeld, ended_session_tree};
ghost use Rattle.site_stored.specs.Private.{EndsIn, IfSessionStore, IsGivenAs, IsOpenIn, IsOpenStore, IsReadyStore, ReadsSession, WritesStore, finish_refusal};
ghost use Rattle.site_stored.specs.declared.failure.Failure.TheVariants as failures;
ghost use Rattle.site_stored.specs.declared.session.SessionFailure.TheVariants as sessions;

use crate::failure::{Failure, FinishFailure};
use crate::kept::StoredSite;
use crate::site_store::SiteStore;
use crate::trees::ENDED_SESSION_TREE;
use sha2::{Digest, Sha256};
use site_rows::Ending;
use site_seal::{Opened, OpenedCeremony};
use sqlite_trees::store::Store;
use std::alloc::{AllocError, Global};
use verification::{RelyingParty, VerificationError};

/// A session that has begun.
#[derive(Debug, Drop)]
pub struct Begun {
    /// Its number.
    pub session: u64,
    /// The challenge that the client is to answer: the number in 8 big-endian bytes, then the words.
    pub challenge: [u8; 32],
    /// The session as a text under the site's key, of at most 2,156 bytes. It is all that is kept of it: who finishes the ceremony hands it in.
    pub text: Vec<u8>,
}

/// A session that was given, as its text has it.
#[derive(Drop)]
pub(crate) struct Given {
    /// Its number.
    pub(crate) number: u64,
    /// What the text says.
    pub(crate) opened: Opened,
}

/// Why it isn't told whether a session is open.
#[derive(Clone, Copy, Debug, PartialEq, Eq, Drop, thiserror::Error)]
pub enum SessionFailure {
    /// There was no memory to read its text. Nothing has changed.
    #[error("out of memory")]
    Memory,
    /// It was not asked, or the store failed.
    #[error("{0}")]
    Store(Failure),
}

impl From<AllocError> for SessionFailure {
    ghost from_gives = { λ _ e. e ≡ sessions.Memory };

    fn from(_e: AllocError) -> SessionFailure {
        SessionFailure::Memory
    }
}

impl From<Failure> for SessionFailure {
    ghost from_gives = { λ e f. f ≡ sessions.Store e };

    fn from(e: Failure) -> SessionFailure {
        SessionFailure::Store(e)
    }
}

impl<W> From<SessionFailure> for FinishFailure<W> {
    ghost from_gives = { λ e f. f ≡ finish_refusal e };

    fn from(e: SessionFailure) -> FinishFailure<W> {
        match e {
            SessionFailure::Memory => FinishFailure::Site(VerificationError::Memory),
            SessionFailure::Store(why) => FinishFailure::Store(why),
        }
    }
}

/// Where the challenge stands in a text, after the kind of ceremony and the second at which it began.
const CHALLENGE_AT: usize = 9;

/// The last second of the host's clock that a column holds.
const LAST_SECOND: u64 = (1 << 63) - 1;

/// The longest that a session is open, in seconds.
pub(crate) const LONGEST: u64 = 1_000_000;

/// The second so many after this one, as far as a column holds it.
pub(crate) fn until(now: u64, seconds: u64) -> u64
    ensures until { result ≡ until now seconds }
    ensures fits { result < 2 ^ 63 }
{
    u64::min(now.saturating_add(seconds), LAST_SECOND)
}

/// SHA-256 of the rp id.
pub(crate) fn rp_id_hash(party: &RelyingParty) -> [u8; 32]
    ensures { result ≡ sha256 party.now.rp_id }
{
    let mut hash = Sha256::new();
    hash.update(party.rp_id().as_bytes());
    hash.finalize()
}

/// The number that a challenge begins with, in 8 big-endian bytes.
fn first_number(challenge: &[u8; 32]) -> u64
    ensures only { (n : ℕ) → n < 2 ^ 64 → (words : List ℕ) → challenge.now ≡ challenge_of n words → result ≡ n }
    ensures number { (words : List ℕ) × (challenge.now ≡ challenge_of result words) }
{
    let mut first = [0; 8];
    first.copy_from_slice(&challenge[..8]);
    u64::from_be_bytes(first)
}

/// The number that the challenge of a ceremony begins with.
fn number_of(ceremony: &OpenedCeremony) -> u64
    ensures only { (n : ℕ) → (n < 2 ^ 64) → (words : List ℕ) → challenge_in (ceremony_view ceremony.now) ≡ challenge_of n words → result ≡ n }
    ensures number { (words : List ℕ) × (challenge_in (ceremony_view ceremony.now) ≡ challenge_of result words) }
{
    match ceremony {
        OpenedCeremony::Registration(expected) => first_number(&expected.challenge),
        OpenedCeremony::SignIn(expected) => first_number(&expected.challenge),
    }
}

/// Whether a session of this number was given, and its time is not over.
fn is_given(opened: &Opened, number: u64, next: u64, now: u64) -> bool
    ensures { IsTrue result ↔ ((number < next) × (now < opened.now.ends) × FitsColumn opened.now.ends) }
{
    number < next && now < opened.ends && opened.ends <= LAST_SECOND
}

/// The session of a text, where it was given and its time is not over.
fn given_session(
    alloc: Global,
    key: &[u8; 32],
    party: &RelyingParty,
    next: u64,
    now: u64,
    text: &[u8],
) -> Result<Option<Given>, AllocError>
    ensures some { IfOk result (λ found. IfSome found (IsGivenAs key.now party.now.rp_id next now text.now)) }
    ensures none { IfOk result (λ found. IfNone found ((n : ℕ) (x : Session) → IsGiven key.now party.now.rp_id next now text.now n x → ⊥)) }
{
    let Some(opened) = site_seal::open(alloc, key, &rp_id_hash(party), text)? else {
        return Ok(None);
    };
    let number = number_of(&opened.ceremony);
    if !is_given(&opened, number, next, now) {
        return Ok(None);
    }
    Ok(Some(Given { number, opened }))
}

/// The number that a text says that its session has: for a log alone, since nothing of the text is verified.
pub fn number_in(text: &[u8]) -> Option<u64> {
    let (_, challenge) = text.split_at_checked(CHALLENGE_AT)?;
    let first = challenge.first_chunk::<8>()?;
    Some(u64::from_be_bytes(*first))
}

/// How a session ended, as its row says it.
pub(crate) const ACCEPTED: u64 = 1;

/// The same.
pub(crate) const ABANDONED: u64 = 2;

/// The session of a text, where it was given, its time is not over and it has not ended. A failure of the store shuts it.
pub(crate) fn open_session<S: Store>(
    key: &[u8; 32],
    party: &RelyingParty,
    next: u64,
    held: &mut SiteStore<S>,
    text: &[u8],
    now: u64,
) -> Result<Option<Given>, SessionFailure>
    requires ready { IsOpenStore S.Store held.old }
    requires next { FitsColumn next }
    ensures session { IfOk result (λ found. IsClean (S.Store.view held.new.store) → (ended : Endings)
        → HoldsEndings ended_session_tree ended (S.Store.view held.old.store).trees → IsOpenIn key.now party.now.rp_id next ended now text.now found) }
    ensures limits { IfOk result (λ found. IfSome found (λ g. (g.number < next) × FitsColumn (session_view g.opened).ends)) }
    ensures within { IfOk result (λ found. IfSome found (λ _. FitsColumn now)) }
    ensures reads { ReadsSession S.Store held.old held.new result }
    ensures cause { IsClean (S.Store.view held.new.store) → IfErr result (IfSessionStore (IsCaused (S.Store.view held.old.store) (S.Store.faults held.old.store)
        (S.Store.faults held.new.store) ⊥ (IsUnknownEnding ended_session_tree (S.Store.view held.old.store).trees))) }
{
    let Some(given) = given_session(held.alloc, key, party, next, now, text)? else {
        return Ok(None);
    };
    if held.has_ended(given.number)? {
        return Ok(None);
    }
    Ok(Some(given))
}

/// Writes that a session has ended so, and takes out another that need not be known any more. A failure shuts it.
pub(crate) fn end_session<S: Store>(
    held: &mut SiteStore<S>,
    given: &Given,
    how: u64,
    now: u64,
) -> Result<(), Failure>
    requires ready { IsReadyStore S.Store held.old }
    requires fits { given.now.number < 2 ^ 63 }
    requires ends { FitsColumn (session_view given.now.opened).ends }
    requires how { how < 2 ^ 63 }
    ensures ended { OnOk result (IsClean (S.Store.view held.new.store) → EndsIn ended_session_tree now given.now.number
        (record { said = how; until = (session_view given.now.opened).ends }) (S.Store.view held.old.store) (S.Store.view held.new.store)) }
    ensures writes { WritesStore S.Store held.old held.new held.old.reserved result }
    ensures cause { SiteFails S.Store held.old.store held.new.store (RefusesEnding ended_session_tree (S.Store.view held.old.store)) ⊥ result }
{
    let ending = Ending {
        said: how,
        until: given.opened.ends,
    };
    held.end(ENDED_SESSION_TREE, given.number, ending, 0, now)
}

impl<S: Store> StoredSite<S> {
    /// Ends the open session of a text: true exactly where there was one. Commit before you answer.
    ///
    /// `Memory` where there was none to read the text: then nothing has changed.
    pub fn abandon(&mut self, text: &[u8], now: u64) -> Result<bool, SessionFailure>
        ensures told { IfOk result (λ was. IsClean (S.Store.view self.new.store) → (ended : Endings)
            → HoldsEndings ended_session_tree ended (S.Store.view self.old.store).trees
            → (after : Endings) × TellsAbandoned self.old now text.now was ended after × HoldsEndings ended_session_tree after (S.Store.view self.new.store).trees) }
        ensures held { OnOk result (IsClean (S.Store.view self.new.store) → (placed : Placed) → IsHeld placed self.old (S.Store.view self.old.store).trees
            → IsHeld placed self.new (S.Store.view self.new.store).trees) }
        ensures beside { OnOk result (IsClean (S.Store.view self.new.store)
            → KeepsBeside (ended_session_tree ∷ []) (S.Store.view self.old.store).trees (S.Store.view self.new.store).trees) }
        ensures one { OnOk result (IsOneSite self.old self.new × (self.new.is_shut ≡ false) × (self.new.next ≡ self.old.next)) }
        ensures memory { IsErrOf result sessions.Memory → self.new ≡ self.old }
        ensures failed { IfErr result (IfSessionStore (IsFailure self.old self.new)) }
        ensures shut { self.old.is_shut ≡ true → IsErrOf result (sessions.Store failures.Shut) }
        ensures cause { IsClean (S.Store.view self.new.store) → IfErr result (IfSessionStore (IsCaused (S.Store.view self.old.store) (S.Store.faults self.old.store)
            (S.Store.faults self.new.store) (RefusesEnding ended_session_tree (S.Store.view self.old.store)) (IsUnknownEnding ended_session_tree (S.Store.view self.old.store).trees))) }
        ensures quiet { IsQuiet S.Store self.old.store self.new.store }
    {
        if self.held.is_shut {
            return Err(SessionFailure::Store(Failure::Shut));
        }
        let given = open_session(&self.key, &self.party, self.next, &mut self.held, text, now)?;
        let Some(given) = given else {
            return Ok(false);
        };
        end_session(&mut self.held, &given, ABANDONED, now)?;
        Ok(true)
    }
}
