//! The site.

ghost use Rattle.std.specs.Prelude.{◌≡◌, ◌≢◌, ◌↔◌, ◌≤◌, ◌<◌, [], IfErr, IfOk, IfSome, IsErrOf, IsSome, IsTrue, OnErr, OnOk, ℕ, false, is_some};
ghost use Rattle.std.specs.Prelude.{length, map, option_map, slice_get, true, Some};
ghost use Rattle.std.specs.FinMap as finite;
ghost use Rattle.std.specs.Option.{ForSome};
ghost use Rattle.authdata.specs.declared.profile.Profile.TheVariants.{Open, Strict};
ghost use Rattle.verification.specs.Views.{credential_view, texts_of};
ghost use Rattle.site_state.specs.Table.{IsTable, IsWithin, retired, row_of, with_row};
ghost use Rattle.site_state.specs.RowViews.{rows_view, stored_row_view};
ghost use Rattle.site_state.specs.Sessions.{IsRefused, OpensRegistration, OpensSignIn, PassesOpening, begun, challenge_of, closed, usual};
ghost use Rattle.site_state.specs.SessionViews.{session_view};
ghost use Rattle.site.specs.Saved.{AppendsTable};
ghost use Rattle.site.specs.State.{IsLoaded, IsNoTable, IsParty, framed_party, idle, party_of, saved_of};
ghost use Rattle.site.specs.declared.error.Error.TheVariants as errors;

use crate::error::Error;
use crate::loading::{Loaded, load};
use crate::saving::save;
use crate::table_error::TableError;
use authdata::Profile;
use cose::Alg;
use site_state::{Asks, Row, Rows, Session, Sessions, Started, Table, is_within};
use std::alloc::{AllocError, Global};
use std::marker::Model;
use verification::{Policy, RelyingParty, RowView};

/// The most bytes of an rp id.
pub const MAX_RP_ID: usize = 253;

/// A relying party: its rp id and origins, what it accepts at registration, the registered credentials, and the
/// sessions that are open.
#[derive(Drop)]
pub struct Site {
    pub(crate) alloc: Global,
    pub(crate) party: RelyingParty,
    pub(crate) policy: Policy,
    pub(crate) table: Table,
    pub(crate) sessions: Sessions,
}

impl Model for Site {
    ghost use Rattle.std.specs.Prelude.{◌≡◌, ◌≤◌};
    ghost use Rattle.site_state.specs.Table.{IsTable};
    ghost use Rattle.site.specs.State.{SiteState, IsParty};
    ghost use Rattle.site.specs.Codes.{state_code};

    ghost Value = { SiteState };

    ghost coded = { state_code };

    ghost view = { λ s. record { rp = s.party; policy = s.policy; rows = s.table; sessions = s.sessions } };

    ghost invariant = { λ s. IsTable s.party.profile s.table × IsParty s.party × (1 ≤ s.sessions.next) };
}

/// Whether an rp id and origins are within their limits, which no profile changes.
fn is_party(rp_id: &str, origins: &[&str]) -> bool
    ensures { IsTrue result ↔ IsWithin 253 rp_id.now × (1 ≤ length (texts_of origins.now)) }
{
    is_within(rp_id.as_bytes(), MAX_RP_ID) && 1 <= origins.len()
}

/// A site of a relying party that is within its limits, with this table and this next session number.
fn site_with(alloc: Global, party: RelyingParty, policy: Policy, table: Table, next: u64) -> Site
    requires party { IsParty party }
    requires table { IsTable party.profile table }
    requires next { 1 ≤ next }
    ensures { result ≡ idle party policy table next }
{
    Site {
        alloc,
        party,
        policy,
        table,
        sessions: Sessions::new(alloc, next),
    }
}

impl Site {
    /// A site without credentials, of the strict profile.
    ///
    /// `BadInput` where the rp id is not of 1 to 253 bytes or there is no origin; `Memory` where there was none for
    /// the copies of the texts. An origin is compared as a text.
    pub fn new(alloc: Global, rp_id: &str, origins: &[&str], policy: Policy) -> Result<Site, Error>
        ensures made { IfOk result (λ s. s ≡ idle (party_of Strict rp_id.now (texts_of origins.now)) policy [] 1) }
        ensures input { IsErrOf result Error.BadInput ↔ ¬ IsParty (party_of Strict rp_id.now (texts_of origins.now)) }
        ensures no_table { IfErr result (λ e. e ≢ errors.BadTable) }
    {
        Site::with_table(alloc, rp_id, origins, policy, Table::new(alloc))
    }

    /// A site without credentials, of the open profile, which takes what real keys and browsers send; else as `new`.
    pub fn open(alloc: Global, rp_id: &str, origins: &[&str], policy: Policy) -> Result<Site, Error>
        ensures made { IfOk result (λ s. s ≡ idle (party_of Open rp_id.now (texts_of origins.now)) policy [] 1) }
        ensures input { IsErrOf result Error.BadInput ↔ ¬ IsParty (party_of Open rp_id.now (texts_of origins.now)) }
        ensures no_table { IfErr result (λ e. e ≢ errors.BadTable) }
    {
        Site::with_profile(
            alloc,
            Profile::Open,
            rp_id,
            origins,
            policy,
            Table::new(alloc),
        )
    }

    /// A site with a table of credentials that is made, of the strict profile.
    ///
    /// `BadInput` and `Memory` as for `new`; `BadTable` where an id of more than 64 bytes stands in the table.
    pub fn with_table(
        alloc: Global,
        rp_id: &str,
        origins: &[&str],
        policy: Policy,
        table: Table,
    ) -> Result<Site, Error>
        ensures made { IfOk result (λ s. s ≡ idle (party_of Strict rp_id.now (texts_of origins.now)) policy table 1) }
        ensures input { IsErrOf result Error.BadInput ↔ ¬ IsParty (party_of Strict rp_id.now (texts_of origins.now)) }
        ensures table { IsErrOf result Error.BadTable → IsTable Strict table → ⊥ }
    {
        Site::with_profile(alloc, Profile::Strict, rp_id, origins, policy, table)
    }

    /// A site with a table of credentials that is made, of this profile; a site of the open one can have each table.
    ///
    /// `BadInput` and `Memory` as for `new`; `BadTable` as for `with_table`, of the strict profile alone.
    pub fn with_profile(
        alloc: Global,
        profile: Profile,
        rp_id: &str,
        origins: &[&str],
        policy: Policy,
        table: Table,
    ) -> Result<Site, Error>
        ensures made { IfOk result (λ s. s ≡ idle (party_of profile rp_id.now (texts_of origins.now)) policy table 1) }
        ensures input { IsErrOf result Error.BadInput ↔ ¬ IsParty (party_of profile rp_id.now (texts_of origins.now)) }
        ensures table { IsErrOf result Error.BadTable → IsTable profile table → ⊥ }
    {
        Site::framed_by(alloc, profile, rp_id, origins, &[], policy, table)
    }

    /// The same where other sites' pages of these origins may frame its own (WebAuthn Level 3, sections 7.1 and 7.2,
    /// `topOrigin`), each compared as a text. Level 3 alone looks at them.
    pub fn framed_by(
        alloc: Global,
        profile: Profile,
        rp_id: &str,
        origins: &[&str],
        top_origins: &[&str],
        policy: Policy,
        table: Table,
    ) -> Result<Site, Error>
        ensures made { IfOk result (λ s. s
            ≡ idle (framed_party profile rp_id.now (texts_of origins.now) (texts_of top_origins.now)) policy table 1) }
        ensures input { IsErrOf result Error.BadInput ↔ ¬ IsParty (party_of profile rp_id.now (texts_of origins.now)) }
        ensures table { IsErrOf result Error.BadTable → IsTable profile table → ⊥ }
    {
        if !is_party(rp_id, origins) {
            return Err(Error::BadInput);
        }
        if !table.is_of(profile) {
            return Err(Error::BadTable);
        }
        let party = RelyingParty::framed_by(alloc, profile, rp_id, origins, top_origins)?;
        Ok(site_with(alloc, party, policy, table, 1))
    }

    /// A site with these credentials, in order of registration, of the strict profile. For the open one make a
    /// [`Table`](site_state::Table) of it, and the site by [`Site::with_profile`].
    ///
    /// `BadInput` as for `new`; then `BadTable` where an id or a user handle is not of 1 to 64 bytes, an id stands
    /// twice, or there are more than 65,536 credentials.
    pub fn with_rows(
        alloc: Global,
        rp_id: &str,
        origins: &[&str],
        policy: Policy,
        rows: Vec<Row>,
    ) -> Result<Site, Error>
        ensures made { IfOk result (λ s. s
            ≡ idle (party_of Strict rp_id.now (texts_of origins.now)) policy (rows_view rows.items) 1) }
        ensures input { IsErrOf result Error.BadInput ↔ ¬ IsParty (party_of Strict rp_id.now (texts_of origins.now)) }
        ensures table { IsErrOf result Error.BadTable → IsTable Strict (rows_view rows.items) → ⊥ }
    {
        if !is_party(rp_id, origins) {
            return Err(Error::BadInput);
        }
        match Table::from_rows(alloc, rows) {
            Ok(table) => {
                let party = RelyingParty::new(alloc, rp_id, origins)?;
                Ok(site_with(alloc, party, policy, table, 1))
            }
            Err(site_state::TableError::BadTable) => Err(Error::BadTable),
            Err(site_state::TableError::Memory) => Err(Error::Memory),
        }
    }

    /// The site that was saved, by `save` or in an earlier version of its bytes, without open sessions; the session
    /// numbers go on. It is of the strict profile.
    ///
    /// `BadInput` as for `new`; then `BadTable` where the bytes are not what is saved of a site with this rp id, or an
    /// id has more than 64 bytes.
    pub fn load(
        alloc: Global,
        bytes: &[u8],
        rp_id: &str,
        origins: &[&str],
        policy: Policy,
    ) -> Result<Site, Error>
        ensures loaded { IfOk result (IsLoaded (party_of Strict rp_id.now (texts_of origins.now)) policy bytes.now) }
        ensures input { IsErrOf result Error.BadInput ↔ ¬ IsParty (party_of Strict rp_id.now (texts_of origins.now)) }
        ensures table { IsErrOf result Error.BadTable → IsNoTable (party_of Strict rp_id.now (texts_of origins.now)) bytes.now }
    {
        Site::load_with_profile(alloc, Profile::Strict, bytes, rp_id, origins, policy)
    }

    /// The site that was saved, of this profile: the open one loads ids of up to 1,023 bytes; else as `load`. What a
    /// strict site saved may be loaded as an open one.
    pub fn load_with_profile(
        alloc: Global,
        profile: Profile,
        bytes: &[u8],
        rp_id: &str,
        origins: &[&str],
        policy: Policy,
    ) -> Result<Site, Error>
        ensures loaded { IfOk result (IsLoaded (party_of profile rp_id.now (texts_of origins.now)) policy bytes.now) }
        ensures input { IsErrOf result Error.BadInput ↔ ¬ IsParty (party_of profile rp_id.now (texts_of origins.now)) }
        ensures table { IsErrOf result Error.BadTable → IsNoTable (party_of profile rp_id.now (texts_of origins.now)) bytes.now }
    {
        Site::load_framed_by(alloc, profile, bytes, rp_id, origins, &[], policy)
    }

    /// The same where other sites' pages of these origins may frame its own, as for `framed_by`.
    pub fn load_framed_by(
        alloc: Global,
        profile: Profile,
        bytes: &[u8],
        rp_id: &str,
        origins: &[&str],
        top_origins: &[&str],
        policy: Policy,
    ) -> Result<Site, Error>
        ensures loaded { IfOk result (IsLoaded (framed_party profile rp_id.now (texts_of origins.now) (texts_of top_origins.now)) policy bytes.now) }
        ensures input { IsErrOf result Error.BadInput ↔ ¬ IsParty (party_of profile rp_id.now (texts_of origins.now)) }
        ensures table { IsErrOf result Error.BadTable → IsNoTable (party_of profile rp_id.now (texts_of origins.now)) bytes.now }
    {
        if !is_party(rp_id, origins) {
            return Err(Error::BadInput);
        }
        match load(alloc, profile, bytes, rp_id) {
            Ok(Loaded { table, next }) => {
                let party = RelyingParty::framed_by(alloc, profile, rp_id, origins, top_origins)?;
                Ok(site_with(alloc, party, policy, table, next))
            }
            Err(TableError::BadTable) => Err(Error::BadTable),
            Err(TableError::Memory) => Err(Error::Memory),
        }
    }

    /// Which responses, and which ids, it takes.
    pub fn profile(&self) -> Profile
        ensures { result ≡ self.now.rp.profile }
    {
        self.party.profile()
    }

    /// Appends what is kept of the site over a restart: its rp id, the number of the next session, and the
    /// credentials, retired ones too. Where there is no memory nothing is appended.
    pub fn save(&self, out: &mut Vec<u8>) -> Result<(), AllocError>
        ensures saved { OnOk result (AppendsTable (saved_of self.now) out.old.items out.new.items) }
        ensures unchanged { OnErr result (out.new.items ≡ out.old.items) }
    {
        save(self.party.rp_id(), self.sessions.next(), &self.table, out)
    }

    /// Begins a sign-in: of the account with this user handle, where it is known beforehand; with one of these
    /// credentials, where any are listed, at most 8; with the user verified or not. The words are 24 random bytes,
    /// never used before.
    ///
    /// `BadInput` where the user handle is not of 1 to 64 bytes, an id not of 1 to 64 or in the open profile to 1,023,
    /// or more than 8 ids are listed, then `SessionsFull` where the most sessions are open, then `Exhausted` where
    /// the next number is 2^64 - 1; `Memory` where there was none for the copies or the session. Then nothing has changed.
    pub fn begin_sign_in(
        &mut self,
        user: Option<&[u8]>,
        allow: &[&[u8]],
        uv: bool,
        words: [u8; 24],
    ) -> Result<Started, site_state::BeginError>
        ensures passes { OnOk result (PassesOpening self.old.rp.profile self.old.sessions
            (OpensSignIn (option_map (λ u. u.now) user.entry) (map (λ id. id.now) allow.now) uv words)) }
        ensures started { IfOk result (λ s. (s.session ≡ self.old.sessions.next) × (s.challenge ≡ challenge_of self.old.sessions.next words)) }
        ensures begun { OnOk result (self.new ≡ record self.old
            { sessions = begun self.old.sessions (OpensSignIn (option_map (λ u. u.now) user.entry) (map (λ id. id.now) allow.now) uv words) }) }
        ensures refused { IfErr result (IsRefused self.old.rp.profile self.old.sessions
            (OpensSignIn (option_map (λ u. u.now) user.entry) (map (λ id. id.now) allow.now) uv words)) }
        ensures unchanged { OnErr result (self.new ≡ self.old) }
    {
        self.sessions
            .begin_sign_in(self.party.profile(), user, allow, uv, words)
    }

    /// Begins a registration for the account with this user handle, with these algorithms offered, and with the user
    /// verified or not. It is not conditional, and asks for an attestation. The words are 24 random bytes, never used
    /// before.
    ///
    /// `BadInput` where the user handle is not of 1 to 64 bytes or no algorithm is offered, then as for a sign-in.
    pub fn begin_registration(
        &mut self,
        user: &[u8],
        algorithms: &[Alg],
        uv: bool,
        words: [u8; 24],
    ) -> Result<Started, site_state::BeginError>
        ensures passes { OnOk result (PassesOpening self.old.rp.profile self.old.sessions (OpensRegistration user.now algorithms.now uv words usual)) }
        ensures started { IfOk result (λ s. (s.session ≡ self.old.sessions.next) × (s.challenge ≡ challenge_of self.old.sessions.next words)) }
        ensures begun { OnOk result (self.new ≡ record self.old { sessions = begun self.old.sessions (OpensRegistration user.now algorithms.now uv words usual) }) }
        ensures refused { IfErr result (IsRefused self.old.rp.profile self.old.sessions (OpensRegistration user.now algorithms.now uv words usual)) }
        ensures unchanged { OnErr result (self.new ≡ self.old) }
    {
        self.begin_registration_for(user, algorithms, uv, Asks::usual(), words)
    }

    /// The same, conditional or not, and with an attestation asked for or not.
    pub fn begin_registration_for(
        &mut self,
        user: &[u8],
        algorithms: &[Alg],
        uv: bool,
        asks: Asks,
        words: [u8; 24],
    ) -> Result<Started, site_state::BeginError>
        ensures passes { OnOk result (PassesOpening self.old.rp.profile self.old.sessions (OpensRegistration user.now algorithms.now uv words asks)) }
        ensures started { IfOk result (λ s. (s.session ≡ self.old.sessions.next) × (s.challenge ≡ challenge_of self.old.sessions.next words)) }
        ensures begun { OnOk result (self.new ≡ record self.old { sessions = begun self.old.sessions (OpensRegistration user.now algorithms.now uv words asks) }) }
        ensures refused { IfErr result (IsRefused self.old.rp.profile self.old.sessions (OpensRegistration user.now algorithms.now uv words asks)) }
        ensures unchanged { OnErr result (self.new ≡ self.old) }
    {
        self.sessions
            .begin_registration_for(user, algorithms, uv, asks, words)
    }

    /// Closes a session: true exactly where it was open. It takes no memory.
    pub fn abandon(&mut self, session: u64) -> bool
        ensures told { result ≡ is_some (finite.get self.old.sessions.expected session) }
        ensures closed { self.new ≡ record self.old { sessions = closed session self.old.sessions } }
    {
        self.sessions.close(session)
    }

    /// Retires the credential of an id: true where there is one that was not retired; else nothing changes. A retired
    /// credential signs in no more, stays in its place, and its id stays taken. It takes no memory.
    pub fn retire(&mut self, id: &[u8]) -> bool
        ensures told { IsTrue result ↔ IsSome (row_of id.now self.old.rows) × ForSome (row_of id.now self.old.rows) (λ row. row.retired ≡ false) }
        ensures after { result ≡ true → self.new ≡ record self.old { rows = with_row id.now retired self.old.rows } }
        ensures unchanged { result ≡ false → self.new ≡ self.old }
    {
        self.table.retire(id)
    }

    /// The credential of an id, retired or not. It takes no memory.
    pub fn row(&self, id: &[u8]) -> Option<RowView<'_>>
        ensures { option_map credential_view result ≡ row_of id.now self.now.rows }
    {
        self.table.row(id)
    }

    /// The credential of an id, retired or not, with its place in order of registration, from 0. It takes no memory.
    pub fn find(&self, id: &[u8]) -> Option<(usize, RowView<'_>)>
        ensures place { IfSome result (λ x. slice_get self.now.rows x.0 ≡ Some (credential_view x.1)) }
        ensures row { option_map (λ x. credential_view x.1) result ≡ row_of id.now self.now.rows }
        ensures limits { IsTable self.now.rp.profile self.now.rows }
    {
        self.table.find(id)
    }

    /// What the session of a number expects, where it is open. It takes no memory.
    pub fn session(&self, session: u64) -> Option<&Session>
        ensures { option_map (λ s. session_view s.now) result ≡ finite.get self.now.sessions.expected session }
    {
        self.sessions.get(session)
    }

    /// The number that the next session will have.
    pub fn next_session(&self) -> u64
        ensures { result ≡ self.now.sessions.next }
    {
        self.sessions.next()
    }

    /// Bounds the sessions that are open at a time, which are 1,024 at first. Those that are open stay so, if there are
    /// more.
    pub fn set_max_open(&mut self, max_open: usize)
        ensures { self.new ≡ record self.old { sessions = record self.old.sessions { max_open = max_open } } }
    {
        self.sessions.set_max_open(max_open);
    }

    /// The most sessions that are open at a time.
    pub fn max_open(&self) -> usize
        ensures { result ≡ self.now.sessions.max_open }
    {
        self.sessions.max_open()
    }

    /// The rp id.
    pub fn rp_id(&self) -> &str
        ensures { result.now ≡ self.now.rp.rp_id }
    {
        self.party.rp_id()
    }

    /// The credentials in order of registration. It takes no memory.
    pub fn rows(&self) -> Rows<'_>
        ensures { map (λ e. stored_row_view e.0.items e.1) result.0 ≡ self.now.rows }
    {
        self.table.rows()
    }
}
