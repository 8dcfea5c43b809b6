//! The table.

ghost use Rattle.std.specs.Prelude.{◌≡◌, ◌<◌, ◌≤◌, ◌↔◌, ◌++◌, [], ◌∷◌, length, map, true, false, slice_get, Some, None, IfErr, IfOk, IfSome, IsErrOf};
ghost use Rattle.std.specs.Prelude.{IsSome, IsTrue, OnErr, OnOk, option_map};
ghost use Rattle.std.specs.Option.{ForSome};
ghost use Rattle.std.specs.Iterator.{YieldsFirstBy, item_count};
ghost use Rattle.verification.specs.Records.{Credential};
ghost use Rattle.verification.specs.Views.{credential_view};
ghost use Rattle.authdata.specs.declared.profile.Profile.{Profile as IdProfile};
ghost use Rattle.authdata.specs.declared.profile.Profile.TheVariants.{Open, Strict};
ghost use Rattle.site_state.specs.Table.{IsRow, IsTable, IsWithin, has_long, row_of, retired, signed_in, with_row};
ghost use Rattle.site_state.specs.RowViews.{row_view, rows_view, stored_row_view};
ghost use Rattle.site_state.specs.declared.table.TableError.TheVariants as errors;

use crate::row::{Row, StoredRow};
use authdata::Profile;
use indexmap::IndexMap;
use indexmap::map::Iter;
use std::alloc::{AllocError, Global};
use std::marker::Model;
use verification::RowView;

/// The most bytes of a user handle.
pub const MAX_USER: usize = 64;

/// The most credentials of a table, retired ones too.
pub const MAX_ROWS: usize = 65_536;

/// Why rows are no table.
#[derive(Clone, Copy, Debug, PartialEq, Eq, Drop, thiserror::Error)]
pub enum TableError {
    /// 23: an id is not of 1 byte to those of the profile, a user handle not of 1 to 64 bytes, an id stands twice, or
    /// there are more than 65,536 rows.
    #[error("the credentials are not a table that a site can have")]
    BadTable,
    /// There was no memory.
    #[error("out of memory")]
    Memory,
}

impl From<AllocError> for TableError {
    ghost from_gives = { λ _ e. e ≡ errors.Memory };

    fn from(_e: AllocError) -> TableError {
        TableError::Memory
    }
}

/// The registered credentials, in order of registration, with ids of 1 to 1,023 bytes. A contract sees their list.
#[derive(Drop)]
pub struct Table {
    rows: IndexMap<Vec<u8>, StoredRow>,
}

impl Model for Table {
    ghost use Rattle.std.specs.Prelude.{List, map};
    ghost use Rattle.authdata.specs.declared.profile.Profile.TheVariants.{Open};
    ghost use Rattle.verification.specs.Records.{Credential};
    ghost use Rattle.site_state.specs.Table.{IsTable};
    ghost use Rattle.site_state.specs.RowViews.{stored_row_view};

    ghost Value = { List Credential };

    ghost view = { λ t. map (λ e. stored_row_view e.0.items e.1) t.rows.entries };

    ghost invariant = { λ t. IsTable Open (map (λ e. stored_row_view e.0.items e.1) t.rows.entries) };
}

/// Whether an id or a user handle has 1 to `most` bytes.
pub fn is_within(bytes: &[u8], most: usize) -> bool
    ensures { IsTrue result ↔ IsWithin most bytes.now }
{
    1 <= bytes.len() && bytes.len() <= most
}

impl Row {
    /// Whether the id and the user handle are within their limits.
    pub fn is_within_limits(&self, profile: Profile) -> bool
        ensures { IsTrue result ↔ IsRow profile (row_view self.now) }
    {
        is_within(&self.id, profile.max_id()) && is_within(&self.user, MAX_USER)
    }
}

/// A credential as it is shown.
fn shown<'a>(id: &'a Vec<u8>, kept: &'a StoredRow) -> RowView<'a>
    ensures { credential_view result ≡ stored_row_view id.now.items kept.now }
{
    RowView {
        id,
        user: &kept.user,
        key: kept.key.view(),
        sign_count: kept.sign_count,
        eligible: kept.eligible,
        retired: kept.retired,
    }
}

impl Table {
    /// A table without credentials, which takes no memory.
    pub fn new(alloc: Global) -> Table
        ensures { result ≡ [] }
    {
        Table {
            rows: IndexMap::new(alloc),
        }
    }

    /// How many credentials there are.
    pub fn len(&self) -> usize
        ensures { result ≡ length self.now }
    {
        self.rows.len()
    }

    /// Whether there is room for no more.
    pub fn is_full(&self) -> bool
        ensures { IsTrue result ↔ (65536 ≤ length self.now) }
    {
        MAX_ROWS <= self.rows.len()
    }

    /// The credential of an id, and its place.
    pub fn find(&self, id: &[u8]) -> Option<(usize, RowView<'_>)>
        ensures place { IfSome result (λ x. slice_get self.now x.0 ≡ Some (credential_view x.1)) }
        ensures row { option_map (λ x. credential_view x.1) result ≡ row_of id.now self.now }
    {
        let (place, id, kept) = self.rows.get_full(id)?;
        Some((place, shown(id, kept)))
    }

    /// The credential of an id.
    pub fn row(&self, id: &[u8]) -> Option<RowView<'_>>
        ensures { option_map credential_view result ≡ row_of id.now self.now }
    {
        let (_, row) = self.find(id)?;
        Some(row)
    }

    /// Whether a credential has this id, retired or not.
    pub fn has(&self, id: &[u8]) -> bool
        ensures { result ≡ false ↔ (row_of id.now self.now ≡ None) }
    {
        self.rows.contains_key(id)
    }

    /// Stores what a sign-in brought, in the credential at a place, which `find` found. Where no credential is there
    /// nothing changes.
    pub fn store(&mut self, place: usize, sign_count: u32, eligible: bool)
        ensures stored { (row : Credential) → slice_get self.old place ≡ Some row
            → self.new ≡ with_row row.id (signed_in sign_count eligible) self.old }
        ensures limits { (profile : IdProfile) → IsTable profile self.old → IsTable profile self.new }
        ensures unchanged { slice_get self.old place ≡ None → self.new ≡ self.old }
    {
        if let Some(kept) = self.rows.get_index_mut(place) {
            kept.sign_count = sign_count;
            kept.eligible = Some(eligible);
        }
    }

    /// Retires the credential at a place.
    fn retire_at(&mut self, place: usize)
        ensures retired { (row : Credential) → slice_get self.old place ≡ Some row
            → self.new ≡ with_row row.id retired self.old }
        ensures limits { (profile : IdProfile) → IsTable profile self.old → IsTable profile self.new }
    {
        if let Some(kept) = self.rows.get_index_mut(place) {
            kept.retired = true;
        }
    }

    /// Retires the credential of an id: true where there is one that was not retired. Else nothing changes.
    pub fn retire(&mut self, id: &[u8]) -> bool
        ensures told { IsTrue result ↔ IsSome (row_of id.now self.old) × ForSome (row_of id.now self.old) (λ row. row.retired ≡ false) }
        ensures after { result ≡ true → self.new ≡ with_row id.now retired self.old }
        ensures limits { (profile : IdProfile) → IsTable profile self.old → IsTable profile self.new }
        ensures unchanged { result ≡ false → self.new ≡ self.old }
    {
        let place = match self.find(id) {
            None => return false,
            Some((place, row)) => {
                if row.retired {
                    return false;
                }
                place
            }
        };
        self.retire_at(place);
        true
    }

    /// Whether a credential may stand after the others: it is within its limits, its id is not taken, and there is
    /// room.
    pub fn admits(&self, profile: Profile, row: &Row) -> bool
        ensures { IsTrue result ↔ IsRow profile (row_view row.now) × (row_of row.now.id.items self.now ≡ None) × (length self.now < 65536) }
    {
        if self.has(&row.id) {
            return false;
        }
        row.is_within_limits(profile) && !self.is_full()
    }

    /// Adds a credential after the others. Where there is no memory nothing has changed.
    pub fn push(&mut self, row: Row) -> Result<(), AllocError>
        requires limits { IsRow Open (row_view row) }
        requires absent { row_of row.id.items self.old ≡ None }
        requires room { length self.old < 65536 }
        ensures pushed { OnOk result (self.new ≡ self.old ++ row_view row ∷ []) }
        ensures limits { OnOk result ((profile : IdProfile) → IsTable profile self.old → IsRow profile (row_view row) → IsTable profile self.new) }
        ensures unchanged { OnErr result (self.new ≡ self.old) }
    {
        let kept = StoredRow {
            user: row.user,
            key: row.key,
            sign_count: row.sign_count,
            eligible: row.eligible,
            retired: row.retired,
        };
        self.rows.insert(row.id, kept)?;
        Ok(())
    }

    /// The table of these credentials, in this order, with ids of 1 to 64 bytes.
    ///
    /// `BadTable` is answered only where they are none, and `Memory` only where there was none.
    pub fn from_rows(alloc: Global, rows: Vec<Row>) -> Result<Table, TableError>
        ensures made { IfOk result (λ t. t ≡ rows_view rows.items) }
        ensures limits { IfOk result (IsTable Strict) }
        ensures bad { IsErrOf result TableError.BadTable → IsTable Strict (rows_view rows.items) → ⊥ }
    {
        Table::with_profile(alloc, Profile::Strict, rows)
    }

    /// The table of these credentials, in this order, with ids as the profile has them; else as `from_rows`.
    pub fn with_profile(
        alloc: Global,
        profile: Profile,
        rows: Vec<Row>,
    ) -> Result<Table, TableError>
        ensures made { IfOk result (λ t. t ≡ rows_view rows.items) }
        ensures limits { IfOk result (IsTable profile) }
        ensures bad { IsErrOf result TableError.BadTable → IsTable profile (rows_view rows.items) → ⊥ }
    {
        let mut table = Table::new(alloc);
        for row in rows {
            if !table.admits(profile, &row) {
                return Err(TableError::BadTable);
            }
            table.push(row)?;
        }
        Ok(table)
    }

    /// Whether an id of more than 64 bytes stands in it.
    pub fn has_long_id(&self) -> bool
        ensures told { result ≡ has_long self.now }
        ensures strict { result ≡ false ↔ IsTable Strict self.now }
    {
        for row in self.rows() {
            if Profile::Strict.max_id() < row.id.len() {
                return true;
            }
        }
        false
    }

    /// Whether each id is as the profile has it.
    pub fn is_of(&self, profile: Profile) -> bool
        ensures { IsTrue result ↔ IsTable profile self.now }
    {
        match profile {
            Profile::Strict => !self.has_long_id(),
            Profile::Open | Profile::Level3 => {
                // The table's own limits are these.
                let _ = &self.rows;
                true
            }
        }
    }

    /// The credentials in order of registration.
    pub fn rows(&self) -> Rows<'_>
        ensures rows { map (λ e. stored_row_view e.0.items e.1) result.0 ≡ self.now }
        ensures limits { IsTable Open self.now }
    {
        Rows(self.rows.iter())
    }
}

/// The registered credentials in order of registration.
#[derive(Drop)]
pub struct Rows<'a>(Iter<'a, Vec<u8>, StoredRow>);

impl<'a> Iterator for Rows<'a> {
    type Item = RowView<'a>;

    ghost next_gives = { YieldsFirstBy credential_view (λ s. map (λ e. stored_row_view e.0.items e.1) s.0) };

    ghost remaining = { item_count (λ s. map (λ e. stored_row_view e.0.items e.1) s.0) };

    fn next(&mut self) -> Option<RowView<'a>> {
        let (id, kept) = self.0.next()?;
        Some(shown(id, kept))
    }
}
