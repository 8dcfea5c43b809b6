//! Loading what was saved.

ghost use Rattle.std.specs.Prelude.{◌≡◌, ◌↔◌, ◌≤◌, ℕ, List, true, map, IfOk, IsErrOf, IsTrue};
ghost use Rattle.refusal_order.specs.Lines.{Each};
ghost use Rattle.ccbor.specs.View.{items_of};
ghost use Rattle.ccbor.specs.Viewing.{shown_items};
ghost use Rattle.verification.specs.Records.{Credential};
ghost use Rattle.site_state.specs.Table.{IsTable};
ghost use Rattle.site.specs.Saved.{Saved, FitsVersion, TableOf, credential_item, has_version_4};
ghost use Rattle.site.specs.Private.{IsOf};
ghost use Rattle.site.specs.Views.{table_members_view};
ghost use Rattle.site.specs.declared.table_error.TableError.TheVariants as errors;

use crate::reading::{TableMembers, credential, table_members};
use crate::saving::version_of;
use crate::table_error::TableError;
use authdata::Profile;
use ccbor::{ArrayView, View};
use site_state::Table;
use std::alloc::Global;

/// What was saved of a relying party.
#[derive(Drop)]
pub struct Loaded {
    /// The credentials in order of registration.
    pub table: Table,
    /// The number of the next session, at least 1.
    pub next: u64,
}

/// Whether these members are of a version from 1 to 4, of this rp id, and of a session number that is one.
fn is_of(found: &TableMembers<'_>, rp_id: &str) -> bool
    ensures { IsTrue result ↔ IsOf rp_id.now (table_members_view found.now) }
{
    1 <= found.version && found.version <= 4 && found.rp_id == rp_id && 1 <= found.next
}

/// The table of the credentials whose maps these are in a table of this version, with ids of this profile.
fn credentials_in(
    alloc: Global,
    profile: Profile,
    version: u64,
    items: ArrayView<'_>,
) -> Result<Table, TableError>
    ensures limits { IfOk result (IsTable profile) }
    ensures needed { IfOk result (λ t. 4 ≤ version → has_version_4 t ≡ true) }
    ensures read { IfOk result (λ t. Each (FitsVersion version) t
        × (shown_items items.entry ≡ items_of (map credential_item t))) }
    // It is refused only if there is none.
    ensures none { IsErrOf result errors.BadTable → (rows : List Credential) → IsTable profile rows → (4 ≤ version → has_version_4 rows ≡ true)
        → Each (FitsVersion version) rows → shown_items items.entry ≡ items_of (map credential_item rows) → ⊥ }
{
    let mut rest = items;
    let mut table = Table::new(alloc);
    while let Some((item, after)) = rest.split_first() {
        let row = credential(alloc, version, &item)?;
        if !table.admits(profile, &row) {
            return Err(TableError::BadTable);
        }
        table.push(row)?;
        rest = after;
    }
    if 4 <= version && version_of(&table) < 4 {
        return Err(TableError::BadTable);
    }
    Ok(table)
}

/// What was saved of the relying party of this rp id and profile: bytes that [`save`](crate::save) appended, now or in
/// the versions before (1 to 4).
///
/// Refused as `BadTable` (23) where the bytes are of no such version, not the whole of one canonical map, of another
/// rp id, or where what they hold is no table of the profile: a user handle that is not of 1 to 64 bytes, an id that is
/// not, in the open profile of 1 to 1,023, an id twice, more than 65,536 credentials, a counter above 2^32 - 1, a
/// member that the version does not know; an id of more than 64 bytes or an RSA key in versions 1 to 3, and version 4
/// where there is neither. Otherwise only `Memory` is answered.
pub fn load(
    alloc: Global,
    profile: Profile,
    bytes: &[u8],
    rp_id: &str,
) -> Result<Loaded, TableError>
    ensures loaded { IfOk result (λ l. (version : ℕ) × TableOf version (record { rp_id = rp_id.now; next = l.next; rows = l.table }) bytes.now) }
    ensures limits { IfOk result (λ l. IsTable profile l.table) }
    // It is refused only where the bytes are no such table.
    ensures bad { IsErrOf result errors.BadTable → (version : ℕ) (saved : Saved) → saved.rp_id ≡ rp_id.now
        → IsTable profile saved.rows → TableOf version saved bytes.now → ⊥ }
{
    let Ok(value) = View::check_all(bytes) else {
        return Err(TableError::BadTable);
    };
    let Some(found) = table_members(&value) else {
        return Err(TableError::BadTable);
    };
    if !is_of(&found, rp_id) {
        return Err(TableError::BadTable);
    }
    let table = credentials_in(alloc, profile, found.version, found.credentials)?;
    Ok(Loaded {
        table,
        next: found.next,
    })
}
