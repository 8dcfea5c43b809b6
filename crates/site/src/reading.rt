//! Reading the members of a saved table's maps, where they lie.

ghost use Rattle.std.specs.Prelude.{◌≡◌, ◌<◌, ◌↔◌, IfOk, IsErrOf, IsTrue, false, option_map};
ghost use Rattle.ccbor.specs.Viewing.{shown};
ghost use Rattle.ctap_encoding.specs.Reading.{Yields, read_in};
ghost use Rattle.ctap_encoding.specs.Table.{record_of};
ghost use Rattle.cose.specs.Keys.{lent_key_view};
ghost use Rattle.verification.specs.Records.{Credential};
ghost use Rattle.site_state.specs.RowViews.{row_view};
ghost use Rattle.site.specs.Saved.{FitsVersion, credential_item, needs_version_4};
ghost use Rattle.site.specs.Private.{AreMarks, credential_members, table_in};
ghost use Rattle.site.specs.Views.{members_content, table_members_view};
ghost use Rattle.site.specs.declared.table_error.TableError.TheVariants as errors;

use crate::table_error::TableError;
use ccbor::{ArrayView, MapKey, View};
use cose::KeyView;
use ctap_encoding::{
    Shape, any_map, bytes, end, members, optional, required, truth_if_there, unsigned,
};
use site_state::Row;
use std::alloc::Global;

/// The members of a table's map.
#[derive(Drop)]
pub struct TableMembers<'a> {
    pub version: u64,
    pub rp_id: &'a str,
    pub next: u64,
    pub credentials: ArrayView<'a>,
}

/// The members of a credential's map.
#[derive(Drop)]
struct CredentialMembers<'a> {
    id: &'a [u8],
    user: &'a [u8],
    key: View<'a>,
    sign_count: u64,
    eligible: Option<bool>,
    retired: Option<bool>,
}

/// The members of a table's map.
#[tactic(auto, unfolding(crate::specs::Private::table_in))]
pub fn table_members<'a>(value: &View<'a>) -> Option<TableMembers<'a>>
    ensures { option_map table_members_view result ≡ table_in (shown value.now) }
{
    let rest = value.as_map()?;
    let (held, rest) = rest.split_key(MapKey::Uint(1))?;
    let version = held.as_uint()?;
    let (held, rest) = rest.split_key(MapKey::Uint(2))?;
    let rp_id = held.as_text()?;
    let (held, rest) = rest.split_key(MapKey::Uint(3))?;
    let next = held.as_uint()?;
    let (held, rest) = rest.split_key(MapKey::Uint(4))?;
    let credentials = held.as_array()?;
    if !rest.is_end() {
        return None;
    }
    Some(TableMembers {
        version,
        rp_id,
        next,
        credentials,
    })
}

/// The members of a credential's map.
fn credential_members<'a>(value: &View<'a>) -> Result<CredentialMembers<'a>, Shape>
    ensures { Yields members_content result (read_in (record_of credential_members) (shown value.now)) }
{
    let rest = members(value)?;
    let (held, rest) = required(&rest, MapKey::Uint(1))?;
    let id = bytes(&held)?;
    let (held, rest) = required(&rest, MapKey::Uint(2))?;
    let user = bytes(&held)?;
    let (key, rest) = required(&rest, MapKey::Uint(3))?;
    any_map(&key)?;
    let (held, rest) = required(&rest, MapKey::Uint(4))?;
    let sign_count = unsigned(&held, 0)?;
    let (held, rest) = optional(rest, MapKey::Uint(5));
    let eligible = truth_if_there(held)?;
    let (held, rest) = optional(rest, MapKey::Uint(6));
    let retired = truth_if_there(held)?;
    end(&rest)?;
    Ok(CredentialMembers {
        id,
        user,
        key,
        sign_count,
        eligible,
        retired,
    })
}

/// Whether a credential's marks of eligibility and retirement may stand in a table of this version.
fn are_marks(version: u64, eligible: Option<bool>, retired: Option<bool>) -> bool
    ensures { IsTrue result ↔ AreMarks version eligible retired }
{
    if retired == Some(false) {
        return false;
    }
    (2 <= version || eligible.is_none()) && (3 <= version || retired.is_none())
}

/// Whether version 4 alone can hold a credential of this id and key.
pub fn needs_version_4(id: &[u8], key: &KeyView<'_>) -> bool
    ensures { result ≡ needs_version_4 id.now (lent_key_view key.now) }
{
    if 64 < id.len() {
        return true;
    }
    match key {
        KeyView::Es256 { .. } | KeyView::EdDsa { .. } => false,
        KeyView::Rs256(_) => true,
    }
}

/// Whether a table of this version may hold a credential of this id and key.
fn is_early(version: u64, id: &[u8], key: &KeyView<'_>) -> bool
    ensures { IsTrue result ↔ (version < 4 → needs_version_4 id.now (lent_key_view key.now) ≡ false) }
{
    4 <= version || !needs_version_4(id, key)
}

/// The credential that has this map in a table of this version, copied out.
pub fn credential(alloc: Global, version: u64, value: &View<'_>) -> Result<Row, TableError>
    ensures read { IfOk result (λ row. FitsVersion version (row_view row)
        × (shown value.now ≡ credential_item (row_view row))) }
    // It is refused only if no credential has it.
    ensures none { IsErrOf result errors.BadTable
        → (c : Credential) → FitsVersion version c → shown value.now ≡ credential_item c → ⊥ }
{
    let found = credential_members(value)?;
    let Ok(key) = KeyView::from_view(&found.key) else {
        return Err(TableError::BadTable);
    };
    let Ok(sign_count) = u32::try_from(found.sign_count) else {
        return Err(TableError::BadTable);
    };
    if !are_marks(version, found.eligible, found.retired) {
        return Err(TableError::BadTable);
    }
    if !is_early(version, found.id, &key) {
        return Err(TableError::BadTable);
    }
    Ok(Row {
        id: Vec::from_slice(alloc, found.id)?,
        user: Vec::from_slice(alloc, found.user)?,
        key: key.to_key(alloc)?,
        sign_count,
        eligible: found.eligible,
        retired: found.retired.is_some(),
    })
}
