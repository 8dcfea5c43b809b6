//! The credentials that an authenticator stores, in order of creation.

ghost use Rattle.std.specs.Prelude.{◌≡◌, ◌<◌, ◌++◌, ◌∷◌, [], IfOk, IfSome, List, MatchOption, OnErr, OnOk, count_by, filter, length, map, ℕ};
ghost use Rattle.std.specs.Prelude.{option_map, position, reverse, string_bytes};
ghost use Rattle.std.specs.List.{list_any};
ghost use Rattle.std.specs.Prelude as list;
ghost use Rattle.std.specs.Str.{bytes_eq};
ghost use Rattle.ctap_requests.specs.RequestView.{descriptor_view, lent_descriptor_view};
ghost use Rattle.authenticator.specs.Credentials.{credential_of, is_resident_for, is_resident_of, resident_ids, with_sign_count, without_first};
ghost use Rattle.authenticator.specs.Orders.{candidates, is_excluded, is_public_key, is_stored_for};
ghost use Rattle.authenticator.specs.Private.{StandsAt, stored_for, without};
ghost use Rattle.authenticator.specs.Views.{credential_source_view, credential_sources_view, candidates_view};

use crate::credential::StoredCredential;
use crate::remembered::Candidates;
use ctap_requests::{Descriptor, DescriptorView};
use std::alloc::{AllocError, Global};

/// Where the credential of an id stands.
fn place_of(credentials: &[StoredCredential], id: &[u8]) -> Option<usize>
    ensures { result ≡ position (λ c. bytes_eq c.id id.now) credentials.now }
{
    credentials.iter().position(|c| c.id.as_slice() == id)
}

/// The first that has an id.
fn first_of<'a>(credentials: &'a [StoredCredential], id: &[u8]) -> Option<&'a StoredCredential>
    ensures { option_map (λ c. c.now) result ≡ list.find (λ c. bytes_eq c.id id.now) credentials.entry.now }
{
    credentials.iter().find(|c| c.id.as_slice() == id)
}

/// The credential of an id.
pub(crate) fn find<'a>(
    credentials: &'a [StoredCredential],
    id: &[u8],
) -> Option<&'a StoredCredential>
    ensures { option_map (λ c. credential_source_view c.now) result ≡ credential_of id.now (credential_sources_view credentials.entry.now) }
{
    first_of(credentials, id)
}

/// A stored credential, and where it stands.
#[derive(Clone, Copy, Drop)]
pub(crate) struct PlacedCredential<'a> {
    pub place: usize,
    pub credential: &'a StoredCredential,
}

/// The credential of an id, and where it stands.
pub(crate) fn placed<'a>(
    credentials: &'a [StoredCredential],
    id: &[u8],
) -> Option<PlacedCredential<'a>>
    ensures { MatchOption result
        (credential_of id.now (credential_sources_view credentials.entry.now) ≡ None)
        (λ p. StandsAt id.now (credential_sources_view credentials.entry.now) p.place
        × (credential_of id.now (credential_sources_view credentials.entry.now) ≡ Some (credential_source_view p.credential.now))) }
{
    let place = place_of(credentials, id)?;
    Some(PlacedCredential {
        place,
        credential: &credentials[place],
    })
}

/// Writes the counter of the credential at a place.
pub(crate) fn set_sign_count(credentials: &mut [StoredCredential], place: usize, sign_count: u32)
    requires { place < length credentials.old }
    ensures { (id : List ℕ) → StandsAt id (credential_sources_view credentials.old) place
        → credential_sources_view credentials.new ≡ with_sign_count id sign_count (credential_sources_view credentials.old) }
{
    credentials[place].sign_count = sign_count;
}

/// Whether a type is `public-key`.
pub(crate) fn is_public_key(kind: &str) -> bool
    ensures { result ≡ is_public_key kind.now }
{
    kind == "public-key"
}

/// The credential of a descriptor of this type and id, where it is stored for the relying party.
fn stored_for<'a>(
    credentials: &'a [StoredCredential],
    rp_id: &str,
    kind: &str,
    id: &[u8],
) -> Option<&'a StoredCredential>
    ensures { option_map (λ c. credential_source_view c.now) result
        ≡ stored_for rp_id.now (credential_sources_view credentials.entry.now) (record { id = id.now; kind = kind.now }) }
{
    if !is_public_key(kind) {
        return None;
    }
    match find(credentials, id) {
        Some(credential) if credential.rp_id.as_str() == rp_id => Some(credential),
        _ => None,
    }
}

/// Whether a descriptor of this type and id is of a credential that is stored for the relying party.
fn is_stored_for(credentials: &[StoredCredential], rp_id: &str, kind: &str, id: &[u8]) -> bool
    ensures { result ≡ is_stored_for rp_id.now (credential_sources_view credentials.now) (record { id = id.now; kind = kind.now }) }
{
    stored_for(credentials, rp_id, kind, id).is_some()
}

/// Whether one of the descriptors is of a credential that is stored for the relying party.
fn is_any_stored(credentials: &[StoredCredential], rp_id: &str, descriptors: &[Descriptor]) -> bool
    ensures { result ≡ list_any (λ d. is_stored_for rp_id.now (credential_sources_view credentials.now) (descriptor_view d)) descriptors.now }
{
    descriptors
        .iter()
        .any(|d| is_stored_for(credentials, rp_id, &d.kind, &d.id))
}

/// Whether the descriptors, where they are there, have one of a credential that is stored for the relying party.
pub(crate) fn is_excluded(
    credentials: &[StoredCredential],
    rp_id: &str,
    descriptors: &Option<Vec<Descriptor>>,
) -> bool
    ensures { result ≡ is_excluded rp_id.now (credential_sources_view credentials.now) (option_map (λ v. map descriptor_view v.items) descriptors.now) }
{
    match descriptors {
        Some(descriptors) => is_any_stored(credentials, rp_id, descriptors),
        None => false,
    }
}

impl StoredCredential {
    /// Whether it is resident, and of this relying party.
    fn is_resident_for(&self, rp_id: &str) -> bool
        ensures { result ≡ is_resident_for rp_id.now (credential_source_view self.now) }
    {
        self.resident && self.rp_id.as_str() == rp_id
    }

    /// Whether it is resident, and of this relying party and user.
    fn is_resident_of(&self, rp_id: &str, user: &[u8]) -> bool
        ensures { result ≡ is_resident_of rp_id.now user.now (credential_source_view self.now) }
    {
        self.is_resident_for(rp_id) && self.user.as_slice() == user
    }
}

/// How many resident credentials the relying party has.
fn count_residents(credentials: &[StoredCredential], rp_id: &str) -> usize
    ensures { result ≡ count_by (λ c. is_resident_for rp_id.now (credential_source_view c)) credentials.now }
{
    credentials
        .iter()
        .filter(|c| c.is_resident_for(rp_id))
        .count()
}

/// The relying party's resident credentials, the most recent first. It takes memory where there are two.
fn residents(
    alloc: Global,
    credentials: &[StoredCredential],
    rp_id: &str,
) -> Result<Option<Candidates>, AllocError>
    ensures { IfOk result (λ o. candidates_view o ≡ resident_ids rp_id.now (credential_sources_view credentials.now)) }
{
    let count = count_residents(credentials, rp_id);
    let mut later = Vec::with_capacity(alloc, count.saturating_sub(1))?;
    let mut last = None;
    for credential in credentials {
        if credential.is_resident_for(rp_id) {
            if let Some(earlier) = last {
                later.push(earlier)?;
            }
            last = Some(credential.id);
        }
    }
    match last {
        Some(first) => Ok(Some(Candidates { first, later })),
        None => Ok(None),
    }
}

/// The credential of the first of the descriptors that is of one stored for the relying party.
fn listed(
    alloc: Global,
    credentials: &[StoredCredential],
    rp_id: &str,
    descriptors: &[DescriptorView<'_>],
) -> Option<Candidates>
    ensures { candidates_view result ≡ candidates (credential_sources_view credentials.now) rp_id.now (Some (map lent_descriptor_view descriptors.now)) }
{
    for descriptor in descriptors {
        if let Some(credential) = stored_for(credentials, rp_id, descriptor.kind, descriptor.id) {
            return Some(Candidates {
                first: credential.id,
                later: Vec::new(alloc),
            });
        }
    }
    None
}

/// Who may answer a getAssertion: with an allow list its first descriptor that is of a credential stored for the
/// relying party, without one the relying party's resident credentials.
pub(crate) fn candidates_for(
    alloc: Global,
    credentials: &[StoredCredential],
    rp_id: &str,
    allow_list: &Option<Vec<DescriptorView<'_>>>,
) -> Result<Option<Candidates>, AllocError>
    ensures { IfOk result (λ o. candidates_view o ≡ candidates (credential_sources_view credentials.now) rp_id.now
        (option_map (λ v. map lent_descriptor_view v.items) allow_list.now)) }
{
    match allow_list {
        Some(descriptors) => Ok(listed(alloc, credentials, rp_id, descriptors)),
        None => residents(alloc, credentials, rp_id),
    }
}

/// Where the first resident credential of the relying party and user stands.
pub(crate) fn resident_place(
    credentials: &[StoredCredential],
    rp_id: &str,
    user: &[u8],
) -> Option<usize>
    ensures { result ≡ position (λ c. is_resident_of rp_id.now user.now (credential_source_view c)) credentials.now }
{
    credentials
        .iter()
        .position(|c| c.is_resident_of(rp_id, user))
}

/// Stores a credential after the others, and removes the one at a place.
pub(crate) fn store(
    credentials: &mut Vec<StoredCredential>,
    credential: StoredCredential,
    overwritten: Option<usize>,
) -> Result<(), AllocError>
    requires { IfSome overwritten (λ i. i < length credentials.old.items) }
    ensures ok { OnOk result (credentials.new.items ≡ without credentials.old.items overwritten ++ credential ∷ []) }
    ensures err { OnErr result (credentials.new.items ≡ credentials.old.items) }
{
    credentials.push(credential)?;
    if let Some(place) = overwritten {
        credentials.remove(place);
    }
    Ok(())
}
