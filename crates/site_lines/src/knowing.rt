//! What is known of credentials beside what verdicts ask for.

ghost use Rattle.std.specs.Prelude.{◌≡◌, ◌++◌, ◌∷◌, [], IfErr, IfOk, None, OnOk, Option, Some, false, map, option_map, string_bytes};
ghost use Rattle.std.specs.List.{AllByRecursion};
ghost use Rattle.sqlite_trees.specs.View.{IsClean};
ghost use Rattle.site_rows.specs.Calls.{IsQuiet};
ghost use Rattle.site_state.specs.Details.{detail_view};
ghost use Rattle.site_stored.specs.Calls.{IsSame};
ghost use Rattle.site_stored.specs.Causes.{IsDamaged};
ghost use Rattle.site_lines.specs.Causes.{IsCausedIn};
ghost use Rattle.site_lines.specs.Details.{AreTransports, IsKnown, OfDetails, new_detail, second as second_of};
ghost use Rattle.site_lines.specs.Private.{IfUnknown, IsUnknown};
ghost use Rattle.site_lines.specs.declared.knowing.Unknown.TheVariants as unknowns;

use site_acts::{FinishRegistration, Known, joined, separate};
use site_state::Detail;
use site_stored::{Failure, StoredSite};
use sqlite_trees::store::Store;
use std::alloc::{AllocError, Global};

/// Why nothing is answered of credentials.
#[derive(Clone, Copy, Debug, Drop)]
pub(crate) enum Unknown {
    /// There was no memory. Nothing has changed.
    Memory,
    /// The disk or memory failed. The site is shut.
    Failed(Failure),
}

impl From<AllocError> for Unknown {
    ghost from_gives = { λ _ e. e ≡ unknowns.Memory };

    fn from(_e: AllocError) -> Unknown {
        Unknown::Memory
    }
}

impl From<Failure> for Unknown {
    ghost from_gives = { λ why e. e ≡ unknowns.Failed why };

    fn from(why: Failure) -> Unknown {
        Unknown::Failed(why)
    }
}

/// A second of the host's clock, as a column holds it.
pub(crate) fn second(now: u64) -> i64
    ensures { result ≡ second_of now }
{
    u64::min(now, 9_223_372_036_854_775_807) as i64
}

/// The transports of a detail.
fn transports_in(alloc: Global, detail: &Option<Detail>) -> Result<Vec<String>, AllocError>
    ensures { IfOk result (λ list. AreTransports (map string_bytes list.items) (option_map detail_view detail.now)) }
{
    match detail {
        Some(detail) => separate(alloc, detail.transports.as_slice()),
        None => Ok(Vec::new(alloc)),
    }
}

/// What is known of the credential of an id.
#[tactic(auto, using(crate::proofs::Kept::same_site))]
fn known<S: Store>(alloc: Global, site: &mut StoredSite<S>, id: &[u8]) -> Result<Known, Unknown>
    requires live { site.old.is_shut ≡ false }
    ensures id { IfOk result (λ k. k.id.items ≡ id.now) }
    ensures known { IfOk result (λ k. OfDetails S.Store.view site.old site.new (λ placed details. IsKnown placed details k)) }
    ensures same { OnOk result (IsSame S.Store.view site.old site.new) }
    ensures unknown { IfErr result (IsUnknown S.Store.view site.old site.new) }
    ensures cause { IsClean (S.Store.view site.new.store) → IfErr result (IfUnknown (IsCausedIn S.Store.view S.Store.faults site.old site.new ⊥ (IsDamaged (S.Store.view site.old.store).trees))) }
    ensures quiet { IsQuiet S.Store site.old.store site.new.store }
{
    let copy = Vec::from_slice(alloc, id)?;
    let detail = site.detail(id)?;
    let transports = transports_in(alloc, &detail)?;
    Ok(Known {
        id: copy,
        detail,
        transports,
    })
}

/// Adds what is known of a credential to a list.
fn add(list: &mut Vec<Known>, known: Known) -> Result<(), AllocError>
    ensures { OnOk result (list.new.items ≡ list.old.items ++ known ∷ []) }
{
    list.push(known)?;
    Ok(())
}

/// What is known of the credentials of these ids.
#[tactic(auto, using(crate::proofs::Detailed::live_on, crate::proofs::Detailed::unknown_after, crate::proofs::Kept::same_then, crate::proofs::Kept::same_site))]
pub(crate) fn all_known<S: Store>(
    alloc: Global,
    site: &mut StoredSite<S>,
    ids: &[&[u8]],
) -> Result<Vec<Known>, Unknown>
    requires live { site.old.is_shut ≡ false }
    ensures ids { IfOk result (λ list. map (λ k. k.id.items) list.items ≡ map (λ id. id.now) ids.now) }
    ensures known { IfOk result (λ list. OfDetails S.Store.view site.old site.new (λ placed details. AllByRecursion (IsKnown placed details) list.items)) }
    ensures same { OnOk result (IsSame S.Store.view site.old site.new) }
    ensures unknown { IfErr result (IsUnknown S.Store.view site.old site.new) }
    ensures cause { IsClean (S.Store.view site.new.store) → IfErr result (IfUnknown (IsCausedIn S.Store.view S.Store.faults site.old site.new ⊥ (IsDamaged (S.Store.view site.old.store).trees))) }
    ensures quiet { IsQuiet S.Store site.old.store site.new.store }
{
    let mut list = Vec::with_capacity(alloc, ids.len())?;
    for id in ids {
        let one = known(alloc, site, id)?;
        add(&mut list, one)?;
    }
    Ok(list)
}

/// The detail of a credential that a line registers, but for the aaguid.
pub(crate) fn detail_of(
    alloc: Global,
    now: u64,
    finish: &FinishRegistration,
) -> Result<Detail, AllocError>
    ensures { IfOk result (λ d. detail_view d ≡ new_detail now finish.now) }
{
    Ok(Detail {
        created_at: Some(second(now)),
        used_at: None,
        transports: joined(alloc, finish.transports.as_slice())?,
        aaguid: None,
    })
}
