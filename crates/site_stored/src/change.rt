//! Retiring and deleting credentials.

ghost use Rattle.std.specs.Prelude.{◌≡◌, ◌⊎◌, ◌-◌, ◌∷◌, if◌then◌else◌, IfOk, OnOk};
ghost use Rattle.sqlite_trees.specs.View.{IsClean};
ghost use Rattle.verification.specs.Views.{credential_view};
ghost use Rattle.site_state.specs.Table as table;
ghost use Rattle.site_rows.specs.Held.{Placed};
ghost use Rattle.site_rows.specs.Details.{Details, HoldsDetails};
ghost use Rattle.site_rows.specs.Trees.{detail_tree};
ghost use Rattle.site_rows.specs.Endings.{Endings, HoldsEndings};
ghost use Rattle.site_seal.specs.Seal.{user_number};
ghost use Rattle.site_stored.specs.Sessions.{longest, until};
ghost use Rattle.site_stored.specs.State.{FitsColumn, IsHeld, ended_user_tree};
ghost use Rattle.site_stored.specs.Calls.{EndsCredential, KeepsBeside, TellsCutOff, TellsDeleted, TellsForgotten, TellsRetired, credential_trees};
ghost use Rattle.site_stored.specs.Causes.{IsDamaged, RefusesChange, RefusesEnding, SiteFails};
ghost use Rattle.site_stored.specs.Private.{CutsOffFound, DeletesFound, EndsIn, RefusesRetired, RetiresFound, IsOpenStore, IsReadyStore, WritesStore, KeepsNumbers, FailsShut, LeavesStore};

use crate::failure::Failure;
use crate::kept::StoredSite;
use crate::session::{LONGEST, until};
use crate::site_store::SiteStore;
use crate::trees::ENDED_USER_TREE;
use site_rows::{Ending, Found, lent};
use site_seal::user_number;
use sqlite_trees::store::Store;
use verification::RowView;

/// A credential, retired.
fn retired(row: RowView<'_>) -> RowView<'_>
    ensures { credential_view result ≡ table.retired (credential_view row.entry) }
{
    RowView {
        retired: true,
        ..row
    }
}

/// How many credentials are left, where one may have gone.
pub(crate) fn without(count: u32, was: bool) -> u32
    ensures { result ≡ (if was then count - 1 else count) }
{
    if was { count.saturating_sub(1) } else { count }
}

/// Retires the credential that was found: true where there is one that was not retired.
pub(crate) fn retire_found<S: Store>(
    held: &mut SiteStore<S>,
    found: &Option<Found>,
) -> Result<bool, Failure>
    requires ready { IsOpenStore S.Store held.old }
    ensures told { IfOk result (RetiresFound found.now (held.new ≡ held.old) (S.Store.view held.old.store) (S.Store.view held.new.store)) }
    ensures leaves { LeavesStore S.Store held.old held.new result }
    ensures reserved { KeepsNumbers held.old held.new }
    ensures failed { FailsShut held.old held.new result }
    ensures reals { (S.Store.view held.new.store).reals ≡ (S.Store.view held.old.store).reals }
    ensures cause { SiteFails S.Store held.old.store held.new.store (RefusesRetired (S.Store.view held.old.store) found.now) ⊥ result }
{
    let Some(found) = found else {
        return Ok(false);
    };
    if found.credential.retired {
        return Ok(false);
    }
    held.set(found.place, &retired(lent(&found.credential)))?;
    Ok(true)
}

/// Deletes the credential that was found, and its detail: true where there is one.
pub(crate) fn delete_found<S: Store>(
    held: &mut SiteStore<S>,
    found: &Option<Found>,
) -> Result<bool, Failure>
    requires ready { IsOpenStore S.Store held.old }
    ensures told { IfOk result (DeletesFound found.now (held.new ≡ held.old) (S.Store.view held.old.store) (S.Store.view held.new.store)) }
    ensures leaves { LeavesStore S.Store held.old held.new result }
    ensures reserved { KeepsNumbers held.old held.new }
    ensures failed { FailsShut held.old held.new result }
    ensures reals { (S.Store.view held.new.store).reals ≡ (S.Store.view held.old.store).reals }
    ensures cause { SiteFails S.Store held.old.store held.new.store ⊥ ⊥ result }
{
    let Some(found) = found else {
        return Ok(false);
    };
    held.remove(found.place, &lent(&found.credential))?;
    held.forget(found.place)?;
    Ok(true)
}

/// Ends the registrations of a user that have begun: those with a number below this one. A failure shuts it.
pub(crate) fn cut_off<S: Store>(
    key: &[u8; 32],
    next: u64,
    held: &mut SiteStore<S>,
    user: &[u8],
    now: u64,
) -> Result<(), Failure>
    requires ready { IsReadyStore S.Store held.old }
    requires next { FitsColumn next }
    ensures ended { OnOk result (IsClean (S.Store.view held.new.store) → EndsIn ended_user_tree now (user_number key.now user.now)
        (record { said = next; until = until now longest }) (S.Store.view held.old.store) (S.Store.view held.new.store)) }
    ensures writes { WritesStore S.Store held.old held.new held.old.reserved result }
    ensures cause { SiteFails S.Store held.old.store held.new.store (RefusesEnding ended_user_tree (S.Store.view held.old.store)) ⊥ result }
{
    let number = user_number(key, user);
    let until = until(now, LONGEST);
    held.end(
        ENDED_USER_TREE,
        number,
        Ending { said: next, until },
        number,
        now,
    )
}

/// As above, for the user of a credential that is now retired or gone.
fn cut_off_found<S: Store>(
    key: &[u8; 32],
    next: u64,
    held: &mut SiteStore<S>,
    was: bool,
    found: &Option<Found>,
    now: u64,
) -> Result<(), Failure>
    requires ready { IsOpenStore S.Store held.old }
    requires next { FitsColumn next }
    ensures ended { OnOk result (IsClean (S.Store.view held.new.store)
        → CutsOffFound key.now next now was found.now (S.Store.view held.old.store) (S.Store.view held.new.store)) }
    ensures leaves { LeavesStore S.Store held.old held.new result }
    ensures reserved { KeepsNumbers held.old held.new }
    ensures failed { FailsShut held.old held.new result }
    ensures cause { SiteFails S.Store held.old.store held.new.store (RefusesEnding ended_user_tree (S.Store.view held.old.store)) ⊥ result }
{
    match found {
        Some(found) if was => { cut_off(key, next, held, &found.credential.user, now) }
        _ => Ok(()),
    }
}

impl<S: Store> StoredSite<S> {
    /// Retires the credential of an id: true where there is one that was not retired; else nothing changes. A retired credential
    /// signs in no more, stays in its place, and its id stays taken; and the registrations of its user that have begun have ended. Commit
    /// before you answer.
    pub fn retire(&mut self, id: &[u8], now: u64) -> Result<bool, Failure>
        ensures told { IfOk result (λ was. IsClean (S.Store.view self.new.store) → (placed : Placed) → IsHeld placed self.old (S.Store.view self.old.store).trees
            → (after : Placed) × TellsRetired placed id.now was after × IsHeld after self.new (S.Store.view self.new.store).trees) }
        ensures registrations { IfOk result (λ was. IsClean (S.Store.view self.new.store) → (placed : Placed) → IsHeld placed self.old (S.Store.view self.old.store).trees
            → (users : Endings) → HoldsEndings ended_user_tree users (S.Store.view self.old.store).trees
            → (after : Endings) × TellsCutOff placed id.now was self.old now users after × HoldsEndings ended_user_tree after (S.Store.view self.new.store).trees) }
        ensures beside { OnOk result (IsClean (S.Store.view self.new.store) → (placed : Placed) → IsHeld placed self.old (S.Store.view self.old.store).trees
            → KeepsBeside (ended_user_tree ∷ credential_trees) (S.Store.view self.old.store).trees (S.Store.view self.new.store).trees) }
        ensures ends { EndsCredential S.Store self.old self.new result }
        ensures cause { SiteFails S.Store self.old.store self.new.store
            (RefusesChange (S.Store.view self.old.store) id.now table.retired ⊎ RefusesEnding ended_user_tree (S.Store.view self.old.store)) (IsDamaged (S.Store.view self.old.store).trees) result }
    {
        if self.held.is_shut {
            return Err(Failure::Shut);
        }
        let found = self.held.find(id)?;
        let was = retire_found(&mut self.held, &found)?;
        cut_off_found(&self.key, self.next, &mut self.held, was, &found, now)?;
        Ok(was)
    }

    /// Deletes the credential of an id, and all that is known of it: true where there is one; else nothing changes. Its id may be
    /// registered again, and the registrations of its user that have begun have ended. Commit before you answer.
    pub fn delete(&mut self, id: &[u8], now: u64) -> Result<bool, Failure>
        ensures told { IfOk result (λ was. IsClean (S.Store.view self.new.store) → (placed : Placed) → IsHeld placed self.old (S.Store.view self.old.store).trees
            → (after : Placed) × TellsDeleted placed id.now was after × IsHeld after self.new (S.Store.view self.new.store).trees) }
        ensures forgotten { IfOk result (λ was. IsClean (S.Store.view self.new.store) → (placed : Placed) → IsHeld placed self.old (S.Store.view self.old.store).trees
            → (details : Details) → HoldsDetails details (S.Store.view self.old.store).trees
            → TellsForgotten placed id.now was details (S.Store.view self.new.store).trees) }
        ensures registrations { IfOk result (λ was. IsClean (S.Store.view self.new.store) → (placed : Placed) → IsHeld placed self.old (S.Store.view self.old.store).trees
            → (users : Endings) → HoldsEndings ended_user_tree users (S.Store.view self.old.store).trees
            → (after : Endings) × TellsCutOff placed id.now was self.old now users after × HoldsEndings ended_user_tree after (S.Store.view self.new.store).trees) }
        ensures beside { OnOk result (IsClean (S.Store.view self.new.store) → (placed : Placed) → IsHeld placed self.old (S.Store.view self.old.store).trees
            → KeepsBeside (ended_user_tree ∷ detail_tree ∷ credential_trees) (S.Store.view self.old.store).trees (S.Store.view self.new.store).trees) }
        ensures ends { EndsCredential S.Store self.old self.new result }
        ensures cause { SiteFails S.Store self.old.store self.new.store (RefusesEnding ended_user_tree (S.Store.view self.old.store)) (IsDamaged (S.Store.view self.old.store).trees) result }
    {
        if self.held.is_shut {
            return Err(Failure::Shut);
        }
        let found = self.held.find(id)?;
        let was = delete_found(&mut self.held, &found)?;
        self.count = without(self.count, was);
        cut_off_found(&self.key, self.next, &mut self.held, was, &found, now)?;
        Ok(was)
    }
}
