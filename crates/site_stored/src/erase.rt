//! Erasing a user, and retiring all credentials of one.

ghost use Rattle.std.specs.Prelude.{◌≡◌, ◌⊎◌, ◌∷◌, ℕ, List, IfOk, OnOk, filter, length, not};
ghost use Rattle.sqlite_trees.specs.View.{IsClean};
ghost use Rattle.site_state.specs.RowViews.{rows_view};
ghost use Rattle.site_state.specs.Table as table;
ghost use Rattle.site_rows.specs.Held.{Holds, Placed};
ghost use Rattle.site_rows.specs.Details.{Details, HoldsDetails};
ghost use Rattle.site_rows.specs.Trees.{detail_tree};
ghost use Rattle.site_rows.specs.Endings.{Endings, HoldsEndings};
ghost use Rattle.site_stored.specs.State.{IsHeld, ended_user_tree};
ghost use Rattle.site_stored.specs.Calls.{EndsCredential, KeepsBeside, TellsAllForgotten, TellsAllRetired, TellsErased, TellsUserCutOff, credential_trees};
ghost use Rattle.site_stored.specs.Causes.{AreTooMany, IsDamaged, RefusesAllRetired, RefusesChange, RefusesEnding, SiteFails};
ghost use Rattle.site_stored.specs.Private.{AreUsers, DeletesOne, ErasesRows, FailsShut, IsOpenStore, KeepsNumbers, LeavesStore, RetiresOne, RetiresRows};

use crate::change::{cut_off, delete_found, retire_found, without};
use crate::failure::Failure;
use crate::kept::StoredSite;
use crate::site_store::SiteStore;
use site_state::Row;
use sqlite_trees::store::Store;

/// Deletes the credential of an id, and its detail: how many credentials there are then.
fn delete_one<S: Store>(held: &mut SiteStore<S>, id: &[u8], count: u32) -> Result<u32, Failure>
    requires ready { IsOpenStore S.Store held.old }
    ensures deleted { IfOk result (λ left. IsClean (S.Store.view held.new.store) → (placed : Placed) → Holds placed (S.Store.view held.old.store).trees
        → DeletesOne placed id.now count left (S.Store.view held.old.store) (S.Store.view held.new.store)) }
    ensures leaves { LeavesStore S.Store held.old held.new result }
    ensures reserved { KeepsNumbers held.old held.new }
    ensures failed { FailsShut held.old held.new result }
    ensures reals { OnOk result (IsClean (S.Store.view held.new.store) → (S.Store.view held.new.store).reals ≡ (S.Store.view held.old.store).reals) }
    ensures cause { SiteFails S.Store held.old.store held.new.store ⊥ (IsDamaged (S.Store.view held.old.store).trees) result }
{
    let found = held.find(id)?;
    let was = delete_found(held, &found)?;
    Ok(without(count, was))
}

/// Retires the credential of an id.
fn retire_one<S: Store>(held: &mut SiteStore<S>, id: &[u8]) -> Result<(), Failure>
    requires ready { IsOpenStore S.Store held.old }
    ensures retired { OnOk result (IsClean (S.Store.view held.new.store) → (placed : Placed) → Holds placed (S.Store.view held.old.store).trees
        → RetiresOne placed id.now (S.Store.view held.old.store) (S.Store.view held.new.store)) }
    ensures leaves { LeavesStore S.Store held.old held.new result }
    ensures reserved { KeepsNumbers held.old held.new }
    ensures failed { FailsShut held.old held.new result }
    ensures reals { OnOk result (IsClean (S.Store.view held.new.store) → (S.Store.view held.new.store).reals ≡ (S.Store.view held.old.store).reals) }
    ensures cause { SiteFails S.Store held.old.store held.new.store
        (RefusesChange (S.Store.view held.old.store) id.now table.retired) (IsDamaged (S.Store.view held.old.store).trees) result }
{
    let found = held.find(id)?;
    retire_found(held, &found)?;
    Ok(())
}

/// Deletes the credentials on a list of all of a user, and their details: how many credentials there are then.
fn delete_each<S: Store>(held: &mut SiteStore<S>, rows: &[Row], count: u32) -> Result<u32, Failure>
    requires ready { IsOpenStore S.Store held.old }
    ensures erased { IfOk result (λ left. IsClean (S.Store.view held.new.store) → (placed : Placed) → Holds placed (S.Store.view held.old.store).trees
        → (user : List ℕ) → AreUsers user placed (rows_view rows.now)
        → ErasesRows user placed count left (S.Store.view held.old.store) (S.Store.view held.new.store)) }
    ensures leaves { LeavesStore S.Store held.old held.new result }
    ensures reserved { KeepsNumbers held.old held.new }
    ensures failed { FailsShut held.old held.new result }
    ensures reals { OnOk result (IsClean (S.Store.view held.new.store) → (S.Store.view held.new.store).reals ≡ (S.Store.view held.old.store).reals) }
    ensures cause { SiteFails S.Store held.old.store held.new.store ⊥ (IsDamaged (S.Store.view held.old.store).trees) result }
{
    let mut left = count;
    for row in rows {
        left = delete_one(held, &row.id, left)?;
    }
    Ok(left)
}

/// Retires the credentials on a list of all of a user.
fn retire_each<S: Store>(held: &mut SiteStore<S>, rows: &[Row]) -> Result<(), Failure>
    requires ready { IsOpenStore S.Store held.old }
    ensures retired { OnOk result (IsClean (S.Store.view held.new.store) → (placed : Placed) → Holds placed (S.Store.view held.old.store).trees
        → (user : List ℕ) → AreUsers user placed (rows_view rows.now)
        → RetiresRows user placed (S.Store.view held.old.store) (S.Store.view held.new.store)) }
    ensures leaves { LeavesStore S.Store held.old held.new result }
    ensures reserved { KeepsNumbers held.old held.new }
    ensures failed { FailsShut held.old held.new result }
    ensures reals { OnOk result (IsClean (S.Store.view held.new.store) → (S.Store.view held.new.store).reals ≡ (S.Store.view held.old.store).reals) }
    ensures cause { SiteFails S.Store held.old.store held.new.store
        ((user : List ℕ) → ((placed : Placed) → Holds placed (S.Store.view held.old.store).trees → AreUsers user placed (rows_view rows.now))
        → RefusesAllRetired (S.Store.view held.old.store) user) (IsDamaged (S.Store.view held.old.store).trees) result }
{
    for row in rows {
        retire_one(held, &row.id)?;
    }
    Ok(())
}

/// How many are not retired.
fn unretired(rows: &[Row]) -> usize
    ensures { result ≡ length (filter (λ row. not row.retired) rows.now) }
{
    rows.iter().filter(|row| !row.retired).count()
}

impl<S: Store> StoredSite<S> {
    /// Deletes each credential of a user, and all that is known of it: how many there were. Their ids may be registered again, and the
    /// user's registrations that have begun have ended, also those of a user without credentials. Commit before you
    /// answer. It takes memory for each credential.
    pub fn erase(&mut self, user: &[u8], now: u64) -> Result<usize, Failure>
        ensures told { IfOk result (λ told. IsClean (S.Store.view self.new.store) → (placed : Placed) → IsHeld placed self.old (S.Store.view self.old.store).trees
            → (after : Placed) × TellsErased placed user.now told after × IsHeld after self.new (S.Store.view self.new.store).trees) }
        ensures forgotten { OnOk result (IsClean (S.Store.view self.new.store) → (placed : Placed) → IsHeld placed self.old (S.Store.view self.old.store).trees
            → (details : Details) → HoldsDetails details (S.Store.view self.old.store).trees
            → TellsAllForgotten placed user.now details (S.Store.view self.new.store).trees) }
        ensures registrations { OnOk result (IsClean (S.Store.view self.new.store) → (placed : Placed) → IsHeld placed self.old (S.Store.view self.old.store).trees
            → (users : Endings) → HoldsEndings ended_user_tree users (S.Store.view self.old.store).trees
            → TellsUserCutOff self.old now user.now users (S.Store.view self.new.store).trees) }
        ensures beside { OnOk result (IsClean (S.Store.view self.new.store) → (placed : Placed) → IsHeld placed self.old (S.Store.view self.old.store).trees
            → KeepsBeside (ended_user_tree ∷ detail_tree ∷ credential_trees) (S.Store.view self.old.store).trees (S.Store.view self.new.store).trees) }
        ensures ends { EndsCredential S.Store self.old self.new result }
        ensures cause { SiteFails S.Store self.old.store self.new.store
            (RefusesEnding ended_user_tree (S.Store.view self.old.store)) (AreTooMany user.now (S.Store.view self.old.store).trees) result }
    {
        if self.held.is_shut {
            return Err(Failure::Shut);
        }
        let rows = self.held.find_all(user)?;
        let left = delete_each(&mut self.held, &rows, self.count)?;
        self.count = left;
        cut_off(&self.key, self.next, &mut self.held, user, now)?;
        Ok(rows.len())
    }

    /// Retires each credential of a user: how many were not retired. They sign in no more, stay in their places, and their ids stay
    /// taken; and the user's registrations that have begun have ended, also those of a user without credentials. Commit before
    /// you answer. It takes memory for each credential.
    pub fn retire_all(&mut self, user: &[u8], now: u64) -> Result<usize, Failure>
        ensures told { IfOk result (λ told. IsClean (S.Store.view self.new.store) → (placed : Placed) → IsHeld placed self.old (S.Store.view self.old.store).trees
            → (after : Placed) × TellsAllRetired placed user.now told after × IsHeld after self.new (S.Store.view self.new.store).trees) }
        ensures registrations { OnOk result (IsClean (S.Store.view self.new.store) → (placed : Placed) → IsHeld placed self.old (S.Store.view self.old.store).trees
            → (users : Endings) → HoldsEndings ended_user_tree users (S.Store.view self.old.store).trees
            → TellsUserCutOff self.old now user.now users (S.Store.view self.new.store).trees) }
        ensures beside { OnOk result (IsClean (S.Store.view self.new.store) → (placed : Placed) → IsHeld placed self.old (S.Store.view self.old.store).trees
            → KeepsBeside (ended_user_tree ∷ credential_trees) (S.Store.view self.old.store).trees (S.Store.view self.new.store).trees) }
        ensures ends { EndsCredential S.Store self.old self.new result }
        ensures cause { SiteFails S.Store self.old.store self.new.store
            (RefusesAllRetired (S.Store.view self.old.store) user.now ⊎ RefusesEnding ended_user_tree (S.Store.view self.old.store))
            (AreTooMany user.now (S.Store.view self.old.store).trees) result }
    {
        if self.held.is_shut {
            return Err(Failure::Shut);
        }
        let rows = self.held.find_all(user)?;
        retire_each(&mut self.held, &rows)?;
        cut_off(&self.key, self.next, &mut self.held, user, now)?;
        Ok(unretired(&rows))
    }
}
