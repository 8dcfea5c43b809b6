//! A credential by its id, and its detail.

ghost use Rattle.std.specs.Prelude.{◌≡◌, IfOk, option_map};
ghost use Rattle.sqlite_trees.specs.View.{IsClean};
ghost use Rattle.site_state.specs.RowViews.{row_view};
ghost use Rattle.site_rows.specs.Held.{Placed};
ghost use Rattle.site_rows.specs.Details.{Details, HoldsDetails};
ghost use Rattle.site_state.specs.Details.{detail_view};
ghost use Rattle.site_stored.specs.State.{IsHeld};
ghost use Rattle.site_stored.specs.Calls.{IsFound, TellsDetail, ReadsSite};
ghost use Rattle.site_stored.specs.Causes.{IsDamaged, SiteFails};
ghost use Rattle.site_stored.specs.Private.{credential_of as credential_in};

use crate::failure::Failure;
use crate::kept::StoredSite;
use site_rows::Found;
use site_state::{Detail, Row};
use sqlite_trees::store::Store;

/// The credential that was found.
fn credential_of(found: Option<Found>) -> Option<Row>
    ensures { option_map row_view result ≡ credential_in found }
{
    match found {
        Some(found) => Some(found.credential),
        None => None,
    }
}

impl<S: Store> StoredSite<S> {
    /// The credential of an id, retired or not; none where none has it.
    pub fn credential(&mut self, id: &[u8]) -> Result<Option<Row>, Failure>
        ensures found { IfOk result (λ c. IsClean (S.Store.view self.new.store) → (placed : Placed) → IsHeld placed self.old (S.Store.view self.old.store).trees
            → IsFound placed id.now (option_map row_view c)) }
        ensures reads { ReadsSite S.Store self.old self.new result }
        ensures cause { SiteFails S.Store self.old.store self.new.store ⊥ (IsDamaged (S.Store.view self.old.store).trees) result }
    {
        if self.held.is_shut {
            return Err(Failure::Shut);
        }
        let found = self.held.find(id)?;
        Ok(credential_of(found))
    }

    /// What is known of the credential of an id beside what verdicts ask for; none where nothing is, or where none has the id.
    pub fn detail(&mut self, id: &[u8]) -> Result<Option<Detail>, Failure>
        ensures told { IfOk result (λ d. IsClean (S.Store.view self.new.store) → (placed : Placed) → IsHeld placed self.old (S.Store.view self.old.store).trees
            → (details : Details) → HoldsDetails details (S.Store.view self.old.store).trees → TellsDetail placed id.now details (option_map detail_view d)) }
        ensures reads { ReadsSite S.Store self.old self.new result }
        ensures cause { SiteFails S.Store self.old.store self.new.store ⊥ (IsDamaged (S.Store.view self.old.store).trees) result }
    {
        if self.held.is_shut {
            return Err(Failure::Shut);
        }
        let Some(found) = self.held.find(id)? else {
            return Ok(None);
        };
        let detail = self.held.detail(found.place)?;
        Ok(detail)
    }
}
