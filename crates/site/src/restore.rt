//! What a site had before a restart.

ghost use Rattle.std.specs.Prelude.{◌≡◌, ◌≤◌, ◌↔◌, IsTrue, false, true};
ghost use Rattle.site_state.specs.Table.{IsTable};
ghost use Rattle.site.specs.Laws.{IsFresh, IsNumbered};

use crate::site::Site;
use site_state::{Sessions, Table};

impl Site {
    /// Puts the credentials and the open sessions of before a restart in place of its own: true where each id is as
    /// its profile has it; else nothing changes. It takes no memory.
    pub fn restore(&mut self, table: Table, sessions: Sessions) -> bool
        requires next { 1 ≤ sessions.next }
        ensures told { IsTrue result ↔ IsTable self.old.rp.profile table }
        ensures after { result ≡ true → self.new ≡ record self.old { rows = table; sessions = sessions } }
        // On these the laws of a site rest.
        ensures fresh { result ≡ true → IsFresh self.new }
        ensures numbered { result ≡ true → IsNumbered self.new }
        ensures unchanged { result ≡ false → self.new ≡ self.old }
    {
        let next = sessions.next();
        prove!(1 <= next);
        if !table.is_of(self.party.profile()) {
            return false;
        }
        self.table = table;
        self.sessions = sessions;
        true
    }
}
