//! The laws of a site, and that of its saved table.

ghost use Rattle.std.specs.Prelude.{◌≡◌, ℕ, List};
ghost use Rattle.site.specs.Laws.{SiteLaws};
ghost use Rattle.site.specs.Saved.{Saved, TableOf};

use cose::Verifier;

/// What holds of every site, whatever is asked of it, as relations between its states; the calls cite the same
/// definitions.
pub fn site_laws<V: Verifier>()
    ensures { (verifier : V) → SiteLaws (V.valid verifier) }
{}

/// The same bytes are those of one saved table: of one version, one rp id, one number of the next session and one list of
/// credentials.
pub fn one_table()
    ensures { (v w : ℕ) (s t : Saved) (bytes : List ℕ) → TableOf v s bytes → TableOf w t bytes
        → (v ≡ w) × (s ≡ t) }
{}
