//! The law of what a store holds.

ghost use Rattle.site_stored.specs.Laws.{KeptLaws};

/// A store holds one site: one relying party, one number, and the same credentials at the same places. So what was committed is
/// what an open finds.
pub fn stored_laws()
    ensures { KeptLaws }
{}
