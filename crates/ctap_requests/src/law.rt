//! A law of the ranks of a request's faults.

ghost use Rattle.std.specs.Prelude.{◌≡◌, ℕ, List};
ghost use Rattle.ctap_requests.specs.Status.{Rank, Applies};

/// Of the eight ranks at most one applies to a request's bytes, so one status answers them.
pub fn one_rank()
    ensures { (r s : Rank) (bs : List ℕ) → Applies bs r → Applies bs s → r ≡ s }
{}
