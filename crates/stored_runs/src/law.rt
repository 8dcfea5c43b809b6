//! Sites over stores are within the law over all runs.

ghost use Rattle.authenticator.specs.Steps.{Keys};
ghost use Rattle.cose.specs.Bench.{bench_public, bench_valid};
ghost use Rattle.stored_runs.specs.Shown.{Shown};
ghost use Rattle.stored_runs.specs.Stored.{StoredRuns};

use cose::{BenchScheme, Verifier};
use sqlite_trees::store::Store;

/// What a site over a store keeps is what a run leaves at a site: whatever calls are made of it, whenever they are committed,
/// wherever it crashes and is opened again, and whatever happens meanwhile at authenticators and at other sites. In the run stand
/// the sign-ins, registrations, retirements and deletions that were committed, and each event elsewhere, in the order in which they
/// happened; and each text that was handed out and may still be accepted is that of an open session of the run, which was begun for
/// the same. So what holds of all runs holds of them. Each call is by a relation of its own, of those that a verifier tells, within one
/// wide relation. It is so for each verifier and each store. There is such a history, in which an authenticator makes a key and
/// signs: its signatures are those of the scheme for tests.
pub fn stored_runs<V: Verifier, W: Verifier, S: Store>()
    ensures runs { (wide : W) (public : Keys) → StoredRuns S V.valid (W.valid wide) public }
    ensures shown { Shown bench_valid bench_public }
{
    site_stored::stored_laws();
    site::site_laws::<W>();
    site_seal::one_text();
    site_seal::same_steps::<W>();
    agreement::of_all_runs::<W>();
    agreement::hosts_runs::<V, W>();
    agreement::below::<BenchScheme>();
}
