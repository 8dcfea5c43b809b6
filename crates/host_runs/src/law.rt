//! Hosts' rows are within the law over all runs.

ghost use Rattle.authenticator.specs.Steps.{Keys};
ghost use Rattle.cose.specs.Bench.{bench_public, bench_valid};
ghost use Rattle.host_runs.specs.Histories.{HostRuns};
ghost use Rattle.host_runs.specs.Rows.{Races};
ghost use Rattle.host_runs.specs.Shown.{Shown};

use cose::{BenchScheme, Verifier};

/// What a host keeps in tables of its own is what a run leaves at a site, where each transaction reads and writes the rows that the
/// rules say, whatever happens meanwhile at authenticators and at other sites. Its moments are the transactions and the events
/// elsewhere, in their order. Each verdict is by a relation of its own, of those that a verifier tells, within one wide relation. Of two
/// finishes that race the second finds that a row is not the one that it read. It is so for each verifier. There is such a history, in
/// which an authenticator makes a key and signs: its signatures are those of the scheme for tests.
pub fn host_runs<V: Verifier, W: Verifier>()
    ensures runs { (wide : W) (public : Keys) → HostRuns V.valid (W.valid wide) public }
    ensures races { (first : V) (second : W) → Races (V.valid first) (W.valid second) }
    ensures shown { Shown bench_valid bench_public }
{
    agreement::of_all_runs::<W>();
    agreement::hosts_runs::<V, W>();
    agreement::below::<BenchScheme>();
}
