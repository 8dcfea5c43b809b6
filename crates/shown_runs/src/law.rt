//! There are runs about which each law of runs says something.

ghost use Rattle.cose.specs.Bench.{bench_public, bench_valid};
ghost use Rattle.shown_runs.specs.Forged.{ForgedRun};
ghost use Rattle.shown_runs.specs.Telling.{TellingRun};

use cose::BenchScheme;

/// Each law of runs speaks of something. There is a run, in which no signature is forged, with what the laws ask for: two relying
/// parties, two authenticators and three credentials; two sign-ins of one credential and one elsewhere, each on an assertion of its own;
/// tries that are refused; a session that stays open meanwhile; a reset. What the laws say of it is said with it. And there is a run in which a
/// signature is forged. Signatures are those of the scheme for tests.
pub fn shown_runs()
    ensures telling { TellingRun bench_valid bench_public }
    ensures forged { ForgedRun bench_valid bench_public }
{
    agreement::below::<BenchScheme>();
    agreement::of_all_runs::<BenchScheme>();
}
