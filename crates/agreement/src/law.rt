//! The laws of an honest run and of all runs.

ghost use Rattle.std.specs.Prelude.{◌<◌, ◌-◌, ◌^◌, ℕ};
ghost use Rattle.authenticator.specs.State.{CredentialSource};
ghost use Rattle.authenticator.specs.Steps.{Keys};
ghost use Rattle.agreement.specs.Agreement.{OfAllRuns};
ghost use Rattle.agreement.specs.Begun.{SessionsOfAllRuns};
ghost use Rattle.agreement.specs.Below.{Below};
ghost use Rattle.agreement.specs.Calls.{CallsAct};
ghost use Rattle.agreement.specs.Dropped.{DropsOfAllRuns};
ghost use Rattle.agreement.specs.Ends.{IsIdleOn};
ghost use Rattle.agreement.specs.Forgeries.{ForgeriesOfAllRuns};
ghost use Rattle.agreement.specs.Honest.{AcceptsBoth, IsAskedFor, IsHonestRegistration, IsHonestRun, IsHonestSignIn, IsShared, Registering};
ghost use Rattle.agreement.specs.Hosts.{HostsRuns};
ghost use Rattle.agreement.specs.Honest.{Registers, Run, SigningIn, SignsIn};
ghost use Rattle.agreement.specs.Ledger.{LedgerOfAllRuns};
ghost use Rattle.agreement.specs.Lived.{Lives, Place, TakesPlace};
ghost use Rattle.agreement.specs.Pages.{PagesOfAllRuns};
ghost use Rattle.agreement.specs.Premises.{Premises};
ghost use Rattle.agreement.specs.Shown.{FullRun, HonestRunTakesPlace};
ghost use Rattle.agreement.specs.Stays.{StaysOfAllRuns};
ghost use Rattle.cose.specs.Bench.{bench_public, bench_valid};

use cose::{BenchScheme, Signer, Verifier};

/// What is used of the laws of the crates below.
pub fn below<V: Verifier>()
    ensures { (verifier : V) (public : Keys) → Below (V.valid verifier) public }
{
    hidframe::one_frame_list();
    hidlink::whole_request();
    hidlink::one_history();
    hidlink::one_outcome();
    clientdata::challenge_texts();
    authdata::one_reading();
    authdata::profiles();
    authdata::one_object();
    authenticator::step_laws::<V>();
    authenticator::saving_laws();
    site::site_laws::<V>();
}

/// No sign-in is accepted without a fresh assertion by an authenticator, in each run in which signatures can't be forged:
/// whatever packets, client data and requests an adversary makes, of any number of sites and authenticators. And in each run,
/// whether or not signatures can be forged, a sign-in that is accepted without one shows a forgery under its credential's key; what an authenticator has signed and which keys it has made is accounted for by
/// the requests to it; and a credential that it stores no more was dropped by a request to which presence was given: a reset, or
/// a makeCredential for a resident one of the same relying party and user. An open session stays until its end, and what an
/// authenticator was asked for from some pages signs in at no site but theirs. What these laws ask of a run is said in plain
/// words. It is so for each verifier, and for each function from secrets to keys.
pub fn of_all_runs<V: Verifier>()
    ensures agreement { (verifier : V) (public : Keys) → OfAllRuns (V.valid verifier) public }
    ensures forgeries { (verifier : V) (public : Keys) → ForgeriesOfAllRuns (V.valid verifier) public }
    ensures ledger { (verifier : V) (public : Keys) → LedgerOfAllRuns (V.valid verifier) public }
    ensures dropped { (verifier : V) (public : Keys) → DropsOfAllRuns (V.valid verifier) public }
    ensures begun { (verifier : V) (public : Keys) → SessionsOfAllRuns (V.valid verifier) public }
    ensures stays { (verifier : V) (public : Keys) → StaysOfAllRuns (V.valid verifier) public }
    ensures premises { (verifier : V) (public : Keys) → Premises (V.valid verifier) public }
    ensures pages { (verifier : V) (public : Keys) → PagesOfAllRuns (V.valid verifier) public }
    ensures calls { (verifier : V) (public : Keys) → CallsAct (V.valid verifier) public }
{
    below::<V>();
}

/// Calls whose signatures a host verifies elsewhere, each by a relation of its own (as the one signature that was verified
/// for it), come to a run: what passes by a relation passes by a wider one. So the laws of all runs speak of them too.
pub fn hosts_runs<V: Verifier, W: Verifier>()
    ensures { (wide : W) (public : Keys) → HostsRuns V.valid (W.valid wide) public }
{}

/// The laws speak of something: an honest run takes place in some world, and there is a run in which an event of each kind is
/// done, and not in vain; a sign-in is accepted at one site by a response and at another by packets, each with a key that an
/// authenticator of its own has made, which may be one key. Signatures are those of the scheme for tests.
pub fn full_run()
    ensures honest { HonestRunTakesPlace bench_valid bench_public }
    ensures full { FullRun bench_valid bench_public }
{
    below::<BenchScheme>();
}

/// Where site, client, device and authenticator do what they are asked, and the user consents, the packets are accepted:
/// of a registration, after which the credential is stored and registered with counter 0; of each sign-in with a
/// credential that is at both ends, after which its counter is one higher at both; and so of a registration and then a
/// sign-in, whose counters are 0 and 1. Such a run is a run of a world in which signatures are not forged, so that the law
/// over all runs speaks of it. It is so for each scheme that keeps the law of its signer.
pub fn agreement<S: Signer>()
    ensures registers { (scheme : S) (x : Registering) → IsIdleOn x.channel x.before
        → IsHonestRegistration (S.valid scheme) (S.public_of scheme) x → Registers (S.valid scheme) (S.public_of scheme) x }
    ensures signs_in { (scheme : S) (x : SigningIn) (c : CredentialSource) (n : ℕ) → IsIdleOn x.channel x.before
        → IsHonestSignIn (S.valid scheme) (S.public_of scheme) x → IsShared (S.public_of scheme) x.site x.before.authenticator c n
        → n < 2 ^ 32 - 1 → IsAskedFor c x.before.authenticator x.expected → SignsIn (S.valid scheme) (S.public_of scheme) c n x }
    ensures agrees { (scheme : S) (x : Run) → IsHonestRun (S.valid scheme) (S.public_of scheme) x → AcceptsBoth (S.valid scheme) (S.public_of scheme) x }
    ensures lives { (scheme : S) (x : Run) (h : IsHonestRun (S.valid scheme) (S.public_of scheme) x) (p : Place)
        → TakesPlace (S.valid scheme) (S.public_of scheme) x h p → Lives (S.valid scheme) (S.public_of scheme) x h p }
    ensures of_all_runs { (scheme : S) → OfAllRuns (S.valid scheme) (S.public_of scheme) }
{
    below::<S>();
    of_all_runs::<S>();
}
