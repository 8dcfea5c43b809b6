//! The laws of serving in two steps.

ghost use Rattle.authenticator.specs.Steps.{Keys};
ghost use Rattle.security_key.specs.Serving.{ServingLaws};

use cose::Verifier;

/// Serving in two steps is serving in one: what [`begin_serving`](crate::begin_serving) does at once is what the act does,
/// and where it tells what is to be signed, [`finish_serving`](crate::finish_serving) does it with a signature that is valid.
pub fn serving_laws<V: Verifier>()
    ensures { (verifier : V) (public : Keys) → ServingLaws (V.valid verifier) public }
{}
