//! The states of steps.

ghost use Rattle.std.specs.Prelude.{◌≡◌, ◌↔◌, IfOk, IsTrue, Some};
ghost use Rattle.explanation.specs.Private.{FailAs, reached_after, state_as};

use std::alloc::{AllocError, Global};
use verification::{RegistrationRefusal, SignInRefusal};

/// The state of a step.
#[derive(Clone, Copy, Debug, PartialEq, Eq, Drop)]
pub enum StepState {
    /// The response passes it.
    Passed,
    /// The response does not pass it, and is refused for that.
    Failed,
    /// An earlier step failed.
    NotReached,
}

/// A step, by the refusal that names it, and its state.
#[derive(Clone, Copy, Debug, Drop)]
pub struct ToldStep<S> {
    pub step: S,
    pub state: StepState,
}

/// A step of one kind of response.
pub(crate) trait Step: Copy + Drop {
    /// Whether two steps are the same.
    fn is_same(self, other: Self) -> bool
        ensures { IsTrue result ↔ (self ≡ other) };

    /// The number of the refusal.
    fn step_number(self) -> u8;
}

impl Step for SignInRefusal {
    fn is_same(self, other: SignInRefusal) -> bool {
        self == other
    }

    fn step_number(self) -> u8 {
        self.number()
    }
}

impl Step for RegistrationRefusal {
    fn is_same(self, other: RegistrationRefusal) -> bool {
        self == other
    }

    fn step_number(self) -> u8 {
        self.number()
    }
}

/// Whether a step is the one that fails.
fn is_failed<S: Step>(failed: Option<S>, step: S) -> bool
    ensures { IsTrue result ↔ (failed ≡ Some step) }
{
    match failed {
        Some(failed) => failed.is_same(step),
        None => false,
    }
}

/// A step's state, by whether each before it is passed, and whether it is the one that fails.
fn state_of(reached: bool, is_failed: bool) -> StepState
    ensures { result ≡ state_as reached is_failed }
{
    if !reached {
        StepState::NotReached
    } else if is_failed {
        StepState::Failed
    } else {
        StepState::Passed
    }
}

/// Whether the step after it is reached.
fn is_reached(reached: bool, is_failed: bool) -> bool
    ensures { result ≡ reached_after reached is_failed }
{
    reached && !is_failed
}

/// Each step in order with its state, by the one that fails.
pub(crate) fn tell<S: Step>(
    alloc: Global,
    steps: &[S],
    failed: Option<S>,
) -> Result<Vec<ToldStep<S>>, AllocError>
    ensures { IfOk result (λ rows. FailAs failed steps.now rows.items) }
{
    let mut rows = Vec::new(alloc);
    let mut reached = true;
    for step in steps {
        let is_failed = is_failed(failed, *step);
        let state = state_of(reached, is_failed);
        rows.push(ToldStep { step: *step, state })?;
        reached = is_reached(reached, is_failed);
    }
    Ok(rows)
}
