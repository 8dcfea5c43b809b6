//! The steps as they are shown.

use crate::lines::Line;
use crate::told::{Step, StepState, ToldStep};
use std::alloc::{AllocError, Global};

/// What is shown of a step beside its state.
pub(crate) struct Words {
    /// The number of the refusal.
    pub number: u8,
    /// The refusal's name.
    pub name: &'static str,
    /// The section of the standard, and its step.
    pub standard: &'static str,
    /// What the step asks.
    pub asks: &'static str,
    /// What the refusal says.
    pub text: &'static str,
    /// When it refuses.
    pub when: &'static str,
    /// What to do then.
    pub advice: &'static str,
}

/// What is shown of a step.
#[derive(Clone, Copy, Debug, PartialEq, Eq, Drop)]
pub(crate) enum Shown {
    Passed,
    Failed,
    NotReached,
    /// It is passed exactly if the signature is valid, which is not known.
    NotJudged,
}

impl Shown {
    pub(crate) fn name(self) -> &'static str {
        match self {
            Shown::Passed => "passed",
            Shown::Failed => "failed",
            Shown::NotReached => "not reached",
            Shown::NotJudged => "not judged",
        }
    }
}

/// A step as it is shown.
#[derive(Drop)]
pub(crate) struct ShownStep {
    pub words: &'static Words,
    pub shown: Shown,
    /// What it looks at; nothing of a case that is not judged.
    pub compared: Vec<Line>,
}

/// How a step is shown, by its states if the signature is valid and if it is not, and by what the case says of it.
fn shown_of(valid: StepState, invalid: StepState, said: Option<bool>) -> Shown {
    let state = match said {
        Some(false) => invalid,
        Some(true) => valid,
        None if (valid, invalid) == (StepState::Passed, StepState::Failed) => {
            return Shown::NotJudged;
        }
        None => valid,
    };
    match state {
        StepState::Passed => Shown::Passed,
        StepState::Failed => Shown::Failed,
        StepState::NotReached => Shown::NotReached,
    }
}

/// Whether the verdict depends on the signature.
pub(crate) fn is_asked<S: Step>(valid: &[ToldStep<S>], invalid: &[ToldStep<S>]) -> bool {
    for (yes, no) in valid.iter().zip(invalid) {
        if (yes.state, no.state) == (StepState::Passed, StepState::Failed) {
            return true;
        }
    }
    false
}

/// The words of a number.
fn words_of(table: &'static [Words], number: u8) -> Option<&'static Words> {
    for words in table {
        if words.number == number {
            return Some(words);
        }
    }
    None
}

/// The steps as they are shown, by their states if the signature is valid and if it is not, and by what the case says of it.
pub(crate) fn shown_steps<S: Step>(
    alloc: Global,
    table: &'static [Words],
    valid: &[ToldStep<S>],
    invalid: &[ToldStep<S>],
    said: Option<bool>,
) -> Result<Vec<ShownStep>, AllocError> {
    let mut steps = Vec::new(alloc);
    for (yes, no) in valid.iter().zip(invalid) {
        if let Some(words) = words_of(table, yes.step.step_number()) {
            let shown = shown_of(yes.state, no.state, said);
            let compared = Vec::new(alloc);
            steps.push(ShownStep {
                words,
                shown,
                compared,
            })?;
        }
    }
    Ok(steps)
}

/// The steps of a case that is not judged.
pub(crate) fn unreached(
    alloc: Global,
    table: &'static [Words],
) -> Result<Vec<ShownStep>, AllocError> {
    let mut steps = Vec::new(alloc);
    for words in table {
        steps.push(ShownStep {
            words,
            shown: Shown::NotReached,
            compared: Vec::new(alloc),
        })?;
    }
    Ok(steps)
}
