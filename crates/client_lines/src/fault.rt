//! Why a line has no effect.

use json_lines::LineError;

/// Why an act is not taken further.
#[derive(Clone, Copy, Debug, Drop, thiserror::Error)]
pub enum NotTaken {
    /// No act is under way.
    #[error("no act is under way")]
    NothingBegun,
    /// The act that is under way waits for something else.
    #[error("the act that is under way does not wait for this")]
    NotAwaited,
    /// The number is none of those that were given.
    #[error("there is no credential of this number")]
    NoSuchCredential,
}

/// Why a line has no effect.
#[derive(Clone, Copy, Debug, Drop, thiserror::Error)]
pub enum Fault {
    /// The line is refused.
    #[error("{0}")]
    Line(LineError),
    /// What it asks for is not taken.
    #[error("{0}")]
    Act(NotTaken),
}
