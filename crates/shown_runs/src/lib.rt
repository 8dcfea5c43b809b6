//! Runs of which the laws of runs say something.
#![tactic(auto)]

mod law;

pub use law::shown_runs;
