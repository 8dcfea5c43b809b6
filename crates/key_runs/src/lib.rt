//! What holds of a security key that takes PINs, over whole runs.
#![tactic(auto)]

mod law;

pub use law::key_runs;
