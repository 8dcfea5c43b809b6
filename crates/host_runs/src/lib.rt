//! What hosts that keep the rows of a site themselves tell, as runs of the law over all runs.
#![tactic(auto)]

mod law;

pub use law::host_runs;
