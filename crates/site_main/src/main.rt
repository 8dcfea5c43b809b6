//! A site over lines: one JSON object in, one out, over a file.
#![tactic(auto)]

use site_program::run;
use std::process::ExitCode;

fn main(rt: HostRuntime) -> ExitCode {
    ExitCode::from(run(&rt))
}
