//! The program `passkey` over the standard streams.
#![tactic(auto)]

use passkey::run_here;
use std::process::ExitCode;

fn main(rt: HostRuntime) -> ExitCode {
    ExitCode::from(run_here(&rt))
}
