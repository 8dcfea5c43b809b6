//! A client of a security key over lines: one JSON object in, one out.
#![tactic(auto)]

use client_program::run;
use std::process::ExitCode;

fn main(rt: HostRuntime) -> ExitCode {
    ExitCode::from(run(&rt))
}
