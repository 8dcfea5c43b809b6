//! A security key over lines: packets, decisions and signatures in, packets and what is to be signed out.
#![tactic(auto)]

use key_program::serving::run;
use std::process::ExitCode;

fn main(rt: HostRuntime) -> ExitCode {
    ExitCode::from(run(&rt))
}
