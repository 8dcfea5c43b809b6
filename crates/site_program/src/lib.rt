//! A site over lines: one JSON object in, one out, over a file.
#![tactic(auto)]

mod arriving;
mod fault;
mod file;
mod input;
mod options;
mod party;
mod serving;
mod telling;

use fault::Fault;
use file::site_of;
use input::check_input;
use json_lines::arguments;
use options::{Options, Told, asked_for, joined};
use serving::serve;
use site_acts::acts_help;
use site_files::close;
use std::io::{self, Write};

/// Serves lines over the site's file, and closes it.
fn serve_file(rt: &HostRuntime, options: &Options<'_>) -> Result<(), Fault> {
    check_input(rt)?;
    let mut site = site_of(rt, options)?;
    let served = serve(rt, options, &mut site);
    close(site)?;
    served
}

/// The status of serving with these options; a fault is answered on standard error.
fn run_options(rt: &HostRuntime, options: &Options<'_>) -> u8 {
    match serve_file(rt, options) {
        Ok(()) => 0,
        Err(fault) => {
            let _ = writeln!(rt.stderr(), "{fault}");
            fault.status()
        }
    }
}

/// Tells this in place of serving: help on standard output, and a refusal on standard error. The status.
fn tell(rt: &HostRuntime, told: &Told) -> io::Result<u8> {
    if told.is_help {
        rt.stdout().write_all(told.text.as_bytes())?;
        return Ok(0);
    }
    rt.stderr().write_all(told.text.as_bytes())?;
    Ok(2)
}

/// Runs the program on its arguments.
fn run_words(rt: &HostRuntime) -> io::Result<u8> {
    let owned = arguments(rt)?;
    let words = joined(rt.alloc(), owned.as_slice())?;
    let help = acts_help(rt.alloc())?;
    match asked_for(rt.alloc(), help.as_str(), words.as_slice())? {
        Ok(options) => Ok(run_options(rt, &options)),
        Err(told) => tell(rt, &told),
    }
}

/// Runs the program on its arguments: its status.
pub fn run(rt: &HostRuntime) -> u8 {
    match run_words(rt) {
        Ok(status) => status,
        Err(error) => {
            let _ = writeln!(rt.stderr(), "{error}");
            3
        }
    }
}
