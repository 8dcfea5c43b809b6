//! The program over the system's arguments and standard streams.

use crate::arguments::{Subcommand, command};
use crate::program::run;
use std::env::Env;
use std::fs::File;
use std::io::Write;
use std::{env, io};

/// The arguments of the command line after the file's name.
fn arguments(rt: &(impl Env + AllocGlobal)) -> io::Result<Vec<String>> {
    let mut arguments = Vec::new(rt.alloc());
    for word in env::args(rt)?.skip(1) {
        arguments.push(word)?;
    }
    Ok(arguments)
}

/// The status where the arguments could not be collected.
fn no_words(rt: &HostRuntime, error: &io::Error) -> u8 {
    let (text, status) = if error.kind() == io::ErrorKind::OutOfMemory {
        ("out of memory\n", 3)
    } else {
        ("words are not UTF-8\n", 2)
    };
    let _ = rt.stderr().write_all(text.as_bytes());
    status
}

/// The file that the arguments ask to be explained; none where they ask for something else.
fn explained_file(rt: &HostRuntime, arguments: &[&str]) -> Option<String> {
    match command(rt.alloc(), arguments) {
        Ok(Subcommand::Explain { json: _, file }) => Some(file),
        _ => None,
    }
}

/// The status where a file could not be opened.
fn no_file(rt: &HostRuntime, error: &io::Error) -> u8 {
    let (text, status) = match error.kind() {
        io::ErrorKind::OutOfMemory => ("out of memory\n", 3),
        io::ErrorKind::NotFound => ("no such file\n", 4),
        _ => ("read failed\n", 4),
    };
    let _ = rt.stderr().write_all(text.as_bytes());
    status
}

/// Runs the program on a file in place of standard input.
fn run_on_file(rt: &HostRuntime, arguments: &[&str], name: &str) -> u8 {
    match File::open(rt, name) {
        Ok(mut file) => run(
            rt.alloc(),
            arguments,
            &mut file,
            &mut rt.stdout(),
            &mut rt.stderr(),
        ),
        Err(error) => no_file(rt, &error),
    }
}

/// Runs the program on its name and the arguments.
fn run_words(rt: &HostRuntime) -> io::Result<u8> {
    let owned = arguments(rt)?;
    let mut arguments = Vec::new(rt.alloc());
    arguments.push("passkey")?;
    for word in &owned {
        arguments.push(word.as_str())?;
    }
    if let Some(name) = explained_file(rt, arguments.as_slice()) {
        return Ok(run_on_file(rt, arguments.as_slice(), name.as_str()));
    }
    Ok(run(
        rt.alloc(),
        arguments.as_slice(),
        &mut rt.stdin(),
        &mut rt.stdout(),
        &mut rt.stderr(),
    ))
}

/// Runs the program on the system's arguments and standard streams: its status.
pub fn run_here(rt: &HostRuntime) -> u8 {
    match run_words(rt) {
        Ok(status) => status,
        Err(error) => no_words(rt, &error),
    }
}
