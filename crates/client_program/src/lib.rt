//! A client of a security key over lines: one JSON object in, one out.
#![tactic(auto)]

use clap::error::ErrorKind;
use clap::{ArgMatches, Command, Error};
use client_acts::acts_help;
use client_lines::{Client, answer_line};
use json_lines::{READ_AT_ONCE, VERSION, arguments, next_line};
use std::alloc::Global;
use std::io::{self, BufRead, BufReader, Write};

/// Answers each line, at once.
fn answer_lines<R: BufRead>(rt: &HostRuntime, reader: &mut R) -> io::Result<()> {
    let mut client = Client::new();
    let mut out = rt.stdout();
    let mut line = Vec::new(rt.alloc());
    for _ in 0..u64::MAX {
        if !next_line(reader, &mut line)? {
            break;
        }
        let answer = answer_line(rt.alloc(), &mut client, line.as_slice())?;
        out.write_all(answer.as_bytes())?;
        out.flush()?;
    }
    Ok(())
}

/// Answers each line of the input.
fn serve(rt: &HostRuntime) -> io::Result<()> {
    let mut reader = BufReader::with_capacity(rt.alloc(), READ_AT_ONCE, rt.reader())?;
    let served = answer_lines(rt, &mut reader);
    // The reader is taken apart by std, since to prove that it is dropped here takes minutes.
    reader.into_inner();
    served
}

/// What clap reads of the arguments, with this text after the help.
fn command_line<'a>(
    alloc: Global,
    help: &'a str,
    arguments: &'a [String],
) -> Result<ArgMatches<'a>, Error> {
    let mut parser = Command::new(alloc, "passkey-client")
        .about("A client of a security key over lines: one JSON object in, one out")
        .version(VERSION)
        .after_help(help);
    parser.try_get_matches_from_mut(arguments)
}

/// Tells what clap says: help and the version on standard output, and what is wrong on standard error. The status.
fn tell(rt: &HostRuntime, said: &Error) -> io::Result<u8> {
    match said.kind() {
        ErrorKind::DisplayHelp | ErrorKind::DisplayVersion => {
            write!(rt.stdout(), "{said}")?;
            Ok(0)
        }
        _ => {
            write!(rt.stderr(), "{said}")?;
            Ok(2)
        }
    }
}

/// What clap says of the arguments, where they are not taken.
fn refused(alloc: Global, help: &str, arguments: &[String]) -> Option<Error> {
    match command_line(alloc, help, arguments) {
        Ok(_) => None,
        Err(error) => Some(error),
    }
}

/// Runs the program on its arguments.
fn run_words(rt: &HostRuntime) -> io::Result<u8> {
    let words = arguments(rt)?;
    let help = acts_help(rt.alloc())?;
    if let Some(said) = refused(rt.alloc(), help.as_str(), words.as_slice()) {
        return tell(rt, &said);
    }
    serve(rt)?;
    Ok(0)
}

/// Runs the program on its arguments: its status.
pub fn run(rt: &HostRuntime) -> u8 {
    match run_words(rt) {
        Ok(status) => status,
        Err(error) => {
            let _ = writeln!(rt.stderr(), "{error}");
            3
        }
    }
}
