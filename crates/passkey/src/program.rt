//! The program `passkey`, over a reader and two writers.

ghost use Rattle.std.specs.Prelude.{◌≤◌, length, IfOk};

use crate::arguments::{Inspection, Subcommand, command};
use crate::check::{CheckFault, check};
use crate::inspect::{InspectFault, inspect};
use crate::replay::{ScriptEnd, run_script};
use crate::script::Fault;
use clap::error::ErrorKind;
use explanation::{Explained, Verdict, write_json, write_text};
use explanation_case::CaseError;
use json_lines::VERSION;
use std::alloc::{AllocError, Global};
use std::io;
use std::io::{Read, Write};

/// The most bytes of standard input.
pub const MAX_INPUT: usize = 16_777_216;

/// Why no input was read.
#[derive(Drop)]
enum InputFault {
    TooLong,
    Unread,
    Memory,
}

/// All that the reader has, if that is at most `MAX_INPUT` bytes.
fn read_input<R: Read>(alloc: Global, reader: &mut R) -> Result<Vec<u8>, InputFault>
    ensures { IfOk result (λ v. length v.items ≤ 16777216) }
{
    let mut bytes = Vec::new(alloc);
    let limit = MAX_INPUT as u64 + 1;
    match reader.take(limit).read_to_end(&mut bytes) {
        Ok(_) if bytes.len() > MAX_INPUT => Err(InputFault::TooLong),
        Ok(_) => Ok(bytes),
        Err(e) if e.kind() == io::ErrorKind::OutOfMemory => Err(InputFault::Memory),
        Err(_) => Err(InputFault::Unread),
    }
}

/// Writes a fault's line, whether that succeeds or not, and answers its status.
fn fail<E: Write>(err: &mut E, text: &str, status: u8) -> u8 {
    let _ = err.write_all(text.as_bytes());
    let _ = err.write_all(b"\n");
    status
}

/// Writes the whole text.
fn print<O: Write>(out: &mut O, text: &str) -> io::Result<()> {
    out.write_all(text.as_bytes())?;
    out.flush()
}

/// Writes what clap says of the arguments that it refuses, and answers the status.
fn refuse_words<E: Write>(err: &mut E, error: &clap::Error) -> u8 {
    if error.kind() == ErrorKind::OutOfMemory {
        return fail(err, "out of memory", 3);
    }
    let _ = write!(err, "{error}");
    2
}

/// Runs a script and prints what it gives.
fn replay<O: Write, E: Write>(alloc: Global, input: &[u8], out: &mut O, err: &mut E) -> u8 {
    let mut text = String::new(alloc);
    let ended = run_script(alloc, input, &mut text);
    if print(out, text.as_str()).is_err() {
        return fail(err, "write failed", 5);
    }
    match ended {
        Ok(()) => 0,
        Err(
            ScriptEnd {
                line: _,
                fault: Fault::Memory,
            },
        ) => fail(err, "out of memory", 3),
        Err(
            ScriptEnd {
                line,
                fault: Fault::BadScript,
            },
        ) => {
            let _ = writeln!(err, "line {line}: bad script");
            2
        }
    }
}

/// Shows what the input says.
fn show<O: Write, E: Write>(
    alloc: Global,
    kind: Inspection,
    input: &[u8],
    out: &mut O,
    err: &mut E,
) -> u8 {
    match inspect(alloc, kind, input) {
        Ok(text) => match print(out, text.as_str()) {
            Ok(()) => 0,
            Err(_) => fail(err, "write failed", 5),
        },
        Err(InspectFault::BadHex) => fail(err, "bad hex", 2),
        Err(InspectFault::Refused(fault)) => fail(err, fault.as_str(), 1),
        Err(InspectFault::Memory) => fail(err, "out of memory", 3),
    }
}

/// Prints whether client data are what was expected, and answers the status.
fn tell<O: Write, E: Write>(verified: bool, out: &mut O, err: &mut E) -> u8 {
    let (text, status) = if verified {
        ("match\n", 0)
    } else {
        ("differ\n", 1)
    };
    match print(out, text) {
        Ok(()) => status,
        Err(_) => fail(err, "write failed", 5),
    }
}

/// What is answered of a case, in JSON or as lines.
fn explained_text(alloc: Global, json: bool, told: &Explained) -> Result<String, AllocError> {
    let mut text = String::new(alloc);
    if json {
        write_json(alloc, told, &mut text)?;
    } else {
        write_text(alloc, told, &mut text)?;
    }
    Ok(text)
}

/// Prints what is answered of a case, and answers the status of its verdict.
fn print_explained<O: Write, E: Write>(
    alloc: Global,
    json: bool,
    told: &Explained,
    out: &mut O,
    err: &mut E,
) -> u8 {
    let Ok(text) = explained_text(alloc, json, told) else {
        return fail(err, "out of memory", 3);
    };
    if print(out, text.as_str()).is_err() {
        return fail(err, "write failed", 5);
    }
    match told.verdict() {
        Verdict::Accepted => 0,
        Verdict::Refused => 1,
        Verdict::NotJudged => 2,
    }
}

/// Explains a case.
fn explain<O: Write, E: Write>(
    alloc: Global,
    json: bool,
    input: &[u8],
    out: &mut O,
    err: &mut E,
) -> u8 {
    match explanation::explain(alloc, input) {
        Ok(told) => print_explained(alloc, json, &told, out, err),
        Err(CaseError::Memory) => fail(err, "out of memory", 3),
        Err(fault) => {
            let _ = writeln!(err, "{fault}");
            2
        }
    }
}

/// Prints the program's name and version.
fn print_version<O: Write>(out: &mut O) -> io::Result<()> {
    writeln!(out, "passkey {VERSION}")?;
    out.flush()
}

/// Whether the arguments, after the program's name, ask for the version alone.
fn asks_version(arguments: &[&str]) -> bool {
    match arguments {
        [_, word] => *word == "--version" || *word == "-V",
        _ => false,
    }
}

/// The program: arguments, the program's name first, and the standard streams; the answer is its status. Of `explain` the
/// reader is the file that it names.
///
/// 0 where all went well; `--version` alone prints the version. Faults go to `err` and are found in this order: arguments that clap refuses (status
/// 2, also for help), input of more than `MAX_INPUT` bytes (`input too long`, 2), a read that fails (`read
/// failed`, 4), then those of the subcommand. The status of `explain` is 0 where a response is accepted, 1 where it is
/// refused, 2 where it is not judged. Running out of memory is `out of memory`, 3; a write to `out` that
/// fails is `write failed`, 5, and what went out is a beginning of the whole. Where `err` fails too, the
/// status is the same.
pub fn run<'a, R: Read, O: Write, E: Write>(
    alloc: Global,
    arguments: &'a [&'a str],
    reader: &mut R,
    out: &mut O,
    err: &mut E,
) -> u8 {
    if asks_version(arguments) {
        return match print_version(out) {
            Ok(()) => 0,
            Err(_) => fail(err, "write failed", 5),
        };
    }
    let asked = match command(alloc, arguments) {
        Ok(asked) => asked,
        Err(error) => return refuse_words(err, &error),
    };
    let input = match read_input(alloc, reader) {
        Ok(input) => input,
        Err(InputFault::TooLong) => return fail(err, "input too long", 2),
        Err(InputFault::Unread) => return fail(err, "read failed", 4),
        Err(InputFault::Memory) => return fail(err, "out of memory", 3),
    };
    match asked {
        Subcommand::Inspect(kind) => show(alloc, kind, &input, out, err),
        Subcommand::Check {
            kind,
            challenge,
            origin,
            cross,
        } => match check(alloc, kind, challenge.as_str(), origin, cross, &input) {
            Ok(verified) => tell(verified, out, err),
            Err(CheckFault::BadHex) => fail(err, "bad hex", 2),
            Err(CheckFault::Memory) => fail(err, "out of memory", 3),
        },
        Subcommand::Replay => replay(alloc, &input, out, err),
        Subcommand::Explain { json, file: _ } => explain(alloc, json, &input, out, err),
    }
}
