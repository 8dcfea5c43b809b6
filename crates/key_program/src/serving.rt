//! The program: lines over the standard streams.

use crate::lines::KeyLines;
use authdata::AttestationType;
use json_lines::VERSION;
use key_device::UserVerification;
use std::io::{BufRead, BufReader, ErrorKind, Write};
use std::{env, io};

/// The aaguid of this security key.
const AAGUID: [u8; 16] = *b"garvoeng softkey";

/// What `--help` prints.
const HELP: &str =
    "A security key over lines: packets, decisions and signatures in; packets and messages to sign out

Usage: softkey [WORD ..]

Words:
  no-uv             Do not verify the user
  self-attestation  Attest each new credential with its own key
  pin               Take PINs, and verify the user by them alone

Options:
  -h, --help     Print help
  -V, --version  Print version

docs/KEY.md has the lines.
";

/// What is answered where an argument is none of these words.
const BAD_WORDS: &str =
    "softkey: a word is none of no-uv, self-attestation and pin; softkey --help lists them\n";

/// What the arguments ask for.
#[derive(Drop)]
enum Asked {
    /// To serve a key of this configuration.
    Serve(Configuration),
    /// To print the help.
    Help,
    /// To print the version.
    Version,
    /// Nothing that there is.
    Nothing,
}

/// How the security key is configured.
#[derive(Clone, Copy, Drop)]
struct Configuration {
    uv: bool,
    pin: bool,
    attest: AttestationType,
}

impl Configuration {
    /// How it verifies its user. Of a key that takes PINs a token alone does, whatever `no-uv` says.
    fn verification(self) -> UserVerification {
        if self.pin {
            UserVerification::Pin
        } else if self.uv {
            UserVerification::BuiltIn
        } else {
            UserVerification::Absent
        }
    }
}

/// What the arguments ask for: `no-uv`, not to verify its user; `self-attestation`; `pin`, to take PINs. Help or the version is
/// printed where it is the first word that is none of these.
fn read_arguments(rt: &HostRuntime) -> io::Result<Asked> {
    let mut configuration = Configuration {
        uv: true,
        pin: false,
        attest: AttestationType::None,
    };
    for word in env::args(rt)?.skip(1) {
        if word.as_str() == "no-uv" {
            configuration.uv = false;
        } else if word.as_str() == "self-attestation" {
            configuration.attest = AttestationType::SelfSigned;
        } else if word.as_str() == "pin" {
            configuration.pin = true;
        } else if word.as_str() == "--help" || word.as_str() == "-h" {
            return Ok(Asked::Help);
        } else if word.as_str() == "--version" || word.as_str() == "-V" {
            return Ok(Asked::Version);
        } else {
            return Ok(Asked::Nothing);
        }
    }
    Ok(Asked::Serve(configuration))
}

/// Answers each line, at once.
fn answer_lines<R: BufRead + Drop>(
    rt: &HostRuntime,
    key: &mut KeyLines,
    reader: R,
) -> io::Result<()> {
    let mut out = rt.stdout();
    let mut told = Vec::new(rt.alloc());
    for line in reader.lines(rt.alloc()) {
        told.clear();
        match line {
            Ok(line) => key.answer(rt.alloc(), line.as_str(), &mut told)?,
            Err(error) if error.kind() == ErrorKind::InvalidData => {
                told.extend_from_slice(b"error not UTF-8\n.\n")?;
            }
            Err(error) => return Err(error),
        }
        out.write_all(told.as_slice())?;
        out.flush()?;
    }
    Ok(())
}

/// Answers each line of the input, at once.
fn answer_input(rt: &HostRuntime, key: &mut KeyLines) -> io::Result<()> {
    let mut reader = BufReader::new(rt.alloc(), rt.reader())?;
    let served = answer_lines(rt, key, &mut reader);
    // The reader is taken apart by std, since to prove that it is dropped here takes minutes.
    reader.into_inner();
    served
}

/// A key of this configuration answers each line of the input.
fn serve_lines(rt: &HostRuntime, configuration: Configuration) -> io::Result<()> {
    let mut key = KeyLines::new(
        rt.alloc(),
        AAGUID,
        configuration.verification(),
        configuration.attest,
    )?;
    answer_input(rt, &mut key)
}

/// Prints the help.
fn print_help(rt: &HostRuntime) -> io::Result<()> {
    let mut out = rt.stdout();
    out.write_all(HELP.as_bytes())?;
    out.flush()
}

/// Prints the program's name and version.
fn print_version(rt: &HostRuntime) -> io::Result<()> {
    let mut out = rt.stdout();
    writeln!(out, "softkey {VERSION}")?;
    out.flush()
}

/// Does what the arguments ask for. The status, as [`run`] has it.
fn carry_out(rt: &HostRuntime) -> io::Result<u8> {
    match read_arguments(rt)? {
        Asked::Serve(configuration) => {
            serve_lines(rt, configuration)?;
            Ok(0)
        }
        Asked::Help => {
            print_help(rt)?;
            Ok(0)
        }
        Asked::Version => {
            print_version(rt)?;
            Ok(0)
        }
        Asked::Nothing => {
            rt.stderr().write_all(BAD_WORDS.as_bytes())?;
            Ok(2)
        }
    }
}

/// Runs the program on its arguments. Its status: 2 where they are wrong, 3 where the system failed.
pub fn run(rt: &HostRuntime) -> u8 {
    match carry_out(rt) {
        Ok(status) => status,
        Err(_) => 3,
    }
}
