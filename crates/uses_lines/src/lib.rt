//! What the programs `uses_site`, `uses_client` and `uses_key` speak with their hosts by: lines of a name, a space, and bytes
//! in hexadecimal digits.
#![tactic(auto)]

use std::env;
use std::io::{self, ErrorKind, Write};

/// The error where the input ended, or said something else than was asked for.
pub fn unexpected() -> io::Error {
    io::Error::from(ErrorKind::InvalidData)
}

/// The first argument of the program; `unexpected` where there is none.
pub fn first_argument(rt: &HostRuntime) -> io::Result<String> {
    env::args(rt)?.nth(1).ok_or(unexpected())
}

/// The bytes of the next line, which has this name; `unexpected` where it has another, or none is left.
pub fn told(rt: &HostRuntime, name: &str) -> io::Result<Vec<u8>> {
    let mut line = String::new(rt.alloc());
    rt.read_line(&mut line)?;
    let Some(rest) = line.as_str().strip_prefix(name) else {
        return Err(unexpected());
    };
    match hex::decode(rt.alloc(), rest.trim()) {
        Ok(bytes) => Ok(bytes),
        Err(_) => Err(unexpected()),
    }
}

/// Writes a line, at once.
pub fn tell(rt: &HostRuntime, line: &str) -> io::Result<()> {
    let mut out = rt.stdout();
    out.write_all(line.as_bytes())?;
    out.write_all(b"\n")?;
    out.flush()
}

/// Writes a name and bytes as a line, at once.
pub fn tell_bytes(rt: &HostRuntime, name: &str, bytes: &[u8]) -> io::Result<()> {
    let digits = hex::encode(rt.alloc(), bytes)?;
    let line = format!(in rt.alloc(); "{name} {digits}")?;
    tell(rt, line.as_str())
}
