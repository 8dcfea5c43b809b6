//! A client of a security key: it registers or signs in, and tells what goes to the site.
//!
//! `uses_client WORDS register|sign-in`: WORDS is the file of random bytes. It reads `challenge`, the site's 32 bytes.
//! The cable is lines too: `packet` goes to the key, `out` comes from it.
#![tactic(auto)]

mod asking;
mod telling;

use asking::{Act, channel, reply, request};
use hidlink::Opener;
use std::env;
use std::fs::File;
use std::io::{self, Read};
use std::process::ExitCode;
use telling::tell_response;
use uses_lines::{tell_bytes, told, unexpected};

/// A nonce of 8 random bytes, from a file as `/dev/urandom`.
fn nonce(rt: &HostRuntime, path: &str) -> io::Result<[u8; 8]> {
    let mut file = File::open(rt, path)?;
    let mut nonce = [0; 8];
    file.read_exact(&mut nonce)?;
    Ok(nonce)
}

/// Does the act over the cable.
fn run(rt: &HostRuntime, words: &str, act: Act) -> io::Result<()> {
    let alloc = rt.alloc();
    let challenge = told(rt, "challenge")?;
    let mut opener = Opener::new(nonce(rt, words)?);
    tell_bytes(rt, "packet", &opener.request().0)?;
    let cid = channel(rt, &mut opener)?;
    let asked = request(alloc, act, challenge.as_slice(), cid)?;
    for packet in &asked.packets {
        tell_bytes(rt, "packet", &packet.0)?;
    }
    let message = reply(rt, cid)?;
    tell_response(rt, act, message.as_slice(), asked.client_data.as_slice())
}

/// Does what the command line says.
fn run_words(rt: &HostRuntime) -> io::Result<()> {
    let mut words = env::args(rt)?.skip(1);
    let (Some(file), Some(name)) = (words.next(), words.next()) else {
        return Err(unexpected());
    };
    match name.as_str() {
        "register" => run(rt, file.as_str(), Act::Register),
        "sign-in" => run(rt, file.as_str(), Act::SignIn),
        _ => Err(unexpected()),
    }
}

fn main(rt: HostRuntime) -> ExitCode {
    match run_words(&rt) {
        Ok(()) => ExitCode::SUCCESS,
        Err(_) => ExitCode::from(1),
    }
}
