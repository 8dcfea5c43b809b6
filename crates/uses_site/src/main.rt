//! A site of one account, whose host has the mathematics: the account registers a key and signs in with it.
//!
//! `uses_site WORDS`: WORDS is the file of random bytes. The page is lines. The site tells `challenge`, and reads `object`
//! and `client-data`; then a `challenge` again, and reads `credential`, `authenticator-data`, `signature` and
//! `client-data`. It tells the `key` (a COSE key), `message` and `signature` that its host is to verify, and reads
//! `valid 01` where the host found it so.
#![tactic(auto)]

mod visit;

use authdata::Profile;
use site::{Policy, Site, Table};
use std::fs::File;
use std::io::{self, Read};
use uses_lines::{first_argument, unexpected};
use visit::{register, sign_in};

/// 24 random bytes, from a file as `/dev/urandom`.
fn random_words(file: &mut File) -> io::Result<[u8; 24]> {
    let mut words = [0; 24];
    file.read_exact(&mut words)?;
    Ok(words)
}

/// Registers the account's key, and signs the account in.
fn run(rt: &HostRuntime, words: &str) -> io::Result<()> {
    let alloc = rt.alloc();
    let mut file = File::open(rt, words)?;
    let policy = Policy {
        accept_none: true,
        accept_self: false,
    };
    let Ok(mut site) = Site::with_profile(
        alloc,
        Profile::Open,
        "example.com",
        &["https://example.com"],
        policy,
        Table::new(alloc),
    ) else {
        return Err(unexpected());
    };
    register(rt, &mut site, random_words(&mut file)?)?;
    sign_in(rt, &mut site, random_words(&mut file)?)
}

fn main(rt: HostRuntime) -> io::Result<()> {
    let words = first_argument(&rt)?;
    run(&rt, words.as_str())
}
