//! A security key whose user always agrees.
//!
//! `uses_key WORDS`: WORDS is the file of random bytes. The cable is lines: `packet` comes in, `out` goes out. The host
//! makes keys and signatures, as a secure element would: it reads `secret`, and tells `public`, the key's x and y of
//! ES256 and then its x of EdDSA; it reads `algorithm` (01 of ES256, 02 of EdDSA), `secret` and `message`, and tells
//! `signature`. Each packet's answer ends with `done`.
#![tactic(auto)]

mod key;

use authdata::AttestationType;
use authenticator::Authenticator;
use hidframe::Packet;
use hidlink::Device;
use key::Key;
use std::fs::File;
use std::io;
use uses_lines::{first_argument, tell, told, unexpected};

/// The kind of this key.
const AAGUID: [u8; 16] = *b"garvoeng uses-ky";

/// Answers packets until the input ends.
fn run(rt: &HostRuntime, words: &str) -> io::Result<()> {
    let alloc = rt.alloc();
    let mut file = File::open(rt, words)?;
    let mut key = Key {
        device: Device::new(alloc)?,
        authenticator: Authenticator::new(alloc, AAGUID, true, AttestationType::None),
    };
    for _ in 0..u64::MAX {
        let Ok(bytes) = told(rt, "packet") else {
            break;
        };
        let Ok(bytes) = <[u8; 64]>::try_from(bytes.as_slice()) else {
            return Err(unexpected());
        };
        key.answer(rt, &Packet(bytes), &mut file)?;
        tell(rt, "done")?;
    }
    Ok(())
}

fn main(rt: HostRuntime) -> io::Result<()> {
    let words = first_argument(&rt)?;
    run(&rt, words.as_str())
}
