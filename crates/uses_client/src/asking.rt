//! What the client asks the key.

use client::{CreationOptions, Outgoing, RequestOptions, assertion_request, creation_request};
use cose::Alg;
use hidframe::Packet;
use hidlink::{Collector, Opener, Opening, Outcome};
use std::alloc::Global;
use std::io;
use uses_lines::{told, unexpected};

/// The page that asks.
const ORIGIN: &str = "https://example.com";

const RP_ID: &str = "example.com";

/// What is asked.
#[derive(Clone, Copy, Drop)]
pub(crate) enum Act {
    Register,
    SignIn,
}

/// The next packet of the key.
fn next_packet(rt: &HostRuntime) -> io::Result<Packet> {
    let bytes = told(rt, "out")?;
    match <[u8; 64]>::try_from(bytes.as_slice()) {
        Ok(bytes) => Ok(Packet(bytes)),
        Err(_) => Err(unexpected()),
    }
}

/// The channel that the key gives.
pub(crate) fn channel(rt: &HostRuntime, opener: &mut Opener) -> io::Result<u32> {
    for _ in 0..u64::MAX {
        if let Opening::Channel(cid) = opener.feed(&next_packet(rt)?) {
            return Ok(cid);
        }
    }
    Err(unexpected())
}

/// The request, with its client data.
pub(crate) fn request(alloc: Global, act: Act, challenge: &[u8], cid: u32) -> io::Result<Outgoing> {
    let asked = match act {
        Act::Register => {
            let options = CreationOptions {
                challenge,
                rp_id: RP_ID,
                rp_name: "Example",
                user_id: b"account 7",
                user_name: "name",
                display_name: "Name",
                algs: &[Alg::EdDsa, Alg::Es256],
                exclude: &[],
                rk: true,
                uv: true,
            };
            creation_request(alloc, ORIGIN, &options, cid)
        }
        Act::SignIn => {
            let options = RequestOptions {
                challenge,
                rp_id: RP_ID,
                allow: &[],
                uv: true,
            };
            assertion_request(alloc, ORIGIN, &options, cid)
        }
    };
    match asked {
        Ok(asked) => Ok(asked),
        Err(_) => Err(unexpected()),
    }
}

/// The message of the key's reply.
pub(crate) fn reply(rt: &HostRuntime, cid: u32) -> io::Result<Vec<u8>> {
    let mut collector = Collector::new(rt.alloc(), cid)?;
    for _ in 0..u64::MAX {
        match collector.feed(&next_packet(rt)?) {
            Ok(Outcome::More) => {}
            Ok(Outcome::Reply(message)) => return Ok(Vec::from_slice(rt.alloc(), message)?),
            Ok(Outcome::DeviceError(_)) | Ok(Outcome::Dead(_)) | Err(_) => break,
        }
    }
    Err(unexpected())
}
