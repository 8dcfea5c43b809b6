//! What the client passes to the site.

use crate::asking::Act;
use client::attestation_object;
use ctap_replies::{read_assertion, read_creation};
use std::io;
use uses_lines::{tell_bytes, unexpected};

/// Tells the site's part of a registration.
fn tell_registration(rt: &HostRuntime, message: &[u8], client_data: &[u8]) -> io::Result<()> {
    let Ok(reply) = read_creation(rt.alloc(), message) else {
        return Err(unexpected());
    };
    let Ok(object) = attestation_object(rt.alloc(), reply) else {
        return Err(unexpected());
    };
    tell_bytes(rt, "object", object.as_slice())?;
    tell_bytes(rt, "client-data", client_data)
}

/// Tells the site's part of a sign-in.
fn tell_sign_in(rt: &HostRuntime, message: &[u8], client_data: &[u8]) -> io::Result<()> {
    let Ok(reply) = read_assertion(message) else {
        return Err(unexpected());
    };
    tell_bytes(rt, "credential", reply.credential)?;
    tell_bytes(rt, "authenticator-data", reply.auth_data)?;
    tell_bytes(rt, "signature", reply.signature)?;
    tell_bytes(rt, "client-data", client_data)
}

/// Tells what goes to the site.
pub(crate) fn tell_response(
    rt: &HostRuntime,
    act: Act,
    message: &[u8],
    client_data: &[u8],
) -> io::Result<()> {
    match act {
        Act::Register => tell_registration(rt, message, client_data),
        Act::SignIn => tell_sign_in(rt, message, client_data),
    }
}
