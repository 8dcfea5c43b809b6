//! The key: its device and its authenticator.

use authenticator::{Authenticator, Begun, Consent, HandedKeys, NO_KEYS, Pending, Words};
use cose::SigningAlg;
use hidframe::Packet;
use hidlink::{Device, DeviceEvent};
use std::fs::File;
use std::io::{self, Read};
use uses_lines::{tell_bytes, told, unexpected};

/// What its user gives to each request.
const AGREES: Consent = Consent {
    present: true,
    verified: true,
};

/// A device and its authenticator.
#[derive(Drop)]
pub(crate) struct Key {
    pub(crate) device: Device,
    pub(crate) authenticator: Authenticator,
}

/// 32 random bytes, from a file as `/dev/urandom`.
pub(crate) fn random_32(file: &mut File) -> io::Result<[u8; 32]> {
    let mut words = [0; 32];
    file.read_exact(&mut words)?;
    Ok(words)
}

/// The public keys of a secret, which the host makes.
fn public_keys(rt: &HostRuntime, secret: &[u8; 32]) -> io::Result<HandedKeys> {
    tell_bytes(rt, "secret", secret)?;
    let keys = told(rt, "public")?;
    let mut parts = keys.chunks_exact(32);
    let (Some(x), Some(y), Some(eddsa)) = (parts.next(), parts.next(), parts.next()) else {
        return Err(unexpected());
    };
    let mut made = NO_KEYS;
    made.es256_x.copy_from_slice(x);
    made.es256_y.copy_from_slice(y);
    made.eddsa_x.copy_from_slice(eddsa);
    Ok(made)
}

/// The signature of what waits, which the host makes.
fn signature(rt: &HostRuntime, pending: &Pending) -> io::Result<Vec<u8>> {
    let algorithm = match pending.alg() {
        SigningAlg::Es256 => 1,
        SigningAlg::EdDsa => 2,
    };
    let [first, second] = pending.message();
    let mut message = Vec::from_slice(rt.alloc(), first)?;
    message.extend_from_slice(second)?;
    tell_bytes(rt, "algorithm", &[algorithm])?;
    tell_bytes(rt, "secret", pending.secret())?;
    tell_bytes(rt, "message", message.as_slice())?;
    told(rt, "signature")
}

impl Key {
    /// The reply to the request that waits, to which the user agrees.
    fn reply(&mut self, rt: &HostRuntime, file: &mut File) -> io::Result<Vec<u8>> {
        let words = Words {
            id: random_32(file)?,
            secret: random_32(file)?,
        };
        let keys = public_keys(rt, &words.secret)?;
        let Some(channel) = self.device.working() else {
            return Err(unexpected());
        };
        let request = self.device.request();
        match self
            .authenticator
            .begin(&keys, channel, request, AGREES, words)?
        {
            Begun::Replied(reply) => Ok(reply),
            Begun::Signs(pending) => self.signed(rt, pending),
        }
    }

    /// The reply to a request that waits for its signature, of 1 to 128 bytes.
    fn signed(&mut self, rt: &HostRuntime, pending: Pending) -> io::Result<Vec<u8>> {
        let signature = signature(rt, &pending)?;
        if signature.is_empty() || 128 < signature.len() {
            return Err(unexpected());
        }
        Ok(self.authenticator.finish(pending, signature.as_slice())?)
    }

    /// Sends what is due.
    fn send(&mut self, rt: &HostRuntime) -> io::Result<()> {
        for _ in 0..u64::MAX {
            match self.device.next_out() {
                Some(packet) => tell_bytes(rt, "out", &packet.0)?,
                None => break,
            }
        }
        Ok(())
    }

    /// Takes a packet, and sends what is due.
    pub(crate) fn answer(
        &mut self,
        rt: &HostRuntime,
        packet: &Packet,
        file: &mut File,
    ) -> io::Result<()> {
        if !self.device.drained() {
            return Err(unexpected());
        }
        if let DeviceEvent::Request { .. } = self.device.packet(packet) {
            let reply = self.reply(rt, file)?;
            if !self.device.drained() || self.device.answer(reply.as_slice()).is_err() {
                return Err(unexpected());
            }
        }
        self.send(rt)
    }
}
