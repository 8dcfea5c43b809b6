//! A security key's end of the wire.

use authdata::AttestationType;
use authenticator::{Authenticator, Consent, Words};
use cose::BenchScheme;
use hidframe::Packet;
use hidlink::Device;
use security_key::{Act, ServeError, serve};
use std::alloc::{AllocError, Global};
use test_words::bytes_of;

/// The user is present and verified.
pub const CONSENT: Consent = Consent {
    present: true,
    verified: true,
};

/// Random words.
pub const WORDS: Words = Words {
    id: [5; 32],
    secret: [6; 32],
};

/// A device and its authenticator.
#[derive(Drop)]
pub struct End {
    pub device: Device,
    pub authenticator: Authenticator,
}

impl End {
    /// A device without channels, and an authenticator without credentials that can't verify its user.
    pub fn new(alloc: Global) -> Option<End> {
        let device = Device::new(alloc).ok()?;
        Some(End {
            device,
            authenticator: Authenticator::new(alloc, [0; 16], false, AttestationType::None),
        })
    }

    /// Does an act; what is sent is appended.
    pub fn act(&mut self, act: Act, sent: &mut Vec<Packet>) -> Result<(), ServeError> {
        if !self.device.drained() {
            return Err(ServeError::Memory);
        }
        let (device, authenticator) = (&mut self.device, &mut self.authenticator);
        serve(device, authenticator, &BenchScheme, act, sent)
    }
}

/// The packet that begins with the bytes of these words, of which these tables have the names, and goes on with zeros.
pub fn packet<'a>(
    alloc: Global,
    names: &'a [&'a str],
    words: &'a str,
) -> Result<Packet, AllocError> {
    let mut filled = [0; 64];
    let found = bytes_of(alloc, names, words)?;
    for (to, from) in filled.iter_mut().zip(found.as_slice()) {
        *to = *from;
    }
    Ok(Packet(filled))
}
