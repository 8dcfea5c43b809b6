//! The lines that are written.

ghost use Rattle.std.specs.Prelude.{◌≡◌, ◌++◌, ◌∷◌, [], OnOk};
ghost use Rattle.cose.specs.Schemes.{joined};
ghost use Rattle.hex.specs.Hex.{encode_lower};
ghost use Rattle.key_program.specs.Told.{alg_word, ask_line, channel_line, event_line, line_of, packet_line, packet_lines, sign_line, spaced};

use authenticator::Pending;
use cose::SigningAlg;
use hidframe::Packet;
use hidlink::DeviceEvent;
use pin_protocols::Ask;
use std::alloc::AllocError;

/// The most bytes of the lines that a line other than `save` is answered by: 129 packets, and less than 1,000 bytes beside
/// them.
pub const MOST_TOLD: usize = 129 * 133 + 1000;

/// A byte as two digits.
fn digits(byte: u8) -> [u8; 2]
    ensures { result ≡ encode_lower (byte ∷ []) }
{
    let mut digits = [0u8; 2];
    let _ = hex::encode_to_slice(&[byte], &mut digits);
    digits
}

/// Writes bytes in hex.
fn tell_hex(told: &mut Vec<u8>, bytes: &[u8]) -> Result<(), AllocError>
    ensures { OnOk result (told.new.items ≡ told.old.items ++ encode_lower bytes.now) }
{
    for byte in bytes {
        told.extend_from_slice(&digits(*byte))?;
    }
    Ok(())
}

/// Writes the two parts of what is to be signed in hex.
fn tell_message(told: &mut Vec<u8>, parts: [&[u8]; 2]) -> Result<(), AllocError>
    ensures { OnOk result (told.new.items ≡ told.old.items ++ encode_lower (joined parts.entry)) }
{
    tell_hex(told, parts[0])?;
    tell_hex(told, parts[1])
}

/// Bytes after a word, in a line.
pub fn tell_bytes(told: &mut Vec<u8>, word: &[u8], bytes: &[u8]) -> Result<(), AllocError>
    ensures { OnOk result (told.new.items ≡ told.old.items ++ line_of word.now bytes.now) }
{
    told.extend_from_slice(word)?;
    tell_hex(told, bytes)?;
    told.extend_from_slice(b"\n")
}

/// The word of an algorithm.
fn alg_word(alg: SigningAlg) -> &'static [u8]
    ensures { result.now ≡ alg_word alg }
{
    match alg {
        SigningAlg::Es256 => b"-7 ",
        SigningAlg::EdDsa => b"-8 ",
    }
}

/// What is to be signed, in one line.
pub fn tell_pending(told: &mut Vec<u8>, pending: &Pending) -> Result<(), AllocError>
    ensures { OnOk result (told.new.items ≡ told.old.items ++ sign_line pending.now) }
{
    told.extend_from_slice(b"sign ")?;
    told.extend_from_slice(alg_word(pending.alg()))?;
    tell_hex(told, pending.secret())?;
    told.extend_from_slice(b" ")?;
    tell_message(told, pending.message())?;
    told.extend_from_slice(b"\n")
}

/// Bytes after a space, in hex; none as `-`.
fn tell_word(told: &mut Vec<u8>, bytes: &[u8]) -> Result<(), AllocError>
    ensures { OnOk result (told.new.items ≡ told.old.items ++ spaced bytes.now) }
{
    told.extend_from_slice(b" ")?;
    if bytes.is_empty() {
        return told.extend_from_slice(b"-");
    }
    tell_hex(told, bytes)
}

/// What the host is asked for, in a line.
pub fn tell_ask(told: &mut Vec<u8>, ask: &Ask) -> Result<(), AllocError>
    ensures { OnOk result (told.new.items ≡ told.old.items ++ ask_line ask.now) }
{
    told.extend_from_slice(b"ask ")?;
    told.extend_from_slice(ask.operation.name().as_bytes())?;
    tell_word(told, &ask.key)?;
    tell_word(told, &ask.iv)?;
    tell_word(told, &ask.text)?;
    told.extend_from_slice(b"\n")
}

/// A channel after a word, in a line.
pub fn tell_channel(told: &mut Vec<u8>, word: &[u8], cid: u32) -> Result<(), AllocError>
    ensures { OnOk result (told.new.items ≡ told.old.items ++ channel_line word.now cid) }
{
    tell_bytes(told, word, &cid.to_be_bytes())
}

/// What the device told, in a line, if in any.
pub fn tell_event(told: &mut Vec<u8>, event: DeviceEvent) -> Result<(), AllocError>
    ensures { OnOk result (told.new.items ≡ told.old.items ++ event_line event) }
{
    match event {
        DeviceEvent::Quiet => Ok(()),
        DeviceEvent::Request { cid } => tell_channel(told, b"waits ", cid),
        DeviceEvent::Cancelled => told.extend_from_slice(b"cancelled\n"),
        DeviceEvent::Aborted => told.extend_from_slice(b"aborted\n"),
    }
}

/// A packet to send, in a line.
fn tell_packet(told: &mut Vec<u8>, packet: &Packet) -> Result<(), AllocError>
    ensures { OnOk result (told.new.items ≡ told.old.items ++ packet_line packet.now) }
{
    tell_bytes(told, b"out ", &packet.0)
}

/// The packets to send, each in a line.
pub fn tell_packets(told: &mut Vec<u8>, packets: &[Packet]) -> Result<(), AllocError>
    ensures { OnOk result (told.new.items ≡ told.old.items ++ packet_lines packets.now) }
{
    for packet in packets {
        tell_packet(told, packet)?;
    }
    Ok(())
}
