//! The packets of a message: CTAP 2.1 section 11.2.4.

ghost use Rattle.std.specs.Prelude.{◌≡◌, ◌<◌, ◌≤◌, ◌+◌, ◌*◌, ◌^◌, ◌↔◌, ◌-◌, ◌++◌, ℕ, List, length, replicate, IsErr, IfOk, slice_get, slice_index};
ghost use Rattle.std.specs.Prelude.{MatchOption, [], ◌∷◌};
ghost use Rattle.std.specs.Iterator.{YieldsFirst, item_count};
ghost use Rattle.hidframe.specs.declared.Packet.{Packet};
ghost use Rattle.hidframe.specs.Frames.{TheZeroFrames, ZeroFrames};
ghost use Rattle.hidframe.specs.Pieces.{continuation, frame_list, initial, item, items_from, packet_count as packets_of};

use crate::Packet;
use crate::ctaphid::{CONT_DATA_SIZE, INIT_DATA_SIZE, MAX_PAYLOAD_SIZE, PACKET_SIZE};
use byteorder::{BigEndian, ByteOrder};
use std::marker::Model;
use thiserror::Error;

/// The payload has more than 7,609 bytes. Refusal number 4.
#[derive(Clone, Copy, PartialEq, Eq, Debug, Error)]
#[error("the payload is longer than 7609 bytes")]
pub struct TooLong;

impl TooLong {
    /// The number of the refusal.
    pub fn number(&self) -> u8
        ensures { result ≡ 4 }
    {
        4
    }
}

/// The packets of a message that are left, 1 to 129 at first: an iterator that takes no memory.
#[derive(Drop)]
pub struct Frames<'a> {
    cid: u32,
    cmd: u8,
    payload: &'a [u8],
    next: usize,
}

impl<'a> Model for Frames<'a> {
    ghost use Rattle.std.specs.Prelude.{List, length, ◌≤◌, ◌<◌};
    ghost use Rattle.hidframe.specs.declared.Packet.{Packet};
    ghost use Rattle.hidframe.specs.Pieces.{items_from};

    ghost Value = { List Packet };

    ghost view = { λ f. items_from f.cid f.cmd f.payload.now f.next };

    ghost invariant = { λ f. record { command : f.cmd < 128; size : length f.payload.now ≤ 7609; place : f.next ≤ 130 } };
}

/// A packet of these bytes, and then zeros.
fn padded_packet(head: &[u8], bytes: &[u8]) -> Packet
    requires { length head.now + length bytes.now ≤ 64 }
    ensures { result.0 ≡ head.now ++ (bytes.now ++ replicate (64 - length head.now - length bytes.now) 0) }
{
    let mut all = [0; PACKET_SIZE];
    let start = head.len();
    all[..start].copy_from_slice(head);
    all[start..start + bytes.len()].copy_from_slice(bytes);
    Packet(all)
}

/// The initial packet of a message of `len` bytes.
fn initial_packet(cid: u32, cmd: u8, len: u16, bytes: &[u8]) -> Packet
    requires cmd { cmd < 128 }
    requires bytes { length bytes.now ≤ 57 }
    ensures { result ≡ initial cid cmd len bytes.now }
{
    let mut head = [0; 7];
    BigEndian::write_u32(&mut head, cid);
    head[4] = 128 + cmd;
    BigEndian::write_u16(&mut head[5..], len);
    padded_packet(&head, bytes)
}

/// The continuation of number `seq`.
fn continuation_packet(cid: u32, seq: u8, bytes: &[u8]) -> Packet
    requires bytes { length bytes.now ≤ 59 }
    ensures { result ≡ continuation cid seq bytes.now }
{
    let mut head = [0; 5];
    BigEndian::write_u32(&mut head, cid);
    head[4] = seq;
    padded_packet(&head, bytes)
}

/// Packet `i` of a message, if it has so many.
#[tactic(auto, unfolding(crate::specs::Pieces::item))]
fn piece(cid: u32, cmd: u8, payload: &[u8], i: usize) -> Option<Packet>
    requires command { cmd < 128 }
    requires size { length payload.now ≤ 7609 }
    ensures at { result ≡ slice_get (items_from cid cmd payload.now 0) i }
    ensures goes { MatchOption result (items_from cid cmd payload.now i ≡ [])
        (λ p. (i < 130) × (items_from cid cmd payload.now i ≡ p ∷ items_from cid cmd payload.now (i + 1))) }
{
    if i == 0 {
        let bytes = &payload[..payload.len().min(INIT_DATA_SIZE)];
        return Some(initial_packet(cid, cmd, payload.len() as u16, bytes));
    }
    let later = payload.len().saturating_sub(INIT_DATA_SIZE);
    if i > later.div_ceil(CONT_DATA_SIZE) {
        return None;
    }
    let from = INIT_DATA_SIZE + CONT_DATA_SIZE * (i - 1);
    let end = payload.len().min(from + CONT_DATA_SIZE);
    Some(continuation_packet(cid, (i - 1) as u8, &payload[from..end]))
}

/// Packet `i`, from 0, of the message with command `cmd` and this payload on channel `cid`: item `i` of
/// the list that [`frame`] gives, `None` from its end on. The caller sees to it that `cmd` is below 128
/// and the payload has at most 7,609 bytes. Takes no memory.
pub fn packet_at(cid: u32, cmd: u8, payload: &[u8], i: usize) -> Option<Packet>
    requires command { cmd < 128 }
    requires size { length payload.now ≤ MAX_PAYLOAD_SIZE }
    ensures list { result ≡ slice_get (frame_list cid cmd payload.now) i }
    ensures frames { (ps : List Packet) → ZeroFrames cid cmd payload.now ps → result ≡ slice_get ps i }
{
    piece(cid, cmd, payload, i)
}

/// How many packets a payload of `len` bytes has: 1 for at most 57, and one more for each 59 bytes
/// begun after them. Takes no memory.
pub fn packet_count(len: usize) -> usize
    ensures { result ≡ packets_of len }
{
    1 + len.saturating_sub(INIT_DATA_SIZE).div_ceil(CONT_DATA_SIZE)
}

/// The law of the zero-filled frame list: a payload of at most 7,609 bytes has one, and no other, on
/// each channel and for each command; it is the one that `frame_list` writes out.
pub fn one_frame_list()
    ensures { (c cmd : ℕ) (m : List ℕ) → c < 2 ^ 32 → cmd < 128 → length m ≤ MAX_PAYLOAD_SIZE
        → ((k : ℕ) → slice_index m k < 256) → TheZeroFrames c cmd m (frame_list c cmd m) }
{}

/// The packets of the message with command `cmd` and this payload on channel `cid`, in order: an
/// initial packet, then continuations numbered from 0 on, the unused bytes zero. The caller sees to it
/// that `cmd` is below 128. Refused: [`TooLong`], a payload above 7,609 bytes. Takes no memory.
pub fn frame<'a>(cid: u32, cmd: u8, payload: &'a [u8]) -> Result<Frames<'a>, TooLong>
    requires { cmd < 128 }
    ensures frames { IfOk result (λ f. TheZeroFrames cid cmd payload.now f) }
    ensures too_long { IsErr result ↔ (MAX_PAYLOAD_SIZE < length payload.now) }
{
    if payload.len() > MAX_PAYLOAD_SIZE {
        return Err(TooLong);
    }
    Ok(Frames {
        cid,
        cmd,
        payload,
        next: 0,
    })
}

impl<'a> Iterator for Frames<'a> {
    type Item = Packet;

    ghost next_gives = { YieldsFirst (λ s. s) };

    ghost remaining = { item_count (λ s. s) };

    fn next(&mut self) -> Option<Packet> {
        let packet = piece(self.cid, self.cmd, self.payload, self.next);
        if packet.is_some() {
            self.next += 1;
        }
        packet
    }
}
