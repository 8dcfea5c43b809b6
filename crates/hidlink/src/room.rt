//! Room for the bytes of one message each way, made once. What is put into it fits, so that no memory is
//! taken later, and it is never cleared as a whole.

ghost use Rattle.hidframe.specs.declared.ctaphid.TheConstants.{MAX_PAYLOAD_SIZE};
ghost use Rattle.std.specs.Prelude.{◌≡◌, ◌≤◌, ◌<◌, ◌++◌, ◌↔◌, [], ◌∷◌, length, take, IfOk, IsTrue, MatchOption};
ghost use Rattle.hidframe.specs.declared.Packet.{Packet};
ghost use Rattle.hidframe.specs.Pieces.{frame_list};

use hidframe::ctaphid::{CTAPHID_PING, MAX_PAYLOAD_SIZE};
use hidframe::{Packet, packet_at, packet_count};
use std::alloc::{AllocError, Global};
use std::marker::Model;
use std::mem;

/// The bytes of a message that came so far, in room for the longest.
#[derive(Drop)]
pub struct Inbox {
    came: Vec<u8>,
}

impl Model for Inbox {
    ghost use Rattle.std.specs.Prelude.{List, ℕ, ◌≤◌, vec_capacity, vec_len};

    ghost Value = { List ℕ };

    ghost view = { λ i. i.came.items };

    ghost invariant = { λ i. record { held : vec_len i.came ≤ 7609; room : 7609 ≤ vec_capacity i.came } };
}

impl Inbox {
    pub fn new(alloc: Global) -> Result<Self, AllocError>
        ensures { IfOk result (λ i. i ≡ []) }
    {
        Ok(Inbox {
            came: Vec::with_capacity(alloc, MAX_PAYLOAD_SIZE)?,
        })
    }

    pub fn clear(&mut self)
        ensures { self.new ≡ [] }
    {
        self.came.clear();
    }

    /// Takes bytes of a message of `len` bytes, as many as it lacks.
    pub fn append(&mut self, len: u16, bytes: &[u8])
        requires len { len ≤ MAX_PAYLOAD_SIZE }
        requires held { length self.old ≤ len }
        ensures { self.new ≡ take len (self.old ++ bytes.now) }
    {
        let lacking = usize::from(len) - self.came.len();
        let taken = bytes.len().min(lacking);
        self.came.extend_from_slice(&bytes[..taken]).unwrap();
    }

    pub fn bytes(&self) -> &[u8]
        ensures { result.now ≡ self.now }
    {
        self.came.as_slice()
    }
}

/// The packets of a message that are left to send, its payload in room for the longest.
#[derive(Drop)]
pub struct Outbox {
    payload: Vec<u8>,
    cid: u32,
    cmd: u8,
    next: usize,
}

impl Model for Outbox {
    ghost use Rattle.std.specs.Prelude.{List, ◌≤◌, ◌<◌, vec_capacity, vec_len};
    ghost use Rattle.hidframe.specs.declared.Packet.{Packet};
    ghost use Rattle.hidframe.specs.Pieces.{items_from};

    ghost Value = { List Packet };

    ghost view = { λ o. items_from o.cid o.cmd o.payload.items o.next };

    ghost invariant = { λ o. record {
      command : o.cmd < 128;
      size : vec_len o.payload ≤ 7609;
      place : o.next ≤ 130;
      room : 7609 ≤ vec_capacity o.payload;
    } };
}

impl Outbox {
    #[tactic(auto, using(crate::proofs::Left::nothing_left))]
    pub fn new(alloc: Global) -> Result<Self, AllocError>
        ensures { IfOk result (λ o. o ≡ []) }
    {
        Ok(Outbox {
            payload: Vec::with_capacity(alloc, MAX_PAYLOAD_SIZE)?,
            cid: 0,
            cmd: 0,
            next: 1,
        })
    }

    /// A message to send, in place of what was left.
    pub fn send(&mut self, cid: u32, cmd: u8, payload: &[u8])
        requires cmd { cmd < 128 }
        requires len { length payload.now ≤ MAX_PAYLOAD_SIZE }
        ensures { self.new ≡ frame_list cid cmd payload.now }
    {
        self.payload.clear();
        self.payload.extend_from_slice(payload).unwrap();
        self.cid = cid;
        self.cmd = cmd;
        self.next = 0;
    }

    /// A PING of the bytes that came, which go.
    pub fn echo(&mut self, cid: u32, inbox: &mut Inbox)
        ensures left { self.new ≡ frame_list cid CTAPHID_PING inbox.old }
        ensures gone { inbox.new ≡ [] }
    {
        mem::swap(&mut self.payload, &mut inbox.came);
        inbox.came.clear();
        self.cid = cid;
        self.cmd = CTAPHID_PING;
        self.next = 0;
    }

    #[tactic(auto, using(crate::proofs::Left::few_left, crate::proofs::Left::nothing_left, crate::proofs::Left::takes_one))]
    pub fn next(&mut self) -> Option<Packet>
        ensures most { length self.old ≤ 129 }
        ensures gives { MatchOption result ((self.old ≡ []) × (self.new ≡ [])) (λ p. self.old ≡ p ∷ self.new) }
    {
        if self.next >= packet_count(self.payload.len()) {
            return None;
        }
        let packet = packet_at(self.cid, self.cmd, &self.payload, self.next);
        self.next += 1;
        packet
    }

    #[tactic(auto, using(crate::proofs::Left::few_left, crate::proofs::Left::nothing_left, crate::proofs::Left::none_left))]
    pub fn is_drained(&self) -> bool
        ensures drained { IsTrue result ↔ (self.now ≡ []) }
        ensures most { length self.now ≤ 129 }
    {
        self.next >= packet_count(self.payload.len())
    }
}
