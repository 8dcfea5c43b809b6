//! What a client hands out.

ghost use Rattle.std.specs.Prelude.{◌≡◌, [], ◌∷◌, ℕ, IfErr, IfOk, List, None};
ghost use Rattle.hidframe.specs.declared.ctaphid.TheConstants.{CTAPHID_CBOR};
ghost use Rattle.hidframe.specs.Frames.{TheZeroFrames};
ghost use Rattle.ctap_requests.specs.Requests.{RequestOf, get_next_assertion};
ghost use Rattle.ctap_requests.specs.RequestView.{request_view};
ghost use Rattle.client.specs.Steps.{IsFramed, IsNotFramed, IsNotSent};

use crate::error::RequestError;
use ctap_encoding::command::GET_NEXT_ASSERTION;
use ctap_requests::{Request, write_request};
use hidframe::ctaphid::CTAPHID_CBOR;
use hidframe::{Packet, frame, packet_at};
use std::alloc::Global;

/// What a ceremony begins with.
#[derive(Debug, Drop)]
pub struct Outgoing {
    /// The client data, which go to the relying party with the authenticator's reply.
    pub client_data: Vec<u8>,
    /// The packets of the request, which go to the authenticator in this order: 1 to 129.
    pub packets: Vec<Packet>,
}

/// The packets of a message of CBOR.
fn framed(alloc: Global, cid: u32, message: &[u8]) -> Result<Vec<Packet>, RequestError>
    ensures framed { IfOk result (λ v. TheZeroFrames cid CTAPHID_CBOR message.now v.items) }
    ensures refused { IfErr result (IsNotFramed message.now) }
{
    match frame(cid, CTAPHID_CBOR, message) {
        Ok(frames) => Ok(frames.collect(alloc)?),
        Err(_) => Err(RequestError::TooLong),
    }
}

/// The packets of a request.
pub fn packets_of(alloc: Global, request: &Request, cid: u32) -> Result<Vec<Packet>, RequestError>
    ensures framed { IfOk result (λ v. IsFramed (request_view request.now) cid v.items) }
    ensures refused { IfErr result (IsNotSent (request_view request.now)) }
{
    match write_request(alloc, request) {
        Ok(message) => framed(alloc, cid, &message),
        Err(ctap_encoding::Error::Unfit) => Err(RequestError::Unfit),
        Err(_) => Err(RequestError::Memory),
    }
}

/// The packet that asks for the next assertion (CTAP 2.1, section 6.3) on channel `cid`: one initial
/// packet of CBOR with the command byte 0x08, filled with zeros. Takes no memory.
pub fn next_request(cid: u32) -> Packet
    ensures { (message : List ℕ) × RequestOf get_next_assertion None message
        × TheZeroFrames cid CTAPHID_CBOR message (result ∷ []) }
{
    packet_at(cid, CTAPHID_CBOR, &[GET_NEXT_ASSERTION], 0).unwrap()
}
