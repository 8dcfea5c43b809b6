//! The authenticator's end: a device and its authenticator, one act after another; in one step, or in two for a host that
//! signs elsewhere.

ghost use Rattle.std.specs.Prelude.{◌≡◌, ◌+◌, ◌≤◌, ◌++◌, [], ◌∷◌, List, Err, IfOk, IsErrOf, OnErr, OnOk, length, vec_capacity, vec_len};
ghost use Rattle.hidframe.specs.declared.ctaphid.TheConstants.{CTAPHID_CBOR, CTAPHID_KEEPALIVE, MAX_PAYLOAD_SIZE, STATUS_UPNEEDED};
ghost use Rattle.hidlink.specs.History.{Answered, DeviceCall, Expired, Kept, Leaves};
ghost use Rattle.hidlink.specs.Ranks.{Idle, IsWorking, expiry, on_working, packets_of, response};
ghost use Rattle.hidframe.specs.Packets.{fields};
ghost use Rattle.authenticator.specs.Signing.{AgreesOn};
ghost use Rattle.authenticator.specs.State.{AuthenticatorState};
ghost use Rattle.authenticator.specs.Steps.{Keys};
ghost use Rattle.security_key.specs.AtDevice.{ActsBy, DecidesBy, Keeps, Moves, Takes};
ghost use Rattle.security_key.specs.Serving.{AgreesFor, AsksForWork, BeginsServing, Done, FinishesServing, GoesOn, IsDone, IsPayload, Serves};
ghost use Rattle.security_key.specs.declared.serving.ServeError.TheVariants as errors;

use authenticator::{Authenticator, Begun, Consent, Pending, PublicKeys, SchemeKeys, Words};
use cose::Signer;
use ctap_encoding::status::KEEPALIVE_CANCEL;
use hidframe::Packet;
use hidframe::ctaphid::STATUS_UPNEEDED;
use hidlink::{Device, DeviceEvent};
use std::alloc::AllocError;
use thiserror::Error as ErrorType;

/// The most packets of one message.
pub const MOST_PACKETS: usize = 129;

/// What happens at the authenticator's end.
#[derive(Clone, Copy, Drop)]
pub enum Act {
    /// A packet came.
    Packet(Packet),
    /// The user decided on the request that waits; the random words are for a credential that it may make.
    Decide(Consent, Words),
    /// The user is still to decide on the request that waits.
    Wait,
    /// The message that is coming in took too long.
    Expire,
}

/// What an act comes to before a signature is made.
#[derive(Drop)]
pub enum Served {
    /// It is done, and the device told this of the packet that came.
    Done(DeviceEvent),
    /// The request waits for its signature, and nothing has changed.
    Signs(Pending),
}

/// Why an act is refused.
#[derive(Clone, Copy, Debug, PartialEq, Eq, Drop, ErrorType)]
pub enum ServeError {
    /// 6: no request waits.
    #[error("no request waits for a decision")]
    NotWorking,
    /// There was no memory.
    #[error("out of memory")]
    Memory,
}

impl ServeError {
    ghost use Rattle.security_key.specs.Numbers.{serve_number};

    /// The number of the refusal; none if memory runs out.
    pub fn number(&self) -> Option<u8>
        ensures { result ≡ serve_number self.now }
    {
        match self {
            ServeError::NotWorking => Some(6),
            ServeError::Memory => None,
        }
    }
}

impl From<AllocError> for ServeError {
    ghost from_gives = { λ _ e. e ≡ errors.Memory };

    fn from(_e: AllocError) -> ServeError {
        ServeError::Memory
    }
}

/// Puts the packets that are left to send after the others, for which there is room.
pub fn drain(device: &mut Device, out: &mut Vec<Packet>)
    requires { vec_len out.old + 129 ≤ vec_capacity out.old }
    ensures device { device.new ≡ record device.old { left = [] } }
    ensures out { out.new.items ≡ out.old.items ++ device.old.left }
{
    for _number in 0..MOST_PACKETS {
        let Some(packet) = device.next_out() else {
            return;
        };
        let _ = out.push(packet);
    }
}

/// Answers the request that the device works on.
fn answer(device: &mut Device, reply: &[u8])
    requires left { device.old.left ≡ [] }
    requires works { IsWorking device.old.state }
    requires size { length reply.now ≤ MAX_PAYLOAD_SIZE }
    ensures payload { IsPayload reply.now }
    ensures moves { Moves device.old device.new (Answered reply.now ∷ []) (on_working device.old.state CTAPHID_CBOR reply.now) }
    ensures idle { device.new.state ≡ Idle }
{
    let _ = device.answer(reply);
}

/// Takes a packet, and answers the request that it cancels.
fn take(device: &mut Device, packet: &Packet) -> DeviceEvent
    requires { device.old.left ≡ [] }
    ensures takes { Takes device.old packet.now device.new }
    ensures told { result ≡ (response device.old.channels device.old.state (fields packet.now)).step }
    ensures keeps { (a : AuthenticatorState) → Keeps device.old a device.new a }
{
    let event = device.packet(packet);
    if let DeviceEvent::Cancelled = event {
        let _ = device.answer(&[KEEPALIVE_CANCEL]);
    }
    event
}

/// Has the authenticator begin the request that waits, and answers it where it is not to be signed.
fn decide<K: PublicKeys>(
    device: &mut Device,
    authenticator: &mut Authenticator,
    keys: &K,
    consent: Consent,
    words: Words,
) -> Result<Served, ServeError>
    requires { device.old.left ≡ [] }
    ensures decided { (public : Keys) → AgreesOn words.secret public (K.public_of keys.now)
        → IfOk result (λ served. DecidesBy public device.old authenticator.old consent words served device.new authenticator.new) }
    ensures keeps { OnOk result (Keeps device.old authenticator.old device.new authenticator.new) }
    ensures not_working { IsErrOf result errors.NotWorking → IsWorking device.old.state → ⊥ }
    ensures device { OnErr result (device.new ≡ device.old) }
    ensures authenticator { OnErr result (authenticator.new ≡ authenticator.old) }
{
    let Some(channel) = device.working() else {
        return Err(ServeError::NotWorking);
    };
    match authenticator.begin(keys, channel, device.request(), consent, words)? {
        Begun::Replied(reply) => {
            answer(device, &reply);
            Ok(Served::Done(DeviceEvent::Quiet))
        }
        Begun::Signs(pending) => Ok(Served::Signs(pending)),
    }
}

/// Sends a keepalive for the request that waits.
fn wait(device: &mut Device) -> Result<(), ServeError>
    requires { device.old.left ≡ [] }
    ensures waits { OnOk result (IsWorking device.old.state
        × Moves device.old device.new (Kept STATUS_UPNEEDED ∷ []) (on_working device.old.state CTAPHID_KEEPALIVE (STATUS_UPNEEDED ∷ []))) }
    ensures state { device.new.state ≡ device.old.state }
    ensures not_working { IsErrOf result errors.NotWorking → IsWorking device.old.state → ⊥ }
    ensures only { OnErr result (result ≡ Err errors.NotWorking) }
    ensures device { OnErr result (device.new ≡ device.old) }
{
    match device.keepalive(STATUS_UPNEEDED) {
        Ok(()) => Ok(()),
        Err(_) => Err(ServeError::NotWorking),
    }
}

/// Ends a message that took too long.
fn expire(device: &mut Device)
    requires { device.old.left ≡ [] }
    ensures moves { Moves device.old device.new (Expired ∷ []) (expiry device.old.state) }
    ensures keeps { (a : AuthenticatorState) → Keeps device.old a device.new a }
{
    device.expire();
}

/// Begins an act, but for sending what is due.
fn act_on<K: PublicKeys>(
    device: &mut Device,
    authenticator: &mut Authenticator,
    keys: &K,
    act: Act,
) -> Result<Served, ServeError>
    requires { device.old.left ≡ [] }
    ensures acted { (public : Keys) → AgreesFor act public (K.public_of keys.now)
        → IfOk result (λ served. ActsBy public device.old authenticator.old act served device.new authenticator.new) }
    ensures keeps { OnOk result (Keeps device.old authenticator.old device.new authenticator.new) }
    ensures not_working { IsErrOf result errors.NotWorking → AsksForWork act × (IsWorking device.old.state → ⊥) }
    ensures device { OnErr result (device.new ≡ device.old) }
    ensures authenticator { OnErr result (authenticator.new ≡ authenticator.old) }
{
    match act {
        Act::Packet(packet) => Ok(Served::Done(take(device, &packet))),
        Act::Decide(consent, words) => decide(device, authenticator, keys, consent, words),
        Act::Wait => {
            wait(device)?;
            Ok(Served::Done(DeviceEvent::Quiet))
        }
        Act::Expire => {
            expire(device);
            Ok(Served::Done(DeviceEvent::Quiet))
        }
    }
}

/// The first of two steps, for a host that signs elsewhere: does what is due as [`serve`] does, or tells what is to be
/// signed for the request that waits. Until [`finish_serving`] takes the signature nothing has changed, at the device,
/// at the authenticator or in `out`; so what waits may be dropped.
///
/// What waits is to be dropped where the device works on its request no more: when [`Device::working`] tells of none
/// after a later act. As long as it tells of one, it is the same request.
///
/// The keys are asked for the public key of the secret that is passed, where a credential is to be made. Refused as
/// `serve`, and a refusal changes nothing.
pub fn begin_serving<K: PublicKeys>(
    device: &mut Device,
    authenticator: &mut Authenticator,
    keys: &K,
    act: Act,
    out: &mut Vec<Packet>,
) -> Result<Served, ServeError>
    requires { device.old.left ≡ [] }
    // The act is done whatever signatures are valid, or its request waits for one and nothing has changed: so by each function
    // from secrets to keys that has the keys' own for the secret that is passed;
    ensures begun { (public : Keys) → AgreesFor act public (K.public_of keys.now)
        → IfOk result (λ served. BeginsServing public
        device.old authenticator.old act out.old.items served device.new authenticator.new out.new.items) }
    // a request that the device works on before and after is the same one, with the authenticator as it was;
    ensures goes_on { OnOk result ((h : List DeviceCall) → Leaves h device.old.channels device.old.state
        → GoesOn device.old authenticator.old device.new authenticator.new) }
    // nothing is left to send,
    ensures drained { device.new.left ≡ [] }
    // and a refusal changes nothing: memory ran out, or it is of a request.
    ensures not_working { IsErrOf result errors.NotWorking → AsksForWork act × (IsWorking device.old.state → ⊥) }
    ensures device { OnErr result (device.new ≡ device.old) }
    ensures authenticator { OnErr result (authenticator.new ≡ authenticator.old) }
    ensures out { OnErr result (out.new.items ≡ out.old.items) }
{
    out.reserve(MOST_PACKETS)?;
    let served = act_on(device, authenticator, keys, act)?;
    drain(device, out);
    Ok(served)
}

/// The second step: takes the signature, of 1 to 128 bytes, of what [`begin_serving`] told, answers the request that the
/// device works on, and puts the packets of the answer after those in `out`, for which it makes room first. The counter
/// grows here, or the credential is stored.
///
/// Refused: [`ServeError::NotWorking`] (6), where no request waits; [`ServeError::Memory`]. Then what waited is gone, and
/// nothing else has changed: the request may be decided anew. The caller sees to it that nothing is left to send in the
/// device, and that device and authenticator are as `begin_serving` left them, but for acts that left the request waiting.
pub fn finish_serving(
    device: &mut Device,
    authenticator: &mut Authenticator,
    pending: Pending,
    signature: &[u8],
    out: &mut Vec<Packet>,
) -> Result<(), ServeError>
    requires left { device.old.left ≡ [] }
    requires low { 1 ≤ length signature.now }
    requires high { length signature.now ≤ 128 }
    // The request that the device works on is answered by the second step of the authenticator;
    ensures finished { OnOk result ((d : Done) × FinishesServing device.old.state authenticator.old pending signature.now d
        × IsDone device.old out.old.items d device.new authenticator.new out.new.items) }
    // nothing is left to send,
    ensures drained { device.new.left ≡ [] }
    // and a refusal changes nothing: memory ran out, or it is of a request.
    ensures not_working { IsErrOf result errors.NotWorking → IsWorking device.old.state → ⊥ }
    ensures device { OnErr result (device.new ≡ device.old) }
    ensures authenticator { OnErr result (authenticator.new ≡ authenticator.old) }
    ensures out { OnErr result (out.new.items ≡ out.old.items) }
{
    if device.working().is_none() {
        return Err(ServeError::NotWorking);
    }
    out.reserve(MOST_PACKETS)?;
    let reply = authenticator.finish(pending, signature)?;
    answer(device, &reply);
    drain(device, out);
    Ok(())
}

/// Does what is due at the authenticator's end, and puts the packets that the device sends then after those in
/// `out`: at most 129, for which it makes room first.
///
/// A packet is fed to the device. A request that is complete waits for its decision; one that is cancelled is answered
/// by status 0x2D; one whose channel begins anew is not answered. A decision has the authenticator carry out the request
/// that waits, and answers it. Waiting sends a keepalive, that the user's presence is needed. Expiry ends a message that
/// is coming in.
///
/// Refused: [`ServeError::Memory`]; [`ServeError::NotWorking`] (6), of a decision or of waiting, where no request waits.
/// A refusal changes nothing. The caller sees to it that nothing is left to send in the device.
pub fn serve<S: Signer>(
    device: &mut Device,
    authenticator: &mut Authenticator,
    scheme: &S,
    act: Act,
    out: &mut Vec<Packet>,
) -> Result<(), ServeError>
    requires { device.old.left ≡ [] }
    // The act does this at the device and at the authenticator, of which only a decision changes it;
    ensures served { OnOk result ((done : Done)
        × Serves (S.valid scheme.now) (S.public_of scheme.now) device.old.channels device.old.state authenticator.old act done
        × (authenticator.new ≡ done.authenticator) × (out.new.items ≡ out.old.items ++ packets_of done.sent)
        × ((h : List DeviceCall) → Leaves h device.old.channels device.old.state → Leaves (h ++ done.calls) device.new.channels device.new.state)) }
    // nothing is left to send,
    ensures drained { device.new.left ≡ [] }
    // and a refusal changes nothing: memory ran out, or it is of a request.
    ensures not_working { IsErrOf result errors.NotWorking → AsksForWork act × (IsWorking device.old.state → ⊥) }
    ensures device { OnErr result (device.new ≡ device.old) }
    ensures authenticator { OnErr result (authenticator.new ≡ authenticator.old) }
    ensures out { OnErr result (out.new.items ≡ out.old.items) }
{
    let keys = SchemeKeys { scheme };
    let served = begin_serving(device, authenticator, &keys, act, out);
    let SchemeKeys { scheme } = keys;
    match served? {
        Served::Done(_) => Ok(()),
        Served::Signs(pending) => {
            let signature = pending.signature(*out.allocator(), scheme)?;
            finish_serving(device, authenticator, pending, signature.as_slice(), out)
        }
    }
}
