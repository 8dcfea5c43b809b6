//! What the authenticator makes of a request once the user has decided.

ghost use Rattle.std.specs.Prelude.{◌≡◌, ◌+◌, ◌≤◌, ◌&&◌, [], ℕ, List, IfOk, OnErr, OnOk, Some, option_map, vec_capacity, vec_len};
ghost use Rattle.hidlink.specs.Ranks.{IsWorking, working_channel};
ghost use Rattle.authenticator.specs.Signing.{AgreesOn};
ghost use Rattle.authenticator.specs.State.{forgotten};
ghost use Rattle.authenticator.specs.Steps.{Keys};
ghost use Rattle.key_pin.specs.State.{pin_view};
ghost use Rattle.key_device.specs.Deciding.{Decides, IsInfo, TellsBy, as_it_is, is_command, reset_on, spent_by, touched};
ghost use Rattle.key_device.specs.Sending.{IsAnswered};
ghost use Rattle.key_device.specs.Stages.{is_some};
ghost use Rattle.key_device.specs.declared.stage.Stage.TheVariants as stages;

use crate::sending::answer;
use crate::stage::GrantedRequest;
use authenticator::{Authenticator, Begun, Consent, NO_KEYS, Pending, PublicKeys, Words};
use ctap_encoding::command::{GET_INFO, RESET};
use ctap_encoding::status::{OK, OPERATION_DENIED, OTHER, PIN_INVALID, PIN_NOT_SET};
use hidframe::Packet;
use hidlink::Device;
use key_pin::ClientPin;
use pin_key_messages::write_key_info;
use std::alloc::{AllocError, Global};

/// A decision on a request that came on a channel.
#[derive(Clone, Copy, Drop)]
pub(crate) struct Decision {
    pub channel: u32,
    pub consent: Consent,
    pub words: Words,
}

/// Whether the first byte is this.
fn is_command(bytes: &[u8], command: u8) -> bool
    ensures { result ≡ is_command command bytes.now }
{
    match bytes.first() {
        Some(first) => *first == command,
        None => false,
    }
}

/// Whether a PIN is set.
pub(crate) fn is_set(pin: &ClientPin) -> bool
    ensures { result ≡ is_some (pin_view pin.now).pin }
{
    pin.is_set()
}

/// Answers by the reply to getInfo, from the authenticator's own; without memory by status 0x7F.
fn answer_info(device: &mut Device, alloc: Global, told: &[u8], is_set: bool, out: &mut Vec<Packet>)
    requires left { device.old.left ≡ [] }
    requires works { IsWorking device.old.state }
    requires room { vec_len out.old + 129 ≤ vec_capacity out.old }
    ensures answered { (m : List ℕ) × IsInfo is_set told.now m × IsAnswered device.old out.old.items m device.new out.new.items }
    ensures drained { device.new.left ≡ [] }
{
    match write_key_info(alloc, told, is_set) {
        Ok(reply) => answer(device, &reply, out),
        Err(_) => answer(device, &[OTHER], out),
    }
}

/// Answers by the authenticator's reply to a request as it is; getInfo tells of the PIN.
fn answer_as_it_is(
    device: &mut Device,
    pin: &Option<ClientPin>,
    alloc: Global,
    is_info: bool,
    reply: &[u8],
    out: &mut Vec<Packet>,
)
    requires left { device.old.left ≡ [] }
    requires works { IsWorking device.old.state }
    requires room { vec_len out.old + 129 ≤ vec_capacity out.old }
    ensures answered { (m : List ℕ) × TellsBy (option_map pin_view pin.now) is_info reply.now m
        × IsAnswered device.old out.old.items m device.new out.new.items }
    ensures drained { device.new.left ≡ [] }
{
    match pin {
        Some(pin) if is_info => answer_info(device, alloc, reply, is_set(pin), out),
        _ => answer(device, reply, out),
    }
}

/// A reset that is answered by status 0 leaves no PIN.
fn reset(pin: &mut Option<ClientPin>, is_reset: bool, reply: &[u8])
    ensures { option_map pin_view pin.new ≡ reset_on is_reset reply.now (option_map pin_view pin.old) }
{
    if let Some(pin) = pin {
        if is_reset && is_command(reply, OK) {
            pin.reset();
        }
    }
}

/// Whether the user is verified who decides on a request as it is: of a key that takes PINs, never.
fn verified_as_it_is(pin: &Option<ClientPin>, consent: Consent) -> bool
    ensures { result ≡ (as_it_is (option_map pin_view pin.now) consent).verified }
{
    pin.is_none() && consent.verified
}

/// A decision on a request as it is. It is answered, or what waits for its signature comes back.
pub(crate) fn decide_as_it_is<K: PublicKeys>(
    device: &mut Device,
    authenticator: &mut Authenticator,
    pin: &mut Option<ClientPin>,
    alloc: Global,
    keys: &K,
    decision: Decision,
    out: &mut Vec<Packet>,
) -> Result<Option<Pending>, AllocError>
    requires left { device.old.left ≡ [] }
    requires channel { working_channel device.old.state ≡ Some decision.channel }
    requires room { vec_len out.old + 129 ≤ vec_capacity out.old }
    ensures decided { (public : Keys) → AgreesOn decision.words.secret public (K.public_of keys.now)
        → IfOk result (λ o. Decides public device.old authenticator.old (option_map pin_view pin.old) stages.User decision.consent decision.words
        out.old.items o device.new authenticator.new (option_map pin_view pin.new) out.new.items) }
    ensures drained { device.new.left ≡ [] }
    // Without memory nothing has changed.
    ensures device { OnErr result (device.new ≡ device.old) }
    ensures authenticator { OnErr result (authenticator.new ≡ authenticator.old) }
    ensures pin { OnErr result (pin.new ≡ pin.old) }
    ensures out { OnErr result (out.new.items ≡ out.old.items) }
{
    let request = device.request();
    let is_info = is_command(request, GET_INFO);
    let is_reset = is_command(request, RESET);
    let consent = Consent {
        present: decision.consent.present,
        verified: verified_as_it_is(pin, decision.consent),
    };
    match authenticator.begin(keys, decision.channel, request, consent, decision.words)? {
        Begun::Replied(reply) => {
            answer_as_it_is(device, pin, alloc, is_info, &reply, out);
            reset(pin, is_reset, &reply);
            Ok(None)
        }
        Begun::Signs(pending) => Ok(Some(pending)),
    }
}

/// A decision on a request that a token granted: its user is verified. Where the user was asked to be present and is, the token is
/// spent. It is answered, or what waits for its signature comes back.
pub(crate) fn decide_granted<K: PublicKeys>(
    device: &mut Device,
    authenticator: &mut Authenticator,
    pin: &mut Option<ClientPin>,
    granted: &GrantedRequest,
    keys: &K,
    decision: Decision,
    out: &mut Vec<Packet>,
) -> Result<Option<Pending>, AllocError>
    requires left { device.old.left ≡ [] }
    requires channel { working_channel device.old.state ≡ Some decision.channel }
    requires room { vec_len out.old + 129 ≤ vec_capacity out.old }
    ensures decided { (public : Keys) → AgreesOn decision.words.secret public (K.public_of keys.now)
        → IfOk result (λ o. Decides public device.old authenticator.old (option_map pin_view pin.old) (stages.Granted granted.now) decision.consent decision.words
        out.old.items o device.new authenticator.new (option_map pin_view pin.new) out.new.items) }
    ensures drained { device.new.left ≡ [] }
    // Without memory nothing has changed.
    ensures device { OnErr result (device.new ≡ device.old) }
    ensures authenticator { OnErr result (authenticator.new ≡ authenticator.old) }
    ensures pin { OnErr result (pin.new ≡ pin.old) }
    ensures out { OnErr result (out.new.items ≡ out.old.items) }
{
    let present = decision.consent.present;
    let consent = Consent {
        present,
        verified: true,
    };
    let begun = authenticator.begin(
        keys,
        decision.channel,
        &granted.bytes,
        consent,
        decision.words,
    )?;
    spend(pin, present, granted.presence);
    match begun {
        Begun::Replied(reply) => {
            answer(device, &reply, out);
            Ok(None)
        }
        Begun::Signs(pending) => Ok(Some(pending)),
    }
}

/// The token is spent where the user is present and was asked to be.
fn spend(pin: &mut Option<ClientPin>, present: bool, is_asked: bool)
    ensures { option_map pin_view pin.new ≡ spent_by (present && is_asked) (option_map pin_view pin.old) }
{
    if let Some(pin) = pin {
        if present && is_asked {
            pin.spend();
        }
    }
}

/// The status of a request whose pinUvAuthParam is empty.
pub(crate) fn touched(is_set: bool, present: bool) -> u8
    ensures { result ≡ touched is_set present }
{
    if !present {
        OPERATION_DENIED
    } else if is_set {
        PIN_INVALID
    } else {
        PIN_NOT_SET
    }
}

/// Has an authenticator forget what it remembers: bytes that are no request do so.
pub(crate) fn forget(authenticator: &mut Authenticator) -> Result<(), AllocError>
    ensures ok { OnOk result (authenticator.new ≡ forgotten authenticator.old) }
    ensures err { OnErr result (authenticator.new ≡ authenticator.old) }
{
    let nobody = Consent {
        present: false,
        verified: false,
    };
    let words = Words {
        id: [0; 32],
        secret: [0; 32],
    };
    match authenticator.begin(&NO_KEYS, 0, &[], nobody, words)? {
        Begun::Replied(_) => Ok(()),
        Begun::Signs(_) => Err(AllocError),
    }
}
