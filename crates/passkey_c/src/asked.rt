//! Which signature a host is to verify.

ghost use Rattle.std.specs.Prelude.{◌≡◌, ◌+◌, ◌++◌, ◌≤◌, IfErr, MatchOption, OnErr, OnOk, false, length, true};
ghost use Rattle.authdata.specs.Objects.{ObjectOf, lent_object_view};
ghost use Rattle.authdata.specs.Statements.{IsSelfSignedBy};
ghost use Rattle.cose.specs.Keys.{lent_key_view};
ghost use Rattle.verification.specs.Registration.{counted};
ghost use Rattle.passkey_c.specs.Answers.{IsSignatureAsked};
ghost use Rattle.passkey_c.specs.Asked.{AskKeeps, IsBroken, IsNotSelfSigned, IsSmall, IsUntold, Tells, TellsAs};
ghost use Rattle.passkey_c.specs.Numbers.{ask_number};
ghost use Rattle.passkey_c.specs.Parts.{Fills, flag_of};

use crate::answers::{ACCEPTED, Limit};
use crate::input::{KeyLimit, is_profile, key_from, profile_from, write_front, write_key};
use crate::parts::{SignatureCall, SignatureOut};
use authdata::{AttestationView, Profile};
use clientdata::hash;
use cose::KeyView;
use verification::{attested_key, counts_as_none};

/// A signature that is to be verified, of the authenticator data and then the hash of the client data.
#[derive(Drop)]
pub struct AskedSignature<'a> {
    pub key: KeyView<'a>,
    pub auth_data: &'a [u8],
    pub hash: [u8; 32],
    pub signature: &'a [u8],
}

/// Why it cannot be answered.
#[derive(Clone, Copy, Debug, PartialEq, Eq, Drop)]
pub enum AskError {
    Unreadable,
    Limit(Limit),
}

impl AskError {
    /// The number of the answer.
    fn number(self) -> u32
        ensures { result ≡ ask_number self }
    {
        match self {
            AskError::Unreadable => 7,
            AskError::Limit(limit) => limit.number(),
        }
    }
}

/// Writes two parts, one after the other, to the front of a room, and tells how many bytes they are.
fn write_joined(room: &mut [u8], first: &[u8], second: &[u8; 32]) -> usize
    requires { length first.now + 32 ≤ length room.old }
    ensures { Fills result room.new (first.now ++ second.now) }
{
    let size = first.len();
    let (whole, _) = room.split_at_mut(size + 32);
    let (front, back) = whole.split_at_mut(size);
    front.copy_from_slice(first);
    back.copy_from_slice(second);
    size + 32
}

/// Tells the signature that is asked, where there is room for it.
fn tell(
    asked: &AskedSignature<'_>,
    message: &mut [u8],
    signature: &mut [u8],
    out: &mut SignatureOut,
) -> Result<(), Limit>
    ensures told { OnOk result (TellsAs out.new message.new signature.new asked.now) }
    ensures refused { IfErr result (IsSmall (length message.old) (length signature.old) asked.now) }
    ensures untouched { OnErr result ((out.new ≡ out.old) × (message.new ≡ message.old) × (signature.new ≡ signature.old)) }
{
    let front = asked.auth_data.len();
    if message.len() < 32 || message.len() - 32 < front {
        return Err(Limit::MessageRoom);
    }
    if signature.len() < asked.signature.len() {
        return Err(Limit::SignatureRoom);
    }
    out.message_size = write_joined(message, asked.auth_data, &asked.hash);
    out.signature_size = write_front(asked.signature, signature);
    write_key(&asked.key, &mut out.key);
    out.is_asked = true;
    Ok(())
}

/// The signature by which an object, as it counts, attests this key itself.
fn counted_signature<'a>(
    profile: Profile,
    asked: bool,
    object: &AttestationView<'a>,
    key: &KeyView<'_>,
) -> Option<&'a [u8]>
    ensures { MatchOption result
        (IsNotSelfSigned (counted profile asked (lent_object_view object.now)) (lent_key_view key.now))
        (λ sig. IsSelfSignedBy (counted profile asked (lent_object_view object.now)) (lent_key_view key.now) sig.now) }
{
    if counts_as_none(profile, asked) {
        return None;
    }
    object.self_signature(key)
}

/// Tells the signature that an object asks for, or that it asks for none.
fn tell_object(
    call: &SignatureCall<'_>,
    object: &AttestationView<'_>,
    message: &mut [u8],
    signature: &mut [u8],
    out: &mut SignatureOut,
) -> Result<(), AskError>
    requires registration { flag_of call.now.is_registration ≡ true }
    requires object { ObjectOf (lent_object_view object.now) call.now.registration.object.now }
    ensures told { OnOk result (Tells call.now out.new message.new signature.new out.new.is_asked) }
    ensures refused { IfErr result (IsUntold call.now (length message.old) (length signature.old)) }
    ensures untouched { OnErr result ((out.new ≡ out.old) × (message.new ≡ message.old) × (signature.new ≡ signature.old)) }
{
    let profile = profile_from(call.profile);
    let Some(key) = attested_key(profile, object.auth_data) else {
        return Err(AskError::Unreadable);
    };
    let asked = call.attestation != 0;
    let Some(self_signature) = counted_signature(profile, asked, object, &key) else {
        out.is_asked = false;
        return Ok(());
    };
    let asked = AskedSignature {
        key,
        auth_data: object.auth_data,
        hash: hash(call.registration.client_data),
        signature: self_signature,
    };
    match tell(&asked, message, signature, out) {
        Ok(()) => Ok(()),
        Err(limit) => Err(AskError::Limit(limit)),
    }
}

/// Tells the signature that a registration asks for, or that it asks for none.
fn tell_registration(
    call: &SignatureCall<'_>,
    message: &mut [u8],
    signature: &mut [u8],
    out: &mut SignatureOut,
) -> Result<(), AskError>
    requires { flag_of call.now.is_registration ≡ true }
    ensures told { OnOk result (Tells call.now out.new message.new signature.new out.new.is_asked) }
    ensures refused { IfErr result (IsUntold call.now (length message.old) (length signature.old)) }
    ensures untouched { OnErr result ((out.new ≡ out.old) × (message.new ≡ message.old) × (signature.new ≡ signature.old)) }
{
    match AttestationView::read(call.registration.object) {
        Some(object) => tell_object(call, &object, message, signature, out),
        None => Err(AskError::Unreadable),
    }
}

/// Tells the signature that a sign-in asks for.
fn tell_sign_in(
    call: &SignatureCall<'_>,
    message: &mut [u8],
    signature: &mut [u8],
    out: &mut SignatureOut,
) -> Result<(), Limit>
    requires { flag_of call.now.is_registration ≡ false }
    ensures told { OnOk result (Tells call.now out.new message.new signature.new out.new.is_asked) }
    ensures kept { OnOk result (AskKeeps false call.now) }
    ensures refused { IfErr result (IsBroken call.now (length message.old) (length signature.old)) }
    ensures untouched { OnErr result ((out.new ≡ out.old) × (message.new ≡ message.old) × (signature.new ≡ signature.old)) }
{
    match key_from(&call.key) {
        Ok(key) => {
            let asked = AskedSignature {
                key,
                auth_data: call.assertion.auth_data,
                hash: hash(call.assertion.client_data),
                signature: call.assertion.signature,
            };
            match tell(&asked, message, signature, out) {
                Ok(()) => Ok(()),
                Err(limit) => Err(limit),
            }
        }
        Err(KeyLimit::Algorithm) => Err(Limit::KeyAlgorithm),
        Err(KeyLimit::X) => Err(Limit::KeyX),
        Err(KeyLimit::Y) => Err(Limit::KeyY),
    }
}

/// Tells which signature the host is to verify: 0 where it is answered, or that there is none; 7 where a registration attests
/// nothing; 104 to 106 where a sign-in's key is out of its limits; 110 or 111 where a room is too small; 112 where a
/// registration's profile is not known. It takes no memory.
pub fn passkey_signature_asked(
    call: &SignatureCall<'_>,
    message: &mut [u8],
    signature: &mut [u8],
    out: &mut SignatureOut,
) -> u32
    ensures { IsSignatureAsked call.now (record { out = out.old; message = message.old; signature = signature.old })
        (record { out = out.new; message = message.new; signature = signature.new }) result }
{
    let told = if call.is_registration == 0 {
        match tell_sign_in(call, message, signature, out) {
            Ok(()) => Ok(()),
            Err(limit) => Err(AskError::Limit(limit)),
        }
    } else if is_profile(call.profile) {
        tell_registration(call, message, signature, out)
    } else {
        Err(AskError::Limit(Limit::Profile))
    };
    match told {
        Ok(()) => ACCEPTED,
        Err(error) => error.number(),
    }
}
