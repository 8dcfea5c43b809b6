//! The calls of `passkey_c` as C has them: each is that crate's, under its name and the number of the ABI.
#![tactic(auto)]

ghost use Rattle.std.specs.Prelude.{◌≡◌, ◌↔◌, IsTrue};
ghost use Rattle.passkey_c.specs.Answers.{IsAssertion, IsCanonical, IsChallenge, IsChallengeText, IsKeyFromCose, IsKeyToCose, IsRefusalText, IsRegistration, IsSignatureAsked, abi_version, version};
ghost use Rattle.passkey_c.specs.Parts.{flag_of};

use passkey_c::parts::{
    AssertionCall, AssertionOut, KeyOut, KeyParts, RegistrationCall, RegistrationOut,
    SignatureCall, SignatureOut,
};
use passkey_c::{asked, assertion, keys, registration, small, texts};
use std::alloc::Global;

#[unsafe(no_mangle)]
pub extern "C" fn passkey_signature_asked_5(
    call: &SignatureCall<'_>,
    message: &mut [u8],
    signature: &mut [u8],
    out: &mut SignatureOut,
) -> u32
    ensures { IsSignatureAsked call.now (record { out = out.old; message = message.old; signature = signature.old })
        (record { out = out.new; message = message.new; signature = signature.new }) result }
{
    asked::passkey_signature_asked(call, message, signature, out)
}

#[unsafe(no_mangle)]
pub extern "C" fn passkey_assertion_5(
    alloc: Global,
    call: &AssertionCall<'_>,
    out: &mut AssertionOut,
) -> u32
    ensures { IsAssertion call.now out.old out.new result }
{
    assertion::passkey_assertion(alloc, call, out)
}

#[unsafe(no_mangle)]
pub extern "C" fn passkey_registration_5(
    alloc: Global,
    call: &RegistrationCall<'_>,
    out: &mut RegistrationOut,
) -> u32
    ensures { IsRegistration call.now out.old out.new result }
{
    registration::passkey_registration(alloc, call, out)
}

#[unsafe(no_mangle)]
pub extern "C" fn passkey_key_from_cose_5(bytes: &[u8], out: &mut KeyOut) -> bool
    ensures { IsKeyFromCose bytes.now out.old out.new result }
{
    keys::passkey_key_from_cose(bytes, out)
}

#[unsafe(no_mangle)]
pub extern "C" fn passkey_key_to_cose_5(alloc: Global, key: &KeyParts<'_>, room: &mut [u8]) -> usize
    ensures { IsKeyToCose key.now room.old room.new result }
{
    keys::passkey_key_to_cose(alloc, key, room)
}

#[unsafe(no_mangle)]
pub extern "C" fn passkey_abi_version() -> u32
    ensures { result ≡ abi_version }
{
    small::passkey_abi_version()
}

#[unsafe(no_mangle)]
pub extern "C" fn passkey_version() -> u32
    ensures { result ≡ version }
{
    small::passkey_version()
}

#[unsafe(no_mangle)]
pub extern "C" fn passkey_is_canonical_5(bytes: &[u8]) -> bool
    ensures { IsTrue result ↔ IsCanonical bytes.now }
{
    small::passkey_is_canonical(bytes)
}

#[unsafe(no_mangle)]
pub extern "C" fn passkey_challenge_5(session: u64, words: &[u8], challenge: &mut [u8]) -> bool
    ensures { IsChallenge session words.now challenge.old challenge.new result }
{
    small::passkey_challenge(session, words, challenge)
}

#[unsafe(no_mangle)]
pub extern "C" fn passkey_challenge_text_5(challenge: &[u8], text: &mut [u8]) -> bool
    ensures { IsChallengeText challenge.now text.old text.new result }
{
    small::passkey_challenge_text(challenge, text)
}

#[unsafe(no_mangle)]
pub extern "C" fn passkey_refusal_text_5(
    is_registration: u32,
    answer: u32,
    room: &mut [u8],
) -> usize
    ensures { IsRefusalText (flag_of is_registration) answer room.old room.new result }
{
    texts::passkey_refusal_text(is_registration, answer, room)
}
