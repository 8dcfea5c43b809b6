//! What a host passes, as values of the crates below.

ghost use Rattle.std.specs.Prelude.{◌≡◌, ◌≢◌, ◌↔◌, ◌≤◌, IfErr, IfOk, IfSome, IsTrue, None, OnOk, Some, length, map, option_map};
ghost use Rattle.refusal_order.specs.Lines.{Each};
ghost use Rattle.cose.specs.Keys.{lent_key_view};
ghost use Rattle.passkey_c.specs.Limits.{AreTexts, IsFault, KeyKeeps, PartyKeeps, key_order, party_limits};
ghost use Rattle.passkey_c.specs.Parts.{Fills, IsAlg, IsProfile, TellsKey, alg_in, flag_of, given, key_of, lent, party_of, profile_of};

use crate::answers::{InputFault, Limit};
use crate::parts::{Bytes, KeyOut, KeyParts, PartyParts};
use cose::{Alg, KeyView};
use std::alloc::{AllocError, Global};
use std::str;
use verification::{Coordinate, Profile, RelyingParty};

/// A member of a key that is out of its limits.
#[derive(Clone, Copy, Debug, PartialEq, Eq, Drop)]
pub enum KeyLimit {
    Algorithm,
    X,
    Y,
}

/// The bytes, where they are 32.
pub(crate) fn exactly_32(bytes: &[u8]) -> Option<[u8; 32]>
    ensures found { IfSome result (λ all. all ≡ bytes.now) }
    ensures none { result ≡ None → length bytes.now ≢ 32 }
{
    match <[u8; 32]>::try_from(bytes) {
        Ok(all) => Some(all),
        Err(_) => None,
    }
}

/// The algorithm of a COSE number.
#[tactic(auto, using(crate::proofs::Algorithms::known_alg, crate::proofs::Algorithms::unknown_alg))]
pub(crate) fn algorithm_of(number: i32) -> Option<Alg>
    ensures same { result ≡ alg_in number }
    ensures is { IfSome result (λ _. IsAlg number) }
    ensures none { result ≡ None → IsAlg number → ⊥ }
{
    match Alg::from_number(i64::from(number)) {
        Some(alg) => Some(alg),
        None => None,
    }
}

/// Writes bytes to the front of a room, and tells how many they are.
pub(crate) fn write_front(bytes: &[u8], room: &mut [u8]) -> usize
    requires { length bytes.now ≤ length room.old }
    ensures front { Fills result room.new bytes.now }
    ensures same { length room.new ≡ length room.old }
{
    let size = bytes.len();
    room[..size].copy_from_slice(bytes);
    size
}

/// Tells a public key.
pub(crate) fn write_key(key: &KeyView<'_>, out: &mut KeyOut)
    ensures { TellsKey out.new (lent_key_view key.now) }
{
    match key {
        KeyView::Es256 { x, y } => {
            out.algorithm = -7;
            out.x_size = write_front(x, &mut out.x);
            out.y_size = write_front(y, &mut out.y);
        }
        KeyView::EdDsa { x } => {
            out.algorithm = -8;
            out.x_size = write_front(x, &mut out.x);
            out.y_size = 0;
        }
        KeyView::Rs256(key) => {
            out.algorithm = -257;
            out.x_size = write_front(key.n, &mut out.x);
            out.y_size = write_front(key.e, &mut out.y);
        }
    }
}

/// The public key of these coordinates or numbers, where they lie.
pub(crate) fn key_from<'a>(parts: &KeyParts<'a>) -> Result<KeyView<'a>, KeyLimit>
    ensures found { IfOk result (λ key. key_of parts.now ≡ Some (lent_key_view key)) }
    ensures kept { OnOk result (Each (KeyKeeps parts.now) key_order) }
    ensures refused { IfErr result (λ limit. KeyKeeps parts.now limit → ⊥) }
{
    let Some(alg) = algorithm_of(parts.algorithm) else {
        return Err(KeyLimit::Algorithm);
    };
    match verification::key_from(alg, parts.x, parts.y) {
        Ok(key) => Ok(key),
        Err(Coordinate::X) => Err(KeyLimit::X),
        Err(Coordinate::Y) => Err(KeyLimit::Y),
    }
}

/// Copies of what is lent.
pub(crate) fn copies(alloc: Global, parts: &[Bytes<'_>]) -> Result<Vec<Vec<u8>>, AllocError>
    ensures { IfOk result (λ copies. map (λ copy. copy.items) copies.items ≡ lent parts.now) }
{
    let mut copies = Vec::with_capacity(alloc, parts.len())?;
    for part in parts {
        copies.push(Vec::from_slice(alloc, part.bytes)?)?;
    }
    Ok(copies)
}

/// A copy of what is lent, where it is there.
pub(crate) fn copy_of(
    alloc: Global,
    is_there: bool,
    bytes: &[u8],
) -> Result<Option<Vec<u8>>, AllocError>
    ensures { IfOk result (λ copy. option_map (λ bytes. bytes.items) copy ≡ given is_there bytes.now) }
{
    if is_there {
        Ok(Some(Vec::from_slice(alloc, bytes)?))
    } else {
        Ok(None)
    }
}

/// The parts as texts; a part that is none breaks this limit.
fn texts<'a>(alloc: Global, parts: &[Bytes<'a>], limit: Limit) -> Result<Vec<&'a str>, InputFault>
    ensures found { IfOk result (λ texts. map (λ text. text.now) texts.items ≡ lent parts.now) }
    ensures kept { OnOk result (AreTexts parts.now) }
    ensures refused { IfErr result (IsFault (λ broken. broken ≡ limit → AreTexts parts.now)) }
{
    let mut texts = Vec::with_capacity(alloc, parts.len())?;
    for part in parts {
        let Ok(text) = str::from_utf8(part.bytes) else {
            return Err(InputFault::Limit(limit));
        };
        if texts.push(text).is_err() {
            return Err(InputFault::Memory);
        }
    }
    Ok(texts)
}

/// The profile of its number, of one of the three.
pub(crate) fn profile_from(number: u8) -> Profile
    ensures { result ≡ profile_of number }
{
    match number {
        0 => Profile::Strict,
        1 => Profile::Open,
        _ => Profile::Level3,
    }
}

/// Whether the number is a profile's.
pub(crate) fn is_profile(number: u8) -> bool
    ensures { IsTrue result ↔ IsProfile number }
{
    number < 3
}

/// The relying party that is passed.
pub(crate) fn party_from(alloc: Global, parts: &PartyParts<'_>) -> Result<RelyingParty, InputFault>
    ensures found { IfOk result (λ party. party ≡ party_of parts.now) }
    ensures kept { OnOk result (Each (PartyKeeps parts.now) party_limits) }
    ensures refused { IfErr result (IsFault (PartyKeeps parts.now)) }
{
    let Ok(rp_id) = str::from_utf8(parts.rp_id) else {
        return Err(InputFault::Limit(Limit::RpId));
    };
    let origins = texts(alloc, parts.origins, Limit::Origin)?;
    if !is_profile(parts.profile) {
        return Err(InputFault::Limit(Limit::Profile));
    }
    let profile = profile_from(parts.profile);
    let top_origins = texts(alloc, parts.top_origins, Limit::TopOrigin)?;
    match RelyingParty::framed_by(alloc, profile, rp_id, &origins, &top_origins) {
        Ok(party) => Ok(party),
        Err(_) => Err(InputFault::Memory),
    }
}
