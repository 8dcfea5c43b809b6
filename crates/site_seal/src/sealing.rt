//! Sealing a session.

ghost use Rattle.std.specs.Prelude.{◌≡◌, ◌≤◌, ◌↔◌, [], ◌∷◌, ◌++◌, length, map, IfOk, IsErrOf, IsTrue, OnOk, option_map};
ghost use Rattle.std.specs.Int.{w64, to_be_bytes};
ghost use Rattle.std.specs.List.{AllByRecursion, concat, list_any};
ghost use Rattle.verification.specs.Views.{registration_view, sign_in_view};
ghost use Rattle.site_seal.specs.Hmac.{hmac_sha256};
ghost use Rattle.site_seal.specs.Seal.{AreInOrder, IsRegistration, IsSession, IsSignIn, IsWithin};
ghost use Rattle.site_seal.specs.Seal.{flag, id_hash, in_order, is_ed_dsa, is_es256, is_rs256, ordered, sealed_sign_in, sealed_text, text_of, user_bytes, user_hash};
ghost use Rattle.site_seal.specs.Seal.{registration, registration_bytes, sign_in, sign_in_bytes};
ghost use Rattle.site_seal.specs.declared.error.SealError.TheVariants as errors;

use crate::error::SealError;
use crate::hmac::hmac_sha256;
use crate::session::{id_hash, user_hash};
use cose::Alg;
use std::alloc::{AllocError, Global};
use verification::{RegistrationSession, SignInSession};

/// The most bytes of a user handle.
pub(crate) const MAX_USER: usize = 64;

/// The most bytes of a credential id.
const MAX_ID: usize = 1_023;

/// The most credentials that a sign-in lists.
pub(crate) const MAX_LISTED: usize = 64;

/// The first byte of a registration's text.
pub(crate) const REGISTRATION: u8 = 1;

/// The first byte of a sign-in's text.
pub(crate) const SIGN_IN: u8 = 2;

/// Whether bytes are 1 to `most`.
pub(crate) fn is_within(bytes: &[u8], most: usize) -> bool
    ensures { IsTrue result ↔ IsWithin most bytes.now }
{
    1 <= bytes.len() && bytes.len() <= most
}

/// Each algorithm that is offered, once and in order.
pub(crate) fn in_order(es256: bool, ed_dsa: bool, rs256: bool) -> &'static [Alg]
    ensures is { result.now ≡ in_order es256 ed_dsa rs256 }
    ensures ordered { AreInOrder result.now }
{
    match (es256, ed_dsa, rs256) {
        (false, false, false) => &[],
        (false, false, true) => &[Alg::Rs256],
        (false, true, false) => &[Alg::EdDsa],
        (false, true, true) => &[Alg::EdDsa, Alg::Rs256],
        (true, false, false) => &[Alg::Es256],
        (true, false, true) => &[Alg::Es256, Alg::Rs256],
        (true, true, false) => &[Alg::Es256, Alg::EdDsa],
        (true, true, true) => &[Alg::Es256, Alg::EdDsa, Alg::Rs256],
    }
}

fn offers_es256(offered: &[Alg]) -> bool
    ensures { result ≡ list_any is_es256 offered.now }
{
    offered.iter().any(|a| matches!(a, Alg::Es256))
}

fn offers_ed_dsa(offered: &[Alg]) -> bool
    ensures { result ≡ list_any is_ed_dsa offered.now }
{
    offered.iter().any(|a| matches!(a, Alg::EdDsa))
}

fn offers_rs256(offered: &[Alg]) -> bool
    ensures { result ≡ list_any is_rs256 offered.now }
{
    offered.iter().any(|a| matches!(a, Alg::Rs256))
}

/// The algorithms that are offered, each once and in the order ES256, EdDSA, RS256, as a text has them.
pub fn algorithms_in_order(offered: &[Alg]) -> &'static [Alg]
    ensures same { result.now ≡ ordered offered.now }
    ensures ordered { AreInOrder result.now }
{
    in_order(
        offers_es256(offered),
        offers_ed_dsa(offered),
        offers_rs256(offered),
    )
}

/// Whether these are some of ES256, EdDSA and RS256, each at most once and in this order.
fn are_in_order(offered: &[Alg]) -> bool
    ensures { IsTrue result ↔ AreInOrder offered.now }
{
    offered == algorithms_in_order(offered)
}

/// The byte of a truth value.
fn flag(truth: bool) -> u8
    ensures { result ≡ flag truth }
{
    u8::from(truth)
}

/// The front of a text: the ceremony, when it ends, and its challenge.
fn front(alloc: Global, kind: u8, ends: u64, challenge: &[u8; 32]) -> Result<Vec<u8>, AllocError>
    ensures front { IfOk result (λ v. v.items ≡ kind ∷ (to_be_bytes w64 ends ++ challenge.now)) }
    ensures challenge { OnOk result (length challenge.now ≡ 32) }
{
    let mut text = Vec::from_slice(alloc, &[kind])?;
    text.extend_from_slice(&ends.to_be_bytes())?;
    text.extend_from_slice(challenge)?;
    Ok(text)
}

/// The hash that is put behind a text.
pub(crate) fn seal_of(key: &[u8; 32], rp_id_hash: &[u8; 32], text: &[u8]) -> [u8; 32]
    ensures { result ≡ hmac_sha256 key.now (1 ∷ (rp_id_hash.now ++ text.now)) }
{
    hmac_sha256(key, &[&[1], rp_id_hash, text])
}

/// The text with its hash.
fn with_seal(key: &[u8; 32], rp_id_hash: &[u8; 32], text: Vec<u8>) -> Result<Vec<u8>, AllocError>
    ensures { IfOk result (λ v. v.items ≡ text.items ++ hmac_sha256 key.now (1 ∷ (rp_id_hash.now ++ text.items))) }
{
    let mut text = text;
    let seal = seal_of(key, rp_id_hash, &text);
    text.extend_from_slice(&seal)?;
    Ok(text)
}

/// A registration's text.
fn registration_text(
    alloc: Global,
    ends: u64,
    session: &RegistrationSession,
) -> Result<Vec<u8>, AllocError>
    requires { length session.now.user.items ≤ 64 }
    ensures challenge { OnOk result (length session.now.challenge ≡ 32) }
    ensures text { IfOk result (λ v. v.items ≡ text_of 1 ends session.now.challenge (registration_bytes (registration_view session.now))) }
{
    let offered = session.algorithms.as_slice();
    let mut text = front(alloc, REGISTRATION, ends, &session.challenge)?;
    text.extend_from_slice(&[
        flag(session.uv),
        flag(session.conditional),
        flag(session.attestation),
        flag(offers_es256(offered)),
        flag(offers_ed_dsa(offered)),
        flag(offers_rs256(offered)),
        session.user.len() as u8,
    ])?;
    text.extend_from_slice(&session.user)?;
    Ok(text)
}

/// The sealed text of a registration that ends at the second `ends`. `rp_id_hash` is SHA-256 of the rp id.
///
/// `BadInput` where the user handle is not of 1 to 64 bytes, or the algorithms are not some of ES256, EdDSA and RS256 in this
/// order.
pub fn seal_registration(
    alloc: Global,
    key: &[u8; 32],
    rp_id_hash: &[u8; 32],
    ends: u64,
    session: &RegistrationSession,
) -> Result<Vec<u8>, SealError>
    ensures sealed { IfOk result (λ text. text.items
        ≡ sealed_text key.now rp_id_hash.now (record { ends = ends; ceremony = registration (registration_view session.now) })) }
    ensures session { OnOk result (IsSession (record { ends = ends; ceremony = registration (registration_view session.now) })) }
    // It is refused only where it is not within the limits.
    ensures refused { IsErrOf result errors.BadInput → IsRegistration (registration_view session.now) → ⊥ }
{
    if !is_within(&session.user, MAX_USER) || !are_in_order(&session.algorithms) {
        return Err(SealError::BadInput);
    }
    let text = registration_text(alloc, ends, session)?;
    Ok(with_seal(key, rp_id_hash, text)?)
}

/// Whether each id is of 1 to 1,023 bytes.
fn are_ids(ids: &[Vec<u8>]) -> bool
    ensures { IsTrue result ↔ AllByRecursion (IsWithin 1023) (map (λ id. id.items) ids.now) }
{
    for id in ids {
        if !is_within(id, MAX_ID) {
            return false;
        }
    }
    true
}

/// Whether a sign-in is within the limits.
fn is_sign_in(session: &SignInSession) -> bool
    ensures { IsTrue result ↔ IsSignIn (sign_in_view session.now) }
{
    if let Some(user) = &session.user {
        if !is_within(user, MAX_USER) {
            return false;
        }
    }
    session.allow.len() <= MAX_LISTED && are_ids(&session.allow)
}

/// Appends the user, where one is named, as its hash.
fn push_user(text: &mut Vec<u8>, key: &[u8; 32], session: &SignInSession) -> Result<(), AllocError>
    ensures { OnOk result (text.new.items ≡ text.old.items
        ++ user_bytes (option_map (user_hash key.now session.now.challenge) (option_map (λ u. u.items) session.now.user))) }
{
    match &session.user {
        None => text.push(0)?,
        Some(user) => {
            text.push(1)?;
            text.extend_from_slice(&user_hash(key, &session.challenge, user))?;
        }
    }
    Ok(())
}

/// Appends the hashes of the ids.
fn push_ids(text: &mut Vec<u8>, key: &[u8; 32], session: &SignInSession) -> Result<(), AllocError>
    ensures { OnOk result (text.new.items ≡ text.old.items
        ++ concat (map (id_hash key.now session.now.challenge) (map (λ id. id.items) session.now.allow.items))) }
{
    for id in &session.allow {
        text.extend_from_slice(&id_hash(key, &session.challenge, id))?;
    }
    Ok(())
}

/// A sign-in's text.
fn sign_in_text(
    alloc: Global,
    key: &[u8; 32],
    ends: u64,
    session: &SignInSession,
) -> Result<Vec<u8>, AllocError>
    requires { length session.now.allow.items ≤ 64 }
    ensures challenge { OnOk result (length session.now.challenge ≡ 32) }
    ensures text { IfOk result (λ v. v.items
        ≡ text_of 2 ends session.now.challenge (sign_in_bytes (sealed_sign_in key.now (sign_in_view session.now)))) }
{
    let mut text = front(alloc, SIGN_IN, ends, &session.challenge)?;
    text.push(flag(session.uv))?;
    push_user(&mut text, key, session)?;
    text.push(session.allow.len() as u8)?;
    push_ids(&mut text, key, session)?;
    Ok(text)
}

/// The sealed text of a sign-in that ends at the second `ends`. `rp_id_hash` is SHA-256 of the rp id. The user's handle and
/// the ids stand in it as hashes that the key alone makes.
///
/// `BadInput` where the user handle is not of 1 to 64 bytes, an id not of 1 to 1,023, or more than 64 ids are listed.
pub fn seal_sign_in(
    alloc: Global,
    key: &[u8; 32],
    rp_id_hash: &[u8; 32],
    ends: u64,
    session: &SignInSession,
) -> Result<Vec<u8>, SealError>
    ensures sealed { IfOk result (λ text. text.items ≡ sealed_text key.now rp_id_hash.now
        (record { ends = ends; ceremony = sign_in (sealed_sign_in key.now (sign_in_view session.now)) })) }
    ensures limits { OnOk result (IsSignIn (sign_in_view session.now)) }
    ensures session { OnOk result (IsSession
        (record { ends = ends; ceremony = sign_in (sealed_sign_in key.now (sign_in_view session.now)) })) }
    // It is refused only where it is not within the limits.
    ensures refused { IsErrOf result errors.BadInput → IsSignIn (sign_in_view session.now) → ⊥ }
{
    if !is_sign_in(session) {
        return Err(SealError::BadInput);
    }
    let text = sign_in_text(alloc, key, ends, session)?;
    Ok(with_seal(key, rp_id_hash, text)?)
}
