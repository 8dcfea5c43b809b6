//! Opening a sealed text.

ghost use Rattle.std.specs.Prelude.{◌≡◌, ◌<◌, ℕ, List, Bool, Option, ◌++◌, length, IfNone, IfOk, IfSome, IsNone, MatchOption};
ghost use Rattle.std.specs.List.{AllByRecursion, concat};
ghost use Rattle.verification.specs.Records.{ExpectedRegistration};
ghost use Rattle.verification.specs.Views.{registration_view};
ghost use Rattle.site_seal.specs.Seal.{IsHash, IsRegistration, IsSealedSignIn, IsSession, SealedSignIn, Session};
ghost use Rattle.site_seal.specs.Seal.{flag, registration_bytes, sealed_text, sign_in_bytes, spelled, text_of, user_bytes};
ghost use Rattle.site_seal.specs.Views.{sealed_view, session_view};

use crate::hmac::are_equal;
use crate::sealing::{MAX_LISTED, MAX_USER, REGISTRATION, SIGN_IN, in_order, is_within, seal_of};
use crate::session::{Opened, OpenedCeremony, OpenedSignIn};
use std::alloc::{AllocError, Global};
use verification::RegistrationSession;

/// The front of a text, and what follows it.
#[derive(Drop)]
struct Front<'a> {
    kind: u8,
    ends: u64,
    challenge: [u8; 32],
    rest: &'a [u8],
}

/// The front of a text.
fn front_of(text: &[u8]) -> Option<Front<'_>>
    ensures parts { MatchOption result (length text.now < 41) (λ x. text.now ≡ text_of x.kind x.ends x.challenge x.rest.now) }
    ensures challenge { IfSome result (λ x. length x.challenge ≡ 32) }
{
    let (kind, rest) = text.split_first()?;
    let (ends, rest) = rest.split_first_chunk::<8>()?;
    let (challenge, rest) = rest.split_first_chunk::<32>()?;
    Some(Front {
        kind: *kind,
        ends: u64::from_be_bytes(*ends),
        challenge: *challenge,
        rest,
    })
}

/// The truth value that has this byte.
fn truth(byte: u8) -> Option<bool>
    ensures { MatchOption result ((b : Bool) → byte ≡ flag b → ⊥) (λ b. byte ≡ flag b) }
{
    match byte {
        0 => Some(false),
        1 => Some(true),
        _ => None,
    }
}

/// The registration that is spelled by these bytes after this challenge.
fn registration_in(
    alloc: Global,
    challenge: &[u8; 32],
    rest: &[u8],
) -> Result<Option<RegistrationSession>, AllocError>
    ensures found { IfOk result (λ o. IfSome o (λ e. IsRegistration (registration_view e)
        × (rest.now ≡ registration_bytes (registration_view e)) × (e.challenge ≡ challenge.now))) }
    ensures none { IfOk result (λ o. IfNone o
        ((e : ExpectedRegistration) → IsRegistration e → rest.now ≡ registration_bytes e → ⊥)) }
{
    let [
        uv,
        conditional,
        attestation,
        es256,
        ed_dsa,
        rs256,
        length,
        user @ ..,
    ] = rest
    else {
        return Ok(None);
    };
    let Some(uv) = truth(*uv) else {
        return Ok(None);
    };
    let Some(conditional) = truth(*conditional) else {
        return Ok(None);
    };
    let Some(attestation) = truth(*attestation) else {
        return Ok(None);
    };
    let Some(es256) = truth(*es256) else {
        return Ok(None);
    };
    let Some(ed_dsa) = truth(*ed_dsa) else {
        return Ok(None);
    };
    let Some(rs256) = truth(*rs256) else {
        return Ok(None);
    };
    if usize::from(*length) != user.len() || !is_within(user, MAX_USER) {
        return Ok(None);
    }
    Ok(Some(RegistrationSession {
        user: Vec::from_slice(alloc, user)?,
        algorithms: Vec::from_slice(alloc, in_order(es256, ed_dsa, rs256))?,
        uv,
        challenge: *challenge,
        conditional,
        attestation,
    }))
}

/// The user's hash at the front of these bytes, where a user is named, and what follows it.
fn user_in(bytes: &[u8]) -> Option<(Option<[u8; 32]>, &[u8])>
    ensures found { IfSome result (λ x. (bytes.now ≡ user_bytes x.0 ++ x.1.now) × IfSome x.0 IsHash) }
    ensures none { IsNone result → (user : Option (List ℕ)) (rest : List ℕ) → IfSome user IsHash
        → bytes.now ≡ user_bytes user ++ rest → ⊥ }
{
    match bytes {
        [0, rest @ ..] => Some((None, rest)),
        [1, rest @ ..] => {
            let (hash, rest) = rest.split_first_chunk::<32>()?;
            Some((Some(*hash), rest))
        }
        _ => None,
    }
}

/// The hashes that these bytes are, as far as they go.
fn hashes_in(alloc: Global, bytes: &[u8]) -> Result<Vec<[u8; 32]>, AllocError>
    ensures joined { IfOk result (λ v. (rest : List ℕ) × (concat v.items ++ rest ≡ bytes.now) × (length rest < 32)) }
    ensures each { IfOk result (λ v. AllByRecursion IsHash v.items) }
{
    let mut rest = bytes;
    let mut hashes = Vec::new(alloc);
    while let Some((hash, after)) = rest.split_first_chunk::<32>() {
        hashes.push(*hash)?;
        rest = after;
    }
    Ok(hashes)
}

/// The sign-in that is spelled by these bytes after this challenge.
fn sign_in_in(
    alloc: Global,
    challenge: &[u8; 32],
    rest: &[u8],
) -> Result<Option<OpenedSignIn>, AllocError>
    ensures found { IfOk result (λ o. IfSome o (λ s. IsSealedSignIn (sealed_view s)
        × (rest.now ≡ sign_in_bytes (sealed_view s)) × (s.challenge ≡ challenge.now))) }
    ensures none { IfOk result (λ o. IfNone o
        ((s : SealedSignIn) → IsSealedSignIn s → rest.now ≡ sign_in_bytes s → ⊥)) }
{
    let [uv, rest @ ..] = rest else {
        return Ok(None);
    };
    let Some(uv) = truth(*uv) else {
        return Ok(None);
    };
    let Some((user, rest)) = user_in(rest) else {
        return Ok(None);
    };
    let [count, hashes @ ..] = rest else {
        return Ok(None);
    };
    let count = usize::from(*count);
    if MAX_LISTED < count || hashes.len() != 32 * count {
        return Ok(None);
    }
    Ok(Some(OpenedSignIn {
        user,
        allow: hashes_in(alloc, hashes)?,
        uv,
        challenge: *challenge,
    }))
}

/// The session that a text spells.
fn session_in(alloc: Global, text: &[u8]) -> Result<Option<Opened>, AllocError>
    ensures found { IfOk result (λ o. IfSome o (λ x. IsSession (session_view x) × (text.now ≡ spelled (session_view x)))) }
    ensures none { IfOk result (λ o. IfNone o ((s : Session) → IsSession s → text.now ≡ spelled s → ⊥)) }
{
    let Some(front) = front_of(text) else {
        return Ok(None);
    };
    let ceremony = match front.kind {
        REGISTRATION => match registration_in(alloc, &front.challenge, front.rest)? {
            Some(session) => OpenedCeremony::Registration(session),
            None => return Ok(None),
        },
        SIGN_IN => match sign_in_in(alloc, &front.challenge, front.rest)? {
            Some(session) => OpenedCeremony::SignIn(session),
            None => return Ok(None),
        },
        _ => return Ok(None),
    };
    Ok(Some(Opened {
        ends: front.ends,
        ceremony,
    }))
}

/// The session whose text this key sealed for this rp id; none where the bytes are no such text. `rp_id_hash` is SHA-256 of the
/// rp id.
pub fn open(
    alloc: Global,
    key: &[u8; 32],
    rp_id_hash: &[u8; 32],
    bytes: &[u8],
) -> Result<Option<Opened>, AllocError>
    ensures opened { IfOk result (λ o. IfSome o (λ x. IsSession (session_view x)
        × (bytes.now ≡ sealed_text key.now rp_id_hash.now (session_view x)))) }
    // It opens every text that the key sealed for the rp id.
    ensures none { IfOk result (λ o. IfNone o
        ((s : Session) → IsSession s → bytes.now ≡ sealed_text key.now rp_id_hash.now s → ⊥)) }
{
    let Some((text, seal)) = bytes.split_last_chunk::<32>() else {
        return Ok(None);
    };
    if !are_equal(seal, &seal_of(key, rp_id_hash, text)) {
        return Ok(None);
    }
    session_in(alloc, text)
}
