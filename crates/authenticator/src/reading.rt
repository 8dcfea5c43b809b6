//! Reading the members of a saved authenticator's maps, where they lie.

ghost use Rattle.std.specs.Prelude.{◌≡◌, ◌≤◌, length, option_map};
ghost use Rattle.ccbor.specs.Viewing.{shown, shown_pairs};
ghost use Rattle.authenticator.specs.Private.{alg_in, after_secret, counter_in, members_in, members_shown, sized_in, source_in, source_shown};

use crate::members::{SavedMembers, SourceView};
use ccbor::{MapKey, MapView, View};
use cose::SigningAlg;

/// The version of what is saved.
pub(crate) const VERSION: u64 = 1;

/// The 32 bytes.
fn bytes_32(value: &View<'_>) -> Option<[u8; 32]>
    ensures { result ≡ sized_in 32 32 (shown value.now) }
{
    <[u8; 32]>::try_from(value.as_bytes()?).ok()
}

/// The 16 bytes.
fn bytes_16(value: &View<'_>) -> Option<[u8; 16]>
    ensures { result ≡ sized_in 16 16 (shown value.now) }
{
    <[u8; 16]>::try_from(value.as_bytes()?).ok()
}

/// The user handle.
fn user<'a>(value: &View<'a>) -> Option<&'a [u8]>
    ensures { option_map (λ b. b.now) result ≡ sized_in 1 64 (shown value.now) }
{
    let user = value.as_bytes()?;
    if user.is_empty() || 64 < user.len() {
        return None;
    }
    Some(user)
}

/// The algorithm of a COSE number (RFC 9053 section 2).
fn alg(value: &View<'_>) -> Option<SigningAlg>
    ensures { result ≡ alg_in (shown value.now) }
{
    match value.as_nint()? {
        6 => Some(SigningAlg::Es256),
        7 => Some(SigningAlg::EdDsa),
        _ => None,
    }
}

/// The signature counter.
fn sign_count(value: &View<'_>) -> Option<u32>
    ensures { result ≡ counter_in (shown value.now) }
{
    u32::try_from(value.as_uint()?).ok()
}

/// The credential of these parts, whose map goes on with these members.
fn after_secret<'a>(
    id: [u8; 32],
    rp_id: &'a str,
    user: &'a [u8],
    secret: [u8; 32],
    rest: &MapView<'a>,
) -> Option<SourceView<'a>>
    requires low { 1 ≤ length user.now }
    requires high { length user.now ≤ 64 }
    ensures { option_map source_shown result ≡ after_secret id rp_id.now user.now secret (shown_pairs rest.now) }
{
    let (held, rest) = rest.split_key(MapKey::Uint(5))?;
    let alg = alg(&held)?;
    let (held, rest) = rest.split_key(MapKey::Uint(6))?;
    let resident = held.as_bool()?;
    let (held, rest) = rest.split_key(MapKey::Uint(7))?;
    let sign_count = sign_count(&held)?;
    if !rest.is_end() {
        return None;
    }
    Some(SourceView {
        id,
        rp_id,
        user,
        secret,
        alg,
        resident,
        sign_count,
    })
}

/// The credential that has this map.
#[tactic(auto, unfolding(crate::specs::Private::source_in))]
pub(crate) fn source<'a>(value: &View<'a>) -> Option<SourceView<'a>>
    ensures { option_map source_shown result ≡ source_in (shown value.now) }
{
    let rest = value.as_map()?;
    let (held, rest) = rest.split_key(MapKey::Uint(1))?;
    let id = bytes_32(&held)?;
    let (held, rest) = rest.split_key(MapKey::Uint(2))?;
    let rp_id = held.as_text()?;
    let (held, rest) = rest.split_key(MapKey::Uint(3))?;
    let user = user(&held)?;
    let (held, rest) = rest.split_key(MapKey::Uint(4))?;
    let secret = bytes_32(&held)?;
    after_secret(id, rp_id, user, secret, &rest)
}

/// The members of an authenticator's map.
#[tactic(auto, unfolding(crate::specs::Private::members_in))]
pub(crate) fn members<'a>(value: &View<'a>) -> Option<SavedMembers<'a>>
    ensures { option_map members_shown result ≡ members_in (shown value.now) }
{
    let rest = value.as_map()?;
    let (held, rest) = rest.split_key(MapKey::Uint(1))?;
    let version = held.as_uint()?;
    let (held, rest) = rest.split_key(MapKey::Uint(2))?;
    let aaguid = bytes_16(&held)?;
    let (held, rest) = rest.split_key(MapKey::Uint(3))?;
    let uv = held.as_bool()?;
    let (held, rest) = rest.split_key(MapKey::Uint(4))?;
    let self_signed = held.as_bool()?;
    let (held, rest) = rest.split_key(MapKey::Uint(5))?;
    let credentials = held.as_array()?;
    if !rest.is_end() || version != VERSION {
        return None;
    }
    Some(SavedMembers {
        aaguid,
        uv,
        self_signed,
        credentials,
    })
}
