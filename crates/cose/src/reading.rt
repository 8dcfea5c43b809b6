//! Reading a key from the members of a map.

ghost use Rattle.std.specs.Prelude.{◌≡◌, IfSome, None, option_map};
ghost use Rattle.ccbor.specs.Access.{is_end, key_item};
ghost use Rattle.ccbor.specs.Item.{map};
ghost use Rattle.cose.specs.Keys.{lent_key_view, KeyOf};
ghost use Rattle.cose.specs.Reading.{bytes_at, constant_at, coordinate_at, eddsa_at, es256_at, members_view, rsa_at};
ghost use Rattle.cose.specs.Rsa.{RsaPublicKey};
ghost use Rattle.cose.specs.declared.key.CoseKey.TheVariants as keys;

use crate::key::KeyView;
use crate::numbers::algorithm::{EDDSA, ES256, RS256};
use crate::numbers::curve::{ED25519, P256};
use crate::numbers::key_type::{EC2, OKP, RSA};
use crate::numbers::label::{self, ALG, CRV, KTY};
use crate::rsa::RsaView;
use ccbor::{MapKey, MapView, Value, is_end, split_key};

/// The members of a map, as a value has them or where their encoding lies.
#[derive(Drop)]
pub enum Members<'a> {
    Made(&'a [(Value, Value)]),
    Lent(MapView<'a>),
}

/// Whether there is no member.
fn is_last(members: &Members<'_>) -> bool
    ensures { result ≡ is_end (members_view members.now) }
{
    match members {
        Members::Made(pairs) => is_end(pairs),
        Members::Lent(pairs) => pairs.is_end(),
    }
}

/// The members after a first one that has this key and this value.
#[tactic(auto, unfolding(crate::specs::Reading::constant_at))]
fn constant<'a>(members: &Members<'a>, key: MapKey<'_>, value: MapKey<'_>) -> Option<Members<'a>>
    ensures { option_map members_view result
        ≡ constant_at (key_item key.entry) (key_item value.entry) (members_view members.now) }
{
    let (is_value, rest) = match members {
        Members::Made(pairs) => {
            let (found, rest) = split_key(pairs, key)?;
            (found.is_key(value), Members::Made(rest))
        }
        Members::Lent(pairs) => {
            let (found, rest) = pairs.split_key(key)?;
            (found.is_key(value), Members::Lent(rest))
        }
    };
    if is_value { Some(rest) } else { None }
}

/// The bytes that a first member has at this key, and the members after it.
#[tactic(auto, unfolding(crate::specs::Reading::bytes_at))]
fn bytes<'a>(members: &Members<'a>, key: MapKey<'_>) -> Option<(&'a [u8], Members<'a>)>
    ensures { option_map (λ x. (x.0.now, members_view x.1)) result
        ≡ bytes_at (key_item key.entry) (members_view members.now) }
{
    match members {
        Members::Made(pairs) => {
            let (found, rest) = split_key(pairs, key)?;
            Some((found.as_bytes()?, Members::Made(rest)))
        }
        Members::Lent(pairs) => {
            let (found, rest) = pairs.split_key(key)?;
            Some((found.as_bytes()?, Members::Lent(rest)))
        }
    }
}

/// The coordinate that a first member has at this key, and the members after it.
#[tactic(auto, unfolding(crate::specs::Reading::coordinate_at))]
fn coordinate<'a>(members: &Members<'a>, key: MapKey<'_>) -> Option<([u8; 32], Members<'a>)>
    ensures { option_map (λ x. (x.0, members_view x.1)) result
        ≡ coordinate_at (key_item key.entry) (members_view members.now) }
{
    let (bytes, rest) = bytes(members, key)?;
    match <[u8; 32]>::try_from(bytes) {
        Ok(coordinate) => Some((coordinate, rest)),
        Err(_) => None,
    }
}

/// The ES256 key that has these members.
#[tactic(auto, unfolding(crate::specs::Reading::es256_at))]
pub fn es256<'a>(members: &Members<'a>) -> Option<KeyView<'a>>
    ensures { option_map lent_key_view result ≡ es256_at (members_view members.now) }
{
    let members = constant(members, MapKey::Uint(KTY), MapKey::Uint(EC2))?;
    let members = constant(&members, MapKey::Uint(ALG), MapKey::Nint(ES256))?;
    let members = constant(&members, MapKey::Nint(CRV), MapKey::Uint(P256))?;
    let (x, members) = coordinate(&members, MapKey::Nint(label::X))?;
    let (y, members) = coordinate(&members, MapKey::Nint(label::Y))?;
    if is_last(&members) {
        Some(KeyView::Es256 { x, y })
    } else {
        None
    }
}

/// The EdDSA key that has these members.
#[tactic(auto, unfolding(crate::specs::Reading::eddsa_at))]
pub fn eddsa<'a>(members: &Members<'a>) -> Option<KeyView<'a>>
    ensures { option_map lent_key_view result ≡ eddsa_at (members_view members.now) }
{
    let members = constant(members, MapKey::Uint(KTY), MapKey::Uint(OKP))?;
    let members = constant(&members, MapKey::Uint(ALG), MapKey::Nint(EDDSA))?;
    let members = constant(&members, MapKey::Nint(CRV), MapKey::Uint(ED25519))?;
    let (x, members) = coordinate(&members, MapKey::Nint(label::X))?;
    if is_last(&members) {
        Some(KeyView::EdDsa { x })
    } else {
        None
    }
}

/// The modulus and the exponent, as they are, of an RS256 key that has these members.
#[tactic(auto, unfolding(crate::specs::Reading::rsa_at))]
fn rsa<'a>(members: &Members<'a>) -> Option<(&'a [u8], &'a [u8])>
    ensures { option_map (λ x. record { n = x.0.now; e = x.1.now }) result ≡ rsa_at (members_view members.now) }
{
    let members = constant(members, MapKey::Uint(KTY), MapKey::Uint(RSA))?;
    let members = constant(&members, MapKey::Uint(ALG), MapKey::Nint(RS256))?;
    let (n, members) = bytes(&members, MapKey::Nint(label::N))?;
    let (e, members) = bytes(&members, MapKey::Nint(label::E))?;
    if is_last(&members) {
        Some((n, e))
    } else {
        None
    }
}

/// The RS256 key that has these members.
pub fn rs256<'a>(members: &Members<'a>) -> Option<RsaView<'a>>
    ensures found { IfSome result (λ k. KeyOf (keys.Rs256 (record { n = k.n.now; e = k.e.now })) (map (members_view members.now))) }
    ensures none { result ≡ None → (k : RsaPublicKey) → KeyOf (keys.Rs256 k) (map (members_view members.now)) → ⊥ }
{
    match rsa(members) {
        Some((n, e)) => RsaView::new(n, e),
        None => None,
    }
}
