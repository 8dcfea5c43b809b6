//! Parts of authenticator data.

ghost use Rattle.std.specs.Prelude.{◌↔◌, ◌≡◌, ◌<◌, ◌++◌, length, IfOk, IfErr, IsTrue, MatchOption};
ghost use Rattle.ccbor.specs.Viewing.{shown_pairs};
ghost use Rattle.cose.specs.Keys.{IsKey, lent_key_view};
ghost use Rattle.authdata.specs.Layout.{HasTextKeys, IsExtensionMap, key_bytes};
ghost use Rattle.authdata.specs.Private.{BeginsWithExtensions};
ghost use Rattle.authdata.specs.declared.profile.Profile.{Profile};
ghost use Rattle.authdata.specs.Refusals.{Applies, BeginsWithKey, id_len_in};
ghost use Rattle.authdata.specs.declared.error.Error.TheVariants as errors;

use crate::error::Error;
use crate::flags;
use ccbor::{MapView, View};
use cose::KeyView;

/// The key at the front, and the bytes after it.
pub fn key_front(bytes: &[u8]) -> Result<(KeyView<'_>, &[u8]), Error>
    ensures found { IfOk result (λ x. IsKey (lent_key_view x.0) × (bytes.now ≡ key_bytes (lent_key_view x.0) ++ x.1.now)) }
    ensures none { IfErr result (λ e. (e ≡ errors.BadKey) × (BeginsWithKey bytes.now → ⊥)) }
{
    let Ok((value, len)) = View::check(bytes) else {
        return Err(Error::BadKey);
    };
    match KeyView::from_view(&value) {
        Ok(key) => Ok((key, &bytes[len..])),
        Err(_) => Err(Error::BadKey),
    }
}

/// The id's length.
pub fn id_len(bytes: &[u8]) -> u16
    requires { 54 < length bytes.now }
    ensures { result ≡ id_len_in bytes.now }
{
    u16::from_be_bytes([bytes[53], bytes[54]])
}

/// Whether each key of a map is a text.
fn has_text_keys(map: MapView<'_>) -> bool
    ensures { IsTrue result ↔ HasTextKeys (shown_pairs map.entry) }
{
    let mut pairs = map;
    while let Some((key, _, rest)) = pairs.split_first() {
        if key.as_text().is_none() {
            return false;
        }
        pairs = rest;
    }
    true
}

/// The map of extensions at the front, and the bytes after it.
pub fn extensions_front(bytes: &[u8]) -> Option<(&[u8], &[u8])>
    ensures { MatchOption result (BeginsWithExtensions bytes.now → ⊥)
        (λ x. IsExtensionMap x.0.now × (bytes.now ≡ x.0.now ++ x.1.now)) }
{
    let Ok((value, len)) = View::check(bytes) else {
        return None;
    };
    let Some(pairs) = value.as_map() else {
        return None;
    };
    if !has_text_keys(pairs) {
        return None;
    }
    Some((value.span(), &bytes[len..]))
}

/// Whether the fixed part, or with a credential what stands before its key, is not there whole.
pub fn is_short(bytes: &[u8]) -> bool
    ensures { (profile : Profile) → IsTrue result ↔ Applies profile bytes.now errors.Short }
{
    if bytes.len() < 37 {
        return true;
    }
    if !flags::is_set(bytes[32], flags::AT) {
        return false;
    }
    bytes.len() < 55 || bytes.len() < 55 + id_len(bytes) as usize
}
