//! Keys as COSE_Key bytes (RFC 9052, section 7).

ghost use Rattle.std.specs.Prelude.{IfSome, MatchOption};
ghost use Rattle.cose.specs.Keys.{IsKey, lent_key_view};
ghost use Rattle.cose.specs.declared.key.CoseKey.{CoseKey};
ghost use Rattle.passkey_c.specs.Answers.{IsKeyFromCose, IsKeyToCose};
ghost use Rattle.passkey_c.specs.Cose.{IsCoseKey};

use crate::input::{key_from, write_key};
use crate::parts::{KeyOut, KeyParts};
use ccbor::{View, encode};
use cose::KeyView;
use std::alloc::Global;

/// The key whose value these bytes are in canonical CBOR.
fn key_in(bytes: &[u8]) -> Option<KeyView<'_>>
    ensures { MatchOption result ((key : CoseKey) → IsCoseKey key bytes.now → ⊥) (λ key. IsCoseKey (lent_key_view key) bytes.now) }
{
    let Ok(value) = View::check_all(bytes) else {
        return None;
    };
    match KeyView::from_view(&value) {
        Ok(key) => Some(key),
        Err(_) => None,
    }
}

/// Tells the key whose COSE_Key bytes (RFC 9052, section 7) these are, in canonical CBOR, of ES256, EdDSA or RS256: true
/// exactly if they are, and then it is written; else nothing is. No test is made that a point lies on its curve.
pub fn passkey_key_from_cose(bytes: &[u8], out: &mut KeyOut) -> bool
    ensures { IsKeyFromCose bytes.now out.old out.new result }
{
    match key_in(bytes) {
        Some(key) => {
            write_key(&key, out);
            true
        }
        None => false,
    }
}

/// The COSE_Key bytes of a key.
fn cose_of(alloc: Global, key: &KeyView<'_>) -> Option<Vec<u8>>
    ensures { IfSome result (λ bytes. IsKey (lent_key_view key.now) → IsCoseKey (lent_key_view key.now) bytes.items) }
{
    let Ok(value) = key.to_value(alloc) else {
        return None;
    };
    let mut bytes = Vec::new(alloc);
    match encode(&value, &mut bytes) {
        Ok(()) => Some(bytes),
        Err(_) => None,
    }
}

/// Writes the COSE_Key bytes (RFC 9052, section 7) of a key to the front of a room, and tells how many they are: 77 of ES256,
/// 42 of EdDSA, 13 more than x and y have of RS256. 0 where the key is out of its limits, the room is too small, or there was
/// no memory, and then nothing is written.
pub fn passkey_key_to_cose(alloc: Global, key: &KeyParts<'_>, room: &mut [u8]) -> usize
    ensures { IsKeyToCose key.now room.old room.new result }
{
    let Ok(key) = key_from(key) else {
        return 0;
    };
    let Some(bytes) = cose_of(alloc, &key) else {
        return 0;
    };
    let bytes = bytes.as_slice();
    if room.len() < bytes.len() {
        return 0;
    }
    let (front, _) = room.split_at_mut(bytes.len());
    front.copy_from_slice(bytes);
    bytes.len()
}
