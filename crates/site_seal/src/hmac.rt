//! HMAC-SHA-256 (RFC 2104, section 2).

ghost use Rattle.std.specs.Prelude.{◌≡◌, ◌<◌, ◌^◌, ◌↔◌, IsTrue, map};
ghost use Rattle.std.specs.List.{concat};
ghost use Rattle.site_seal.specs.Hmac.{hmac_sha256, masked};
ghost use Rattle.site_seal.specs.Seal.{user_number};

use sha2::{Digest, Sha256};

/// The key with zeros up to a block of SHA-256, each byte of it with `mask` by exclusive or.
fn masked(key: &[u8; 32], mask: u8) -> [u8; 64]
    ensures { result ≡ masked mask key.now }
{
    let mut block = [mask; 64];
    for i in 0..key.len() {
        block[i] = key[i] ^ mask;
    }
    block
}

/// HMAC-SHA-256 of the message that these parts make together.
pub fn hmac_sha256(key: &[u8; 32], parts: &[&[u8]]) -> [u8; 32]
    ensures { result ≡ hmac_sha256 key.now (concat (map (λ part. part.now) parts.now)) }
{
    let mut inner = Sha256::new();
    inner.update(&masked(key, 0x36));
    for part in parts {
        inner.update(*part);
    }
    let mut outer = Sha256::new();
    outer.update(&masked(key, 0x5C));
    outer.update(&inner.finalize());
    outer.finalize()
}

/// Whether two hashes are equal. It looks at each byte of both, whatever they are.
pub fn are_equal(a: &[u8; 32], b: &[u8; 32]) -> bool
    ensures { IsTrue result ↔ (a.now ≡ b.now) }
{
    let mut difference = 0;
    for i in 0..32 {
        difference |= a[i] ^ b[i];
    }
    difference == 0
}

/// The number, of 63 bits, under which a site keeps that a user's registrations have ended: who doesn't have the key learns
/// nothing of the handle from it.
pub fn user_number(key: &[u8; 32], handle: &[u8]) -> u64
    ensures number { result ≡ user_number key.now handle.now }
    ensures fits { result < 2 ^ 63 }
{
    let hash = hmac_sha256(key, &[&[4], handle]);
    let mut first = [0; 8];
    first.copy_from_slice(&hash[..8]);
    u64::from_be_bytes(first) % (1 << 63)
}
