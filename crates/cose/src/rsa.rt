//! Public keys of RSA.

ghost use Rattle.std.specs.Prelude.{◌≡◌, ◌↔◌, ◌≤◌, IfOk, IsTrue, MatchOption, length};
ghost use Rattle.cose.specs.Rsa.{IsExponent, IsModulus, IsOddNumber, IsRsaKey};

use std::alloc::{AllocError, Global};
use std::marker::Model;

/// Whether the bytes are an odd number in the fewest bytes.
fn is_odd_number(bytes: &[u8]) -> bool
    requires { 1 ≤ length bytes.now }
    ensures { IsTrue result ↔ IsOddNumber bytes.now }
{
    bytes[0] != 0 && bytes[bytes.len() - 1] % 2 == 1
}

/// Whether the bytes are a modulus that a key may have: 256, 384 or 512, the first at least 0x80, the last odd (RFC 8812
/// section 2: 2,048 bits or more).
pub fn is_modulus(n: &[u8]) -> bool
    ensures { IsTrue result ↔ IsModulus n.now }
{
    256 <= n.len() && n.len() <= 512 && n.len() % 128 == 0 && n[0] >= 0x80 && is_odd_number(n)
}

/// Whether the bytes are an exponent that a key may have: 1 to 4, the first not zero, the last odd, at least 3.
pub fn is_exponent(e: &[u8]) -> bool
    ensures { IsTrue result ↔ IsExponent e.now }
{
    1 <= e.len() && e.len() <= 4 && is_odd_number(e) && e != [1].as_slice()
}

/// A public key of RSA, lent: its numbers big-endian, in the fewest bytes (RFC 8230 section 4).
#[derive(Clone, Copy, Debug, Drop)]
pub struct RsaView<'a> {
    /// The modulus: 256, 384 or 512 bytes, an odd number of 2,048, 3,072 or 4,096 bits.
    pub n: &'a [u8],
    /// The public exponent: 1 to 4 bytes, an odd number that is at least 3.
    pub e: &'a [u8],
    ghost is_modulus: { IsModulus n.now },
    ghost is_exponent: { IsExponent e.now },
}

impl<'a> RsaView<'a> {
    /// The key of this modulus and this exponent, where they are those of a key.
    pub fn new(n: &'a [u8], e: &'a [u8]) -> Option<RsaView<'a>>
        ensures { MatchOption result (IsRsaKey (record { n = n.now; e = e.now }) → ⊥) (λ k. (k.n.now ≡ n.now) × (k.e.now ≡ e.now)) }
    {
        if is_modulus(n) && is_exponent(e) {
            Some(RsaView { n, e })
        } else {
            None
        }
    }

    /// The key, copied out.
    pub fn to_key(&self, alloc: Global) -> Result<RsaKey, AllocError>
        ensures { IfOk result (λ k. (k.n ≡ self.now.n.now) × (k.e ≡ self.now.e.now)) }
    {
        Ok(RsaKey {
            n: Vec::from_slice(alloc, self.n)?,
            e: Vec::from_slice(alloc, self.e)?,
        })
    }
}

/// A public key of RSA: a modulus of 256, 384 or 512 bytes and a public exponent of 1 to 4. A contract sees both.
#[derive(Debug, Drop)]
pub struct RsaKey {
    n: Vec<u8>,
    e: Vec<u8>,
}

impl Model for RsaKey {
    ghost use Rattle.cose.specs.Rsa.{RsaPublicKey, IsRsaKey};

    ghost Value = { RsaPublicKey };

    ghost view = { λ k. record { n = k.n.items; e = k.e.items } };

    ghost invariant = { λ k. IsRsaKey (record { n = k.n.items; e = k.e.items }) };
}

impl RsaKey {
    /// The key, lent.
    pub fn view(&self) -> RsaView<'_>
        ensures n { result.n.now ≡ self.now.n }
        ensures e { result.e.now ≡ self.now.e }
    {
        RsaView {
            n: &self.n,
            e: &self.e,
        }
    }
}
