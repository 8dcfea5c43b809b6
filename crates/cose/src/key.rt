//! Public keys, and the CBOR value of each.

ghost use Rattle.std.specs.Prelude.{◌≡◌, ◌↔◌, IfOk, IsErr, IsTrue, MatchOption};
ghost use Rattle.ccbor.specs.Item.{map};
ghost use Rattle.ccbor.specs.View.{view};
ghost use Rattle.ccbor.specs.Viewing.{shown};
ghost use Rattle.cose.specs.Keys.{alg_of, argument_of, lent_key_view, number_of, signed_alg, x_of, KeyOf};
ghost use Rattle.cose.specs.Reading.{members_view};
ghost use Rattle.cose.specs.declared.key.CoseKey.TheVariants as keys;

use crate::numbers::{algorithm, curve, key_type, label};
use crate::reading::{Members, eddsa, es256, rs256};
use crate::rsa::{RsaKey, RsaView};
use ccbor::{Value, View};
use std::alloc::{AllocError, Global};
use thiserror::Error;

/// A signature algorithm of COSE.
#[derive(Clone, Copy, Debug, PartialEq, Eq, Drop)]
pub enum Alg {
    /// ECDSA with SHA-256, here over the curve P-256: number -7 (RFC 9053 section 2.1).
    Es256,
    /// EdDSA, here over Ed25519: number -8 (RFC 9053 section 2.2).
    EdDsa,
    /// RSASSA-PKCS1-v1_5 with SHA-256: number -257 (RFC 8812 section 2).
    Rs256,
}

/// An algorithm that a `Signer` signs by.
#[derive(Clone, Copy, Debug, PartialEq, Eq, Drop)]
pub enum SigningAlg {
    /// As `Alg::Es256`.
    Es256,
    /// As `Alg::EdDsa`.
    EdDsa,
}

/// A public key of one of these algorithms: by its coordinates of 32 bytes each, or an RSA key. No test is made
/// that a point lies on its curve, or that a modulus is a product of two primes.
#[derive(Debug, Drop)]
pub enum CoseKey {
    /// A point of P-256, both coordinates big-endian (RFC 9053 section 7.1.1).
    Es256 { x: [u8; 32], y: [u8; 32] },
    /// A public key of Ed25519 (RFC 9053 section 7.2).
    EdDsa { x: [u8; 32] },
    /// A public key of RSA (RFC 8230 section 4).
    Rs256(RsaKey),
}

/// A public key, lent: as `CoseKey`.
#[derive(Clone, Copy, Debug, Drop)]
pub enum KeyView<'a> {
    /// A point of P-256.
    Es256 { x: [u8; 32], y: [u8; 32] },
    /// A public key of Ed25519.
    EdDsa { x: [u8; 32] },
    /// A public key of RSA.
    Rs256(RsaView<'a>),
}

/// The value is that of no key.
#[derive(Clone, Copy, Debug, PartialEq, Eq, Drop, Error)]
#[error("not the value of a COSE key")]
pub struct NotAKey;

impl NotAKey {
    /// The refusal's number, 7.
    pub fn number(&self) -> u8
        ensures { result ≡ 7 }
    {
        7
    }
}

impl Alg {
    /// The number by which COSE names the algorithm: -7, -8 or -257.
    pub fn number(self) -> i64
        ensures { result ≡ number_of self }
    {
        match self {
            Alg::Es256 => -7,
            Alg::EdDsa => -8,
            Alg::Rs256 => -257,
        }
    }

    /// The argument n of the number -1 - n as CBOR writes it (RFC 8949 section 3.1): 6, 7 or 256.
    pub fn argument(self) -> u64
        ensures { result ≡ argument_of self }
    {
        match self {
            Alg::Es256 => 6,
            Alg::EdDsa => 7,
            Alg::Rs256 => 256,
        }
    }

    /// The algorithm that COSE names by this number, the inverse of `number`: of -7, -8 or -257. None where it is another
    /// number.
    pub fn from_number(number: i64) -> Option<Alg>
        ensures { MatchOption result ((alg : Alg) → number_of alg ≡ number → ⊥) (λ alg. number_of alg ≡ number) }
    {
        match number {
            -7 => Some(Alg::Es256),
            -8 => Some(Alg::EdDsa),
            -257 => Some(Alg::Rs256),
            _ => None,
        }
    }
}

impl SigningAlg {
    /// The algorithm by which its signatures are valid.
    pub fn alg(self) -> Alg
        ensures { result ≡ signed_alg self }
    {
        match self {
            SigningAlg::Es256 => Alg::Es256,
            SigningAlg::EdDsa => Alg::EdDsa,
        }
    }
}

/// The key that has these members.
fn key_of<'a>(members: &Members<'a>) -> Result<KeyView<'a>, NotAKey>
    ensures found { IfOk result (λ k. KeyOf (lent_key_view k) (map (members_view members.now))) }
    ensures none { IsErr result → (k : CoseKey) → KeyOf k (map (members_view members.now)) → ⊥ }
{
    if let Some(key) = es256(members) {
        return Ok(key);
    }
    if let Some(key) = eddsa(members) {
        return Ok(key);
    }
    match rs256(members) {
        Some(key) => Ok(KeyView::Rs256(key)),
        None => Err(NotAKey),
    }
}

/// The value of a point of P-256.
fn es256_value(alloc: Global, x: &[u8; 32], y: &[u8; 32]) -> Result<Value, AllocError>
    ensures { IfOk result (λ v. KeyOf (keys.Es256 x.now y.now) (view v)) }
{
    let x = Value::Bytes(Vec::from_slice(alloc, x)?);
    let y = Value::Bytes(Vec::from_slice(alloc, y)?);
    let pairs = vec![in alloc;
        (Value::Uint(label::KTY), Value::Uint(key_type::EC2)),
        (Value::Uint(label::ALG), Value::Nint(algorithm::ES256)),
        (Value::Nint(label::CRV), Value::Uint(curve::P256)),
        (Value::Nint(label::X), x),
        (Value::Nint(label::Y), y),
    ]?;
    Ok(Value::Map(pairs))
}

/// The value of a key of Ed25519.
fn eddsa_value(alloc: Global, x: &[u8; 32]) -> Result<Value, AllocError>
    ensures { IfOk result (λ v. KeyOf (keys.EdDsa x.now) (view v)) }
{
    let x = Value::Bytes(Vec::from_slice(alloc, x)?);
    let pairs = vec![in alloc;
        (Value::Uint(label::KTY), Value::Uint(key_type::OKP)),
        (Value::Uint(label::ALG), Value::Nint(algorithm::EDDSA)),
        (Value::Nint(label::CRV), Value::Uint(curve::ED25519)),
        (Value::Nint(label::X), x),
    ]?;
    Ok(Value::Map(pairs))
}

/// The value of a key of RSA.
fn rs256_value(alloc: Global, key: &RsaView<'_>) -> Result<Value, AllocError>
    ensures { IfOk result (λ v. KeyOf (lent_key_view (KeyView.Rs256 key.now)) (view v)) }
{
    let n = Value::Bytes(Vec::from_slice(alloc, key.n)?);
    let e = Value::Bytes(Vec::from_slice(alloc, key.e)?);
    let pairs = vec![in alloc;
        (Value::Uint(label::KTY), Value::Uint(key_type::RSA)),
        (Value::Uint(label::ALG), Value::Nint(algorithm::RS256)),
        (Value::Nint(label::N), n),
        (Value::Nint(label::E), e),
    ]?;
    Ok(Value::Map(pairs))
}

impl<'a> KeyView<'a> {
    /// The key's algorithm.
    pub fn alg(&self) -> Alg
        ensures { result ≡ alg_of (lent_key_view self.now) }
    {
        match self {
            KeyView::Es256 { x: _, y: _ } => Alg::Es256,
            KeyView::EdDsa { x: _ } => Alg::EdDsa,
            KeyView::Rs256(_) => Alg::Rs256,
        }
    }

    /// The key's x; of an RSA key its modulus.
    pub(crate) fn x(&self) -> &[u8]
        ensures { result.now ≡ x_of (lent_key_view self.now) }
    {
        match self {
            KeyView::Es256 { x, y: _ } => x,
            KeyView::EdDsa { x } => x,
            KeyView::Rs256(key) => key.n,
        }
    }

    /// Whether both are the same key.
    pub fn is_same(&self, other: &KeyView<'_>) -> bool
        ensures { IsTrue result ↔ (lent_key_view self.now ≡ lent_key_view other.now) }
    {
        match (self, other) {
            (KeyView::Es256 { x, y }, KeyView::Es256 { x: u, y: v }) => x == u && y == v,
            (KeyView::EdDsa { x }, KeyView::EdDsa { x: u }) => x == u,
            (KeyView::Rs256(key), KeyView::Rs256(other)) => key.n == other.n && key.e == other.e,
            _ => false,
        }
    }

    /// The key, copied out. Memory is taken for an RSA key alone.
    pub fn to_key(&self, alloc: Global) -> Result<CoseKey, AllocError>
        ensures { IfOk result (λ k. k ≡ lent_key_view self.now) }
    {
        Ok(match self {
            KeyView::Es256 { x, y } => CoseKey::Es256 { x: *x, y: *y },
            KeyView::EdDsa { x } => CoseKey::EdDsa { x: *x },
            KeyView::Rs256(key) => CoseKey::Rs256(key.to_key(alloc)?),
        })
    }

    /// The key's value: a map of five members for ES256, of four for the others (RFC 9052 section 7.1).
    pub fn to_value(&self, alloc: Global) -> Result<Value, AllocError>
        ensures { IfOk result (λ v. KeyOf (lent_key_view self.now) (view v)) }
    {
        match self {
            KeyView::Es256 { x, y } => es256_value(alloc, x, y),
            KeyView::EdDsa { x } => eddsa_value(alloc, x),
            KeyView::Rs256(key) => rs256_value(alloc, key),
        }
    }

    /// The key that has this value. It takes no memory, and answers `NotAKey` exactly if no key
    /// has it: where a member is missing, comes twice or in another order, is of another kind or
    /// length, or where there is one more.
    pub fn from_value(value: &'a Value) -> Result<KeyView<'a>, NotAKey>
        ensures found { IfOk result (λ k. KeyOf (lent_key_view k) (view value.now)) }
        // It is refused only if no key has it.
        ensures none { IsErr result → (k : CoseKey) → KeyOf k (view value.now) → ⊥ }
    {
        let Some(pairs) = value.as_map() else {
            return Err(NotAKey);
        };
        key_of(&Members::Made(pairs))
    }

    /// The key that has this value, read where its encoding lies: as `from_value`.
    pub fn from_view(value: &View<'a>) -> Result<KeyView<'a>, NotAKey>
        ensures found { IfOk result (λ k. KeyOf (lent_key_view k) (shown value.now)) }
        // It is refused only if no key has it.
        ensures none { IsErr result → (k : CoseKey) → KeyOf k (shown value.now) → ⊥ }
    {
        let Some(pairs) = value.as_map() else {
            return Err(NotAKey);
        };
        key_of(&Members::Lent(pairs))
    }
}

impl CoseKey {
    /// The key, lent. It takes no memory.
    pub fn view(&self) -> KeyView<'_>
        ensures { lent_key_view result ≡ self.now }
    {
        match self {
            CoseKey::Es256 { x, y } => KeyView::Es256 { x: *x, y: *y },
            CoseKey::EdDsa { x } => KeyView::EdDsa { x: *x },
            CoseKey::Rs256(key) => KeyView::Rs256(key.view()),
        }
    }

    /// The key's algorithm.
    pub fn alg(&self) -> Alg
        ensures { result ≡ alg_of self.now }
    {
        match self {
            CoseKey::Es256 { x: _, y: _ } => Alg::Es256,
            CoseKey::EdDsa { x: _ } => Alg::EdDsa,
            CoseKey::Rs256(_) => Alg::Rs256,
        }
    }
}
