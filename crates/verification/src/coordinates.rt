//! A public key by its numbers, as a host hands it in.

ghost use Rattle.std.specs.Prelude.{◌≡◌, [], IfErr, IfOk, OnOk};
ghost use Rattle.cose.specs.Keys.{lent_key_view};
ghost use Rattle.cose.specs.declared.key.Alg.TheVariants as algs;
ghost use Rattle.cose.specs.declared.key.CoseKey.TheVariants as keys;
ghost use Rattle.verification.specs.Coordinates.{IsNot, IsX, IsY, key_with};

use cose::{Alg, KeyView, RsaView, is_exponent, is_modulus};

/// Which number of a key is out of its form.
#[derive(Clone, Copy, Debug, PartialEq, Eq, Drop)]
pub enum Coordinate {
    /// The x of 32 bytes, or of RS256 the modulus.
    X,
    /// The y of 32 bytes, or of RS256 the exponent.
    Y,
}

/// The key of ES256 of these coordinates.
fn es256_from<'a>(x: &[u8], y: &[u8]) -> Result<KeyView<'a>, Coordinate>
    ensures found { IfOk result (λ key. lent_key_view key ≡ key_with algs.Es256 x.now y.now) }
    ensures x { OnOk result (IsX algs.Es256 x.now) }
    ensures y { OnOk result (IsY algs.Es256 y.now) }
    ensures refused { IfErr result (IsNot algs.Es256 x.now y.now) }
{
    let Ok(x) = <[u8; 32]>::try_from(x) else {
        return Err(Coordinate::X);
    };
    match <[u8; 32]>::try_from(y) {
        Ok(y) => Ok(KeyView::Es256 { x, y }),
        Err(_) => Err(Coordinate::Y),
    }
}

/// The key of EdDSA of this x; a y is not looked at.
fn eddsa_from<'a>(x: &[u8]) -> Result<KeyView<'a>, Coordinate>
    ensures found { IfOk result (λ key. lent_key_view key ≡ keys.EdDsa x.now) }
    ensures x { OnOk result (IsX algs.EdDsa x.now) }
    ensures refused { IfErr result (IsNot algs.EdDsa x.now []) }
{
    match <[u8; 32]>::try_from(x) {
        Ok(x) => Ok(KeyView::EdDsa { x }),
        Err(_) => Err(Coordinate::X),
    }
}

/// The RSA key of this modulus and this exponent.
fn rsa_from<'a>(n: &'a [u8], e: &'a [u8]) -> Result<KeyView<'a>, Coordinate>
    ensures found { IfOk result (λ key. lent_key_view key ≡ key_with algs.Rs256 n.now e.now) }
    ensures n { OnOk result (IsX algs.Rs256 n.now) }
    ensures e { OnOk result (IsY algs.Rs256 e.now) }
    ensures refused { IfErr result (IsNot algs.Rs256 n.now e.now) }
{
    if !is_modulus(n) {
        return Err(Coordinate::X);
    }
    if !is_exponent(e) {
        return Err(Coordinate::Y);
    }
    Ok(KeyView::Rs256(RsaView { n, e }))
}

/// The public key of this algorithm with these numbers, where they lie: of P-256 the coordinates x and y, of Ed25519 x alone (y
/// is not looked at), 32 bytes each (RFC 9053, section 7); of RSA the modulus and the exponent (RFC 8230, section 4). Else the
/// first that is out of its form. It takes no memory.
pub fn key_from<'a>(alg: Alg, x: &'a [u8], y: &'a [u8]) -> Result<KeyView<'a>, Coordinate>
    ensures found { IfOk result (λ key. lent_key_view key ≡ key_with alg x.now y.now) }
    ensures x { OnOk result (IsX alg x.now) }
    ensures y { OnOk result (IsY alg y.now) }
    ensures refused { IfErr result (IsNot alg x.now y.now) }
{
    match alg {
        Alg::Es256 => es256_from(x, y),
        Alg::EdDsa => eddsa_from(x),
        Alg::Rs256 => rsa_from(x, y),
    }
}
