//! Public keys, as they stand in a line: the algorithm's COSE number and the coordinates x and y, of an RSA key the modulus
//! and the exponent.

ghost use Rattle.std.specs.Prelude.{IfErr, IfOk, codes};
ghost use Rattle.serde_json.specs.View.{view};
ghost use Rattle.site_acts.specs.Lines.{HasKey};
ghost use Rattle.json_lines.specs.Faults.{AreBytes, IsAmiss};
ghost use Rattle.site_acts.specs.Faults.{HasYOf, IsAlgorithmOf, IsKnownAlgorithm, OfKey};

use crate::algorithms::algorithm;
use cose::{Alg, CoseKey};
use json_lines::{LineError, bytes, needed};
use serde_json::Value;
use std::alloc::Global;
use verification::{Coordinate, key_from};

/// The algorithm of the member `algorithm`.
fn algorithm_of(object: &Value) -> Result<Alg, LineError>
    ensures found { IfOk result (IsAlgorithmOf (view object.now)) }
    ensures amiss { IfErr result (IsAmiss (codes "algorithm") IsKnownAlgorithm (view object.now)) }
{
    let found = algorithm(needed(object, "algorithm")?, "algorithm")?;
    Ok(found)
}

/// The bytes of the member `y`; of EdDSA it is not looked at.
fn y_of(alloc: Global, object: &Value, alg: Alg) -> Result<Vec<u8>, LineError>
    ensures found { IfOk result (λ y. HasYOf alg (view object.now) y.items) }
    ensures amiss { IfErr result (IsAmiss (codes "y") AreBytes (view object.now)) }
{
    match alg {
        Alg::EdDsa => Ok(Vec::new(alloc)),
        Alg::Es256 | Alg::Rs256 => bytes(alloc, object, "y"),
    }
}

/// The key of the members `algorithm`, `x` and `y`; of EdDSA `y` is not looked at.
pub(crate) fn key(alloc: Global, object: &Value) -> Result<CoseKey, LineError>
    ensures found { IfOk result (HasKey (view object.now)) }
    ensures amiss { IfErr result (OfKey (view object.now)) }
{
    let alg = algorithm_of(object)?;
    let x = bytes(alloc, object, "x")?;
    let y = y_of(alloc, object, alg)?;
    match key_from(alg, x.as_slice(), y.as_slice()) {
        Ok(key) => Ok(key.to_key(alloc)?),
        Err(Coordinate::X) => Err(LineError::BadForm("x")),
        Err(Coordinate::Y) => Err(LineError::BadForm("y")),
    }
}
