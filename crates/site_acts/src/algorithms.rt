//! Members that tell algorithms.

ghost use Rattle.std.specs.Prelude.{◌≡◌, [], ◌∷◌, IfErr, IfOk, codes, Some, map, option_and_then};
ghost use Rattle.std.specs.List.{AllByRecursion};
ghost use Rattle.cose.specs.Keys.{number_of};
ghost use Rattle.cose.specs.declared.key.Alg.TheVariants as algs;
ghost use Rattle.serde_json.specs.Find.{as_i64, as_number};
ghost use Rattle.serde_json.specs.View.{view};
ghost use Rattle.json_lines.specs.Faults.{HasItems, IsIllFormed, IsRefusedAs};
ghost use Rattle.site_acts.specs.Lines.{HasAlgorithms, IsAlgorithm};
ghost use Rattle.site_acts.specs.Faults.{IsKnownAlgorithm};

use cose::Alg;
use json_lines::{LineError, member};
use serde_json::Value;
use std::alloc::{AllocError, Global};

/// The algorithm of a COSE number.
pub(crate) fn algorithm(value: &Value, name: &'static str) -> Result<Alg, LineError>
    ensures found { IfOk result (IsAlgorithm (view value.now)) }
    ensures refused { IfErr result (IsRefusedAs name.entry (IsKnownAlgorithm (view value.now))) }
{
    match value.as_i64().and_then(Alg::from_number) {
        Some(alg) => Ok(alg),
        None => Err(LineError::BadForm(name)),
    }
}

/// All three algorithms.
fn all_algorithms(alloc: Global) -> Result<Vec<Alg>, AllocError>
    ensures found { IfOk result (λ list. list.items ≡ algs.Es256 ∷ algs.EdDsa ∷ algs.Rs256 ∷ []) }
{
    Vec::from_slice(alloc, &[Alg::Es256, Alg::EdDsa, Alg::Rs256])
}

/// The algorithms of COSE numbers.
fn algorithms_of(alloc: Global, items: &[Value], name: &'static str) -> Result<Vec<Alg>, LineError>
    ensures found { IfOk result (λ list. map (λ value. option_and_then as_i64 (as_number (view value))) items.now ≡ map (λ alg. Some (number_of alg)) list.items) }
    ensures refused { IfErr result (IsRefusedAs name.entry (AllByRecursion IsKnownAlgorithm (map view items.now))) }
{
    let mut list = Vec::with_capacity(alloc, items.len())?;
    for item in items {
        list.push(algorithm(item, name)?)?;
    }
    Ok(list)
}

/// The algorithms that are offered: those of the member, or all three.
pub(crate) fn algorithms(alloc: Global, object: &Value) -> Result<Vec<Alg>, LineError>
    ensures found { IfOk result (λ list. HasAlgorithms (view object.now) list.items) }
    ensures amiss { IfErr result (IsIllFormed (codes "algorithms") (HasItems IsKnownAlgorithm) (view object.now)) }
{
    let Some(value) = member(object, "algorithms") else {
        return Ok(all_algorithms(alloc)?);
    };
    let Some(items) = value.as_array() else {
        return Err(LineError::BadForm("algorithms"));
    };
    let list = algorithms_of(alloc, items.as_slice(), "algorithms")?;
    Ok(list)
}
