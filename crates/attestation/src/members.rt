//! The members of statements, read where they lie.

ghost use Rattle.std.specs.Prelude.{◌≡◌, List, ℕ, MatchOption};
ghost use Rattle.ccbor.specs.Item.{Pairs, no_pairs};
ghost use Rattle.ccbor.specs.Viewing.{shown_pairs};
ghost use Rattle.attestation.specs.declared.algorithm.Algorithm.{Algorithm};
ghost use Rattle.attestation.specs.Statements.{certificates_view, with_alg, with_bytes, with_x5c, AreCertificates};

use crate::algorithm::{Algorithm, algorithm_in};
use crate::certificate_list::Certificates;
use crate::x5c::certificates_in;
use ccbor::{MapKey, MapView};

/// The algorithm, where it is the first member, and the members after it.
pub fn alg_member<'a>(members: &MapView<'a>) -> Option<(Algorithm, MapView<'a>)>
    ensures { MatchOption result ((a : Algorithm) (ps : Pairs) → shown_pairs members.now ≡ with_alg a ps → ⊥)
        (λ x. shown_pairs members.now ≡ with_alg x.0 (shown_pairs x.1)) }
{
    let (value, rest) = members.split_key(MapKey::Text("alg"))?;
    Some((algorithm_in(&value)?, rest))
}

/// The bytes of this name, where they are the first member, and the members after it.
pub fn bytes_member<'a>(members: &MapView<'a>, name: &str) -> Option<(&'a [u8], MapView<'a>)>
    ensures { MatchOption result ((bs : List ℕ) (ps : Pairs) → shown_pairs members.now ≡ with_bytes name.now bs ps → ⊥)
        (λ x. shown_pairs members.now ≡ with_bytes name.now x.0.now (shown_pairs x.1)) }
{
    let (value, rest) = members.split_key(MapKey::Text(name))?;
    Some((value.as_bytes()?, rest))
}

/// The certificates, where they are the first member, and the members after it.
pub fn x5c_member<'a>(members: &MapView<'a>) -> Option<(Certificates<'a>, MapView<'a>)>
    ensures { MatchOption result ((cs : List (List ℕ)) (ps : Pairs) → AreCertificates cs → shown_pairs members.now ≡ with_x5c cs ps → ⊥)
        (λ x. AreCertificates (certificates_view x.0) × (shown_pairs members.now ≡ with_x5c (certificates_view x.0) (shown_pairs x.1))) }
{
    let (value, rest) = members.split_key(MapKey::Text("x5c"))?;
    Some((certificates_in(&value)?, rest))
}

/// The certificates, where they are the only member.
pub fn only_x5c<'a>(members: &MapView<'a>) -> Option<Certificates<'a>>
    ensures { MatchOption result ((cs : List (List ℕ)) → AreCertificates cs → shown_pairs members.now ≡ with_x5c cs no_pairs → ⊥)
        (λ c. AreCertificates (certificates_view c) × (shown_pairs members.now ≡ with_x5c (certificates_view c) no_pairs)) }
{
    let (certificates, rest) = x5c_member(members)?;
    if rest.is_end() {
        Some(certificates)
    } else {
        None
    }
}
