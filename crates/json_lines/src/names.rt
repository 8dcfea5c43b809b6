//! The names of a line's members.

ghost use Rattle.std.specs.Prelude.{◌≡◌, ◌↔◌, IfErr, IsTrue, OnOk, map};
ghost use Rattle.std.specs.List.{AllByRecursion};
ghost use Rattle.serde_json.specs.View.{members_view, view};
ghost use Rattle.json_lines.specs.Faults.{HasNoOther, HasUnknown, HasUnknownIn, IsOneOf, names_in, taken};

use crate::error::LineError;
use serde_json::{Map, Value};

/// Whether two names are the same.
fn is_same(one: &str, other: &str) -> bool
    ensures { IsTrue result ↔ (one.now ≡ other.now) }
{
    one == other
}

/// Whether a name is one of these.
fn is_one_of(names: &[&str], name: &str) -> bool
    ensures { IsTrue result ↔ IsOneOf (map (λ n. n.now) names.now) name.now }
{
    for one in names {
        if is_same(one, name) {
            return true;
        }
    }
    false
}

/// Whether a line whose act takes members of these names may have one of this name.
fn takes(names: &[&str], name: &str) -> bool
    ensures { IsTrue result ↔ IsOneOf (taken (map (λ n. n.now) names.now)) name.now }
{
    name == "id" || name == "act" || is_one_of(names, name)
}

/// That there is no member that the act does not take.
fn check_all(names: &[&str], members: &Map<String, Value>) -> Result<(), LineError>
    ensures taken { OnOk result (AllByRecursion (IsOneOf (taken (map (λ n. n.now) names.now))) (names_in (members_view members.now.entries))) }
    ensures unknown { IfErr result (HasUnknownIn (map (λ n. n.now) names.now) (members_view members.now.entries)) }
{
    for (name, _) in members {
        if !takes(names, name.as_str()) {
            return Err(LineError::UnknownMember);
        }
    }
    Ok(())
}

/// That a line's object has no member beside `id`, `act`, and those of these names.
pub fn check_names(names: &[&str], line: &Value) -> Result<(), LineError>
    ensures taken { OnOk result (HasNoOther (map (λ n. n.now) names.now) (view line.now)) }
    ensures unknown { IfErr result (HasUnknown (map (λ n. n.now) names.now) (view line.now)) }
{
    match line.as_object() {
        Some(members) => check_all(names, members),
        None => Ok(()),
    }
}
