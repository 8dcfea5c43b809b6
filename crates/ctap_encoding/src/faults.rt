//! The faults of a value against a table.

ghost use Rattle.std.specs.Prelude.{◌≡◌, not, option_map};
ghost use Rattle.ccbor.specs.View.{view, items_view, pairs_view};
ghost use Rattle.ctap_encoding.specs.Table.{fails, size_of, any_item, is_listed, all_keys, all_truths, in_member, has_fault, in_members, gravest};
ghost use Rattle.ctap_encoding.specs.TableView.{holds_view, members_view};
ghost use Rattle.ctap_encoding.specs.declared.fault.Fault.TheVariants as faults;

use crate::fault::Fault;
use crate::table::Holds;
use ccbor::{MapKey, Value};

/// Whether the test fails, and this is the fault that is asked for.
fn fails(fault: Fault, here: Fault, test: bool) -> bool
    ensures { result ≡ fails fault here test }
{
    !test && fault.is(here)
}

/// The bytes of a string, or the items of an array.
fn size_of(value: &Value) -> u64
    ensures { result ≡ size_of (view value.now) }
{
    if let Some(content) = value.as_bytes() {
        return content.len() as u64;
    }
    if let Some(text) = value.as_text() {
        return text.len() as u64;
    }
    match value.as_array() {
        Some(items) => items.len() as u64,
        None => 0,
    }
}

fn is_listed(members: &[(MapKey<'static>, bool, Holds)], value: &Value) -> bool
    ensures { result ≡ is_listed (members_view members.now) (view value.now) }
{
    for (key, _, _) in members {
        if value.is_key(*key) {
            return true;
        }
    }
    false
}

fn all_listed(members: &[(MapKey<'static>, bool, Holds)], pairs: &[(Value, Value)]) -> bool
    ensures { result ≡ all_keys (is_listed (members_view members.now)) (pairs_view pairs.now) }
{
    for (key, _) in pairs {
        if !is_listed(members, key) {
            return false;
        }
    }
    true
}

/// Whether these are texts and their truth values.
fn all_truths(pairs: &[(Value, Value)]) -> bool
    ensures { result ≡ all_truths (pairs_view pairs.now) }
{
    for (key, value) in pairs {
        if key.as_text().is_none() || value.as_bool().is_none() {
            return false;
        }
    }
    true
}

/// Whether the value has this fault somewhere in it.
#[cycle(faults)]
fn has_fault(fault: Fault, holds: &Holds, value: &Value) -> bool
    ensures { result ≡ has_fault fault (holds_view holds.now) (view value.now) }
{
    match holds {
        Holds::Number => fails(
            fault,
            Fault::AnotherKind,
            value.as_uint().is_some() || value.as_nint().is_some(),
        ),
        Holds::Bytes => fails(fault, Fault::AnotherKind, value.as_bytes().is_some()),
        Holds::Text => fails(fault, Fault::AnotherKind, value.as_text().is_some()),
        Holds::Truth => fails(fault, Fault::AnotherKind, value.as_bool().is_some()),
        Holds::AnyMap => fails(fault, Fault::AnotherKind, value.as_map().is_some()),
        Holds::ThatText(text) => fails(fault, Fault::AnotherKind, value.is_key(MapKey::Text(text))),
        Holds::Unsigned(low) => match value.as_uint() {
            Some(n) => fails(fault, Fault::AnotherKind, *low <= n),
            None => fails(fault, Fault::AnotherKind, false),
        },
        Holds::Truths => match value.as_map() {
            Some(pairs) => fails(fault, Fault::AnotherKind, all_truths(pairs)),
            None => fails(fault, Fault::AnotherKind, false),
        },
        Holds::List(inner) => match value.as_array() {
            Some(items) => any_item(fault, inner, items),
            None => fails(fault, Fault::AnotherKind, false),
        },
        Holds::Record(members) => match value.as_map() {
            Some(pairs) => {
                fails(fault, Fault::UnlistedKey, all_listed(members, pairs))
                    || in_members(fault, members, value)
            }
            None => fails(fault, Fault::AnotherKind, false),
        },
        Holds::NotEmpty(here, inner) => {
            has_fault(fault, inner, value) || fails(fault, *here, 0 < size_of(value))
        }
        Holds::Sized(low, high, here, inner) => {
            let size = size_of(value);
            has_fault(fault, inner, value) || fails(fault, *here, *low <= size && size <= *high)
        }
    }
}

#[cycle(faults)]
fn any_item(fault: Fault, holds: &Holds, items: &[Value]) -> bool
    ensures { result ≡ any_item (has_fault fault (holds_view holds.now)) (items_view items.now) }
{
    for item in items {
        if has_fault(fault, holds, item) {
            return true;
        }
    }
    false
}

#[cycle(faults)]
fn in_members(fault: Fault, members: &[(MapKey<'static>, bool, Holds)], value: &Value) -> bool
    ensures { result ≡ in_members fault (members_view members.now) (view value.now) }
{
    for (key, required, holds) in members {
        if in_member(fault, holds, *required, value.get(*key)) {
            return true;
        }
    }
    false
}

#[cycle(faults)]
fn in_member(fault: Fault, holds: &Holds, required: bool, held: Option<&Value>) -> bool
    ensures { result ≡ in_member (has_fault fault (holds_view holds.now))
        (fails fault faults.MissingMember (not required)) (option_map (λ b. view b.now) held.entry) }
{
    match held {
        Some(value) => has_fault(fault, holds, value),
        None => fails(fault, Fault::MissingMember, !required),
    }
}

/// The gravest fault that the value has against the table, if it has one: another kind, at any level
/// that is reached through members of the right kind; then an unlisted key; a required member that is
/// missing; an invalid size; a limit exceeded.
pub fn gravest(holds: &Holds, value: &Value) -> Option<Fault>
    ensures { result ≡ gravest (holds_view holds.now) (view value.now) }
{
    if has_fault(Fault::AnotherKind, holds, value) {
        return Some(Fault::AnotherKind);
    }
    if has_fault(Fault::UnlistedKey, holds, value) {
        return Some(Fault::UnlistedKey);
    }
    if has_fault(Fault::MissingMember, holds, value) {
        return Some(Fault::MissingMember);
    }
    if has_fault(Fault::InvalidSize, holds, value) {
        return Some(Fault::InvalidSize);
    }
    if has_fault(Fault::OverLimit, holds, value) {
        return Some(Fault::OverLimit);
    }
    None
}
