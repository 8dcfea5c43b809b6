//! The members of requests' maps.

ghost use Rattle.std.specs.Prelude.{◌≡◌};
ghost use Rattle.ccbor.specs.View.{view};
ghost use Rattle.ctap_encoding.specs.Table.{gravest, record_of};
ghost use Rattle.ctap_requests.specs.Requests.{creation_members, assertion_members, map_of};

use ccbor::{MapKey, Value};
use ctap_encoding::command::MAKE_CREDENTIAL;
use ctap_encoding::member::{get_assertion, make_credential};
use ctap_encoding::{Fault, Holds, gravest};

const DESCRIPTOR: Holds = Holds::Record(&[
    (
        MapKey::Text("id"),
        true,
        Holds::Sized(1, 64, Fault::OverLimit, &Holds::Bytes),
    ),
    (MapKey::Text("type"), true, Holds::Text),
]);

const RELYING_PARTY: Holds = Holds::Record(&[
    (
        MapKey::Text("id"),
        true,
        Holds::Sized(1, 253, Fault::OverLimit, &Holds::Text),
    ),
    (MapKey::Text("name"), false, Holds::Text),
]);

const USER: Holds = Holds::Record(&[
    (
        MapKey::Text("id"),
        true,
        Holds::Sized(1, 64, Fault::OverLimit, &Holds::Bytes),
    ),
    (MapKey::Text("name"), false, Holds::Text),
    (MapKey::Text("displayName"), false, Holds::Text),
]);

const PARAMETERS: Holds = Holds::Record(&[
    (MapKey::Text("alg"), true, Holds::Number),
    (MapKey::Text("type"), true, Holds::Text),
]);

const CREATION_OPTIONS: Holds = Holds::Record(&[
    (MapKey::Text("rk"), false, Holds::Truth),
    (MapKey::Text("up"), false, Holds::Truth),
    (MapKey::Text("uv"), false, Holds::Truth),
]);

const ASSERTION_OPTIONS: Holds = Holds::Record(&[
    (MapKey::Text("up"), false, Holds::Truth),
    (MapKey::Text("uv"), false, Holds::Truth),
]);

const CREATION: Holds = Holds::Record(&[
    (
        make_credential::CLIENT_DATA_HASH,
        true,
        Holds::Sized(32, 32, Fault::InvalidSize, &Holds::Bytes),
    ),
    (make_credential::RP, true, RELYING_PARTY),
    (make_credential::USER, true, USER),
    (
        make_credential::PUB_KEY_CRED_PARAMS,
        true,
        Holds::List(&PARAMETERS),
    ),
    (
        make_credential::EXCLUDE_LIST,
        false,
        Holds::Sized(0, 8, Fault::OverLimit, &Holds::List(&DESCRIPTOR)),
    ),
    (make_credential::EXTENSIONS, false, Holds::AnyMap),
    (make_credential::OPTIONS, false, CREATION_OPTIONS),
]);

const ASSERTION: Holds = Holds::Record(&[
    (
        get_assertion::RP_ID,
        true,
        Holds::Sized(1, 253, Fault::OverLimit, &Holds::Text),
    ),
    (
        get_assertion::CLIENT_DATA_HASH,
        true,
        Holds::Sized(32, 32, Fault::InvalidSize, &Holds::Bytes),
    ),
    (
        get_assertion::ALLOW_LIST,
        false,
        Holds::NotEmpty(
            Fault::InvalidSize,
            &Holds::Sized(0, 8, Fault::OverLimit, &Holds::List(&DESCRIPTOR)),
        ),
    ),
    (get_assertion::EXTENSIONS, false, Holds::AnyMap),
    (get_assertion::OPTIONS, false, ASSERTION_OPTIONS),
]);

/// The gravest fault in a makeCredential request's map.
fn creation_fault(value: &Value) -> Option<Fault>
    ensures { result ≡ gravest (record_of creation_members) (view value.now) }
{
    gravest(&CREATION, value)
}

/// The gravest fault in a getAssertion request's map.
fn assertion_fault(value: &Value) -> Option<Fault>
    ensures { result ≡ gravest (record_of assertion_members) (view value.now) }
{
    gravest(&ASSERTION, value)
}

/// The gravest fault in the map of a command's request.
pub fn map_fault(command: u8, value: &Value) -> Option<Fault>
    ensures { result ≡ gravest (map_of command) (view value.now) }
{
    if command == MAKE_CREDENTIAL {
        creation_fault(value)
    } else {
        assertion_fault(value)
    }
}
