//! The members of requests' maps.

ghost use Rattle.std.specs.Prelude.{◌≡◌};
ghost use Rattle.ccbor.specs.View.{view};
ghost use Rattle.ctap_encoding.specs.Table.{gravest, record_of};
ghost use Rattle.ctap_open_requests.specs.Requests.{assertion_members, creation_members};

use ccbor::{MapKey, Value};
use ctap_encoding::member::{get_assertion, make_credential};
use ctap_encoding::{Fault, Holds, gravest};

const HASH: Holds = Holds::Sized(32, 32, Fault::InvalidSize, &Holds::Bytes);

const RP_ID: Holds = Holds::Sized(1, 253, Fault::OverLimit, &Holds::Text);

const RELYING_PARTY: Holds = Holds::Record(&[
    (MapKey::Text("id"), true, RP_ID),
    (MapKey::Text("name"), false, Holds::Text),
]);

const USER: Holds = Holds::Record(&[
    (
        MapKey::Text("id"),
        true,
        Holds::Sized(1, 64, Fault::OverLimit, &Holds::Bytes),
    ),
    (MapKey::Text("name"), false, Holds::Text),
    (MapKey::Text("displayName"), false, Holds::Text),
]);

const PARAMETERS: Holds = Holds::Record(&[
    (MapKey::Text("alg"), true, Holds::Number),
    (MapKey::Text("type"), true, Holds::Text),
]);

const DESCRIPTOR: Holds = Holds::Record(&[
    (
        MapKey::Text("id"),
        true,
        Holds::Sized(1, 1023, Fault::OverLimit, &Holds::Bytes),
    ),
    (MapKey::Text("type"), true, Holds::ThatText("public-key")),
]);

const OPTIONS: Holds = Holds::Record(&[
    (MapKey::Text("rk"), false, Holds::Truth),
    (MapKey::Text("up"), false, Holds::Truth),
    (MapKey::Text("uv"), false, Holds::Truth),
]);

const CREATION: Holds = Holds::Record(&[
    (make_credential::CLIENT_DATA_HASH, true, HASH),
    (make_credential::RP, true, RELYING_PARTY),
    (make_credential::USER, true, USER),
    (
        make_credential::PUB_KEY_CRED_PARAMS,
        true,
        Holds::List(&PARAMETERS),
    ),
    (
        make_credential::EXCLUDE_LIST,
        false,
        Holds::List(&DESCRIPTOR),
    ),
    (make_credential::EXTENSIONS, false, Holds::AnyMap),
    (make_credential::OPTIONS, false, OPTIONS),
    (make_credential::PIN_UV_AUTH_PARAM, false, Holds::Bytes),
    (
        make_credential::PIN_UV_AUTH_PROTOCOL,
        false,
        Holds::Unsigned(0),
    ),
]);

const ASSERTION: Holds = Holds::Record(&[
    (get_assertion::RP_ID, true, RP_ID),
    (get_assertion::CLIENT_DATA_HASH, true, HASH),
    (get_assertion::ALLOW_LIST, false, Holds::List(&DESCRIPTOR)),
    (get_assertion::EXTENSIONS, false, Holds::AnyMap),
    (get_assertion::OPTIONS, false, OPTIONS),
    (get_assertion::PIN_UV_AUTH_PARAM, false, Holds::Bytes),
    (
        get_assertion::PIN_UV_AUTH_PROTOCOL,
        false,
        Holds::Unsigned(0),
    ),
]);

/// The gravest fault in a makeCredential request's map.
pub fn creation_fault(value: &Value) -> Option<Fault>
    ensures { result ≡ gravest (record_of creation_members) (view value.now) }
{
    gravest(&CREATION, value)
}

/// The gravest fault in a getAssertion request's map.
pub fn assertion_fault(value: &Value) -> Option<Fault>
    ensures { result ≡ gravest (record_of assertion_members) (view value.now) }
{
    gravest(&ASSERTION, value)
}
