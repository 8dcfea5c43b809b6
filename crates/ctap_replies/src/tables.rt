//! The members of replies' maps.

ghost use Rattle.std.specs.Prelude.{◌≡◌};
ghost use Rattle.ccbor.specs.View.{view};
ghost use Rattle.ctap_encoding.specs.Table.{gravest, record_of};
ghost use Rattle.ctap_replies.specs.Replies.{creation_reply_members, info_members};

use ccbor::Value;
use ctap_encoding::member::{get_info_reply, make_credential_reply};
use ctap_encoding::{Fault, Holds, gravest};

const CREATION_REPLY: Holds = Holds::Record(&[
    (make_credential_reply::FMT, true, Holds::Text),
    (make_credential_reply::AUTH_DATA, true, Holds::Bytes),
    (make_credential_reply::ATT_STMT, true, Holds::AnyMap),
]);

const INFO: Holds = Holds::Record(&[
    (get_info_reply::VERSIONS, true, Holds::List(&Holds::Text)),
    (
        get_info_reply::AAGUID,
        true,
        Holds::Sized(16, 16, Fault::OverLimit, &Holds::Bytes),
    ),
    (get_info_reply::OPTIONS, true, Holds::Truths),
    (get_info_reply::MAX_MSG_SIZE, true, Holds::Unsigned(0)),
    (
        get_info_reply::MAX_CREDENTIAL_COUNT_IN_LIST,
        true,
        Holds::Unsigned(0),
    ),
    (
        get_info_reply::MAX_CREDENTIAL_ID_LENGTH,
        true,
        Holds::Unsigned(0),
    ),
]);

/// The gravest fault in a makeCredential reply's map.
pub fn creation_reply_fault(value: &Value) -> Option<Fault>
    ensures { result ≡ gravest (record_of creation_reply_members) (view value.now) }
{
    gravest(&CREATION_REPLY, value)
}

/// The gravest fault in a getInfo reply's map.
pub fn info_fault(value: &Value) -> Option<Fault>
    ensures { result ≡ gravest (record_of info_members) (view value.now) }
{
    gravest(&INFO, value)
}
