//! Why a ceremony ends without what was wanted.

ghost use Rattle.std.specs.Prelude.{◌≡◌};
ghost use Rattle.client_ceremony.specs.Names.{pin_name, refusal_name, request_name};
ghost use Rattle.client_ceremony.specs.Refusals.{of_reply, of_request, of_status};
ghost use Rattle.client_ceremony.specs.declared.refusal.Refusal.TheVariants as refusals;

use ctap_encoding::Error;
use ctap_encoding::status::{PIN_AUTH_BLOCKED, PIN_BLOCKED, PIN_INVALID};
use ctap_open_requests::RequestError;
use pin_protocols::PinFault;
use std::alloc::AllocError;

/// Why a ceremony ends without what was wanted.
#[derive(Clone, Copy, Debug, PartialEq, Eq, Drop, thiserror::Error)]
pub enum Refusal {
    /// Memory was wanting.
    #[error("out of memory")]
    Memory,
    /// The key refused, by this status (CTAP 2.1, section 8.2), for which no other name here stands.
    #[error("the key refused by status {0}")]
    Status(u8),
    /// The PIN is another: status 0x31.
    #[error("the PIN is wrong")]
    PinInvalid,
    /// The key takes no PIN any more: status 0x32, or no attempt is left.
    #[error("the PIN is blocked; the key has to be reset")]
    PinBlocked,
    /// The key takes no PIN before it is powered anew: status 0x34, or it told so.
    #[error("the key takes no PIN before it is plugged in anew")]
    PowerCycle,
    /// A reply is empty, is not canonical CBOR, or is none to what was sent.
    #[error("the key's reply can't be read")]
    NotReadable,
    /// The key speaks no version of CTAP 2.
    #[error("the key has no version of FIDO2")]
    U2fOnly,
    /// The user is to be verified, and the key has neither a PIN nor a verification of its own that may be used.
    #[error("the key can't verify its user")]
    NoVerification,
    /// A token is needed, and the key told neither PIN/UV auth protocol one nor two.
    #[error("the key has no known PIN/UV auth protocol")]
    NoProtocol,
    /// The PIN is to be changed, and the key has none.
    #[error("the key has no PIN")]
    PinNotSet,
    /// A first PIN is to be set, and the key has one.
    #[error("the key has a PIN already")]
    PinAlreadySet,
    /// The key takes no PIN.
    #[error("the key doesn't offer a PIN")]
    PinNotOffered,
    /// The key's point is of another key type, algorithm or curve.
    #[error("the key's point is none of its key agreement")]
    BadPoint,
    /// An answer of the host has another size than was asked for.
    #[error("the host's answer has another size")]
    BadAnswer,
    /// The key's encrypted token has another size.
    #[error("the key's token has another size")]
    BadToken,
    /// The new PIN can't be set.
    #[error("the new PIN is too short or too long, or ends in a zero byte")]
    Pin(PinFault),
    /// A request is not written.
    #[error("{0}")]
    Request(RequestError),
    /// There is no assertion at the place that was chosen.
    #[error("there is no assertion at that place")]
    NoSuchChoice,
    /// There are more replies than messages were sent.
    #[error("there are more replies than messages")]
    TooManyReplies,
}

impl Refusal {
    /// The refusal's name in lines. Of a PIN's fault and of a request that is not written it is that of the cause.
    pub fn name(&self) -> &'static str
        ensures { result.now ≡ refusal_name self.now }
    {
        match self {
            Refusal::Memory => "memory",
            Refusal::Status(_) => "status",
            Refusal::PinInvalid => "pin_invalid",
            Refusal::PinBlocked => "pin_blocked",
            Refusal::PowerCycle => "power_cycle",
            Refusal::NotReadable => "not_readable",
            Refusal::U2fOnly => "u2f_only",
            Refusal::NoVerification => "no_verification",
            Refusal::NoProtocol => "no_protocol",
            Refusal::PinNotSet => "pin_not_set",
            Refusal::PinAlreadySet => "pin_already_set",
            Refusal::PinNotOffered => "pin_not_offered",
            Refusal::BadPoint => "bad_point",
            Refusal::BadAnswer => "bad_answer",
            Refusal::BadToken => "bad_token",
            Refusal::Pin(fault) => pin_name(*fault),
            Refusal::Request(error) => request_name(*error),
            Refusal::NoSuchChoice => "no_such_choice",
            Refusal::TooManyReplies => "too_many_replies",
        }
    }
}

fn pin_name(fault: PinFault) -> &'static str
    ensures { result.now ≡ pin_name fault }
{
    match fault {
        PinFault::TooShort => "pin_too_short",
        PinFault::TooLong => "pin_too_long",
        PinFault::EndsInZero => "pin_ends_in_zero",
    }
}

fn request_name(error: RequestError) -> &'static str
    ensures { result.now ≡ request_name error }
{
    match error {
        RequestError::Memory => "memory",
        RequestError::OptionNotOffered => "option_not_offered",
        RequestError::ListTooLong => "list_too_long",
        RequestError::IdTooLong => "id_too_long",
        RequestError::Unfit => "unfit",
        RequestError::MessageTooLong => "message_too_long",
    }
}

/// The refusal of a status that is not 0.
fn of_status(status: u8) -> Refusal
    ensures { result ≡ of_status status }
{
    match status {
        PIN_INVALID => Refusal::PinInvalid,
        PIN_BLOCKED => Refusal::PinBlocked,
        PIN_AUTH_BLOCKED => Refusal::PowerCycle,
        _ => Refusal::Status(status),
    }
}

/// The refusal of a reply that tells nothing.
pub(crate) fn of_reply(error: Error) -> Refusal
    ensures { result ≡ of_reply error }
{
    match error {
        Error::Memory => Refusal::Memory,
        Error::Refused(status) => of_status(status),
        Error::Unfit | Error::NotCanonical | Error::Shape | Error::Empty | Error::Status(_) => {
            Refusal::NotReadable
        }
    }
}

/// The refusal of a request that is not written.
pub(crate) fn of_request(error: RequestError) -> Refusal
    ensures { result ≡ of_request error }
{
    match error {
        RequestError::Memory => Refusal::Memory,
        _ => Refusal::Request(error),
    }
}

impl From<AllocError> for Refusal {
    ghost from_gives = { λ _ e. e ≡ refusals.Memory };

    fn from(_e: AllocError) -> Refusal {
        Refusal::Memory
    }
}
