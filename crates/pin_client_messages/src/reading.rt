//! Reading a reply.

ghost use Rattle.std.specs.Prelude.{◌≡◌, ◌≢◌, ◌∷◌, IfOk, IfErr, OnOk};
ghost use Rattle.ctap_encoding.specs.declared.error.Error.TheVariants as errors;
ghost use Rattle.ctap_open_replies.specs.Replies.{IsReply, Refused, ReplyOf};
ghost use Rattle.pin_client_messages.specs.Replies.{IsDone, IsNotDone, Told, TellsPin};
ghost use Rattle.pin_client_messages.specs.ReplyView.{reply_view};

use crate::maps::reply;
use crate::reply::PinReply;
use ctap_encoding::Error;
use ctap_encoding::status::OK;
use ctap_open_replies::value_of;

/// The reply of these bytes to a subcommand that tells something (CTAP 2.1, section 6.5.5). Its members lie in the
/// bytes: nothing is copied. Which of them are there is the caller's to look at.
///
/// Refused with the first of these that applies: `Empty` (17) where there is no byte; `Refused` (18) with the status
/// byte where that is not 0; `NotCanonical` (2) where what follows is not one whole canonical CBOR value; `Shape` (13)
/// where that is no map, or a listed member is of another kind or size.
pub fn read_pin_reply(bytes: &[u8]) -> Result<PinReply<'_>, Error>
    ensures found { IfOk result (λ r. IsReply TellsPin (reply_view r) bytes.now) }
    ensures refused { IfErr result (λ e. Refused TellsPin bytes.now e) }
    ensures no_memory { IfErr result (λ e. e ≢ errors.Memory) }
    // So bytes that are refused are no such reply.
    ensures none { IfErr result (λ _. (q : Told) → ReplyOf (TellsPin q) bytes.now → ⊥) }
{
    // A `match` where the proof speaks of the error: `?` hides it behind its conversion.
    let value = match value_of(bytes) {
        Ok(value) => value,
        Err(e) => return Err(e),
    };
    match reply(&value) {
        Ok(reply) => Ok(reply),
        Err(_) => Err(Error::Shape),
    }
}

/// Whether the reply of these bytes says that the command was carried out, as of setPIN and changePIN (CTAP 2.1,
/// sections 6.5.5.5 and 6.5.5.6), which tell nothing: what follows status 0 is not looked at.
///
/// Refused as `Empty` (17) where there is no byte, else as `Refused` (18) with the status byte.
pub fn read_done(bytes: &[u8]) -> Result<(), Error>
    ensures done { OnOk result (IsDone bytes.now) }
    ensures refused { IfErr result (IsNotDone bytes.now) }
{
    match bytes.first() {
        Some(&OK) => Ok(()),
        Some(status) => Err(Error::Refused(*status)),
        None => Err(Error::Empty),
    }
}
