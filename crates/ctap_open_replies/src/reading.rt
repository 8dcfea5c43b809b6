//! Reading a reply.

ghost use Rattle.std.specs.Prelude.{◌≡◌, ◌≢◌, ◌∷◌, IfOk, IfErr, Some, option_map};
ghost use Rattle.ccbor.specs.Item.{Item};
ghost use Rattle.ccbor.specs.Canon.{Canon};
ghost use Rattle.ccbor.specs.Viewing.{shown};
ghost use Rattle.ctap_encoding.specs.declared.error.Error.TheVariants as errors;
ghost use Rattle.ctap_open_replies.specs.Replies.{Assertion, Creation, HasNoValue, HasValue, Info, IsReply, Refused, ReplyOf, TellsAssertion, TellsCreation, TellsInfo};
ghost use Rattle.ctap_open_replies.specs.ReplyView.{assertion_view, creation_view, info_view};

use crate::maps::{assertion, creation, info};
use crate::reply::{KeyAssertion, KeyCreation, KeyInfo};
use ccbor::View;
use ctap_encoding::Error;
use ctap_encoding::status::OK;
use std::alloc::Global;

/// What follows status 0.
fn after_status(bytes: &[u8]) -> Result<&[u8], Error>
    ensures found { IfOk result (λ r. bytes.now ≡ 0 ∷ r.now) }
    ensures refused { IfErr result (λ e. HasNoValue bytes.now e) }
{
    let Some((status, rest)) = bytes.split_first() else {
        return Err(Error::Empty);
    };
    if *status != OK {
        return Err(Error::Refused(*status));
    }
    Ok(rest)
}

/// One whole canonical value.
fn whole(rest: &[u8]) -> Result<View<'_>, Error>
    ensures found { IfOk result (λ v. Canon (shown v) rest.now) }
    ensures none { IfErr result (λ _. (v : Item) → Canon v rest.now → ⊥) }
    ensures errors { IfErr result (λ e. e ≡ errors.NotCanonical) }
{
    match View::check_all(rest) {
        Ok(value) => Ok(value),
        Err(_) => Err(Error::NotCanonical),
    }
}

/// The value of a reply, of any command (CTAP 2.1, section 6): what follows status 0, where it lies.
///
/// Refused as `Empty` (17) where there is no byte; `Refused` (18) with the status byte where that is not 0;
/// `NotCanonical` (2) where what follows is not one whole canonical CBOR value.
pub fn value_of(bytes: &[u8]) -> Result<View<'_>, Error>
    ensures found { IfOk result (λ v. HasValue bytes.now (shown v)) }
    ensures refused { IfErr result (λ e. HasNoValue bytes.now e) }
{
    // A `match` where the proof speaks of the error: `?` hides it behind its conversion.
    let rest = match after_status(bytes) {
        Ok(rest) => rest,
        Err(e) => return Err(e),
    };
    match whole(rest) {
        Ok(value) => Ok(value),
        Err(e) => Err(e),
    }
}

/// The reply of these bytes to makeCredential (section 6.1.2), in memory of its own.
///
/// Refused with the first of these that applies, or as [`Error::Memory`]: `Empty` (17) where there is no byte;
/// `Refused` (18) with the status byte where that is not 0, and what follows it is not looked at; `NotCanonical` (2)
/// where what follows is not one whole canonical CBOR value; `Shape` (13) where that value is not the map of such a
/// reply: where a required member is missing, or a listed one is of another kind or size. Members that are not listed
/// are passed over.
pub fn read_creation(alloc: Global, bytes: &[u8]) -> Result<KeyCreation, Error>
    ensures found { IfOk result (λ r. IsReply TellsCreation (creation_view r) bytes.now) }
    ensures refused { IfErr result (λ e. Refused TellsCreation bytes.now e) }
    // So bytes that are refused, unless memory ran out, are no such reply.
    ensures none { IfErr result (λ e. e ≢ errors.Memory → (q : Creation) → ReplyOf (TellsCreation q) bytes.now → ⊥) }
{
    // As in `value_of`.
    let value = match value_of(bytes) {
        Ok(value) => value,
        Err(e) => return Err(e),
    };
    match creation(alloc, &value) {
        Ok(reply) => Ok(reply),
        Err(e) => Err(Error::from(e)),
    }
}

/// The reply of these bytes to getAssertion or getNextAssertion (sections 6.2.2 and 6.3). Its members lie in them:
/// nothing is copied, and no memory is taken. `listed` is the id of the one credential of the request's allow list,
/// and none where that list has more or is absent, as with getNextAssertion: a reply may leave its credential out
/// only where there is one, and it is that one then.
///
/// Refused as [`read_creation`] refuses, but never because memory ran out; `Shape` too where the credential is left out
/// and none was listed alone.
pub fn read_assertion<'a>(
    bytes: &'a [u8],
    listed: Option<&'a [u8]>,
) -> Result<KeyAssertion<'a>, Error>
    ensures found { IfOk result (λ r. IsReply (TellsAssertion (option_map (λ b. b.now) listed.entry)) (assertion_view r) bytes.now) }
    ensures refused { IfErr result (λ e. Refused (TellsAssertion (option_map (λ b. b.now) listed.entry)) bytes.now e) }
    ensures no_memory { IfErr result (λ e. e ≢ errors.Memory) }
    // So bytes that are refused are no such reply.
    ensures none { IfErr result (λ _. (q : Assertion)
        → ReplyOf (TellsAssertion (option_map (λ b. b.now) listed.entry) q) bytes.now → ⊥) }
{
    // As in `value_of`.
    let value = match value_of(bytes) {
        Ok(value) => value,
        Err(e) => return Err(e),
    };
    match assertion(&value, listed) {
        Ok(reply) => Ok(reply),
        Err(_) => Err(Error::Shape),
    }
}

/// The reply of these bytes to getInfo (section 6.4). Its texts lie in them; its lists take memory.
///
/// Refused as [`read_creation`] refuses.
pub fn read_info(alloc: Global, bytes: &[u8]) -> Result<KeyInfo<'_>, Error>
    ensures found { IfOk result (λ r. IsReply TellsInfo (info_view r) bytes.now) }
    ensures refused { IfErr result (λ e. Refused TellsInfo bytes.now e) }
    // So bytes that are refused, unless memory ran out, are no such reply.
    ensures none { IfErr result (λ e. e ≢ errors.Memory → (q : Info) → ReplyOf (TellsInfo q) bytes.now → ⊥) }
{
    // As in `value_of`.
    let value = match value_of(bytes) {
        Ok(value) => value,
        Err(e) => return Err(e),
    };
    match info(alloc, &value) {
        Ok(reply) => Ok(reply),
        Err(e) => Err(Error::from(e)),
    }
}
