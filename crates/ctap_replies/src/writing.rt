//! Writing a reply.

ghost use Rattle.std.specs.Prelude.{◌≡◌, ◌∷◌, [], ℕ, List, IfOk, IfErr, IsErrOf};
ghost use Rattle.ccbor.specs.View.{view};
ghost use Rattle.ctap_replies.specs.Pieces.{WrittenValue, WrittenMap};
ghost use Rattle.ctap_replies.specs.Replies.{creation_reply_members, info_members, creation_reply_item, info_item, next_reply, ReplyOf};
ghost use Rattle.ctap_replies.specs.ReplyView.{creation_reply_view, info_view, lent_assertion_view, reply_view};
ghost use Rattle.ctap_encoding.specs.Numbers.{IsWritingError};
ghost use Rattle.ctap_encoding.specs.declared.error.Error.TheVariants as errors;

use crate::assertions::{lent, write_assertion};
use crate::reply::{AssertionView, CreationReply, InfoReply, Reply};
use crate::tables::{creation_reply_fault, info_fault};
use crate::values::{creation_reply_value, info_value};
use ccbor::{Value, encode};
use ctap_encoding::Error;
use ctap_encoding::status::OK;
use std::alloc::{AllocError, Global};

/// Status 0 and the value's encoding.
fn with_value(alloc: Global, value: &Value) -> Result<Vec<u8>, Error>
    ensures { WrittenValue (λ v. v.items) (view value.now) result }
{
    let mut out = status_alone(alloc)?;
    match encode(value, &mut out) {
        Ok(()) => Ok(out),
        Err(ccbor::Error::Unfit) => Err(Error::Unfit),
        Err(_) => Err(Error::Memory),
    }
}

fn creation_reply_bytes(alloc: Global, reply: CreationReply) -> Result<Vec<u8>, Error>
    ensures { WrittenMap (λ v. v.items) creation_reply_members
        (creation_reply_item (creation_reply_view reply)) result }
{
    let value = creation_reply_value(alloc, reply)?;
    match creation_reply_fault(&value) {
        None => with_value(alloc, &value),
        Some(_) => Err(Error::Unfit),
    }
}

/// The reply to getNextAssertion, which has no number of credentials.
fn next_reply_bytes(alloc: Global, reply: &AssertionView<'_>) -> Result<Vec<u8>, Error>
    ensures spelled { IfOk result (λ bytes. ReplyOf (next_reply (lent_assertion_view reply.now)) bytes.items) }
    ensures unfit { IsErrOf result errors.Unfit
        → (bs : List ℕ) → ReplyOf (next_reply (lent_assertion_view reply.now)) bs → ⊥ }
    ensures errors { IfErr result IsWritingError }
{
    match reply.number {
        None => write_assertion(alloc, reply),
        Some(_) => Err(Error::Unfit),
    }
}

fn info_reply_bytes(alloc: Global, reply: InfoReply) -> Result<Vec<u8>, Error>
    ensures { WrittenMap (λ v. v.items) info_members (info_item (info_view reply)) result }
{
    let value = info_value(alloc, &reply)?;
    match info_fault(&value) {
        None => with_value(alloc, &value),
        Some(_) => Err(Error::Unfit),
    }
}

/// Status 0 alone.
fn status_alone(alloc: Global) -> Result<Vec<u8>, AllocError>
    ensures { IfOk result (λ bytes. bytes.items ≡ 0 ∷ []) }
{
    let mut out = Vec::new(alloc);
    out.push(OK)?;
    Ok(out)
}

/// The bytes of a reply: status 0 and its map. The reply is given by value, since the parts of one to
/// makeCredential become those of the map that is encoded; it is dropped. Of an assertion
/// [`write_assertion`] writes the same from lent members.
///
/// Refused as [`Error::Unfit`] where it has none: an id of no byte or more than 64, a number of
/// credentials below 2 or in a reply to getNextAssertion, an aaguid that hasn't 16 bytes, options
/// out of the order of canonical keys, a statement that is no map or has no canonical encoding
/// with three levels of nesting. Otherwise only [`Error::Memory`] is answered.
pub fn write_reply(alloc: Global, reply: Reply) -> Result<Vec<u8>, Error>
    ensures spelled { IfOk result (λ bytes. ReplyOf (reply_view reply) bytes.items) }
    // It is called unfit only if no bytes are this reply.
    ensures unfit { IsErrOf result errors.Unfit
        → (bs : List ℕ) → ReplyOf (reply_view reply) bs → ⊥ }
    ensures errors { IfErr result IsWritingError }
{
    match reply {
        Reply::MakeCredential(reply) => creation_reply_bytes(alloc, reply),
        Reply::GetAssertion(reply) => write_assertion(alloc, &lent(&reply)),
        Reply::GetNextAssertion(reply) => next_reply_bytes(alloc, &lent(&reply)),
        Reply::GetInfo(reply) => info_reply_bytes(alloc, reply),
        Reply::Reset => Ok(status_alone(alloc)?),
    }
}
