//! Reading a reply.

ghost use Rattle.std.specs.Prelude.{◌≡◌, ◌≢◌, ◌∷◌, IfOk, IfErr, option_map};
ghost use Rattle.ccbor.specs.Item.{Item};
ghost use Rattle.ccbor.specs.Canon.{Canon};
ghost use Rattle.ccbor.specs.Viewing.{shown};
ghost use Rattle.ctap_replies.specs.Replies.{Assertion, Creation, creation_reply, assertion_reply, next_reply, info_reply, IsReply, ReplyOf, ReplyRefused};
ghost use Rattle.ctap_replies.specs.ReplyView.{creation_reply_view, assertion_reply_view, lent_assertion_view, info_view, reply_view};
ghost use Rattle.ctap_encoding.specs.declared.error.Error.TheVariants as errors;
ghost use Rattle.ctap_replies.specs.declared.reply.Kind.{Kind};
ghost use Rattle.ctap_replies.specs.declared.reply.Kind.TheVariants as kinds;

use crate::maps::{assertion_reply, creation_reply, info};
use crate::reply::{AssertionReply, AssertionView, CreationReply, InfoReply, Kind, Reply};
use crate::usual::usual_assertion;
use ccbor::View;
use ctap_encoding::Error;
use ctap_encoding::status::OK;
use std::alloc::{AllocError, Global};

/// The value that follows status 0.
fn whole<'a>(rest: &'a [u8]) -> Result<View<'a>, Error>
    ensures found { IfOk result (λ v. Canon (shown v) rest.now) }
    ensures none { IfErr result (λ _. (v : Item) → Canon v rest.now → ⊥) }
    ensures errors { IfErr result (λ e. e ≡ errors.NotCanonical) }
{
    match View::check_all(rest) {
        Ok(value) => Ok(value),
        Err(_) => Err(Error::NotCanonical),
    }
}

fn creation_reply_after(alloc: Global, rest: &[u8]) -> Result<CreationReply, Error>
    ensures found { IfOk result (λ r.
        IsReply kinds.MakeCredential (creation_reply (creation_reply_view r)) (0 ∷ rest.now)) }
    ensures refused { IfErr result (λ e. ReplyRefused kinds.MakeCredential (0 ∷ rest.now) e) }
{
    let value = whole(rest)?;
    match creation_reply(alloc, &value) {
        Ok(reply) => Ok(reply),
        Err(e) => Err(Error::from(e)),
    }
}

/// The reply to getAssertion, after status 0.
fn assertion_after(rest: &[u8]) -> Result<AssertionView<'_>, Error>
    ensures found { IfOk result (λ r.
        IsReply kinds.GetAssertion (assertion_reply (lent_assertion_view r)) (0 ∷ rest.now)) }
    ensures refused { IfErr result (λ e. ReplyRefused kinds.GetAssertion (0 ∷ rest.now) e) }
    ensures no_memory { IfErr result (λ e. e ≢ errors.Memory) }
{
    if let Some(reply) = usual_assertion(rest) {
        return Ok(reply);
    }
    let value = whole(rest)?;
    match assertion_reply(&value) {
        Ok(reply) => Ok(reply),
        Err(_) => Err(Error::Shape),
    }
}

/// The reply to getNextAssertion, after status 0.
fn next_after(rest: &[u8]) -> Result<AssertionView<'_>, Error>
    ensures found { IfOk result (λ r.
        IsReply kinds.GetNextAssertion (next_reply (lent_assertion_view r)) (0 ∷ rest.now)) }
    ensures refused { IfErr result (λ e. ReplyRefused kinds.GetNextAssertion (0 ∷ rest.now) e) }
{
    let value = whole(rest)?;
    match assertion_reply(&value) {
        Ok(reply) => match reply.number {
            None => Ok(reply),
            Some(_) => Err(Error::Shape),
        },
        Err(_) => Err(Error::Shape),
    }
}

/// The user's id, in memory of its own.
fn owned_user(alloc: Global, user: Option<&[u8]>) -> Result<Option<Vec<u8>>, AllocError>
    ensures { IfOk result (λ u. option_map (λ v. v.items) u ≡ option_map (λ b. b.now) user.entry) }
{
    match user {
        Some(user) => Ok(Some(Vec::from_slice(alloc, user)?)),
        None => Ok(None),
    }
}

/// The reply, in memory of its own.
fn owned(alloc: Global, reply: &AssertionView<'_>) -> Result<AssertionReply, AllocError>
    ensures { IfOk result (λ r. assertion_reply_view r ≡ lent_assertion_view reply.now) }
{
    Ok(AssertionReply {
        credential: Vec::from_slice(alloc, reply.credential)?,
        auth_data: Vec::from_slice(alloc, reply.auth_data)?,
        signature: Vec::from_slice(alloc, reply.signature)?,
        user: owned_user(alloc, reply.user)?,
        number: reply.number,
    })
}

fn info_reply_after(alloc: Global, rest: &[u8]) -> Result<InfoReply, Error>
    ensures found { IfOk result (λ r.
        IsReply kinds.GetInfo (info_reply (info_view r)) (0 ∷ rest.now)) }
    ensures refused { IfErr result (λ e. ReplyRefused kinds.GetInfo (0 ∷ rest.now) e) }
{
    let value = whole(rest)?;
    match info(alloc, &value) {
        Ok(reply) => Ok(reply),
        Err(e) => Err(Error::from(e)),
    }
}

fn reset_reply_after(rest: &[u8]) -> Result<Reply, Error>
    ensures found { IfOk result (λ r. IsReply kinds.Reset (reply_view r) (0 ∷ rest.now)) }
    ensures refused { IfErr result (λ e. ReplyRefused kinds.Reset (0 ∷ rest.now) e) }
{
    match rest.split_first() {
        None => Ok(Reply::Reset),
        Some(_) => Err(Error::Shape),
    }
}

/// The reply to a command, after status 0.
fn reply_after(alloc: Global, kind: Kind, rest: &[u8]) -> Result<Reply, Error>
    ensures found { IfOk result (λ r. IsReply kind (reply_view r) (0 ∷ rest.now)) }
    ensures refused { IfErr result (λ e. ReplyRefused kind (0 ∷ rest.now) e) }
{
    match kind {
        Kind::MakeCredential => Ok(Reply::MakeCredential(creation_reply_after(alloc, rest)?)),
        Kind::GetAssertion => Ok(Reply::GetAssertion(owned(alloc, &assertion_after(rest)?)?)),
        Kind::GetNextAssertion => Ok(Reply::GetNextAssertion(owned(alloc, &next_after(rest)?)?)),
        Kind::GetInfo => Ok(Reply::GetInfo(info_reply_after(alloc, rest)?)),
        Kind::Reset => reset_reply_after(rest),
    }
}

/// What follows status 0.
fn after_status(bytes: &[u8]) -> Result<&[u8], Error>
    ensures found { IfOk result (λ r. bytes.now ≡ 0 ∷ r.now) }
    ensures refused { (kind : Kind) → IfErr result (λ e. ReplyRefused kind bytes.now e) }
    ensures no_memory { IfErr result (λ e. e ≢ errors.Memory) }
{
    let Some((status, rest)) = bytes.split_first() else {
        return Err(Error::Empty);
    };
    if *status != OK {
        return Err(Error::Refused(*status));
    }
    Ok(rest)
}

/// The reply of these bytes to getAssertion. Its members lie in them: nothing is copied, and no
/// memory is taken.
///
/// Refused as [`read_reply`] refuses, but never because memory ran out.
pub fn read_assertion(bytes: &[u8]) -> Result<AssertionView<'_>, Error>
    ensures found { IfOk result (λ r.
        IsReply kinds.GetAssertion (assertion_reply (lent_assertion_view r)) bytes.now) }
    ensures refused { IfErr result (λ e. ReplyRefused kinds.GetAssertion bytes.now e) }
    ensures no_memory { IfErr result (λ e. e ≢ errors.Memory) }
    // So bytes that are refused are no such reply.
    ensures none { IfErr result (λ _. (q : Assertion) → ReplyOf (assertion_reply q) bytes.now → ⊥) }
{
    // A `match` where the proof speaks of the error: `?` hides it behind its conversion.
    let rest = match after_status(bytes) {
        Ok(rest) => rest,
        Err(e) => return Err(e),
    };
    match assertion_after(rest) {
        Ok(reply) => Ok(reply),
        Err(e) => Err(e),
    }
}

/// The reply of these bytes to makeCredential, in memory of its own.
///
/// Refused as [`read_reply`] refuses.
pub fn read_creation(alloc: Global, bytes: &[u8]) -> Result<CreationReply, Error>
    ensures found { IfOk result (λ r.
        IsReply kinds.MakeCredential (creation_reply (creation_reply_view r)) bytes.now) }
    ensures refused { IfErr result (λ e. ReplyRefused kinds.MakeCredential bytes.now e) }
    // So bytes that are refused, unless memory ran out, are no such reply.
    ensures none { IfErr result (λ e. e ≢ errors.Memory
        → (q : Creation) → ReplyOf (creation_reply q) bytes.now → ⊥) }
{
    // As in `read_assertion`.
    let rest = match after_status(bytes) {
        Ok(rest) => rest,
        Err(e) => return Err(e),
    };
    match creation_reply_after(alloc, rest) {
        Ok(reply) => Ok(reply),
        Err(e) => Err(e),
    }
}

/// The reply of these bytes to a command of this kind.
///
/// Refused with the first of these that applies, or as [`Error::Memory`]: `Empty` (17) where there
/// is no byte; `Refused` (18) with the status byte where that is not 0, and what follows it is not
/// looked at; `NotCanonical` (2) where what follows is not one whole canonical CBOR value; `Shape`
/// (13) where that value is not the map of such a reply, or for reset where anything follows.
pub fn read_reply(alloc: Global, kind: Kind, bytes: &[u8]) -> Result<Reply, Error>
    ensures found { IfOk result (λ r. IsReply kind (reply_view r) bytes.now) }
    ensures refused { IfErr result (λ e. ReplyRefused kind bytes.now e) }
{
    // As in `read_assertion`.
    match after_status(bytes) {
        Ok(rest) => reply_after(alloc, kind, rest),
        Err(e) => Err(e),
    }
}
