//! Writing the reply to a getAssertion or getNextAssertion, member by member.

ghost use Rattle.std.specs.Prelude.{◌≡◌, ◌<◌, ◌≤◌, ◌^◌, ◌∷◌, ◌++◌, ℕ, List, IfOk, IfErr, IfSome, IsErrOf, IsTrue, ◌↔◌, OnOk, option_map};
ghost use Rattle.ccbor.specs.Canon.{spelling};
ghost use Rattle.ctap_encoding.specs.Content.{item_of};
ghost use Rattle.ctap_encoding.specs.Table.{record_of};
ghost use Rattle.ctap_replies.specs.Pieces.{HasSizes, IsIdSize, member_count, number_bytes, required_bytes, user_bytes};
ghost use Rattle.ctap_replies.specs.Replies.{credential_members, credential_content, reply_user_members, reply_user_content, assertion_reply};
ghost use Rattle.ctap_replies.specs.Replies.{assertion_reply_item, next_reply, ReplyOf};
ghost use Rattle.ctap_replies.specs.ReplyView.{assertion_reply_view, lent_assertion_view};
ghost use Rattle.ctap_encoding.specs.Numbers.{IsWritingError};
ghost use Rattle.ctap_encoding.specs.declared.error.Error.TheVariants as errors;

use crate::reply::{AssertionReply, AssertionView};
use ccbor::{append_bytes, append_map_head, append_text, append_unsigned};
use ctap_encoding::Error;
use ctap_encoding::member::get_assertion_reply::{
    AUTH_DATA_NUMBER, CREDENTIAL_NUMBER, NUMBER_OF_CREDENTIALS_NUMBER, SIGNATURE_NUMBER,
    USER_NUMBER,
};
use ctap_encoding::status::OK;
use std::alloc::{AllocError, Global};

/// The most bytes of a reply beside its authenticator data and signature: 62 with the heads, the keys and the
/// number, and two ids of 64.
const MOST_BESIDE: usize = 190;

/// Whether a credential id or a user handle has 1 to 64 bytes.
pub(crate) fn is_id_size(id: &[u8]) -> bool
    ensures { IsTrue result ↔ IsIdSize id.now }
{
    !id.is_empty() && id.len() <= 64
}

/// Whether the user handle, where it is there, has 1 to 64 bytes.
fn is_user_size(user: Option<&[u8]>) -> bool
    ensures { IsTrue result ↔ IfSome (option_map (λ b. b.now) user.entry) IsIdSize }
{
    match user {
        Some(user) => is_id_size(user),
        None => true,
    }
}

/// Whether the number of credentials, where it is there, is at least 2.
fn is_number(number: Option<u64>) -> bool
    ensures limit { IsTrue result ↔ IfSome number (λ n. 2 ≤ n) }
    ensures fits { IfSome number (λ n. n < 2 ^ 64) }
{
    match number {
        Some(number) => number >= 2,
        None => true,
    }
}

/// Whether the ids and the number are within their limits.
fn has_sizes(reply: &AssertionView<'_>) -> bool
    ensures limits { IsTrue result ↔ HasSizes (lent_assertion_view reply.now) }
    ensures fits { IsTrue result → IfSome reply.now.number (λ n. n < 2 ^ 64) }
{
    is_id_size(reply.credential) && is_user_size(reply.user) && is_number(reply.number)
}

/// Appends the descriptor of the credential.
fn put_credential(id: &[u8], out: &mut Vec<u8>) -> Result<(), AllocError>
    ensures { OnOk result (out.new.items ≡ out.old.items
        ++ spelling (item_of (record_of credential_members) (credential_content id.now))) }
{
    append_map_head(2, out)?;
    append_text("id", out)?;
    append_bytes(id, out)?;
    append_text("type", out)?;
    append_text("public-key", out)
}

/// Appends the user's map.
fn put_user(id: &[u8], out: &mut Vec<u8>) -> Result<(), AllocError>
    ensures { OnOk result (out.new.items ≡ out.old.items
        ++ spelling (item_of (record_of reply_user_members) (reply_user_content id.now))) }
{
    append_map_head(1, out)?;
    append_text("id", out)?;
    append_bytes(id, out)
}

/// Appends the user with its key, where it is there.
fn put_user_if_there(user: Option<&[u8]>, out: &mut Vec<u8>) -> Result<(), AllocError>
    ensures { OnOk result (out.new.items ≡ out.old.items ++ user_bytes (option_map (λ b. b.now) user.entry)) }
{
    match user {
        Some(user) => {
            append_unsigned(USER_NUMBER, out)?;
            put_user(user, out)
        }
        None => Ok(()),
    }
}

/// Appends the number of credentials with its key, where it is there.
fn put_number_if_there(number: Option<u64>, out: &mut Vec<u8>) -> Result<(), AllocError>
    ensures { OnOk result (out.new.items ≡ out.old.items ++ number_bytes number) }
{
    match number {
        Some(number) => {
            append_unsigned(NUMBER_OF_CREDENTIALS_NUMBER, out)?;
            append_unsigned(number, out)
        }
        None => Ok(()),
    }
}

/// How many members the reply's map has.
fn member_count(reply: &AssertionView<'_>) -> u64
    ensures { result ≡ member_count (lent_assertion_view reply.now) }
{
    let with_user = if reply.user.is_some() { 4 } else { 3 };
    if reply.number.is_some() {
        with_user + 1
    } else {
        with_user
    }
}

/// Appends the members that each reply has.
fn put_required(reply: &AssertionView<'_>, out: &mut Vec<u8>) -> Result<(), AllocError>
    ensures { OnOk result (out.new.items ≡ out.old.items ++ required_bytes (lent_assertion_view reply.now)) }
{
    append_unsigned(CREDENTIAL_NUMBER, out)?;
    put_credential(reply.credential, out)?;
    append_unsigned(AUTH_DATA_NUMBER, out)?;
    append_bytes(reply.auth_data, out)?;
    append_unsigned(SIGNATURE_NUMBER, out)?;
    append_bytes(reply.signature, out)
}

/// Appends status 0 and the reply's map.
fn put_assertion(reply: &AssertionView<'_>, out: &mut Vec<u8>) -> Result<(), AllocError>
    ensures { OnOk result (out.new.items ≡ out.old.items
        ++ 0 ∷ spelling (assertion_reply_item (lent_assertion_view reply.now))) }
{
    out.push(OK)?;
    append_map_head(member_count(reply), out)?;
    put_required(reply, out)?;
    put_user_if_there(reply.user, out)?;
    put_number_if_there(reply.number, out)?;
    Ok(())
}

/// The reply's members, where they lie.
pub(crate) fn lent(reply: &AssertionReply) -> AssertionView<'_>
    ensures { lent_assertion_view result ≡ assertion_reply_view reply.now }
{
    AssertionView {
        credential: &reply.credential,
        auth_data: &reply.auth_data,
        signature: &reply.signature,
        user: match &reply.user {
            Some(user) => Some(user.as_slice()),
            None => None,
        },
        number: reply.number,
    }
}

/// The bytes of a reply to getAssertion (CTAP 2.1, section 6.2.2): status 0 and its map. Without a number of
/// credentials these are the bytes of the reply to getNextAssertion (section 6.3) too. The members are lent; the
/// memory of the reply is taken at once.
///
/// Refused as [`Error::Unfit`] where it has none: an id of no byte or more than 64, a number of credentials below 2.
/// Otherwise only [`Error::Memory`] is answered.
pub fn write_assertion(alloc: Global, reply: &AssertionView<'_>) -> Result<Vec<u8>, Error>
    ensures spelled { IfOk result (λ bytes. ReplyOf (assertion_reply (lent_assertion_view reply.now)) bytes.items) }
    ensures next { reply.now.number ≡ None
        → IfOk result (λ bytes. ReplyOf (next_reply (lent_assertion_view reply.now)) bytes.items) }
    // It is called unfit only if no bytes are this reply to either.
    ensures unfit { IsErrOf result errors.Unfit
        → (bs : List ℕ) → ReplyOf (assertion_reply (lent_assertion_view reply.now)) bs → ⊥ }
    ensures unfit_next { IsErrOf result errors.Unfit
        → (bs : List ℕ) → ReplyOf (next_reply (lent_assertion_view reply.now)) bs → ⊥ }
    ensures errors { IfErr result IsWritingError }
{
    if !has_sizes(reply) {
        return Err(Error::Unfit);
    }
    let parts = reply.auth_data.len().saturating_add(reply.signature.len());
    let mut out = Vec::with_capacity(alloc, parts.saturating_add(MOST_BESIDE))?;
    put_assertion(reply, &mut out)?;
    Ok(out)
}
