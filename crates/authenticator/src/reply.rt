//! Replies that need no key.

ghost use Rattle.std.specs.Prelude.{◌≡◌, ◌∷◌, ◌≤◌, [], IfOk, IsErrOf, None, Ok, length};
ghost use Rattle.ctap_encoding.specs.declared.error.Error.TheVariants as errors;
ghost use Rattle.ctap_replies.specs.Replies.{ReplyOf, assertion_reply, info_reply, next_reply};
ghost use Rattle.ctap_replies.specs.ReplyView.{info_view, lent_assertion_view, reply_view};
ghost use Rattle.authenticator.specs.Private.{IsMessage};
ghost use Rattle.authenticator.specs.Steps.{info_of};

use ctap_encoding::Error;
use ctap_replies::{AssertionView, InfoReply, Reply, write_assertion, write_reply};
use std::alloc::{AllocError, Global};

/// The bytes of a reply that has some.
fn bytes_of(written: Result<Vec<u8>, Error>) -> Result<Vec<u8>, AllocError>
    requires { IsErrOf written errors.Unfit → ⊥ }
    ensures { IfOk result (λ bytes. written ≡ Ok bytes) }
{
    match written {
        Ok(bytes) => Ok(bytes),
        Err(Error::Unfit) => unreachable!("the reply has bytes"),
        Err(_) => Err(AllocError),
    }
}

/// The bytes of a reply that has some, at most 7,609.
pub(crate) fn written(alloc: Global, reply: Reply) -> Result<Vec<u8>, AllocError>
    requires { IsMessage (reply_view reply) }
    ensures spelled { IfOk result (λ bytes. ReplyOf (reply_view reply) bytes.items) }
    ensures size { IfOk result (λ bytes. length bytes.items ≤ 7609) }
{
    bytes_of(write_reply(alloc, reply))
}

/// The bytes of a reply to getAssertion that has some, at most 7,609; without a number of credentials they are those of
/// the reply to getNextAssertion too.
pub(crate) fn written_assertion(
    alloc: Global,
    shown: &AssertionView<'_>,
) -> Result<Vec<u8>, AllocError>
    requires { IsMessage (assertion_reply (lent_assertion_view shown.now)) }
    ensures spelled { IfOk result (λ bytes. ReplyOf (assertion_reply (lent_assertion_view shown.now)) bytes.items) }
    ensures next { shown.now.number ≡ None → IfOk result (λ bytes. ReplyOf (next_reply (lent_assertion_view shown.now)) bytes.items) }
    ensures size { IfOk result (λ bytes. length bytes.items ≤ 7609) }
{
    bytes_of(write_assertion(alloc, shown))
}

/// A status alone.
pub(crate) fn status_alone(alloc: Global, status: u8) -> Result<Vec<u8>, AllocError>
    ensures { IfOk result (λ bytes. bytes.items ≡ status ∷ []) }
{
    let mut bytes = Vec::with_capacity(alloc, 1)?;
    bytes.push(status)?;
    Ok(bytes)
}

/// What this authenticator is.
fn info(alloc: Global, aaguid: &[u8; 16], uv: bool) -> Result<InfoReply, AllocError>
    ensures { IfOk result (λ r. info_view r ≡ info_of aaguid.now uv) }
{
    let mut versions = Vec::with_capacity(alloc, 1)?;
    versions.push(String::from_str(alloc, "FIDO_2_0")?)?;
    let mut options = Vec::with_capacity(alloc, 4)?;
    options.push((String::from_str(alloc, "rk")?, true))?;
    options.push((String::from_str(alloc, "up")?, true))?;
    options.push((String::from_str(alloc, "uv")?, uv))?;
    options.push((String::from_str(alloc, "plat")?, false))?;
    let aaguid = Vec::from_slice(alloc, aaguid)?;
    Ok(InfoReply {
        versions,
        aaguid,
        options,
        max_msg_size: 7609,
        max_credential_count_in_list: 8,
        max_credential_id_length: 64,
    })
}

/// The bytes of the reply to getInfo.
pub(crate) fn info_bytes(alloc: Global, aaguid: &[u8; 16], uv: bool) -> Result<Vec<u8>, AllocError>
    ensures spelled { IfOk result (λ bytes. ReplyOf (info_reply (info_of aaguid.now uv)) bytes.items) }
    ensures size { IfOk result (λ bytes. length bytes.items ≤ 7609) }
{
    let info = info(alloc, aaguid, uv)?;
    written(alloc, Reply::GetInfo(info))
}
