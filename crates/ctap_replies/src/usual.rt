//! The reply to a getAssertion as most authenticators write it, told by comparing what is the same in each.

ghost use Rattle.std.specs.Prelude.{◌≡◌, ◌≢◌, ◌∷◌, ◌++◌, ℕ, List, IfSome, MatchOption};
ghost use Rattle.ccbor.specs.Item as of;
ghost use Rattle.ccbor.specs.Canon.{spelling};
ghost use Rattle.ctap_encoding.specs.Content.{item_of};
ghost use Rattle.ctap_encoding.specs.Table.{record_of};
ghost use Rattle.ctap_replies.specs.Pieces.{HasFront, IsIdSize};
ghost use Rattle.ctap_replies.specs.Replies.{ReplyOf, assertion_reply, credential_content, credential_members};
ghost use Rattle.ctap_replies.specs.ReplyView.{lent_assertion_view};

use crate::assertions::is_id_size;
use crate::reply::AssertionView;
use ccbor::bytes_first;

/// What stands after a front of the bytes.
fn after<'a>(bytes: &'a [u8], front: &[u8]) -> Option<&'a [u8]>
    ensures { MatchOption result ((rest : List ℕ) → bytes.now ≢ front.now ++ rest) (λ rest. bytes.now ≡ front.now ++ rest.now) }
{
    bytes.strip_prefix(front)
}

/// A byte string of 1 to 64 bytes, and what follows it.
fn id_first(bytes: &[u8]) -> Option<(&[u8], &[u8])>
    ensures { IfSome result (λ r. IsIdSize r.0.now × (bytes.now ≡ spelling (of.bytes r.0.now) ++ r.1.now)) }
{
    let (id, rest) = bytes_first(bytes)?;
    if is_id_size(id) {
        Some((id, rest))
    } else {
        None
    }
}

/// The id of the descriptor, and what follows the descriptor.
fn credential_first(bytes: &[u8]) -> Option<(&[u8], &[u8])>
    ensures { IfSome result (λ r. IsIdSize r.0.now
        × (bytes.now ≡ spelling (item_of (record_of credential_members) (credential_content r.0.now)) ++ r.1.now)) }
{
    let rest = after(bytes, b"\xa2bid")?;
    let (id, rest) = id_first(rest)?;
    let rest = after(rest, b"dtypejpublic-key")?;
    Some((id, rest))
}

/// The members that each reply has, and what follows them.
fn required_first(bytes: &[u8]) -> Option<(AssertionView<'_>, &[u8])>
    ensures { IfSome result (λ r. HasFront (lent_assertion_view r.0) bytes.now r.1.now) }
{
    let rest = after(bytes, &[1])?;
    let (credential, rest) = credential_first(rest)?;
    let rest = after(rest, &[2])?;
    let (auth_data, rest) = bytes_first(rest)?;
    let rest = after(rest, &[3])?;
    let (signature, rest) = bytes_first(rest)?;
    let reply = AssertionView {
        credential,
        auth_data,
        signature,
        user: None,
        number: None,
    };
    Some((reply, rest))
}

/// The reply of a map of three members.
fn without_user(bytes: &[u8]) -> Option<AssertionView<'_>>
    ensures { IfSome result (λ r. ReplyOf (assertion_reply (lent_assertion_view r)) (0 ∷ 0xa3 ∷ bytes.now)) }
{
    let (reply, rest) = required_first(bytes)?;
    if rest.is_empty() { Some(reply) } else { None }
}

/// The reply of a map of four members, of which the user is the last.
fn with_user(bytes: &[u8]) -> Option<AssertionView<'_>>
    ensures { IfSome result (λ r. ReplyOf (assertion_reply (lent_assertion_view r)) (0 ∷ 0xa4 ∷ bytes.now)) }
{
    let (mut reply, rest) = required_first(bytes)?;
    let rest = after(rest, b"\x04\xa1bid")?;
    let (user, rest) = id_first(rest)?;
    if !rest.is_empty() {
        return None;
    }
    reply.user = Some(user);
    Some(reply)
}

/// The reply to getAssertion, after status 0, if it has no number of credentials: told with one look at each byte.
pub(crate) fn usual_assertion(bytes: &[u8]) -> Option<AssertionView<'_>>
    ensures { IfSome result (λ r. ReplyOf (assertion_reply (lent_assertion_view r)) (0 ∷ bytes.now)) }
{
    let (head, rest) = bytes.split_first()?;
    match *head {
        0xa3 => without_user(rest),
        0xa4 => with_user(rest),
        _ => None,
    }
}
