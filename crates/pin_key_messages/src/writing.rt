//! Writing a reply.

ghost use Rattle.std.specs.Prelude.{◌≡◌, ◌∷◌, ℕ, List, IfErr, IfOk, IfSome, IsErrOf, option_map};
ghost use Rattle.ccbor.specs.Canon.{Canon};
ghost use Rattle.ccbor.specs.Item.{boolean};
ghost use Rattle.ccbor.specs.View.{view};
ghost use Rattle.ctap_encoding.specs.Content.{item_of};
ghost use Rattle.ctap_encoding.specs.Table.{record_of};
ghost use Rattle.ctap_encoding.specs.Numbers.{IsWritingError};
ghost use Rattle.ctap_encoding.specs.declared.error.Error.TheVariants as errors;
ghost use Rattle.pin_client_messages.specs.Commands.{key_members};
ghost use Rattle.pin_client_messages.specs.Replies.{IsPoint, key_content, reply_content, reply_members};
ghost use Rattle.pin_client_messages.specs.ReplyView.{key_view, reply_view};
ghost use Rattle.pin_key_messages.specs.Replying.{PinReplyBytes};

use ccbor::{Value, encode};
use ctap_encoding::member::client_pin_reply;
use ctap_encoding::status::OK;
use ctap_encoding::{Error, push_if_there};
use pin_client_messages::{AgreementKey, PinReply, bytes_if_there, number_if_there, point_value};
use std::alloc::{AllocError, Global};

/// The value of a public key that may be absent; `Unfit` where it isn't one of the key agreement.
fn key_if_there(alloc: Global, key: &Option<AgreementKey<'_>>) -> Result<Option<Value>, Error>
    ensures value { IfOk result (λ v. option_map view v
        ≡ option_map (item_of (record_of key_members)) (option_map key_content (option_map key_view key.now))) }
    ensures unfit { IsErrOf result errors.Unfit → IfSome (option_map key_view key.now) IsPoint → ⊥ }
    ensures errors { IfErr result IsWritingError }
{
    match key {
        Some(key) => match key.point() {
            Some(point) => Ok(Some(point_value(alloc, &point)?)),
            None => Err(Error::Unfit),
        },
        None => Ok(None),
    }
}

/// The value of a truth that may be absent.
fn truth_if_there(truth: Option<bool>) -> Option<Value>
    ensures { option_map view result ≡ option_map boolean truth }
{
    match truth {
        Some(truth) => Some(Value::Bool(truth)),
        None => None,
    }
}

/// The value of a reply's map.
fn reply_value(alloc: Global, reply: &PinReply<'_>) -> Result<Value, Error>
    ensures value { IfOk result (λ v. view v ≡ item_of (record_of reply_members) (reply_content (reply_view reply.now))) }
    ensures unfit { IsErrOf result errors.Unfit → IfSome (reply_view reply.now).key IsPoint → ⊥ }
    ensures errors { IfErr result IsWritingError }
{
    let mut pairs = Vec::new(alloc);
    let key = key_if_there(alloc, &reply.key)?;
    push_if_there(alloc, &mut pairs, client_pin_reply::KEY_AGREEMENT, key)?;
    let token = bytes_if_there(alloc, reply.token)?;
    push_if_there(
        alloc,
        &mut pairs,
        client_pin_reply::PIN_UV_AUTH_TOKEN,
        token,
    )?;
    let pin_retries = number_if_there(reply.pin_retries);
    push_if_there(
        alloc,
        &mut pairs,
        client_pin_reply::PIN_RETRIES,
        pin_retries,
    )?;
    let power_cycle = truth_if_there(reply.power_cycle);
    push_if_there(
        alloc,
        &mut pairs,
        client_pin_reply::POWER_CYCLE_STATE,
        power_cycle,
    )?;
    let uv_retries = number_if_there(reply.uv_retries);
    push_if_there(alloc, &mut pairs, client_pin_reply::UV_RETRIES, uv_retries)?;
    Ok(Value::Map(pairs))
}

/// Status 0 and the value's encoding.
pub(crate) fn with_value(alloc: Global, value: &Value) -> Result<Vec<u8>, Error>
    ensures written { IfOk result (λ v. (rest : List ℕ) × (v.items ≡ 0 ∷ rest) × Canon (view value.now) rest) }
    ensures unfit { IsErrOf result errors.Unfit → (rest : List ℕ) → Canon (view value.now) rest → ⊥ }
    ensures errors { IfErr result IsWritingError }
{
    let mut out = Vec::new(alloc);
    out.push(OK).map_err(AllocError::from)?;
    match encode(value, &mut out) {
        Ok(()) => Ok(out),
        Err(ccbor::Error::Unfit) => Err(Error::Unfit),
        Err(_) => Err(Error::Memory),
    }
}

/// The bytes of a reply to authenticatorClientPIN (CTAP 2.1, section 6.5.5): status 0 and one canonical map of the
/// members that are there.
///
/// Refused as [`Error::Unfit`] (1) where the key isn't one of type 2, algorithm -25 and curve 1. Otherwise only
/// [`Error::Memory`] is answered.
pub fn write_pin_reply(alloc: Global, reply: &PinReply<'_>) -> Result<Vec<u8>, Error>
    ensures written { IfOk result (λ v. PinReplyBytes (reply_view reply.now) v.items) }
    // It is called unfit only if the key is no such key, or no bytes are this reply.
    ensures unfit { IsErrOf result errors.Unfit → IfSome (reply_view reply.now).key IsPoint
        → (bs : List ℕ) → PinReplyBytes (reply_view reply.now) bs → ⊥ }
    ensures errors { IfErr result IsWritingError }
{
    // A `match` where the proof speaks of the error: `?` hides it behind its conversion.
    match reply_value(alloc, reply) {
        Ok(value) => with_value(alloc, &value),
        Err(e) => Err(e),
    }
}
