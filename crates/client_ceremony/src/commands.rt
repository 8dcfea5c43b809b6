//! The commands of a registration and of a sign-in (CTAP 2.1, sections 6.1 and 6.2), and a registration.

ghost use Rattle.std.specs.Prelude.{◌≡◌, ◌<◌, IfOk, IfErr, None, option_map};
ghost use Rattle.ccbor.specs.View.{view};
ghost use Rattle.ctap_encoding.specs.Content.{item_of};
ghost use Rattle.ctap_encoding.specs.Table.{record_of};
ghost use Rattle.ctap_open_replies.specs.ReplyView.{creation_view, info_view};
ghost use Rattle.ctap_open_replies.specs.Replies.{IsReply, TellsCreation};
ghost use Rattle.ctap_open_requests.specs.Extensions.{assertion_inputs, assertion_inputs_content, creation_inputs, creation_inputs_content, wanted};
ghost use Rattle.ctap_open_requests.specs.ExtensionView.{assertion_inputs_view, creation_inputs_view};
ghost use Rattle.ctap_open_requests.specs.RequestView as requests;
ghost use Rattle.client_ceremony.specs.Commands.{AssertionBytes, AssertionUnverified, AssertionVerified, CreationBytes, CreationUnverified, CreationVerified, Makes, NoAssertionBytes, NoCreationBytes, Registers, assertion_of, creation_of};
ghost use Rattle.client_ceremony.specs.Exchanges.{Unread};
ghost use Rattle.client_ceremony.specs.Facts.{facts};
ghost use Rattle.client_ceremony.specs.Pieces.{OrMemory, OrNoRoom, verified_view};
ghost use Rattle.client_ceremony.specs.Way.{is_discoverable};

use crate::halt::Halt;
use crate::refusal::{Refusal, of_reply, of_request};
use crate::replies::reply_to;
use crate::step::Step;
use crate::verified::Verified;
use crate::verifying::verification;
use crate::way::{assertion_way, creation_way, is_discoverable};
use crate::wish::{Asserting, Creating, Known};
use ccbor::Value;
use ctap_open_replies::{KeyCreation, KeyInfo, read_creation};
use ctap_open_requests::{
    AssertionExtensions, CreationExtensions, GetAssertion, MakeCredential, Options,
    assertion_extensions, creation_extensions, write_assertion, write_creation,
};
use pin_client_messages::permission;
use pin_protocols::Scope;
use std::alloc::{AllocError, Global};

fn creation_inputs(
    alloc: Global,
    inputs: Option<CreationExtensions<'_>>,
) -> Result<Option<Value>, AllocError>
    ensures { IfOk result (λ v. option_map view v
        ≡ option_map (λ e. item_of (record_of creation_inputs) (creation_inputs_content (creation_inputs_view e))) inputs.entry) }
{
    match inputs {
        Some(inputs) => Ok(Some(creation_extensions(alloc, &inputs)?)),
        None => Ok(None),
    }
}

fn assertion_inputs(
    alloc: Global,
    inputs: Option<AssertionExtensions<'_>>,
) -> Result<Option<Value>, AllocError>
    ensures { IfOk result (λ v. option_map view v
        ≡ option_map (λ e. item_of (record_of assertion_inputs) (assertion_inputs_content (assertion_inputs_view e))) inputs.entry) }
{
    match inputs {
        Some(inputs) => Ok(Some(assertion_extensions(alloc, &inputs)?)),
        None => Ok(None),
    }
}

/// The option `rk`, which is not written where it is false.
fn resident(info: &KeyInfo<'_>, creating: &Creating<'_>) -> Option<bool>
    ensures { result ≡ wanted (is_discoverable (info_view info.now) creating.now.resident) }
{
    if is_discoverable(info, creating.resident) {
        Some(true)
    } else {
        None
    }
}

/// The options of a command: `up` is true where it is not written.
fn options_of(rk: Option<bool>, verified: &Verified<'_>) -> Options
    ensures { requests.options_view result ≡ record { rk = rk; up = None; uv = verified.now.uv } }
{
    Options {
        rk,
        up: None,
        uv: verified.uv,
    }
}

/// The request of a registration.
fn creation_request<'a>(
    alloc: Global,
    info: &KeyInfo<'_>,
    creating: &Creating<'a>,
    verified: &Verified<'a>,
) -> Result<MakeCredential<'a>, AllocError>
    ensures { IfOk result (λ q. requests.creation_view q ≡ creation_of (info_view info.now) creating.now (verified_view verified.now)) }
{
    let extensions = creation_inputs(alloc, creating.extensions)?;
    let rk = resident(info, creating);
    let options = options_of(rk, verified);
    Ok(MakeCredential {
        client_data_hash: creating.client_data_hash,
        rp: creating.rp,
        user: creating.user,
        algorithms: creating.algorithms,
        exclude: creating.exclude,
        extensions,
        options,
        auth: verified.auth,
    })
}

/// The bytes of a registration's command.
fn creation_command<'a>(
    alloc: Global,
    info: &KeyInfo<'_>,
    creating: &Creating<'a>,
    verified: &Verified<'a>,
) -> Result<Vec<u8>, Refusal>
    ensures written { IfOk result (λ m. CreationBytes (info_view info.now) (creation_of (info_view info.now) creating.now (verified_view verified.now)) m.items) }
    ensures none { IfErr result (OrNoRoom (NoCreationBytes (info_view info.now) (creation_of (info_view info.now) creating.now (verified_view verified.now)))) }
{
    let request = match creation_request(alloc, info, creating, verified) {
        Ok(request) => request,
        Err(_) => return Err(Refusal::Memory),
    };
    match write_creation(alloc, info, request) {
        Ok(command) => Ok(command),
        Err(e) => Err(of_request(e)),
    }
}

/// The request of a sign-in.
fn assertion_request<'a>(
    alloc: Global,
    asserting: &Asserting<'a>,
    verified: &Verified<'a>,
) -> Result<GetAssertion<'a>, AllocError>
    ensures { IfOk result (λ q. requests.assertion_view q ≡ assertion_of asserting.now (verified_view verified.now)) }
{
    let extensions = assertion_inputs(alloc, asserting.extensions)?;
    Ok(GetAssertion {
        rp_id: asserting.rp_id,
        client_data_hash: asserting.client_data_hash,
        allow: asserting.allow,
        extensions,
        options: options_of(None, verified),
        auth: verified.auth,
    })
}

/// The bytes of a sign-in's command.
pub(crate) fn assertion_command<'a>(
    alloc: Global,
    info: &KeyInfo<'_>,
    asserting: &Asserting<'a>,
    verified: &Verified<'a>,
) -> Result<Vec<u8>, Refusal>
    ensures written { IfOk result (λ m. AssertionBytes (info_view info.now) (assertion_of asserting.now (verified_view verified.now)) m.items) }
    ensures none { IfErr result (OrNoRoom (NoAssertionBytes (info_view info.now) (assertion_of asserting.now (verified_view verified.now)))) }
{
    let request = match assertion_request(alloc, asserting, verified) {
        Ok(request) => request,
        Err(_) => return Err(Refusal::Memory),
    };
    match write_assertion(alloc, info, request) {
        Ok(command) => Ok(command),
        Err(e) => Err(of_request(e)),
    }
}

fn creation_verified<'a>(
    alloc: Global,
    known: &Known<'a>,
    info: &KeyInfo<'_>,
    creating: &Creating<'_>,
) -> Result<Verified<'a>, Halt<'a>>
    ensures verified { IfOk result (λ v. CreationVerified (facts known.now) (info_view info.now) creating.now (verified_view v)) }
    ensures halts { IfErr result (OrMemory (CreationUnverified (facts known.now) (info_view info.now) creating.now)) }
{
    let way = creation_way(info, creating, known.built_in);
    let scope = Scope {
        permissions: permission::MAKE_CREDENTIAL,
        rp_id: Some(creating.rp.id),
    };
    match verification(alloc, known, info, way, &scope, creating.client_data_hash) {
        Ok(verified) => Ok(verified),
        Err(halt) => Err(halt),
    }
}

pub(crate) fn assertion_verified<'a>(
    alloc: Global,
    known: &Known<'a>,
    info: &KeyInfo<'_>,
    asserting: &Asserting<'_>,
) -> Result<Verified<'a>, Halt<'a>>
    ensures verified { IfOk result (λ v. AssertionVerified (facts known.now) (info_view info.now) asserting.now (verified_view v)) }
    ensures halts { IfErr result (OrMemory (AssertionUnverified (facts known.now) (info_view info.now) asserting.now)) }
{
    let way = assertion_way(info, asserting, known.built_in);
    let scope = Scope {
        permissions: permission::GET_ASSERTION,
        rp_id: Some(asserting.rp_id),
    };
    match verification(alloc, known, info, way, &scope, asserting.client_data_hash) {
        Ok(verified) => Ok(verified),
        Err(halt) => Err(halt),
    }
}

/// What a reply to makeCredential tells.
fn creation_reply(alloc: Global, reply: &[u8]) -> Result<KeyCreation, Refusal>
    ensures told { IfOk result (λ r. IsReply TellsCreation (creation_view r) reply.now) }
    ensures unread { IfErr result (Unread TellsCreation reply.now) }
{
    match read_creation(alloc, reply) {
        Ok(creation) => Ok(creation),
        Err(e) => Err(of_reply(e)),
    }
}

/// What is next with this command, before which so many messages are sent.
fn made<'a>(alloc: Global, known: &Known<'a>, place: usize, command: Vec<u8>) -> Halt<'a>
    requires { place < 8 }
    ensures { OrMemory (Makes (facts known.now) place (λ m. m ≡ command.items)) result }
{
    let reply = match reply_to(known, place, command) {
        Ok(reply) => reply,
        Err(halt) => return halt,
    };
    match creation_reply(alloc, reply) {
        Ok(creation) => Halt::Steps(place + 1, Step::Created(creation)),
        Err(refusal) => Halt::Refuses(refusal),
    }
}

/// A registration, after getInfo.
pub(crate) fn registration<'a>(
    alloc: Global,
    known: &Known<'a>,
    info: &KeyInfo<'_>,
    creating: &Creating<'a>,
) -> Halt<'a>
    ensures { OrMemory (Registers (facts known.now) (info_view info.now) creating.now) result }
{
    let verified = match creation_verified(alloc, known, info, creating) {
        Ok(verified) => verified,
        Err(halt) => return halt,
    };
    match creation_command(alloc, info, creating, &verified) {
        Ok(command) => made(alloc, known, verified.place, command),
        Err(refusal) => Halt::Refuses(refusal),
    }
}
