//! Reading an authenticator's reply by a profile.

ghost use Rattle.std.specs.Prelude.{◌≡◌, ◌≢◌, IfErr, IfOk, option_map};
ghost use Rattle.authdata.specs.declared.profile.Profile.TheVariants.{Open, Strict};
ghost use Rattle.ctap_replies.specs.Replies.{IsReply, ReplyRefused, assertion_reply, creation_reply};
ghost use Rattle.ctap_replies.specs.ReplyView.{creation_reply_view, lent_assertion_view};
ghost use Rattle.ctap_replies.specs.declared.reply.Kind.TheVariants as kinds;
ghost use Rattle.ctap_encoding.specs.declared.error.Error.TheVariants as errors;
ghost use Rattle.client.specs.Replies.{IsAssertionBy, IsCreationBy, IsNoAssertionBy, IsNoCreationBy, assertion_of_key, creation_of_key};
ghost use Rattle.ctap_open_replies.specs.ReplyView.{assertion_view, creation_view};

use authdata::Profile;
use ctap_encoding::Error;
use ctap_open_replies::{KeyAssertion, KeyCreation};
use ctap_replies::{AssertionView, CreationReply};
use std::alloc::Global;

/// What of a key's assertion goes to the relying party.
fn assertion_of_key<'a>(reply: &KeyAssertion<'a>) -> AssertionView<'a>
    ensures { lent_assertion_view result ≡ assertion_of_key (assertion_view reply.now) }
{
    let user = match reply.user {
        Some(user) => Some(user.id),
        None => None,
    };
    AssertionView {
        credential: reply.credential,
        auth_data: reply.auth_data,
        signature: reply.signature,
        user,
        number: reply.number,
    }
}

/// A reply of a key on sale to makeCredential, as the strict profile has it.
fn creation_of_key(reply: KeyCreation) -> CreationReply
    ensures { creation_reply_view result ≡ creation_of_key (creation_view reply) }
{
    CreationReply {
        fmt: reply.fmt,
        auth_data: reply.auth_data,
        statement: reply.statement,
    }
}

/// The assertion of a reply of a key.
fn open_assertion<'a>(
    message: &'a [u8],
    listed: Option<&'a [u8]>,
) -> Result<AssertionView<'a>, Error>
    ensures found { IfOk result (λ r. IsAssertionBy Open (option_map (λ b. b.now) listed.entry) (lent_assertion_view r) message.now) }
    ensures refused { IfErr result (λ e. IsNoAssertionBy Open (option_map (λ b. b.now) listed.entry) message.now e) }
    ensures no_memory { IfErr result (λ e. e ≢ errors.Memory) }
{
    match ctap_open_replies::read_assertion(message, listed) {
        Ok(reply) => Ok(assertion_of_key(&reply)),
        Err(e) => Err(e),
    }
}

/// The reply of a key to makeCredential.
fn open_creation(alloc: Global, message: &[u8]) -> Result<CreationReply, Error>
    ensures found { IfOk result (λ r. IsCreationBy Open (creation_reply_view r) message.now) }
    ensures refused { IfErr result (λ e. IsNoCreationBy Open message.now e) }
{
    match ctap_open_replies::read_creation(alloc, message) {
        Ok(reply) => Ok(creation_of_key(reply)),
        Err(e) => Err(e),
    }
}

/// The assertion of a reply to getAssertion, and by the open profile of one to getNextAssertion (CTAP 2.1, sections
/// 6.2.2 and 6.3). Its members lie in the message, and no memory is taken.
///
/// The strict profile reads as [`ctap_replies::read_assertion`]. The others read as [`ctap_open_replies::read_assertion`]:
/// members that are not listed are passed over, and the credential may be left out where `listed` is the id of the one
/// credential of the request's allow list. Refused as these are, never because memory ran out.
pub fn read_assertion<'a>(
    profile: Profile,
    message: &'a [u8],
    listed: Option<&'a [u8]>,
) -> Result<AssertionView<'a>, Error>
    ensures found { IfOk result (λ r. IsAssertionBy profile (option_map (λ b. b.now) listed.entry) (lent_assertion_view r) message.now) }
    ensures refused { IfErr result (λ e. IsNoAssertionBy profile (option_map (λ b. b.now) listed.entry) message.now e) }
    ensures no_memory { IfErr result (λ e. e ≢ errors.Memory) }
{
    match profile {
        Profile::Strict => ctap_replies::read_assertion(message),
        Profile::Open | Profile::Level3 => open_assertion(message, listed),
    }
}

/// The reply to makeCredential (CTAP 2.1, section 6.1.2) that a message is, in memory of its own.
///
/// The strict profile reads as [`ctap_replies::read_creation`], the others as [`ctap_open_replies::read_creation`], and each
/// is refused as these are.
pub fn read_creation(
    alloc: Global,
    profile: Profile,
    message: &[u8],
) -> Result<CreationReply, Error>
    ensures found { IfOk result (λ r. IsCreationBy profile (creation_reply_view r) message.now) }
    ensures refused { IfErr result (λ e. IsNoCreationBy profile message.now e) }
{
    match profile {
        Profile::Strict => ctap_replies::read_creation(alloc, message),
        Profile::Open | Profile::Level3 => open_creation(alloc, message),
    }
}
