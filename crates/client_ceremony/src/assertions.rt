//! The assertions of a sign-in, and the choice among them (CTAP 2.1, sections 6.2.2 and 6.3).

ghost use Rattle.std.specs.Prelude.{◌≡◌, ◌∷◌, ◌+◌, ◌-◌, ◌<◌, ◌≤◌, List, IfOk, IfErr, IfNone, IfSome, None, Some, drop, length, map, option_map, slice_get, take};
ghost use Rattle.ctap_open_replies.specs.Replies.{Assertion, IsReply, TellsAssertion};
ghost use Rattle.ctap_open_replies.specs.ReplyView.{assertion_view, info_view};
ghost use Rattle.client_ceremony.specs.Commands.{Choice, Chosen, EachTells, OneUntold, Several, Signs, SignsIn, alone, count_of, next_replies};
ghost use Rattle.client_ceremony.specs.Exchanges.{Told, Unread, Untold};
ghost use Rattle.client_ceremony.specs.Facts.{facts};
ghost use Rattle.client_ceremony.specs.Pieces.{OrMemory, OrNoRoom};

use crate::commands::{assertion_command, assertion_verified};
use crate::halt::Halt;
use crate::refusal::{Refusal, of_reply};
use crate::replies::{bare, reply_to};
use crate::step::Step;
use crate::wish::{Asserting, Known};
use ctap_encoding::command::GET_NEXT_ASSERTION;
use ctap_open_replies::{KeyAssertion, KeyInfo, read_assertion};
use std::alloc::{AllocError, Global};

/// The id that is listed alone.
fn alone<'a>(allow: &[&'a [u8]]) -> Option<&'a [u8]>
    ensures { option_map (λ b. b.now) result ≡ alone (map (λ b. b.now) allow.now) }
{
    if allow.len() == 1 {
        allow.first().copied()
    } else {
        None
    }
}

/// How many assertions there are.
fn count_of(first: &KeyAssertion<'_>) -> u64
    ensures { result ≡ count_of (assertion_view first.now) }
{
    match first.number {
        Some(number) => number,
        None => 1,
    }
}

/// What a reply tells, where this one was listed alone.
fn assertion_reply<'a>(
    reply: &'a [u8],
    listed: Option<&'a [u8]>,
) -> Result<KeyAssertion<'a>, Refusal>
    ensures told { IfOk result (λ a. IsReply (TellsAssertion (option_map (λ b. b.now) listed.entry)) (assertion_view a) reply.now) }
    ensures unread { IfErr result (Unread (TellsAssertion (option_map (λ b. b.now) listed.entry)) reply.now) }
{
    match read_assertion(reply, listed) {
        Ok(assertion) => Ok(assertion),
        Err(e) => Err(of_reply(e)),
    }
}

/// What the key told to this command, before which so many messages are sent.
fn first_told<'a>(
    known: &Known<'a>,
    place: usize,
    command: Vec<u8>,
    listed: Option<&'a [u8]>,
) -> Result<KeyAssertion<'a>, Halt<'a>>
    ensures told { IfOk result (λ a. Told (facts known.now) place (λ m. m ≡ command.items)
        (TellsAssertion (option_map (λ b. b.now) listed.entry)) (assertion_view a)) }
    ensures halts { IfErr result (OrMemory (Untold (facts known.now) place (λ m. m ≡ command.items)
        (TellsAssertion (option_map (λ b. b.now) listed.entry)))) }
{
    let reply = match reply_to(known, place, command) {
        Ok(reply) => reply,
        Err(halt) => return Err(halt),
    };
    match assertion_reply(reply, listed) {
        Ok(assertion) => Ok(assertion),
        Err(refusal) => Err(Halt::Refuses(refusal)),
    }
}

/// The first assertion, and those of replies to getNextAssertion.
fn all_of<'a>(
    alloc: Global,
    first: KeyAssertion<'a>,
    replies: &'a [Vec<u8>],
) -> Result<Vec<KeyAssertion<'a>>, Refusal>
    ensures all { IfOk result (λ v. (qs : List Assertion) × EachTells qs (map (λ r. r.items) replies.now)
        × (map assertion_view v.items ≡ assertion_view first.entry ∷ qs)) }
    ensures untold { IfErr result (OrNoRoom (OneUntold (map (λ r. r.items) replies.now))) }
{
    let mut all = Vec::new(alloc);
    all.push(first).map_err(AllocError::from)?;
    for reply in replies {
        match assertion_reply(reply, None) {
            Ok(next) => all.push(next).map_err(AllocError::from)?,
            Err(refusal) => return Err(refusal),
        }
    }
    Ok(all)
}

/// Those of the replies after this place that tell the other assertions, where there are so many in all.
fn next_replies<'a>(known: &Known<'a>, place: usize, count: u64) -> &'a [Vec<u8>]
    requires within { place < length known.now.replies.now }
    requires more { 1 < count }
    ensures these { map (λ v. v.items) result.now ≡ take (count - 1) (drop (place + 1) (facts known.now).replies) }
    ensures few { length result.now ≤ count - 1 }
    ensures short { place + 1 + length result.now ≤ length known.now.replies.now }
{
    let (_, rest) = known.replies.split_at(place + 1);
    if count - 1 < rest.len() as u64 {
        rest.split_at((count - 1) as usize).0
    } else {
        rest
    }
}

/// The assertion at a place.
fn assertion_at<'a>(all: &[KeyAssertion<'a>], place: usize) -> Option<KeyAssertion<'a>>
    ensures found { IfSome result (λ a. slice_get (map assertion_view all.now) place ≡ Some (assertion_view a)) }
    ensures none { IfNone result (slice_get (map assertion_view all.now) place ≡ None) }
{
    match all.get(place) {
        Some(assertion) => Some(*assertion),
        None => None,
    }
}

/// One of all assertions, after so many messages.
fn choice<'a>(sent: usize, all: Vec<KeyAssertion<'a>>, chosen: Option<usize>) -> Halt<'a>
    ensures { Choice sent (map assertion_view all.entry.items) chosen result }
{
    let chosen = match chosen {
        Some(chosen) => chosen,
        None => return Halt::Steps(sent, Step::Chooses(all)),
    };
    match assertion_at(&all, chosen) {
        Some(assertion) => Halt::Steps(sent, Step::Asserted(assertion)),
        None => Halt::Refuses(Refusal::NoSuchChoice),
    }
}

/// The assertions of a command at this place, of which there are so many.
fn several<'a>(
    alloc: Global,
    known: &Known<'a>,
    place: usize,
    first: KeyAssertion<'a>,
    count: u64,
) -> Halt<'a>
    requires within { place < length known.now.replies.now }
    requires more { 1 < count }
    requires count { count ≡ count_of (assertion_view first) }
    ensures { OrMemory (Several (facts known.now) place (assertion_view first.entry) (next_replies (facts known.now) place (assertion_view first.entry))) result }
{
    let replies = next_replies(known, place, count);
    let all = match all_of(alloc, first, replies) {
        Ok(all) => all,
        Err(refusal) => return Halt::Refuses(refusal),
    };
    let sent = place + 1 + replies.len();
    if replies.len() as u64 == count - 1 {
        return choice(sent, all, known.chosen);
    }
    match bare(alloc, GET_NEXT_ASSERTION) {
        Ok(message) => Halt::Steps(sent, Step::Sends(message)),
        Err(_) => Halt::Refuses(Refusal::Memory),
    }
}

/// One of the assertions of a command at this place.
fn chosen<'a>(alloc: Global, known: &Known<'a>, place: usize, first: KeyAssertion<'a>) -> Halt<'a>
    requires { place < length known.now.replies.now }
    ensures { OrMemory (Chosen (facts known.now) place (assertion_view first.entry) first.entry) result }
{
    let count = count_of(&first);
    if count > 1 {
        several(alloc, known, place, first, count)
    } else {
        Halt::Steps(place + 1, Step::Asserted(first))
    }
}

/// What is next with this command, before which so many messages are sent.
fn signed<'a>(
    alloc: Global,
    known: &Known<'a>,
    place: usize,
    command: Vec<u8>,
    listed: Option<&'a [u8]>,
) -> Halt<'a>
    ensures { OrMemory (Signs (facts known.now) place (λ m. m ≡ command.items) (option_map (λ b. b.now) listed.entry)) result }
{
    match first_told(known, place, command, listed) {
        Ok(first) => chosen(alloc, known, place, first),
        Err(halt) => halt,
    }
}

/// A sign-in, after getInfo.
pub(crate) fn sign_in<'a>(
    alloc: Global,
    known: &Known<'a>,
    info: &KeyInfo<'_>,
    asserting: &Asserting<'a>,
) -> Halt<'a>
    ensures { OrMemory (SignsIn (facts known.now) (info_view info.now) asserting.now) result }
{
    let verified = match assertion_verified(alloc, known, info, asserting) {
        Ok(verified) => verified,
        Err(halt) => return halt,
    };
    match assertion_command(alloc, info, asserting, &verified) {
        Ok(command) => signed(
            alloc,
            known,
            verified.place,
            command,
            alone(asserting.allow),
        ),
        Err(refusal) => Halt::Refuses(refusal),
    }
}
