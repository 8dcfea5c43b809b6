//! The members of client data that a relying party looks at.

ghost use Rattle.std.specs.Prelude.{◌≡◌, ◌↔◌, ◌<◌, ◌≤◌, IfOk, IsErrOf, IsTrue, MatchResult, None, OnOk, Some, codes, length, option_and_then, option_map};
ghost use Rattle.json.specs.Reads.{token_of};
ghost use Rattle.serde_json.specs.Data.{Members, no_members, object};
ghost use Rattle.serde_json.specs.Find.{as_str, get_member};
ghost use Rattle.clientdata.specs.Found.{IsFound, TakesMember, binding_by, crossing_by, seen_found, text_in, top_by, top_in};
ghost use Rattle.clientdata.specs.Passing.{Reads, ReadsMembers, first_text, first_truth, members_at, opens_object, value_at, whole_of};
ghost use Rattle.clientdata.specs.Reading.{seen_in, status_binding, text_top, truth_crossing};

use crate::error::Error;
use crate::passing::{MAX_DEPTH, pass_over};
use crate::seen::{Binding, CrossOrigin, Seen, TopOrigin};
use crate::text::Text;
use json::{Invalid, Reader, Token};
use std::alloc::{AllocError, Global};

/// How deep a member's value may nest.
const MEMBER_DEPTH: usize = MAX_DEPTH - 1;

/// The page at the top, lent.
#[derive(Clone, Copy)]
enum Top<'a> {
    Absent,
    Named(&'a str),
    Other,
}

/// What was found of the members that were read; of members with one name the last stands.
#[derive(Drop)]
pub(crate) struct Found<'a> {
    kind: Option<&'a str>,
    challenge: Option<&'a str>,
    origin: Option<&'a str>,
    binding: Binding,
    cross_origin: CrossOrigin,
    top_origin: Top<'a>,
}

/// The text that a token is.
fn text_of<'a>(token: Token<'a>) -> Option<&'a str>
    ensures { text_in result ≡ first_text (token_of token.entry) }
{
    match token {
        Token::String(text) => Some(text),
        _ => None,
    }
}

/// The truth value that a token is.
fn truth_of(token: Token<'_>) -> Option<bool>
    ensures { result ≡ first_truth (token_of token.entry) }
{
    match token {
        Token::Bool(truth) => Some(truth),
        _ => None,
    }
}

/// Whether an object begins with a token.
fn begins_object(token: Token<'_>) -> bool
    ensures { result ≡ opens_object (token_of token.entry) }
{
    matches!(token, Token::BeginObject)
}

/// The next value, if it is a text.
fn text<'a>(reader: &mut Reader<'a>, depth: usize) -> Result<Option<&'a str>, Invalid>
    requires { depth ≤ 127 }
    ensures value { MatchResult result (λ text. Reads as_str depth reader.old (text_in text) reader.new)
        (λ _. value_at depth reader.old ≡ None) }
    ensures shorter { OnOk result (length reader.new < length reader.old) }
{
    let Some(token) = reader.next() else {
        return Err(Invalid);
    };
    let text = text_of(token);
    pass_over(token, reader, depth)?;
    Ok(text)
}

/// Whether the next value is a truth value, and which.
fn crossing(reader: &mut Reader<'_>, depth: usize) -> Result<CrossOrigin, Invalid>
    requires { depth ≤ 127 }
    ensures value { MatchResult result (λ crossing. Reads crossing_by depth reader.old crossing reader.new)
        (λ _. value_at depth reader.old ≡ None) }
    ensures shorter { OnOk result (length reader.new < length reader.old) }
{
    let Some(token) = reader.next() else {
        return Err(Invalid);
    };
    let truth = truth_of(token);
    pass_over(token, reader, depth)?;
    Ok(crossing_of(truth))
}

/// What a member `crossOrigin` of this truth value says.
fn crossing_of(truth: Option<bool>) -> CrossOrigin
    ensures { result ≡ truth_crossing truth }
{
    match truth {
        None => CrossOrigin::Other,
        Some(false) => CrossOrigin::False,
        Some(true) => CrossOrigin::True,
    }
}

/// What a member `topOrigin` of this text says.
fn top_of<'a>(text: Option<&'a str>) -> Top<'a>
    ensures { top_in result ≡ text_top (text_in text.entry) }
{
    match text {
        None => Top::Other,
        Some(page) => Top::Named(page),
    }
}

/// What token binding of this status is.
fn binding_of(status: Option<&str>) -> Binding
    ensures { result ≡ status_binding (text_in status.entry) }
{
    match status {
        Some("supported") => Binding::Supported,
        Some("not-supported") => Binding::NotSupported,
        _ => Binding::Other,
    }
}

/// Whether a member has the name `status`.
fn is_status(name: &str) -> bool
    ensures { IsTrue result ↔ (name.now ≡ codes "status") }
{
    name == "status"
}

/// The text of the member `status` of the object that is open, up to its end.
fn status<'a>(reader: &mut Reader<'a>, depth: usize) -> Result<Option<&'a str>, Invalid>
    requires { depth ≤ 127 }
    ensures members { MatchResult result
        (λ status. ReadsMembers (λ ms. text_in status ≡ option_and_then as_str (get_member (codes "status") ms)) depth reader.old reader.new)
        (λ _. members_at depth no_members reader.old ≡ None) }
    ensures shorter { OnOk result (length reader.new < length reader.old) }
{
    let mut status = None;
    'members: while let Some(name) = reader.next_key()? {
        let text = text(reader, depth)?;
        if is_status(name) {
            status = text;
        }
    }
    Ok(status)
}

/// The next value, as token binding.
fn binding(reader: &mut Reader<'_>, depth: usize) -> Result<Binding, Invalid>
    requires { depth ≤ 127 }
    ensures value { MatchResult result (λ binding. Reads binding_by depth reader.old binding reader.new)
        (λ _. value_at depth reader.old ≡ None) }
    ensures shorter { OnOk result (length reader.new < length reader.old) }
{
    let Some(token) = reader.next() else {
        return Err(Invalid);
    };
    if !begins_object(token) {
        pass_over(token, reader, depth)?;
        return Ok(Binding::Other);
    }
    if depth == 0 {
        return Err(Invalid);
    }
    let status = status(reader, depth - 1)?;
    Ok(binding_of(status))
}

impl<'a> Found<'a> {
    /// What is found of an object without members.
    fn none() -> Found<'a>
        ensures { IsFound result no_members }
    {
        Found {
            kind: None,
            challenge: None,
            origin: None,
            binding: Binding::Absent,
            cross_origin: CrossOrigin::Absent,
            top_origin: Top::Absent,
        }
    }

    /// Reads the value of the next member, after its name.
    fn take(&mut self, name: &str, reader: &mut Reader<'a>) -> Result<(), Invalid>
        ensures value { MatchResult result
            (λ _. TakesMember name.now self.old self.new reader.old reader.new)
            (λ _. value_at 126 reader.old ≡ None) }
        ensures shorter { OnOk result (length reader.new < length reader.old) }
    {
        match name {
            "type" => self.kind = text(reader, MEMBER_DEPTH)?,
            "challenge" => self.challenge = text(reader, MEMBER_DEPTH)?,
            "origin" => self.origin = text(reader, MEMBER_DEPTH)?,
            "tokenBinding" => self.binding = binding(reader, MEMBER_DEPTH)?,
            "crossOrigin" => self.cross_origin = crossing(reader, MEMBER_DEPTH)?,
            "topOrigin" => self.top_origin = top_of(text(reader, MEMBER_DEPTH)?),
            _ => {
                text(reader, MEMBER_DEPTH)?;
            }
        }
        Ok(())
    }

    /// What was found, in memory of its own: none of a text may be missing.
    pub(crate) fn copied(&self, alloc: Global) -> Result<Seen, Error>
        ensures ok { IfOk result (λ seen. seen_found self.now ≡ Some seen) }
        ensures unreadable { IsErrOf result Error.Unreadable → seen_found self.now ≡ None }
    {
        let (Some(kind), Some(challenge), Some(origin)) = (self.kind, self.challenge, self.origin)
        else {
            return Err(Error::Unreadable);
        };
        Ok(Seen {
            kind: owned(alloc, kind)?,
            challenge: owned(alloc, challenge)?,
            origin: owned(alloc, origin)?,
            binding: self.binding,
            cross_origin: self.cross_origin,
            top_origin: owned_top(alloc, &self.top_origin)?,
        })
    }
}

/// A text in memory of its own.
fn owned(alloc: Global, text: &str) -> Result<Text, AllocError>
    ensures { IfOk result (λ copy. copy ≡ text.now) }
{
    Ok(Text::from(String::from_str(alloc, text)?))
}

/// The page at the top, in memory of its own.
fn owned_top(alloc: Global, top: &Top<'_>) -> Result<TopOrigin, AllocError>
    ensures { IfOk result (λ copy. copy ≡ top_in top.now) }
{
    match top {
        Top::Absent => Ok(TopOrigin::Absent),
        Top::Named(page) => Ok(TopOrigin::Named(owned(alloc, page)?)),
        Top::Other => Ok(TopOrigin::Other),
    }
}

/// The members of the object that is open, up to its end.
fn members<'a>(reader: &mut Reader<'a>) -> Result<Found<'a>, Invalid>
    ensures members { MatchResult result (λ found. ReadsMembers (IsFound found) 126 reader.old reader.new)
        (λ _. members_at 126 no_members reader.old ≡ None) }
{
    let mut found = Found::none();
    'members: while let Some(name) = reader.next_key()? {
        found.take(name, reader)?;
    }
    Ok(found)
}

/// What is found of the whole text.
pub(crate) fn find<'a>(reader: &mut Reader<'a>) -> Result<Found<'a>, Invalid>
    ensures { MatchResult result
        (λ found. (ms : Members) × (whole_of reader.old ≡ Some (object ms)) × IsFound found ms)
        (λ _. option_and_then seen_in (whole_of reader.old) ≡ None) }
{
    let Some(token) = reader.next() else {
        return Err(Invalid);
    };
    if !begins_object(token) {
        return Err(Invalid);
    }
    let found = members(reader)?;
    match reader.next() {
        None => Ok(found),
        Some(_) => Err(Invalid),
    }
}
