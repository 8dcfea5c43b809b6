//! Writing an answer.

ghost use Rattle.std.specs.Prelude.{◌≡◌, ◌++◌, ◌∷◌, [], ℕ, IfOk, List, Ok, OnOk, codes, map, option_map, string_bytes};
ghost use Rattle.json_lines.specs.Written.{IsTextOf, base64url, number_or_null as number_or_null_of};
ghost use Rattle.serde_json.specs.Data.{Data, boolean, no_members, put as insert, string};
ghost use Rattle.serde_json.specs.View.{members_view, view};
ghost use Rattle.client_lines.specs.Written.{Beside, Writes, answered as answered_of, ask_members, asked_members, packet_list, refused_members, state_name as state_name_of, with_number};
ghost use Rattle.client_lines.specs.Private.{IsRefused};

use crate::answer::{Answer, Told};
use crate::fault::Fault;
use crate::line::Answered;
use crate::refused::Refused;
use hidframe::Packet;
use json_lines::{base64_text, number_or_null, write_line};
use pin_protocols::Ask;
use serde_json::{Map, Value, put};
use std::alloc::{AllocError, Global};

/// The name of an answer's state.
fn state_name(answer: &Answer) -> &'static str
    ensures { result.now ≡ state_name_of answer.now }
{
    match answer {
        Answer::Waits | Answer::Works => "waits",
        Answer::Touch => "touch",
        Answer::NeedsPin { .. } => "needs_pin",
        Answer::Asks => "asks",
        Answer::Chooses(_) => "choose",
        Answer::Registered(_) => "registered",
        Answer::SignedIn(_) => "signed_in",
        Answer::Informs(_) => "information",
        Answer::PinIsSet => "pin_set",
        Answer::Refused(_) => "refused",
    }
}

/// Adds a text.
fn put_text(
    alloc: Global,
    name: &str,
    text: &str,
    out: &mut Map<String, Value>,
) -> Result<(), AllocError>
    ensures { OnOk result (members_view out.new.entries ≡ insert name.now (string text.now) (members_view out.old.entries)) }
{
    put(out, alloc, name, Value::try_from_str(alloc, text)?)
}

/// Adds bytes.
fn put_bytes(
    alloc: Global,
    name: &str,
    bytes: &[u8],
    out: &mut Map<String, Value>,
) -> Result<(), AllocError>
    ensures { OnOk result (members_view out.new.entries ≡ insert name.now (base64url bytes.now) (members_view out.old.entries)) }
{
    put(out, alloc, name, base64_text(alloc, bytes)?)
}

/// Adds what the host is asked to compute.
fn put_ask(alloc: Global, ask: &Ask, out: &mut Map<String, Value>) -> Result<(), AllocError>
    requires { members_view out.old.entries ≡ no_members }
    ensures { OnOk result (members_view out.new.entries ≡ ask_members ask.now) }
{
    put_text(alloc, "operation", ask.operation.name(), out)?;
    put_bytes(alloc, "key", ask.key.as_slice(), out)?;
    put_bytes(alloc, "iv", ask.iv.as_slice(), out)?;
    put_bytes(alloc, "text", ask.text.as_slice(), out)
}

/// Adds what the host is asked to compute, where it is asked.
fn put_asked(
    alloc: Global,
    asked: Option<&Ask>,
    out: &mut Map<String, Value>,
) -> Result<(), AllocError>
    requires { members_view out.old.entries ≡ no_members }
    ensures { OnOk result (members_view out.new.entries ≡ asked_members (option_map (λ a. a.now) asked.entry)) }
{
    match asked {
        Some(ask) => put_ask(alloc, ask, out),
        None => Ok(()),
    }
}

/// Adds a number, where it is there.
fn put_if_there(
    alloc: Global,
    name: &str,
    number: Option<u8>,
    out: &mut Map<String, Value>,
) -> Result<(), AllocError>
    ensures { OnOk result (members_view out.new.entries ≡ with_number name.now number (members_view out.old.entries)) }
{
    match number {
        Some(number) => put(out, alloc, name, Value::from(number)),
        None => Ok(()),
    }
}

/// Adds why an act is over.
fn put_refused(
    alloc: Global,
    refused: &Refused,
    out: &mut Map<String, Value>,
) -> Result<(), AllocError>
    requires { members_view out.old.entries ≡ no_members }
    ensures { OnOk result (IsRefused refused.now (members_view out.new.entries)) }
{
    put_text(alloc, "name", refused.name(), out)?;
    let text = format!(in alloc; "{refused}")?;
    put_text(alloc, "text", text.as_str(), out)?;
    put_if_there(alloc, "status", refused.status(), out)?;
    put_if_there(alloc, "code", refused.code(), out)
}

/// Adds what the user's PIN is wanted for: how many attempts are left, and whether one was just refused.
fn put_pin(
    alloc: Global,
    retries: Option<u64>,
    wrong: bool,
    out: &mut Map<String, Value>,
) -> Result<(), AllocError>
    requires { members_view out.old.entries ≡ no_members }
    ensures { OnOk result (members_view out.new.entries ≡ insert (codes "wrong") (boolean wrong) (insert (codes "retries") (number_or_null_of retries) no_members)) }
{
    put(out, alloc, "retries", number_or_null(retries))?;
    put(out, alloc, "wrong", Value::Bool(wrong))
}

/// What stands beside an answer's state.
fn members(
    alloc: Global,
    asked: Option<&Ask>,
    answer: Answer,
) -> Result<Map<String, Value>, AllocError>
    ensures { IfOk result (λ m. Beside (option_map (λ a. a.now) asked.entry) answer (members_view m.entries)) }
{
    let mut out = Map::new(alloc);
    match answer {
        Answer::Works => put_text(alloc, "keepalive", "processing", &mut out)?,
        Answer::NeedsPin { retries, wrong } => put_pin(alloc, retries, wrong, &mut out)?,
        Answer::Asks => put_asked(alloc, asked, &mut out)?,
        Answer::Chooses(credentials) => put(&mut out, alloc, "credentials", credentials.value)?,
        Answer::Registered(response) => put(&mut out, alloc, "response", response.value)?,
        Answer::SignedIn(response) => put(&mut out, alloc, "response", response.value)?,
        Answer::Informs(told) => return Ok(told.members),
        Answer::Refused(refused) => put_refused(alloc, &refused, &mut out)?,
        Answer::Waits | Answer::Touch | Answer::PinIsSet => {}
    }
    Ok(out)
}

/// Packets, as a list.
fn packet_values(alloc: Global, packets: &[Packet]) -> Result<Vec<Value>, AllocError>
    ensures { IfOk result (λ list. map view list.items ≡ map (λ p. base64url p.0) packets.now) }
{
    let mut list = Vec::with_capacity(alloc, packets.len())?;
    for packet in packets {
        list.push(base64_text(alloc, &packet.0)?)?;
    }
    Ok(list)
}

/// Packets.
fn packets(alloc: Global, packets: &[Packet]) -> Result<Value, AllocError>
    ensures { IfOk result (λ v. view v ≡ packet_list packets.now) }
{
    let list = packet_values(alloc, packets)?;
    Ok(Value::Array(list))
}

/// The object of an answer with this state, these packets and these members.
fn answered(
    alloc: Global,
    id: Option<u64>,
    send: &[Packet],
    state: &str,
    members: Map<String, Value>,
) -> Result<Value, AllocError>
    ensures { IfOk result (λ v. view v ≡ answered_of id send.now state.now (members_view members.entries)) }
{
    let mut out = members;
    put_text(alloc, "state", state, &mut out)?;
    put(&mut out, alloc, "send", packets(alloc, send)?)?;
    put(&mut out, alloc, "id", number_or_null(id))?;
    Ok(Value::Object(out))
}

/// The object of what is answered.
fn told_value(
    alloc: Global,
    asked: Option<&Ask>,
    id: Option<u64>,
    told: Told,
) -> Result<Value, AllocError>
    ensures { IfOk result (λ v. Writes (option_map (λ a. a.now) asked.entry) id (Ok told) (view v)) }
{
    let state = state_name(&told.answer);
    let members = members(alloc, asked, told.answer)?;
    answered(alloc, id, told.send.as_slice(), state, members)
}

/// The object of an answer to a line that had no effect.
fn fault_value(alloc: Global, id: Option<u64>, fault: Fault) -> Result<Value, AllocError>
    ensures { IfOk result (λ v. (text : List ℕ) × (view v ≡ answered_of id [] (codes "error") (insert (codes "text") (string text) no_members))) }
{
    let mut members = Map::new(alloc);
    let text = format!(in alloc; "{fault}")?;
    put_text(alloc, "text", text.as_str(), &mut members)?;
    answered(alloc, id, &[], "error", members)
}

/// The object of an answer.
fn answer_value(alloc: Global, asked: Option<&Ask>, answered: Answered) -> Result<Value, AllocError>
    ensures { IfOk result (λ v. Writes (option_map (λ a. a.now) asked.entry) answered.id answered.told (view v)) }
{
    let Answered { id, told } = answered;
    match told {
        Ok(told) => told_value(alloc, asked, id, told),
        Err(fault) => fault_value(alloc, id, fault),
    }
}

/// Appends an answer as one line, with its end. Its `id` is null where the line that it answers has no number.
#[tactic(auto, using(crate::proofs::Depths::writes_shallow))]
pub(crate) fn write_answer(
    alloc: Global,
    asked: Option<&Ask>,
    answered: Answered,
    out: &mut String,
) -> Result<(), AllocError>
    // The text is that of the answer and of nothing else, and it ends in a line feed.
    ensures written { OnOk result ((d : Data) × (text : List ℕ) × Writes (option_map (λ a. a.now) asked.entry) answered.id answered.told d × IsTextOf d text
        × (string_bytes out.new ≡ string_bytes out.old ++ text ++ 10 ∷ [])) }
{
    let value = answer_value(alloc, asked, answered)?;
    write_line(alloc, &value, out)
}
