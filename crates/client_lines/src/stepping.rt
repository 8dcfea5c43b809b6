//! From a step of the client's machine to what is done.

ghost use Rattle.std.specs.Prelude.{◌≡◌, ◌⊎◌, [], IfOk};
ghost use Rattle.client_ceremony.specs.Ceremonies.{IsNext};
ghost use Rattle.client_ceremony.specs.declared.step.Step.{Step};
ghost use Rattle.client_lines.specs.Knowing.{Forgets, knowledge_facts, replies_of};
ghost use Rattle.client_lines.specs.Steps.{Asks, Informs, IsDone, IsNextBy, IsNextOf};
ghost use Rattle.client_lines.specs.declared.stepping.Next.{Next};

use crate::answer::{Answer, Told};
use crate::channel::Channel;
use crate::information::information;
use crate::knowing::{Knowledge, asserting, creating, lent};
use crate::purpose::Purpose;
use crate::refused::Refused;
use crate::responses::{assertion_response, choices, creation_response};
use client_ceremony::{Refusal, Step, Wish, next_step};
use ctap_encoding::command::GET_INFO;
use pin_protocols::Ask;
use std::alloc::Global;

/// What an act waits for.
#[derive(Debug, Drop)]
pub(crate) enum Awaits {
    /// A packet of the key.
    Packet,
    /// The user's PIN.
    Pin,
    /// What the host computes of this.
    Computed(Ask),
    /// The user's choice of so many credentials.
    Choice(usize),
}

/// What is next.
#[derive(Debug, Drop)]
enum Next {
    /// This message is to be sent.
    Sends(Vec<u8>),
    /// This is answered, and then waited for.
    Tells(Answer, Awaits),
}

/// What is next by this step.
fn next_by(alloc: Global, knowledge: &Knowledge, step: Step<'_>) -> Result<Next, Refused>
    ensures { IfOk result (λ n. IsNextBy step.entry n) }
{
    match step {
        Step::Sends(message) => Ok(Next::Sends(message)),
        Step::NeedsPin(retries) => {
            let wrong = knowledge.is_wrong;
            Ok(Next::Tells(Answer::NeedsPin { retries, wrong }, Awaits::Pin))
        }
        Step::Asks(ask) => Ok(Next::Tells(Answer::Asks, Awaits::Computed(ask))),
        Step::Chooses(list) => {
            let told = choices(alloc, list.as_slice())?;
            Ok(Next::Tells(Answer::Chooses(told), Awaits::Choice(list.len())))
        }
        Step::Created(creation) => {
            let response = creation_response(alloc, knowledge, creation)?;
            Ok(Next::Tells(Answer::Registered(response), Awaits::Packet))
        }
        Step::Asserted(assertion) => {
            let response = assertion_response(alloc, knowledge, &assertion)?;
            Ok(Next::Tells(Answer::SignedIn(response), Awaits::Packet))
        }
        Step::PinIsSet => Ok(Next::Tells(Answer::PinIsSet, Awaits::Packet)),
    }
}

/// What is next of this wish.
fn next_of(alloc: Global, knowledge: &Knowledge, wish: &Wish<'_>) -> Result<Next, Refused>
    ensures { IfOk result (λ n. (s : Step) × IsNext wish.now (knowledge_facts knowledge.now) s × IsNextBy s n) }
{
    match next_step(alloc, wish, &knowledge.known()) {
        Ok(step) => next_by(alloc, knowledge, step),
        Err(refusal) => Err(Refused::from(refusal)),
    }
}

/// What is next where the key is to tell of itself.
fn next_of_information(alloc: Global, knowledge: &Knowledge) -> Result<Next, Refused>
    ensures { IfOk result (λ n. ((replies_of knowledge.now ≡ []) × Asks n) ⊎ Informs n) }
{
    match knowledge.replies.as_slice() {
        [reply, ..] => {
            let told = information(alloc, reply.as_slice())?;
            Ok(Next::Tells(Answer::Informs(told), Awaits::Packet))
        }
        [] => Ok(Next::Sends(Vec::from_slice(alloc, &[GET_INFO])?)),
    }
}

/// What is next.
fn whats_next(alloc: Global, knowledge: &Knowledge) -> Result<Next, Refused>
    ensures { IfOk result (λ n. IsNextOf knowledge.now n) }
{
    match &knowledge.purpose {
        Purpose::Registers(registration) => {
            let exclude = lent(alloc, registration.exclude.as_slice())?;
            next_of(
                alloc,
                knowledge,
                &creating(registration, exclude.as_slice()),
            )
        }
        Purpose::SignsIn(sign_in) => {
            let allow = lent(alloc, sign_in.allow.as_slice())?;
            next_of(alloc, knowledge, &asserting(sign_in, allow.as_slice()))
        }
        Purpose::SetsPin(pin) => next_of(alloc, knowledge, &Wish::SetsPin(pin.as_str())),
        Purpose::ChangesPin(pin) => next_of(alloc, knowledge, &Wish::ChangesPin(pin.as_str())),
        Purpose::Informs => next_of_information(alloc, knowledge),
    }
}

/// The same; where the key refused the PIN it is asked for once more.
fn next_or_again(alloc: Global, knowledge: &mut Knowledge) -> Result<Next, Refused>
    ensures next { IfOk result (λ n. IsNextOf knowledge.new n) }
    ensures kept { (knowledge.new ≡ knowledge.old) ⊎ Forgets knowledge.old knowledge.new }
{
    match whats_next(alloc, knowledge) {
        Err(Refused::Client(Refusal::PinInvalid)) if knowledge.pin.is_some() => {
            knowledge.forget(alloc);
            whats_next(alloc, knowledge)
        }
        other => other,
    }
}

/// Does what is next.
fn done(alloc: Global, channel: &mut Channel, next: Next) -> Result<(Told, Awaits), Refused>
    ensures done { IfOk result (λ r. IsDone channel.old.cid next r.0 r.1) }
    ensures channel { channel.new.cid ≡ channel.old.cid }
{
    match next {
        Next::Sends(message) => {
            let send = channel.send(alloc, message.as_slice())?;
            let answer = Answer::Waits;
            Ok((Told { send, answer }, Awaits::Packet))
        }
        Next::Tells(answer, awaits) => Ok((Told::quiet(alloc, answer), awaits)),
    }
}

/// Takes an act as far as it goes by what is known: what is answered, and what is then waited for.
pub(crate) fn go_on(
    alloc: Global,
    knowledge: &mut Knowledge,
    channel: &mut Channel,
) -> Result<(Told, Awaits), Refused>
    // What is sent is the message that the client's machine tells, in frames on the channel.
    ensures done { IfOk result (λ r. (n : Next) × IsNextOf knowledge.new n × IsDone channel.old.cid n r.0 r.1) }
    ensures kept { (knowledge.new ≡ knowledge.old) ⊎ Forgets knowledge.old knowledge.new }
    ensures channel { channel.new.cid ≡ channel.old.cid }
{
    let next = next_or_again(alloc, knowledge)?;
    done(alloc, channel, next)
}
