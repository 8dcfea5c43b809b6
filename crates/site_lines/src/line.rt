//! From lines to their answers.

ghost use Rattle.std.specs.Prelude.{◌≡◌, ◌≤◌, ◌⊎◌, IfErr, IfOk, OnErr, OnOk, Some, map, true};
ghost use Rattle.sqlite_trees.specs.Tree.{Trees};
ghost use Rattle.site_rows.specs.Calls.{IsQuiet};
ghost use Rattle.site_stored.specs.State.{committed_as};
ghost use Rattle.site_lines.specs.declared.answer.Answer.TheVariants as answers;
ghost use Rattle.site_lines.specs.Answers.{Keeps, Tells};
ghost use Rattle.site_lines.specs.Details.{TellsDetails};
ghost use Rattle.site_lines.specs.Causes.{FailsIn};
ghost use Rattle.site_lines.specs.Batches.{Answers, IsAnswered, IsCommitted, IsNotCommitted, Leaves, Runs, failed_as};

use crate::acting::carry_out;
use crate::answer::Answer;
use crate::tally::Tally;
use json_lines::LineFault;
use site_acts::{Act, Line, read_line};
use site_stored::{Failure, StoredSite, number_in};
use sqlite_trees::store::Store;
use std::alloc::{AllocError, Global};
use std::io;
use std::time::{Clock, Instant};

/// A line that came, with 24 fresh random bytes for the session that it may begin.
#[derive(Debug, Drop)]
pub struct Arrived {
    /// The line, without its end.
    pub line: Vec<u8>,
    /// The bytes.
    pub words: [u8; 24],
}

/// An answer, with what tells it from others: the number of its line, and of the session that the line names or begins.
#[derive(Debug, Drop)]
pub struct Answered {
    /// The line's number; nothing where it can't be read.
    pub id: Option<u64>,
    /// The session's number, where the line has one.
    pub session: Option<u64>,
    /// The answer.
    pub answer: Answer,
}

/// The number of the session that an act names, as the session's text has it. It is logged, and judged by nothing.
fn named_session(act: &Act) -> Option<u64> {
    match act {
        Act::FinishRegistration(finish) => number_in(finish.session.as_slice()),
        Act::FinishSignIn(finish) => number_in(finish.session.as_slice()),
        Act::Abandon(session) => number_in(session.as_slice()),
        _ => None,
    }
}

/// The session that an answer begins, or else the one that its line names.
fn session_of(named: Option<u64>, answer: &Answer) -> Option<u64> {
    match answer {
        Answer::RegistrationBegun(begun, ..) | Answer::SignInBegun(begun, ..) => {
            Some(begun.session)
        }
        _ => named,
    }
}

/// Carries out what a line that was read asks for.
fn carried_out<S: Store>(
    alloc: Global,
    site: &mut StoredSite<S>,
    words: [u8; 24],
    now: u64,
    line: Line,
) -> Answered
    ensures told { Tells S.Store.view words now line.act site.old site.new result.answer }
    ensures details { TellsDetails S.Store.view now line.act site.old site.new result.answer }
    ensures kept { Keeps S.Store.view site.old site.new result.answer }
    ensures number { result.id ≡ Some line.id }
    ensures cause { FailsIn S.Store.view S.Store.faults now line.act site.old site.new result.answer }
    ensures quiet { IsQuiet S.Store site.old.store site.new.store }
{
    let named = named_session(&line.act);
    let answer = carry_out(alloc, site, words, now, line.act);
    Answered {
        id: Some(line.id),
        session: session_of(named, &answer),
        answer,
    }
}

/// What a line that is refused is answered.
fn refused(fault: LineFault) -> Answered
    ensures answer { result.answer ≡ answers.Error fault.error }
    ensures number { result.id ≡ fault.id }
{
    Answered {
        id: fault.id,
        session: None,
        answer: Answer::Error(fault.error),
    }
}

/// Carries out what a line asks for, or tells why it is not read.
fn answer_one<S: Store>(
    alloc: Global,
    site: &mut StoredSite<S>,
    now: u64,
    arrived: &Arrived,
) -> Answered
    ensures told { IsAnswered S.Store.view S.Store.faults now arrived.now site.old site.new result }
    ensures kept { Keeps S.Store.view site.old site.new result.answer }
    ensures quiet { IsQuiet S.Store site.old.store site.new.store }
{
    match read_line(alloc, arrived.line.as_slice()) {
        Ok(line) => carried_out(alloc, site, arrived.words, now, line),
        Err(fault) => refused(fault),
    }
}

/// Carries out each line, in order.
fn carry_all<S: Store>(
    alloc: Global,
    site: &mut StoredSite<S>,
    now: u64,
    arrived: &[Arrived],
) -> Result<Vec<Answered>, AllocError>
    ensures ran { IfOk result (λ answers. Runs S.Store.view S.Store.faults now site.old arrived.now answers.items site.new) }
    ensures quiet { IsQuiet S.Store site.old.store site.new.store }
{
    let mut answers = Vec::with_capacity(alloc, arrived.len())?;
    for one in arrived {
        let answered = answer_one(alloc, site, now, one);
        answers.push(answered)?;
    }
    Ok(answers)
}

/// The same answers, each a failure.
fn failed(alloc: Global, answers: &[Answered], why: Failure) -> Result<Vec<Answered>, AllocError>
    ensures { IfOk result (λ told. told.items ≡ map (failed_as why) answers.now) }
{
    let mut told = Vec::with_capacity(alloc, answers.len())?;
    for answered in answers {
        told.push(Answered {
            id: answered.id,
            session: answered.session,
            answer: Answer::Failed(why),
        })?;
    }
    Ok(told)
}

/// The microseconds since an instant; 0 where the clock fails.
fn since(clock: &impl Clock, began: io::Result<Instant>) -> u64 {
    let Ok(began) = began else {
        return 0;
    };
    match began.elapsed(clock) {
        Ok(elapsed) => u64::try_from(elapsed.as_micros()).unwrap_or(u64::MAX),
        Err(_) => 0,
    }
}

/// Commits what the lines have done, and counts it where something was written.
fn commit<S: Store>(
    clock: &impl Clock,
    site: &mut StoredSite<S>,
    tally: &mut Tally,
) -> Result<(), Failure>
    ensures committed { OnOk result (IsCommitted S.Store.view S.Store.recovers site.old site.new) }
    ensures failed { OnErr result (site.new.is_shut ≡ true) }
    ensures cause { IfErr result (IsNotCommitted S.Store.view S.Store.faults site.old site.new) }
    ensures counts { S.Store.faults site.old.store ≤ S.Store.faults site.new.store }
    ensures crash { (db : Trees) → S.Store.recovers site.new.store db
        → (db ≡ committed_as site.old (S.Store.view site.old.store).trees) ⊎ S.Store.recovers site.old.store db }
{
    if !site.is_pending() {
        return site.commit();
    }
    let began = Instant::now(clock);
    site.commit()?;
    tally.note_commit(since(clock, began));
    Ok(())
}

/// Answers lines that came together, at this second of the host's clock: each is carried out, in order, and all are committed
/// together. Where the commit fails each answer is that failure. The tally is of what is answered; the clock measures commits.
///
/// Where there is no memory for the list of answers, what the lines asked for is not committed, and the site is to be opened
/// anew.
pub fn answer_lines<S: Store>(
    alloc: Global,
    clock: &impl Clock,
    site: &mut StoredSite<S>,
    tally: &mut Tally,
    now: u64,
    arrived: &[Arrived],
) -> Result<Vec<Answered>, AllocError>
    // What is answered is committed; or each answer is one failure. Each failure has its cause in its line, or in the commit.
    ensures told { IfOk result (λ answers. Answers S.Store.view S.Store.faults S.Store.recovers now site.old arrived.now answers.items site.new) }
    // Faults of the disk are counted.
    ensures counts { S.Store.faults site.old.store ≤ S.Store.faults site.new.store }
    // A crash leaves what it could leave before, or all that the lines have done.
    ensures crash { (db : Trees) → S.Store.recovers site.new.store db
        → S.Store.recovers site.old.store db ⊎ Leaves S.Store.view S.Store.faults now site.old arrived.now db }
{
    let answers = carry_all(alloc, site, now, arrived)?;
    match commit(clock, site, tally) {
        Ok(()) => {
            tally.note_all(answers.as_slice());
            Ok(answers)
        }
        Err(why) => failed(alloc, answers.as_slice(), why),
    }
}
