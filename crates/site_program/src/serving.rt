//! Serving lines.

use crate::arriving::take_lines;
use crate::fault::Fault;
use crate::options::{Log, Options};
use crate::telling::tell;
use json_lines::{READ_AT_ONCE, VERSION};
use site_files::{FileSite, Start, backup};
use site_lines::{Answer, Answered, Arrived, Logged, Tally, Teller, answer_lines, log_line};
use std::fs::File;
use std::io::{self, BufReader, Read, Write};
use std::time::{SystemTime, UNIX_EPOCH};

/// The seconds of the system's clock since 1970. A clock that is set before is an error, which ends the program: sessions
/// would have no moment in which they began.
fn seconds(rt: &HostRuntime) -> io::Result<u64> {
    let now = SystemTime::now(rt)?;
    match now.duration_since(UNIX_EPOCH) {
        Ok(since) => Ok(since.as_secs()),
        Err(_) => Err(io::Error::from(io::ErrorKind::InvalidData)),
    }
}

/// What is logged, of the word of the command line.
fn logged(log: Log) -> Logged {
    match log {
        Log::Refusals => Logged::Refusals,
        Log::All => Logged::All,
    }
}

/// Copies the file where an answer says so, which then says why not where it fails.
fn back_up(rt: &HostRuntime, file: &str, answered: &mut Answered) -> io::Result<()> {
    let Answer::Backup(path) = &answered.answer else {
        return Ok(());
    };
    if let Err(why) = backup(rt, file, path.as_str()) {
        let why = format!(in rt.alloc(); "the file was not copied: {why}")?;
        answered.answer = Answer::NotBackedUp(why);
    }
    Ok(())
}

/// Writes the log's line of an answer at this second to standard error, where it has one.
fn log(rt: &HostRuntime, which: Logged, now: u64, answered: &Answered) -> io::Result<()> {
    let mut text = String::new(rt.alloc());
    log_line(rt.alloc(), which, now, answered, &mut text)?;
    rt.stderr().write_all(text.as_bytes())
}

/// Writes the log's lines of answers, and tells how many could not be written.
fn log_all(rt: &HostRuntime, asked: Option<Log>, now: u64, answers: &[Answered]) -> u64 {
    let Some(which) = asked else {
        return 0;
    };
    let mut lost = 0_u64;
    for answered in answers {
        if log(rt, logged(which), now, answered).is_err() {
            lost = lost.saturating_add(1);
        }
    }
    lost
}

/// Answers lines that came together. A line of the log that can't be written is counted, and ends nothing.
fn answer<S: Start>(
    rt: &HostRuntime,
    options: &Options<'_>,
    site: &mut FileSite<S>,
    tally: &mut Tally,
    now: u64,
    arrived: &[Arrived],
) -> io::Result<()> {
    let mut answers = answer_lines(rt.alloc(), rt, site, tally, now, arrived)?;
    for answered in &mut answers {
        back_up(rt, options.file, answered)?;
    }
    let teller = Teller {
        party: site.party(),
        rp_name: options.rp_name,
        version: VERSION,
        tally: &*tally,
        known: site.known(),
    };
    tell(rt.alloc(), &mut rt.stdout(), &teller, answers.as_slice())?;
    tally.note_lost(log_all(rt, options.log, now, answers.as_slice()));
    Ok(())
}

/// Answers the lines of an input until its end, those that have come together at once.
fn serve_lines<S: Start, R: Read, W: Read>(
    rt: &HostRuntime,
    options: &Options<'_>,
    site: &mut FileSite<S>,
    reader: &mut BufReader<R>,
    random: &mut W,
) -> Result<(), Fault> {
    let mut tally = Tally::new();
    let mut now = 0;
    for _ in 0..u64::MAX {
        let arrived = take_lines(rt.alloc(), reader, random)?;
        if arrived.is_empty() {
            break;
        }
        // A clock that is set back doesn't open again what has ended.
        now = u64::max(now, seconds(rt)?);
        answer(rt, options, site, &mut tally, now, arrived.as_slice())?;
    }
    Ok(())
}

/// Answers the lines of this input until its end, with the bytes of this source of random ones.
fn serve_with<S: Start, R: Read + Drop, W: Read + Drop>(
    rt: &HostRuntime,
    options: &Options<'_>,
    site: &mut FileSite<S>,
    input: R,
    source: W,
) -> Result<(), Fault> {
    let mut random = BufReader::new(rt.alloc(), source)?;
    let mut reader = BufReader::with_capacity(rt.alloc(), READ_AT_ONCE, input)?;
    serve_lines(rt, options, site, &mut reader, &mut random)
}

/// Answers the lines of standard input until its end, with the system's random bytes.
pub(crate) fn serve<S: Start>(
    rt: &HostRuntime,
    options: &Options<'_>,
    site: &mut FileSite<S>,
) -> Result<(), Fault> {
    let source = File::open(rt, "/dev/urandom")?;
    serve_with(rt, options, site, rt.reader(), source)
}
