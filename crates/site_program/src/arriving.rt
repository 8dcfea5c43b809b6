//! Lines that have come, each with random bytes of its own.

ghost use Rattle.std.specs.Prelude.{◌≡◌, ◌++◌, IfOk, OnOk, List, option_to_list};
ghost use Rattle.std.specs.Io.KnownBytes.{Consumes};
ghost use Rattle.site_lines.specs.declared.line.Arrived.{Arrived as Line};
ghost use Rattle.site_program.specs.Words.{words_in};

use crate::input::{MOST_TOGETHER, has_line};
use json_lines::next_line;
use site_lines::Arrived;
use std::alloc::Global;
use std::io::{self, BufRead, BufReader, Read};

/// 24 bytes of a source of random bytes.
fn random_words<W: Read>(random: &mut W) -> io::Result<[u8; 24]>
    ensures { IfOk result (λ words. Consumes (W.remaining random.old) (W.remaining random.new) words) }
{
    let mut words = [0; 24];
    random.read_exact(&mut words)?;
    Ok(words)
}

/// The next line, with random bytes of its own: none where the input has ended.
fn next_arrived<R: BufRead, W: Read>(
    alloc: Global,
    reader: &mut R,
    random: &mut W,
) -> io::Result<Option<Arrived>>
    ensures { IfOk result (λ found. Consumes (W.remaining random.old) (W.remaining random.new) (words_in (option_to_list found))) }
{
    let mut line = Vec::new(alloc);
    if !next_line(reader, &mut line)? {
        return Ok(None);
    }
    let words = random_words(random)?;
    Ok(Some(Arrived { line, words }))
}

/// Takes the next line: false where none is left.
fn take_line<R: BufRead, W: Read>(
    alloc: Global,
    reader: &mut R,
    random: &mut W,
    arrived: &mut Vec<Arrived>,
) -> io::Result<bool>
    ensures { OnOk result ((more : List Line) × (arrived.new.items ≡ arrived.old.items ++ more)
        × Consumes (W.remaining random.old) (W.remaining random.new) (words_in more)) }
{
    let Some(next) = next_arrived(alloc, reader, random)? else {
        return Ok(false);
    };
    arrived.push(next)?;
    Ok(true)
}

/// Takes the next line where it has come: false where none has, or none is left.
fn take_ready<R: Read, W: Read>(
    alloc: Global,
    reader: &mut BufReader<R>,
    random: &mut W,
    arrived: &mut Vec<Arrived>,
) -> io::Result<bool>
    ensures { OnOk result ((more : List Line) × (arrived.new.items ≡ arrived.old.items ++ more)
        × Consumes (W.remaining random.old) (W.remaining random.new) (words_in more)) }
{
    if !has_line(reader) {
        return Ok(false);
    }
    take_line(alloc, reader, random, arrived)
}

/// Waits for a line, and takes those that have come with it: none where the input has ended.
pub(crate) fn take_lines<R: Read, W: Read>(
    alloc: Global,
    reader: &mut BufReader<R>,
    random: &mut W,
) -> io::Result<Vec<Arrived>>
    // Each line has the random bytes that the source gives next, and no other line has them.
    ensures words { IfOk result (λ arrived. Consumes (W.remaining random.old) (W.remaining random.new) (words_in arrived.items)) }
{
    let mut arrived = Vec::new(alloc);
    if !take_line(alloc, reader, random, &mut arrived)? {
        return Ok(arrived);
    }
    for _ in 1..MOST_TOGETHER {
        if !take_ready(alloc, reader, random, &mut arrived)? {
            return Ok(arrived);
        }
    }
    Ok(arrived)
}
