//! What comes in: the arguments, and lines in bounded memory.

use crate::reading::MAX_LINE;
use std::env;
use std::io::{self, BufRead, Read};

/// How many bytes of the input are read at a time.
pub const READ_AT_ONCE: usize = 65_536;

/// The arguments of the command line, the program's name first.
pub fn arguments(rt: &HostRuntime) -> io::Result<Vec<String>> {
    let mut arguments = Vec::new(rt.alloc());
    for word in env::args(rt)? {
        arguments.push(word)?;
    }
    Ok(arguments)
}

/// The next line into a buffer, without its end: false where none is left. Of a line of more than `MAX_LINE` bytes one byte
/// more than those is kept, and the rest is read over.
pub fn next_line<R: BufRead>(reader: &mut R, line: &mut Vec<u8>) -> io::Result<bool> {
    line.clear();
    let most = MAX_LINE as u64 + 2;
    if reader.take(most).read_until(b'\n', line)? == 0 {
        return Ok(false);
    }
    if line.last() == Some(&b'\n') {
        line.pop();
    } else if line.len() > MAX_LINE {
        reader.skip_until(b'\n')?;
    }
    Ok(true)
}
