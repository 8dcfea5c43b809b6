//! The input.

use crate::fault::Fault;
use std::io::{BufReader, Read};

/// The most lines that are carried out together.
pub(crate) const MOST_TOGETHER: usize = 256;

/// That standard input is open, before any file is: a file that is opened would stand in its place.
pub(crate) fn check_input(rt: &HostRuntime) -> Result<(), Fault> {
    match rt.reader().read(&mut []) {
        Ok(_) => Ok(()),
        Err(_) => Err(Fault::NoInput),
    }
}

/// Whether a whole line was read already, which can be taken without waiting.
pub(crate) fn has_line<R: Read>(reader: &BufReader<R>) -> bool {
    reader.buffer().contains(&b'\n')
}
