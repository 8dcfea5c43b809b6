//! Why the program ends early.

use crate::party::PartyFault;
use site_files::FileError;
use std::io;

/// Why the program ends early.
#[derive(Debug, Drop, thiserror::Error)]
pub(crate) enum Fault {
    /// The rp id or an origin is none that a browser writes.
    #[error("{0}")]
    BadParty(PartyFault),
    /// There was no memory for the relying party.
    #[error("out of memory")]
    Memory,
    /// Standard input is closed, or is none that can be read.
    #[error("standard input is closed, or can't be read")]
    NoInput,
    /// The site's file is not made, opened or closed.
    #[error("{0}")]
    File(FileError),
    /// Reading, writing, random bytes or the clock failed, or there was no memory.
    #[error("{0}")]
    System(io::Error),
}

impl From<io::Error> for Fault {
    fn from(e: io::Error) -> Fault {
        Fault::System(e)
    }
}

impl From<FileError> for Fault {
    fn from(e: FileError) -> Fault {
        Fault::File(e)
    }
}

impl From<PartyFault> for Fault {
    fn from(e: PartyFault) -> Fault {
        Fault::BadParty(e)
    }
}

impl Fault {
    /// The status of the program: 2 where the arguments are wrong, 3 where the system failed, 4 of the file.
    pub(crate) fn status(&self) -> u8 {
        match self {
            Fault::BadParty(_) => 2,
            Fault::Memory | Fault::NoInput | Fault::System(_) => 3,
            Fault::File(_) => 4,
        }
    }
}
