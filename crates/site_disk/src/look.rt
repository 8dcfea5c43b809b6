//! A file that is looked at and not changed: what is written to it is kept in memory, or refused.

ghost use Rattle.std.specs.Prelude.{◌≡◌, ◌+◌, false, IsErr};
ghost use Rattle.sqlite_disk.specs.Disk.{CountsFault};
ghost use Rattle.sqlite_disk.specs.Refusal.{finds_no_room};

use sqlite_disk::{Disk, Tally, digest_of};
use std::fs::File;
use std::io;
use std::os::unix::fs::FileExt;

/// A file that is looked at. Nothing that is found in it is taken as true by a clause.
#[derive(Drop)]
pub struct Look<D: Disk> {
    /// The file, where it is read from the disk; a write to it is refused.
    file: Option<File>,
    /// What is in memory, where it is not.
    inner: D,
    failed: u64,
}

impl<D: Disk> Look<D> {
    /// A file that is wholly in memory.
    pub fn in_memory(inner: D) -> Look<D> {
        Look {
            file: None,
            inner,
            failed: 0,
        }
    }

    /// A file that is read from the disk.
    pub fn on_disk(file: File, inner: D) -> Look<D> {
        Look {
            file: Some(file),
            inner,
            failed: 0,
        }
    }
}

/// The outcome of a call, which is counted where it failed.
fn counted<T>(outcome: io::Result<T>, failed: &mut u64) -> io::Result<T>
    ensures same { result ≡ outcome }
    ensures counted { CountsFault outcome failed.old failed.new }
{
    if outcome.is_err() {
        *failed = failed.saturating_add(1);
    }
    outcome
}

/// Refuses a write.
fn refused(failed: &mut u64) -> io::Result<()>
    ensures error { IsErr result }
    ensures kind { finds_no_room result ≡ false }
    ensures counted { CountsFault result failed.old failed.new }
{
    *failed = failed.saturating_add(1);
    Err(io::Error::other("the file is only looked at"))
}

fn length(file: &File) -> io::Result<usize> {
    Ok(file.metadata()?.len() as usize)
}

impl<D: Disk> Disk for Look<D> {
    ghost seen = { λ l. D.Disk.seen l.inner };

    ghost may_leave = { λ l. D.Disk.may_leave l.inner };

    ghost is_usable = { λ l. D.Disk.is_usable l.inner };

    ghost faults = { λ l. D.Disk.faults l.inner + l.failed };

    ghost tally_of = { λ l. D.Disk.tally_of l.inner };

    ghost key_of = { λ l. D.Disk.key_of l.inner };

    ghost is_clean = { λ _. false };

    ghost is_fair = { λ _ _. false };

    ghost fair_if_clean = { λ _ _ clean. clean };

    ghost seen_may_stay = { λ l. D.Disk.seen_may_stay l.inner };

    fn mixes(&self) -> bool {
        false
    }

    fn key(&self) -> u64 {
        self.inner.key()
    }

    fn tally(&self) -> Tally {
        self.inner.tally()
    }

    fn may_be_used(&self) -> bool {
        self.inner.may_be_used()
    }

    fn len(&mut self) -> io::Result<usize> {
        match &self.file {
            Some(file) => counted(length(file), &mut self.failed),
            None => counted(self.inner.len(), &mut self.failed),
        }
    }

    fn read_at(&mut self, at: usize, buf: &mut [u8]) -> io::Result<()> {
        match &self.file {
            Some(file) => counted(file.read_exact_at(buf, at as u64), &mut self.failed),
            None => counted(self.inner.read_at(at, buf), &mut self.failed),
        }
    }

    fn read_checked(&mut self, key: u64, want: u64, at: usize, buf: &mut [u8]) -> io::Result<()> {
        self.read_at(at, buf)?;
        if digest_of(key, buf) != want {
            return counted(Err(io::ErrorKind::InvalidData.into()), &mut self.failed);
        }
        Ok(())
    }

    fn write_at(&mut self, at: usize, bytes: &[u8]) -> io::Result<()> {
        if self.file.is_some() {
            return refused(&mut self.failed);
        }
        counted(self.inner.write_at(at, bytes), &mut self.failed)
    }

    fn set_len(&mut self, len: usize) -> io::Result<()> {
        if self.file.is_some() {
            return refused(&mut self.failed);
        }
        counted(self.inner.set_len(len), &mut self.failed)
    }

    fn sync(&mut self) -> io::Result<()> {
        counted(self.inner.sync(), &mut self.failed)
    }
}
