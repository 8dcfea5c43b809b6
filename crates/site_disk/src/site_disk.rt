//! A site's disk, of which it is decided as it is opened whether a torn write may leave any bytes.

ghost use Rattle.std.specs.Prelude.{◌≡◌, IfOk, IsTrue, false};
ghost use Rattle.site_disk.specs.Kind.{held_by, is_wary, may_be_used};

use sqlite::{FileFrom, Files, Start};
use sqlite_disk::{Disk, Tally};
use sqlite_std_file::OpenError;
use std::io;

/// Files that held what `S` says. Nothing is supposed of a torn write.
#[derive(Drop)]
pub struct WaryStart<S: Start> {
    pub start: S,
}

impl<S: Start> Start for WaryStart<S> {
    ghost log = { S.Start.log };

    ghost db = { S.Start.db };

    ghost is_mixing = { false };

    fn mixes() -> bool {
        false
    }
}

/// One of two disks: which one is decided as the program runs, so that the code above is there once.
#[derive(Drop)]
pub enum SiteDisk<A: Disk, B: Disk> {
    /// As `A`, of torn writes too.
    Usual(A),
    /// As `B`, but that nothing is supposed of a torn write: each commit flushes twice.
    Wary(B),
}

/// A site's file.
pub type SiteFile<S> = SiteDisk<FileFrom<S>, FileFrom<WaryStart<S>>>;

impl<A: Disk, B: Disk> Disk for SiteDisk<A, B> {
    ghost use Rattle.site_disk.specs.Kind.{by_kind, holds_by_kind, law_by_kind};

    ghost seen = { by_kind A.Disk.seen B.Disk.seen };

    ghost may_leave = { holds_by_kind A.Disk.may_leave B.Disk.may_leave };

    ghost is_usable = { by_kind A.Disk.is_usable B.Disk.is_usable };

    ghost faults = { by_kind A.Disk.faults B.Disk.faults };

    ghost tally_of = { by_kind A.Disk.tally_of B.Disk.tally_of };

    ghost is_clean = { by_kind A.Disk.is_clean B.Disk.is_clean };

    ghost key_of = { by_kind A.Disk.key_of B.Disk.key_of };

    ghost is_fair = { by_kind A.Disk.is_fair B.Disk.is_fair };

    ghost is_frozen = { by_kind A.Disk.is_frozen B.Disk.is_frozen };

    ghost is_rotten = { by_kind A.Disk.is_rotten B.Disk.is_rotten };

    ghost is_mixing = { by_kind A.Disk.is_mixing (λ _. false) };

    ghost seen_may_stay = { law_by_kind _ A.Disk.seen_may_stay B.Disk.seen_may_stay };

    ghost fair_if_clean = { law_by_kind _ A.Disk.fair_if_clean B.Disk.fair_if_clean };

    fn mixes(&self) -> bool {
        match self {
            SiteDisk::Usual(disk) => disk.mixes(),
            SiteDisk::Wary(_) => false,
        }
    }

    fn key(&self) -> u64 {
        match self {
            SiteDisk::Usual(disk) => disk.key(),
            SiteDisk::Wary(disk) => disk.key(),
        }
    }

    fn tally(&self) -> Tally {
        match self {
            SiteDisk::Usual(disk) => disk.tally(),
            SiteDisk::Wary(disk) => disk.tally(),
        }
    }

    fn may_be_used(&self) -> bool {
        match self {
            SiteDisk::Usual(disk) => disk.may_be_used(),
            SiteDisk::Wary(disk) => disk.may_be_used(),
        }
    }

    fn len(&mut self) -> io::Result<usize> {
        match self {
            SiteDisk::Usual(disk) => disk.len(),
            SiteDisk::Wary(disk) => disk.len(),
        }
    }

    fn read_at(&mut self, at: usize, buf: &mut [u8]) -> io::Result<()> {
        match self {
            SiteDisk::Usual(disk) => disk.read_at(at, buf),
            SiteDisk::Wary(disk) => disk.read_at(at, buf),
        }
    }

    fn read_checked(&mut self, key: u64, want: u64, at: usize, buf: &mut [u8]) -> io::Result<()> {
        match self {
            SiteDisk::Usual(disk) => disk.read_checked(key, want, at, buf),
            SiteDisk::Wary(disk) => disk.read_checked(key, want, at, buf),
        }
    }

    fn write_at(&mut self, at: usize, bytes: &[u8]) -> io::Result<()> {
        match self {
            SiteDisk::Usual(disk) => disk.write_at(at, bytes),
            SiteDisk::Wary(disk) => disk.write_at(at, bytes),
        }
    }

    fn set_len(&mut self, len: usize) -> io::Result<()> {
        match self {
            SiteDisk::Usual(disk) => disk.set_len(len),
            SiteDisk::Wary(disk) => disk.set_len(len),
        }
    }

    fn sync(&mut self) -> io::Result<()> {
        match self {
            SiteDisk::Usual(disk) => disk.sync(),
            SiteDisk::Wary(disk) => disk.sync(),
        }
    }
}

fn usual_files<A: Disk, B: Disk>(files: Files<A>) -> Files<SiteDisk<A, B>>
    ensures log { result.log ≡ SiteDisk.Usual files.log }
    ensures db { result.db ≡ SiteDisk.Usual files.db }
{
    Files {
        log: SiteDisk::Usual(files.log),
        db: SiteDisk::Usual(files.db),
    }
}

fn wary_files<A: Disk, B: Disk>(files: Files<B>) -> Files<SiteDisk<A, B>>
    ensures log { result.log ≡ SiteDisk.Wary files.log }
    ensures db { result.db ≡ SiteDisk.Wary files.db }
{
    Files {
        log: SiteDisk::Wary(files.log),
        db: SiteDisk::Wary(files.db),
    }
}

/// The files at a path, which nobody else has; with `wary` nothing is supposed of torn writes.
pub fn files_at<S: Start>(
    rt: &HostRuntime,
    path: &str,
    wary: bool,
    start: S,
) -> Result<Files<SiteFile<S>>, OpenError>
    ensures log { IfOk result (λ files. IsTrue (may_be_used files.log)) }
    ensures db { IfOk result (λ files. IsTrue (may_be_used files.db)) }
    ensures held { IfOk result (λ files. (held_by files.log ≡ S.Start.log) × (held_by files.db ≡ S.Start.db)) }
    ensures wary { IfOk result (λ files. (is_wary files.log ≡ wary) × (is_wary files.db ≡ wary)) }
{
    if wary {
        let start = WaryStart { start };
        return match sqlite_std_file::open(rt, path, start) {
            Ok(files) => Ok(wary_files(files)),
            Err(e) => Err(e),
        };
    }
    match sqlite_std_file::open(rt, path, start) {
        Ok(files) => Ok(usual_files(files)),
        Err(e) => Err(e),
    }
}
