//! The marks of a site's commits, which show that a log is another file's.

ghost use Rattle.std.specs.Prelude.{◌≡◌, ◌↔◌, ℕ, ◌+◌, ◌*◌, ◌<◌, ◌≤◌, [], ◌∷◌, length, slice_range, IfOk, IsTrue, MatchOption};
ghost use Rattle.std.specs.Int.{w16, w64, w128, from_be_bytes};
ghost use Rattle.sqlite_disk.specs.Memory.{memory_bytes, memory_is_usable};
ghost use Rattle.sqlite_wal.specs.Recovery.{AreFramesOf, Replays, frame};
ghost use Rattle.sqlite_wal.specs.Format.{content};
ghost use Rattle.site_disk.specs.Mark.{GoesOn, HasMark, HasNoMark, HasOwn, IsFirstMark, IsMarkCell, IsMarked, IsOfPage, Joins};

use sqlite_disk::Memory;
use sqlite_wal::{Error, PageSize, probe_frames};
use std::alloc::Global;

/// The bytes of a page, and of a log's header and of a frame's (fileformat2.html, 4.1).
const PAGE: usize = 4096;

const LOG_HEADER: usize = 32;

const FRAME_HEADER: usize = 24;

/// The type of a leaf page of a table (1.6).
const LEAF: u8 = 13;

/// What the cell of a mark begins with (1.6, 2.1).
const CELL: [u8; 7] = [37, 1, 5, 0, 28, 28, 44];

/// The number of which the sum of a mark is a multiple.
const TIMES: u128 = 11_400_714_819_323_198_485;

/// The mark of a commit, and the one that it follows.
#[derive(Clone, Copy, Debug, PartialEq, Eq, Drop)]
pub struct Mark {
    pub mark: u64,
    pub follows: u64,
}

/// What the page of the mark is in a file, without its log.
#[derive(Clone, Copy, Debug, PartialEq, Eq, Drop)]
pub enum FileMark {
    /// The file ends before it.
    Absent,
    /// It has no mark, as one that was not written to its end.
    Unmarked,
    /// It has this one.
    Marked(u64),
}

fn u16_at(page: &[u8], at: usize) -> u16
    requires { at + 2 ≤ length page.now }
    ensures { result ≡ from_be_bytes w16 (slice_range page.now at (at + 2)) }
{
    let mut bytes = [0; 2];
    bytes.copy_from_slice(&page[at..at + 2]);
    u16::from_be_bytes(bytes)
}

fn u64_at(page: &[u8], at: usize) -> u64
    requires { at + 8 ≤ length page.now }
    ensures { result ≡ from_be_bytes w64 (slice_range page.now at (at + 8)) }
{
    let mut bytes = [0; 8];
    bytes.copy_from_slice(&page[at..at + 8]);
    u64::from_be_bytes(bytes)
}

fn u128_at(page: &[u8], at: usize) -> u128
    requires { at + 16 ≤ length page.now }
    ensures { result ≡ from_be_bytes w128 (slice_range page.now at (at + 16)) }
{
    let mut bytes = [0; 16];
    bytes.copy_from_slice(&page[at..at + 16]);
    u128::from_be_bytes(bytes)
}

/// Whether the cell at this place of a page is a mark's.
fn is_cell(page: &[u8], at: usize) -> bool
    requires { at + 7 ≤ length page.now }
    ensures { IsTrue result ↔ (slice_range page.now at (at + 7) ≡ 37 ∷ 1 ∷ 5 ∷ 0 ∷ 28 ∷ 28 ∷ 44 ∷ []) }
{
    page[at..at + 7] == CELL[..]
}

/// The mark in the cell at this place of a page.
fn mark_cell(page: &[u8], at: usize) -> Option<Mark>
    requires { at < 65536 }
    ensures { MatchOption result ((mark follows : ℕ) → IsMarkCell page.now at mark follows → ⊥) (λ m. IsMarkCell page.now at m.mark m.follows) }
{
    if page.len() < at + 39 {
        return None;
    }
    if !is_cell(page, at) {
        return None;
    }
    let mark = u64_at(page, at + 7);
    if u128_at(page, at + 23) != u128::from(mark) * TIMES {
        return None;
    }
    Some(Mark {
        mark,
        follows: u64_at(page, at + 15),
    })
}

/// The mark that a page has.
pub fn mark_in(page: &[u8]) -> Option<Mark>
    ensures { MatchOption result ((mark follows : ℕ) → HasMark page.now mark follows → ⊥) (λ m. HasMark page.now m.mark m.follows) }
{
    if page.len() < 10 {
        return None;
    }
    if page[0] != LEAF {
        return None;
    }
    if u16_at(page, 3) != 1 {
        return None;
    }
    match mark_cell(page, usize::from(u16_at(page, 8))) {
        Some(found) => Some(found),
        None => None,
    }
}

/// What the page of the mark says in a file, of which these bytes were read.
pub fn file_mark(page: Option<&[u8]>) -> FileMark
    ensures { MatchOption page.entry (result ≡ FileMark.Absent) (λ bytes. IsOfPage result bytes.now) }
{
    match page {
        None => FileMark::Absent,
        Some(page) => match mark_in(page) {
            None => FileMark::Unmarked,
            Some(found) => FileMark::Marked(found.mark),
        },
    }
}

/// The page in a frame of a log.
fn page_in(log: &[u8], i: usize) -> &[u8]
    requires { 32 + i * 4120 + 4120 ≤ length log.now }
    ensures { result.now ≡ content (frame 4096 log.now i) }
{
    let at = LOG_HEADER + i * (FRAME_HEADER + PAGE);
    let frame = &log[at..at + (FRAME_HEADER + PAGE)];
    &frame[FRAME_HEADER..]
}

/// The mark in a frame of a log.
fn mark_at(log: &[u8], numbers: &[u32], root: u32, i: usize) -> Option<Mark>
    requires frames { AreFramesOf 4096 log.now numbers.now }
    requires within { i < length numbers.now }
    ensures { MatchOption result ((mark follows : ℕ) → IsMarked log.now root i mark follows → ⊥) (λ m. IsMarked log.now root i m.mark m.follows) }
{
    if numbers[i] != root {
        return None;
    }
    match mark_in(page_in(log, i)) {
        Some(found) => Some(found),
        None => None,
    }
}

/// The first mark in a log.
fn first_mark(log: &[u8], numbers: &[u32], root: u32) -> Option<Mark>
    requires { AreFramesOf 4096 log.now numbers.now }
    ensures { MatchOption result (HasNoMark log.now root (length numbers.now)) (λ m. IsFirstMark log.now root (length numbers.now) m.mark m.follows) }
{
    for i in 0..numbers.len() {
        if let Some(found) = mark_at(log, numbers, root, i) {
            return Some(found);
        }
    }
    None
}

/// Whether a frame of a log has this mark.
fn is_own(log: &[u8], numbers: &[u32], root: u32, i: usize, own: u64) -> bool
    requires frames { AreFramesOf 4096 log.now numbers.now }
    requires within { i < length numbers.now }
    ensures { IsTrue result ↔ (follows : ℕ) × IsMarked log.now root i own follows }
{
    match mark_at(log, numbers, root, i) {
        Some(found) => found.mark == own,
        None => false,
    }
}

/// Whether a frame of those of a log has this mark.
fn has_own(log: &[u8], numbers: &[u32], root: u32, own: u64) -> bool
    requires { AreFramesOf 4096 log.now numbers.now }
    ensures { IsTrue result ↔ HasOwn log.now root (length numbers.now) own }
{
    for i in 0..numbers.len() {
        if is_own(log, numbers, root, i, own) {
            return true;
        }
    }
    false
}

/// Whether a log whose first mark follows this one joins a file.
fn joins(log: &[u8], numbers: &[u32], root: u32, follows: u64, file: FileMark) -> bool
    requires { AreFramesOf 4096 log.now numbers.now }
    ensures { IsTrue result ↔ Joins log.now root (length numbers.now) follows file }
{
    match file {
        FileMark::Absent => follows == 0,
        FileMark::Unmarked => true,
        FileMark::Marked(own) => follows == own || has_own(log, numbers, root, own),
    }
}

/// Whether a log whose frames are of these pages goes on from a file.
fn frames_go_on(log: &[u8], numbers: &[u32], root: u32, file: FileMark) -> bool
    requires { AreFramesOf 4096 log.now numbers.now }
    ensures { IsTrue result ↔ GoesOn log.now root (length numbers.now) file }
{
    match first_mark(log, numbers, root) {
        None => true,
        Some(first) => joins(log, numbers, root, first.follows, file),
    }
}

/// The page of each frame of a log that recovery takes.
fn pages_of(alloc: Global, log: &mut Memory) -> Result<Vec<u32>, Error>
    requires { IsTrue (memory_is_usable log.old) }
    ensures frames { IfOk result (λ numbers. AreFramesOf 4096 (memory_bytes log.new) numbers.items) }
    ensures same { memory_bytes log.new ≡ memory_bytes log.old }
{
    let size = PageSize::new(PAGE).unwrap();
    probe_frames(alloc, log, size)
}

/// Whether a log goes on from a file, whose table of marks has its row on this page: by the frames that recovery takes.
pub fn goes_on(alloc: Global, log: &mut Memory, root: u32, file: FileMark) -> Result<bool, Error>
    requires { IsTrue (memory_is_usable log.old) }
    ensures { IfOk result (λ b. (frames : ℕ) × Replays 4096 (memory_bytes log.old) frames × (IsTrue b ↔ GoesOn (memory_bytes log.old) root frames file)) }
{
    let numbers = pages_of(alloc, log)?;
    Ok(frames_go_on(log.bytes(), numbers.as_slice(), root, file))
}
