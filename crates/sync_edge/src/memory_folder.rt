ghost use Rattle.std.specs.Prelude.{◌≡◌, ◌<◌, ◌≤◌, ◌||◌, min, false, None, if◌then◌else◌, [], length, slice_get, position, take, drop, IsTrue, option_map, is_none, is_err, IfOk, OnOk, OnErr};
ghost use Rattle.std.specs.Io.{ReadsAtMost};
ghost use Rattle.std.specs.Io.KnownBytes.{ReadConsumes};
ghost use Rattle.sync_edge.specs.Contents.{HasName, Starts, IsSpent, KeepsFolder};
ghost use Rattle.std.specs.FinMap.{get};
ghost use Rattle.std.specs.Str.{bytes_eq};
ghost use Rattle.sync_edge.specs.Memory.{bytes_of, contents_of, fails_at};
ghost use Rattle.sync_edge.specs.Faults.{HasCause, one_more};

use crate::errors::Failed;
use crate::outside::Folder;
use std::marker::Model;
use sync_text::{Rows, Text};

/// A file of a folder in memory.
#[derive(Debug, Drop)]
pub struct MemFile {
    /// The name under which it is started.
    pub name: Text,

    /// What it holds.
    pub bytes: Text,
}

/// A folder in memory, whose calls fail where the caller says.
///
/// Its calls of `start` and `read` are numbered together, from 1. A call fails exactly where its number
/// is listed, or where `start` has a name that no file has. Of files with one name the first counts.
/// It is steady once no listed number is still to come.
/// This project's own.
#[derive(Debug, Drop)]
pub struct MemFolder {
    files: Rows<MemFile>,
    piece: usize,
    fails: Rows<u32>,
    number: u64,
    started: Option<usize>,
    at: usize,
    faults: u64,
    tries: u64,
}

impl Model for MemFolder {
    ghost use Rattle.std.specs.Prelude.{◌≤◌};
    ghost use Rattle.sync_edge.specs.Memory.{MemoryFolder, left_of};

    ghost Value = { MemoryFolder };

    ghost view = { λ s. record { files = s.files; piece = s.piece; fails = s.fails; number = s.number; left = left_of s.files s.started s.at; faults = s.faults; tries = s.tries } };

    ghost invariant = { λ s. 1 ≤ s.piece };
}

impl MemFolder {
    ghost use Rattle.sync_edge.specs.Memory.{MemoryFolder, left_of, told_contents, is_steady, fault_count};

    /// A folder with these files, of which one read gives at most `piece` bytes, and whose calls with
    /// the listed numbers fail. It takes no memory.
    pub fn new(files: Rows<MemFile>, piece: usize, fails: Rows<u32>) -> MemFolder
        requires { 1 ≤ piece }
        ensures { result ≡ record { files = files; piece = piece; fails = fails; number = 1; left = []; faults = 0; tries = 0 } }
    {
        MemFolder {
            files,
            piece,
            fails,
            number: 1,
            started: None,
            at: 0,
            faults: 0,
            tries: 0,
        }
    }

    /// Counts a call, and says whether it is one that fails.
    #[tactic(auto, using(crate::proofs::InMemory::none_from_later, crate::proofs::InMemory::none_fails))]
    fn count_call(&mut self) -> bool
        ensures fails { result ≡ fails_at self.old.fails self.old.number }
        ensures counted { self.new ≡ record self.old { number = one_more self.old.number } }
        ensures keeps { KeepsFolder told_contents is_steady fault_count self.old self.new }
        ensures sure { IsTrue (is_steady self.old) → result ≡ false }
    {
        let number = self.number;
        self.number = number.saturating_add(1);
        is_listed(self.fails.as_slice(), number)
    }

    /// Counts a fault.
    fn count_fault(&mut self)
        ensures counted { self.new ≡ record self.old { faults = one_more self.old.faults } }
        ensures later { self.old.faults ≤ self.new.faults }
    {
        self.faults = self.faults.saturating_add(1);
    }

    /// Counts a call, and gives the place of the file of this name if the call is not one that fails.
    fn place_to_start(&mut self, name: &[u8]) -> Option<usize>
        ensures place { option_map (λ place. bytes_of (slice_get self.old.files place)) result
            ≡ (if fails_at self.old.fails self.old.number then None else get (contents_of self.old.files) name.now) }
        ensures counted { self.new ≡ record self.old { number = one_more self.old.number } }
        ensures keeps { KeepsFolder told_contents is_steady fault_count self.old self.new }
        ensures sure { IsTrue (is_steady self.old) → fails_at self.old.fails self.old.number ≡ false }
    {
        if self.count_call() {
            return None;
        }
        place_of(self.files.as_slice(), name)
    }

    /// Begins the file at this place, or no file, and counts a start.
    fn begin(&mut self, place: Option<usize>)
        ensures { self.new ≡ record self.old { left = left_of self.old.files place 0; tries = one_more self.old.tries } }
    {
        self.tries = self.tries.saturating_add(1);
        self.started = place;
        self.at = 0;
    }

    /// Takes the front of what is left: as much as there is room for, and at most one piece.
    fn take_front(&mut self, buf: &mut [u8]) -> usize
        ensures count { result ≡ min (min self.old.piece (length buf.old)) (length self.old.left) }
        ensures some { 1 ≤ self.old.piece }
        ensures copied { take result buf.new ≡ take result self.old.left }
        ensures left { self.new ≡ record self.old { left = drop result self.old.left } }
    {
        let Some(place) = self.started else {
            return 0;
        };
        let bytes = bytes_at(self.files.as_slice(), place);
        let count = copy_front(buf, after(bytes, self.at), self.piece);
        self.at += count;
        count
    }
}

impl Folder for MemFolder {
    ghost use Rattle.sync_edge.specs.Memory.{told_contents, told_left, is_steady, fault_count, try_count, IsNextCall};

    ghost contents = { told_contents };

    ghost left = { told_left };

    ghost steady = { is_steady };

    ghost faults = { fault_count };

    ghost tries = { try_count };

    fn start(&mut self, name: &str) -> Result<(), Failed>
        ensures keeps { KeepsFolder told_contents is_steady fault_count self.old self.new }
        ensures starts { OnOk result (Starts (told_contents self.old) name.now (told_left self.new)) }
        ensures spent { OnErr result (IsSpent (told_contents self.old) (told_left self.new)) }
        ensures cause { HasCause (fault_count self.old) (fault_count self.new) result }
        ensures tried { try_count self.new ≡ one_more (try_count self.old) }
        ensures sure { IsTrue (is_steady self.old) → HasName (told_contents self.old) name.now → OnErr result ⊥ }

        // It fails exactly where its number is listed, or no file has the name.
        ensures exact { is_err result ≡ (fails_at self.old.fails self.old.number || is_none (get (contents_of self.old.files) name.now)) }
        ensures counted { IsNextCall self.old self.new }
        ensures once { OnErr result (self.new.faults ≡ one_more self.old.faults) }
    {
        let place = self.place_to_start(name.as_bytes());
        self.begin(place);
        if place.is_some() {
            return Ok(());
        }
        self.count_fault();
        Err(Failed)
    }

    fn read(&mut self, buf: &mut [u8]) -> Result<usize, Failed>
        ensures keeps { KeepsFolder told_contents is_steady fault_count self.old self.new }
        ensures within { ReadsAtMost result buf.new }
        ensures bytes { ReadConsumes (told_left self.old) (told_left self.new) result buf.new }
        ensures cause { HasCause (fault_count self.old) (fault_count self.new) result }
        ensures tried { try_count self.new ≡ try_count self.old }
        ensures sure { IsTrue (is_steady self.old) → OnErr result ⊥ }

        // It fails exactly where its number is listed, and gives as much as there is, as there is room for,
        // and as one piece has.
        ensures exact { is_err result ≡ fails_at self.old.fails self.old.number }
        ensures count { IfOk result (λ count. count ≡ min (min self.old.piece (length buf.old)) (length self.old.left)) }
        ensures counted { IsNextCall self.old self.new }
        ensures once { OnErr result (self.new.faults ≡ one_more self.old.faults) }
    {
        if self.count_call() {
            self.count_fault();
            return Err(Failed);
        }
        Ok(self.take_front(buf))
    }
}

/// Whether the call of this number is one that fails.
pub(crate) fn is_listed(fails: &[u32], number: u64) -> bool
    ensures { result ≡ fails_at fails.now number }
{
    fails.iter().any(|fail| u64::from(*fail) == number)
}

/// The place of the first file of this name.
fn place_of(files: &[MemFile], name: &[u8]) -> Option<usize>
    ensures { result ≡ position (λ file. bytes_eq name.now file.name) files.now }
{
    files.iter().position(|file| name == file.name.bytes())
}

/// The bytes of the file at a place.
fn bytes_at(files: &[MemFile], place: usize) -> &[u8]
    ensures { result.now ≡ bytes_of (slice_get files.now place) }
{
    match files.get(place) {
        Some(file) => file.bytes.bytes(),
        None => &[],
    }
}

/// The bytes after the first `count`.
fn after(bytes: &[u8], count: usize) -> &[u8]
    ensures { result.now ≡ drop count bytes.now }
{
    if count < bytes.len() {
        &bytes[count..]
    } else {
        &[]
    }
}

/// Copies the front of `from` to the front of `to`: as much as there is, as there is room for, and at
/// most `most` bytes.
fn copy_front(to: &mut [u8], from: &[u8], most: usize) -> usize
    ensures count { result ≡ min (min most (length to.old)) (length from.now) }
    ensures copied { take result to.new ≡ take result from.now }
{
    let count = most.min(to.len()).min(from.len());
    to[..count].copy_from_slice(&from[..count]);
    count
}
