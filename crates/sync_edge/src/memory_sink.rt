ghost use Rattle.std.specs.Prelude.{◌≡◌, ◌<◌, ◌≤◌, ◌+◌, ◌-◌, ◌++◌, ◌==◌, ◌&&◌, ◌||◌, min, nat_lt, [], length, take, is_err, IfOk, OnErr};
ghost use Rattle.std.specs.Io.{WritesAtMost};
ghost use Rattle.std.specs.Io.KnownBytes.{WriteAppends};
ghost use Rattle.sync_edge.specs.Memory.{fails_at};
ghost use Rattle.sync_edge.specs.Faults.{HasCause, one_more};

use crate::errors::Failed;
use crate::memory_folder::is_listed;
use crate::outside::Sink;
use std::alloc::Global;
use std::marker::Model;
use sync_text::{NoMemory, Rows};

/// A sink in memory, whose writes fail where the caller says.
///
/// Its writes of at least one byte are numbered, from 1. Such a write fails exactly where its number is
/// listed, or where the room is used up. A write takes no memory.
/// This project's own.
#[derive(Debug, Drop)]
pub struct MemSink {
    kept: Vec<u8>,
    room: usize,
    piece: usize,
    fails: Rows<u32>,
    number: u64,
    faults: u64,
}

impl Model for MemSink {
    ghost use Rattle.std.specs.Prelude.{◌≤◌, ◌+◌, vec_len, vec_capacity};
    ghost use Rattle.sync_edge.specs.Memory.{MemorySink};

    ghost Value = { MemorySink };

    ghost view = { λ s. record { written = s.kept.items; room = s.room; piece = s.piece; fails = s.fails; number = s.number; faults = s.faults } };

    ghost invariant = { λ s. (1 ≤ s.piece) × (vec_len s.kept + s.room ≤ vec_capacity s.kept) };
}

impl MemSink {
    ghost use Rattle.sync_edge.specs.Memory.{MemorySink};

    /// An empty sink with room for so many bytes, of which one write takes at most `piece`, and whose
    /// writes with the listed numbers fail.
    pub fn new(
        alloc: Global,
        room: usize,
        piece: usize,
        fails: Rows<u32>,
    ) -> Result<MemSink, NoMemory>
        requires { 1 ≤ piece }
        ensures { IfOk result (λ sink. sink ≡ record { written = []; room = room; piece = piece; fails = fails; number = 1; faults = 0 }) }
    {
        let Ok(kept) = Vec::with_capacity(alloc, room) else {
            return Err(NoMemory);
        };
        Ok(MemSink {
            kept,
            room,
            piece,
            fails,
            number: 1,
            faults: 0,
        })
    }

    /// All that was written.
    pub fn bytes(&self) -> &[u8]
        ensures { result.now ≡ self.now.written }
    {
        self.kept.as_slice()
    }

    /// Counts a write, and says whether it is one that fails.
    fn count_write(&mut self) -> bool
        ensures fails { result ≡ (fails_at self.old.fails self.old.number || (self.old.room == 0)) }
        ensures counted { self.new ≡ record self.old { number = one_more self.old.number } }
    {
        let number = self.number;
        self.number = number.saturating_add(1);
        is_listed(self.fails.as_slice(), number) || self.room == 0
    }

    /// Counts a fault.
    fn count_fault(&mut self)
        ensures counted { self.new ≡ record self.old { faults = one_more self.old.faults } }
        ensures later { self.old.faults ≤ self.new.faults }
    {
        self.faults = self.faults.saturating_add(1);
    }

    /// Keeps the front of the bytes: as much as there is room for, and at most one piece.
    fn keep_front(&mut self, bytes: &[u8]) -> usize
        ensures count { result ≡ min (min self.old.piece self.old.room) (length bytes.now) }
        ensures some { 1 ≤ self.old.piece }
        ensures kept { self.new ≡ record self.old { written = self.old.written ++ take result bytes.now; room = self.old.room - result } }
    {
        let count = self.piece.min(self.room).min(bytes.len());
        self.kept.extend_from_slice(&bytes[..count]).unwrap();
        self.room -= count;
        count
    }
}

impl Sink for MemSink {
    ghost use Rattle.sync_edge.specs.Memory.{told_written, sink_faults, IsNextWrite};

    ghost written = { told_written };

    ghost faults = { sink_faults };

    fn write(&mut self, bytes: &[u8]) -> Result<usize, Failed>
        ensures within { WritesAtMost result bytes.now }
        ensures some { 0 < length bytes.now → IfOk result (λ count. 0 < count) }
        ensures bytes { WriteAppends (told_written self.old) (told_written self.new) result bytes.now }
        ensures none { length bytes.now ≡ 0 → (result ≡ Ok 0) × (self.new ≡ self.old) }
        ensures cause { HasCause (sink_faults self.old) (sink_faults self.new) result }

        // A write of some bytes fails exactly where its number is listed or no room is left, and takes as
        // much as there is, as there is room for, and as one piece has.
        ensures exact { is_err result ≡ (nat_lt 0 (length bytes.now) && (fails_at self.old.fails self.old.number || (self.old.room == 0))) }
        ensures count { IfOk result (λ count. count ≡ min (min self.old.piece self.old.room) (length bytes.now)) }
        ensures counted { 0 < length bytes.now → IsNextWrite self.old self.new }
        ensures once { OnErr result (self.new.faults ≡ one_more self.old.faults) }
        ensures room { length self.new.written + self.new.room ≡ length self.old.written + self.old.room }
    {
        if bytes.is_empty() {
            return Ok(0);
        }
        if self.count_write() {
            self.count_fault();
            return Err(Failed);
        }
        Ok(self.keep_front(bytes))
    }
}
