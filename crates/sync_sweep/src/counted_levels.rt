//! The levels of elements, with how many have each place in their option's table.

ghost use Rattle.std.specs.Prelude.{◌≡◌, ◌≤◌, ◌<◌, ◌++◌, ℕ, [], ◌∷◌, length, slice_set, slice_index_or, replicate, OnOk};
ghost use Rattle.sync_ql.specs.declared.levels.Level.{Level};
ghost use Rattle.sync_sweep.specs.private.Counts.{HasPlace};

use std::alloc::Global;
use std::marker::Model;
use sync_ql::Level;
use sync_text::NoMemory;

/// No option's table has more levels.
const MOST_LEVELS: usize = 16;

/// The level of each element, by its number, and how many have each place in the table.
#[derive(Debug, Drop)]
pub struct CountedLevels {
    levels: Vec<Level>,
    counts: [u32; MOST_LEVELS],
}

impl Model for CountedLevels {
    ghost use Rattle.std.specs.Prelude.{List};
    ghost use Rattle.sync_ql.specs.declared.levels.Level.{Level};

    ghost Value = { List Level };

    ghost use Rattle.sync_sweep.specs.private.CountsKept.{levels_in, AreLevelsCounted};

    ghost view = { levels_in };

    ghost invariant = { AreLevelsCounted };
}

impl CountedLevels {
    /// The levels of no elements.
    pub(crate) fn new(alloc: Global) -> CountedLevels
        ensures { result ≡ [] }
    {
        CountedLevels {
            levels: Vec::new(alloc),
            counts: no_counts(),
        }
    }

    /// Puts the level of one more element at the end.
    pub(crate) fn push(&mut self, level: Level) -> Result<(), NoMemory>
        requires few { length self.old < 4294967295 }
        ensures put { OnOk result (self.new ≡ self.old ++ level ∷ []) }
    {
        let Ok(()) = self.levels.push(level) else {
            return Err(NoMemory);
        };
        self.counts[level.place as usize] += 1;
        Ok(())
    }

    /// Renews the level of an element.
    pub(crate) fn set(&mut self, element: u32, level: Level)
        requires element { element < length self.old }
        ensures { self.new ≡ slice_set self.old element level }
    {
        let before = self.levels[element as usize];
        self.levels[element as usize] = level;
        self.counts[before.place as usize] -= 1;
        self.counts[level.place as usize] += 1;
    }

    /// The place of an element's level in the table.
    pub(crate) fn place(&self, element: u32) -> u8
        requires element { element < length self.now }
        ensures { (other : Level) → (slice_index_or self.now element other).place ≡ result }
    {
        self.levels[element as usize].place
    }

    /// The greatest place that one of the levels has. It takes the same time for any number of them.
    pub(crate) fn greatest_place(&self) -> u8
        requires some { 0 < length self.now }
        ensures has { HasPlace self.now result }
        ensures none_greater { (k : ℕ) (other : Level) → k < length self.now →
            (slice_index_or self.now k other).place ≤ result }
    {
        for below in 0..MOST_LEVELS {
            let place = MOST_LEVELS - 1 - below;
            if self.counts[place] > 0 {
                return place as u8;
            }
        }
        unreachable!()
    }
}

fn no_counts() -> [u32; MOST_LEVELS]
    ensures { result ≡ replicate 16 0 }
{
    [0; MOST_LEVELS]
}
