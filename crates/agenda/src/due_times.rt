//! When each object is due, with the first of these times at hand.

ghost use Rattle.std.specs.Prelude.{◌≡◌, ◌≤◌, ◌<◌, ◌+◌, ℕ, false, None, Option, IsNone, IfSome, IfOk, MatchOption, option_map, length, min, replicate, slice_index_or, slice_set};
ghost use Rattle.agenda.specs.private.Tournament.{IsTournament, with_player};
ghost use Rattle.agenda.specs.DueTimes.{due_in, due_count, IsFirst, IsFirstTime, IsTaken, AreLater};
ghost use Rattle.agenda.specs.EarlierDue.{time_at, times_by};
ghost use Rattle.agenda.specs.private.EarlierDue.{IsListed};

use crate::limits::MOST_PLACES;
use std::alloc::Global;
use std::marker::Model;
use sync_text::NoMemory;

/// By this number an object that isn't due stands in a tournament; one may be due then, too.
const NEVER: u64 = u64::MAX;

/// When an object is due, and the place of that object.
#[derive(Clone, Copy, Debug, PartialEq, Eq)]
pub struct Due {
    /// The millisecond at which it is due.
    pub at: u64,
    /// The place of the object.
    pub place: u32,
}

/// When each object is due, by place; `None` where it isn't.
///
/// The first of these times is at hand. This project's own.
#[derive(Debug, Drop)]
pub struct DueTimes {
    /// Whether each object is due.
    flags: Vec<bool>,
    /// A tournament among the objects: their times in the second half, the last number for one that
    /// isn't due, and before each two the earlier one; at place 1 the first.
    rounds: Vec<u64>,
    /// How many objects are due.
    due: usize,
}

impl Model for DueTimes {
    ghost use Rattle.std.specs.Prelude.{List, Option, ℕ};

    ghost Value = { List (Option ℕ) };

    ghost use Rattle.agenda.specs.DueTimesKept.{times_in};
    ghost use Rattle.agenda.specs.private.DueTimesKept.{IsKept};

    ghost view = { times_in };

    ghost invariant = { IsKept };
}

impl DueTimes {
    /// So many objects, none of which is due.
    ///
    /// This project's own.
    pub fn new(alloc: Global, count: usize) -> Result<DueTimes, NoMemory>
        requires few { count ≤ MOST_PLACES }
        ensures { IfOk result (λ times. times ≡ replicate count None) }
    {
        let flags = no_flags(alloc, count)?;
        let rounds = no_rounds(alloc, count)?;
        Ok(DueTimes {
            flags,
            rounds,
            due: 0,
        })
    }

    /// The same times once more. It takes memory for them. This project's own.
    pub fn try_clone(&self, alloc: Global) -> Result<DueTimes, NoMemory>
        ensures { IfOk result (λ times. times ≡ self.now) }
    {
        let Ok(flags) = Vec::from_slice(alloc, self.flags.as_slice()) else {
            return Err(NoMemory);
        };
        let Ok(rounds) = Vec::from_slice(alloc, self.rounds.as_slice()) else {
            return Err(NoMemory);
        };
        Ok(DueTimes {
            flags,
            rounds,
            due: self.due,
        })
    }

    /// Renews when the object at a place is due, or that it isn't. It takes time by the logarithm of the
    /// number of objects, and no memory; none of either where the object is due then already.
    ///
    /// This project's own.
    pub fn set(&mut self, place: u32, due: Option<u64>)
        requires place { place < length self.old }
        ensures { self.new ≡ slice_set self.old place due }
    {
        let before = time_at(
            self.flags.as_slice(),
            self.rounds.as_slice(),
            place as usize,
        );
        if before == due {
            return;
        }
        let count = self.flags.len();
        self.flags[place as usize] = due.is_some();
        self.due = self.due - usize::from(before.is_some()) + usize::from(due.is_some());
        renew(
            self.rounds.as_mut_slice(),
            count,
            place as usize,
            due.unwrap_or(NEVER),
        );
    }

    /// The first of all times, and the place of an object that is due then. It takes time by the
    /// logarithm of the number of objects, and none where no object is due; only where the first is
    /// the last number of all, 2^64 - 1, it looks at all times.
    ///
    /// `None` exactly where no object is due. This project's own.
    pub fn first(&self) -> Option<Due>
        ensures { MatchOption result ((i : ℕ) → i < length self.now → due_in self.now i ≡ None)
            (IsFirst self.now) }
    {
        if self.due == 0 {
            return None;
        }
        let at = self.rounds[1];
        if at == NEVER {
            return any_due(self.flags.as_slice(), self.rounds.as_slice());
        }
        Some(Due {
            at,
            place: place_of(self.rounds.as_slice(), self.flags.len()),
        })
    }

    /// The first of all times, without an object that is due then. It takes the same time for any
    /// number of objects; only where it is the last number of all, 2^64 - 1, that of `first`.
    ///
    /// `None` exactly where no object is due. This project's own.
    pub fn first_time(&self) -> Option<u64>
        ensures { MatchOption result ((i : ℕ) → i < length self.now → due_in self.now i ≡ None)
            (IsFirstTime self.now) }
    {
        if self.due == 0 {
            return None;
        }
        let at = self.rounds[1];
        if at == NEVER {
            return time_of(self.first());
        }
        Some(at)
    }

    /// Takes out an object that is due at `now` or before it, if there is one; that object isn't due
    /// afterwards. It takes the time of `set` where there is one, and no memory.
    ///
    /// This project's own.
    pub fn take(&mut self, now: u64) -> Option<u32>
        ensures taken { IfSome result (IsTaken now self.old self.new) }
        ensures fewer { IfSome result (λ _. due_count self.new < due_count self.old) }
        ensures none { IsNone result → AreLater now self.old }
        ensures kept { IsNone result → self.new ≡ self.old }
    {
        if self.due > 0 && self.rounds[1] > now {
            return None;
        }
        match self.first() {
            Some(due) if due.at <= now => {
                self.set(due.place, None);
                Some(due.place)
            }
            _ => None,
        }
    }
}

/// The time of what is due.
fn time_of(due: Option<Due>) -> Option<u64>
    ensures { result ≡ option_map (λ due. due.at) due }
{
    match due {
        Some(due) => Some(due.at),
        None => None,
    }
}

/// When the object at a place is due: by its number, if it has a flag.
fn time_at(flags: &[bool], rounds: &[u64], place: usize) -> Option<u64>
    requires few { length flags.now ≤ MOST_PLACES }
    requires room { length rounds.now ≡ length flags.now + length flags.now }
    requires place { place < length flags.now }
    ensures { result ≡ time_at flags.now rounds.now place }
{
    if flags[place] {
        Some(rounds[flags.len() + place])
    } else {
        None
    }
}

/// The first object that is due, where none is due before the last number.
fn any_due(flags: &[bool], rounds: &[u64]) -> Option<Due>
    requires few { length flags.now ≤ MOST_PLACES }
    requires room { length rounds.now ≡ length flags.now + length flags.now }
    ensures { MatchOption result ((i : ℕ) → i < length (times_by flags.now rounds.now) →
        due_in (times_by flags.now rounds.now) i ≡ None)
        (IsListed (times_by flags.now rounds.now)) }
{
    for place in 0..flags.len() {
        if let Some(at) = time_at(flags, rounds, place) {
            return Some(due_at(at, place as u32));
        }
    }
    None
}

fn due_at(at: u64, place: u32) -> Due
    ensures at { result.at ≡ at }
    ensures place { result.place ≡ place }
    ensures in_range { at ≤ NEVER }
{
    Due { at, place }
}

/// The place of a player that stands by the number of the last winner.
fn place_of(rounds: &[u64], count: usize) -> u32
    requires room { length rounds.now ≡ count + count }
    requires few { count ≤ MOST_PLACES }
    requires some { 0 < count }
    ensures within { result < count }
    ensures winner { (players : ℕ → ℕ) → IsTournament min NEVER count players rounds.now 0 →
        players result ≡ slice_index_or rounds.now 1 NEVER }
{
    let first = rounds[1];
    let mut round = 1;
    while round < count {
        round *= 2;
        if rounds[round] != first {
            round += 1;
        }
    }
    (round - count) as u32
}

/// The earlier of two.
fn earlier(one: u64, other: u64) -> u64
    ensures { result ≡ min one other }
{
    one.min(other)
}

/// Another number comes to a place of a tournament, and its winners are found again, up to the first
/// that stays.
fn renew(rounds: &mut [u64], count: usize, place: usize, player: u64)
    requires room { length rounds.old ≡ count + count }
    requires few { count ≤ MOST_PLACES }
    requires place { place < count }
    ensures room { length rounds.new ≡ length rounds.old }
    ensures renewed { (players : ℕ → ℕ) → IsTournament min NEVER count players rounds.old 0 →
        IsTournament min NEVER count (with_player players place player) rounds.new 0 }
{
    rounds[count + place] = player;
    let mut round = (count + place) / 2;
    while 0 < round {
        let winner = earlier(rounds[2 * round], rounds[2 * round + 1]);
        if rounds[round] == winner {
            return;
        }
        rounds[round] = winner;
        round /= 2;
    }
}

fn no_flags(alloc: Global, count: usize) -> Result<Vec<bool>, NoMemory>
    ensures { IfOk result (λ flags. flags.items ≡ replicate count false) }
{
    match vec![in alloc; false; count] {
        Ok(flags) => Ok(flags),
        Err(_) => Err(NoMemory),
    }
}

fn no_rounds(alloc: Global, count: usize) -> Result<Vec<u64>, NoMemory>
    requires few { count ≤ MOST_PLACES }
    ensures { IfOk result (λ rounds. rounds.items ≡ replicate (count + count) NEVER) }
{
    match vec![in alloc; NEVER; count + count] {
        Ok(rounds) => Ok(rounds),
        Err(_) => Err(NoMemory),
    }
}
