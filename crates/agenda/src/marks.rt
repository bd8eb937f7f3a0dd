//! Which places are marked, in the order of marking.

ghost use Rattle.std.specs.Prelude.{◌≡◌, ◌<◌, ℕ, true, false, nat_eq, if◌then◌else◌, [], ◌∷◌, ◌++◌, IfOk, length, replicate, slice_index_or, slice_set};
ghost use Rattle.std.specs.List.{All, list_any};
ghost use Rattle.agenda.specs.Marked.{none_marked, AreListed};

use std::alloc::Global;
use std::marker::Model;
use sync_text::NoMemory;

/// Places that are marked for work, in the order of marking.
///
/// This project's own.
#[derive(Debug, Drop)]
pub struct Marks {
    flags: Vec<bool>,
    /// The places with a flag, with room for all places.
    listed: Vec<u32>,
}

impl Model for Marks {
    ghost use Rattle.agenda.specs.Marked.{Marked};

    ghost Value = { Marked };

    ghost use Rattle.agenda.specs.MarkedKept.{marked_in};
    ghost use Rattle.agenda.specs.private.MarkedKept.{IsKept};

    ghost view = { marked_in };

    ghost invariant = { IsKept };
}

impl Marks {
    /// So many places, none of which is marked.
    ///
    /// This project's own.
    pub fn new(alloc: Global, count: usize) -> Result<Marks, NoMemory>
        ensures { IfOk result (λ marks. marks ≡ none_marked count) }
    {
        let flags = no_flags(alloc, count)?;
        let Ok(listed) = Vec::with_capacity(alloc, count) else {
            return Err(NoMemory);
        };
        Ok(Marks { flags, listed })
    }

    /// The same marks once more. It takes memory for all places. This project's own.
    pub fn try_clone(&self, alloc: Global) -> Result<Marks, NoMemory>
        ensures { IfOk result (λ marks. marks ≡ self.now) }
    {
        let Ok(flags) = Vec::from_slice(alloc, self.flags.as_slice()) else {
            return Err(NoMemory);
        };
        let Ok(mut listed) = Vec::from_slice(alloc, self.listed.as_slice()) else {
            return Err(NoMemory);
        };
        if listed.reserve(flags.len()).is_err() {
            return Err(NoMemory);
        }
        Ok(Marks { flags, listed })
    }

    /// Becomes the same as other marks of as many places. It takes time by the number of places that
    /// either has marked, and no memory. This project's own.
    pub fn copy_from(&mut self, other: &Marks)
        requires count { length self.old.flags ≡ length other.now.flags }
        ensures { self.new ≡ other.now }
    {
        self.clear();
        give(self.flags.as_mut_slice(), other.listed.as_slice());
        self.listed
            .extend_from_slice(other.listed.as_slice())
            .unwrap();
    }

    /// Marks a place, unless it is marked already. It takes the same time for any number of places, and
    /// no memory.
    ///
    /// This project's own.
    pub fn mark(&mut self, object: u32)
        requires place { object < length self.old.flags }
        ensures flags { self.new.flags ≡ slice_set self.old.flags object true }
        ensures listed { self.new.listed ≡
            (if slice_index_or self.old.flags object false then self.old.listed
            else self.old.listed ++ object ∷ []) }
        ensures all { AreListed self.new }
    {
        if self.flags[object as usize] {
            return;
        }
        self.flags[object as usize] = true;
        self.listed.push(object).unwrap();
    }

    /// Whether a place is marked.
    ///
    /// This project's own.
    pub fn is_marked(&self, object: u32) -> bool
        requires place { object < length self.now.flags }
        ensures { result ≡ slice_index_or self.now.flags object false }
    {
        self.flags[object as usize]
    }

    /// The marked places, in the order of marking.
    ///
    /// This project's own.
    pub fn listed(&self) -> &[u32]
        ensures listed { result.now ≡ self.now.listed }
        ensures all { AreListed self.now }
    {
        self.listed.as_slice()
    }

    /// Takes all marks away. It takes time by the number of marked places, and no memory.
    ///
    /// This project's own.
    pub fn clear(&mut self)
        ensures { self.new ≡ none_marked (length self.old.flags) }
    {
        take_away(self.flags.as_mut_slice(), self.listed.as_slice());
        self.listed.clear();
    }
}

/// Takes the flags of these places away; no other place has one.
fn take_away(flags: &mut [bool], listed: &[u32])
    requires within { All (λ k. k < length flags.old) listed.now }
    requires only { (k : ℕ) → slice_index_or flags.old k false ≡ true →
        list_any (nat_eq k) listed.now ≡ true }
    ensures { flags.new ≡ replicate (length flags.old) false }
{
    for place in listed {
        flags[*place as usize] = false;
    }
}

/// Gives a flag to each of these places; no place has one yet.
fn give(flags: &mut [bool], listed: &[u32])
    requires within { All (λ k. k < length flags.old) listed.now }
    requires none { flags.old ≡ replicate (length flags.old) false }
    ensures count { length flags.new ≡ length flags.old }
    ensures flags { (k : ℕ) → slice_index_or flags.new k false ≡ list_any (nat_eq k) listed.now }
{
    for place in listed {
        flags[*place as usize] = true;
    }
}

fn no_flags(alloc: Global, count: usize) -> Result<Vec<bool>, NoMemory>
    ensures { IfOk result (λ flags. flags.items ≡ replicate count false) }
{
    match vec![in alloc; false; count] {
        Ok(flags) => Ok(flags),
        Err(_) => Err(NoMemory),
    }
}
