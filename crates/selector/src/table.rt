ghost use Rattle.std.specs.Prelude.{◌≡◌, ◌≤◌, ◌<◌, ◌⊎◌, ℕ, None, IsNone, IfSome, IfOk, length, replicate, slice_set};
ghost use Rattle.sync_ql.specs.Selection.{candidate, choice, IsBestChoice, SameOption};
ghost use Rattle.selector.specs.Choices.{unusable, IsChoice};

use crate::best::first_best;
use crate::choice::{Choice, choose, stay_or_take};
use smallvec::SmallVec;
use std::alloc::Global;
use std::marker::Model;
use sync_ql::limits::MOST_INPUTS;
use sync_ql::rules::Candidate;
use sync_text::NoMemory;

/// The candidates of an element's inputs, by place.
///
/// All levels are of one network option.
/// After G.781, selection by quality level and priority.
#[derive(Debug, Drop)]
pub struct Table {
    /// Four of them in place: most elements have no more.
    inputs: SmallVec<Candidate, 4>,
}

impl Model for Table {
    ghost use Rattle.std.specs.Prelude.{List};
    ghost use Rattle.sync_ql.specs.declared.rules.Candidate.{Candidate};

    ghost Value = { List Candidate };

    ghost use Rattle.selector.specs.Table.{candidates_in};
    ghost use Rattle.selector.specs.private.Table.{IsKept};

    ghost view = { candidates_in };

    ghost invariant = { IsKept };
}

impl Table {
    /// A table of so many inputs, at most 64, none of which can be taken.
    ///
    /// This project's own.
    pub fn new(alloc: Global, count: u32) -> Result<Table, NoMemory>
        requires few { count ≤ MOST_INPUTS }
        ensures { IfOk result (λ table. table ≡ replicate count unusable) }
    {
        let inputs = new_inputs(alloc, count as usize)?;
        Ok(Table { inputs })
    }

    /// The same candidates once more. It takes memory for them. This project's own.
    pub fn try_clone(&self, alloc: Global) -> Result<Table, NoMemory>
        ensures { IfOk result (λ table. table ≡ self.now) }
    {
        match SmallVec::from_slice(alloc, self.inputs.as_slice()) {
            Ok(inputs) => Ok(Table { inputs }),
            Err(_) => Err(NoMemory),
        }
    }

    /// Renews the candidate at a place. It takes the same time for any number of inputs, and no memory.
    ///
    /// After G.781, quality level and priority of an input.
    pub fn set(&mut self, input: u32, to: Candidate)
        requires place { input < length self.old }
        requires one_option { (k : ℕ) → SameOption to.level (candidate self.old k).level }
        ensures { self.new ≡ slice_set self.old input to }
    {
        self.inputs.as_mut_slice()[input as usize] = to;
    }

    /// The candidates, by place.
    ///
    /// After G.781, quality level and priority of an input.
    pub fn inputs(&self) -> &[Candidate]
        ensures { result.now ≡ self.now }
    {
        self.inputs.as_slice()
    }

    /// The input to take without a switch: what `choose` gives without a forced and a manual one. It
    /// is one pass over the inputs, and takes no memory.
    ///
    /// `None` exactly where no input may be taken. The one taken so far stays where none beats it;
    /// else the first of the best is taken.
    /// After G.781, selection by quality level and priority; the least place is this project's own.
    pub fn best(&self, taken: Option<u32>) -> Option<u32>
        requires taken_place { IfSome taken (λ i. i < length self.now) }
        ensures exact { result ≡ choice self.now None None taken }
        ensures place { IfSome result (λ i. i < length self.now) }
        ensures best { IsBestChoice self.now taken result }
    {
        let inputs = self.inputs.as_slice();
        stay_or_take(inputs, first_best(inputs), taken)
    }

    /// The input to take with a forced or manual switch, exactly as `choose` does.
    ///
    /// After G.781, selection by quality level and priority, forced switch and manual switch.
    pub fn choose(&self, forced: Option<u32>, manual: Option<u32>, taken: Option<u32>) -> Choice
        requires forced_place { IfSome forced (λ i. i < length self.now) }
        requires manual_place { IfSome manual (λ i. i < length self.now) }
        requires taken_place { IfSome taken (λ i. i < length self.now) }
        requires one_switch { IsNone forced ⊎ IsNone manual }
        ensures { IsChoice self.now forced manual taken result }
    {
        choose(self.inputs.as_slice(), forced, manual, taken)
    }
}

/// So many inputs that can't be taken.
fn new_inputs(alloc: Global, count: usize) -> Result<SmallVec<Candidate, 4>, NoMemory>
    ensures { IfOk result (λ inputs. inputs.items ≡ replicate count unusable) }
{
    let unusable = Candidate {
        level: None,
        priority: 0,
        usable: false,
    };
    match SmallVec::from_elem(alloc, unusable, count) {
        Ok(inputs) => Ok(inputs),
        Err(_) => Err(NoMemory),
    }
}
