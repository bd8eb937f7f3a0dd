//! The states of elements, with how many are in each.

ghost use Rattle.std.specs.Prelude.{◌≡◌, ◌≤◌, ◌<◌, ◌++◌, [], ◌∷◌, length, slice_set, OnOk};
ghost use Rattle.sync_ql.specs.declared.rules.ClockState.TheVariants.{FreeRun, Locked, Holdover};
ghost use Rattle.shown_words.specs.Sameness.{is_same_state};
ghost use Rattle.sync_sweep.specs.private.Counts.{AreTallied, IsOneMore, counted, one_if};

use std::alloc::Global;
use std::marker::Model;
use sync_ql::rules::ClockState;
use sync_text::NoMemory;

/// How many elements are in each state.
#[derive(Clone, Copy, Debug, PartialEq, Eq)]
pub struct States {
    pub locked: u32,
    pub holdover: u32,
    pub free: u32,
}

/// The state of each element, by its number, and how many are in each.
#[derive(Debug, Drop)]
pub struct CountedStates {
    states: Vec<ClockState>,
    counts: States,
}

impl Model for CountedStates {
    ghost use Rattle.std.specs.Prelude.{List};
    ghost use Rattle.sync_ql.specs.declared.rules.ClockState.{ClockState};

    ghost Value = { List ClockState };

    ghost use Rattle.sync_sweep.specs.private.CountsKept.{states_in, AreStatesCounted};

    ghost view = { states_in };

    ghost invariant = { AreStatesCounted };
}

impl CountedStates {
    /// The states of no elements.
    pub(crate) fn new(alloc: Global) -> CountedStates
        ensures { result ≡ [] }
    {
        CountedStates {
            states: Vec::new(alloc),
            counts: States {
                locked: 0,
                holdover: 0,
                free: 0,
            },
        }
    }

    /// Puts the state of one more element at the end.
    pub(crate) fn push(&mut self, state: ClockState) -> Result<(), NoMemory>
        requires few { length self.old < 4294967295 }
        ensures put { OnOk result (self.new ≡ self.old ++ state ∷ []) }
    {
        let Ok(()) = self.states.push(state) else {
            return Err(NoMemory);
        };
        self.counts = with_one_in(self.counts, state);
        Ok(())
    }

    /// Renews the state of an element.
    pub(crate) fn set(&mut self, element: u32, state: ClockState)
        requires element { element < length self.old }
        ensures { self.new ≡ slice_set self.old element state }
    {
        let before = self.states[element as usize];
        self.states[element as usize] = state;
        self.counts = with_one_in(with_one_out(self.counts, before), state);
    }

    /// How many elements are in each state. It takes the same time for any number of elements.
    pub(crate) fn counts(&self) -> States
        ensures { AreTallied self.now result }
    {
        self.counts
    }
}

/// One more element in a state.
fn with_one_in(states: States, state: ClockState) -> States
    requires room { counted states < 4294967295 }
    ensures one_more { IsOneMore states state result }
{
    States {
        locked: states.locked + u32::from(state == ClockState::Locked),
        holdover: states.holdover + u32::from(state == ClockState::Holdover),
        free: states.free + u32::from(state == ClockState::FreeRun),
    }
}

/// One less in a state.
fn with_one_out(states: States, state: ClockState) -> States
    requires locked { one_if (is_same_state state Locked) ≤ states.locked }
    requires holdover { one_if (is_same_state state Holdover) ≤ states.holdover }
    requires free { one_if (is_same_state state FreeRun) ≤ states.free }
    ensures one_less { IsOneMore result state states }
{
    States {
        locked: states.locked - u32::from(state == ClockState::Locked),
        holdover: states.holdover - u32::from(state == ClockState::Holdover),
        free: states.free - u32::from(state == ClockState::FreeRun),
    }
}
