//! The inputs of an element: what is told of them, and their conditions a step on.

ghost use Rattle.std.specs.Prelude.{◌≡◌, ◌≤◌, ◌<◌, ℕ, [], None, length, All, IfOk, MatchOption};
ghost use Rattle.sync_ql.specs.Selection.{is_better, SameOption};
ghost use Rattle.sync_ql.specs.Told.{IsOfOption};
ghost use Rattle.agenda.specs.DueTimes.{due_in, IsFirstTime};
ghost use Rattle.sync_element.specs.private.FirstTime.{earlier_of};
ghost use Rattle.sync_element.specs.private.Telling.{Fits, IsTold, IsToldSoFar};
ghost use Rattle.sync_element.specs.private.Renewing.{candidate_of, IsRenewed, CanRenew};
ghost use Rattle.sync_element.specs.Whole.{inputs_kept};

use crate::candidates::set_if_other;
use crate::config::Config;
use crate::watched::{Watched, step_if_told, try_clone_all};
use operator_cmds::Cmds;
use selector::Table;
use smallvec::SmallVec;
use std::alloc::Global;
use sync_ql::limits::LAST_MILLISECOND;
use sync_ql::rules::{Candidate, InputEvent};
use sync_ql::{Level, better};
use sync_text::NoMemory;

/// The inputs, by place.
#[derive(Debug, Drop)]
pub struct Inputs {
    /// Four of them in place: most elements have no more.
    pub watched: SmallVec<Watched, 4>,
    pub table: Table,
}

impl Inputs {
    /// The same inputs once more.
    pub(crate) fn try_clone(&self, alloc: Global) -> Result<Inputs, NoMemory>
        ensures { IfOk result (λ inputs. inputs_kept inputs ≡ inputs_kept self.now) }
    {
        let watched = try_clone_all(alloc, self.watched.as_slice())?;
        let table = self.table.try_clone(alloc)?;
        Ok(Inputs { watched, table })
    }
}

/// Takes in what is told in a millisecond, in order; no monitor is told of it yet.
pub(crate) fn tell_all(watched: &mut [Watched], commands: &mut Cmds, told: &[InputEvent])
    requires locked_length { length commands.old.locked ≡ length watched.old }
    requires fits { All (Fits (length watched.old)) told.now }
    ensures { IsToldSoFar told.now []
        (record { watched = watched.old; switches = commands.old })
        (record { watched = watched.new; switches = commands.new }) }
{
    for event in told {
        tell(watched, commands, *event);
    }
}

fn tell(watched: &mut [Watched], commands: &mut Cmds, event: InputEvent)
    requires locked_length { length commands.old.locked ≡ length watched.old }
    requires fits { Fits (length watched.old) event }
    ensures { IsTold event
        (record { watched = watched.old; switches = commands.old })
        (record { watched = watched.new; switches = commands.new }) }
{
    match event {
        InputEvent::Signal(i, up) => watched[i as usize].up = up,
        InputEvent::Heard(i, level) => watched[i as usize].level = level,
        InputEvent::ClearWtr(i) => watched[i as usize].cleared = true,
        InputEvent::Command(command) => {
            let _applied = commands.apply(command);
        }
    }
}

/// The first millisecond at which a running time ends.
pub(crate) fn first_due(inputs: &Inputs) -> Option<u64>
    ensures { MatchOption result
        ((i : ℕ) → i < length (inputs_kept inputs.now).dues → due_in (inputs_kept inputs.now).dues i ≡ None)
        (IsFirstTime (inputs_kept inputs.now).dues) }
{
    let mut first = None;
    for input in inputs.watched.as_slice() {
        first = earlier(first, input.monitor.due());
    }
    first
}

/// The earlier of two milliseconds, where there are.
fn earlier(one: Option<u64>, other: Option<u64>) -> Option<u64>
    ensures { result ≡ earlier_of one other }
{
    match (one, other) {
        (Some(one), Some(other)) => Some(one.min(other)),
        (None, other) => other,
        (one, None) => one,
    }
}

/// Renews an input: its monitor where something happens to it, and what the choice looks at.
pub(crate) fn renew(inputs: &mut Inputs, i: u32, now: u64, commands: &Cmds, config: &Config)
    requires place { i < length inputs.old.watched.items }
    requires can { CanRenew now config.now.own.option (inputs_kept inputs.old) }
    requires in_range { now ≤ LAST_MILLISECOND }
    requires locked_length { length commands.now.locked ≡ length inputs.old.watched.items }
    requires floor { IsOfOption config.now.own.option config.now.floor }
    ensures { IsRenewed (record { now = now; switches = commands.now; floor = config.now.floor }) i
        (inputs_kept inputs.old) (inputs_kept inputs.new) }
{
    let place = i as usize;
    let priority = inputs.table.inputs()[place].priority;
    let input = &mut inputs.watched.as_mut_slice()[place];
    step_if_told(input, now);
    let candidate = candidate_of(input, i, priority, commands, config);
    set_if_other(&mut inputs.table, i, candidate);
}

/// What the choice looks at in an input.
fn candidate_of(
    input: &Watched,
    i: u32,
    priority: u8,
    commands: &Cmds,
    config: &Config,
) -> Candidate
    requires place { i < length commands.now.locked }
    requires option { SameOption config.now.floor input.now.level }
    ensures level { result.level ≡ input.now.level }
    ensures candidate { (now : ℕ) → result ≡ candidate_of
        (record { now = now; switches = commands.now; floor = config.now.floor }) i priority input.now }
{
    let level = input.level;
    Candidate {
        level,
        priority,
        usable: !commands.locked(i) && !input.monitor.failed() && !is_below(config.floor, level),
    }
}

/// Whether the floor is better than the level; a level equal to it is not below.
pub(crate) fn is_below(floor: Option<Level>, level: Option<Level>) -> bool
    requires option { SameOption floor level }
    ensures { result ≡ is_better floor level }
{
    match (floor, level) {
        (Some(floor), Some(level)) => better(floor, level),
        _ => false,
    }
}
