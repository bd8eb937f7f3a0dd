//! The inputs of an element before its first step.

ghost use Rattle.std.specs.Prelude.{◌≡◌, ◌≤◌, ◌<◌, ℕ, IfOk, All, length, map};
ghost use Rattle.sync_ql.specs.Selection.{SameOption};
ghost use Rattle.sync_ql.specs.Told.{IsOfOption};
ghost use Rattle.sync_element.specs.private.Starting.{IsNew, AreNew, first_candidate, HasFirst};
ghost use Rattle.sync_element.specs.Kept.{watched_in};
ghost use Rattle.sync_element.specs.Whole.{inputs_kept};

use crate::config::{Config, InputConfig};
use crate::inputs::{Inputs, is_below};
use crate::watched::Watched;
use input_monitor::Monitor;
use selector::Table;
use smallvec::SmallVec;
use std::alloc::Global;
use sync_ql::Level;
use sync_ql::limits::{GREATEST_HOLDOFF, GREATEST_WTR, LEAST_HOLDOFF, MOST_INPUTS};
use sync_ql::rules::Candidate;
use sync_text::NoMemory;

/// The inputs of a new element: all are up, and have their first levels.
pub(crate) fn new_inputs(alloc: Global, config: &Config) -> Result<Inputs, NoMemory>
    requires not_short { LEAST_HOLDOFF ≤ config.now.holdoff }
    requires not_long { config.now.holdoff ≤ GREATEST_HOLDOFF }
    requires minutes { config.now.wtr ≤ GREATEST_WTR }
    requires few { length config.now.inputs ≤ MOST_INPUTS }
    requires floor { IsOfOption config.now.own.option config.now.floor }
    requires first { All (λ input. IsOfOption config.now.own.option input.first) config.now.inputs }
    ensures { IfOk result (λ inputs. AreNew config.now (inputs_kept inputs)) }
{
    let watched = new_watched(alloc, config)?;
    let table = new_table(alloc, config)?;
    Ok(Inputs { watched, table })
}

/// Each input with a monitor that was told nothing.
fn new_watched(alloc: Global, config: &Config) -> Result<SmallVec<Watched, 4>, NoMemory>
    requires not_short { LEAST_HOLDOFF ≤ config.now.holdoff }
    requires not_long { config.now.holdoff ≤ GREATEST_HOLDOFF }
    requires minutes { config.now.wtr ≤ GREATEST_WTR }
    ensures count { IfOk result (λ watched. length watched.items ≡ length config.now.inputs) }
    ensures new { IfOk result (λ watched. (i : ℕ) → i < length config.now.inputs →
        IsNew config.now i (watched_in watched.items i)) }
{
    let Ok(mut watched) = SmallVec::with_capacity(alloc, config.inputs.as_slice().len()) else {
        return Err(NoMemory);
    };
    for input in config.inputs.as_slice() {
        let one = new_input(config, input.first);
        if watched.push(one).is_err() {
            return Err(NoMemory);
        }
    }
    Ok(watched)
}

fn new_input(config: &Config, first: Option<Level>) -> Watched
    requires not_short { LEAST_HOLDOFF ≤ config.now.holdoff }
    requires not_long { config.now.holdoff ≤ GREATEST_HOLDOFF }
    requires minutes { config.now.wtr ≤ GREATEST_WTR }
    ensures { HasFirst config.now first result }
{
    Watched {
        monitor: Monitor::new(config.holdoff, config.wtr),
        up: true,
        level: first,
        cleared: false,
    }
}

/// What the choice looks at in each input.
fn new_table(alloc: Global, config: &Config) -> Result<Table, NoMemory>
    requires few { length config.now.inputs ≤ MOST_INPUTS }
    requires floor { IsOfOption config.now.own.option config.now.floor }
    requires first { All (λ input. IsOfOption config.now.own.option input.first) config.now.inputs }
    ensures { IfOk result (λ table.
        table ≡ map (first_candidate config.now.floor) config.now.inputs) }
{
    let inputs = config.inputs.as_slice();
    let mut table = Table::new(alloc, inputs.len() as u32)?;
    for i in 0..inputs.len() {
        let candidate = first_candidate(config.floor, &inputs[i]);
        table.set(i as u32, candidate);
    }
    Ok(table)
}

fn first_candidate(floor: Option<Level>, input: &InputConfig) -> Candidate
    requires { SameOption floor input.now.first }
    ensures { result ≡ first_candidate floor input.now }
{
    Candidate {
        level: input.first,
        priority: input.priority,
        usable: !is_below(floor, input.first),
    }
}
