//! A simulator that is made and told events.

ghost use Rattle.std.specs.Prelude.{◌≡◌, ◌≤◌, ◌<◌, IfOk};
ghost use Rattle.sync_topo.specs.Events.{IsEventList};
ghost use Rattle.event_sim.specs.Runs.{HasRun};

use crate::change::{Reach, Watch};
use crate::sim::Sim;
use event_times::events_until;
use std::alloc::Global;
use std::marker::Brand;
use std::sync::ledger::{Blank, Ledger};
use sync_ql::limits::LAST_MILLISECOND;
use sync_text::{NoMemory, Steps};
use sync_topo::{Event, Plan};

/// A simulator of a plan that was told the events up to a millisecond, at most 86,400,000, and how far
/// it came.
///
/// Events that are later are left out. One that watches nothing comes to the end. `NoMemory` comes only
/// when out of memory. This project's own.
pub fn run_to<'a>(
    alloc: Global,
    plan: &'a Plan,
    watch: Watch,
    events: &[Event],
    until: u64,
) -> Result<(Sim<'a>, Reach), NoMemory>
    requires events { IsEventList plan.now events.now }
    requires in_range { until ≤ LAST_MILLISECOND }
    ensures run { IfOk result (λ ran. HasRun plan.now events.now watch until ran.0 ran.1) }
{
    run_counted::<Brand>(alloc, plan, watch, events, until, Blank::new(1))
}

/// The same, whose steps are counted on a ledger.
fn run_counted<'a, L: Ledger>(
    alloc: Global,
    plan: &'a Plan,
    watch: Watch,
    events: &[Event],
    until: u64,
    blank: Blank,
) -> Result<(Sim<'a>, Reach), NoMemory>
    requires name { blank.name ≡ L.name }
    requires parts { blank.parts ≡ L.parts }
    requires some { 0 < blank.parts }
    requires events { IsEventList plan.now events.now }
    requires in_range { until ≤ LAST_MILLISECOND }
    ensures run { IfOk result (λ ran. HasRun plan.now events.now watch until ran.0 ran.1) }
{
    let mut steps = Steps::<L>::new(blank);
    let mut sim = Sim::new(alloc, plan, watch)?;
    let told = events_until(events, until);
    let reach = sim.advance(told, until, &mut steps)?;
    Ok((sim, reach))
}
