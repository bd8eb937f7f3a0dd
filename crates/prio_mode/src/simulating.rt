//! The report of a run of elements that choose by priority alone.

ghost use Rattle.std.specs.Prelude.{◌≤◌, IfOk};
ghost use Rattle.sync_topo.specs.Events.{IsEventList};
ghost use Rattle.prio_mode.specs.PriorityReport.{IsPriorityReport};

use crate::loops::put_loops;
use crate::starting::new_run;
use event_times::events_until;
use std::alloc::Global;
use sync_ql::limits::LAST_MILLISECOND;
use sync_text::{NoMemory, Text};
use sync_topo::{Event, Plan};

/// The report of a run of a plan, whose elements choose by priority alone, up to and with `until`.
///
/// The events fit the plan and stand in order, and `until` is at most 86,400,000 milliseconds; events
/// after it have no effect. First come a line `changes` and a row `t,element,mode,input,state` for each
/// change, and then a line `loops` and a row for each closed walk at `until`, its lines from the
/// lowest-numbered on. Levels, ESMC, floors and bundles play no part. Only elements that are told something
/// or are due make a step, and milliseconds in which nothing happens are passed over. This project's own.
pub fn prio_sim(alloc: Global, plan: &Plan, events: &[Event], until: u64) -> Result<Text, NoMemory>
    requires valid { IsEventList plan.now events.now }
    requires in_range { until ≤ LAST_MILLISECOND }
    ensures { IfOk result (IsPriorityReport plan.now events.now until) }
{
    let _elements = plan.elements();
    let mut text = Text::new(alloc);
    text.put(b"changes\n")?;
    let mut run = new_run(alloc, plan)?;
    let told = events_until(events, until);
    run.advance(alloc, plan, told, until, &mut text)?;
    text.put(b"loops\n")?;
    put_loops(alloc, &mut text, plan, run.seen.as_slice())?;
    Ok(text)
}
