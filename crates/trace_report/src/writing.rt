//! The whole text.

ghost use Rattle.std.specs.Prelude.{◌≡◌, ◌++◌, false, List, Some, IfOk, OnOk};
ghost use Rattle.sync_topo.specs.declared.event.Event.{Event};
ghost use Rattle.event_sim.specs.Standing.{StandsFor};
ghost use Rattle.trace_report.specs.Report.{IsReportText, IsWholeReport, stopped_report, stopped_part, IsLastAnswer};

use crate::changes::put_changes;
use crate::inputs::put_inputs;
use crate::last_parts::put_last_parts;
use event_sim::{Reach, Sim, Watch};
use std::alloc::Global;
use sync_text::{NoMemory, Text};

/// The report of a run, as text: the line `changes` and a row for each change; then of the last
/// millisecond the line `inputs` and a row for each input of each element, the line `traces` and a
/// row for each element, the line `loops` and a row for each closed walk, and whether it is settled.
/// Or, where there were more changes than the plan may have, those up to the last millisecond T up to which
/// all fit, and the line `stopped,T`.
///
/// The simulator watches changes and isn't spent, and `reach` is what its last advance answered.
/// `NoMemory` comes only when out of memory. This project's own.
pub fn report(alloc: Global, sim: &Sim<'_>, reach: Reach) -> Result<Text, NoMemory>
    requires live { sim.now.spent ≡ false }
    requires watching { sim.now.watch ≡ Watch.Changes }
    requires reached { IsLastAnswer sim.now reach }
    ensures text { IfOk result (λ text. (events : List Event) → StandsFor sim.now events →
        IsReportText sim.now.net.plan events sim.now.reached reach text) }
{
    match reach {
        Reach::Until => whole_text(alloc, sim, sim.reached().unwrap_or(0)),
        Reach::Stopped(t) => stopped_text(alloc, sim, t),
    }
}

/// The report of a simulator that has reached its end.
fn whole_text(alloc: Global, sim: &Sim<'_>, until: u64) -> Result<Text, NoMemory>
    requires live { sim.now.spent ≡ false }
    requires going { sim.now.stopped ≡ false }
    requires watching { sim.now.watch ≡ Watch.Changes }
    requires reached { sim.now.reached ≡ Some until }
    ensures text { IfOk result (λ text. (events : List Event) → StandsFor sim.now events →
        IsWholeReport sim.now.net.plan events until text) }
{
    let mut text = Text::new(alloc);
    let _reached = sim.reached();
    put_changes(alloc, &mut text, sim.net().plan(), sim.changes())?;
    put_inputs(alloc, &mut text, sim.net(), until)?;
    put_last_parts(alloc, &mut text, sim.net())?;
    Ok(text)
}

/// The report of a simulator with too many changes.
fn stopped_text(alloc: Global, sim: &Sim<'_>, t: u64) -> Result<Text, NoMemory>
    requires live { sim.now.spent ≡ false }
    requires watching { sim.now.watch ≡ Watch.Changes }
    requires reached { sim.now.reached ≡ Some t }
    ensures text { IfOk result (λ text. (events : List Event) → StandsFor sim.now events →
        text ≡ stopped_report sim.now.net.plan events t) }
{
    let mut text = Text::new(alloc);
    put_changes(alloc, &mut text, sim.net().plan(), sim.changes())?;
    put_stopped(&mut text, t)?;
    Ok(text)
}

/// Puts that the changes were too many.
fn put_stopped(text: &mut Text, t: u64) -> Result<(), NoMemory>
    ensures put { OnOk result (text.new ≡ text.old ++ stopped_part t) }
{
    text.put(b"stopped,")?;
    text.put_number(t)?;
    text.put(b"\n")
}
