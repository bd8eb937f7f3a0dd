//! The whole text.

ghost use Rattle.std.specs.Prelude.{◌≡◌, ◌≤◌, suc, false, List, IfOk};
ghost use Rattle.sync_topo.specs.declared.event.Event.{Event};
ghost use Rattle.sync_topo.specs.Events.{IsEventList};
ghost use Rattle.event_times.specs.EventTimes.{AreTold, AreWithin};
ghost use Rattle.sync_net.specs.Standing.{StandsFor};
ghost use Rattle.inspection.specs.Inspection.{inspection};

use crate::commands::put_commands;
use crate::elements::put_elements;
use crate::inputs::put_inputs;
use event_sim::{Watch, events_until, run_to};
use std::alloc::Global;
use sync_net::Net;
use sync_ql::limits::LAST_MILLISECOND;
use sync_text::{NoMemory, Text};
use sync_topo::{Event, Plan};

/// What a network of a plan is at in a millisecond, at most 86,400,000, by its events in order of
/// time.
///
/// The text has three parts. After the line `commands` comes a row for each lockout, unlock, forced
/// switch, manual switch and clear up to the millisecond, with whether it was taken or rejected
/// when it was applied; one on an input that isn't nominated is rejected. After the line `elements`
/// comes a row for each element: its mode, the input that is switched to, the one that is taken,
/// its level, and what its clock follows. After the line `inputs` comes a row for each input of
/// each element: its condition, what is left of it, the level that is heard on it or that its
/// source has, and why it is taken or isn't. `NoMemory` comes only when out of memory. After
/// G.781, external commands, selection, signal fail and quality level; the text is this project's
/// own.
pub fn inspect(alloc: Global, plan: &Plan, events: &[Event], at: u64) -> Result<Text, NoMemory>
    requires events { IsEventList plan.now events.now }
    requires in_range { at ≤ LAST_MILLISECOND }
    ensures text { IfOk result (λ text. text ≡ inspection plan.now events.now at) }
{
    let told = events_until(events, at);
    let (sim, _) = run_to(alloc, plan, Watch::Nothing, events, at)?;
    text_of(alloc, sim.net(), told, at)
}

/// The text of a network after its last step, and of the events that it was told.
fn text_of(alloc: Global, net: &Net<'_>, told: &[Event], at: u64) -> Result<Text, NoMemory>
    requires live { net.now.spent ≡ false }
    requires within { AreWithin net.now.plan 0 at told.now }
    ensures text { IfOk result (λ text. (all : List Event) → StandsFor net.now all (suc at) →
        AreTold net.now.plan all 0 at told.now → text ≡ inspection net.now.plan all at) }
{
    let mut text = Text::new(alloc);
    put_commands(alloc, &mut text, net.plan(), told)?;
    put_elements(alloc, &mut text, net)?;
    put_inputs(alloc, &mut text, net, at)?;
    Ok(text)
}
