//! A run before its first millisecond.

ghost use Rattle.std.specs.Prelude.{◌<◌, ℕ, List, IfOk, length};
ghost use Rattle.sync_topo.specs.declared.event.Event.{Event};
ghost use Rattle.net_words.specs.NewElements.{AreEach};
ghost use Rattle.prio_mode.specs.private.Running.{IsNewSeen, IsRun, RunStands};

use crate::running::PriorityRun;
use crate::shown::{Seen, shown_of};
use agenda::DueTimes;
use net_words::{Chooses, new_element, new_tellings};
use std::alloc::Global;
use sync_text::{NoMemory, Rows};
use sync_topo::Plan;

/// A run of a plan, in which nothing was told.
pub(crate) fn new_run(alloc: Global, plan: &Plan) -> Result<PriorityRun, NoMemory>
    ensures run { IfOk result (IsRun plan.now 0) }
    ensures stands { IfOk result (λ run. (all : List Event) → RunStands plan.now all 0 run) }
{
    let seen = all_seen(alloc, plan)?;
    let tellings = new_tellings(alloc, plan)?;
    let dues = DueTimes::new(alloc, plan.elements() as usize)?;
    Ok(PriorityRun {
        seen,
        tellings,
        dues,
    })
}

/// The elements, with what each shows before it is told anything.
fn all_seen(alloc: Global, plan: &Plan) -> Result<Vec<Seen>, NoMemory>
    ensures { IfOk result
        (λ seen. AreEach (IsNewSeen plan.now) (length plan.now.elements) seen.items) }
{
    let mut seen = Rows::with_capacity(alloc, plan.elements() as usize)?;
    for element in 0..plan.elements() {
        seen.push(new_seen(alloc, plan, element)?)?;
    }
    Ok(seen.into_vec())
}

/// One element, with what it shows.
fn new_seen(alloc: Global, plan: &Plan, number: u32) -> Result<Seen, NoMemory>
    requires { number < length plan.now.elements }
    ensures { IfOk result (IsNewSeen plan.now number) }
{
    let element = new_element(alloc, plan, number, Chooses::ByPriority)?;
    let shown = shown_of(plan, number, &element);
    Ok(Seen { element, shown })
}
