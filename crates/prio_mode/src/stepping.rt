//! One step of one element.

ghost use Rattle.std.specs.Prelude.{◌≡◌, ◌≤◌, ◌<◌, [], All, length};
ghost use Rattle.sync_ql.specs.Told.{FitsElement};
ghost use Rattle.sync_element.specs.ElementState.{IsInTime};
ghost use Rattle.sync_element.specs.StandsAfter.{IsStepped};
ghost use Rattle.prio_mode.specs.PriorityAlone.{priority_settings};
ghost use Rattle.prio_mode.specs.private.Running.{Shows};

use crate::shown::{Seen, ShownByPriority, shown_of};
use net_words::step_alone;
use sync_ql::limits::LAST_MILLISECOND;
use sync_ql::rules::InputEvent;
use sync_text::Rows;
use sync_topo::Plan;

/// Tells an element its words, lets it make its step, and answers what it shows then, and when it
/// is due next.
pub(crate) fn step_told(
    plan: &Plan,
    element: u32,
    one: &mut Seen,
    told: &mut Rows<InputEvent>,
    now: u64,
) -> (ShownByPriority, Option<u64>)
    requires within { element < length plan.now.elements }
    requires settings { one.old.element.settings ≡ priority_settings plan.now element }
    requires in_time { IsInTime one.old.element now }
    requires in_range { now ≤ LAST_MILLISECOND }
    requires fits { All (FitsElement one.old.element.settings) told.old }
    ensures stepped { IsStepped now told.old one.old.element one.new.element }
    ensures told { told.new ≡ [] }
    ensures shows { Shows plan.now element one.new.element one.new.shown }
    ensures shown { result.0 ≡ one.new.shown }
    ensures due { result.1 ≡ one.new.element.due }
{
    step_alone(&mut one.element, now, told.as_slice());
    told.clear();
    let shown = shown_of(plan, element, &one.element);
    one.shown = shown;
    (shown, one.element.due())
}
