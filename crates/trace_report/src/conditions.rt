//! In which condition the inputs of an element are in a millisecond after its last step.

ghost use Rattle.std.specs.Prelude.{◌≡◌, ◌≤◌, ◌<◌, ◌+◌, ◌-◌, ℕ, List, length, IfSome, IsNone};
ghost use Rattle.sync_ql.specs.Condition.{condition_at};
ghost use Rattle.sync_ql.specs.Moment.{Moment, signals_of};
ghost use Rattle.sync_element.specs.Due.{left_of, IsLeastLeft, NoneEnds};
ghost use Rattle.sync_element.specs.ElementState.{inputs_of, IsInTime};
ghost use Rattle.sync_element.specs.StandsFor.{StandsFor};
ghost use Rattle.input_monitor.specs.Ending.{later_by};
ghost use Rattle.trace_report.specs.private.Least.{lesser};

use sync_element::Element;
use sync_ql::rules::Cond;

/// What is left of a condition that ends.
fn left_in(condition: Cond) -> Option<u32>
    ensures { result ≡ left_of condition }
{
    match condition {
        Cond::HoldOff(left) | Cond::Restoring(left) => Some(left),
        Cond::Good | Cond::Failed => None,
    }
}

/// The lesser of two numbers, where there is one.
fn lesser(one: Option<u32>, other: Option<u32>) -> Option<u32>
    ensures { result ≡ lesser one other }
{
    match (one, other) {
        (Some(left), Some(right)) => Some(left.min(right)),
        (Some(left), None) => Some(left),
        (None, right) => right,
    }
}

/// The least that was left at the last step of a condition of the element's inputs.
fn least_left(element: &Element, inputs: u32) -> Option<u32>
    requires inputs { inputs ≡ inputs_of element.now }
    ensures none { (past : List Moment) → StandsFor element.now past → IsNone result →
        NoneEnds element.now.settings past }
    ensures least { (past : List Moment) → StandsFor element.now past →
        IfSome result (IsLeastLeft element.now.settings past) }
{
    let mut least = None;
    for place in 0..inputs {
        least = lesser(least, left_in(element.cond(place)));
    }
    least
}

/// How many milliseconds a condition that ends has been running on since the last step of an element
/// with so many inputs, up to a millisecond and with it; where none ends, no condition tells.
///
/// After G.781, hold-off and wait-to-restore; the exact millisecond is this project's own.
pub fn passed_until(element: &Element, inputs: u32, until: u64) -> u64
    requires inputs { inputs ≡ inputs_of element.now }
    ensures passed { (past : List Moment) (i : ℕ) → StandsFor element.now past →
        element.now.next ≡ length past → IsInTime element.now (until + 1) → i < inputs →
        later_by result (condition_at element.now.settings.timers (signals_of i past))
        ≡ later_by (until + 1 - element.now.next)
        (condition_at element.now.settings.timers (signals_of i past)) }
{
    match (element.due(), least_left(element, inputs)) {
        (Some(due), Some(left)) => until.saturating_add(u64::from(left)).saturating_sub(due),
        _ => 0,
    }
}

/// A condition that has been running on for some milliseconds: that much less is left of its time.
///
/// After G.781, hold-off and wait-to-restore.
pub fn later(condition: Cond, passed: u64) -> Cond
    ensures { result ≡ later_by passed condition }
{
    match condition {
        Cond::HoldOff(left) => Cond::HoldOff(less(left, passed)),
        Cond::Restoring(left) => Cond::Restoring(less(left, passed)),
        Cond::Good | Cond::Failed => condition,
    }
}

/// What is left of a time.
fn less(left: u32, passed: u64) -> u32
    ensures { result ≡ left - passed }
{
    u64::from(left).saturating_sub(passed) as u32
}
