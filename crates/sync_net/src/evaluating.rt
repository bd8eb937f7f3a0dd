//! The elements that are looked at in a millisecond make their steps.

ghost use Rattle.std.specs.Prelude.{◌≡◌, ◌≤◌, ◌<◌, ◌+◌, ℕ, ◌^◌, length, slice_index_or, nat_eq, All, OnOk};
ghost use Rattle.std.specs.List.{list_any};
ghost use Rattle.sync_element.specs.ElementState.{ElementState};
ghost use Rattle.sync_topo.specs.Lines.{lines_out};
ghost use Rattle.sync_net.specs.private.Stages.{AreEvaluated, CanStep, changes_of, is_out_of};

use crate::marking::mark_all;
use crate::shared_element::SharedElement;
use agenda::{DueTimes, Marks};
use std::sync::ledger::Ledger;
use sync_ql::limits::LAST_MILLISECOND;
use sync_ql::rules::InputEvent;
use sync_text::{NoMemory, Rows, Steps};
use sync_topo::Plan;

/// Lets each marked element make its step, and marks the lines out of those that give something
/// else.
pub(crate) fn evaluate_elements<L: Ledger>(
    plan: &Plan,
    active: &Marks,
    elements: &mut [SharedElement<'_>],
    changes: &mut [Rows<InputEvent>],
    dues: &mut DueTimes,
    called: &mut Marks,
    now: u64,
    steps: &mut Steps<L>,
) -> Result<(), NoMemory>
    requires in_range { now ≤ LAST_MILLISECOND }
    requires few { length elements.old < 2 ^ 32 }
    requires marks { length active.now.flags ≡ length elements.old }
    requires changes { length changes.old ≡ length elements.old }
    requires elements { length elements.old ≡ length plan.now.elements }
    requires dues { length elements.old ≤ length dues.old }
    requires lines { (e : ℕ) → All (λ line. line.0 < length called.old.flags) (lines_out plan.now e) }
    requires can_step { (e : ℕ) (other : ElementState) → e < length elements.old →
        CanStep now (slice_index_or elements.old e other) (changes_of changes.old e) }
    ensures evaluated { OnOk result (AreEvaluated now (length elements.old) (is_out_of plan.now)
        (λ e. list_any (nat_eq e) active.now.listed)
        (record { elements = elements.old; changes = changes.old; dues = dues.old; called = called.old.flags })
        (record { elements = elements.new; changes = changes.new; dues = dues.new; called = called.new.flags })) }
    ensures ticks { OnOk result (steps.new ≡ steps.old + length active.now.listed) }
{
    for element in active.listed() {
        evaluate(plan, *element, elements, changes, dues, called, now, steps)?;
    }
    Ok(())
}

/// Lets one element make its step.
fn evaluate<L: Ledger>(
    plan: &Plan,
    number: u32,
    elements: &mut [SharedElement<'_>],
    changes: &mut [Rows<InputEvent>],
    dues: &mut DueTimes,
    called: &mut Marks,
    now: u64,
    steps: &mut Steps<L>,
) -> Result<(), NoMemory>
    requires in_range { now ≤ LAST_MILLISECOND }
    requires number { number < length elements.old }
    requires changes { length changes.old ≡ length elements.old }
    requires elements { length elements.old ≡ length plan.now.elements }
    requires dues { length elements.old ≤ length dues.old }
    requires lines { All (λ line. line.0 < length called.old.flags) (lines_out plan.now number) }
    requires can_step { (other : ElementState) →
        CanStep now (slice_index_or elements.old number other) (changes_of changes.old number) }
    ensures evaluated { OnOk result (AreEvaluated now (length elements.old) (is_out_of plan.now) (λ e. nat_eq e number)
        (record { elements = elements.old; changes = changes.old; dues = dues.old; called = called.old.flags })
        (record { elements = elements.new; changes = changes.new; dues = dues.new; called = called.new.flags })) }
    ensures ticks { OnOk result (steps.new ≡ steps.old + 1) }
{
    let i = number as usize;
    let element = &mut elements[i];
    let gives_other = element.step(now, changes[i].as_slice(), steps)?;
    dues.set(number, element.due());
    changes[i].clear();
    if gives_other {
        mark_all(called, plan.lines_out(number));
    }
    Ok(())
}
