//! The stages of a millisecond, one after another.

ghost use Rattle.std.specs.Prelude.{◌≡◌, ◌≤◌, ◌<◌, ◌+◌, ℕ, true, false, nat_eq, if◌then◌else◌, length, slice_index_or, OnOk, IsSomeAnd, All};
ghost use Rattle.std.specs.List.{list_any};
ghost use Rattle.sync_element.specs.ElementState.{ElementState};
ghost use Rattle.sync_topo.specs.Events.{Fits};
ghost use Rattle.sync_topo.specs.Lines.{line_count, IsNominated, lines_out};
ghost use Rattle.sync_topo.specs.WellFormed.{IsWellFormed};
ghost use Rattle.net_rules.specs.History.{settings_of};
ghost use Rattle.sync_net.specs.NetState.{line_in};
ghost use Rattle.sync_net.specs.private.Noting.{AreOfOption};
ghost use Rattle.sync_net.specs.private.Hearing.{CanTell, told_in};
ghost use Rattle.sync_net.specs.private.Stages.{CanStep, CanSay};
ghost use Rattle.sync_net.specs.NetState.{IsInTime};
ghost use Rattle.sync_net.specs.private.NetStep.{IsNetStep, AreEvaluatedFor};
ghost use Rattle.sync_net.specs.Evaluated.{IsCalledFor, AreAloneCalled, AreAloneTold};
ghost use Rattle.sync_net.specs.Whole.{state_of};
ghost use Rattle.sync_net.specs.private.Whole.{IsWhole};
ghost use Rattle.sync_net.specs.private.PartSteps.{AreCalled, AreTakenIn, AreHeardIn, AreEvaluatedIn, AreSentIn};

use crate::evaluating::evaluate_elements;
use crate::events::take_events;
use crate::hearing::hear_lines;
use crate::marking::{mark_due, mark_if_first};
use crate::parts::NetParts;
use crate::sending::send_lines;
use std::sync::ledger::Ledger;
use sync_ql::limits::LAST_MILLISECOND;
use sync_text::{NoMemory, Steps};
use sync_topo::{Event, Plan};

/// A step of the network: events come in, messages arrive, elements evaluate, and lines send.
pub(crate) fn step_parts<L: Ledger>(
    plan: &Plan,
    parts: &mut NetParts<'_>,
    now: u64,
    events: &[Event],
    steps: &mut Steps<L>,
) -> Result<(), NoMemory>
    requires whole { IsWhole plan.now parts.old }
    requires in_time { IsInTime (state_of plan.now false parts.old) now }
    requires in_range { now ≤ LAST_MILLISECOND }
    requires fit { All (Fits plan.now) events.now }
    ensures whole { OnOk result (IsWhole plan.now parts.new) }
    ensures stepped { OnOk result (IsNetStep now events.now
        (state_of plan.now false parts.old) (state_of plan.now false parts.new)) }
    ensures evaluated { OnOk result (AreEvaluatedFor now events.now
        (state_of plan.now false parts.old) (state_of plan.now false parts.new)) }
    ensures called { OnOk result (AreAloneCalled
        (state_of plan.now false parts.old) (state_of plan.now false parts.new)) }
    ensures called_only { OnOk result (All (IsCalledFor now events.now
        (state_of plan.now false parts.old) (state_of plan.now false parts.new))
        parts.new.called.listed) }
    ensures told { OnOk result (AreAloneTold events.now
        (state_of plan.now false parts.old) (state_of plan.now false parts.new)) }
    ensures ticks { OnOk result (steps.new ≡ steps.old + length parts.new.tellings.active.listed) }
{
    call_due(plan, parts, now);
    take_in(plan, parts, events)?;
    hear(plan, parts, now)?;
    evaluate(plan, parts, now, steps)?;
    send(plan, parts, now)?;
    parts.later_steps = steps_after(parts.next, parts.later_steps);
    parts.next = now + 1;
    Ok(())
}

/// Marks what is due, and in the first step all.
fn call_due(plan: &Plan, parts: &mut NetParts<'_>, now: u64)
    requires active { length parts.old.tellings.active.flags ≡ length plan.now.elements }
    requires called { length parts.old.called.flags ≡ line_count plan.now }
    requires dues { length parts.old.dues ≡ length plan.now.elements + line_count plan.now }
    ensures { AreCalled plan.now now parts.old parts.new }
{
    parts.tellings.active.clear();
    parts.called.clear();
    mark_if_first(
        plan,
        parts.next,
        &mut parts.tellings.active,
        &mut parts.called,
    );
    mark_due(
        &mut parts.dues,
        plan.elements(),
        &mut parts.tellings.active,
        &mut parts.called,
        now,
    );
}

/// Takes in the events.
fn take_in(plan: &Plan, parts: &mut NetParts<'_>, events: &[Event]) -> Result<(), NoMemory>
    requires fit { All (Fits plan.now) events.now }
    requires signals { length parts.old.signals.items ≡ line_count plan.now }
    requires sources { length parts.old.sources.items ≡ length plan.now.sources }
    requires of_option { AreOfOption plan.now.option parts.old.sources.items }
    requires called { length parts.old.called.flags ≡ line_count plan.now }
    requires lists { length parts.old.tellings.changes.items ≡ length plan.now.elements }
    requires flags { length parts.old.tellings.active.flags ≡ length plan.now.elements }
    ensures { OnOk result (AreTakenIn plan.now events.now parts.old parts.new) }
{
    take_events(
        plan,
        parts.signals.as_mut_slice(),
        parts.sources.as_mut_slice(),
        &mut parts.called,
        &mut parts.tellings,
        events,
    )?;
    let _called = parts.called.listed();
    Ok(())
}

/// Tells the lines, and passes on what is heard.
fn hear(plan: &Plan, parts: &mut NetParts<'_>, now: u64) -> Result<(), NoMemory>
    requires in_range { now ≤ LAST_MILLISECOND }
    requires well_formed { IsWellFormed plan.now }
    requires signals { length parts.old.signals.items ≡ line_count plan.now }
    requires called { length parts.old.called.flags ≡ line_count plan.now }
    requires lines { length parts.old.lines.items ≡ line_count plan.now }
    requires heards { length parts.old.heards.items ≡ line_count plan.now }
    requires lists { length parts.old.tellings.changes.items ≡ length plan.now.elements }
    requires flags { length parts.old.tellings.active.flags ≡ length plan.now.elements }
    requires can_tell { (l : ℕ) → list_any (nat_eq l) parts.old.called.listed ≡ true →
        IsNominated plan.now l × IsSomeAnd (line_in parts.old.lines.items l) (CanTell plan.now.option now) }
    ensures { OnOk result (AreHeardIn plan.now now parts.old parts.new) }
{
    let _listed = parts.called.listed();
    hear_lines(
        plan,
        parts.signals.as_slice(),
        &parts.called,
        parts.lines.as_mut_slice(),
        parts.heards.as_mut_slice(),
        &mut parts.tellings,
        now,
    )?;
    Ok(())
}

/// Lets the marked elements make their steps.
fn evaluate<L: Ledger>(
    plan: &Plan,
    parts: &mut NetParts<'_>,
    now: u64,
    steps: &mut Steps<L>,
) -> Result<(), NoMemory>
    requires in_range { now ≤ LAST_MILLISECOND }
    requires elements { length parts.old.elements.items ≡ length plan.now.elements }
    requires flags { length parts.old.tellings.active.flags ≡ length plan.now.elements }
    requires lists { length parts.old.tellings.changes.items ≡ length plan.now.elements }
    requires dues { length plan.now.elements ≤ length parts.old.dues }
    requires lines { (e : ℕ) → All (λ line. line.0 < length parts.old.called.flags) (lines_out plan.now e) }
    requires can_step { (e : ℕ) (other : ElementState) → e < length plan.now.elements →
        CanStep now (slice_index_or parts.old.elements.items e other) (told_in parts.old.tellings.changes.items e) }
    ensures evaluated { OnOk result (AreEvaluatedIn plan.now now parts.old parts.new) }
    ensures ticks { OnOk result (steps.new ≡ steps.old + length parts.old.tellings.active.listed) }
{
    let _elements = plan.elements();
    let _listed = parts.tellings.active.listed();
    evaluate_elements(
        plan,
        &parts.tellings.active,
        parts.elements.as_mut_slice(),
        parts.tellings.changes.as_mut_slice(),
        &mut parts.dues,
        &mut parts.called,
        now,
        steps,
    )?;
    let _called = parts.called.listed();
    Ok(())
}

/// Gives the marked lines their levels.
fn send(plan: &Plan, parts: &mut NetParts<'_>, now: u64) -> Result<(), NoMemory>
    requires in_range { now ≤ LAST_MILLISECOND }
    requires elements { length parts.old.elements.items ≡ length plan.now.elements }
    requires lines { length parts.old.lines.items ≡ line_count plan.now }
    requires dues { length parts.old.dues ≡ length plan.now.elements + line_count plan.now }
    requires called { length parts.old.called.flags ≡ line_count plan.now }
    requires settings { (e : ℕ) (other : ElementState) → e < length plan.now.elements →
        (slice_index_or parts.old.elements.items e other).settings ≡ settings_of plan.now e }
    requires can_say { (l : ℕ) → list_any (nat_eq l) parts.old.called.listed ≡ true →
        IsSomeAnd (line_in parts.old.lines.items l) (CanSay now) }
    ensures { OnOk result (AreSentIn plan.now now parts.old parts.new) }
{
    let _listed = parts.called.listed();
    send_lines(
        plan,
        &parts.called,
        parts.elements.as_slice(),
        parts.lines.as_mut_slice(),
        &mut parts.dues,
        now,
    )?;
    Ok(())
}

/// The number of steps after the first, where there is one more.
fn steps_after(next: u64, later_steps: u64) -> u64
    requires few { later_steps ≤ next }
    requires in_range { next ≤ LAST_MILLISECOND + 1 }
    ensures { result ≡ (if nat_eq next 0 then 0 else later_steps + 1) }
{
    if next == 0 { 0 } else { later_steps + 1 }
}
