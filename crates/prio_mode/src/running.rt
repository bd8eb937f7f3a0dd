//! A run of a network of elements that choose by priority alone.

ghost use Rattle.std.specs.Prelude.{◌≡◌, ◌≤◌, ◌<◌, ◌+◌, ◌++◌, ℕ, suc, true, nat_eq, List, OnOk, All, length};
ghost use Rattle.std.specs.List.{IsDistinct};
ghost use Rattle.agenda.specs.Called.{is_marked};
ghost use Rattle.sync_topo.specs.declared.event.Event.{Event};
ghost use Rattle.sync_topo.specs.Events.{Fits};
ghost use Rattle.event_times.specs.EventTimes.{AreTold, AreWithin, AreHere};
ghost use Rattle.prio_mode.specs.private.Running.{AreCounted, IsRun, RunStands, HasRun, kept_at};
ghost use Rattle.prio_mode.specs.private.Visiting.{CanStep, IsAloneVisited, AreVisited, AreCalled};

use crate::rows::put_if_other;
use crate::shown::Seen;
use crate::stepping::step_told;
use agenda::{DueTimes, Marks, first_due, in_order, mark_all, mark_due};
use event_times::Moments;
use net_words::{Tellings, tell_events};
use std::alloc::Global;
use sync_ql::limits::LAST_MILLISECOND;
use sync_text::{NoMemory, Text};
use sync_topo::{Event, Plan};

/// The elements with what each showed last, what each is told, and when each is due.
#[derive(Debug, Drop)]
pub(crate) struct PriorityRun {
    pub(crate) seen: Vec<Seen>,
    pub(crate) tellings: Tellings,
    pub(crate) dues: DueTimes,
}

/// Marks all elements in the first millisecond.
fn mark_first(plan: &Plan, marks: &mut Marks, now: u64)
    requires count { length marks.old.flags ≡ length plan.now.elements }
    ensures count { length marks.new.flags ≡ length marks.old.flags }
    ensures first { now ≡ 0 → (e : ℕ) → e < length plan.now.elements →
        is_marked marks.new.flags e ≡ true }
{
    if now == 0 {
        mark_all(marks, plan.elements());
    }
}

impl PriorityRun {
    /// Marks the elements that have something to do in a millisecond, and tells them what events
    /// say.
    fn call(&mut self, plan: &Plan, now: u64, here: &[Event]) -> Result<(), NoMemory>
        requires run { IsRun plan.now now self.old }
        requires fit { All (Fits plan.now) here.now }
        ensures called { OnOk result (AreCalled plan.now now here.now self.old self.new) }
        ensures can_step { OnOk result ((e : ℕ) → e < length plan.now.elements →
            CanStep plan.now now e (kept_at plan.now self.new e)) }
    {
        self.tellings.active.clear();
        mark_first(plan, &mut self.tellings.active, now);
        mark_due(&mut self.dues, &mut self.tellings.active, now);
        tell_events(plan, &mut self.tellings, here)?;
        let _elements = plan.elements();
        Ok(())
    }

    /// Lets one element make its step, and writes its change.
    fn visit(
        &mut self,
        alloc: Global,
        plan: &Plan,
        element: u32,
        now: u64,
        text: &mut Text,
    ) -> Result<(), NoMemory>
        requires counted { AreCounted plan.now self.old }
        requires within { element < length plan.now.elements }
        requires in_range { now ≤ LAST_MILLISECOND }
        requires can_step { CanStep plan.now now element (kept_at plan.now self.old element) }
        ensures { OnOk result
            (IsAloneVisited plan.now now element self.old self.new text.old text.new) }
    {
        let i = element as usize;
        let was = self.seen[i].shown;
        let changes = &mut self.tellings.changes[i];
        let (shown, due) = step_told(plan, element, &mut self.seen[i], changes, now);
        self.dues.set(element, due);
        put_if_other(alloc, text, plan, now, element, was, shown)
    }

    /// Lets some elements do so, one after another.
    fn visit_all(
        &mut self,
        alloc: Global,
        plan: &Plan,
        order: &[u32],
        now: u64,
        text: &mut Text,
    ) -> Result<(), NoMemory>
        requires counted { AreCounted plan.now self.old }
        requires within { All (λ e. e < length plan.now.elements) order.now }
        requires apart { IsDistinct nat_eq order.now }
        requires in_range { now ≤ LAST_MILLISECOND }
        requires can_step { (e : ℕ) → e < length plan.now.elements →
            CanStep plan.now now e (kept_at plan.now self.old e) }
        ensures { OnOk result
            (AreVisited plan.now now order.now self.old self.new text.old text.new) }
    {
        for element in order {
            self.visit(alloc, plan, *element, now, text)?;
        }
        Ok(())
    }

    /// Makes a millisecond, in which these events stand: only what has something to do is visited.
    fn turn(
        &mut self,
        alloc: Global,
        plan: &Plan,
        now: u64,
        here: &[Event],
        text: &mut Text,
    ) -> Result<(), NoMemory>
        requires run { IsRun plan.now now self.old }
        requires in_range { now ≤ LAST_MILLISECOND }
        requires fit { All (Fits plan.now) here.now }
        ensures run { OnOk result (IsRun plan.now (suc now) self.new) }
        ensures stands { OnOk result ((all : List Event) (first : List ℕ) →
            AreHere plan.now all now here.now → HasRun plan.now all now self.old first text.old →
            HasRun plan.now all (suc now) self.new first text.new) }
    {
        self.call(plan, now, here)?;
        let order = in_order(alloc, &self.tellings.active)?;
        self.visit_all(alloc, plan, order.as_slice(), now, text)?;
        Ok(())
    }

    /// Goes from one millisecond in which something happens to the next, up to the end.
    pub(crate) fn advance(
        &mut self,
        alloc: Global,
        plan: &Plan,
        events: &[Event],
        until: u64,
        text: &mut Text,
    ) -> Result<(), NoMemory>
        requires run { IsRun plan.now 0 self.old }
        requires within { AreWithin plan.now 0 until events.now }
        requires in_range { until ≤ LAST_MILLISECOND }
        ensures run { OnOk result (IsRun plan.now (suc until) self.new) }
        ensures stands { OnOk result ((all : List Event) → AreTold plan.now all 0 until events.now →
            RunStands plan.now all 0 self.old →
            HasRun plan.now all (suc until) self.new text.old text.new) }
    {
        let mut moments = Moments::new(events, 0, until);
        while let Some((now, here)) = moments.next_moment(first_due(&self.dues)) {
            self.turn(alloc, plan, now, here, text)?;
        }
        Ok(())
    }
}
