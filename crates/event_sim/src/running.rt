//! A run of a network, from one millisecond in which something happens to the next.

ghost use Rattle.std.specs.Prelude.{◌≡◌, ◌≤◌, ◌<◌, ◌+◌, suc, true, false, nat_eq, if◌then◌else◌, List, OnOk, IfOk, IsTrue, All, length};
ghost use Rattle.sync_topo.specs.declared.event.Event.{Event};
ghost use Rattle.sync_topo.specs.Sizes.{most_rows};
ghost use Rattle.sync_topo.specs.Events.{Fits};
ghost use Rattle.sync_net.specs.NetState.{IsInTime};
ghost use Rattle.sync_net.specs.Standing.{StandsFor};
ghost use Rattle.event_times.specs.EventTimes.{AreTold, AreWithin, AreHere};
ghost use Rattle.event_sim.specs.Changes.{IsChangeOf};
ghost use Rattle.event_sim.specs.Answers.{OnUntil, IfStopped};
ghost use Rattle.event_sim.specs.private.Running.{IsOpen, IsKeptBy, RunStands, IsCut, IsAfterTurn, IsTurnBound, IsBound};

use crate::change::{Change, Reach, Watch};
use crate::noting::note_changes;
use crate::shown::Shown;
use event_times::Moments;
use std::alloc::Global;
use std::sync::ledger::Ledger;
use sync_net::{Net, elements_law};
use sync_ql::limits::LAST_MILLISECOND;
use sync_text::{NoMemory, Steps};
use sync_topo::Event;

/// A network that is run, and what is noted of it.
#[derive(Debug, Drop)]
pub struct Run<'a> {
    pub net: Net<'a>,
    pub watch: Watch,
    // What each element showed last, where changes are watched.
    pub shown: Vec<Shown>,
    // The elements that the last step changed: kept for its memory alone.
    pub changed: Vec<u32>,
    pub changes: Vec<Change>,
}

impl<'a> Run<'a> {
    /// The same run once more.
    pub(crate) fn try_clone(&self, alloc: Global) -> Result<Run<'a>, NoMemory>
        ensures net { IfOk result (λ run. run.net ≡ self.now.net) }
        ensures watch { IfOk result (λ run. run.watch ≡ self.now.watch) }
        ensures shown { IfOk result (λ run. run.shown.items ≡ self.now.shown.items) }
        ensures changes { IfOk result (λ run. run.changes.items ≡ self.now.changes.items) }
    {
        Ok(Run {
            shown: Vec::from_slice(alloc, self.shown.as_slice())?,
            changes: Vec::from_slice(alloc, self.changes.as_slice())?,
            net: self.net.try_clone(alloc)?,
            watch: self.watch,
            changed: Vec::new(alloc),
        })
    }
}

impl Run<'_> {
    /// Makes a step of the network, and notes what it changed: false where these rows are too many.
    fn take_turn<L: Ledger>(
        &mut self,
        now: u64,
        events: &[Event],
        steps: &mut Steps<L>,
    ) -> Result<bool, NoMemory>
        requires going { IsOpen self.old }
        requires of_plan { All (IsChangeOf self.old.net.plan) self.old.changes.items }
        requires in_time { IsInTime self.old.net now }
        requires in_range { now ≤ LAST_MILLISECOND }
        requires fit { All (Fits self.old.net.plan) events.now }
        requires here { All (λ event. event.at ≡ now) events.now }
        ensures kept { OnOk result (IsKeptBy self.old self.new) }
        ensures live { OnOk result (self.new.net.spent ≡ false) }
        ensures of_plan { OnOk result (All (IsChangeOf self.new.net.plan) self.new.changes.items) }
        ensures few { OnOk result (length self.new.changes.items ≤ most_rows self.new.net.plan) }
        ensures going { IfOk result (λ fits. IsTrue fits → IsOpen self.new) }
        ensures watched { IfOk result (λ fits. fits ≡ false → self.new.watch ≡ Watch.Changes) }
        ensures late { IfOk result (λ fits. fits ≡ false → 0 < now) }
        ensures next { OnOk result (self.new.net.next ≡ now + 1) }
        ensures later_steps { OnOk result (self.new.net.later_steps ≡
            (if nat_eq self.old.net.next 0 then 0 else self.old.net.later_steps + 1)) }
        ensures noted { IfOk result (λ fits. (all : List Event) →
            AreHere self.old.net.plan all now events.now →
            RunStands self.old.watch self.old.net self.old.changes.items all now →
            IsAfterTurn fits self.new.watch self.new.net self.new.changes.items all now) }
        ensures cost { OnOk result ((all : List Event) →
            AreHere self.old.net.plan all now events.now → StandsFor self.old.net all now →
            IsTurnBound all now self.old.net self.new.net steps.old steps.new) }
    {
        elements_law();
        self.net.step(now, events, steps)?;
        match self.watch {
            Watch::Nothing => Ok(true),
            Watch::Changes => {
                let fits = note_changes(
                    &self.net,
                    now,
                    &mut self.shown,
                    &mut self.changed,
                    &mut self.changes,
                )?;
                Ok(fits)
            }
        }
    }

    /// Goes from one millisecond in which something happens to the next, up to the end, or until the
    /// changes are too many.
    pub(crate) fn advance<L: Ledger>(
        &mut self,
        events: &[Event],
        until: u64,
        steps: &mut Steps<L>,
    ) -> Result<Reach, NoMemory>
        requires going { IsOpen self.old }
        requires of_plan { All (IsChangeOf self.old.net.plan) self.old.changes.items }
        requires within { AreWithin self.old.net.plan self.old.net.next until events.now }
        requires later { self.old.net.next ≤ until }
        requires in_range { until ≤ LAST_MILLISECOND }
        ensures kept { OnOk result (IsKeptBy self.old self.new) }
        ensures live { OnOk result (self.new.net.spent ≡ false) }
        ensures of_plan { OnOk result (All (IsChangeOf self.new.net.plan) self.new.changes.items) }
        ensures few { OnOk result (length self.new.changes.items ≤ most_rows self.new.net.plan) }
        ensures going { OnUntil result (IsOpen self.new) }
        ensures until { OnUntil result (self.new.net.next ≡ suc until) }
        ensures stopped { IfStopped result (λ t. (t < until) × (self.new.net.next ≡ suc (suc t))
            × (self.new.watch ≡ Watch.Changes)) }
        ensures stands { OnUntil result ((all : List Event) →
            AreTold self.old.net.plan all self.old.net.next until events.now →
            RunStands self.old.watch self.old.net self.old.changes.items all self.old.net.next →
            RunStands self.new.watch self.new.net self.new.changes.items all (suc until)) }
        ensures cut { IfStopped result (λ t. (all : List Event) →
            AreTold self.old.net.plan all self.old.net.next until events.now →
            RunStands self.old.watch self.old.net self.old.changes.items all self.old.net.next →
            IsCut self.new.watch self.new.net self.new.changes.items all (suc t)) }
        ensures cost { OnOk result ((all : List Event) →
            AreTold self.old.net.plan all self.old.net.next until events.now →
            RunStands self.old.watch self.old.net self.old.changes.items all self.old.net.next →
            IsBound all until self.old.net self.new.net steps.old steps.new) }
    {
        elements_law();
        let mut moments = Moments::new(events, self.next(), until);
        while let Some((now, here)) = moments.next_moment(self.net.due()) {
            if !self.take_turn(now, here, steps)? {
                return Ok(Reach::Stopped(now.saturating_sub(1)));
            }
        }
        Ok(Reach::Until)
    }

    /// The first millisecond that the network wasn't told.
    fn next(&self) -> u64
        requires { self.now.net.next ≤ LAST_MILLISECOND + 1 }
        ensures { result ≡ self.now.net.next }
    {
        match self.net.now() {
            Some(last) => last + 1,
            None => 0,
        }
    }
}
