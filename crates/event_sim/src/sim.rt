//! The simulator, as other crates see it.

ghost use Rattle.std.specs.Prelude.{◌≡◌, ◌≤◌, ◌<◌, ◌+◌, ℕ, suc, false, List, [], IfOk, OnOk, None, Some, is_err, All, length, slice_index_or};
ghost use Rattle.event_sim.specs.Changes.{IsChangeOf};
ghost use Rattle.sync_element.specs.ElementState.{ElementState};
ghost use Rattle.sync_topo.specs.declared.event.Event.{Event};
ghost use Rattle.sync_topo.specs.Sizes.{most_rows};
ghost use Rattle.event_times.specs.EventTimes.{AreTold, AreWithin};
ghost use Rattle.event_sim.specs.SimState.{first_after};
ghost use Rattle.event_sim.specs.Standing.{StandsFor};
ghost use Rattle.event_sim.specs.Answers.{is_stopped, OnUntil, IfStopped, IsLastFit};
ghost use Rattle.event_sim.specs.Bounds.{turns_in, active_times, active_pairs};

use crate::change::{Change, Reach, Watch};
use crate::noting::first_shown;
use crate::running::Run;
use std::alloc::Global;
use std::marker::Model;
use std::sync::ledger::Ledger;
use sync_net::Net;
use sync_ql::limits::LAST_MILLISECOND;
use sync_text::{NoMemory, Steps};
use sync_topo::{Event, Plan};

/// A simulator: the network of a plan, run through its events from 0 on, and the changes on the
/// way.
///
/// It goes from one millisecond in which something happens to the next, and passes over the others.
/// The network is after G.781 and G.8264; what is noted of it is this project's own.
#[derive(Debug)]
pub struct Sim<'a> {
    run: Run<'a>,
    /// The millisecond that is reached, up to which the changes are noted.
    reached: Option<u64>,
    /// Whether an advance was refused, after which nothing else is said.
    spent: bool,
    /// Whether the changes were too many.
    stopped: bool,
}

// Written out, so that a way out of a function drops the whole in one step and not field by field.
impl<'a> Drop for Sim<'a> {
    fn drop(self) {
        let Sim {
            run,
            reached: _,
            spent: _,
            stopped: _,
        } = self;
        drop(run);
    }
}

impl<'a> Model for Sim<'a> {
    ghost use Rattle.event_sim.specs.SimState.{SimState};

    ghost Value = { SimState };

    ghost use Rattle.event_sim.specs.SimKept.{sim_state};
    ghost use Rattle.event_sim.specs.private.SimKept.{IsKept};

    ghost view = { sim_state };

    ghost invariant = { IsKept };
}

impl<'a> Sim<'a> {
    /// A simulator of a plan before 0. It takes memory by the size of the plan.
    ///
    /// `NoMemory` comes only when out of memory.
    pub fn new(alloc: Global, plan: &'a Plan, watch: Watch) -> Result<Sim<'a>, NoMemory>
        ensures plan { IfOk result (λ sim. sim.net.plan ≡ plan.now) }
        ensures watch { IfOk result (λ sim. sim.watch ≡ watch) }
        ensures live { IfOk result (λ sim. sim.spent ≡ false) }
        ensures going { IfOk result (λ sim. sim.stopped ≡ false) }
        ensures reached { IfOk result (λ sim. sim.reached ≡ None) }
        ensures changes { IfOk result (λ sim. sim.changes ≡ []) }
        ensures later_steps { IfOk result (λ sim. sim.net.later_steps ≡ 0) }
        ensures stands { IfOk result (λ sim. (events : List Event) → StandsFor sim events) }
    {
        let net = Net::new(alloc, plan)?;
        let shown = match watch {
            Watch::Changes => first_shown(alloc, &net)?,
            Watch::Nothing => Vec::new(alloc),
        };
        Ok(Sim {
            run: Run {
                net,
                watch,
                shown,
                changed: Vec::new(alloc),
                changes: Vec::new(alloc),
            },
            reached: None,
            spent: false,
            stopped: false,
        })
    }

    /// The same simulator once more, as far as it has come, over the same plan. It takes memory by
    /// the size of the plan and the number of changes.
    ///
    /// `NoMemory` comes only when out of memory. This project's own.
    pub fn try_clone(&self, alloc: Global) -> Result<Sim<'a>, NoMemory>
        ensures { IfOk result (λ sim. sim ≡ self.now) }
    {
        let run = self.run.try_clone(alloc)?;
        Ok(Sim {
            run,
            reached: self.reached,
            spent: self.spent,
            stopped: self.stopped,
        })
    }

    /// Tells events, and runs the network up to and with a millisecond, at most 86,400,000.
    ///
    /// The events fit the plan, stand in order of time, and are later than what is reached and not
    /// later than `until`. Where changes are watched and those up to `until` are more than the plan
    /// may have, 200,000 or 10,000,000 where it is large, it answers `Stopped` with the last
    /// millisecond up to which all fit, and its network stands one millisecond later. After the first
    /// step it makes no more than there are milliseconds that are busy or are `until`, and each element
    /// makes no more than those in which it is active. `NoMemory` comes only when out of memory, and
    /// then the simulator is spent. This project's own.
    pub fn advance<L: Ledger>(
        &mut self,
        events: &[Event],
        until: u64,
        steps: &mut Steps<L>,
    ) -> Result<Reach, NoMemory>
        requires live { self.old.spent ≡ false }
        requires going { self.old.stopped ≡ false }
        requires events { AreWithin self.old.net.plan (first_after self.old.reached) until
            events.now }
        requires later { first_after self.old.reached ≤ until }
        requires in_range { until ≤ LAST_MILLISECOND }
        ensures plan { OnOk result (self.new.net.plan ≡ self.old.net.plan) }
        ensures watch { OnOk result (self.new.watch ≡ self.old.watch) }
        ensures spent { self.new.spent ≡ is_err result }
        ensures stopped { self.new.stopped ≡ is_stopped result }
        ensures until { OnUntil result (self.new.reached ≡ Some until) }
        ensures until_next { OnUntil result (self.new.net.next ≡ suc until) }
        ensures stopped_at { IfStopped result (λ t. self.new.reached ≡ Some t) }
        ensures stopped_next { IfStopped result (λ t. self.new.net.next ≡ suc (suc t)) }
        ensures stopped_early { IfStopped result (λ t. t < until) }
        ensures watched { IfStopped result (λ t. self.old.watch ≡ Watch.Changes) }
        ensures unwatched { OnOk result (self.old.watch ≡ Watch.Nothing →
            self.new.changes ≡ self.old.changes) }
        ensures few { OnOk result (length self.new.changes ≤ most_rows self.new.net.plan) }
        ensures stands { OnOk result ((all : List Event) →
            AreTold self.old.net.plan all (first_after self.old.reached) until events.now →
            StandsFor self.old all → StandsFor self.new all) }
        ensures last_fit { IfStopped result (λ t. (all : List Event) →
            AreTold self.old.net.plan all (first_after self.old.reached) until events.now →
            StandsFor self.old all → IsLastFit self.old.net.plan all t until) }
        ensures turns { OnOk result ((all : List Event) →
            AreTold self.old.net.plan all (first_after self.old.reached) until events.now →
            StandsFor self.old all → self.new.net.later_steps ≤ self.old.net.later_steps
            + turns_in self.old.net.plan all until
            (first_after self.old.reached) self.new.net.next) }
        ensures work { OnOk result ((all : List Event) →
            AreTold self.old.net.plan all (first_after self.old.reached) until events.now →
            StandsFor self.old all → steps.new ≤ steps.old
            + active_pairs self.old.net.plan all (first_after self.old.reached) self.new.net.next) }
        ensures counts { OnOk result ((all : List Event) (element : ℕ) (other : ElementState) →
            AreTold self.old.net.plan all (first_after self.old.reached) until events.now →
            StandsFor self.old all → element < length self.old.net.plan.elements →
            (slice_index_or self.new.net.elements element other).later_steps
            ≤ (slice_index_or self.old.net.elements element other).later_steps
            + active_times self.old.net.plan all element
            (first_after self.old.reached) self.new.net.next) }
    {
        match self.run.advance(events, until, steps) {
            Ok(Reach::Until) => {
                self.reached = Some(until);
                Ok(Reach::Until)
            }
            Ok(Reach::Stopped(t)) => {
                self.reached = Some(t);
                self.stopped = true;
                Ok(Reach::Stopped(t))
            }
            Err(NoMemory) => {
                self.spent = true;
                Err(NoMemory)
            }
        }
    }

    /// The millisecond that is reached, and `None` before 0.
    pub fn reached(&self) -> Option<u64>
        ensures reached { result ≡ self.now.reached }
        ensures behind { self.now.spent ≡ false → first_after result ≤ self.now.net.next }
        ensures next { self.now.spent ≡ false → self.now.stopped ≡ false →
            self.now.net.next ≡ first_after result }
    {
        self.reached
    }

    /// The changes up to what is reached, by millisecond and then by element.
    pub fn changes(&self) -> &[Change]
        ensures changes { result.now ≡ self.now.changes }
        ensures of_plan { self.now.spent ≡ false → All (IsChangeOf self.now.net.plan) result.now }
    {
        self.run.changes.as_slice()
    }

    /// The network.
    pub fn net(&self) -> &Net<'a>
        ensures net { result.now ≡ self.now.net }
        ensures live { self.now.spent ≡ false → result.now.spent ≡ false }
    {
        &self.run.net
    }

    /// Whether an advance was refused, after which nothing else is said but whether it is stopped.
    pub fn spent(&self) -> bool
        ensures { result ≡ self.now.spent }
    {
        self.spent
    }

    /// Whether the changes were too many, after which it advances no further.
    pub fn stopped(&self) -> bool
        ensures { result ≡ self.now.stopped }
    {
        self.stopped
    }
}
