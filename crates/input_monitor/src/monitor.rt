ghost use Rattle.std.specs.Prelude.{◌≡◌, ◌≤◌, ◌<◌, ◌+◌, ◌-◌, ◌*◌, ◌⊎◌, ◌↔◌, ◌∷◌, [], ℕ, List, IfSome, IsNone, None, length};
ghost use Rattle.sync_ql.specs.Condition.{Signal, is_up, condition_at, failed_at, continued, IsSameKind, IsDue};
ghost use Rattle.input_monitor.specs.StandsFor.{StandsFor};
ghost use Rattle.input_monitor.specs.Ending.{IsEnd, later_by};
ghost use Rattle.input_monitor.specs.Monitored.{up_of};
ghost use Rattle.input_monitor.specs.private.Running.{IsRunning, IsAtMost};

use std::marker::Model;
use sync_ql::limits::{GREATEST_HOLDOFF, GREATEST_WTR, LAST_MILLISECOND, LEAST_HOLDOFF};
use sync_ql::rules::Cond;

/// Watches one input, and says in which condition it is and when that ends.
///
/// Times are milliseconds from 0. Before its first step the input is good.
/// After G.781, hold-off time and wait-to-restore time; the exact millisecond is this project's
/// own.
#[derive(Debug, Drop)]
pub struct Monitor {
    holdoff: u32,
    wtr: u32,
    /// The first millisecond that no step has told of.
    next: u64,
    /// The condition in the millisecond before.
    condition: Cond,
}

impl Model for Monitor {
    ghost use Rattle.input_monitor.specs.Monitored.{Monitored, monitored};
    ghost use Rattle.input_monitor.specs.private.Monitored.{IsKept};

    ghost Value = { Monitored };

    ghost view = { monitored };

    ghost invariant = { IsKept };
}

impl Monitor {
    /// A monitor of an input with a hold-off time of 300 to 1800 milliseconds, and a
    /// wait-to-restore time of 0 to 720,000 milliseconds.
    ///
    /// After G.781, hold-off time and wait-to-restore time.
    pub fn new(holdoff: u32, wtr: u32) -> Monitor
        requires not_short { LEAST_HOLDOFF ≤ holdoff }
        requires not_long { holdoff ≤ GREATEST_HOLDOFF }
        requires minutes { wtr ≤ GREATEST_WTR }
        ensures holdoff { result.timers.holdoff ≡ holdoff }
        ensures wtr { result.timers.wtr ≡ wtr }
        ensures next { result.next ≡ 0 }
        ensures good { result.condition ≡ Cond.Good }
        ensures due { result.due ≡ None }
        ensures stands { StandsFor result [] }
    {
        Monitor {
            holdoff,
            wtr,
            next: 0,
            condition: Cond::Good,
        }
    }

    /// The same monitor once more. This project's own.
    pub fn copy(&self) -> Monitor
        ensures { result ≡ self.now }
    {
        Monitor {
            holdoff: self.holdoff,
            wtr: self.wtr,
            next: self.next,
            condition: self.condition,
        }
    }

    /// Tells that the input is up or down at the end of a millisecond, and whether wait-to-restore
    /// was cleared for it in that millisecond.
    ///
    /// A step is after the last one, at `due` at the latest, and at most at 86,400,000. Between two
    /// steps the signal was as at the earlier one, and before the first the input was up.
    /// After G.781, hold-off time, wait-to-restore time, and clearing the latter.
    pub fn step(&mut self, now: u64, up: bool, clear_wtr: bool)
        requires later { self.old.next ≤ now }
        requires in_time { IfSome self.old.due (λ due. now ≤ due) }
        requires in_range { now ≤ LAST_MILLISECOND }
        ensures next { self.new.next ≡ now + 1 }
        ensures kept { self.new.timers ≡ self.old.timers }
        ensures stands { (past : List Signal) → StandsFor self.old past →
            StandsFor self.new (record { up = up; clear = clear_wtr } ∷ continued now past) }
        ensures up { up_of self.new.condition ≡ up }
    {
        self.condition = self.next_condition(now, up, clear_wtr);
        self.next = now + 1;
    }

    /// The condition at the last step, and what was left then of a running time.
    ///
    /// Until `due` the input stays in this kind of condition, if nothing happens.
    /// After G.781, signal fail, hold-off and wait-to-restore.
    #[tactic(auto, using(crate::proofs::Steps::same_kind_until))]
    pub fn condition(&self) -> Cond
        ensures value { result ≡ self.now.condition }
        ensures last { (past : List Signal) → StandsFor self.now past →
            result ≡ condition_at self.now.timers past }
        ensures kind { (past : List Signal) (n : ℕ) → StandsFor self.now past →
            length past ≤ n → IfSome self.now.due (λ due. n ≤ due) →
            IsSameKind result (condition_at self.now.timers (continued n past)) }
    {
        self.condition
    }

    /// The condition in the millisecond before `next`, where nothing has happened since the last
    /// step: of a running time so much less is left.
    ///
    /// `next` is at `due` at the latest.
    /// After G.781, signal fail, hold-off and wait-to-restore.
    pub fn condition_before(&self, next: u64) -> Cond
        requires later { self.now.next ≤ next }
        requires in_time { IfSome self.now.due (λ due. next ≤ due) }
        ensures value { result ≡ later_by (next - self.now.next) self.now.condition }
        ensures condition { (past : List Signal) → StandsFor self.now past →
            result ≡ condition_at self.now.timers (continued next past) }
    {
        let passed = next - self.next;
        match self.condition {
            Cond::HoldOff(left) => Cond::HoldOff(left - passed as u32),
            Cond::Restoring(left) => Cond::Restoring(left - passed as u32),
            Cond::Good => Cond::Good,
            Cond::Failed => Cond::Failed,
        }
    }

    /// Whether the input is up, as told at the last step.
    ///
    /// After G.781, signal fail.
    pub fn up(&self) -> bool
        ensures value { result ≡ up_of self.now.condition }
        ensures up { (past : List Signal) → StandsFor self.now past → result ≡ is_up past }
    {
        matches!(self.condition, Cond::Good | Cond::Restoring(_))
    }

    /// Whether the input is failed: from the last step up to but not at `due`, if nothing happens.
    ///
    /// After G.781, signal fail after hold-off, until wait-to-restore has passed.
    pub fn failed(&self) -> bool
        ensures value { result ≡ self.now.failed }
        ensures failed { (past : List Signal) (n : ℕ) → StandsFor self.now past →
            length past ≤ n → IfSome self.now.due (λ due. n ≤ due) →
            result ≡ failed_at self.now.timers (continued n past) }
    {
        matches!(self.condition, Cond::Failed | Cond::Restoring(_))
    }

    /// The first later millisecond at which `failed` changes, if nothing happens.
    ///
    /// `None` exactly where the condition is good or failed, since no time runs then; else at most
    /// the longest time after the last step.
    /// After G.781, hold-off time and wait-to-restore time; the exact millisecond is this project's
    /// own.
    pub fn due(&self) -> Option<u64>
        ensures value { result ≡ self.now.due }
        ensures none { IsNone result ↔
            ((self.now.condition ≡ Cond.Good) ⊎ (self.now.condition ≡ Cond.Failed)) }
        ensures end { IsEnd self.now.next self.now.condition result }
        ensures soon { IfSome result (λ due. due < self.now.next + GREATEST_WTR) }
        ensures due { (past : List Signal) → StandsFor self.now past →
            IsDue self.now.timers past result }
    {
        match self.condition {
            Cond::HoldOff(left) | Cond::Restoring(left) => Some(self.next + u64::from(left) - 1),
            Cond::Good | Cond::Failed => None,
        }
    }

    /// The condition at the end of `now`, at which alone something is told.
    #[tactic(auto, using(crate::proofs::Steps::condition_step))]
    fn next_condition(&self, now: u64, up: bool, clear_wtr: bool) -> Cond
        requires later { self.now.next ≤ now }
        requires in_time { IfSome self.now.due (λ due. now ≤ due) }
        requires in_range { now ≤ LAST_MILLISECOND }
        ensures condition { (past : List Signal) → StandsFor self.now past →
            result ≡ condition_at self.now.timers
            (record { up = up; clear = clear_wtr } ∷ continued now past) }
        ensures running { IsRunning result }
        ensures at_most { IsAtMost GREATEST_WTR result }
        ensures up { up_of result ≡ up }
    {
        let passed = now + 1 - self.next;
        match (self.condition, up) {
            (Cond::Good | Cond::HoldOff(_), true) => Cond::Good,
            (Cond::Good, false) => Cond::HoldOff(self.holdoff),
            (Cond::HoldOff(left), false) if passed < u64::from(left) => {
                Cond::HoldOff(left - passed as u32)
            }
            (Cond::HoldOff(_) | Cond::Failed | Cond::Restoring(_), false) => Cond::Failed,
            (Cond::Failed, true) if !clear_wtr && 0 < self.wtr => Cond::Restoring(self.wtr),
            (Cond::Restoring(left), true) if !clear_wtr && passed < u64::from(left) => {
                Cond::Restoring(left - passed as u32)
            }
            (Cond::Failed | Cond::Restoring(_), true) => Cond::Good,
        }
    }
}
