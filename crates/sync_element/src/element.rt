ghost use Rattle.std.specs.Prelude.{◌≡◌, ◌≤◌, ◌<◌, ◌+◌, ◌-◌, ◌*◌, ◌∷◌, [], ℕ, List, All, IfSome, IfOk, IsNone, None, length, if◌then◌else◌, nat_eq, ◌↔◌};
ghost use Rattle.sync_ql.specs.Condition.{condition_at, IsSameKind};
ghost use Rattle.sync_ql.specs.Switches.{is_locked};
ghost use Rattle.sync_ql.specs.Moment.{Moment, signals_of, level_now, switches_at, selection_at};
ghost use Rattle.sync_ql.specs.Told.{moment_after, moments_until, FitsElement, IsOfOption};
ghost use Rattle.sync_ql.specs.Output.{clock_level_at, sent_back_at, mode_at, switched_at, state_at, mode_of, state_of};
ghost use Rattle.sync_element.specs.Configured.{settings_of};
ghost use Rattle.sync_element.specs.StandsFor.{StandsFor};
ghost use Rattle.sync_ql.specs.Quiet.{IsElementDue};
ghost use Rattle.input_monitor.specs.Ending.{later_by};
ghost use Rattle.sync_element.specs.Due.{IsLastPlusLeast, NoneEnds};
ghost use Rattle.sync_element.specs.ElementState.{inputs_of, IsInTime};

use crate::config::Config;
use crate::inputs::{Inputs, first_due, tell_all};
use crate::renewing::{renew_due, renew_told};
use crate::selection::{
    evaluate, level_back, level_of, mode_of, state_of, steps_after, was_ever_locked,
};
use crate::starting::new_inputs;
use operator_cmds::Cmds;
use std::alloc::Global;
use std::marker::Model;
use std::sync::ledger::Ledger;
use sync_ql::Level;
use sync_ql::limits::{
    GREATEST_HOLDOFF, GREATEST_WTR, LAST_MILLISECOND, LEAST_HOLDOFF, MOST_INPUTS,
};
use sync_ql::rules::{ClockState, Cond, InputEvent, Mode};
use sync_text::{NoMemory, Steps};

/// One network element: it takes one of its inputs, or none, and has a level by it.
///
/// Inputs are named by their place, from 0, and times are milliseconds from 0. Before its first
/// step every input is up, good, and of its first level, and no input is taken.
/// After G.781, selection, and hold-off and wait-to-restore times; the exact millisecond is this
/// project's own.
#[derive(Debug)]
pub struct Element {
    config: Config,
    inputs: Inputs,
    commands: Cmds,
    selected: Option<u32>,
    /// Whether an input was taken in any millisecond.
    was_locked: bool,
    /// The first millisecond that no step has told of.
    next: u64,
    due: Option<u64>,
    later_steps: u64,
}

// Written out, so that a way out of a function drops the whole in one step and not field by field.
impl Drop for Element {
    fn drop(self) {
        let Element {
            config,
            inputs,
            commands,
            selected: _,
            was_locked: _,
            next: _,
            due: _,
            later_steps: _,
        } = self;
        drop(config);
        drop(inputs);
        drop(commands);
    }
}

impl Model for Element {
    ghost use Rattle.sync_element.specs.ElementState.{ElementState};

    ghost Value = { ElementState };

    ghost use Rattle.sync_element.specs.Whole.{element_state};
    ghost use Rattle.sync_element.specs.private.Whole.{IsKept};

    ghost view = { element_state };

    ghost invariant = { IsKept };
}

impl Element {
    /// An element that was told nothing.
    ///
    /// Its times and priority numbers are in range, it has at most 64 inputs, and all levels are of
    /// one network option.
    /// After G.781, hold-off time, wait-to-restore time, priority and quality level.
    pub fn new(alloc: Global, config: Config) -> Result<Element, NoMemory>
        requires not_short { LEAST_HOLDOFF ≤ config.holdoff }
        requires not_long { config.holdoff ≤ GREATEST_HOLDOFF }
        requires minutes { config.wtr ≤ GREATEST_WTR }
        requires few { length config.inputs ≤ MOST_INPUTS }
        requires priorities { All (λ input. 1 ≤ input.priority) config.inputs }
        requires floor { IsOfOption config.own.option config.floor }
        requires first { All (λ input. IsOfOption config.own.option input.first) config.inputs }
        ensures settings { IfOk result (λ e. e.settings ≡ settings_of config) }
        ensures next { IfOk result (λ e. e.next ≡ 0) }
        ensures due { IfOk result (λ e. e.due ≡ None) }
        ensures later_steps { IfOk result (λ e. e.later_steps ≡ 0) }
        ensures stands { IfOk result (λ e. StandsFor e []) }
    {
        let commands = Cmds::new(config.inputs.as_slice().len() as u32);
        let inputs = new_inputs(alloc, &config)?;
        Ok(Element {
            config,
            inputs,
            commands,
            selected: None,
            was_locked: false,
            next: 0,
            due: None,
            later_steps: 0,
        })
    }

    /// The same element once more, as it is after its last step. It takes memory by the number of
    /// inputs.
    ///
    /// This project's own.
    pub fn try_clone(&self, alloc: Global) -> Result<Element, NoMemory>
        ensures { IfOk result (λ e. e ≡ self.now) }
    {
        let config = self.config.try_clone(alloc)?;
        let inputs = self.inputs.try_clone(alloc)?;
        Ok(Element {
            config,
            inputs,
            commands: self.commands.copy(),
            selected: self.selected,
            was_locked: self.was_locked,
            next: self.next,
            due: self.due,
            later_steps: self.later_steps,
        })
    }

    /// Tells what happens in a millisecond, and looks once at its end at which input is taken.
    ///
    /// The first step is at 0; a later one is after the last, at `due` at the latest, and at most at
    /// 86,400,000. Between two steps nothing is told. Commands apply in the order of the list; of
    /// the signals of one input the last counts, and of its levels too. A step takes no memory, and
    /// is one step of the count.
    /// After G.781, selection and external commands.
    pub fn step<L: Ledger>(&mut self, now: u64, told: &[InputEvent], steps: &mut Steps<L>)
        requires in_time { IsInTime self.old now }
        requires in_range { now ≤ LAST_MILLISECOND }
        requires fits { All (FitsElement self.old.settings) told.now }
        ensures next { self.new.next ≡ now + 1 }
        ensures kept { self.new.settings ≡ self.old.settings }
        ensures stands { (past : List Moment) → StandsFor self.old past →
            StandsFor self.new
            (moment_after self.old.settings (moments_until self.old.settings now past) told.now
            ∷ moments_until self.old.settings now past) }
        ensures due_later { IfSome self.new.due (λ due. now < due) }
        ensures due_soon { IfSome self.new.due (λ due. due ≤ now + GREATEST_WTR) }
        ensures ticks { steps.new ≡ steps.old + 1 }
        ensures counts { self.new.later_steps ≡
            (if nat_eq self.old.next 0 then 0 else self.old.later_steps + 1) }
    {
        steps.tick();
        self.advance(now, told);
    }

    /// The input that is taken, by its place: from the last step up to but not at `due`, if nothing
    /// is told.
    ///
    /// `None` exactly where no input is taken.
    /// After G.781, selected input.
    pub fn selected(&self) -> Option<u32>
        ensures place { IfSome result (λ i. i < inputs_of self.now) }
        ensures selected { (past : List Moment) (n : ℕ) → StandsFor self.now past →
            IsInTime self.now n →
            result ≡ selection_at self.now.settings (moments_until self.now.settings n past) }
    {
        self.selected
    }

    /// The element's level: that of the input that is taken, or its own clock's without one; from
    /// the last step up to but not at `due`, if nothing is told.
    ///
    /// After G.781, quality level of a clock.
    pub fn level(&self) -> Level
        ensures option { result.option ≡ self.now.settings.own.option }
        ensures level { (past : List Moment) (n : ℕ) → StandsFor self.now past →
            IsInTime self.now n →
            result ≡ clock_level_at self.now.settings (moments_until self.now.settings n past) }
    {
        level_of(self.inputs.table.inputs(), self.selected, self.config.own)
    }

    /// How the input is chosen, as from the last step up to but not at `due`, if nothing is told.
    ///
    /// After G.781, forced, manual and automatic selection.
    pub fn mode(&self) -> Mode
        ensures mode { (past : List Moment) (n : ℕ) → StandsFor self.now past →
            IsInTime self.now n →
            result ≡ mode_at self.now.settings (moments_until self.now.settings n past) }
    {
        mode_of(self.commands.forced(), self.commands.manual())
    }

    /// Whether an input is locked out, as from the last step up to but not at `due`, if nothing is told.
    ///
    /// After G.781, lockout.
    pub fn locked(&self, input: u32) -> bool
        requires place { input < inputs_of self.now }
        ensures locked { (past : List Moment) (n : ℕ) → StandsFor self.now past →
            IsInTime self.now n →
            result ≡ is_locked (switches_at self.now.settings (moments_until self.now.settings n past)) input }
    {
        self.commands.locked(input)
    }

    /// The input that is switched to, the forced one or else the manual one, as from the last step up to
    /// but not at `due`, if nothing is told.
    ///
    /// After G.781, forced and manual switch.
    pub fn switched(&self) -> Option<u32>
        ensures place { IfSome result (λ i. i < inputs_of self.now) }
        ensures switched { (past : List Moment) (n : ℕ) → StandsFor self.now past →
            IsInTime self.now n →
            result ≡ switched_at self.now.settings (moments_until self.now.settings n past) }
    {
        self.commands.forced().or(self.commands.manual())
    }

    /// The level of an input, as it is heard or its source has it, as from the last step up to but not at
    /// `due`, if nothing is told. Before the first step it is the one that the input is set to.
    ///
    /// After G.781, quality level of an input.
    pub fn level_of(&self, input: u32) -> Option<Level>
        requires place { input < inputs_of self.now }
        ensures option { IsOfOption self.now.settings.own.option result }
        ensures level { (past : List Moment) (n : ℕ) → StandsFor self.now past →
            IsInTime self.now n → 0 < n →
            result ≡ level_now input (moments_until self.now.settings n past) }
    {
        self.inputs.watched.as_slice()[input as usize].level
    }

    /// The level below which no input is taken, where there is one.
    ///
    /// This project's own.
    pub fn floor(&self) -> Option<Level>
        ensures value { result ≡ self.now.settings.floor }
        ensures option { IsOfOption self.now.settings.own.option result }
    {
        self.config.floor
    }

    /// What the element's clock follows, as from the last step up to but not at `due`, if nothing is
    /// told.
    ///
    /// After G.781 and G.810, locked, holdover and free-running mode.
    pub fn state(&self) -> ClockState
        ensures state { (past : List Moment) (n : ℕ) → StandsFor self.now past →
            IsInTime self.now n →
            result ≡ state_at self.now.settings (moments_until self.now.settings n past) }
    {
        state_of(self.selected, self.was_locked)
    }

    /// The level that is sent back on an input: do-not-use on each input of the bundle from which the
    /// timing comes, and the element's level elsewhere; from the last step up to but not at `due`, if
    /// nothing is told.
    ///
    /// After G.781, do not use in the reverse direction of the selected input; bundles are this
    /// project's own.
    pub fn out_to(&self, input: u32) -> Level
        requires place { input < inputs_of self.now }
        ensures option { result.option ≡ self.now.settings.own.option }
        ensures sent { (past : List Moment) (n : ℕ) → StandsFor self.now past →
            IsInTime self.now n →
            result ≡ sent_back_at self.now.settings (moments_until self.now.settings n past) input }
    {
        let level = level_of(self.inputs.table.inputs(), self.selected, self.config.own);
        level_back(&self.config, self.selected, input, level)
    }

    /// The condition of an input at the last step, and what was left then of a running time.
    ///
    /// From there up to but not at `due` it stays in this kind of condition, if nothing is told, and
    /// of a running time that much less is left.
    /// After G.781, signal fail, hold-off and wait-to-restore.
    pub fn cond(&self, input: u32) -> Cond
        requires place { input < inputs_of self.now }
        ensures last { (past : List Moment) → StandsFor self.now past →
            result ≡ condition_at self.now.settings.timers (signals_of input past) }
        ensures kind { (past : List Moment) (n : ℕ) → StandsFor self.now past →
            IsInTime self.now n →
            IsSameKind result (condition_at self.now.settings.timers
            (signals_of input (moments_until self.now.settings n past))) }
        ensures left { (past : List Moment) (n : ℕ) → StandsFor self.now past →
            IsInTime self.now n →
            condition_at self.now.settings.timers
            (signals_of input (moments_until self.now.settings n past))
            ≡ later_by (n - self.now.next) result }
    {
        let watched = &self.inputs.watched.as_slice()[input as usize];
        watched.monitor.condition_before(self.next)
    }

    /// The first later millisecond at which a step has to be made: that of the last step plus the
    /// least that was left of a condition.
    ///
    /// It is the first in which an input is failed where it wasn't, or isn't where it was, if
    /// nothing is told.
    /// `None` exactly where every condition is good or failed. Else it is after the last step, and
    /// at most the longest wait-to-restore time after it.
    /// After G.781, hold-off time and wait-to-restore time; the exact millisecond is this project's
    /// own.
    pub fn due(&self) -> Option<u64>
        ensures value { result ≡ self.now.due }
        ensures later { IfSome result (λ due. self.now.next ≤ due) }
        ensures soon { IfSome result (λ due. due < self.now.next + GREATEST_WTR) }
        ensures in_range { IfSome result (λ due. due ≤ LAST_MILLISECOND + GREATEST_WTR) }
        ensures none { (past : List Moment) → StandsFor self.now past →
            IsNone result ↔ NoneEnds self.now.settings past }
        ensures least { (past : List Moment) → StandsFor self.now past →
            IfSome result (IsLastPlusLeast self.now.settings past) }
        ensures changes { (past : List Moment) → StandsFor self.now past →
            IsElementDue self.now.settings past result }
    {
        self.due
    }

    /// The number of steps after the first, and 0 before any.
    ///
    /// This project's own.
    pub fn later_steps(&self) -> u64
        ensures { result ≡ self.now.later_steps }
    {
        self.later_steps
    }

    /// A step, but for the count of the caller.
    fn advance(&mut self, now: u64, told: &[InputEvent])
        requires in_time { IsInTime self.old now }
        requires in_range { now ≤ LAST_MILLISECOND }
        requires fits { All (FitsElement self.old.settings) told.now }
        ensures next { self.new.next ≡ now + 1 }
        ensures kept { self.new.settings ≡ self.old.settings }
        ensures stands { (past : List Moment) → StandsFor self.old past →
            StandsFor self.new
            (moment_after self.old.settings (moments_until self.old.settings now past) told.now
            ∷ moments_until self.old.settings now past) }
        ensures due_later { IfSome self.new.due (λ due. now < due) }
        ensures due_soon { IfSome self.new.due (λ due. due ≤ now + GREATEST_WTR) }
        ensures counts { self.new.later_steps ≡
            (if nat_eq self.old.next 0 then 0 else self.old.later_steps + 1) }
    {
        tell_all(self.inputs.watched.as_mut_slice(), &mut self.commands, told);
        renew_told(&mut self.inputs, told, now, &self.commands, &self.config);
        renew_due(&mut self.inputs, now, &self.commands, &self.config);
        self.due = first_due(&self.inputs);
        self.selected = evaluate(&self.inputs.table, &mut self.commands, self.selected);
        self.was_locked = was_ever_locked(self.selected, self.was_locked);
        self.later_steps = steps_after(self.next, self.later_steps);
        self.next = now + 1;
    }
}
