//! The network, as other crates see it.

ghost use Rattle.std.specs.Prelude.{◌≡◌, ◌≤◌, ◌<◌, ◌+◌, ◌-◌, ◌*◌, ℕ, true, false, nat_eq, if◌then◌else◌, List, [], All, IfOk, OnOk, IfSome, IsNone, OnErr, None, Some, length, slice_index_or};
ghost use Rattle.std.specs.List.{list_any};
ghost use Rattle.sync_topo.specs.declared.event.Event.{Event};
ghost use Rattle.sync_topo.specs.Events.{Fits};
ghost use Rattle.sync_topo.specs.Lines.{line_count, delay_of, IsNominated};
ghost use Rattle.sync_element.specs.ElementState.{ElementState};
ghost use Rattle.net_rules.specs.Signals.{signals_by, speaks_at};
ghost use Rattle.net_rules.specs.History.{settings_of, out_at};
ghost use Rattle.net_rules.specs.Activity.{TouchAlike, is_active, is_busy};
ghost use Rattle.net_rules.specs.Settled.{IsSettled};
ghost use Rattle.sync_ql.specs.Messages.{hearing_time};
ghost use Rattle.sync_net.specs.Kept.{line_signal, source_signal, heard_on};
ghost use Rattle.sync_net.specs.NetState.{line_in, NoneDueBefore, IsDueAt, IsInTime};
ghost use Rattle.sync_net.specs.Standing.{ElementStands, LineStands, StandsFor, NoneFrom};
ghost use Rattle.sync_net.specs.Evaluated.{IsContinued, AreAloneEvaluated, IsCalledFor, AreAloneCalled, AreAloneTold, AreFacing, HaveFaced};

use crate::copying::{share_parts, try_clone_parts};
use crate::parts::NetParts;
use crate::returning::return_parts;
use crate::starting::new_parts;
use crate::stepping::step_parts;
use link_model::Line;
use std::alloc::Global;
use std::marker::Model;
use std::sync::ledger::Ledger;
use sync_element::Element;
use sync_ql::limits::LAST_MILLISECOND;
use sync_text::{NoMemory, Steps};
use sync_topo::{Event, LineId, Plan};

/// A network: the elements and nominated lines of a plan, as they are after its last step.
///
/// After each step, and from there up to but not at [`Net::due`], it stands for its plan and all
/// events so far: each element and line is as the rules have it.
/// After G.781 and G.8264; the order within a millisecond is this project's own.
#[derive(Debug)]
pub struct Net<'a> {
    plan: &'a Plan,
    parts: NetParts<'a>,
    /// Whether a step was refused, after which nothing else of the network is said.
    spent: bool,
}

// Written out, so that a way out of a function drops the whole in one step and not field by field.
impl<'a> Drop for Net<'a> {
    fn drop(self) {
        let Net {
            plan: _,
            parts,
            spent: _,
        } = self;
        drop(parts);
    }
}

impl<'a> Model for Net<'a> {
    ghost use Rattle.sync_net.specs.NetState.{NetState};

    ghost Value = { NetState };

    ghost use Rattle.sync_net.specs.NetKept.{net_state};
    ghost use Rattle.sync_net.specs.private.NetKept.{IsKept};

    ghost view = { net_state };

    ghost invariant = { IsKept };
}

impl<'a> Net<'a> {
    /// A network that was told nothing.
    ///
    /// It stands for no milliseconds, whatever the events are. It takes memory by the number of
    /// elements, links and inputs of the plan.
    pub fn new(alloc: Global, plan: &'a Plan) -> Result<Net<'a>, NoMemory>
        ensures plan { IfOk result (λ net. net.plan ≡ plan.now) }
        ensures live { IfOk result (λ net. net.spent ≡ false) }
        ensures next { IfOk result (λ net. net.next ≡ 0) }
        ensures later_steps { IfOk result (λ net. net.later_steps ≡ 0) }
        ensures evaluated { IfOk result (λ net. net.evaluated ≡ []) }
        ensures called { IfOk result (λ net. net.called ≡ []) }
        ensures stands { IfOk result (λ net. (events : List Event) → StandsFor net events 0) }
    {
        let parts = new_parts(alloc, plan)?;
        Ok(Net {
            plan,
            parts,
            spent: false,
        })
    }

    /// The same network once more, as it is after its last step, over the same plan. It takes memory
    /// by the number of elements, links and inputs of the plan.
    ///
    /// This project's own.
    pub fn try_clone(&self, alloc: Global) -> Result<Net<'a>, NoMemory>
        ensures { IfOk result (λ net. net ≡ self.now) }
    {
        let parts = try_clone_parts(alloc, &self.parts)?;
        Ok(Net {
            plan: self.plan,
            parts,
            spent: self.spent,
        })
    }

    /// A network that goes on from this one, as it is after its last step, over the same plan.
    ///
    /// An element or a line is copied only where a step calls it, so that this takes less memory than
    /// a copy; until then the other network has those of this one. This project's own.
    pub fn share<'b>(&'b self, alloc: Global) -> Result<Net<'b>, NoMemory>
        ensures { IfOk result (λ net. net ≡ self.now) }
    {
        let parts = share_parts(alloc, &self.parts)?;
        Ok(Net {
            plan: self.plan,
            parts,
            spent: self.spent,
        })
    }

    /// Becomes the same as another network over the same plan, from which it differs in some elements,
    /// lines and sources alone: those that its steps since then evaluated, called, and were told of.
    ///
    /// It takes memory and time by these, and none by the size of the plan. `NoMemory` comes only when
    /// out of memory, and then the network is spent. This project's own.
    pub fn return_to(
        &mut self,
        alloc: Global,
        base: &Net<'_>,
        elements: &[u32],
        lines: &[u32],
        sources: &[u32],
    ) -> Result<(), NoMemory>
        requires live { self.old.spent ≡ false }
        requires base_live { base.now.spent ≡ false }
        requires plan { self.old.plan ≡ base.now.plan }
        requires elements_within { All (λ e. e < length base.now.plan.elements) elements.now }
        requires lines_within { All (λ l. l < line_count base.now.plan) lines.now }
        requires sources_within { All (λ s. s < length base.now.plan.sources) sources.now }
        requires elements_same { (e : ℕ) (other : ElementState) → e < length base.now.plan.elements →
            list_any (nat_eq e) elements.now ≡ false →
            slice_index_or self.old.elements e other ≡ slice_index_or base.now.elements e other }
        requires lines_same { (l : ℕ) → l < line_count base.now.plan →
            list_any (nat_eq l) lines.now ≡ false →
            line_in self.old.lines l ≡ line_in base.now.lines l }
        requires signals_same { (l : ℕ) → l < line_count base.now.plan →
            list_any (nat_eq l) lines.now ≡ false →
            line_signal self.old.kept l ≡ line_signal base.now.kept l }
        requires heards_same { (l : ℕ) → l < line_count base.now.plan →
            list_any (nat_eq l) lines.now ≡ false →
            heard_on self.old.kept l ≡ heard_on base.now.kept l }
        requires sources_same { (s : ℕ) → s < length base.now.plan.sources →
            list_any (nat_eq s) sources.now ≡ false →
            source_signal self.old.kept s ≡ source_signal base.now.kept s }
        ensures plan { self.new.plan ≡ self.old.plan }
        ensures returned { OnOk result (self.new ≡ base.now) }
        ensures spent { OnErr result (self.new.spent ≡ true) }
    {
        match return_parts(
            alloc,
            self.plan,
            &mut self.parts,
            &base.parts,
            elements,
            lines,
            sources,
        ) {
            Ok(()) => Ok(()),
            Err(NoMemory) => {
                self.spent = true;
                Err(NoMemory)
            }
        }
    }

    /// Tells the events of a millisecond, and makes it: the events come in, messages arrive,
    /// elements evaluate, and lines send.
    ///
    /// The first step is at 0; a later one is after the last, at `due` at the latest, and at most
    /// at 86,400,000. Between two steps nothing happens. The elements that are evaluated are active
    /// then, and each makes one step, which is one of the count; one that an event touches and tells
    /// nothing may be left out. A line is called only where an event switches it, it is due, or its
    /// sender is evaluated; the others are as they were. Of the events of one millisecond only the
    /// order in which they touch each element counts. Two elements that take their timing from each
    /// other afterwards have done so for less than five seconds and the delay of the line, and for less
    /// than the delay alone, where the line speaks all the while.
    /// `NoMemory` comes only when out of memory, and then the network is spent.
    /// After G.781, selection, and G.8264, ESMC messages.
    pub fn step<L: Ledger>(
        &mut self,
        now: u64,
        events: &[Event],
        steps: &mut Steps<L>,
    ) -> Result<(), NoMemory>
        requires live { self.old.spent ≡ false }
        requires in_time { IsInTime self.old now }
        requires in_range { now ≤ LAST_MILLISECOND }
        requires fit { All (Fits self.old.plan) events.now }
        requires here { All (λ event. event.at ≡ now) events.now }
        ensures plan { self.new.plan ≡ self.old.plan }
        ensures live { OnOk result (self.new.spent ≡ false) }
        ensures spent { OnErr result (self.new.spent ≡ true) }
        ensures next { OnOk result (self.new.next ≡ now + 1) }
        ensures later_steps { OnOk result (self.new.later_steps ≡
            (if nat_eq self.old.next 0 then 0 else self.old.later_steps + 1)) }
        ensures stands { OnOk result ((all : List Event) (n : ℕ) →
            IsContinued self.old.plan all n now events.now →
            StandsFor self.old all n → StandsFor self.new all (now + 1)) }
        ensures none_due { OnOk result (NoneDueBefore self.new (now + 1)) }
        ensures evaluated { OnOk result (AreAloneEvaluated self.old self.new) }
        ensures called { OnOk result (AreAloneCalled self.old self.new) }
        ensures called_only { OnOk result (All (IsCalledFor now events.now self.old self.new) self.new.called) }
        ensures told { OnOk result (AreAloneTold events.now self.old self.new) }
        ensures active { OnOk result ((all : List Event) (n : ℕ) →
            IsContinued self.old.plan all n now events.now → StandsFor self.old all n →
            All (λ element. is_active self.old.plan all element now ≡ true) self.new.evaluated) }
        ensures ticks { OnOk result (steps.new ≡ steps.old + length self.new.evaluated) }
        ensures ordered { OnOk result ((all others : List Event) (n : ℕ) →
            IsContinued self.old.plan all n now events.now → StandsFor self.old all n →
            TouchAlike self.old.plan all others → StandsFor self.new others (now + 1)) }
        ensures short { OnOk result ((all : List Event) (n line back from : ℕ) →
            IsContinued self.old.plan all n now events.now → StandsFor self.old all n →
            AreFacing self.new (now + 1) line back →
            HaveFaced self.old.plan all line back from now →
            now < from + (hearing_time + delay_of self.old.plan line)) }
        ensures short_speaking { OnOk result ((all : List Event) (n line back from : ℕ) →
            IsContinued self.old.plan all n now events.now → StandsFor self.old all n →
            AreFacing self.new (now + 1) line back →
            HaveFaced self.old.plan all line back from now →
            ((t : ℕ) → from ≤ t → t ≤ now → speaks_at (signals_by self.old.plan all) line t ≡ true) →
            now < from + delay_of self.old.plan line) }
    {
        match step_parts(self.plan, &mut self.parts, now, events, steps) {
            Ok(()) => Ok(()),
            Err(NoMemory) => {
                self.spent = true;
                Err(NoMemory)
            }
        }
    }

    /// Whether a step was refused.
    pub fn spent(&self) -> bool
        ensures { result ≡ self.now.spent }
    {
        self.spent
    }

    /// The plan.
    pub fn plan(&self) -> &Plan
        ensures { result.now ≡ self.now.plan }
    {
        self.plan
    }

    /// The millisecond of the last step.
    ///
    /// `None` exactly where there was no step.
    pub fn now(&self) -> Option<u64>
        ensures { result ≡ (if nat_eq self.now.next 0 then None else Some (self.now.next - 1)) }
    {
        if self.parts.next == 0 {
            return None;
        }
        Some(self.parts.next - 1)
    }

    /// The first later millisecond in which a step has to be made, if nothing is told.
    ///
    /// It is the least of the due times of its elements and nominated lines, and `None` exactly
    /// where none is due; then the millisecond of the last step is settled. Where no event stands
    /// from the last step up to it, something happens in it. This project's own.
    pub fn due(&self) -> Option<u64>
        requires live { self.now.spent ≡ false }
        ensures least { (n : ℕ) → IfSome result (λ due. n ≤ due) → NoneDueBefore self.now n }
        ensures some { IfSome result (IsDueAt self.now) }
        ensures later { IfSome result (λ due. self.now.next ≤ due) }
        ensures gap { (all : List Event) (m n : ℕ) → StandsFor self.now all m → m ≤ n →
            (self.now.next ≡ 0 → n ≡ 0) → NoneFrom m n all → IfSome result (λ due. n ≤ due) →
            StandsFor self.now all n }
        ensures busy { IfSome result (λ due. (all : List Event) (n : ℕ) → StandsFor self.now all n →
            0 < self.now.next → n ≤ due → NoneFrom n due all → is_busy self.now.plan all due ≡ true) }
        ensures settled { IsNone result → 0 < self.now.next → (all : List Event) →
            StandsFor self.now all self.now.next → IsSettled self.now.plan (signals_by self.now.plan all)
            (out_at self.now.plan (signals_by self.now.plan all)) (self.now.next - 1) }
    {
        self.parts.dues.first_time()
    }

    /// The number of steps after the first.
    pub fn later_steps(&self) -> u64
        ensures { result ≡ self.now.later_steps }
    {
        self.parts.later_steps
    }

    /// An element, by its number.
    pub fn element(&self, element: u32) -> &Element
        requires live { self.now.spent ≡ false }
        requires element { element < length self.now.plan.elements }
        ensures settings { result.now.settings ≡ settings_of self.now.plan element }
        ensures element { (other : ElementState) → result.now ≡ slice_index_or self.now.elements element other }
        ensures stands { (all : List Event) (n : ℕ) → StandsFor self.now all n →
            ElementStands self.now.plan (signals_by self.now.plan all)
            (out_at self.now.plan (signals_by self.now.plan all)) element n result.now }
    {
        self.parts.elements[element as usize].get()
    }

    /// A nominated line, by its number.
    pub fn line(&self, line: LineId) -> &Line
        requires live { self.now.spent ≡ false }
        requires nominated { IsNominated self.now.plan line.0 }
        ensures line { line_in self.now.lines line.0 ≡ Some result.now }
        ensures turn { result.now.turn ≤ 4 * self.now.next }
        ensures in_range { self.now.next ≤ LAST_MILLISECOND + 1 }
        ensures in_time { IfSome result.now.due (λ due. self.now.next ≤ due) }
        ensures stands { (all : List Event) (n : ℕ) → StandsFor self.now all n →
            LineStands self.now.plan (signals_by self.now.plan all)
            (out_at self.now.plan (signals_by self.now.plan all)) line.0 n result.now }
    {
        match &self.parts.lines[line.0 as usize] {
            Some(kept) => kept.get(),
            None => unreachable!(),
        }
    }

    /// The elements that the last step evaluated, in no order.
    pub fn evaluated(&self) -> &[u32]
        ensures { result.now ≡ self.now.evaluated }
    {
        self.parts.tellings.active.listed()
    }

    /// The lines that the last step called, in no order: all others are as they were before it.
    pub fn called(&self) -> &[u32]
        ensures { result.now ≡ self.now.called }
    {
        self.parts.called.listed()
    }
}
