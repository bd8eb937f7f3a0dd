//! A run of the element, one millisecond in which something happens after another.

ghost use Rattle.std.specs.Prelude.{◌≡◌, ◌≤◌, ◌<◌, ◌+◌, ◌%◌, ℕ, suc, true, false, nat_eq, List, [], All, length, None, Some, IfSome, OnOk};
ghost use Rattle.sync_text.specs.Each.{Each};
ghost use Rattle.sync_ql.specs.Messages.{second};
ghost use Rattle.sync_topo.specs.Sizes.{most_rows};
ghost use Rattle.sync_topo.specs.Lines.{line_count};
ghost use Rattle.node_file.specs.declared.row.NodeRow.{NodeRow};
ghost use Rattle.node_file.specs.NodeRow.{IsRowOf};
ghost use Rattle.node_replay.specs.private.Keeping.{heard_of};
ghost use Rattle.node_replay.specs.Running.{RunStands, RunHolds};
ghost use Rattle.node_replay.specs.private.Running.{IsRun, AreHere, AreAway};
ghost use Rattle.node_replay.specs.private.Turning.{IsWake, IsTaken, IsWritten};

use crate::frames::{Sent, frames_of, put_frames};
use crate::inputs::{InputNow, loss_of, note_inputs};
use crate::lines_out::{LineOut, note_lines_out};
use crate::shown::{InputAndLevel, shown_of};
use crate::told::tell_all;
use net_words::step_alone;
use node_file::NodeRow;
use std::alloc::Global;
use sync_element::Element;
use sync_ql::limits::{LAST_MILLISECOND, SECOND};
use sync_ql::rules::InputEvent;
use sync_text::{NoMemory, Rows, Text};
use sync_topo::Plan;

/// The element with its inputs and the lines out of it, and the frames that it sent so far.
#[derive(Debug, Drop)]
pub(crate) struct NodeRun {
    pub(crate) element: Element,
    pub(crate) shown: InputAndLevel,
    pub(crate) inputs: Vec<InputNow>,
    pub(crate) lines_out: Vec<LineOut>,
    /// What the element was told last, which keeps its room.
    pub(crate) told: Rows<InputEvent>,
    /// The first millisecond that isn't made.
    pub(crate) next: u64,
    /// Up to this millisecond nothing changes, if no row comes.
    pub(crate) wake: u64,
    pub(crate) text: Text,
    pub(crate) rows: u64,
    /// The last millisecond up to which all rows fit, where those of the next don't.
    pub(crate) stopped: Option<u64>,
}

/// The earlier of two times.
fn earlier(due: Option<u64>, until: u64) -> u64
    ensures up_to { result ≤ until }
    ensures until_due { IfSome due (λ due. result ≤ due) }
    ensures from { (n : ℕ) → n ≤ until → IfSome due (λ due. n ≤ due) → n ≤ result }
{
    match due {
        Some(due) if due < until => due,
        _ => until,
    }
}

/// The first later millisecond in which a level that is heard is lost, or this one if it is earlier.
fn first_loss(inputs: &[InputNow], now: u64, until: u64) -> u64
    requires in_range { now ≤ LAST_MILLISECOND }
    requires until { now < until }
    ensures up_to { result ≤ until }
    ensures later { now < result }
    ensures heard { (m : ℕ) → now ≤ m → m < result →
        All (λ input. heard_of input.last m ≡ heard_of input.last now) inputs.now }
{
    let mut first = until;
    for input in inputs {
        first = earlier(loss_of(input.last, now), first);
    }
    first
}

/// The next millisecond that a second divides.
fn next_second(now: u64) -> u64
    requires in_range { now ≤ LAST_MILLISECOND }
    ensures later { now < result }
    ensures seconds { (m : ℕ) → now < m → m < result → nat_eq (m % second) 0 ≡ false }
{
    now + (SECOND - now % SECOND)
}

/// When something changes next, if no row comes.
fn next_wake(element: &Element, inputs: &[InputNow], now: u64) -> u64
    requires in_range { now ≤ LAST_MILLISECOND }
    requires later { IfSome element.now.due (λ due. now < due) }
    ensures { IsWake now element.now.due inputs.now result }
{
    let second = next_second(now);
    first_loss(inputs, now, earlier(element.due(), second))
}

impl NodeRun {
    /// Takes in the rows of the next millisecond, and lets the element make its step.
    fn take_rows(&mut self, plan: &Plan, element: u32, here: &[NodeRow]) -> Result<(), NoMemory>
        requires within { element < length plan.now.elements }
        requires run { IsRun plan.now element self.old }
        requires in_range { self.old.next ≤ LAST_MILLISECOND }
        requires here { Each (IsRowOf plan.now element) here.now }
        ensures { OnOk result (IsTaken plan.now element here.now self.old self.new) }
    {
        let now = self.next;
        note_inputs(self.inputs.as_mut_slice(), here, now);
        let inputs = self.inputs.as_slice();
        tell_all(&mut self.told, plan.inputs(element), element, here, inputs)?;
        step_alone(&mut self.element, now, self.told.as_slice());
        let shown = shown_of(plan, element, &self.element);
        note_lines_out(plan, self.lines_out.as_mut_slice(), here, shown);
        self.shown = shown;
        self.wake = next_wake(&self.element, self.inputs.as_slice(), now);
        self.next = now + 1;
        Ok(())
    }

    /// Makes the next millisecond, in which these rows stand.
    fn turn(
        &mut self,
        alloc: Global,
        plan: &Plan,
        element: u32,
        here: &[NodeRow],
    ) -> Result<(), NoMemory>
        requires within { element < length plan.now.elements }
        requires run { IsRun plan.now element self.old }
        requires going { self.old.stopped ≡ None }
        requires in_range { self.old.next ≤ LAST_MILLISECOND }
        requires here { Each (IsRowOf plan.now element) here.now }
        ensures run { OnOk result (IsRun plan.now element self.new) }
        ensures next { OnOk result (self.new.next ≡ self.old.next + 1) }
        ensures holds { OnOk result ((rows : List NodeRow) (until : ℕ) →
            AreHere plan.now element self.old.next here.now rows → self.old.next ≤ until →
            RunStands plan.now rows element self.old.next self.old →
            RunHolds plan.now rows element until (suc self.old.next) self.new self.new.stopped) }
    {
        let now = self.next;
        // The frames of one millisecond always fit.
        let _most = plan.most_rows();
        self.take_rows(plan, element, here)?;
        let frames = frames_of(alloc, self.lines_out.as_slice(), now)?;
        self.send(alloc, plan, element, now, frames.as_slice())?;
        Ok(())
    }

    /// Writes the frames of a millisecond, or stops before it where they are too many.
    fn send(
        &mut self,
        alloc: Global,
        plan: &Plan,
        element: u32,
        now: u64,
        frames: &[Sent],
    ) -> Result<(), NoMemory>
        requires rows { self.old.rows ≤ most_rows plan.now }
        requires lines { All (λ sent. sent.line.0 < line_count plan.now) frames.now }
        ensures { OnOk result (IsWritten plan.now element now frames.now self.old self.new) }
    {
        let most = plan.most_rows() as u64;
        let sent = frames.len() as u64;
        if most - self.rows < sent {
            self.stopped = Some(now.saturating_sub(1));
            return Ok(());
        }
        self.rows += sent;
        put_frames(alloc, &mut self.text, plan, element, now, frames)?;
        Ok(())
    }

    /// Passes over the milliseconds up to this one, or up to the first in which something changes.
    fn pass(&mut self, plan: &Plan, element: u32, to: u64)
        requires run { IsRun plan.now element self.old }
        requires quiet { self.old.next < self.old.wake }
        requires to { self.old.next < to }
        requires in_range { to ≤ LAST_MILLISECOND + 1 }
        ensures run { IsRun plan.now element self.new }
        ensures next { self.old.next < self.new.next }
        ensures up_to { self.new.next ≤ to }
        ensures stopped { self.new.stopped ≡ self.old.stopped }
        ensures stands { (rows : List NodeRow) → AreAway plan.now element self.old.next to rows →
            RunStands plan.now rows element self.old.next self.old →
            RunStands plan.now rows element self.new.next self.new }
    {
        self.next = earlier(Some(self.wake), to);
    }

    /// Passes over milliseconds in which nothing happens, or makes the next one; no rows come in them.
    fn go_on(&mut self, alloc: Global, plan: &Plan, element: u32, to: u64) -> Result<(), NoMemory>
        requires within { element < length plan.now.elements }
        requires run { IsRun plan.now element self.old }
        requires going { self.old.stopped ≡ None }
        requires to { self.old.next < to }
        requires in_range { to ≤ LAST_MILLISECOND + 1 }
        ensures run { OnOk result (IsRun plan.now element self.new) }
        ensures next { OnOk result (self.old.next < self.new.next) }
        ensures up_to { OnOk result (self.new.next ≤ to) }
        ensures holds { OnOk result ((rows : List NodeRow) (until : ℕ) →
            AreAway plan.now element self.old.next to rows → to ≤ until + 1 →
            RunStands plan.now rows element self.old.next self.old →
            RunHolds plan.now rows element until self.new.next self.new self.new.stopped) }
    {
        if self.next < self.wake {
            self.pass(plan, element, to);
            return Ok(());
        }
        self.turn(alloc, plan, element, &[])?;
        Ok(())
    }

    /// Makes all milliseconds before this one, in which no rows come.
    pub(crate) fn advance(
        &mut self,
        alloc: Global,
        plan: &Plan,
        element: u32,
        to: u64,
    ) -> Result<(), NoMemory>
        requires within { element < length plan.now.elements }
        requires run { IsRun plan.now element self.old }
        requires going { self.old.stopped ≡ None }
        requires to { self.old.next ≤ to }
        requires in_range { to ≤ LAST_MILLISECOND + 1 }
        ensures run { OnOk result (IsRun plan.now element self.new) }
        ensures up_to { OnOk result (self.new.next ≤ to) }
        ensures next { OnOk result (self.new.stopped ≡ None → self.new.next ≡ to) }
        ensures holds { OnOk result ((rows : List NodeRow) (until : ℕ) →
            AreAway plan.now element self.old.next to rows → to ≤ until + 1 →
            RunStands plan.now rows element self.old.next self.old →
            RunHolds plan.now rows element until to self.new self.new.stopped) }
    {
        while self.goes_on(to) {
            self.go_on(alloc, plan, element, to)?;
        }
        Ok(())
    }

    /// Whether there is a millisecond to be made before this one.
    fn goes_on(&self, to: u64) -> bool
        ensures before { result ≡ true → self.now.next < to }
        ensures going { result ≡ true → self.now.stopped ≡ None }
        ensures ended { result ≡ false → self.now.stopped ≡ None → to ≤ self.now.next }
    {
        self.next < to && self.is_going()
    }

    /// Whether all rows fit so far.
    pub(crate) fn is_going(&self) -> bool
        ensures going { result ≡ true → self.now.stopped ≡ None }
        ensures ended { result ≡ false → self.now.stopped ≡ None → ⊥ }
    {
        self.stopped.is_none()
    }

    /// Makes all milliseconds up to and with this one, in which alone these rows come.
    pub(crate) fn make(
        &mut self,
        alloc: Global,
        plan: &Plan,
        element: u32,
        at: u64,
        here: &[NodeRow],
    ) -> Result<(), NoMemory>
        requires within { element < length plan.now.elements }
        requires run { IsRun plan.now element self.old }
        requires going { self.old.stopped ≡ None }
        requires at { self.old.next ≤ at }
        requires in_range { at ≤ LAST_MILLISECOND }
        requires here { Each (IsRowOf plan.now element) here.now }
        ensures run { OnOk result (IsRun plan.now element self.new) }
        ensures up_to { OnOk result (self.new.next ≤ at + 1) }
        ensures next { OnOk result (self.new.stopped ≡ None → self.new.next ≡ at + 1) }
        ensures holds { OnOk result ((rows : List NodeRow) (until : ℕ) →
            AreAway plan.now element self.old.next at rows →
            AreHere plan.now element at here.now rows → at ≤ until →
            RunStands plan.now rows element self.old.next self.old →
            RunHolds plan.now rows element until (suc at) self.new self.new.stopped) }
    {
        self.advance(alloc, plan, element, at)?;
        if !self.is_going() {
            return Ok(());
        }
        self.turn(alloc, plan, element, here)?;
        Ok(())
    }
}
