//! A run, and the rows of the millisecond that is being collected.

ghost use Rattle.std.specs.Prelude.{◌≡◌, ◌≤◌, ◌<◌, ◌++◌, ◌∷◌, [], ℕ, suc, List, length, codes, None, IfOk, OnOk};
ghost use Rattle.std.specs.Fmt.{decimal};
ghost use Rattle.sync_topo.specs.Sizes.{most_rows};
ghost use Rattle.sync_topo.specs.Topology.{Topology};
ghost use Rattle.node_file.specs.declared.row.NodeRow.{NodeRow};
ghost use Rattle.node_file.specs.NodeRow.{IsRowOf};
ghost use Rattle.node_replay.specs.Rows.{IsRowList};
ghost use Rattle.node_replay.specs.Running.{RunHolds};
ghost use Rattle.node_replay.specs.Collecting.{StandsAt, IsAfter};
ghost use Rattle.node_replay.specs.private.Collecting.{IsWhole};
ghost use Rattle.node_replay.specs.Replayed.{IsReplayed};

use crate::replayed::{NodeEnd, Replayed};
use crate::running::NodeRun;
use crate::starting::new_run;
use node_file::NodeRow;
use std::alloc::Global;
use sync_ql::limits::LAST_MILLISECOND;
use sync_text::{NoMemory, Rows, Text};
use sync_topo::Plan;

/// The run of an element up to a millisecond, and the rows of the one that is being collected.
#[derive(Debug, Drop)]
pub(crate) struct Collected {
    pub(crate) element: u32,
    pub(crate) until: u64,
    pub(crate) run: NodeRun,
    /// The millisecond of the rows that were taken last, and these rows.
    pub(crate) at: u64,
    pub(crate) here: Rows<NodeRow>,
}

/// The parts for an element to which nothing happened.
pub(crate) fn new_parts(
    alloc: Global,
    plan: &Plan,
    element: u32,
    until: u64,
) -> Result<Collected, NoMemory>
    requires element { element < length plan.now.elements }
    requires until { until ≤ LAST_MILLISECOND }
    ensures element { IfOk result (λ parts. parts.element ≡ element) }
    ensures until { IfOk result (λ parts. parts.until ≡ until) }
    ensures whole { IfOk result (IsWhole plan.now) }
    ensures stands { IfOk result (λ parts. IsAfter plan.now parts []) }
{
    let run = new_run(alloc, plan, element)?;
    Ok(Collected {
        element,
        until,
        run,
        at: 0,
        here: Rows::new(alloc),
    })
}

impl Collected {
    /// Takes a row; one after the end has no effect.
    pub(crate) fn take(&mut self, alloc: Global, plan: &Plan, row: NodeRow) -> Result<(), NoMemory>
        requires whole { IsWhole plan.now self.old }
        requires row { IsRowOf plan.now self.old.element row }
        ensures element { self.new.element ≡ self.old.element }
        ensures until { self.new.until ≡ self.old.until }
        ensures whole { OnOk result (IsWhole plan.now self.new) }
        ensures stands { OnOk result ((rows : List NodeRow) → IsAfter plan.now self.old rows →
            IsRowList plan.now self.old.element (rows ++ row ∷ []) →
            IsAfter plan.now self.new (rows ++ row ∷ [])) }
    {
        if self.until < row.at {
            return Ok(());
        }
        if !self.run.is_going() {
            return Ok(());
        }
        self.come_to(alloc, plan, row.at)?;
        self.here.push(row)?;
        Ok(())
    }

    /// Makes all milliseconds before this one, if it is later than that of the rows that were taken.
    fn come_to(&mut self, alloc: Global, plan: &Plan, at: u64) -> Result<(), NoMemory>
        requires whole { IsWhole plan.now self.old }
        requires going { self.old.run.stopped ≡ None }
        requires at { at ≤ self.old.until }
        ensures element { self.new.element ≡ self.old.element }
        ensures until { self.new.until ≡ self.old.until }
        ensures whole { OnOk result (IsWhole plan.now self.new) }
        ensures at { OnOk result (self.old.at ≤ at → self.new.at ≡ at) }
        ensures stands { OnOk result ((rows : List NodeRow) → StandsAt plan.now self.old rows →
            StandsAt plan.now self.new rows) }
    {
        if at <= self.at {
            return Ok(());
        }
        self.run
            .make(alloc, plan, self.element, self.at, self.here.as_slice())?;
        self.here = Rows::new(alloc);
        self.at = at;
        Ok(())
    }

    /// Makes all milliseconds that are left.
    fn run_out(&mut self, alloc: Global, plan: &Plan) -> Result<(), NoMemory>
        requires whole { IsWhole plan.now self.old }
        ensures rows { OnOk result (self.new.run.rows ≤ most_rows plan.now) }
        ensures holds { OnOk result ((rows : List NodeRow) → IsAfter plan.now self.old rows →
            RunHolds plan.now rows self.old.element self.old.until (suc self.old.until)
            self.new.run self.new.run.stopped) }
    {
        if !self.run.is_going() {
            return Ok(());
        }
        self.run
            .make(alloc, plan, self.element, self.at, self.here.as_slice())?;
        if !self.run.is_going() {
            return Ok(());
        }
        self.run.advance(alloc, plan, self.element, self.until + 1)?;
        Ok(())
    }

    /// The text of all frames.
    pub(crate) fn finish(self, alloc: Global, plan: &Plan) -> Result<Replayed, NoMemory>
        requires whole { IsWhole plan.now self }
        ensures replayed { (rows : List NodeRow) → IsAfter plan.now self rows →
            IfOk result (IsReplayed plan.now self.element self.until rows) }
    {
        let mut parts = self;
        parts.run_out(alloc, plan)?;
        ended(parts.run)
    }
}

/// The text of a run that has come to its end.
fn ended(run: NodeRun) -> Result<Replayed, NoMemory>
    ensures { (plan : Topology) (rows : List NodeRow) (element until : ℕ) →
        run.rows ≤ most_rows plan →
        RunHolds plan rows element until (suc until) run run.stopped →
        IfOk result (IsReplayed plan element until rows) }
{
    let mut text = run.text;
    match run.stopped {
        Some(last) => {
            put_stop(&mut text, last)?;
            Ok(Replayed {
                text,
                end: NodeEnd::Stopped(last),
            })
        }
        None => Ok(Replayed {
            text,
            end: NodeEnd::Until,
        }),
    }
}

/// Puts the row that says that the frames end earlier.
fn put_stop(text: &mut Text, last: u64) -> Result<(), NoMemory>
    ensures { OnOk result (text.new ≡ text.old ++ codes "stopped," ++ decimal last ++ codes "\n") }
{
    text.put(b"stopped,")?;
    text.put_number(last)?;
    text.put(b"\n")
}
