//! One element of a plan, replayed.

ghost use Rattle.std.specs.Prelude.{◌≡◌, ◌≤◌, ◌<◌, ◌++◌, ◌∷◌, [], true, false, List, length, IfOk, OnOk, OnErr};
ghost use Rattle.node_file.specs.declared.row.NodeRow.{NodeRow};
ghost use Rattle.node_file.specs.NodeRow.{IsRowOf};
ghost use Rattle.node_replay.specs.Rows.{IsRowList};
ghost use Rattle.node_replay.specs.ReplayState.{StandsFor};
ghost use Rattle.node_replay.specs.Replayed.{IsReplayed};

use crate::parts::{Collected, new_parts};
use crate::replayed::Replayed;
use node_file::NodeRow;
use std::alloc::Global;
use std::marker::Model;
use sync_ql::limits::LAST_MILLISECOND;
use sync_text::NoMemory;
use sync_topo::Plan;

/// One element of a plan, which takes what it receives, a row after another, and gives the text of the
/// frames that the rules have it send.
///
/// It keeps no list of the rows that it took. This project's own.
#[derive(Debug, Drop)]
pub struct Replay<'a> {
    alloc: Global,
    plan: &'a Plan,
    parts: Collected,
    /// Whether it is out of memory, after which nothing else is said.
    spent: bool,
}

impl<'a> Model for Replay<'a> {
    ghost use Rattle.node_replay.specs.ReplayState.{ReplayState};

    ghost Value = { ReplayState };

    ghost use Rattle.node_replay.specs.ReplayKept.{replay_state};
    ghost use Rattle.node_replay.specs.private.ReplayKept.{IsKept};

    ghost view = { replay_state };

    ghost invariant = { IsKept };
}

impl<'a> Replay<'a> {
    /// An element, by its number, up to and with a millisecond, at most 86,400,000.
    ///
    /// It takes memory by the inputs of the element and the lines out of it. This project's own.
    pub fn new(
        alloc: Global,
        plan: &'a Plan,
        element: u32,
        until: u64,
    ) -> Result<Replay<'a>, NoMemory>
        requires element { element < length plan.now.elements }
        requires in_range { until ≤ LAST_MILLISECOND }
        ensures plan { IfOk result (λ replay. replay.plan ≡ plan.now) }
        ensures element { IfOk result (λ replay. replay.element ≡ element) }
        ensures until { IfOk result (λ replay. replay.until ≡ until) }
        ensures live { IfOk result (λ replay. replay.spent ≡ false) }
        ensures stands { IfOk result (λ replay. StandsFor replay []) }
    {
        let parts = new_parts(alloc, plan, element, until)?;
        Ok(Replay {
            alloc,
            plan,
            parts,
            spent: false,
        })
    }

    /// Takes a row of the element. Rows come in order of time; those after the end have no effect.
    ///
    /// When out of memory, it is spent. This project's own.
    pub fn take(&mut self, row: NodeRow) -> Result<(), NoMemory>
        requires live { self.old.spent ≡ false }
        requires row { IsRowOf self.old.plan self.old.element row }
        ensures plan { self.new.plan ≡ self.old.plan }
        ensures element { self.new.element ≡ self.old.element }
        ensures until { self.new.until ≡ self.old.until }
        ensures live { OnOk result (self.new.spent ≡ false) }
        ensures spent { OnErr result (self.new.spent ≡ true) }
        ensures stands { OnOk result ((rows : List NodeRow) → StandsFor self.old rows →
            IsRowList self.old.plan self.old.element (rows ++ row ∷ []) →
            StandsFor self.new (rows ++ row ∷ [])) }
    {
        self.spent = true;
        self.parts.take(self.alloc, self.plan, row)?;
        self.spent = false;
        Ok(())
    }

    /// Whether it is out of memory. This project's own.
    pub fn spent(&self) -> bool
        ensures { result ≡ self.now.spent }
    {
        self.spent
    }

    /// The text of all frames that the element sends, and where it ends: before the end that was asked for
    /// exactly where there would be more rows than the plan may have, 200,000 or 10,000,000 where it is
    /// large.
    ///
    /// The frames are after G.8264; the rows are this project's own.
    pub fn finish(self) -> Result<Replayed, NoMemory>
        requires live { self.spent ≡ false }
        ensures replayed { (rows : List NodeRow) → StandsFor self.entry rows →
            IfOk result (IsReplayed self.entry.plan self.entry.element self.entry.until rows) }
    {
        let replay = self;
        replay.parts.finish(replay.alloc, replay.plan)
    }
}
