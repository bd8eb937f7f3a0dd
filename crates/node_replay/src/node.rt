//! One element of a plan, replayed on the bytes of a file.

ghost use Rattle.std.specs.Prelude.{◌≡◌, ◌≤◌, ◌<◌, ◌+◌, ◌^◌, ◌++◌, ℕ, [], true, false, List, length, Err, IfOk, IfSome, OnOk, OnErr};
ghost use Rattle.sync_text.specs.Gives.{IfRefused};
ghost use Rattle.sync_topo.specs.WellFormed.{IsWellFormed};
ghost use Rattle.node_file.specs.NodeFile.{rows_of};
ghost use Rattle.node_file.specs.declared.row.NodeRow.{NodeRow};
ghost use Rattle.node_file.specs.NodeRow.{IsRowOf};
ghost use Rattle.node_file.specs.Cutting.{AreRefused, with_row};
ghost use Rattle.node_replay.specs.Rows.{IsRowList};
ghost use Rattle.node_replay.specs.ReplayState.{StandsFor};
ghost use Rattle.node_replay.specs.NodeState.{AreFed, WasFed};
ghost use Rattle.node_replay.specs.Sent.{IsSentText};
ghost use Rattle.node_replay.specs.OfNetwork.{IsNetworkText};

use crate::replayed::Replayed;
use crate::replaying::Replay;
use node_file::{NodeErr, NodeLines, NodeRow};
use std::alloc::Global;
use std::marker::Model;
use sync_ql::limits::LAST_MILLISECOND;
use sync_text::{NoAnswer, NoMemory};
use sync_topo::Plan;

/// How many bytes of a file are fed at once.
const PIECE: usize = 4096;

/// One element of a plan, which is fed the bytes of a file of what it received, in pieces of any size, and
/// gives the text of the frames that the rules have it send.
///
/// It keeps the line that has begun, and no list of rows. This project's own.
#[derive(Debug, Drop)]
pub struct Node<'a> {
    lines: NodeLines<'a>,
    replay: Replay<'a>,
    /// Whether the bytes were refused, or it is out of memory.
    spent: bool,
}

impl<'a> Model for Node<'a> {
    ghost use Rattle.node_replay.specs.NodeState.{NodeState};

    ghost Value = { NodeState };

    ghost use Rattle.node_replay.specs.NodeKept.{node_state};
    ghost use Rattle.node_replay.specs.private.NodeKept.{IsKept};

    ghost view = { node_state };

    ghost invariant = { IsKept };
}

impl<'a> Node<'a> {
    /// An element, by its number, up to and with a millisecond, at most 86,400,000, before the first byte.
    ///
    /// It takes memory by the inputs of the element and the lines out of it. This project's own.
    pub fn new(
        alloc: Global,
        plan: &'a Plan,
        element: u32,
        until: u64,
    ) -> Result<Node<'a>, NoMemory>
        requires within { element < length plan.now.elements }
        requires in_range { until ≤ LAST_MILLISECOND }
        ensures plan { IfOk result (λ node. node.lines.plan ≡ plan.now) }
        ensures element { IfOk result (λ node. node.lines.element ≡ element) }
        ensures until { IfOk result (λ node. node.replay.until ≡ until) }
        ensures live { IfOk result (λ node. node.spent ≡ false) }
        ensures fed { IfOk result (λ node. WasFed node []) }
    {
        let replay = Replay::new(alloc, plan, element, until)?;
        Ok(Node {
            lines: NodeLines::new(alloc, plan, element),
            replay,
            spent: false,
        })
    }

    /// Takes a piece of the file.
    ///
    /// A refusal is that of the first line that breaks a rule; it comes with the piece that brings the
    /// line's end, or the first byte that is too many. `NoMemory` comes only when out of memory. After
    /// either it is spent. This project's own.
    pub fn feed(&mut self, piece: &[u8]) -> Result<(), NoAnswer<NodeErr>>
        requires live { self.old.spent ≡ false }
        requires room { self.old.lines.ended + length piece.now < 2 ^ 63 }
        ensures plan { self.new.lines.plan ≡ self.old.lines.plan }
        ensures element { self.new.lines.element ≡ self.old.lines.element }
        ensures until { self.new.replay.until ≡ self.old.replay.until }
        ensures live { OnOk result (self.new.spent ≡ false) }
        ensures spent { OnErr result (self.new.spent ≡ true) }
        ensures ended { OnOk result (self.new.lines.ended ≤ self.old.lines.ended + length piece.now) }
        ensures fed { OnOk result ((bytes : List ℕ) → WasFed self.old bytes → WasFed self.new (bytes ++ piece.now)) }
        ensures refused { IfRefused result (λ error. (bytes : List ℕ) → WasFed self.old bytes →
            AreRefused self.old.lines.plan self.old.lines.element (bytes ++ piece.now) error) }
    {
        match take_all(&mut self.lines, &mut self.replay, piece) {
            Ok(()) => Ok(()),
            Err(error) => {
                self.spent = true;
                Err(error)
            }
        }
    }

    /// Whether the bytes were refused, or it is out of memory. This project's own.
    pub fn spent(&self) -> bool
        ensures { result ≡ self.now.spent }
    {
        self.spent
    }

    /// The text of all frames that the element sends, and where it ends, or the refusal of a last line
    /// without a line feed.
    ///
    /// The frames are after G.8264; the rows are this project's own.
    pub fn finish(self) -> Result<Replayed, NoAnswer<NodeErr>>
        requires live { self.spent ≡ false }
        requires room { self.lines.ended < 2 ^ 63 }
        ensures sent { IfOk result (λ replayed. (bytes : List ℕ) → WasFed self.entry bytes →
            IsSentText self.entry.lines.plan self.entry.lines.element bytes self.entry.replay.until replayed) }
        // Where the file holds just what a network brings to the element, it is what the element does there.
        ensures network { IfOk result (λ replayed. (bytes : List ℕ) → WasFed self.entry bytes →
            IsWellFormed self.entry.lines.plan → IsNetworkText self.entry.lines.plan self.entry.lines.element
            bytes self.entry.replay.until replayed) }
        ensures refused { IfRefused result (λ error. (bytes : List ℕ) → WasFed self.entry bytes →
            rows_of self.entry.lines.plan self.entry.lines.element bytes ≡ Err error) }
    {
        let node = self;
        let last = match node.lines.last_row() {
            Ok(last) => last,
            Err(refused) => return Err(NoAnswer::Refused(refused)),
        };
        let mut replay = node.replay;
        take_row(&mut replay, last)?;
        match replay.finish() {
            Ok(replayed) => Ok(replayed),
            Err(_) => Err(NoAnswer::NoMemory),
        }
    }
}

/// Takes all lines that end in a piece, and the bytes of the one that begins last.
fn take_all(
    lines: &mut NodeLines<'_>,
    replay: &mut Replay<'_>,
    piece: &[u8],
) -> Result<(), NoAnswer<NodeErr>>
    requires same_plan { replay.old.plan ≡ lines.old.plan }
    requires same_element { replay.old.element ≡ lines.old.element }
    requires live { replay.old.spent ≡ false }
    requires room { lines.old.ended + length piece.now < 2 ^ 63 }
    ensures plan { lines.new.plan ≡ lines.old.plan }
    ensures element { lines.new.element ≡ lines.old.element }
    ensures replay_plan { replay.new.plan ≡ replay.old.plan }
    ensures replay_element { replay.new.element ≡ replay.old.element }
    ensures until { replay.new.until ≡ replay.old.until }
    ensures live { OnOk result (replay.new.spent ≡ false) }
    ensures ended { OnOk result (lines.new.ended ≤ lines.old.ended + length piece.now) }
    ensures fed { OnOk result ((bytes : List ℕ) → AreFed lines.old replay.old bytes →
        AreFed lines.new replay.new (bytes ++ piece.now)) }
    ensures refused { IfRefused result (λ error. (bytes : List ℕ) →
        AreFed lines.old replay.old bytes → AreRefused lines.old.plan lines.old.element (bytes ++ piece.now) error) }
{
    let mut left = Some(piece);
    while let Some(bytes) = left {
        let (row, rest) = match lines.take(bytes) {
            Ok(taken) => taken,
            Err(error) => return Err(error),
        };
        take_row(replay, row)?;
        left = rest;
    }
    Ok(())
}

/// Takes a row, if there is one.
fn take_row(replay: &mut Replay<'_>, row: Option<NodeRow>) -> Result<(), NoMemory>
    requires live { replay.old.spent ≡ false }
    requires row { IfSome row (IsRowOf replay.old.plan replay.old.element) }
    ensures plan { replay.new.plan ≡ replay.old.plan }
    ensures element { replay.new.element ≡ replay.old.element }
    ensures until { replay.new.until ≡ replay.old.until }
    ensures live { OnOk result (replay.new.spent ≡ false) }
    ensures stands { OnOk result ((rows : List NodeRow) → StandsFor replay.old rows →
        IsRowList replay.old.plan replay.old.element (with_row rows row) → StandsFor replay.new (with_row rows row)) }
{
    if let Some(row) = row {
        replay.take(row)?;
    }
    Ok(())
}

/// The frames that an element sends by the bytes of a file, up to and with a millisecond, at most
/// 86,400,000, or the first refusal.
///
/// `NoMemory` comes only when out of memory. The frames are after G.8264; the file and the rows are this
/// project's own.
pub fn replay(
    alloc: Global,
    plan: &Plan,
    element: u32,
    bytes: &[u8],
    until: u64,
) -> Result<Replayed, NoAnswer<NodeErr>>
    requires within { element < length plan.now.elements }
    requires in_range { until ≤ LAST_MILLISECOND }
    ensures sent { IfOk result (IsSentText plan.now element bytes.now until) }
    ensures network { IfOk result (IsNetworkText plan.now element bytes.now until) }
    ensures refused { IfRefused result (λ error. rows_of plan.now element bytes.now ≡ Err error) }
{
    let _elements = plan.elements();
    let mut node = Node::new(alloc, plan, element, until)?;
    let mut left = bytes;
    while !left.is_empty() {
        let (piece, rest) = left.split_at(left.len().min(PIECE));
        if let Err(error) = node.feed(piece) {
            return Err(error);
        }
        left = rest;
    }
    match node.finish() {
        Ok(replayed) => Ok(replayed),
        Err(error) => Err(error),
    }
}
