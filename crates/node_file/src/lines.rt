//! The lines of a file that comes in pieces.

ghost use Rattle.std.specs.Prelude.{◌≡◌, ◌≤◌, ◌<◌, ◌+◌, ◌++◌, ◌==◌, ◌^◌, ◌∷◌, [], ℕ, List, Ok, Err, IfOk, IfErr, IfSome, OnOk, MatchOption, None, Some, IsTrue, true, false, length};
ghost use Rattle.std.specs.List.{slice_split};
ghost use Rattle.sync_text.specs.Gives.{IfRefused};
ghost use Rattle.node_file.specs.declared.row.NodeRow.{NodeRow};
ghost use Rattle.node_file.specs.NodeRow.{IsRowOf};
ghost use Rattle.node_file.specs.NodeFile.{line_limit, is_blank, time_in, line_refusal, row_in, rows_of};
ghost use Rattle.node_file.specs.Cutting.{HaveRead, AreRefused, with_row, time_after};

use crate::error::NodeErr;
use crate::reading::{LINE_LIMIT, row_of};
use crate::row::NodeRow;
use capture_text::cut_at;
use std::alloc::Global;
use std::marker::Model;
use sync_text::{NoAnswer, NoMemory};
use sync_topo::Plan;

/// The lines of a file of one element, whose bytes come in pieces.
///
/// Each line is four fields, `AT,WORD,TARGET,VALUE`, of at most 4,096 bytes before its line feed, a
/// carriage return counted; an empty line is passed over. This project's own.
#[derive(Debug, Drop)]
pub struct NodeLines<'a> {
    plan: &'a Plan,
    element: u32,
    /// The bytes of the line that has begun.
    begun: Vec<u8>,
    /// How many lines have ended.
    ended: u64,
    /// The time of the last of them that says something.
    before: u64,
}

impl<'a> Model for NodeLines<'a> {
    ghost use Rattle.std.specs.Prelude.{length, ◌<◌, ◌≤◌};
    ghost use Rattle.node_file.specs.Cutting.{LinesRead};

    ghost Value = { LinesRead };

    ghost view = { λ lines. record {
      plan = lines.plan.now;
      element = lines.element;
      begun = lines.begun.items;
      ended = lines.ended;
      before = lines.before;
    } };
}

impl<'a> NodeLines<'a> {
    /// The lines of an element of a plan, before the first byte. They take no memory.
    pub fn new(alloc: Global, plan: &'a Plan, element: u32) -> NodeLines<'a>
        ensures plan { result.plan ≡ plan.now }
        ensures element { result.element ≡ element }
        ensures read { HaveRead result [] [] }
    {
        NodeLines {
            plan,
            element,
            begun: Vec::new(alloc),
            ended: 0,
            before: 0,
        }
    }

    /// Takes the bytes of a piece up to and with its first line feed: the row of the line that ends
    /// there, if it ends and says something, and the bytes behind it.
    ///
    /// A refusal is that of the first line that breaks a rule; it comes with the line's end, or with the
    /// first byte that is too many. `NoMemory` comes only when out of memory. After either the lines
    /// aren't used any more. This project's own.
    pub fn take<'b>(
        &mut self,
        piece: &'b [u8],
    ) -> Result<(Option<NodeRow>, Option<&'b [u8]>), NoAnswer<NodeErr>>
        requires room { self.old.ended + length piece.now < 2 ^ 63 }
        ensures plan { self.new.plan ≡ self.old.plan }
        ensures element { self.new.element ≡ self.old.element }
        ensures ended { IfOk result (λ taken. MatchOption taken.1 (self.new.ended ≡ self.old.ended)
            (λ rest. self.new.ended ≡ self.old.ended + 1)) }
        ensures read { IfOk result (λ taken. (bytes : List ℕ) (rows : List NodeRow) → HaveRead self.old bytes rows →
            MatchOption taken.1 (HaveRead self.new (bytes ++ piece.now) rows)
            (λ rest. (front : List ℕ) × (piece.now ≡ front ++ rest.now)
            × HaveRead self.new (bytes ++ front) (with_row rows taken.0))) }
        ensures none { IfOk result (λ taken. taken.1 ≡ None → taken.0 ≡ None) }
        ensures fits { IfOk result (λ taken. IfSome taken.0 (IsRowOf self.old.plan self.old.element)) }
        ensures later { IfOk result (λ taken. IfSome taken.0 (λ row. self.old.before ≤ row.at)) }
        ensures before { IfOk result (λ taken. self.new.before ≡ time_after self.old.before taken.0) }
        ensures shorter { IfOk result (λ taken. IfSome taken.1 (λ rest. length rest.now < length piece.now)) }
        ensures refused { IfRefused result (λ error. (bytes : List ℕ) (rows : List NodeRow) →
            HaveRead self.old bytes rows → AreRefused self.old.plan self.old.element (bytes ++ piece.now) error) }
    {
        let (front, rest) = cut_at(piece, b'\n');
        if let Err(error) = self.put(front) {
            return Err(error);
        }
        let Some(rest) = rest else {
            return Ok((None, None));
        };
        match self.end() {
            Ok(row) => Ok((row, Some(rest))),
            Err(refused) => Err(NoAnswer::Refused(refused)),
        }
    }

    /// The row of a last line without a line feed, if it says something.
    ///
    /// This project's own.
    pub fn last_row(&self) -> Result<Option<NodeRow>, NodeErr>
        requires room { self.now.ended + 1 < 2 ^ 64 }
        ensures whole { IfOk result (λ row. (bytes : List ℕ) (rows : List NodeRow) → HaveRead self.now bytes rows →
            rows_of self.now.plan self.now.element bytes ≡ Ok (with_row rows row)) }
        ensures fits { IfOk result (λ row. IfSome row (IsRowOf self.now.plan self.now.element)) }
        ensures later { IfOk result (λ row. IfSome row (λ r. self.now.before ≤ r.at)) }
        ensures refused { IfErr result (λ error. (bytes : List ℕ) (rows : List NodeRow) → HaveRead self.now bytes rows →
            rows_of self.now.plan self.now.element bytes ≡ Err error) }
    {
        match self.row_here() {
            Ok(row) => Ok(row),
            Err(error) => Err(error),
        }
    }

    /// What the line that has begun says, as if it ended here.
    fn row_here(&self) -> Result<Option<NodeRow>, NodeErr>
        requires room { self.now.ended + 1 < 2 ^ 64 }
        ensures sound { IfOk result (λ row. line_refusal self.now.plan self.now.element (self.now.ended + 1)
            self.now.before self.now.begun ≡ None) }
        ensures row { IfOk result (λ row. row_in self.now.plan self.now.element self.now.begun ≡ row) }
        ensures blank { IfOk result (λ row. row ≡ None → is_blank self.now.begun ≡ true) }
        ensures time { IfOk result (λ row. IfSome row (λ r. (is_blank self.now.begun ≡ false)
            × (time_in self.now.begun ≡ Some r.at))) }
        ensures later { IfOk result (λ row. IfSome row (λ r. self.now.before ≤ r.at)) }
        ensures fits { IfOk result (λ row. IfSome row (IsRowOf self.now.plan self.now.element)) }
        ensures refused { IfErr result (λ error. line_refusal self.now.plan self.now.element (self.now.ended + 1)
            self.now.before self.now.begun ≡ Some error) }
    {
        row_of(
            self.plan,
            self.element,
            self.ended + 1,
            self.before,
            self.begun.as_slice(),
        )
    }

    /// Puts bytes without a line feed behind the line that has begun.
    fn put(&mut self, front: &[u8]) -> Result<(), NoAnswer<NodeErr>>
        requires room { self.old.ended + 1 < 2 ^ 64 }
        requires no_end { slice_split (λ byte. byte == 10) front.now ≡ front.now ∷ [] }
        ensures plan { self.new.plan ≡ self.old.plan }
        ensures element { self.new.element ≡ self.old.element }
        ensures ended { self.new.ended ≡ self.old.ended }
        ensures before { self.new.before ≡ self.old.before }
        ensures read { OnOk result ((bytes : List ℕ) (rows : List NodeRow) → HaveRead self.old bytes rows →
            HaveRead self.new (bytes ++ front.now) rows) }
        ensures refused { IfRefused result (λ error. (bytes : List ℕ) (rows : List NodeRow) →
            HaveRead self.old bytes rows → AreRefused self.old.plan self.old.element (bytes ++ front.now) error) }
    {
        if !self.has_room(front) {
            return Err(NoAnswer::Refused(NodeErr::Fields(self.ended + 1)));
        }
        match self.go_on(front) {
            Ok(()) => Ok(()),
            Err(NoMemory) => Err(NoAnswer::NoMemory),
        }
    }

    /// The line that has begun has room for these bytes more.
    fn has_room(&self, front: &[u8]) -> bool
        ensures room { IsTrue result → length (self.now.begun ++ front.now) ≤ line_limit }
        ensures full { result ≡ false → line_limit < length (self.now.begun ++ front.now) }
    {
        front.len() <= LINE_LIMIT && self.begun.len() <= LINE_LIMIT - front.len()
    }

    /// Puts bytes behind those of the line that has begun.
    fn go_on(&mut self, front: &[u8]) -> Result<(), NoMemory>
        ensures plan { self.new.plan ≡ self.old.plan }
        ensures element { self.new.element ≡ self.old.element }
        ensures begun { OnOk result (self.new.begun ≡ self.old.begun ++ front.now) }
        ensures ended { self.new.ended ≡ self.old.ended }
        ensures before { self.new.before ≡ self.old.before }
    {
        match self.begun.extend_from_slice(front) {
            Ok(()) => Ok(()),
            Err(_) => Err(NoMemory),
        }
    }

    /// Ends the line that has begun.
    fn end(&mut self) -> Result<Option<NodeRow>, NodeErr>
        requires room { self.old.ended + 1 < 2 ^ 64 }
        ensures plan { self.new.plan ≡ self.old.plan }
        ensures element { self.new.element ≡ self.old.element }
        ensures ended { OnOk result (self.new.ended ≡ self.old.ended + 1) }
        ensures read { IfOk result (λ row. (bytes : List ℕ) (rows : List NodeRow) → HaveRead self.old bytes rows →
            HaveRead self.new (bytes ++ 10 ∷ []) (with_row rows row)) }
        ensures fits { IfOk result (λ row. IfSome row (IsRowOf self.old.plan self.old.element)) }
        ensures later { IfOk result (λ row. IfSome row (λ r. self.old.before ≤ r.at)) }
        ensures before { IfOk result (λ row. self.new.before ≡ time_after self.old.before row) }
        ensures refused { IfErr result (λ error. (bytes : List ℕ) (rows : List NodeRow) →
            HaveRead self.old bytes rows → AreRefused self.old.plan self.old.element (bytes ++ 10 ∷ []) error) }
    {
        match self.row_here() {
            Ok(row) => {
                self.begin_next(row);
                Ok(row)
            }
            Err(error) => Err(error),
        }
    }

    /// Begins the next line, behind one that gave a row or none.
    fn begin_next(&mut self, row: Option<NodeRow>)
        requires room { self.old.ended + 1 < 2 ^ 64 }
        ensures plan { self.new.plan ≡ self.old.plan }
        ensures element { self.new.element ≡ self.old.element }
        ensures begun { self.new.begun ≡ [] }
        ensures ended { self.new.ended ≡ self.old.ended + 1 }
        ensures before { self.new.before ≡ time_after self.old.before row }
    {
        self.begun.clear();
        self.ended += 1;
        self.before = time_after(self.before, row);
    }
}

/// The time of a row, or else that of the one before.
fn time_after(before: u64, row: Option<NodeRow>) -> u64
    ensures { result ≡ time_after before row }
{
    match row {
        Some(row) => row.at,
        None => before,
    }
}
