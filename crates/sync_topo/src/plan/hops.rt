// Which line bears on which, by each rule of returns.

ghost use Rattle.std.specs.Prelude.{◌≡◌, ◌<◌, ◌↔◌, IsTrue};
ghost use Rattle.sync_topo.specs.Lines.{line_count, IsInput};
ghost use Rattle.sync_topo.specs.Hops.{hops_any, comes_first, is_last_resort, bears_on, Hops, HopsBy};
ghost use Rattle.sync_topo.specs.WellFormed.{IsWellFormed};

use crate::input::{InputId, LineId};
use crate::plan::Plan;
use crate::returns::ReturnRule;

impl Plan {
    /// What `line` brings to an element may go on over `next`: both are nominated, `next` begins where
    /// `line` ends, and their links are not of one bundle. After G.781, do-not-use towards the selected
    /// reference.
    pub fn hop(&self, line: LineId, next: LineId) -> bool
        requires from { line.0 < line_count self.now }
        requires to { next.0 < line_count self.now }
        ensures well_formed { IsWellFormed self.now }
        ensures hops { IsTrue result ↔ Hops self.now line.0 next.0 }
    {
        self.meet(line, next) && self.bundle(line.0 / 2) != self.bundle(next.0 / 2)
    }

    /// What `line` brings to an element may go on over `next` by a rule of returns: where they are
    /// barred it is a [`hop`](Plan::hop), and where they are allowed both are nominated, and `next`
    /// begins where `line` ends, over `line`'s own link or bundle too. Where they are barred from a
    /// last resort, that is so but for the ways back over the link or bundle of a
    /// [`last_resort`](Plan::last_resort). This project's own.
    pub fn hop_by(&self, returns: ReturnRule, line: LineId, next: LineId) -> bool
        requires from { line.0 < line_count self.now }
        requires to { next.0 < line_count self.now }
        ensures well_formed { IsWellFormed self.now }
        ensures hops { IsTrue result ↔ HopsBy returns self.now line.0 next.0 }
    {
        match returns {
            ReturnRule::Barred => self.hop(line, next),
            ReturnRule::Allowed => self.meet(line, next),
            ReturnRule::BarredFromLast => self.bears_on(line, next),
        }
    }

    /// Both lines are nominated, the second begins where the first ends, and it isn't the way back
    /// over the link or bundle of a last resort.
    fn bears_on(&self, line: LineId, next: LineId) -> bool
        requires from { line.0 < line_count self.now }
        requires to { next.0 < line_count self.now }
        ensures well_formed { IsWellFormed self.now }
        ensures bears { result ≡ bears_on self.now line.0 next.0 }
    {
        let returns = self.bundle(line.0 / 2) == self.bundle(next.0 / 2);
        self.meet(line, next) && !(returns && self.last_resort(line))
    }

    /// A line is the last resort of the element in which it ends: each of the element's inputs that is
    /// no line of its link or bundle has a smaller number, so that all of them are preferred to it.
    /// This project's own.
    pub fn last_resort(&self, line: LineId) -> bool
        requires { line.0 < line_count self.now }
        ensures well_formed { IsWellFormed self.now }
        ensures last { result ≡ is_last_resort self.now line.0 }
    {
        let inputs = self.inputs(self.to(line));
        for input in inputs {
            if !self.comes_first(line, *input) {
                return false;
            }
        }
        true
    }

    /// An input has a smaller number than the line, or it is a line of the line's bundle.
    fn comes_first(&self, line: LineId, input: InputId) -> bool
        requires line { line.0 < line_count self.now }
        requires input { IsInput self.now input }
        ensures well_formed { IsWellFormed self.now }
        ensures first { result ≡ comes_first self.now line.0 input }
    {
        let bundled = match input {
            InputId::Line(other) => self.bundle(other.0 / 2) == self.bundle(line.0 / 2),
            InputId::Source(_) => false,
        };
        bundled || self.priority(input) < self.line_priority(line)
    }

    /// Both lines are nominated, and the second begins where the first ends.
    pub(crate) fn meet(&self, line: LineId, next: LineId) -> bool
        requires from { line.0 < line_count self.now }
        requires to { next.0 < line_count self.now }
        ensures well_formed { IsWellFormed self.now }
        ensures meet { result ≡ hops_any self.now line.0 next.0 }
    {
        let both = self.line_priority(line) > 0 && self.line_priority(next) > 0;
        both && self.to(line) == self.from(next)
    }
}
