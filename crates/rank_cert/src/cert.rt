// The ranks of lines.

ghost use Rattle.std.specs.Prelude.{◌≡◌, ◌<◌, ◌≢◌, ℕ, length, replicate, slice_set, None, IfOk};
ghost use Rattle.sync_topo.specs.Lines.{line_count};
ghost use Rattle.rank_cert.specs.Ranks.{rank_at};

use std::alloc::Global;
use std::marker::Model;
use sync_text::NoMemory;
use sync_topo::{LineId, Plan};

/// A rank for each line that has one.
///
/// Contracts see a list with one optional rank for each line, in order of line number. A
/// certificate fits a plan where the list is as long as the plan has lines. This project's own.
#[derive(Debug, Drop)]
pub struct Cert {
    ranks: Vec<Option<u64>>,
}

impl Model for Cert {
    ghost use Rattle.std.specs.Prelude.{List, ℕ, Option};

    ghost Value = { List (Option ℕ) };

    ghost view = { λ cert. cert.ranks.items };
}

impl Cert {
    /// The certificate in which no line of the plan has a rank.
    ///
    /// This project's own.
    pub fn new(alloc: Global, plan: &Plan) -> Result<Cert, NoMemory>
        ensures unranked { IfOk result (λ cert. cert ≡ replicate (line_count plan.now) None) }
        ensures counted { IfOk result (λ cert. length cert ≡ line_count plan.now) }
    {
        match vec![in alloc; None; plan.lines() as usize] {
            Ok(ranks) => Ok(Cert { ranks }),
            Err(_) => Err(NoMemory),
        }
    }

    /// Gives a line this rank, from 0 to 2^64 - 1, or none. Every other line stays as it was.
    ///
    /// This project's own.
    pub fn set(&mut self, line: LineId, rank: Option<u64>)
        requires { line.0 < length self.old }
        ensures set { self.new ≡ slice_set self.old line.0 rank }
        ensures counted { length self.new ≡ length self.old }
        ensures here { rank_at self.new line.0 ≡ rank }
        ensures others { (other : ℕ) → other ≢ line.0 → rank_at self.new other ≡ rank_at self.old other }
    {
        self.ranks[line.0 as usize] = rank;
    }

    /// A line's rank, from 0 to 2^64 - 1, if it has one.
    ///
    /// This project's own.
    pub fn rank(&self, line: LineId) -> Option<u64>
        requires { line.0 < length self.now }
        ensures rank { result ≡ rank_at self.now line.0 }
    {
        self.ranks[line.0 as usize]
    }
}
