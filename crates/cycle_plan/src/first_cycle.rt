ghost use Rattle.std.specs.Prelude.{◌≡◌, ◌≢◌, ◌<◌, ◌≤◌, ◌⊎◌, ℕ, ◌∷◌, reverse, None, IfOk, IfSome, IsNone};
ghost use Rattle.sync_topo.specs.Lines.{line_count, IsNominated, numbers};
ghost use Rattle.sync_topo.specs.Ranks.{IsBefore, StepsBack, IsFirstCycle, IsLowestResidue};
ghost use Rattle.rank_cert.specs.Ranks.{rank_at};
ghost use Rattle.sync_topo.specs.Hops.{hops_by};
ghost use Rattle.cycle_plan.specs.private.GoingBack.{IsLeft, IsDone, IsLowOn, HasRound, IsLowest, IsWalked};

use crate::inputs::{first_open, inputs_of, line_at};
use crate::numbers::{number_in, number_out};
use crate::ranking::Ranking;
use std::alloc::Global;
use sync_text::{NoMemory, Rows};
use sync_topo::{LineId, Plan, ReturnRule};

impl Ranking {
    /// The lowest-numbered nominated line without a rank.
    pub(crate) fn first_left(&self, returns: ReturnRule, plan: &Plan) -> Option<LineId>
        requires { IsDone returns plan.now self.now }
        ensures none { IsNone result → (line : ℕ) → IsNominated plan.now line
            → rank_at self.now.ranks line ≢ None }
        ensures left { IfSome result (λ line. IsLeft plan.now self.now.ranks line.0) }
        ensures lowest { IfSome result (λ line. IsLowestResidue (hops_by returns plan.now) line.0) }
    {
        for number in 0..plan.lines() {
            let line = LineId(number);
            if self.lacks_rank(plan, line) {
                return Some(line);
            }
        }
        None
    }

    /// Of the lines without a rank that hop to one without a rank, the lowest-numbered.
    fn before(&self, returns: ReturnRule, plan: &Plan, line: LineId) -> LineId
        requires done { IsDone returns plan.now self.now }
        requires left { IsLeft plan.now self.now.ranks line.0 }
        ensures before { IsBefore (hops_by returns plan.now) result.0 line.0 }
        ensures left { IsLeft plan.now self.now.ranks result.0 }
    {
        let sender = plan.from(line);
        let inputs = inputs_of(plan, sender);
        let known = self.watches[sender as usize];
        let watch = first_open(returns, plan, &self.ranks, inputs, known);
        let Some(first) = line_at(inputs, watch.first) else {
            unreachable!();
        };
        if number_in(returns, plan, first) != number_out(returns, plan, line) {
            return first;
        }
        let Some(second) = line_at(inputs, watch.second) else {
            unreachable!();
        };
        second
    }

    /// A line on the cycle to which one comes by going back from this one.
    fn line_on_cycle(&self, returns: ReturnRule, plan: &Plan, start: LineId) -> LineId
        requires done { IsDone returns plan.now self.now }
        requires left { IsLeft plan.now self.now.ranks start.0 }
        ensures back { StepsBack (hops_by returns plan.now) (line_count plan.now) start.0 result.0 }
        ensures left { IsLeft plan.now self.now.ranks result.0 }
    {
        let mut at = start;
        for _step in 0..plan.lines() {
            at = self.before(returns, plan, at);
        }
        at
    }

    /// The lowest-numbered line on the cycle.
    fn lowest_on_cycle(&self, returns: ReturnRule, plan: &Plan, on: LineId) -> LineId
        requires done { IsDone returns plan.now self.now }
        requires left { IsLeft plan.now self.now.ranks on.0 }
        ensures low { IsLowOn (hops_by returns plan.now) on.0 (line_count plan.now) result.0 }
        ensures left { IsLeft plan.now self.now.ranks result.0 }
    {
        let mut low = on;
        let mut at = on;
        for _step in 0..plan.lines() {
            at = self.before(returns, plan, at);
            low = lower(low, at);
        }
        low
    }

    /// The other lines of a cycle, going back from its lowest-numbered line.
    fn cycle_behind(
        &self,
        alloc: Global,
        returns: ReturnRule,
        plan: &Plan,
        low: LineId,
    ) -> Result<Vec<LineId>, NoMemory>
        requires done { IsDone returns plan.now self.now }
        requires left { IsLeft plan.now self.now.ranks low.0 }
        requires round { HasRound (hops_by returns plan.now) (line_count plan.now) low.0 }
        requires lowest { IsLowest (hops_by returns plan.now) low.0 }
        ensures { IfOk result (λ lines. IsWalked (hops_by returns plan.now) low.0 low.0 lines.items) }
    {
        let mut lines = Vec::new(alloc);
        let mut at = self.before(returns, plan, low);
        while at != low {
            let Ok(()) = lines.push(at) else {
                return Err(NoMemory);
            };
            at = self.before(returns, plan, at);
        }
        Ok(lines)
    }

    /// The first cycle, in hop order from its lowest-numbered line.
    pub(crate) fn first_cycle(
        &self,
        alloc: Global,
        returns: ReturnRule,
        plan: &Plan,
        start: LineId,
    ) -> Result<Rows<LineId>, NoMemory>
        requires done { IsDone returns plan.now self.now }
        requires left { IsLeft plan.now self.now.ranks start.0 }
        requires lowest { IsLowestResidue (hops_by returns plan.now) start.0 }
        ensures { IfOk result (λ lines. IsFirstCycle (hops_by returns plan.now) (numbers lines)) }
    {
        let on = self.line_on_cycle(returns, plan, start);
        let low = self.lowest_on_cycle(returns, plan, on);
        let behind = self.cycle_behind(alloc, returns, plan, low)?;
        in_hop_order(alloc, low, behind)
    }
}

/// The lower-numbered of two lines.
fn lower(one: LineId, other: LineId) -> LineId
    ensures one { result.0 ≤ one.0 }
    ensures other { result.0 ≤ other.0 }
    ensures either { (result ≡ one) ⊎ (result ≡ other) }
{
    if other.0 < one.0 { other } else { one }
}

/// The line, and then the lines from the last to the first.
fn in_hop_order(alloc: Global, low: LineId, behind: Vec<LineId>) -> Result<Rows<LineId>, NoMemory>
    ensures { IfOk result (λ lines. lines ≡ low ∷ reverse behind.items) }
{
    let mut behind = behind;
    let mut lines = Rows::new(alloc);
    lines.push(low)?;
    while let Some(line) = behind.pop() {
        lines.push(line)?;
    }
    Ok(lines)
}
