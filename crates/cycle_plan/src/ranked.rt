ghost use Rattle.std.specs.Prelude.{◌≡◌, ◌<◌, ℕ, Some, length};
ghost use Rattle.std.specs.List.{All};
ghost use Rattle.sync_topo.specs.Lines.{is_nominated, line_count};
ghost use Rattle.sync_topo.specs.Hops.{hops, IsRising, IsCycle};
ghost use Rattle.sync_topo.specs.Ranks.{AreLeastRanks, IsFirstCycle, Rises, Circles};
ghost use Rattle.rank_cert.specs.Ranks.{rank_at, rank_of, IsRanked, RanksNoOther, Judges};
ghost use Rattle.rank_cert.specs.declared.rising.Verdict.{Verdict};
ghost use Rattle.sync_topo.specs.Hops.{hops_by};
ghost use Rattle.cycle_plan.specs.Ranked.{IfRanks, IfCycle};

use crate::ranking::Ranking;
use rank_cert::Cert;
use std::alloc::Global;
use sync_text::{NoMemory, Rows};
use sync_topo::{LineId, Plan, ReturnRule};

/// What the planner finds.
#[derive(Debug, Drop)]
pub enum Ranked {
    /// The least ranks: each nominated line has one, and no other line.
    Ranks(Cert),
    /// The first cycle, in hop order from its lowest-numbered line: no ranks rise.
    Cycle(Rows<LineId>),
}

/// The least ranks of a plan or, where no ranks rise, its first cycle.
///
/// A line's least rank is the greatest number of hops of a walk that ends in it. The first cycle
/// is what repeats when one goes back from line to line, each time to the lowest-numbered line
/// that hops there and in which walks of every length end; it begins at the lowest-numbered such
/// line. It is the cycle of elements that could take timing from one another. The work grows with
/// the lines and elements, and not with the hops. This project's own.
pub fn rank_plan(alloc: Global, plan: &Plan) -> Result<Ranked, NoMemory>
    ensures least { IfRanks result (λ ranks. AreLeastRanks (hops plan.now)
        (is_nominated plan.now) (rank_at ranks)) }
    ensures rising { IfRanks result (λ ranks. IsRising plan.now (rank_of ranks)) }
    ensures ranked { IfRanks result (IsRanked plan.now) }
    ensures no_other { IfRanks result (RanksNoOther plan.now) }
    ensures few { IfRanks result (λ ranks. (line rank : ℕ) → rank_at ranks line ≡ Some rank
        → rank < line_count plan.now) }
    ensures counted { IfRanks result (λ ranks. length ranks ≡ line_count plan.now) }

    // So whatever the test of ranks may find of them is that they rise.
    ensures accepted { IfRanks result (λ ranks. (verdict : Verdict) → Judges plan.now ranks verdict
        → verdict ≡ Verdict.Rising) }

    ensures first { IfCycle result (IsFirstCycle (hops plan.now)) }
    ensures cycle { IfCycle result (IsCycle plan.now) }
    ensures within { IfCycle result (All (λ line. line < line_count plan.now)) }
    ensures never { IfCycle result (λ lines. (rank : ℕ → ℕ) → IsRising plan.now rank → ⊥) }
{
    rank_with(alloc, ReturnRule::Barred, plan)
}

/// The least ranks of a plan or, where no ranks rise, its first cycle, over hops by either rule of
/// returns.
///
/// It is [`rank_plan`] where returns are barred. This project's own.
pub fn rank_with(alloc: Global, returns: ReturnRule, plan: &Plan) -> Result<Ranked, NoMemory>
    ensures least { IfRanks result (λ ranks. AreLeastRanks (hops_by returns plan.now)
        (is_nominated plan.now) (rank_at ranks)) }
    ensures rising { IfRanks result (λ ranks. Rises (hops_by returns plan.now) (rank_of ranks)) }
    ensures ranked { IfRanks result (IsRanked plan.now) }
    ensures no_other { IfRanks result (RanksNoOther plan.now) }
    ensures few { IfRanks result (λ ranks. (line rank : ℕ) → rank_at ranks line ≡ Some rank
        → rank < line_count plan.now) }
    ensures counted { IfRanks result (λ ranks. length ranks ≡ line_count plan.now) }
    ensures first { IfCycle result (IsFirstCycle (hops_by returns plan.now)) }
    ensures cycle { IfCycle result (Circles (hops_by returns plan.now)) }
    ensures within { IfCycle result (All (λ line. line < line_count plan.now)) }
    ensures never { IfCycle result (λ lines. (rank : ℕ → ℕ) →
        Rises (hops_by returns plan.now) rank → ⊥) }
{
    let ranking = Ranking::of(alloc, returns, plan)?;
    match ranking.first_left(returns, plan) {
        Some(start) => Ok(Ranked::Cycle(ranking.first_cycle(alloc, returns, plan, start)?)),
        None => Ok(Ranked::Ranks(ranking.ranks)),
    }
}
