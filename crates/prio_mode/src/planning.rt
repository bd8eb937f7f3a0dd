// The planner, over hops that include returns.

ghost use Rattle.std.specs.Prelude.{◌≡◌, ◌<◌, ℕ};
ghost use Rattle.std.specs.List.{All};
ghost use Rattle.sync_topo.specs.Lines.{is_nominated, line_count};
ghost use Rattle.sync_topo.specs.Ranks.{AreLeastRanks, IsFirstCycle, Rises};
ghost use Rattle.rank_cert.specs.Ranks.{rank_at, rank_of, IsRanked, RanksNoOther};
ghost use Rattle.rank_cert.specs.declared.rising.Verdict.{Verdict};
ghost use Rattle.prio_mode.specs.PriorityHops.{Judges};
ghost use Rattle.sync_topo.specs.Hops.{hops_any};
ghost use Rattle.prio_mode.specs.ForcedLoop.{IsForcedLoop};
ghost use Rattle.prio_mode.specs.PriorityRanked.{IfRanks, IfLoop};

use cycle_plan::{Ranked, rank_with};
use rank_cert::Cert;
use std::alloc::Global;
use sync_text::{NoMemory, Rows};
use sync_topo::{LineId, Plan, ReturnRule};

/// What the planner finds where elements choose by priority alone.
#[derive(Debug, Drop)]
pub enum PrioRanked {
    /// The least ranks: each nominated line has one, and no other line.
    Ranks(Cert),
    /// The first cycle of hops, in hop order from its lowest-numbered line: no ranks rise.
    Loop(Rows<LineId>),
}

/// The least ranks of a plan whose elements choose by priority alone or, where no ranks rise, its first
/// cycle of hops, returns included.
///
/// A line's least rank is the greatest number of hops of a walk that ends in it, and the first cycle is
/// that of `cycle_plan`, over these hops. This project's own.
pub fn prio_plan(alloc: Global, plan: &Plan) -> Result<PrioRanked, NoMemory>
    ensures least { IfRanks result (λ ranks. AreLeastRanks (hops_any plan.now)
        (is_nominated plan.now) (rank_at ranks)) }
    ensures rising { IfRanks result (λ ranks. Rises (hops_any plan.now) (rank_of ranks)) }
    ensures ranked { IfRanks result (IsRanked plan.now) }
    ensures no_other { IfRanks result (RanksNoOther plan.now) }

    // So whatever the test of ranks may find of them is that they rise.
    ensures accepted { IfRanks result (λ ranks. (verdict : Verdict) → Judges plan.now ranks verdict
        → verdict ≡ Verdict.Rising) }

    ensures first { IfLoop result (IsFirstCycle (hops_any plan.now)) }
    ensures within { IfLoop result (All (λ line. line < line_count plan.now)) }

    // The lines have different receivers, and forced switches to them at 0 are a timing loop.
    ensures forced { IfLoop result (IsForcedLoop plan.now) }
    ensures never { IfLoop result (λ lines. (rank : ℕ → ℕ) → Rises (hops_any plan.now) rank → ⊥) }
{
    match rank_with(alloc, ReturnRule::Allowed, plan)? {
        Ranked::Ranks(ranks) => Ok(PrioRanked::Ranks(ranks)),
        Ranked::Cycle(lines) => Ok(PrioRanked::Loop(lines)),
    }
}
