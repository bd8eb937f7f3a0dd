ghost use Rattle.std.specs.Prelude.{◌≡◌, ℕ, suc, Some, IfOk};
ghost use Rattle.sync_topo.specs.WellFormed.{IsWellFormed};
ghost use Rattle.net_rules.specs.Safety.{IsLoopFree};
ghost use Rattle.net_rules.specs.Settling.{IsOneWay};
ghost use Rattle.nominate.specs.HopCount.{Counts, count_at, AreHopCounts};
ghost use Rattle.nominate.specs.Nomination.{IsNominatedPlan, HasFirst};

use crate::hops::least_hops;
use crate::numbering::new_priorities;
use crate::rows::rows_with;
use std::alloc::Global;
use sync_text::{NoAnswer, NoMemory};
use sync_topo::Plan;

/// The plan with priorities by fewest hops: all else is as it was.
///
/// Each element takes its timing from elements that stand before it, by their counts and then by
/// their numbers. Lines from elements with lower counts come first, and among these those of lower
/// number. They follow the element's own nominated sources, as far as priorities of at most 255 and
/// 64 inputs allow. This project's own.
pub fn nominate(alloc: Global, plan: &Plan) -> Result<Plan, NoMemory>
    ensures nominated { IfOk result (IsNominatedPlan plan.now) }
    ensures well_formed { IfOk result IsWellFormed }

    // An element that has no clock and can be reached from one has a line of priority 1 from an
    // element with one less.
    ensures first { IfOk result (λ nominated. (counts : Counts) (element hops : ℕ)
        → AreHopCounts plan.now counts → count_at counts element ≡ Some (suc hops)
        → HasFirst nominated counts element hops) }

    // No timing loop can form, but two elements that face each other on one link or bundle; and no
    // two nominated lines of one bundle run in opposite directions, so that none can face each other.
    ensures loop_free { IfOk result IsLoopFree }
    ensures one_way { IfOk result IsOneWay }
{
    let hops = least_hops(alloc, plan)?;
    let priorities = new_priorities(alloc, plan, &hops)?;
    let rows = rows_with(alloc, plan, priorities.as_slice())?;
    match Plan::new(alloc, rows) {
        Ok(nominated) => Ok(nominated),
        Err(NoAnswer::NoMemory) => Err(NoMemory),
        // The nominated plan keeps every rule.
        Err(NoAnswer::Refused(_)) => unreachable!(),
    }
}
