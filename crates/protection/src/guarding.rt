// Priorities by which no failure cuts anybody off who needn't be.

ghost use Rattle.std.specs.Prelude.{◌≡◌, IfOk, IfSome};
ghost use Rattle.std.specs.List.{All};
ghost use Rattle.sync_topo.specs.Lines.{line_count};
ghost use Rattle.sync_topo.specs.Outputs.{AreOutputs};
ghost use Rattle.net_rules.specs.Safety.{IsLoopFree};
ghost use Rattle.reach_rules.specs.declared.failure.Failure.TheVariants as fails;
ghost use Rattle.reach_rules.specs.Protection.{IsProtected, IsProtectedFrom, HoldsOut};
ghost use Rattle.nominate.specs.HopCount.{AreHopCounts};
ghost use Rattle.protection.specs.Gaps.{IsGapIn};
ghost use Rattle.protection.specs.Orderly.{IsFound};
ghost use Rattle.protection.specs.Protected.{IfPlan, IfGaps, AreFoundGaps};

use crate::fewest::tree_of;
use crate::gap::Gap;
use crate::orderly::is_orderly;
use crate::protecting::all_gaps;
use crate::serving::serves_all;
use ears::choose;
use nominate::{Hops, least_hops, with_priorities};
use std::alloc::Global;
use sync_text::{NoMemory, Rows};
use sync_topo::{LineId, Plan, all_lines_out};

/// What a plan becomes.
///
/// This project's own.
#[derive(Debug, Drop)]
pub enum Protected {
    /// The plan with other priorities of its lines: no failure cuts anybody off.
    Plan(Plan),
    /// Whom failures cut off in the plan that was found.
    Gaps(Rows<Gap>),
}

/// The plan with priorities by which no single failure cuts anybody off who needn't be, no timing
/// loop can form, and the network comes to rest; or whom failures cut off in the plan that was
/// found.
///
/// Each element takes its timing over the fewest hops first, and then from its other neighbour on
/// an ear: a path of elements between two others of which one survives each failure. Which plan is
/// found isn't promised, nor that one is found. It is tried, that one is wherever the sources'
/// numbers and the limit of inputs leave room; where what the search finds isn't orderly, or cuts
/// somebody off with no failure, the tree of fewest hops stands in its place. So the plan whose gaps
/// are told cuts nobody off with no failure. The work is that of [`crate::protected`].
///
/// This project's own, with ears after Whitney.
pub fn protect(alloc: Global, plan: &Plan) -> Result<Protected, NoMemory>
    ensures found { IfPlan result (IsFound plan.now) }
    ensures protected { IfPlan result IsProtected }

    // So no timing loop can form, but two elements that face each other on one link or bundle. And
    // where just one failure stands, the network is settled and no command was given, each source
    // that is left is better than do-not-use and no floor is better than the worst of them, nobody in
    // reach of a clock has a level worse than that worst one.
    ensures loop_free { IfPlan result IsLoopFree }
    ensures holds { IfPlan result HoldsOut }

    ensures gaps { IfGaps result (AreFoundGaps plan.now) }
    ensures within { IfGaps result (All (IsGapIn plan.now)) }
{
    let outputs = all_lines_out(alloc, plan)?;
    let hops = least_hops(alloc, plan)?;
    let found = find(alloc, plan, outputs.as_slice(), &hops)?;
    // Every plan keeps the rules.
    let _elements = found.elements();
    let gaps = all_gaps(alloc, &found, outputs)?;
    if gaps.as_slice().is_empty() {
        return Ok(Protected::Plan(found));
    }
    Ok(Protected::Gaps(gaps))
}

/// An orderly plan that with no failure cuts nobody off: what the search finds or, where that isn't
/// one, the tree of fewest hops.
fn find(alloc: Global, plan: &Plan, outputs: &[Vec<LineId>], hops: &Hops) -> Result<Plan, NoMemory>
    requires outputs { AreOutputs plan.now (line_count plan.now) outputs.now }
    requires hops { AreHopCounts plan.now hops.now }
    ensures found { IfOk result (IsFound plan.now) }
    ensures served { IfOk result (λ found. IsProtectedFrom found fails.Nothing) }
{
    match searched(alloc, plan, outputs, hops)? {
        Some(found) => Ok(found),
        None => tree_of(alloc, plan, hops),
    }
}

/// What the search finds, if it is orderly and with no failure cuts nobody off.
fn searched(
    alloc: Global,
    plan: &Plan,
    outputs: &[Vec<LineId>],
    hops: &Hops,
) -> Result<Option<Plan>, NoMemory>
    requires outputs { AreOutputs plan.now (line_count plan.now) outputs.now }
    requires hops { AreHopCounts plan.now hops.now }
    ensures found { IfOk result (λ found. IfSome found (IsFound plan.now)) }
    ensures served { IfOk result (λ found. IfSome found (λ plan.
        IsProtectedFrom plan fails.Nothing)) }
{
    let choice = choose(alloc, plan, outputs)?;
    if choice.priorities.len() != plan.lines() as usize {
        return Ok(None);
    }
    let given = with_priorities(alloc, plan, choice.priorities.as_slice())?;
    let Some(found) = given else {
        return Ok(None);
    };
    let firsts = choice.firsts.as_slice();
    let orderly = is_orderly(alloc, &found, firsts, choice.seconds.as_slice(), hops)?;
    if !orderly {
        return Ok(None);
    }
    let served = serves_all(alloc, &found, outputs)?;
    if !served {
        return Ok(None);
    }
    Ok(Some(found))
}
