ghost use Rattle.std.specs.Prelude.{◌≡◌, ◌<◌, length, IfOk};
ghost use Rattle.sync_topo.specs.Hops.{IsRising};
ghost use Rattle.sync_topo.specs.Lines.{line_count};
ghost use Rattle.sync_topo.specs.Topology.{Topology};
ghost use Rattle.net_rules.specs.Safety.{IsLoopFree};
ghost use Rattle.rank_cert.specs.Ranks.{rank_of, IsRanked, RanksNoOther, Judges};
ghost use Rattle.rank_cert.specs.declared.rising.Verdict.{Verdict};
ghost use Rattle.nominate.specs.Nomination.{IsNominatedPlan, AreOrderRanks};
ghost use Rattle.nominate.specs.private.Placing.{rank_by};

use crate::hops::least_hops;
use crate::numbering::new_priorities;
use crate::placing::places;
use rank_cert::Cert;
use std::alloc::Global;
use sync_text::NoMemory;
use sync_topo::{LineId, Plan};

/// The certificate of the nominated plan: the place of a line's sender in the order of elements by
/// counts and then by numbers, from 0, for each line that the nominated plan nominates.
///
/// It fits the plan that [`nominate`](crate::nominate) gives, since that has the same lines, and
/// [`check`](rank_cert::check) accepts it there. This project's own.
pub fn order_cert(alloc: Global, plan: &Plan) -> Result<Cert, NoMemory>
    ensures places { IfOk result (AreOrderRanks plan.now) }

    // In the nominated plan just the nominated lines have ranks, and they rise.
    ensures ranked { IfOk result (λ ranks. (nominated : Topology)
        → IsNominatedPlan plan.now nominated → IsRanked nominated ranks) }
    ensures no_other { IfOk result (λ ranks. (nominated : Topology)
        → IsNominatedPlan plan.now nominated → RanksNoOther nominated ranks) }
    ensures rising { IfOk result (λ ranks. (nominated : Topology)
        → IsNominatedPlan plan.now nominated → IsRising nominated (rank_of ranks)) }

    // So whatever the test of ranks may find of them is that they rise, and no timing loop can form.
    ensures accepted { IfOk result (λ ranks. (nominated : Topology) (verdict : Verdict)
        → IsNominatedPlan plan.now nominated → Judges nominated ranks verdict
        → verdict ≡ Verdict.Rising) }
    ensures loop_free { IfOk result (λ _. (nominated : Topology)
        → IsNominatedPlan plan.now nominated → IsLoopFree nominated) }
{
    let hops = least_hops(alloc, plan)?;
    let priorities = new_priorities(alloc, plan, &hops)?;
    let places = places(alloc, plan, &hops)?;
    let mut cert = Cert::new(alloc, plan)?;
    for number in 0..plan.lines() {
        let line = LineId(number);
        cert.set(
            line,
            rank_by(plan, priorities.as_slice(), places.as_slice(), line),
        );
    }
    Ok(cert)
}

/// The place of a line's sender, if the line has a priority.
fn rank_by(plan: &Plan, priorities: &[u8], places: &[u64], line: LineId) -> Option<u64>
    requires within { line.0 < line_count plan.now }
    requires priorities { length priorities.now ≡ line_count plan.now }
    requires places { length places.now ≡ length plan.now.elements }
    ensures { result ≡ rank_by plan.now priorities.now places.now line.0 }
{
    if 0 < priorities[line.0 as usize] {
        Some(places[plan.from(line) as usize])
    } else {
        None
    }
}
