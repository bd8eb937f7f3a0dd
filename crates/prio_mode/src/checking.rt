// Hops, and the test of ranks over them, returns included.

ghost use Rattle.std.specs.Prelude.{◌≡◌, ◌<◌, ◌↔◌, IsTrue};
ghost use Rattle.sync_topo.specs.Lines.{line_count};
ghost use Rattle.sync_topo.specs.Hops.{HopsAny};
ghost use Rattle.rank_cert.specs.Ranks.{IsRanked};
ghost use Rattle.prio_mode.specs.PriorityHops.{Judges};
ghost use Rattle.prio_mode.specs.PriorityLoops.{NeverLoops};

use rank_cert::{Cert, Verdict, check_with};
use sync_topo::{LineId, Plan, ReturnRule};

/// What `line` brings to an element may go on over `next` where elements choose by priority alone: both
/// are nominated, and `next` begins where `line` ends.
///
/// Both are lines of the plan. The way back over `line`'s own link is such a hop too. This project's
/// own.
pub fn hop_any(plan: &Plan, line: LineId, next: LineId) -> bool
    requires from { line.0 < line_count plan.now }
    requires to { next.0 < line_count plan.now }
    ensures { IsTrue result ↔ HopsAny plan.now line.0 next.0 }
{
    plan.hop_by(ReturnRule::Allowed, line, next)
}

/// Tests that the rank is greater after every hop, where elements choose by priority alone.
///
/// Each nominated line has a rank. It looks at each hop once, and takes no memory. What falls first is
/// named by its first line and then by its second. This project's own.
pub fn prio_check(plan: &Plan, cert: &Cert) -> Verdict
    requires ranked { IsRanked plan.now cert.now }
    ensures verdict { Judges plan.now cert.now result }

    // With rising ranks no timing loop can form in any millisecond, whatever happens.
    ensures never_loops { result ≡ Verdict.Rising → NeverLoops plan.now }
{
    check_with(ReturnRule::Allowed, plan, cert)
}
