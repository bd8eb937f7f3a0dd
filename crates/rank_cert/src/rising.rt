// The test of ranks: whether they rise over every hop.

ghost use Rattle.std.specs.Prelude.{◌≡◌, ◌<◌, ℕ, List, option_map};
ghost use Rattle.sync_topo.specs.Lines.{line_count, IsInput};
ghost use Rattle.sync_topo.specs.Hops.{hops_by, IsCycle};
ghost use Rattle.net_rules.specs.Safety.{IsLoopFree};
ghost use Rattle.rank_cert.specs.Ranks.{IsRanked, Judges, JudgesOver};
ghost use Rattle.rank_cert.specs.private.FirstFall.{falls, fall_from, first_to, earlier};

use crate::cert::Cert;
use sync_topo::{InputId, LineId, Plan, ReturnRule};

/// What the test of ranks finds.
///
/// This project's own.
#[derive(Clone, Copy, Debug, PartialEq, Eq, Drop)]
pub enum Verdict {
    /// The rank is greater after every hop.
    Rising,
    /// The first hop, by its first line and then by its second, over which the rank doesn't rise.
    Falls(LineId, LineId),
}

/// Tests that the rank is greater after every hop.
///
/// It looks at each hop once, and takes no memory. What ranks that rise leave of timing loops is
/// proved over the rules of a running network (`net_rules`). This project's own.
pub fn check(plan: &Plan, cert: &Cert) -> Verdict
    requires ranked { IsRanked plan.now cert.now }
    ensures verdict { Judges plan.now cert.now result }

    // With rising ranks no lines hop round in a cycle, and no timing loop can form, but two elements
    // that face each other on one link or bundle, whatever happens.
    ensures no_cycle { result ≡ Verdict.Rising → (lines : List ℕ) → IsCycle plan.now lines → ⊥ }
    ensures loop_free { result ≡ Verdict.Rising → IsLoopFree plan.now }
{
    // Every plan keeps the rules.
    let _lines = plan.lines();
    check_with(ReturnRule::Barred, plan, cert)
}

/// Tests that the rank is greater after every hop by a rule of returns.
///
/// It looks at each hop once, and takes no memory. What falls first is named by its first line and
/// then by its second. This project's own.
pub fn check_with(returns: ReturnRule, plan: &Plan, cert: &Cert) -> Verdict
    requires ranked { IsRanked plan.now cert.now }
    ensures verdict { JudgesOver (hops_by returns plan.now) cert.now result }
{
    let mut first: Option<(LineId, LineId)> = None;
    for number in 0..plan.lines() {
        let next = LineId(number);
        first = earlier(first, first_to(returns, plan, cert, next), next);
    }
    match first {
        Some((line, next)) => Verdict::Falls(line, next),
        None => Verdict::Rising,
    }
}

/// The fall that comes first by its first line, of one to an earlier line and one to this line.
fn earlier(
    first: Option<(LineId, LineId)>,
    line: Option<LineId>,
    next: LineId,
) -> Option<(LineId, LineId)>
    ensures { result ≡ earlier first line next }
{
    match (first, line) {
        (None, Some(line)) => Some((line, next)),
        (Some(fall), Some(line)) if line.0 < fall.0.0 => Some((line, next)),
        _ => first,
    }
}

/// The first line whose hop to this one doesn't rise.
fn first_to(returns: ReturnRule, plan: &Plan, cert: &Cert, next: LineId) -> Option<LineId>
    requires ranked { IsRanked plan.now cert.now }
    requires within { next.0 < line_count plan.now }
    ensures { option_map (λ line. line.0) result ≡ first_to returns plan.now cert.now next.0 }
{
    let inputs = plan.inputs(plan.from(next));
    for input in inputs {
        if let Some(line) = fall_from(returns, plan, cert, *input, next) {
            return Some(line);
        }
    }
    None
}

/// The line of an input, where the rank doesn't rise over its hop to this one. A source is none.
fn fall_from(
    returns: ReturnRule,
    plan: &Plan,
    cert: &Cert,
    input: InputId,
    next: LineId,
) -> Option<LineId>
    requires ranked { IsRanked plan.now cert.now }
    requires from { IsInput plan.now input }
    requires to { next.0 < line_count plan.now }
    ensures { option_map (λ line. line.0) result ≡ fall_from returns plan.now cert.now next.0 input }
{
    match input {
        InputId::Line(line) if falls(returns, plan, cert, line, next) => Some(line),
        _ => None,
    }
}

/// The first line hops to the second, and the rank doesn't rise.
fn falls(returns: ReturnRule, plan: &Plan, cert: &Cert, line: LineId, next: LineId) -> bool
    requires ranked { IsRanked plan.now cert.now }
    requires from { line.0 < line_count plan.now }
    requires to { next.0 < line_count plan.now }
    ensures { result ≡ falls returns plan.now cert.now line.0 next.0 }
{
    // The lines of a hop are nominated, so both have a rank.
    plan.hop_by(returns, line, next) && cert.rank(next) <= cert.rank(line)
}
