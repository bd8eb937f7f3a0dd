// Whether a plan is orderly: what of a search's plan is tried.

ghost use Rattle.std.specs.Prelude.{◌≡◌, ◌<◌, ◌⊎◌, ℕ, true, length, IsTrue, IfOk};
ghost use Rattle.sync_topo.specs.Lines.{line_count, sender_of, receiver_of, IsNominated, IsInput};
ghost use Rattle.sync_topo.specs.Bundles.{line_bundle};
ghost use Rattle.sync_topo.specs.Hops.{IsRising};
ghost use Rattle.reach_rules.specs.Agreement.{IsAgreedBound};
ghost use Rattle.reach_rules.specs.Failing.{IsFailureBound, is_planned};
ghost use Rattle.nominate.specs.HopCount.{count_at, is_one_less, AreHopCounts};
ghost use Rattle.protection.specs.Orderly.{is_apart, stands_apart, is_first_choice, ComesByFewest, IsOrderly};
ghost use Rattle.protection.specs.private.Trying.{bundle_at};

use cycle_plan::{Agreement, Ranked, agree, rank_plan};
use nominate::{Hops, is_one_less};
use std::alloc::Global;
use sync_text::NoMemory;
use sync_topo::{InputId, LineId, Plan};

/// Whether a plan is orderly, by two bundles for each element of which its lines are to be, and by the
/// hops of the elements.
pub(crate) fn is_orderly(
    alloc: Global,
    plan: &Plan,
    firsts: &[Option<u32>],
    seconds: &[Option<u32>],
    hops: &Hops,
) -> Result<bool, NoMemory>
    requires { AreHopCounts plan.now hops.now }
    ensures { IfOk result (λ orderly. IsTrue orderly → IsOrderly plan.now) }
{
    // Every plan keeps the rules.
    let _elements = plan.elements();
    if !are_of_two(plan, firsts, seconds) {
        return Ok(false);
    }
    if !stand_apart(plan) {
        return Ok(false);
    }
    if !come_by_fewest(plan, hops) {
        return Ok(false);
    }
    let rising = rises(alloc, plan)?;
    if !rising {
        return Ok(false);
    }
    let agreed = agrees(alloc, plan)?;
    if !agreed {
        return Ok(false);
    }
    Ok(true)
}

/// Each nominated line is of one of its element's two bundles.
fn are_of_two(plan: &Plan, firsts: &[Option<u32>], seconds: &[Option<u32>]) -> bool
    ensures { IsTrue result → (line : ℕ) → IsNominated plan.now line →
        (line_bundle plan.now line ≡ bundle_at firsts.now (receiver_of plan.now line))
        ⊎ (line_bundle plan.now line ≡ bundle_at seconds.now (receiver_of plan.now line)) }
{
    for number in 0..plan.lines() {
        if !is_of_two(plan, firsts, seconds, LineId(number)) {
            return false;
        }
    }
    true
}

/// The line isn't nominated, or it is of one of its element's two bundles.
fn is_of_two(plan: &Plan, firsts: &[Option<u32>], seconds: &[Option<u32>], line: LineId) -> bool
    requires { line.0 < line_count plan.now }
    ensures { IsTrue result → IsNominated plan.now line.0 →
        (line_bundle plan.now line.0 ≡ bundle_at firsts.now (receiver_of plan.now line.0))
        ⊎ (line_bundle plan.now line.0 ≡ bundle_at seconds.now (receiver_of plan.now line.0)) }
{
    if !plan.nominated(InputId::Line(line)) {
        return true;
    }
    let bundle = plan.bundle(line.0 / 2);
    let element = plan.to(line);
    bundle == bundle_at(firsts, element) || bundle == bundle_at(seconds, element)
}

/// An element's bundle in a list, and 0 where it has none.
fn bundle_at(bundles: &[Option<u32>], element: u32) -> u32
    ensures { result ≡ bundle_at bundles.now element }
{
    match bundles.get(element as usize) {
        Some(Some(bundle)) => *bundle,
        _ => 0,
    }
}

/// Each nominated line stands apart from all other inputs of its element.
fn stand_apart(plan: &Plan) -> bool
    ensures { IsTrue result → (line : ℕ) → IsNominated plan.now line →
        stands_apart plan.now line ≡ true }
{
    for number in 0..plan.lines() {
        let line = LineId(number);
        if plan.nominated(InputId::Line(line)) && !stands_apart(plan, line) {
            return false;
        }
    }
    true
}

/// The line stands apart from all other inputs of its element.
fn stands_apart(plan: &Plan, line: LineId) -> bool
    requires { line.0 < line_count plan.now }
    ensures { result ≡ stands_apart plan.now line.0 }
{
    let inputs = plan.inputs(plan.to(line));
    inputs.iter().all(|input| is_apart(plan, line, *input))
}

/// The input is the line, or it has another number; a source's is smaller.
fn is_apart(plan: &Plan, line: LineId, input: InputId) -> bool
    requires line { line.0 < line_count plan.now }
    requires input { IsInput plan.now input }
    ensures { result ≡ is_apart plan.now line.0 input }
{
    let priority = plan.priority(InputId::Line(line));
    match input {
        InputId::Line(other) => other.0 == line.0 || plan.priority(input) != priority,
        InputId::Source(_) => plan.priority(input) < priority,
    }
}

/// Each line that is its element's first choice comes from an element with one hop less.
fn come_by_fewest(plan: &Plan, hops: &Hops) -> bool
    requires { length hops.now ≡ length plan.now.elements }
    ensures { IsTrue result → ComesByFewest plan.now hops.now }
{
    for number in 0..plan.lines() {
        if !comes_by_fewest(plan, hops, LineId(number)) {
            return false;
        }
    }
    true
}

/// The line isn't its element's first choice, or comes from an element with one hop less.
fn comes_by_fewest(plan: &Plan, hops: &Hops, line: LineId) -> bool
    requires counted { length hops.now ≡ length plan.now.elements }
    requires within { line.0 < line_count plan.now }
    ensures { IsTrue result → IsNominated plan.now line.0 → is_first_choice plan.now line.0 ≡ true →
        is_one_less (count_at hops.now (sender_of plan.now line.0))
        (count_at hops.now (receiver_of plan.now line.0)) ≡ true }
{
    let nearer = is_one_less(hops.of(plan.from(line)), hops.of(plan.to(line)));
    nearer || !plan.nominated(InputId::Line(line)) || !is_first_choice(plan, line)
}

/// No input of the line's element has a smaller number than the line.
fn is_first_choice(plan: &Plan, line: LineId) -> bool
    requires { line.0 < line_count plan.now }
    ensures { result ≡ is_first_choice plan.now line.0 }
{
    let priority = plan.priority(InputId::Line(line));
    let inputs = plan.inputs(plan.to(line));
    inputs.iter().all(|input| priority <= plan.priority(*input))
}

/// Ranks rise: no lines hop round in a cycle.
fn rises(alloc: Global, plan: &Plan) -> Result<bool, NoMemory>
    ensures { IfOk result (λ rises. IsTrue rises → (rank : ℕ → ℕ) × IsRising plan.now rank) }
{
    let ranked = rank_plan(alloc, plan)?;
    match ranked {
        Ranked::Ranks(_) => Ok(true),
        Ranked::Cycle(_) => Ok(false),
    }
}

/// Priorities agree with the ways of timing.
fn agrees(alloc: Global, plan: &Plan) -> Result<bool, NoMemory>
    ensures bound { IfOk result (λ agrees. IsTrue agrees → (bound : ℕ) × IsAgreedBound plan.now bound) }
    ensures failures { IfOk result (λ agrees. IsTrue agrees →
        (bound : ℕ) × IsFailureBound (is_planned plan.now) plan.now bound) }
{
    let agreement = agree(alloc, plan)?;
    let Agreement::Bound(_) = agreement else {
        return Ok(false);
    };
    Ok(true)
}
