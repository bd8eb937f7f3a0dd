// From when on a network of a plan is settled after its last event.

ghost use Rattle.std.specs.Prelude.{◌≡◌, ◌≢◌, ◌≤◌, ◌<◌, ◌+◌, ◌*◌, ℕ, max, false, IsTrue, IfOk, Some, MatchOption, length};
ghost use Rattle.sync_topo.specs.Lines.{line_count};
ghost use Rattle.net_rules.specs.Settling.{IsOneWay, IsDelay, IsWait, IsGreatest, IsSettlingBound};
ghost use Rattle.rank_cert.specs.Ranks.{rank_at};
ghost use Rattle.cycle_plan.specs.private.BoundParts.{AreDirections, IsRankBelow};

use crate::ranked::{Ranked, rank_plan};
use rank_cert::Cert;
use std::alloc::Global;
use sync_ql::limits::{GREATEST_DELAY, GREATEST_WTR, HEARING_TIME, LAST_MILLISECOND};
use sync_text::NoMemory;
use sync_topo::{Element, InputId, LineId, MOST_LINKS, Plan, bundle_law};

/// From when on a network of the plan is settled after its last event, at 0 to 86,400,000
/// milliseconds: whatever happened until then, it is settled in every millisecond from the answer on.
///
/// `None` exactly where the plan has no such bound: two nominated lines of one link or bundle run in
/// opposite directions, or there is a cycle of hops. The bound is the last event's millisecond, plus
/// the longest of all hold-off and wait-to-restore times and of five seconds and the greatest delay,
/// plus 1, plus the greatest delay once for each rank from 0 to the greatest.
/// This project's own, over the times of G.781 and G.8264.
pub fn settling_bound(alloc: Global, plan: &Plan, last: u64) -> Result<Option<u64>, NoMemory>
    requires in_range { last ≤ LAST_MILLISECOND }
    ensures bound { IfOk result (λ bound. MatchOption bound
        ((other : ℕ) → ¬ IsSettlingBound plan.now last other) (IsSettlingBound plan.now last)) }
{
    if !is_one_way(alloc, plan)? {
        return Ok(None);
    }
    match rank_plan(alloc, plan)? {
        Ranked::Cycle(_) => Ok(None),
        Ranked::Ranks(cert) => {
            let delay = u64::from(greatest_delay(plan));
            let wait = longest_wait(plan, delay);
            let rank = greatest_rank(plan, &cert);
            Ok(Some(last + wait + 1 + time_of_ranks(rank, delay)))
        }
    }
}

/// The delay once for each rank from 0 to the greatest.
pub(crate) fn time_of_ranks(rank: u64, delay: u64) -> u64
    requires rank { rank ≤ 2 * MOST_LINKS }
    requires delay { delay ≤ GREATEST_DELAY }
    ensures time { result ≡ (rank + 1) * delay }
    ensures at_most { result ≤ (2 * MOST_LINKS + 1) * GREATEST_DELAY }
{
    (rank + 1) * delay
}

/// Whether no two nominated lines of one bundle run in opposite directions.
fn is_one_way(alloc: Global, plan: &Plan) -> Result<bool, NoMemory>
    ensures one_way { IfOk result (λ one_way. IsTrue one_way → IsOneWay plan.now) }
    ensures both_ways { IfOk result (λ one_way. one_way ≡ false → ¬ IsOneWay plan.now) }
{
    let Ok(mut receivers) = vec![in alloc; None; plan.links() as usize] else {
        return Err(NoMemory);
    };
    for number in 0..plan.lines() {
        if !keeps_direction(plan, LineId(number), receivers.as_mut_slice()) {
            return Ok(false);
        }
    }
    Ok(true)
}

/// Keeps the direction of a line for its bundle, if it is nominated: false where it is the opposite of
/// what is kept.
fn keeps_direction(plan: &Plan, line: LineId, receivers: &mut [Option<u32>]) -> bool
    requires within { line.0 < line_count plan.now }
    requires before { AreDirections plan.now line.0 receivers.old }
    ensures kept { IsTrue result → AreDirections plan.now (line.0 + 1) receivers.new }
    ensures opposite { result ≡ false → ¬ IsOneWay plan.now }
{
    bundle_law();
    if !plan.nominated(InputId::Line(line)) {
        return true;
    }
    let bundle = plan.bundle(line.0 / 2) as usize;
    let receiver = plan.to(line);
    match receivers[bundle] {
        Some(other) => other == receiver,
        None => {
            receivers[bundle] = Some(receiver);
            true
        }
    }
}

/// The greatest delay of a nominated line, in milliseconds, or 0 where there is none.
pub(crate) fn greatest_delay(plan: &Plan) -> u32
    ensures greatest { IsGreatest (IsDelay plan.now) result }
    ensures at_most { result ≤ GREATEST_DELAY }
{
    let mut greatest = 0;
    for number in 0..plan.lines() {
        let line = LineId(number);
        if plan.nominated(InputId::Line(line)) {
            greatest = greatest.max(plan.delay(line));
        }
    }
    greatest
}

/// The greatest rank of a line, or 0 where none has one.
pub(crate) fn greatest_rank(plan: &Plan, cert: &Cert) -> u64
    requires counted { length cert.now ≡ line_count plan.now }
    requires few { (line rank : ℕ) → rank_at cert.now line ≡ Some rank → rank < line_count plan.now }
    ensures greatest { IsRankBelow plan.now cert.now (line_count plan.now) result }
    ensures few { result ≤ 2 * MOST_LINKS }
{
    let mut greatest = 0;
    for number in 0..plan.lines() {
        greatest = greater(greatest, cert.rank(LineId(number)).unwrap_or(0));
    }
    greatest
}

/// The greater of two numbers.
pub(crate) fn greater(one: u64, other: u64) -> u64
    ensures { result ≡ max one other }
{
    one.max(other)
}

/// The longest wait, in milliseconds: of all hold-off and wait-to-restore times and of the time for
/// which a level is heard with the greatest delay.
pub(crate) fn longest_wait(plan: &Plan, delay: u64) -> u64
    requires delay { delay ≤ GREATEST_DELAY }
    ensures longest { IsGreatest (IsWait plan.now delay) result }
    ensures at_most { result ≤ GREATEST_WTR }
{
    let mut longest = HEARING_TIME + delay;
    for element in 0..plan.elements() {
        longest = greater(longest, longer_time(plan.element(element)));
    }
    longest
}

/// The longer of the times of an element.
fn longer_time(element: &Element) -> u64
    ensures { result ≡ max element.now.holdoff element.now.wtr }
{
    greater(u64::from(element.holdoff), u64::from(element.wtr))
}
