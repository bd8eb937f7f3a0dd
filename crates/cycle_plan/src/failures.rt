// For how long after failures a network of a plan may change.

ghost use Rattle.std.specs.Prelude.{◌≡◌, ◌≢◌, ◌≤◌, ◌<◌, ◌+◌, ◌*◌, ℕ, suc, None, IfOk, length, if◌then◌else◌};
ghost use Rattle.sync_topo.specs.declared.returns.ReturnRule.{ReturnRule};
ghost use Rattle.sync_topo.specs.Limits.{greatest_delay, greatest_holdoff, link_limit};
ghost use Rattle.sync_topo.specs.Lines.{IsNominated};
ghost use Rattle.net_rules.specs.Settling.{IsGreatest};
ghost use Rattle.net_rules.specs.Losing.{IsHoldoff};
ghost use Rattle.rank_cert.specs.Ranks.{rank_at};
ghost use Rattle.reach_rules.specs.Failing.{is_planned, count_below, IsFailureBound};
ghost use Rattle.cycle_plan.specs.private.GoingBack.{IsDone};
ghost use Rattle.cycle_plan.specs.private.Latest.{has_level};

use crate::agreement::high_levels;
use crate::bound::{greater, greatest_delay};
use crate::ranking::Ranking;
use std::alloc::Global;
use sync_text::NoMemory;
use sync_topo::{InputId, Plan};

/// For how long after failures a network of the plan may change, where no line is left over by what
/// bears on what: the greatest hold-off time; plus, for each level of a nominated source that is
/// better than every own clock, the longest time of a line; plus twice the greatest delay.
pub(crate) fn failure_bound(alloc: Global, plan: &Plan, ranking: &Ranking) -> Result<u64, NoMemory>
    requires done { IsDone ReturnRule.BarredFromLast plan.now ranking.now }
    requires ranked { (line : ℕ) → IsNominated plan.now line → rank_at ranking.now.ranks line ≢ None }
    ensures bound { IfOk result (IsFailureBound (is_planned plan.now) plan.now) }
{
    let longest = ranking.longest_time(alloc, plan)?;
    let levels = planned_levels(plan, high_levels(plan));
    let delay = u64::from(greatest_delay(plan));
    Ok(longest_holdoff(plan) + time_of_turns(levels, longest) + 2 * delay)
}

/// A time once for each of so many levels.
fn time_of_turns(levels: u64, time: u64) -> u64
    requires levels { levels ≤ 13 }
    requires time { time ≤ (2 * link_limit + 1) * greatest_delay }
    ensures turns { result ≡ levels * time }
    ensures at_most { result ≤ 13 * ((2 * link_limit + 1) * greatest_delay) }
{
    levels * time
}

/// The greatest hold-off time of the plan's elements, in milliseconds, or 0 where there is none.
fn longest_holdoff(plan: &Plan) -> u64
    ensures greatest { IsGreatest (IsHoldoff plan.now) result }
    ensures at_most { result ≤ greatest_holdoff }
{
    let mut longest = 0;
    for element in 0..plan.elements() {
        longest = greater(longest, u64::from(plan.element(element).holdoff));
    }
    longest
}

/// How many of the first levels of the table nominated sources of the plan have.
fn planned_levels(plan: &Plan, high: u64) -> u64
    requires { high ≤ 13 }
    ensures count { result ≡ count_below (is_planned plan.now) high }
    ensures few { result ≤ high }
{
    let mut count = 0;
    for place in 0..high {
        count = one_more_if(count, is_planned(plan, place));
    }
    count
}

/// One more, if so.
fn one_more_if(count: u64, more: bool) -> u64
    requires { count < 13 }
    ensures { result ≡ (if more then suc count else count) }
{
    if more { count + 1 } else { count }
}

/// Whether a nominated source of the plan has the level at a place of the table.
fn is_planned(plan: &Plan, place: u64) -> bool
    ensures { result ≡ is_planned plan.now place }
{
    for source in 0..plan.sources() {
        if has_level(plan, source, place) {
            return true;
        }
    }
    false
}

/// Whether a source is nominated and has the level at a place of the table.
fn has_level(plan: &Plan, source: u32, place: u64) -> bool
    requires { source < length plan.now.sources }
    ensures { result ≡ has_level plan.now place source }
{
    plan.nominated(InputId::Source(source)) && u64::from(plan.source(source).level.place) == place
}
