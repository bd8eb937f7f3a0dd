// Whether the priorities of a plan agree with the ways of timing, and for how long a network of it
// may then change.

ghost use Rattle.std.specs.Prelude.{◌≡◌, ◌≢◌, ◌≤◌, ◌<◌, ◌+◌, ◌*◌, ℕ, min, Some, None, IfOk, length};
ghost use Rattle.sync_topo.specs.declared.returns.ReturnRule.{ReturnRule};
ghost use Rattle.std.specs.List.{All};
ghost use Rattle.sync_ql.specs.Table.{levels_of};
ghost use Rattle.sync_topo.specs.Lines.{line_count, is_nominated, IsNominated};
ghost use Rattle.sync_topo.specs.Hops.{bears_on};
ghost use Rattle.sync_topo.specs.Ranks.{AreLeastRanks, IsFirstCycle, Circles};
ghost use Rattle.rank_cert.specs.Ranks.{rank_at};
ghost use Rattle.reach_rules.specs.Agreement.{IsHighCount, IsAgreedBound};
ghost use Rattle.reach_rules.specs.Failing.{is_planned, IsFailureBound};
ghost use Rattle.cycle_plan.specs.Agreed.{IfBound, IfFailures, IfClash};
ghost use Rattle.cycle_plan.specs.private.GoingBack.{IsDone};

use crate::bound::{greatest_delay, greatest_rank, longest_wait, time_of_ranks};
use crate::failures::failure_bound;
use crate::ranking::Ranking;
use rank_cert::Cert;
use std::alloc::Global;
use sync_ql::NetOption;
use sync_ql::limits::GREATEST_DELAY;
use sync_text::{NoMemory, Rows};
use sync_topo::{LineId, MOST_LINKS, Plan, ReturnRule};

/// For how many milliseconds a network of a plan that agrees may change.
///
/// This project's own.
#[derive(Clone, Copy, Debug, PartialEq, Eq, Drop)]
pub struct Bounds {
    /// After the last event, whatever happens.
    pub bound: u64,
    /// After the last failure out of a settled millisecond, where nothing comes up and no line's ESMC
    /// goes off.
    pub failures: u64,
}

/// What is found of a plan's priorities.
///
/// This project's own.
#[derive(Debug, Drop)]
pub enum Agreement {
    /// They agree: for how long a network of the plan may change.
    Bound(Bounds),
    /// They clash: the first circle of lines that bear on one another, from its lowest-numbered line.
    Clash(Rows<LineId>),
}

/// Whether the priorities of a plan agree with the ways of timing, and for how long after the last
/// event a network of it may then change; or the first circle of lines that bear on one another.
///
/// A line bears on the line to which it hops, and on the way back over its link or bundle unless it
/// is its element's [last resort](Plan::last_resort). The bound is the longest of all hold-off and
/// wait-to-restore times and of five seconds and the greatest delay; plus, for each level that is
/// better than every own clock and once more, the greatest delay for each rank from 0 to the
/// greatest; plus the greatest delay. What it promises is `agree_law` of reach_rules.
///
/// After failures alone the bound is the greatest hold-off time; plus the longest time of a line for
/// each level of a nominated source that is better than every own clock; plus twice the greatest
/// delay. The time of a line is the greatest of the delays into its sender, and of the times of the
/// lines that bear on it, each with its own delay. What it promises is `failure_law` of reach_rules.
///
/// The work is that of [`rank_plan`](crate::rank_plan). `NoMemory` comes only when out of memory.
///
/// This project's own, over the times of G.781 and G.8264.
pub fn agree(alloc: Global, plan: &Plan) -> Result<Agreement, NoMemory>
    ensures bound { IfBound result (IsAgreedBound plan.now) }
    ensures failures { IfFailures result (IsFailureBound (is_planned plan.now) plan.now) }
    ensures clash { IfClash result (IsFirstCycle (bears_on plan.now)) }
    ensures circle { IfClash result (Circles (bears_on plan.now)) }
    ensures within { IfClash result (All (λ line. line < line_count plan.now)) }

    // So what clashes has no bound.
    ensures never { IfClash result (λ lines. (bound : ℕ) → ¬ IsAgreedBound plan.now bound) }
{
    let returns = ReturnRule::BarredFromLast;
    let ranking = Ranking::of(alloc, returns, plan)?;
    match ranking.first_left(returns, plan) {
        Some(start) => {
            let lines = ranking.first_cycle(alloc, returns, plan, start)?;
            Ok(Agreement::Clash(lines))
        }
        None => {
            let bounds = bounds_of(alloc, plan, &ranking)?;
            Ok(Agreement::Bound(bounds))
        }
    }
}

/// Both bounds, where no line is left over.
fn bounds_of(alloc: Global, plan: &Plan, ranking: &Ranking) -> Result<Bounds, NoMemory>
    requires done { IsDone ReturnRule.BarredFromLast plan.now ranking.now }
    requires ranked { (line : ℕ) → IsNominated plan.now line → rank_at ranking.now.ranks line ≢ None }
    ensures bound { IfOk result (λ bounds. IsAgreedBound plan.now bounds.bound) }
    ensures failures { IfOk result (λ bounds. IsFailureBound (is_planned plan.now) plan.now bounds.failures) }
{
    let failures = failure_bound(alloc, plan, ranking)?;
    let bound = agreed_bound(plan, &ranking.ranks);
    Ok(Bounds { bound, failures })
}

/// The bound by the least ranks over what bears on what.
fn agreed_bound(plan: &Plan, cert: &Cert) -> u64
    requires counted { length cert.now ≡ line_count plan.now }
    requires least { AreLeastRanks (bears_on plan.now) (is_nominated plan.now) (rank_at cert.now) }
    requires few { (line rank : ℕ) → rank_at cert.now line ≡ Some rank → rank < line_count plan.now }
    ensures bound { IsAgreedBound plan.now result }
{
    let delay = u64::from(greatest_delay(plan));
    let wait = longest_wait(plan, delay);
    let time = time_of_ranks(greatest_rank(plan, cert), delay);
    wait + time_of_levels(high_levels(plan), time) + delay
}

/// A time once for each high level, and once more.
fn time_of_levels(high: u64, time: u64) -> u64
    requires high { high ≤ 13 }
    requires time { time ≤ (2 * MOST_LINKS + 1) * GREATEST_DELAY }
    ensures levels { result ≡ (high + 1) * time }
    ensures at_most { result ≤ 14 * (2 * MOST_LINKS + 1) * GREATEST_DELAY }
{
    (high + 1) * time
}

/// How many levels of the plan's option are better than the own clock of every element.
pub(crate) fn high_levels(plan: &Plan) -> u64
    ensures high { IsHighCount plan.now result }
    ensures few { result ≤ 13 }
{
    let mut high = level_count(plan.option());
    for element in 0..plan.elements() {
        high = lesser(high, u64::from(plan.element(element).own.place));
    }
    high
}

/// The lesser of two numbers.
fn lesser(one: u64, other: u64) -> u64
    ensures { result ≡ min one other }
{
    one.min(other)
}

/// How many levels an option has.
fn level_count(option: NetOption) -> u64
    ensures count { result ≡ length (levels_of option) }
    ensures few { result ≤ 13 }
{
    match option {
        NetOption::I => 9,
        NetOption::II => 13,
    }
}
