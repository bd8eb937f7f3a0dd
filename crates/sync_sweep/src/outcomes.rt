//! What becomes of a network in a run, at its end.

ghost use Rattle.std.specs.Prelude.{◌≡◌, ◌≤◌, ◌<◌, ℕ, true, false, IsTrue, List, length, IfOk, IfSome};
ghost use Rattle.net_rules.specs.Settling.{NoneAfter};
ghost use Rattle.net_rules.specs.Walks.{IsClosedWalk};
ghost use Rattle.sync_topo.specs.declared.event.Event.{Event};
ghost use Rattle.sync_topo.specs.Topology.{Topology};
ghost use Rattle.sync_topo.specs.Hops.{IsRising};
ghost use Rattle.sync_net.specs.Standing.{StandsFor};
ghost use Rattle.settle_trace.specs.Now.{now_of, taken_now};
ghost use Rattle.sync_sweep.specs.Outcomes.{AreSoManyLoops, IsShown, IsBoundAfter};
ghost use Rattle.sync_sweep.specs.private.ShownNow.{AreShown};

use crate::counting::tally_of;
use crate::shown::ShownCounts;
use settle_trace::{Walk, loops, settled};
use std::alloc::Global;
use sync_net::Net;
use sync_ql::Level;
use sync_text::NoMemory;

/// What becomes of a network in a run.
///
/// After G.781, quality levels and the states of a clock; the rest is this project's own.
#[derive(Clone, Copy, Debug, PartialEq, Eq, Drop)]
pub struct Outcome {
    /// Whether the last millisecond is settled.
    pub settled: bool,
    /// How many elements are locked to an input.
    pub locked: u32,
    /// How many hold the frequency of an input that they had.
    pub holdover: u32,
    /// How many never had one.
    pub free: u32,
    /// How many closed walks there are.
    pub loops: u32,
    /// The worst level that an element has.
    pub worst: Level,
    /// The millisecond from which on the network is settled, where the plan has such a bound.
    pub bound: Option<u64>,
}

/// The settling bound after a millisecond, by the one after a later one.
pub(crate) fn bound_after(bound: Option<u64>, until: u64, last: u64) -> Option<u64>
    requires earlier { last ≤ until }
    requires late { IfSome bound (λ bound. until ≤ bound) }
    ensures { (plan : Topology) → IsBoundAfter plan until bound → IsBoundAfter plan last result }
{
    match bound {
        Some(bound) => Some(bound - (until - last)),
        None => None,
    }
}

/// How many closed walks there are in the millisecond of the last step.
fn count_loops(alloc: Global, net: &Net<'_>) -> Result<u32, NoMemory>
    requires live { net.now.spent ≡ false }
    requires stepped { 0 < net.now.next }
    requires some { (all : List Event) × StandsFor net.now all net.now.next }
    ensures { IfOk result (λ count. (all : List Event) → StandsFor net.now all net.now.next →
        AreSoManyLoops net.now.plan (taken_now net.now all) count) }
{
    net_rules::taken_law();
    let lines = net.plan().lines();
    let walks = loops(alloc, net)?;
    Ok(count_of(walks.as_slice(), lines))
}

/// How many there are, at most a number.
fn count_of(walks: &[Walk], most: u32) -> u32
    requires few { length walks.now ≤ most }
    ensures { result ≡ length walks.now }
{
    walks.len() as u32
}

/// How many closed walks there are in the millisecond of the last step. Where it is settled and the
/// plan has a settling bound none is looked for, since ranks rise.
fn loops_of(
    alloc: Global,
    net: &Net<'_>,
    settled: bool,
    last: u64,
    bound: Option<u64>,
) -> Result<u32, NoMemory>
    requires live { net.now.spent ≡ false }
    requires stepped { 0 < net.now.next }
    requires some { (all : List Event) × StandsFor net.now all net.now.next }
    requires bound { IsBoundAfter net.now.plan last bound }
    requires loop_free { IsTrue settled → (all : List Event) → StandsFor net.now all net.now.next →
        (rank : ℕ → ℕ) → IsRising net.now.plan rank →
        (lines : List ℕ) → ¬ IsClosedWalk net.now.plan (taken_now net.now all) lines }
    ensures { IfOk result (λ count. (all : List Event) → StandsFor net.now all net.now.next →
        AreSoManyLoops net.now.plan (taken_now net.now all) count) }
{
    if settled && bound.is_some() {
        return Ok(0);
    }
    count_loops(alloc, net)
}

/// What becomes of a network that its run has brought to the end, whose last event was in a
/// millisecond.
pub(crate) fn outcome_of(
    alloc: Global,
    net: &Net<'_>,
    shown: &ShownCounts,
    last: u64,
    bound: Option<u64>,
) -> Result<Outcome, NoMemory>
    requires live { net.now.spent ≡ false }
    requires stepped { 0 < net.now.next }
    requires elements { 0 < length net.now.plan.elements }
    requires some { (all : List Event) × StandsFor net.now all net.now.next }
    requires shown { AreShown net.now shown.now }
    requires bound { IsBoundAfter net.now.plan last bound }
    ensures shown { IfOk result (λ outcome. (all : List Event) →
        StandsFor net.now all net.now.next → IsShown net.now.plan all (now_of net.now) outcome) }
    ensures bound { IfOk result (λ outcome. outcome.bound ≡ bound) }
    ensures due { IfOk result (λ outcome. (all : List Event) →
        StandsFor net.now all net.now.next → NoneAfter all last →
        IfSome outcome.bound (λ bound. bound ≤ now_of net.now → outcome.settled ≡ true)) }
{
    let _elements = net.plan().elements();
    let tally = tally_of(net, shown);
    let settled = settled(net);
    let loops = loops_of(alloc, net, settled, last, bound)?;
    Ok(Outcome {
        settled,
        locked: tally.states.locked,
        holdover: tally.states.holdover,
        free: tally.states.free,
        loops,
        worst: tally.worst,
        bound,
    })
}
