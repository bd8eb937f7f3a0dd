//! The traces of elements, and the closed walks that stand.

ghost use Rattle.std.specs.Prelude.{◌≡◌, ◌<◌, ℕ, false, List, length, map, slice_get, Some, IfOk};
ghost use Rattle.std.specs.List.{All};
ghost use Rattle.sync_text.specs.Each.{Each};
ghost use Rattle.sync_topo.specs.declared.event.Event.{Event};
ghost use Rattle.sync_topo.specs.Hops.{IsRising};
ghost use Rattle.sync_topo.specs.Lines.{numbers};
ghost use Rattle.sync_topo.specs.WellFormed.{IsWellFormed};
ghost use Rattle.net_rules.specs.History.{level_at};
ghost use Rattle.net_rules.specs.Safety.{IsEndLevel};
ghost use Rattle.net_rules.specs.Walks.{IsFacingPair, IsTrace};
ghost use Rattle.sync_net.specs.Standing.{StandsFor};
ghost use Rattle.closed_walks.specs.declared.traced.Ending.{Ending};
ghost use Rattle.closed_walks.specs.Loops.{AreLoops};
ghost use Rattle.closed_walks.specs.Taking.{taken_in_list, AreTaken};
ghost use Rattle.closed_walks.specs.Traces.{end_of, EndsSo};
ghost use Rattle.closed_walks.specs.Within.{AreLinesOf, IsEndOf};
ghost use Rattle.settle_trace.specs.Now.{now_of, signals_of, out_of, taken_now, IsSettledNow};

use crate::taken::taken_inputs;
use closed_walks::{Ending, Traced, Walk, endings_of, follow, no_marks, walks_of};
use std::alloc::Global;
use sync_net::Net;
use sync_text::{NoMemory, Rows};
use sync_topo::{InputId, Plan};

/// The trace of an element in the millisecond of the network's last step: what is taken, followed
/// backwards from the element.
///
/// The network isn't spent, and has stepped, and the element is one of its plan. It takes time by the
/// number of elements. `NoMemory` comes only when out of memory. This project's own.
pub fn trace(alloc: Global, net: &Net<'_>, element: u32) -> Result<Traced, NoMemory>
    requires live { net.now.spent ≡ false }
    requires stepped { 0 < net.now.next }
    requires element { element < length net.now.plan.elements }
    ensures exact { IfOk result (λ traced. (all : List Event) → StandsFor net.now all net.now.next →
        IsTrace net.now.plan (taken_now net.now all) element (numbers traced.lines) (end_of traced.end)) }

    // In a settled millisecond of a network whose ranks rise it comes to no loop, and the element has
    // the level that it comes to.
    ensures traced { IfOk result (λ traced. (all : List Event) (rank : ℕ → ℕ) →
        StandsFor net.now all net.now.next → IsRising net.now.plan rank → IsSettledNow net.now all →
        IsEndLevel net.now.plan (signals_of net.now all) (now_of net.now)
        (level_at net.now.plan (signals_of net.now all) (out_of net.now all) element
        (now_of net.now)) (end_of traced.end)) }
{
    net_rules::history_law();
    net_rules::rising_law();
    let taken = taken_inputs(alloc, net)?;
    trace_in(alloc, net.plan(), taken.as_slice(), element)
}

/// The trace of an element, by what each takes.
fn trace_in(
    alloc: Global,
    plan: &Plan,
    taken: &[Option<InputId>],
    element: u32,
) -> Result<Traced, NoMemory>
    requires taken { AreTaken plan.now taken.now }
    requires element { element < length plan.now.elements }
    ensures exact { IfOk result (λ traced. IsTrace plan.now (taken_in_list taken.now) element
        (numbers traced.lines) (end_of traced.end)) }
    ensures well_formed { IsWellFormed plan.now }
{
    let mut met = no_marks(alloc, plan.elements())?;
    let way = follow(alloc, plan, taken, met.as_mut_slice(), element)?;
    Ok(Traced {
        lines: way.lines,
        end: way.end,
    })
}

/// How the trace of each element ends in the millisecond of the network's last step, in the order of
/// the elements: of how many lines it is, and where it ends.
///
/// The network isn't spent, and has stepped. It takes time by the number of elements and lines of the
/// plan, however long the traces are. `NoMemory` comes only when out of memory. This project's own.
pub fn traces(alloc: Global, net: &Net<'_>) -> Result<Rows<Ending>, NoMemory>
    requires live { net.now.spent ≡ false }
    requires stepped { 0 < net.now.next }
    ensures count { IfOk result (λ endings. length endings ≡ length net.now.plan.elements) }
    ensures exact { IfOk result (λ endings. (all : List Event) → StandsFor net.now all net.now.next →
        (element : ℕ) (ending : Ending) → slice_get endings element ≡ Some ending →
        EndsSo net.now.plan (taken_now net.now all) element ending) }
    ensures of_plan { IfOk result (All (IsEndOf net.now.plan)) }
{
    let taken = taken_inputs(alloc, net)?;
    endings_of(alloc, net.plan(), taken.as_slice())
}

/// The closed walks in the millisecond of the network's last step: each once, from its lowest line,
/// in the order of these.
///
/// The network isn't spent, and has stepped. It takes time by the number of elements and lines of the
/// plan. `NoMemory` comes only when out of memory. After G.781 and G.803, that timing must not go
/// round; the order is this project's own.
pub fn loops(alloc: Global, net: &Net<'_>) -> Result<Rows<Walk>, NoMemory>
    requires live { net.now.spent ≡ false }
    requires stepped { 0 < net.now.next }
    ensures exact { IfOk result (λ walks. (all : List Event) → StandsFor net.now all net.now.next →
        AreLoops net.now.plan (taken_now net.now all) (map numbers walks)) }
    ensures of_plan { IfOk result (All (AreLinesOf net.now.plan)) }

    // Where ranks rise, each is two elements that face each other on one link or bundle.
    ensures facing { IfOk result (λ walks. (all : List Event) (rank : ℕ → ℕ) →
        StandsFor net.now all net.now.next → IsRising net.now.plan rank →
        Each (IsFacingPair net.now.plan) (map numbers walks)) }
{
    net_rules::history_law();
    net_rules::rising_law();
    let taken = taken_inputs(alloc, net)?;
    walks_of(alloc, net.plan(), taken.as_slice())
}
