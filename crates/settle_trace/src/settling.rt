//! Whether a network is settled.

ghost use Rattle.std.specs.Prelude.{◌≡◌, ◌≤◌, ◌<◌, ◌+◌, ◌-◌, ◌↔◌, ℕ, false, IsTrue, IsNone, List};
ghost use Rattle.sync_ql.specs.Moment.{Moment};
ghost use Rattle.sync_ql.specs.Quiet.{IsElementDue};
ghost use Rattle.sync_topo.specs.declared.event.Event.{Event};
ghost use Rattle.sync_topo.specs.declared.input.InputId.{InputId};
ghost use Rattle.sync_topo.specs.Lines.{IsNominated, IsInput, is_nominated_input, line_count};
ghost use Rattle.sync_element.specs.StandsFor.{StandsFor as ElementStandsFor};
ghost use Rattle.sync_element.specs.Due.{NoneEnds};
ghost use Rattle.sync_topo.specs.Hops.{IsRising};
ghost use Rattle.sync_topo.specs.WellFormed.{IsWellFormed};
ghost use Rattle.net_rules.specs.History.{level_at};
ghost use Rattle.net_rules.specs.Settled.{IsSteady, IsSettled};
ghost use Rattle.net_rules.specs.Settling.{NoneAfter, AreUnswitchedBefore, IsSettlingBound};
ghost use Rattle.net_rules.specs.Staying.{IsSameAt};
ghost use Rattle.net_rules.specs.Walks.{IsClosedWalk, TraceEnd, IsTrace};
ghost use Rattle.net_rules.specs.Safety.{IsEndLevel};
ghost use Rattle.sync_net.specs.Standing.{StandsFor};
ghost use Rattle.settle_trace.specs.Now.{now_of, signals_of, out_of, taken_now, IsSettledNow};
ghost use Rattle.settle_trace.specs.private.Resting.{IsLineSettled};

use crate::lines::is_at_rest;
use sync_element::Element;
use sync_net::Net;
use sync_topo::{InputId, LineId};

/// Whether the millisecond of the network's last step is settled: no time of an input runs, and no
/// message that is on its way would change what is heard.
///
/// The network isn't spent, and has stepped. It takes no memory, and time by the number of elements,
/// lines and words on their way; none of them is looked at where nothing is due. This project's own.
pub fn settled(net: &Net<'_>) -> bool
    requires live { net.now.spent ≡ false }
    requires stepped { 0 < net.now.next }
    ensures exact { (all : List Event) → StandsFor net.now all net.now.next →
        IsTrue result ↔ IsSettledNow net.now all }
    // If nothing happens any more, it stays so.
    ensures stays { IsTrue result → (all : List Event) → StandsFor net.now all net.now.next →
        NoneAfter all (now_of net.now) → AreUnswitchedBefore net.now.plan all (now_of net.now) →
        (u : ℕ) → now_of net.now ≤ u →
        IsSettled net.now.plan (signals_of net.now all) (out_of net.now all) u
        × IsSameAt net.now.plan (signals_of net.now all) (out_of net.now all) (now_of net.now) u }

    // From the settling bound after the last event on it is so.
    ensures bound { (all : List Event) (last bound : ℕ) → StandsFor net.now all net.now.next →
        NoneAfter all last → IsSettlingBound net.now.plan last bound → bound ≤ now_of net.now →
        IsTrue result }

    // Where ranks rise no timing loop stands, and each element has the level at the end of its trace.
    ensures loop_free { IsTrue result → (all : List Event) (rank : ℕ → ℕ) →
        StandsFor net.now all net.now.next → IsRising net.now.plan rank →
        (lines : List ℕ) → ¬ IsClosedWalk net.now.plan (taken_now net.now all) lines }
    ensures traced { IsTrue result → (all : List Event) (rank : ℕ → ℕ) →
        StandsFor net.now all net.now.next → IsRising net.now.plan rank →
        (element : ℕ) (lines : List ℕ) (end : TraceEnd) →
        IsTrace net.now.plan (taken_now net.now all) element lines end →
        IsEndLevel net.now.plan (signals_of net.now all) (now_of net.now)
        (level_at net.now.plan (signals_of net.now all) (out_of net.now all) element
        (now_of net.now)) end }
{
    net_rules::event_law();
    net_rules::history_law();
    net_rules::rising_law();
    is_settled(net)
}

/// Whether nothing is due, or no time of an input runs and each line is settled.
fn is_settled(net: &Net<'_>) -> bool
    requires live { net.now.spent ≡ false }
    requires stepped { 0 < net.now.next }
    ensures exact { (all : List Event) → StandsFor net.now all net.now.next →
        IsTrue result ↔ IsSettledNow net.now all }
    ensures well_formed { IsWellFormed net.now.plan }
{
    net_rules::settled_law();
    let _elements = net.plan().elements();
    if net.due().is_none() {
        return true;
    }
    let steady = are_inputs_steady(net);
    let settled = are_lines_settled(net);
    steady && settled
}

/// Whether no time of an input runs.
fn are_inputs_steady(net: &Net<'_>) -> bool
    requires live { net.now.spent ≡ false }
    requires stepped { 0 < net.now.next }
    ensures well_formed { IsWellFormed net.now.plan }
    ensures steady { (all : List Event) → StandsFor net.now all net.now.next →
        IsTrue result ↔ ((input : InputId) → IsInput net.now.plan input →
        IsTrue (is_nominated_input net.now.plan input) →
        IsSteady net.now.plan (signals_of net.now all) input (net.now.next - 1)) }
{
    for element in 0..net.plan().elements() {
        if !none_ends(net.element(element)) {
            return false;
        }
    }
    true
}

/// Whether no condition of the element's inputs ends.
fn none_ends(element: &Element) -> bool
    ensures value { IsTrue result ↔ IsNone element.now.due }
    ensures ends { (past : List Moment) → ElementStandsFor element.now past →
        IsNone element.now.due ↔ NoneEnds element.now.settings past }
    ensures next { (past : List Moment) → ElementStandsFor element.now past →
        IsElementDue element.now.settings past element.now.due }
{
    element.due().is_none()
}

/// Whether each line is settled.
fn are_lines_settled(net: &Net<'_>) -> bool
    requires live { net.now.spent ≡ false }
    requires stepped { 0 < net.now.next }
    ensures { (all : List Event) → StandsFor net.now all net.now.next →
        IsTrue result ↔ ((line : ℕ) → IsNominated net.now.plan line →
        IsLineSettled net.now.plan (signals_of net.now all) (out_of net.now all)
        (net.now.next - 1) line) }
{
    for number in 0..net.plan().lines() {
        if !is_line_settled(net, LineId(number)) {
            return false;
        }
    }
    true
}

/// Whether a line is settled, where it is nominated.
fn is_line_settled(net: &Net<'_>, line: LineId) -> bool
    requires live { net.now.spent ≡ false }
    requires stepped { 0 < net.now.next }
    requires within { line.0 < line_count net.now.plan }
    ensures { (all : List Event) → StandsFor net.now all net.now.next →
        IsTrue result ↔ (IsNominated net.now.plan line.0 →
        IsLineSettled net.now.plan (signals_of net.now all) (out_of net.now all)
        (net.now.next - 1) line.0) }
{
    match net.now() {
        Some(now) if net.plan().nominated(InputId::Line(line)) => is_at_rest(net.line(line), now),
        _ => true,
    }
}
