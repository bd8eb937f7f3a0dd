//! The run of one case on a branch, and what it costs on the way.

ghost use Rattle.std.specs.Prelude.{◌≤◌, ◌<◌, ◌+◌, ◌-◌, List, IfOk, OnOk};
ghost use Rattle.sync_topo.specs.declared.event.Event.{Event};
ghost use Rattle.event_times.specs.EventTimes.{AreTold, AreWithin};
ghost use Rattle.sync_net.specs.Standing.{StandsFor};
ghost use Rattle.sync_sweep.specs.OnWay.{IsOnWay};
ghost use Rattle.sync_sweep.specs.private.AtBase.{CanRun, HasRun};

use crate::branch::{Branch, run_events, show};
use crate::cases::events_from;
use crate::on_way::OnWay;
use crate::spells::take_way;
use event_times::events_until;
use std::marker::Brand;
use std::sync::ledger::Blank;
use sync_ql::limits::LAST_MILLISECOND;
use sync_text::NoMemory;
use sync_topo::Event;

/// The network runs on to the end of a millisecond, and what it shows then is renewed.
fn run_to(branch: &mut Branch<'_>, from: u64, told: &[Event], until: u64) -> Result<OnWay, NoMemory>
    requires branch { CanRun from branch.old }
    requires before { from ≤ until + 1 }
    requires in_range { until ≤ LAST_MILLISECOND }
    requires events { AreWithin branch.old.net.plan from until told.now }
    ensures run { OnOk result (HasRun told.now from until branch.old branch.new) }
    ensures way { IfOk result (λ way. (all : List Event) → 0 < from →
        AreTold branch.old.net.plan all from until told.now → StandsFor branch.old.net all from →
        IsOnWay branch.old.net.plan all (from - 1) until way) }
{
    sync_net::elements_law();
    let _element = branch.net.element(0);
    run_events::<Brand>(branch, from, told, until, Blank::new(1))?;
    let _elements = branch.net.plan().elements();
    let way = take_way(
        branch.spells.as_mut_slice(),
        branch.touched.elements.listed(),
        until + 1,
    );
    show(branch);
    Ok(way)
}

/// The network runs to its end, and what it shows then is renewed. It gives what that costs on the way:
/// how the elements stand after a millisecond, beside how they stood in it.
pub(crate) fn run_case(
    branch: &mut Branch<'_>,
    from: u64,
    told: &[Event],
    before: u64,
    until: u64,
) -> Result<OnWay, NoMemory>
    requires branch { CanRun from branch.old }
    requires before { from ≤ before + 1 }
    requires in_order { before ≤ until }
    requires in_range { until ≤ LAST_MILLISECOND }
    requires events { AreWithin branch.old.net.plan from until told.now }
    ensures run { OnOk result (HasRun told.now from until branch.old branch.new) }
    ensures way { IfOk result (λ way. (all : List Event) →
        AreTold branch.old.net.plan all from until told.now → StandsFor branch.old.net all from →
        IsOnWay branch.old.net.plan all before until way) }
{
    let first = events_from(events_until(told, before), from);
    let _first = run_to(branch, from, first, before)?;
    let rest = events_from(told, before + 1);
    let way = run_to(branch, before + 1, rest, until)?;
    Ok(way)
}
