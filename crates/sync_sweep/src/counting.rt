//! What the elements of a network have in common.

ghost use Rattle.std.specs.Prelude.{◌≡◌, ◌<◌, false, List, length};
ghost use Rattle.sync_ql.specs.Table.{levels_of};
ghost use Rattle.sync_topo.specs.declared.event.Event.{Event};
ghost use Rattle.sync_topo.specs.WellFormed.{IsWellFormed};
ghost use Rattle.sync_net.specs.Standing.{StandsFor};
ghost use Rattle.settle_trace.specs.Now.{now_of};
ghost use Rattle.sync_sweep.specs.Outcomes.{IsWorstOf};
ghost use Rattle.sync_sweep.specs.private.ShownNow.{AreStates, AreLevels, AreShown};
ghost use Rattle.sync_sweep.specs.private.Counts.{AreCounted};

use crate::counted_levels::CountedLevels;
use crate::counted_states::{CountedStates, States};
use crate::shown::ShownCounts;
use sync_net::Net;
use sync_ql::{Level, NetOption, do_not_use};

/// How many elements are in each state, and the worst level that one has.
#[derive(Clone, Copy, Debug, PartialEq, Eq)]
pub struct Tally {
    pub states: States,
    pub worst: Level,
}

/// The states and the worst level of a plan's elements in the millisecond of the last step, by what
/// is shown. It takes the same time for any number of elements.
pub(crate) fn tally_of(net: &Net<'_>, shown: &ShownCounts) -> Tally
    requires live { net.now.spent ≡ false }
    requires stepped { 0 < net.now.next }
    requires shown { AreShown net.now shown.now }
    requires well_formed { IsWellFormed net.now.plan }
    requires some { 0 < length net.now.plan.elements }
    ensures counted { (all : List Event) → StandsFor net.now all net.now.next →
        AreCounted net.now.plan all (now_of net.now) (length net.now.plan.elements) result.states }
    ensures worst { (all : List Event) → StandsFor net.now all net.now.next →
        IsWorstOf net.now.plan all (now_of net.now) (length net.now.plan.elements) result.worst }
{
    Tally {
        states: states_of(net, &shown.states),
        worst: worst_of(net, &shown.levels),
    }
}

/// How many of a plan's elements are in each state.
fn states_of(net: &Net<'_>, states: &CountedStates) -> States
    requires live { net.now.spent ≡ false }
    requires stepped { 0 < net.now.next }
    requires shown { AreStates net.now states.now }
    requires some { 0 < length net.now.plan.elements }
    ensures { (all : List Event) → StandsFor net.now all net.now.next →
        AreCounted net.now.plan all (now_of net.now) (length net.now.plan.elements) result }
{
    sync_net::elements_law();
    let _element = net.element(0);
    states.counts()
}

/// The worst level that one of a plan's elements has.
fn worst_of(net: &Net<'_>, levels: &CountedLevels) -> Level
    requires live { net.now.spent ≡ false }
    requires stepped { 0 < net.now.next }
    requires shown { AreLevels net.now levels.now }
    requires well_formed { IsWellFormed net.now.plan }
    requires some { 0 < length net.now.plan.elements }
    ensures { (all : List Event) → StandsFor net.now all net.now.next →
        IsWorstOf net.now.plan all (now_of net.now) (length net.now.plan.elements) result }
{
    sync_net::elements_law();
    let _element = net.element(0);
    level_at(net.plan().option(), levels.greatest_place())
}

/// The level at a place of an option's table, and the last one where the table doesn't go so far.
fn level_at(option: NetOption, place: u8) -> Level
    ensures option { result.option ≡ option }
    ensures place { place < length (levels_of option) → result.place ≡ place }
{
    let last = do_not_use(option);
    if place < last.place {
        return Level { option, place };
    }
    last
}
