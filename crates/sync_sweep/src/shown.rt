//! What the elements of a network show, kept so that a row asks no element that its run left alone.

ghost use Rattle.std.specs.Prelude.{◌≡◌, ◌<◌, false, length, IfOk};
ghost use Rattle.std.specs.List.{All};
ghost use Rattle.sync_net.specs.NetState.{NetState};
ghost use Rattle.sync_sweep.specs.private.ShownNow.{ShowsState, ShowsLevel, AreStates, AreLevels, AreShown, AreAlikeBut};

use crate::counted_levels::CountedLevels;
use crate::counted_states::CountedStates;
use std::alloc::Global;
use sync_element::Element;
use sync_net::Net;
use sync_ql::Level;
use sync_ql::rules::ClockState;
use sync_text::NoMemory;

/// The state and the level of each element, by its number, counted.
#[derive(Debug, Drop)]
pub struct ShownCounts {
    pub states: CountedStates,
    pub levels: CountedLevels,
}

/// What each element of a network shows.
pub(crate) fn all_shown(alloc: Global, net: &Net<'_>) -> Result<ShownCounts, NoMemory>
    requires live { net.now.spent ≡ false }
    ensures { IfOk result (AreShown net.now) }
{
    Ok(ShownCounts {
        states: all_states(alloc, net)?,
        levels: all_levels(alloc, net)?,
    })
}

/// What is kept of another network becomes what is shown by a network that differs from it at some
/// places alone.
pub(crate) fn note_shown(net: &Net<'_>, shown: &mut ShownCounts, places: &[u32])
    requires live { net.now.spent ≡ false }
    requires within { All (λ e. e < length net.now.plan.elements) places.now }
    requires states { length shown.old.states ≡ length net.now.plan.elements }
    requires levels { length shown.old.levels ≡ length net.now.plan.elements }
    ensures shown { (base : NetState) → base.plan ≡ net.now.plan → AreShown base shown.old →
        AreAlikeBut places.now net.now base → AreShown net.now shown.new }
{
    note_states(net, &mut shown.states, places);
    note_levels(net, &mut shown.levels, places);
}

fn all_states(alloc: Global, net: &Net<'_>) -> Result<CountedStates, NoMemory>
    requires live { net.now.spent ≡ false }
    ensures { IfOk result (λ states. AreStates net.now states) }
{
    let mut states = CountedStates::new(alloc);
    for element in 0..net.plan().elements() {
        states.push(state_of(net.element(element)))?;
    }
    Ok(states)
}

fn all_levels(alloc: Global, net: &Net<'_>) -> Result<CountedLevels, NoMemory>
    requires live { net.now.spent ≡ false }
    ensures { IfOk result (λ levels. AreLevels net.now levels) }
{
    let mut levels = CountedLevels::new(alloc);
    for element in 0..net.plan().elements() {
        levels.push(level_of(net.element(element)))?;
    }
    Ok(levels)
}

fn note_states(net: &Net<'_>, states: &mut CountedStates, places: &[u32])
    requires live { net.now.spent ≡ false }
    requires within { All (λ e. e < length net.now.plan.elements) places.now }
    requires count { length states.old ≡ length net.now.plan.elements }
    ensures count { length states.new ≡ length states.old }
    ensures shown { (base : NetState) → base.plan ≡ net.now.plan → AreStates base states.old →
        AreAlikeBut places.now net.now base → AreStates net.now states.new }
{
    for place in places {
        states.set(*place, state_of(net.element(*place)));
    }
}

fn note_levels(net: &Net<'_>, levels: &mut CountedLevels, places: &[u32])
    requires live { net.now.spent ≡ false }
    requires within { All (λ e. e < length net.now.plan.elements) places.now }
    requires count { length levels.old ≡ length net.now.plan.elements }
    ensures count { length levels.new ≡ length levels.old }
    ensures shown { (base : NetState) → base.plan ≡ net.now.plan → AreLevels base levels.old →
        AreAlikeBut places.now net.now base → AreLevels net.now levels.new }
{
    for place in places {
        levels.set(*place, level_of(net.element(*place)));
    }
}

fn state_of(element: &Element) -> ClockState
    ensures { ShowsState element.now result }
{
    element.state()
}

pub(crate) fn level_of(element: &Element) -> Level
    ensures { ShowsLevel element.now result }
{
    element.level()
}
