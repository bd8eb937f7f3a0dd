//! The elements, each with what it chose.

ghost use Rattle.std.specs.Prelude.{◌≡◌, ◌<◌, ◌+◌, ◌++◌, ℕ, false, List, length, IfSome, OnOk};
ghost use Rattle.sync_ql.specs.Moment.{Moment};
ghost use Rattle.sync_ql.specs.Told.{moments_until};
ghost use Rattle.sync_element.specs.ElementState.{IsInTime};
ghost use Rattle.sync_element.specs.StandsFor.{StandsFor as ElementStandsFor};
ghost use Rattle.sync_topo.specs.declared.event.Event.{Event};
ghost use Rattle.sync_topo.specs.Lines.{IsInput};
ghost use Rattle.sync_net.specs.Standing.{StandsFor};
ghost use Rattle.inspection.specs.Inspection.{element_after, element_row, elements_part, clock_text};

use net_words::{input_at, taken_of};
use shown_words::{put_choice, put_taken, state_column};
use std::alloc::Global;
use sync_element::Element;
use sync_net::Net;
use sync_ql::rules::{ClockState, Mode};
use sync_ql::{Level, name_of};
use sync_text::{NoMemory, Text};
use sync_topo::{InputId, Plan};

/// What an element chose. After G.781, selection modes, selected input and clock modes.
#[derive(Clone, Copy, Debug, Drop)]
pub struct InspectedElement {
    /// How its input is chosen.
    pub mode: Mode,
    /// The input that is forced, or else switched to by hand.
    pub switched: Option<InputId>,
    /// The input that is taken.
    pub taken: Option<InputId>,
    /// Its level.
    pub level: Level,
    /// What its clock follows.
    pub state: ClockState,
}

/// Puts all elements, as they are in the millisecond of the last step.
pub(crate) fn put_elements(alloc: Global, text: &mut Text, net: &Net<'_>) -> Result<(), NoMemory>
    requires live { net.now.spent ≡ false }
    ensures put { OnOk result ((all : List Event) (until : ℕ) → StandsFor net.now all (until + 1) →
        text.new ≡ text.old ++ elements_part net.now.plan all until) }
{
    text.put(b"elements\n")?;
    let plan = net.plan();
    for element in 0..plan.elements() {
        let it = inspected(plan, element, net.element(element));
        put_row(alloc, text, plan, element, it)?;
    }
    Ok(())
}

/// What an element of a plan chose, from its last step up to but not at `due`, if nothing is told.
#[tactic(auto, unfolding(crate::specs::Inspection::element_after))]
fn inspected(plan: &Plan, number: u32, element: &Element) -> InspectedElement
    requires within { number < length plan.now.elements }
    ensures chose { (past : List Moment) (n : ℕ) → ElementStandsFor element.now past →
        IsInTime element.now n → result ≡ element_after plan.now number element.now.settings
        (moments_until element.now.settings n past) }
    ensures switched { IfSome result.switched (IsInput plan.now) }
    ensures taken { IfSome result.taken (IsInput plan.now) }
{
    InspectedElement {
        mode: element.mode(),
        switched: input_at(plan, number, element.switched()),
        taken: taken_of(plan, number, element),
        level: element.level(),
        state: element.state(),
    }
}

/// Puts the row of an element.
fn put_row(
    alloc: Global,
    text: &mut Text,
    plan: &Plan,
    element: u32,
    it: InspectedElement,
) -> Result<(), NoMemory>
    requires within { element < length plan.now.elements }
    requires switched { IfSome it.switched (IsInput plan.now) }
    requires taken { IfSome it.taken (IsInput plan.now) }
    ensures put { OnOk result (text.new ≡ text.old ++ element_row plan.now element it) }
{
    put_choice(alloc, text, plan, element, it.mode, it.switched)?;
    text.put(b",")?;
    put_taken(alloc, text, plan, it.taken)?;
    text.put(b",")?;
    put_clock(text, it.level, it.state)
}

/// Puts the level and what the clock follows, which ends the row.
fn put_clock(text: &mut Text, level: Level, state: ClockState) -> Result<(), NoMemory>
    ensures put { OnOk result (text.new ≡ text.old ++ clock_text level state) }
{
    text.put(name_of(level).as_bytes())?;
    text.put(state_column(state))
}
