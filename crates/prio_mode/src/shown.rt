//! What an element shows of itself.

ghost use Rattle.std.specs.Prelude.{◌≡◌, ◌<◌, length};
ghost use Rattle.prio_mode.specs.PriorityAlone.{priority_settings};
ghost use Rattle.prio_mode.specs.PriorityRows.{shows_other};
ghost use Rattle.prio_mode.specs.private.Running.{Shows};

use net_words::taken_of;
use shown_words::{is_same_mode, is_same_state, is_same_taken};
use sync_element::Element;
use sync_ql::rules::{ClockState, Mode};
use sync_topo::{InputId, Plan};

/// What an element shows: how its input is chosen, which it takes, and what its clock follows.
#[derive(Clone, Copy, Debug, Drop)]
pub(crate) struct ShownByPriority {
    pub(crate) mode: Mode,
    pub(crate) input: Option<InputId>,
    pub(crate) state: ClockState,
}

/// An element, and what it showed last.
#[derive(Debug, Drop)]
pub(crate) struct Seen {
    pub(crate) element: Element,
    pub(crate) shown: ShownByPriority,
}

/// What an element of the plan shows.
#[tactic(auto, unfolding(crate::specs::PriorityRows::shown_after))]
pub(crate) fn shown_of(plan: &Plan, number: u32, element: &Element) -> ShownByPriority
    requires within { number < length plan.now.elements }
    requires settings { element.now.settings ≡ priority_settings plan.now number }
    ensures { Shows plan.now number element.now result }
{
    ShownByPriority {
        mode: element.mode(),
        input: taken_of(plan, number, element),
        state: element.state(),
    }
}

/// Whether something else is shown now than was.
#[tactic(auto, unfolding(crate::specs::PriorityRows::shows_other))]
pub(crate) fn shows_other(was: ShownByPriority, now: ShownByPriority) -> bool
    ensures { result ≡ shows_other was now }
{
    !(is_same_mode(was.mode, now.mode)
        && is_same_taken(was.input, now.input)
        && is_same_state(was.state, now.state))
}
