//! What an element shows of itself.

ghost use Rattle.std.specs.Prelude.{◌≡◌, ◌<◌, length};
ghost use Rattle.event_sim.specs.Rows.{shows_other};
ghost use Rattle.event_sim.specs.private.Showing.{Shows};
ghost use Rattle.sync_ql.specs.Messages.{is_same_level};

use net_words::taken_of;
use shown_words::{is_same_mode, is_same_state, is_same_taken};
use sync_element::Element;
use sync_ql::rules::{ClockState, Mode};
use sync_ql::{Level, is_same_level};
use sync_topo::{InputId, Plan};

/// What an element shows: how its input is chosen, which it takes, its level, and what its clock
/// follows.
#[derive(Clone, Copy, Debug, Drop)]
pub struct Shown {
    pub mode: Mode,
    pub input: Option<InputId>,
    pub level: Level,
    pub state: ClockState,
}

/// What an element of the plan shows.
#[tactic(auto, unfolding(crate::specs::Rows::shown_after))]
pub(crate) fn shown_of(plan: &Plan, number: u32, element: &Element) -> Shown
    requires place { number < length plan.now.elements }
    ensures { Shows plan.now number element.now result }
{
    Shown {
        mode: element.mode(),
        input: taken_of(plan, number, element),
        level: element.level(),
        state: element.state(),
    }
}

/// Whether something else is shown now than was.
#[tactic(auto, unfolding(crate::specs::Rows::shows_other))]
pub(crate) fn shows_other(was: Shown, now: Shown) -> bool
    ensures { result ≡ shows_other was now }
{
    !(is_same_mode(was.mode, now.mode)
        && is_same_taken(was.input, now.input)
        && is_same_level(was.level, now.level)
        && is_same_state(was.state, now.state))
}
