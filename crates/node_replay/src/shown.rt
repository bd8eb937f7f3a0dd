//! What the element gives its lines.

ghost use Rattle.std.specs.Prelude.{◌≡◌, ◌<◌, IfSome, length};
ghost use Rattle.sync_topo.specs.Lines.{line_count, IsInput};
ghost use Rattle.net_rules.specs.History.{settings_of, is_way_back};
ghost use Rattle.node_replay.specs.private.Keeping.{level_out};
ghost use Rattle.node_replay.specs.private.Running.{Shows};

use net_words::taken_of;
use sync_element::Element;
use sync_ql::{Level, do_not_use};
use sync_topo::{InputId, LineId, Plan};

/// The input that an element takes, and its level.
#[derive(Clone, Copy, Debug, Drop)]
pub(crate) struct InputAndLevel {
    pub(crate) taken: Option<InputId>,
    pub(crate) level: Level,
}

/// What an element of the plan takes, and its level.
pub(crate) fn shown_of(plan: &Plan, number: u32, element: &Element) -> InputAndLevel
    requires within { number < length plan.now.elements }
    requires settings { element.now.settings ≡ settings_of plan.now number }
    ensures { Shows plan.now number element.now result }
{
    InputAndLevel {
        taken: taken_of(plan, number, element),
        level: element.level(),
    }
}

/// The level that the element gives a line out of it.
pub(crate) fn level_out(plan: &Plan, shown: InputAndLevel, line: LineId) -> Level
    requires input { IfSome shown.taken (IsInput plan.now) }
    requires line { line.0 < line_count plan.now }
    ensures { result ≡ level_out plan.now shown line.0 }
{
    if is_way_back(plan, shown.taken, line) {
        return do_not_use(plan.option());
    }
    shown.level
}

/// Whether a line leads back to where its sender takes its timing from.
fn is_way_back(plan: &Plan, taken: Option<InputId>, line: LineId) -> bool
    requires taken { IfSome taken (IsInput plan.now) }
    requires line { line.0 < line_count plan.now }
    ensures { result ≡ is_way_back plan.now taken line.0 }
{
    match taken {
        Some(InputId::Line(taken)) => {
            plan.to(taken) == plan.from(line) && plan.bundle(taken.0 / 2) == plan.bundle(line.0 / 2)
        }
        _ => false,
    }
}
