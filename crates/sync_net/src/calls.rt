//! The calls of one element and of one line in a millisecond.

ghost use Rattle.std.specs.Prelude.{◌≡◌, ◌≤◌, ◌+◌, ◌*◌, false, OnOk, IfOk, IfSome, All};
ghost use Rattle.sync_ql.specs.Told.{FitsElement};
ghost use Rattle.sync_element.specs.ElementState.{IsInTime};
ghost use Rattle.sync_element.specs.StandsAfter.{IsStepped};
ghost use Rattle.sync_net.specs.private.Steps.{IsSteady, IsLineTold, IsLineSaid};

use crate::signals::LineSignal;
use link_model::{Line, calls_law};
use std::sync::ledger::Ledger;
use sync_element::{Element, InputEvent};
use sync_ql::Level;
use sync_ql::limits::LAST_MILLISECOND;
use sync_text::{NoMemory, Steps};

/// Tells a line whether it is up and its ESMC is on, takes what arrives, and answers the level that
/// is heard then. A line that speaks and goes on needn't be told.
pub(crate) fn tell_line(line: &mut Line, now: u64, signal: LineSignal) -> Option<Level>
    requires turn { line.old.turn ≤ 4 * now }
    requires in_time { IfSome line.old.due (λ due. now ≤ due) }
    requires in_range { now ≤ LAST_MILLISECOND }
    ensures { IsLineTold now signal line.old line.new result }
{
    calls_law();
    if line.speaking() && signal.up && signal.esmc {
        let _message = line.take_due(now);
        return line.heard(now);
    }
    line.set_up(now, signal.up);
    line.set_esmc(now, signal.esmc);
    let _message = line.take_due(now);
    line.heard(now)
}

/// Gives a line its level, and answers when it is due next.
pub(crate) fn say_on_line(line: &mut Line, now: u64, level: Level) -> Result<Option<u64>, NoMemory>
    requires turn { line.old.turn ≤ 4 * now + 3 }
    requires in_time { IfSome line.old.due (λ due. now ≤ due) }
    requires in_range { now ≤ LAST_MILLISECOND }
    ensures said { OnOk result (IsLineSaid now level line.old line.new) }
    ensures due { IfOk result (λ due. due ≡ line.new.due) }
{
    line.say(now, level)?;
    Ok(line.due())
}

/// Lets an element make a step, and answers whether it takes something else then or has another
/// level.
pub(crate) fn step_element<L: Ledger>(
    element: &mut Element,
    now: u64,
    told: &[InputEvent],
    steps: &mut Steps<L>,
) -> bool
    requires in_time { IsInTime element.old now }
    requires in_range { now ≤ LAST_MILLISECOND }
    requires fits { All (FitsElement element.old.settings) told.now }
    ensures stepped { IsStepped now told.now element.old element.new }
    ensures steady { result ≡ false → IsSteady now element.old element.new }
    ensures ticks { steps.new ≡ steps.old + 1 }
{
    let before = (element.selected(), element.level());
    element.step(now, told, steps);
    let _due = element.due();
    is_other(before, (element.selected(), element.level()))
}

/// Whether another input is taken, or there is another level.
fn is_other(before: (Option<u32>, Level), after: (Option<u32>, Level)) -> bool
    ensures { result ≡ false → (after.0 ≡ before.0) × (after.1 ≡ before.1) }
{
    after.0 != before.0 || after.1 != before.1
}
