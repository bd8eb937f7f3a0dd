//! The row of a change.

ghost use Rattle.std.specs.Prelude.{◌≡◌, ◌++◌, ◌<◌, length, IfSome, OnOk};
ghost use Rattle.sync_topo.specs.Lines.{IsInput};
ghost use Rattle.prio_mode.specs.PriorityRows.{row_between};

use crate::shown::{ShownByPriority, shows_other};
use shown_words::{put_choice, state_column};
use std::alloc::Global;
use sync_text::{NoMemory, Text};
use sync_topo::Plan;

/// Puts the row of an element that shows something else now than it did, and nothing otherwise.
pub(crate) fn put_if_other(
    alloc: Global,
    text: &mut Text,
    plan: &Plan,
    now: u64,
    element: u32,
    was: ShownByPriority,
    shown: ShownByPriority,
) -> Result<(), NoMemory>
    requires within { element < length plan.now.elements }
    requires input { IfSome shown.input (IsInput plan.now) }
    ensures put { OnOk result (text.new ≡ text.old ++ row_between plan.now now element was shown) }
{
    if !shows_other(was, shown) {
        return Ok(());
    }
    text.put_number(now)?;
    text.put(b",")?;
    put_choice(alloc, text, plan, element, shown.mode, shown.input)?;
    text.put(state_column(shown.state))
}
