//! The changes, each a row.

ghost use Rattle.std.specs.Prelude.{◌≡◌, ◌++◌, OnOk};
ghost use Rattle.std.specs.List.{All};
ghost use Rattle.event_sim.specs.Changes.{IsChangeOf};
ghost use Rattle.trace_report.specs.Words.{change_row, level_text};
ghost use Rattle.trace_report.specs.Report.{changes_part};

use event_sim::Change;
use shown_words::{put_choice, state_column};
use std::alloc::Global;
use sync_ql::name_of;
use sync_text::{NoMemory, Text};
use sync_topo::Plan;

/// Puts all changes.
pub(crate) fn put_changes(
    alloc: Global,
    text: &mut Text,
    plan: &Plan,
    changes: &[Change],
) -> Result<(), NoMemory>
    requires of_plan { All (IsChangeOf plan.now) changes.now }
    ensures put { OnOk result (text.new ≡ text.old ++ changes_part plan.now changes.now) }
{
    text.put(b"changes\n")?;
    for change in changes {
        put_change(alloc, text, plan, change)?;
    }
    Ok(())
}

/// Puts the row of one change of a plan: its millisecond, the element, what it chose, and its level and
/// state.
///
/// `NoMemory` comes only when out of memory; a part of the row may then stand at the end, so the text
/// isn't used again. This project's own.
pub fn put_change(
    alloc: Global,
    text: &mut Text,
    plan: &Plan,
    change: &Change,
) -> Result<(), NoMemory>
    requires of_plan { IsChangeOf plan.now change.now }
    ensures put { OnOk result (text.new ≡ text.old ++ change_row plan.now change.now) }
{
    text.put_number(change.at)?;
    text.put(b",")?;
    put_choice(alloc, text, plan, change.element, change.mode, change.input)?;
    text.put(b",")?;
    put_level(text, change)
}

/// Puts what it has of that, which ends the row.
fn put_level(text: &mut Text, change: &Change) -> Result<(), NoMemory>
    ensures put { OnOk result (text.new ≡ text.old ++ level_text change.now) }
{
    text.put(name_of(change.level).as_bytes())?;
    text.put(state_column(change.state))
}
