//! Closed walks as text.

ghost use Rattle.std.specs.Prelude.{◌≡◌, ◌<◌, ◌++◌, map, codes, OnOk};
ghost use Rattle.std.specs.List.{All};
ghost use Rattle.sync_topo.specs.Lines.{line_count, line_name, numbers};
ghost use Rattle.closed_walks.specs.Within.{AreLinesOf};
ghost use Rattle.closed_walks.specs.WalkText.{rest_text, walk_row, walk_rows};

use crate::traced::Walk;
use std::alloc::Global;
use sync_text::{NoMemory, Text};
use sync_topo::{InputId, LineId, Plan};

/// Puts a row for each closed walk, in their order: its lines with blanks between them.
///
/// `NoMemory` comes only when out of memory; a part may then stand at the end, so the text isn't
/// used again. This project's own.
pub fn put_walks(
    alloc: Global,
    text: &mut Text,
    plan: &Plan,
    walks: &[Walk],
) -> Result<(), NoMemory>
    requires of_plan { All (AreLinesOf plan.now) walks.now }
    ensures put { OnOk result (text.new ≡ text.old ++ walk_rows plan.now (map numbers walks.now)) }
{
    for walk in walks {
        put_walk(alloc, text, plan, walk.as_slice())?;
    }
    Ok(())
}

/// Puts one closed walk.
fn put_walk(alloc: Global, text: &mut Text, plan: &Plan, lines: &[LineId]) -> Result<(), NoMemory>
    requires of_plan { AreLinesOf plan.now lines.now }
    ensures put { OnOk result (text.new ≡ text.old ++ walk_row plan.now (numbers lines.now)) }
{
    if let Some((first, rest)) = lines.split_first() {
        plan.put_input_name(alloc, text, InputId::Line(*first))?;
        put_rest(alloc, text, plan, rest)?;
    }
    text.put(b"\n")
}

/// Puts the lines of a closed walk after its first.
fn put_rest(alloc: Global, text: &mut Text, plan: &Plan, rest: &[LineId]) -> Result<(), NoMemory>
    requires of_plan { AreLinesOf plan.now rest.now }
    ensures put { OnOk result (text.new ≡ text.old ++ rest_text plan.now (numbers rest.now)) }
{
    for line in rest {
        put_line(alloc, text, plan, *line)?;
    }
    Ok(())
}

/// Puts a blank and a line.
fn put_line(alloc: Global, text: &mut Text, plan: &Plan, line: LineId) -> Result<(), NoMemory>
    requires of_plan { line.0 < line_count plan.now }
    ensures put { OnOk result (text.new ≡ text.old ++ (codes " " ++ line_name plan.now line.0)) }
{
    text.put(b" ")?;
    plan.put_input_name(alloc, text, InputId::Line(line))
}
