// The event file of a loop.

ghost use Rattle.std.specs.Prelude.{◌≡◌, ◌<◌, ◌≤◌, ◌++◌, length, map, Ok, IfOk, OnOk};
ghost use Rattle.std.specs.List.{All};
ghost use Rattle.sync_topo.specs.Lines.{line_count, receiver_of};
ghost use Rattle.net_rules.specs.Walks.{AreApart};
ghost use Rattle.event_file.specs.EventText.{events_of};
ghost use Rattle.prio_mode.specs.ForcedLoop.{forced_on};
ghost use Rattle.prio_mode.specs.ForcedText.{forced_row, forced_text, forced_size};

use std::alloc::Global;
use sync_text::{NoMemory, Text};
use sync_topo::{InputId, LineId, Plan};

/// The event file of forced switches to some lines at 0, in their order: those of a loop that
/// [`prio_plan`](crate::prio_plan) gives. The lines have different receivers.
///
/// It is read back as these events, and has at most 21 bytes and 76 for each element. This project's own.
pub fn write_forced(alloc: Global, plan: &Plan, lines: &[LineId]) -> Result<Text, NoMemory>
    requires within { All (λ line. line < line_count plan.now) (map (λ line. line.0) lines.now) }
    requires apart { AreApart (map (receiver_of plan.now) (map (λ line. line.0) lines.now)) }
    ensures text { IfOk result (λ text. text ≡ forced_text plan.now (map (λ line. line.0) lines.now)) }
    ensures read_back { IfOk result (λ text. events_of plan.now text
        ≡ Ok (forced_on (map (λ line. line.0) lines.now))) }
    ensures short { IfOk result (λ text. length text ≤ forced_size plan.now) }
{
    // Every plan keeps the rules.
    let _lines = plan.lines();
    let mut text = Text::new(alloc);
    text.put(b"at,what,target,value\n")?;
    for line in lines {
        put_forced(alloc, &mut text, plan, *line)?;
    }
    Ok(text)
}

/// Puts the row of a forced switch to a line at 0.
fn put_forced(alloc: Global, text: &mut Text, plan: &Plan, line: LineId) -> Result<(), NoMemory>
    requires { line.0 < line_count plan.now }
    ensures { OnOk result (text.new ≡ text.old ++ forced_row plan.now line.0) }
{
    text.put(b"0,forced,")?;
    plan.put_input_name(alloc, text, InputId::Line(line))?;
    text.put(b",\n")
}
