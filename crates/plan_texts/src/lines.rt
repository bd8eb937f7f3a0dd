//! Texts of one line, and lines on lines of a plan.

ghost use Rattle.std.specs.Prelude.{◌≡◌, ◌++◌, ◌<◌, IfOk, OnOk, codes, map};
ghost use Rattle.std.specs.List.{All};
ghost use Rattle.sync_topo.specs.Lines.{line_count, line_name};
ghost use Rattle.plan_texts.specs.Lines.{text_line, lines_text, cycle_text, falls_text};

use std::alloc::Global;
use sync_text::{NoMemory, Text};
use sync_topo::{InputId, LineId, Plan};

/// A text of one line: these words, and a line feed.
pub fn line_text(alloc: Global, words: &[u8]) -> Result<Text, NoMemory>
    ensures { IfOk result (λ text. text ≡ text_line words.now) }
{
    let mut text = Text::new(alloc);
    text.put(words)?;
    text.put(b"\n")?;
    Ok(text)
}

/// Puts the name of a line, after a space.
fn put_line(alloc: Global, text: &mut Text, plan: &Plan, line: LineId) -> Result<(), NoMemory>
    requires { line.0 < line_count plan.now }
    ensures { OnOk result (text.new ≡ text.old ++ codes " " ++ line_name plan.now line.0) }
{
    text.put(b" ")?;
    plan.put_input_name(alloc, text, InputId::Line(line))
}

/// The line on a cycle: `cycle`, and the names of its lines.
///
/// This project's own.
pub fn cycle_text(alloc: Global, plan: &Plan, lines: &[LineId]) -> Result<Text, NoMemory>
    requires { All (λ line. line < line_count plan.now) (map (λ line. line.0) lines.now) }
    ensures { IfOk result (λ text. text ≡ cycle_text plan.now (map (λ line. line.0) lines.now)) }
{
    lines_text(alloc, b"cycle", plan, lines)
}

/// The line on some lines: what they are, and their names.
///
/// This project's own.
pub fn lines_text(
    alloc: Global,
    word: &[u8],
    plan: &Plan,
    lines: &[LineId],
) -> Result<Text, NoMemory>
    requires { All (λ line. line < line_count plan.now) (map (λ line. line.0) lines.now) }
    ensures { IfOk result (λ text. text ≡ lines_text word.now plan.now
        (map (λ line. line.0) lines.now)) }
{
    let mut text = Text::new(alloc);
    text.put(word)?;
    for line in lines {
        put_line(alloc, &mut text, plan, *line)?;
    }
    text.put(b"\n")?;
    Ok(text)
}

/// The line on a hop from one line to another over which ranks don't rise: `falls`, and their names.
///
/// This project's own.
pub fn falls_text(alloc: Global, plan: &Plan, from: LineId, to: LineId) -> Result<Text, NoMemory>
    requires from { from.0 < line_count plan.now }
    requires to { to.0 < line_count plan.now }
    ensures { IfOk result (λ text. text ≡ falls_text plan.now from.0 to.0) }
{
    let mut text = Text::new(alloc);
    text.put(b"falls ")?;
    plan.put_input_name(alloc, &mut text, InputId::Line(from))?;
    text.put(b" ")?;
    plan.put_input_name(alloc, &mut text, InputId::Line(to))?;
    text.put(b"\n")?;
    Ok(text)
}
