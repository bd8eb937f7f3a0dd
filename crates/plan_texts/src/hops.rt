//! The rows of hop counts.

ghost use Rattle.std.specs.Prelude.{◌≡◌, ◌+◌, ◌++◌, ◌<◌, length, replicate, ℕ, Some, None, IfOk, IfSome, OnOk, option_map};
ghost use Rattle.std.specs.Fmt.{decimal};
ghost use Rattle.std.specs.Option.{option_map_or};
ghost use Rattle.sync_topo.specs.Lines.{line_count, input_name, IsInput};
ghost use Rattle.nominate.specs.HopCount.{count_at, is_one_less};
ghost use Rattle.sync_topo.specs.declared.input.InputId.TheVariants.{Line, Source};
ghost use Rattle.plan_texts.specs.Hops.{none_text, from_text, hops_row, hops_text};
ghost use Rattle.plan_texts.specs.private.HopRows.{first_source, line_at, from_name, AreLinesFrom};

use nominate::{Hops, is_one_less};
use std::alloc::Global;
use sync_text::{NoMemory, Text};
use sync_topo::{InputId, LineId, Plan};

/// For each element with a count above 0 the lowest-numbered line from one with one less.
fn lines_from(alloc: Global, plan: &Plan, hops: &Hops) -> Result<Vec<Option<LineId>>, NoMemory>
    requires { length hops.now ≡ length plan.now.elements }
    ensures { IfOk result (λ lines. AreLinesFrom plan.now hops.now (line_count plan.now) lines.items) }
{
    let mut lines = no_lines(alloc, plan)?;
    for number in 0..plan.lines() {
        keep_line(plan, hops, &mut lines, LineId(number));
    }
    Ok(lines)
}

/// For each element no line.
fn no_lines(alloc: Global, plan: &Plan) -> Result<Vec<Option<LineId>>, NoMemory>
    ensures { IfOk result (λ lines. lines.items ≡ replicate (length plan.now.elements) None) }
{
    Ok(vec![in alloc; None; plan.elements() as usize]?)
}

/// Keeps the line for the element where it ends, if it is the first from one with one less.
fn keep_line(plan: &Plan, hops: &Hops, lines: &mut Vec<Option<LineId>>, line: LineId)
    requires counted { length hops.now ≡ length plan.now.elements }
    requires within { line.0 < line_count plan.now }
    requires before { AreLinesFrom plan.now hops.now line.0 lines.old.items }
    ensures { AreLinesFrom plan.now hops.now (line.0 + 1) lines.new.items }
{
    let receiver = plan.to(line);
    if !is_one_less(hops.of(plan.from(line)), hops.of(receiver)) {
        return;
    }
    if lines[receiver as usize].is_some() {
        return;
    }
    lines[receiver as usize] = Some(line);
}

/// The first source among some inputs.
fn first_source(inputs: &[InputId]) -> Option<InputId>
    ensures { result ≡ option_map Source (first_source inputs.now) }
{
    for input in inputs {
        if let InputId::Source(_) = *input {
            return Some(*input);
        }
    }
    None
}

/// Puts a count, or `none`.
fn put_count(text: &mut Text, count: Option<u32>) -> Result<(), NoMemory>
    ensures { OnOk result (text.new ≡ text.old ++ option_map_or decimal count none_text) }
{
    match count {
        Some(count) => text.put_number(u64::from(count)),
        None => text.put(b"none"),
    }
}

/// Puts the name of an input, or `none`.
fn put_input(
    alloc: Global,
    text: &mut Text,
    plan: &Plan,
    input: Option<InputId>,
) -> Result<(), NoMemory>
    requires { IfSome input (IsInput plan.now) }
    ensures { OnOk result (text.new ≡ text.old ++ option_map_or (input_name plan.now) input none_text) }
{
    match input {
        Some(input) => plan.put_input_name(alloc, text, input),
        None => text.put(b"none"),
    }
}

/// Where an element of this count would take its timing from: its first nominated source, or else
/// the first line from one with one less.
fn from_of(
    plan: &Plan,
    lines: &[Option<LineId>],
    element: u32,
    count: Option<u32>,
) -> Option<InputId>
    requires within { element < length plan.now.elements }
    requires lines { length lines.now ≡ length plan.now.elements }
    requires kept { (line : ℕ) → line_at lines.now element ≡ Some line → line < line_count plan.now }
    ensures input { option_map (input_name plan.now) result
        ≡ from_name plan.now (line_at lines.now element) element count }
    ensures within { IfSome result (IsInput plan.now) }
{
    let Some(hops) = count else {
        return None;
    };
    if hops == 0 {
        return first_source(plan.inputs(element));
    }
    line_input(lines[element as usize])
}

/// The line as an input, if there is one.
fn line_input(line: Option<LineId>) -> Option<InputId>
    ensures { result ≡ option_map Line line }
{
    match line {
        Some(line) => Some(InputId::Line(line)),
        None => None,
    }
}

/// Puts where an element of this count would take its timing from.
fn put_from(
    alloc: Global,
    text: &mut Text,
    plan: &Plan,
    hops: &Hops,
    lines: &[Option<LineId>],
    element: u32,
) -> Result<(), NoMemory>
    requires within { element < length plan.now.elements }
    requires counted { length hops.now ≡ length plan.now.elements }
    requires lines { AreLinesFrom plan.now hops.now (line_count plan.now) lines.now }
    ensures { OnOk result (text.new ≡ text.old
        ++ from_text plan.now hops.now element (count_at hops.now element)) }
{
    let from = from_of(plan, lines, element, hops.of(element));
    put_input(alloc, text, plan, from)
}

/// Puts the row of an element.
fn put_row(
    alloc: Global,
    text: &mut Text,
    plan: &Plan,
    hops: &Hops,
    lines: &[Option<LineId>],
    element: u32,
) -> Result<(), NoMemory>
    requires within { element < length plan.now.elements }
    requires counted { length hops.now ≡ length plan.now.elements }
    requires lines { AreLinesFrom plan.now hops.now (line_count plan.now) lines.now }
    ensures { OnOk result (text.new ≡ text.old ++ hops_row plan.now hops.now element) }
{
    text.put(plan.element(element).name.bytes())?;
    text.put(b",")?;
    put_count(text, hops.of(element))?;
    text.put(b",")?;
    put_from(alloc, text, plan, hops, lines, element)?;
    text.put(b"\n")
}

/// The rows of the hop counts of a plan, a row for each element in order: its name, its count, and where
/// its timing would come from by these counts.
///
/// The first row is `element,hops,from`; what isn't there is `none`. This project's own.
pub fn hops_text(alloc: Global, plan: &Plan, hops: &Hops) -> Result<Text, NoMemory>
    requires { length hops.now ≡ length plan.now.elements }
    ensures { IfOk result (λ text. text ≡ hops_text plan.now hops.now) }
{
    let lines = lines_from(alloc, plan, hops)?;
    let mut text = Text::new(alloc);
    text.put(b"element,hops,from\n")?;
    for element in 0..plan.elements() {
        put_row(alloc, &mut text, plan, hops, lines.as_slice(), element)?;
    }
    Ok(text)
}
