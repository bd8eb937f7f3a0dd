//! A run before its first millisecond.

ghost use Rattle.std.specs.Prelude.{◌≡◌, ◌++◌, ◌∷◌, [], ◌<◌, ℕ, List, None, OnOk, IfOk, length, map, if◌then◌else◌, ◌==◌};
ghost use Rattle.sync_topo.specs.Lines.{line_count, sender_of, inputs_of, IsInput};
ghost use Rattle.net_rules.specs.History.{first_level};
ghost use Rattle.node_file.specs.declared.row.NodeRow.{NodeRow};
ghost use Rattle.node_rules.specs.NodeText.{lines_out};
ghost use Rattle.node_replay.specs.private.Starting.{first_word, new_input, new_out};
ghost use Rattle.node_replay.specs.Running.{RunStands};
ghost use Rattle.node_replay.specs.private.Running.{IsRun};

use crate::inputs::{InputNow, LastLevel};
use crate::lines_out::LineOut;
use crate::running::NodeRun;
use crate::shown::shown_of;
use net_words::{Chooses, new_element};
use std::alloc::Global;
use sync_ql::Level;
use sync_text::{NoMemory, Rows, Text};
use sync_topo::{InputId, LineId, Plan};

/// A run of an element of a plan, to which nothing happened.
pub(crate) fn new_run(alloc: Global, plan: &Plan, number: u32) -> Result<NodeRun, NoMemory>
    requires { number < length plan.now.elements }
    ensures run { IfOk result (IsRun plan.now number) }
    ensures next { IfOk result (λ run. run.next ≡ 0) }
    ensures going { IfOk result (λ run. run.stopped ≡ None) }
    ensures stands { IfOk result (λ run. (rows : List NodeRow) → RunStands plan.now rows number 0 run) }
{
    let _elements = plan.elements();
    let element = new_element(alloc, plan, number, Chooses::ByLevel)?;
    let shown = shown_of(plan, number, &element);
    let inputs = new_inputs(alloc, plan, number)?;
    let lines = new_lines_out(alloc, plan, number)?;
    Ok(NodeRun {
        element,
        shown,
        inputs: inputs.into_vec(),
        lines_out: lines.into_vec(),
        told: Rows::new(alloc),
        next: 0,
        wake: 0,
        text: Text::new(alloc),
        rows: 0,
        stopped: None,
    })
}

/// The inputs, to which nothing happened.
fn new_inputs(alloc: Global, plan: &Plan, element: u32) -> Result<Rows<InputNow>, NoMemory>
    requires { element < length plan.now.elements }
    ensures { IfOk result (λ inputs. inputs ≡ map (new_input plan.now) (inputs_of plan.now element)) }
{
    let mut inputs = Rows::new(alloc);
    for input in plan.inputs(element) {
        inputs.push(new_input(plan, *input))?;
    }
    Ok(inputs)
}

/// An input to which nothing happened.
fn new_input(plan: &Plan, input: InputId) -> InputNow
    requires { IsInput plan.now input }
    ensures { result ≡ new_input plan.now input }
{
    let level = first_level(plan, input);
    InputNow {
        id: input,
        up: true,
        level,
        last: first_word(level),
    }
}

/// The level that an input has before any is told.
fn first_level(plan: &Plan, input: InputId) -> Option<Level>
    requires { IsInput plan.now input }
    ensures { result ≡ first_level plan.now input }
{
    match input {
        InputId::Line(_) => None,
        InputId::Source(source) => Some(plan.source(source).level),
    }
}

fn first_word(level: Option<Level>) -> Option<LastLevel>
    ensures { result ≡ first_word level }
{
    match level {
        Some(level) => Some(LastLevel {
            at: 0,
            level: Some(level),
        }),
        None => None,
    }
}

/// The lines out of the element, which have said nothing.
fn new_lines_out(alloc: Global, plan: &Plan, element: u32) -> Result<Rows<LineOut>, NoMemory>
    requires { element < length plan.now.elements }
    ensures { IfOk result (λ lines. lines ≡ map new_out (lines_out plan.now element)) }
{
    let mut lines = Rows::new(alloc);
    for number in 0..plan.lines() {
        add_line_out(plan, element, &mut lines, LineId(number))?;
    }
    Ok(lines)
}

/// One line more, if it leads out of the element.
fn add_line_out(
    plan: &Plan,
    element: u32,
    lines: &mut Rows<LineOut>,
    line: LineId,
) -> Result<(), NoMemory>
    requires { line.0 < line_count plan.now }
    ensures { OnOk result (lines.new ≡ lines.old
        ++ (if sender_of plan.now line.0 == element then new_out line.0 ∷ [] else [])) }
{
    if plan.from(line) != element {
        return Ok(());
    }
    lines.push(LineOut {
        line,
        up: true,
        esmc: true,
        said: None,
        was: None,
    })
}
