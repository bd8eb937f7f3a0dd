// The lines out of each element, nominated or not.

ghost use Rattle.std.specs.Prelude.{◌<◌, ◌+◌, IfOk, OnOk};
ghost use Rattle.sync_topo.specs.Lines.{line_count};
ghost use Rattle.sync_topo.specs.Outputs.{AreOutputs};

use crate::input::LineId;
use crate::plan::Plan;
use std::alloc::Global;
use sync_text::NoMemory;

/// For each element the lines out of it, nominated or not, in order of number: those over which it
/// may send timing. [`Plan::lines_out`] has the nominated ones alone.
///
/// `NoMemory` comes only when out of memory. This project's own.
pub fn all_lines_out(alloc: Global, plan: &Plan) -> Result<Vec<Vec<LineId>>, NoMemory>
    ensures { IfOk result (λ outputs. AreOutputs plan.now (line_count plan.now) outputs.items) }
{
    let mut outputs = no_outputs(alloc, plan)?;
    for number in 0..plan.lines() {
        add_output(plan, &mut outputs, LineId(number))?;
    }
    Ok(outputs)
}

/// For each element no lines.
fn no_outputs(alloc: Global, plan: &Plan) -> Result<Vec<Vec<LineId>>, NoMemory>
    ensures { IfOk result (λ outputs. AreOutputs plan.now 0 outputs.items) }
{
    let Ok(mut outputs) = Vec::with_capacity(alloc, plan.elements() as usize) else {
        return Err(NoMemory);
    };
    for _element in 0..plan.elements() {
        let Ok(()) = outputs.push(Vec::new(alloc)) else {
            return Err(NoMemory);
        };
    }
    Ok(outputs)
}

/// Keeps the next line for the element where it begins.
fn add_output(plan: &Plan, outputs: &mut Vec<Vec<LineId>>, line: LineId) -> Result<(), NoMemory>
    requires within { line.0 < line_count plan.now }
    requires before { AreOutputs plan.now line.0 outputs.old.items }
    ensures { OnOk result (AreOutputs plan.now (line.0 + 1) outputs.new.items) }
{
    let sender = plan.from(line);
    let Ok(()) = outputs[sender as usize].push(line) else {
        return Err(NoMemory);
    };
    Ok(())
}
