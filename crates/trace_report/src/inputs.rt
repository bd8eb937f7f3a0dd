//! The conditions of all inputs, each a row.

ghost use Rattle.std.specs.Prelude.{◌≡◌, ◌≤◌, ◌<◌, ◌+◌, ◌++◌, ℕ, false, List, length, OnOk};
ghost use Rattle.sync_topo.specs.declared.event.Event.{Event};
ghost use Rattle.sync_topo.specs.Lines.{IsInput};
ghost use Rattle.net_rules.specs.Signals.{signals_by};
ghost use Rattle.net_rules.specs.History.{settings_of, out_at};
ghost use Rattle.sync_net.specs.Standing.{ElementStands, StandsFor};
ghost use Rattle.trace_report.specs.Words.{condition_text};
ghost use Rattle.trace_report.specs.Report.{element_rows, inputs_part, conditions_at};

use crate::conditions::{later, passed_until};
use crate::words::{condition_word, left_of};
use std::alloc::Global;
use sync_element::Element;
use sync_net::Net;
use sync_ql::rules::Cond;
use sync_text::{NoMemory, Text};
use sync_topo::{InputId, Plan};

/// Puts the inputs of all elements, as they are in the millisecond of the last step.
pub(crate) fn put_inputs(
    alloc: Global,
    text: &mut Text,
    net: &Net<'_>,
    until: u64,
) -> Result<(), NoMemory>
    requires live { net.now.spent ≡ false }
    ensures put { OnOk result ((all : List Event) → StandsFor net.now all (until + 1) →
        text.new ≡ text.old ++ inputs_part net.now.plan (conditions_at net.now.plan all until)) }
{
    text.put(b"inputs\n")?;
    let plan = net.plan();
    for element in 0..plan.elements() {
        put_element(alloc, text, plan, element, net.element(element), until)?;
    }
    Ok(())
}

/// Puts the inputs of an element.
fn put_element(
    alloc: Global,
    text: &mut Text,
    plan: &Plan,
    number: u32,
    element: &Element,
    until: u64,
) -> Result<(), NoMemory>
    requires within { number < length plan.now.elements }
    requires settings { element.now.settings ≡ settings_of plan.now number }
    ensures put { OnOk result ((all : List Event) →
        ElementStands plan.now (signals_by plan.now all) (out_at plan.now (signals_by plan.now all)) number (until + 1) element.now →
        text.new ≡ text.old ++ element_rows plan.now (conditions_at plan.now all until) number) }
{
    let inputs = plan.inputs(number);
    let passed = passed_until(element, inputs.len() as u32, until);
    for (place, input) in inputs.iter().enumerate() {
        let condition = later(element.cond(place as u32), passed);
        put_condition(alloc, text, plan, number, *input, condition)?;
        text.put(b"\n")?;
    }
    Ok(())
}

/// Puts an input of an element in a condition: the names of both, the condition as a word, and how
/// many milliseconds are left of it, 0 where it doesn't end by itself.
///
/// `NoMemory` comes only when out of memory; a part may then stand at the end, so the text isn't
/// used again. This project's own.
pub fn put_condition(
    alloc: Global,
    text: &mut Text,
    plan: &Plan,
    element: u32,
    input: InputId,
    condition: Cond,
) -> Result<(), NoMemory>
    requires within { element < length plan.now.elements }
    requires input { IsInput plan.now input }
    ensures put { OnOk result (text.new ≡ text.old ++ condition_text plan.now element input condition) }
{
    text.put(plan.element(element).name.bytes())?;
    text.put(b",")?;
    plan.put_input_name(alloc, text, input)?;
    text.put(b",")?;
    text.put(condition_word(condition))?;
    text.put(b",")?;
    text.put_number(left_of(condition))
}
