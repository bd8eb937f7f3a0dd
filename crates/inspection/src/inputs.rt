//! The inputs, each with what it gives and why it is taken or isn't.

ghost use Rattle.std.specs.Prelude.{◌≡◌, ◌<◌, ◌+◌, ◌++◌, false, List, length, OnOk};
ghost use Rattle.sync_topo.specs.declared.event.Event.{Event};
ghost use Rattle.sync_topo.specs.Lines.{IsInput};
ghost use Rattle.net_rules.specs.Signals.{signals_by};
ghost use Rattle.net_rules.specs.History.{settings_of, out_at};
ghost use Rattle.sync_net.specs.Standing.{ElementStands, StandsFor};
ghost use Rattle.inspection.specs.Inspection.{inputs_part, rows_in, inspected_row, level_word};

use crate::verdicts::{InputVerdict, verdict_of, verdict_word};
use std::alloc::Global;
use sync_element::Element;
use sync_net::Net;
use sync_ql::rules::Cond;
use sync_ql::{Level, name_of};
use sync_text::{NoMemory, Text};
use sync_topo::{InputId, Plan};
use trace_report::{later, passed_until, put_condition};

/// What an input gives. After G.781, signal fail and quality level; the verdict is this project's
/// own.
#[derive(Clone, Copy, Debug, Drop)]
pub struct InspectedInput {
    /// Its condition.
    pub condition: Cond,
    /// The level that is heard on it, or that its source has.
    pub level: Option<Level>,
    /// Why it is taken, or isn't.
    pub verdict: InputVerdict,
}

/// Puts the inputs of all elements, as they are in the millisecond of the last step.
pub(crate) fn put_inputs(
    alloc: Global,
    text: &mut Text,
    net: &Net<'_>,
    until: u64,
) -> Result<(), NoMemory>
    requires live { net.now.spent ≡ false }
    ensures put { OnOk result ((all : List Event) → StandsFor net.now all (until + 1) →
        text.new ≡ text.old ++ inputs_part net.now.plan all until) }
{
    text.put(b"inputs\n")?;
    let plan = net.plan();
    for element in 0..plan.elements() {
        put_element(alloc, text, plan, element, net.element(element), until)?;
    }
    Ok(())
}

/// Puts the inputs of an element.
fn put_element(
    alloc: Global,
    text: &mut Text,
    plan: &Plan,
    number: u32,
    element: &Element,
    until: u64,
) -> Result<(), NoMemory>
    requires within { number < length plan.now.elements }
    requires settings { element.now.settings ≡ settings_of plan.now number }
    ensures put { OnOk result ((all : List Event) → ElementStands plan.now (signals_by plan.now all)
        (out_at plan.now (signals_by plan.now all)) number (until + 1) element.now →
        text.new ≡ text.old ++ rows_in plan.now (signals_by plan.now all)
        (out_at plan.now (signals_by plan.now all)) until number) }
{
    let inputs = plan.inputs(number);
    let passed = passed_until(element, inputs.len() as u32, until);
    for (place, input) in inputs.iter().enumerate() {
        let it = InspectedInput {
            condition: later(element.cond(place as u32), passed),
            level: element.level_of(place as u32),
            verdict: verdict_of(element, place as u32),
        };
        put_row(alloc, text, plan, number, *input, it)?;
    }
    Ok(())
}

/// Puts the row of an input.
fn put_row(
    alloc: Global,
    text: &mut Text,
    plan: &Plan,
    element: u32,
    input: InputId,
    it: InspectedInput,
) -> Result<(), NoMemory>
    requires within { element < length plan.now.elements }
    requires input { IsInput plan.now input }
    ensures put { OnOk result (text.new ≡ text.old ++ inspected_row plan.now element input it) }
{
    put_condition(alloc, text, plan, element, input, it.condition)?;
    text.put(b",")?;
    text.put(level_word(it.level))?;
    text.put(b",")?;
    text.put(verdict_word(it.verdict))?;
    text.put(b"\n")
}

/// The name of a level, or that there is none.
fn level_word(level: Option<Level>) -> &'static [u8]
    ensures { result.now ≡ level_word level }
{
    match level {
        Some(level) => name_of(level).as_bytes(),
        None => b"none",
    }
}
