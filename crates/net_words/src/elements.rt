//! The elements of a plan, which were told nothing.

ghost use Rattle.std.specs.Prelude.{◌≡◌, ◌<◌, ℕ, IfOk, length, map};
ghost use Rattle.sync_ql.specs.Told.{IsOfOption};
ghost use Rattle.sync_topo.specs.Lines.{inputs_of, IsInput};
ghost use Rattle.net_words.specs.NewElements.{AreEach, IsNewElement, one_level, setting_of};
ghost use Rattle.net_words.specs.private.NewElements.{config_by};

use std::alloc::Global;
use sync_element::{Config, Element, InputConfig};
use sync_ql::{Level, NetOption};
use sync_text::{NoMemory, Rows};
use sync_topo::{InputId, Plan};

/// By what the elements of a network choose among their inputs. After G.781, selection.
#[derive(Clone, Copy, Debug, PartialEq, Eq)]
pub enum Chooses {
    /// By level, and by priority where levels are the same.
    ByLevel,
    /// By priority alone: each input has one and the same level, and no element has a floor.
    ByPriority,
}

/// The elements of a plan, by number, each as it is before it is told anything.
pub fn new_elements(alloc: Global, plan: &Plan, chooses: Chooses) -> Result<Vec<Element>, NoMemory>
    ensures { IfOk result (λ elements.
        AreEach (IsNewElement (setting_of chooses plan.now) plan.now) (length plan.now.elements) elements.items) }
{
    let mut elements = Rows::with_capacity(alloc, plan.elements() as usize)?;
    for element in 0..plan.elements() {
        elements.push(new_element(alloc, plan, element, chooses)?)?;
    }
    Ok(elements.into_vec())
}

/// An element of a plan, by its number, as it is before it is told anything.
pub fn new_element(
    alloc: Global,
    plan: &Plan,
    number: u32,
    chooses: Chooses,
) -> Result<Element, NoMemory>
    requires { number < length plan.now.elements }
    ensures { IfOk result (IsNewElement (setting_of chooses plan.now) plan.now number) }
{
    let inputs = input_configs(alloc, plan, number, chooses)?;
    let floor = floor_by(plan, number, chooses);
    let planned = plan.element(number);
    let element = Element::new(
        alloc,
        Config {
            own: planned.own,
            floor,
            holdoff: planned.holdoff,
            wtr: planned.wtr,
            inputs,
        },
    )?;
    let _due = element.due();
    Ok(element)
}

/// The floor by which an element chooses.
fn floor_by(plan: &Plan, element: u32, chooses: Chooses) -> Option<Level>
    requires { element < length plan.now.elements }
    ensures floor { result ≡ (setting_of chooses plan.now).floor element }
    ensures of_option { IsOfOption plan.now.option result }
{
    match chooses {
        Chooses::ByLevel => plan.element(element).floor,
        Chooses::ByPriority => None,
    }
}

/// What an element is set to for its inputs.
fn input_configs(
    alloc: Global,
    plan: &Plan,
    element: u32,
    chooses: Chooses,
) -> Result<Rows<InputConfig>, NoMemory>
    requires { element < length plan.now.elements }
    ensures { IfOk result (λ inputs.
        inputs ≡ map (config_by (setting_of chooses plan.now) plan.now) (inputs_of plan.now element)) }
{
    let mut inputs = Rows::with_capacity(alloc, plan.inputs(element).len())?;
    for input in plan.inputs(element) {
        inputs.push(input_config(plan, *input, chooses))?;
    }
    Ok(inputs)
}

/// What an element is set to for an input.
fn input_config(plan: &Plan, input: InputId, chooses: Chooses) -> InputConfig
    requires { IsInput plan.now input }
    ensures { result ≡ config_by (setting_of chooses plan.now) plan.now input }
{
    let priority = plan.priority(input);
    match (chooses, input) {
        (Chooses::ByLevel, InputId::Line(line)) => InputConfig {
            priority,
            first: None,
            bundle: plan.bundle(line.0 / 2),
        },
        (Chooses::ByLevel, InputId::Source(source)) => InputConfig {
            priority,
            first: Some(plan.source(source).level),
            bundle: plan.links() + source,
        },
        (Chooses::ByPriority, _) => InputConfig {
            priority,
            first: Some(one_level(plan.option())),
            bundle: 0,
        },
    }
}

/// The level that every input has where elements choose by priority alone: the option's first.
fn one_level(option: NetOption) -> Level
    ensures { result ≡ one_level option }
{
    match option {
        NetOption::I => Level {
            option: NetOption::I,
            place: 0,
        },
        NetOption::II => Level {
            option: NetOption::II,
            place: 0,
        },
    }
}
