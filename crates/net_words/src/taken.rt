//! What one element of a plan takes, and a step of it that nobody counts.

ghost use Rattle.std.specs.Prelude.{◌≡◌, ◌≤◌, ◌<◌, ℕ, List, All, IfSome, length, option_and_then, slice_get};
ghost use Rattle.sync_ql.specs.Moment.{Moment};
ghost use Rattle.sync_ql.specs.Told.{FitsElement, moments_until};
ghost use Rattle.sync_element.specs.ElementState.{IsInTime};
ghost use Rattle.sync_element.specs.StandsAfter.{IsStepped};
ghost use Rattle.sync_element.specs.StandsFor.{StandsFor};
ghost use Rattle.sync_topo.specs.Lines.{IsInput, inputs_of};
ghost use Rattle.net_rules.specs.Settings.{taken_with};

use std::marker::Brand;
use std::sync::ledger::{Blank, Ledger};
use sync_element::{Element, InputEvent};
use sync_ql::limits::LAST_MILLISECOND;
use sync_text::Steps;
use sync_topo::{InputId, Plan};

/// The input of the plan that an element takes. After G.781, selection.
pub fn taken_of(plan: &Plan, number: u32, element: &Element) -> Option<InputId>
    requires { number < length plan.now.elements }
    ensures taken { (past : List Moment) (n : ℕ) → StandsFor element.now past →
        IsInTime element.now n → result ≡ taken_with plan.now element.now.settings number
        (moments_until element.now.settings n past) }
    ensures input { IfSome result (IsInput plan.now) }
{
    input_at(plan, number, element.selected())
}

/// The input of the plan that stands at a place among those of an element. This project's own.
pub fn input_at(plan: &Plan, element: u32, place: Option<u32>) -> Option<InputId>
    requires { element < length plan.now.elements }
    ensures input { result ≡ option_and_then (slice_get (inputs_of plan.now element)) place }
    ensures within { IfSome result (IsInput plan.now) }
{
    match place {
        Some(place) => plan.inputs(element).get(place as usize).copied(),
        None => None,
    }
}

/// Lets an element make a step in which it is told this. This project's own.
pub fn step_alone(element: &mut Element, now: u64, told: &[InputEvent])
    requires in_time { IsInTime element.old now }
    requires in_range { now ≤ LAST_MILLISECOND }
    requires fits { All (FitsElement element.old.settings) told.now }
    ensures stepped { IsStepped now told.now element.old element.new }
{
    step::<Brand>(element, now, told, Blank::new(1));
}

/// A step that nobody counts.
fn step<L: Ledger>(element: &mut Element, now: u64, told: &[InputEvent], blank: Blank)
    requires name { blank.name ≡ L.name }
    requires parts { blank.parts ≡ L.parts }
    requires some { 0 < blank.parts }
    requires in_time { IsInTime element.old now }
    requires in_range { now ≤ LAST_MILLISECOND }
    requires fits { All (FitsElement element.old.settings) told.now }
    ensures stepped { IsStepped now told.now element.old element.new }
{
    let mut steps = Steps::<L>::new(blank);
    element.step(now, told, &mut steps);
    let _due = element.due();
}
