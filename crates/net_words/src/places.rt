//! Where inputs stand among those of their elements.

ghost use Rattle.std.specs.Prelude.{◌≡◌, ◌<◌, ℕ, IfSome, is_some, length};
ghost use Rattle.sync_topo.specs.Lines.{IsInput, is_nominated_input, place_at};
ghost use Rattle.net_words.specs.InputPlaces.{place_in};

use sync_topo::{InputId, Plan};

/// Where an input stands: its element, and its place among the inputs of that element.
#[derive(Clone, Copy, Debug, PartialEq, Eq)]
pub struct InputPlace {
    /// The number of the element.
    pub element: u32,
    /// The place, from 0.
    pub place: u32,
}

/// Where an input stands, if it is nominated. This project's own.
pub fn input_place(plan: &Plan, input: InputId) -> Option<InputPlace>
    requires has { IsInput plan.now input }
    ensures place { (element : ℕ) → place_at plan.now element input ≡ place_in result element }
    ensures nominated { is_some result ≡ is_nominated_input plan.now input }
    ensures within { IfSome result (λ there. there.element < length plan.now.elements) }
{
    let Some(place) = plan.place_of(input) else {
        return None;
    };
    let element = plan.element_of(input);
    Some(InputPlace { element, place })
}
