//! What each element takes in the millisecond of the last step.

ghost use Rattle.std.specs.Prelude.{◌≡◌, ◌<◌, ℕ, false, List, length, slice_index_or, IfOk, IfSome};
ghost use Rattle.sync_topo.specs.declared.event.Event.{Event};
ghost use Rattle.net_rules.specs.Inputs.{IsInputOf};
ghost use Rattle.sync_net.specs.Standing.{StandsFor};
ghost use Rattle.settle_trace.specs.Now.{taken_now};
ghost use Rattle.sync_element.specs.ElementState.{ElementState};
ghost use Rattle.closed_walks.specs.Taking.{taken_in_list, AreTaken};
ghost use Rattle.settle_trace.specs.Taking.{IsTaking, AreTaking};

use net_words::input_at;
use std::alloc::Global;
use sync_net::Net;
use sync_text::NoMemory;
use sync_topo::InputId;

/// The input that each element takes, by the element's number; none before the first step.
///
/// The network isn't spent. `NoMemory` comes only when out of memory. After G.781, selection.
pub fn taken_inputs(alloc: Global, net: &Net<'_>) -> Result<Vec<Option<InputId>>, NoMemory>
    requires live { net.now.spent ≡ false }
    ensures taken { IfOk result (λ inputs. AreTaken net.now.plan inputs.items) }
    ensures taking { IfOk result (λ inputs. AreTaking net.now inputs.items) }
    ensures now { IfOk result (λ inputs. 0 < net.now.next → (all : List Event) →
        StandsFor net.now all net.now.next →
        (element : ℕ) → taken_in_list inputs.items element ≡ taken_now net.now all element) }
{
    net_rules::taken_law();
    let mut inputs = Vec::with_capacity(alloc, net.plan().elements() as usize)?;
    for element in 0..net.plan().elements() {
        inputs.push(taken_input(net, element))?;
    }
    Ok(inputs)
}

/// The input that an element takes; none before the first step.
///
/// The network isn't spent, and the element is one of its plan. After G.781, selection.
pub fn taken_input(net: &Net<'_>, element: u32) -> Option<InputId>
    requires live { net.now.spent ≡ false }
    requires element { element < length net.now.plan.elements }
    ensures own { IfSome result (IsInputOf net.now.plan element) }
    ensures taking { (other : ElementState) →
        IsTaking net.now.plan element (slice_index_or net.now.elements element other) result }
    ensures now { 0 < net.now.next → (all : List Event) → StandsFor net.now all net.now.next →
        result ≡ taken_now net.now all element }
{
    input_at(net.plan(), element, net.element(element).selected())
}
