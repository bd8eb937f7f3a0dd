//! The closed walks of what elements take, as text.

ghost use Rattle.std.specs.Prelude.{◌≡◌, ◌++◌, ℕ, List, IfOk, OnOk};
ghost use Rattle.closed_walks.specs.Taking.{taken_in_list, AreTaken};
ghost use Rattle.closed_walks.specs.Loops.{AreLoops};
ghost use Rattle.closed_walks.specs.WalkText.{walk_rows};
ghost use Rattle.prio_mode.specs.private.Running.{inputs_shown};

use crate::shown::Seen;
use closed_walks::{put_walks, walks_of};
use std::alloc::Global;
use sync_text::{NoMemory, Text};
use sync_topo::{InputId, Plan};

/// Puts each closed walk once, from its lowest-numbered line, in the order of these lines.
///
/// It takes time by the number of elements and lines of the plan.
pub(crate) fn put_loops(
    alloc: Global,
    text: &mut Text,
    plan: &Plan,
    seen: &[Seen],
) -> Result<(), NoMemory>
    requires taken { AreTaken plan.now (inputs_shown seen.now) }
    ensures { OnOk result ((walks : List (List ℕ))
        × AreLoops plan.now (taken_in_list (inputs_shown seen.now)) walks
        × (text.new ≡ text.old ++ walk_rows plan.now walks)) }
{
    let taken = taken_inputs(alloc, seen)?;
    let walks = walks_of(alloc, plan, taken.as_slice())?;
    put_walks(alloc, text, plan, walks.as_slice())
}

/// The inputs that elements take, by what they show.
fn taken_inputs(alloc: Global, seen: &[Seen]) -> Result<Vec<Option<InputId>>, NoMemory>
    ensures { IfOk result (λ inputs. inputs.items ≡ inputs_shown seen.now) }
{
    let Ok(mut inputs) = Vec::with_capacity(alloc, seen.len()) else {
        return Err(NoMemory);
    };
    for one in seen {
        if inputs.push(one.shown.input).is_err() {
            return Err(NoMemory);
        }
    }
    Ok(inputs)
}
