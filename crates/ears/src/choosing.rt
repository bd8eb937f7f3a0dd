// Priorities by which each element takes its timing from both its neighbours on its ear.

ghost use Rattle.std.specs.Prelude.{◌<◌, length};

use crate::laying::Ears;
use crate::tree::Tree;
use std::alloc::Global;
use sync_ql::limits::MOST_INPUTS;
use sync_text::NoMemory;
use sync_topo::{InputId, LineId, Plan};

/// The bundles from which elements are to take their timing, and the priorities of lines by them.
///
/// A bundle goes by its lowest-numbered link. This project's own.
#[derive(Drop)]
pub struct EarChoice {
    /// For each element the bundle of its neighbour in the tree, if it has one.
    pub firsts: Vec<Option<u32>>,
    /// For each element the bundle of its other neighbour on its ear, if it has one.
    pub seconds: Vec<Option<u32>>,
    /// For each line its priority; 0 is not nominated.
    pub priorities: Vec<u8>,
}

/// The bundles and priorities that a search by ears finds for a plan, whatever priorities its lines
/// have.
///
/// Of each bundle as many lines are numbered as the sources' numbers and the limit of inputs leave
/// room for. `outputs` has the lines out of each element. Which priorities are found isn't promised. The work grows with the elements, the links
/// and the sources, and with the depth of the tree as its logarithm. This project's own, with ears
/// after Whitney, and their order after Maon, Schieber and Vishkin, and Ramachandran.
pub fn choose(alloc: Global, plan: &Plan, outputs: &[Vec<LineId>]) -> Result<EarChoice, NoMemory> {
    let tree = Tree::of(alloc, plan, outputs)?;
    let ears = Ears::of(alloc, plan, &tree)?;
    let Ok(priorities) = vec![in alloc; 0; plan.lines() as usize] else {
        return Err(NoMemory);
    };
    let mut choice = EarChoice {
        firsts: bundles_of(alloc, plan, &tree)?,
        seconds: ears.seconds,
        priorities,
    };
    choice.number_all(plan, outputs);
    Ok(choice)
}

/// How the priorities of the lines into an element are numbered.
#[derive(Clone, Copy, Drop)]
struct Numbers {
    /// The greatest number of a source there.
    base: u32,
    /// How many lines have numbers.
    given: u32,
    /// How many lines there is room for.
    room: u32,
}

impl EarChoice {
    /// Numbers the lines into each element.
    fn number_all(&mut self, plan: &Plan, outputs: &[Vec<LineId>]) {
        for element in 0..plan.elements() {
            if let Some(lines) = outputs.get(element as usize) {
                self.number(plan, lines.as_slice(), element);
            }
        }
    }

    /// Numbers the lines into an element, against the lines out of it: those of its first bundle,
    /// and then those of its second, for at least one of which room is left.
    fn number(&mut self, plan: &Plan, outputs: &[LineId], element: u32)
        requires { element < length plan.now.elements }
    {
        let numbers = Numbers::of(plan, element);
        let first = bundle_at(self.firsts.as_slice(), element);
        let second = bundle_at(self.seconds.as_slice(), element);
        let kept = numbers.room.min(u32::from(second.is_some()));
        let before = numbers.with_room(numbers.room.saturating_sub(kept));
        let given = self.number_bundle(plan, outputs, first, before);
        let _given = self.number_bundle(plan, outputs, second, given.with_room(numbers.room));
    }

    /// Numbers the lines of a bundle that go back over these, as far as there is room.
    fn number_bundle(
        &mut self,
        plan: &Plan,
        outputs: &[LineId],
        bundle: Option<u32>,
        numbers: Numbers,
    ) -> Numbers {
        let mut numbers = numbers;
        for line in outputs {
            if line.0 < plan.lines() && bundle == Some(plan.bundle(line.0 / 2)) {
                numbers = self.number_line(plan.rev(*line), numbers);
            }
        }
        numbers
    }

    /// Gives a line the next number, if there is room.
    fn number_line(&mut self, line: LineId, numbers: Numbers) -> Numbers {
        if numbers.given >= numbers.room {
            return numbers;
        }
        let given = numbers.given.saturating_add(1);
        let priority = u8::try_from(numbers.base.saturating_add(given)).unwrap_or(0);
        if (line.0 as usize) < self.priorities.len() {
            self.priorities[line.0 as usize] = priority;
        }
        Numbers {
            base: numbers.base,
            given,
            room: numbers.room,
        }
    }
}

impl Numbers {
    /// Without a line, after the sources of an element.
    fn of(plan: &Plan, element: u32) -> Numbers
        requires { element < length plan.now.elements }
    {
        let mut base = 0;
        let mut sources: u32 = 0;
        for input in plan.inputs(element) {
            if let InputId::Source(_) = *input {
                base = u32::from(plan.priority(*input)).max(base);
                sources = sources.saturating_add(1);
            }
        }
        let numbers = u32::from(u8::MAX).saturating_sub(base);
        let inputs = (MOST_INPUTS as u32).saturating_sub(sources);
        Numbers {
            base,
            given: 0,
            room: numbers.min(inputs),
        }
    }

    /// With another room.
    fn with_room(self, room: u32) -> Numbers {
        Numbers {
            base: self.base,
            given: self.given,
            room,
        }
    }
}

/// For each element the bundle by which it hangs in the tree.
fn bundles_of(alloc: Global, plan: &Plan, tree: &Tree) -> Result<Vec<Option<u32>>, NoMemory> {
    let mut bundles = Vec::new(alloc);
    for element in 0..plan.elements() {
        let Ok(()) = bundles.push(tree.node(element).bundle) else {
            return Err(NoMemory);
        };
    }
    Ok(bundles)
}

/// An element's bundle, if it has one.
fn bundle_at(bundles: &[Option<u32>], element: u32) -> Option<u32> {
    match bundles.get(element as usize) {
        Some(bundle) => *bundle,
        None => None,
    }
}
