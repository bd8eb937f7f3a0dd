//! What is kept of a plan's elements: their inputs, where each input stands, and the lines out of them.

ghost use Rattle.std.specs.Prelude.{◌≡◌, [], ◌∷◌, ◌++◌, ◌<◌, ◌≤◌, length, OnOk, ℕ};
ghost use Rattle.sync_topo.specs.Held.{held};
ghost use Rattle.sync_topo.specs.private.Held.{taken};
ghost use Rattle.sync_topo.specs.Limits.{input_limit};

use crate::input::{InputId, LineId};
use std::alloc::Global;
use sync_text::NoMemory;

/// What a plan tells of its elements without a search.
#[derive(Drop)]
pub(crate) struct Wiring {
    /// For each element its inputs, in order of number.
    pub(crate) inputs: Vec<Vec<InputId>>,
    /// For each element the nominated lines out of it, in order of number.
    pub(crate) lines_out: Vec<Vec<LineId>>,
    /// For each nominated line its place among the inputs of its receiver.
    pub(crate) line_places: Vec<u8>,
    /// For each nominated source its place among the inputs of its element.
    pub(crate) source_places: Vec<u8>,
}

impl Wiring {
    ghost use Rattle.sync_topo.specs.private.Wired.{IsWidened, HasLine, HasSource};

    /// Nothing, of no elements.
    pub(crate) fn new(alloc: Global) -> Wiring
        ensures inputs { result.inputs.items ≡ [] }
        ensures lines_out { result.lines_out.items ≡ [] }
        ensures line_places { result.line_places.items ≡ [] }
        ensures source_places { result.source_places.items ≡ [] }
    {
        Wiring {
            inputs: Vec::new(alloc),
            lines_out: Vec::new(alloc),
            line_places: Vec::new(alloc),
            source_places: Vec::new(alloc),
        }
    }

    /// One element more, without inputs and lines.
    pub(crate) fn add_element(&mut self, alloc: Global) -> Result<(), NoMemory>
        ensures { OnOk result (IsWidened self.old self.new) }
    {
        push(&mut self.inputs, Vec::new(alloc))?;
        push(&mut self.lines_out, Vec::new(alloc))
    }

    /// One line more, by the priority that its receiver gives it.
    pub(crate) fn add_line(
        &mut self,
        line: LineId,
        from: u32,
        to: u32,
        priority: u8,
    ) -> Result<(), NoMemory>
        requires from { from < length self.old.lines_out.items }
        requires to { to < length self.old.inputs.items }
        requires few { length (held self.old.inputs.items to) ≤ input_limit }
        ensures { OnOk result (HasLine line from to priority self.old self.new) }
    {
        let place = next_place(&self.inputs, to);
        push(&mut self.line_places, place)?;
        keep(&mut self.inputs, to, priority, InputId::Line(line))?;
        keep(&mut self.lines_out, from, priority, line)
    }

    /// One source more, by the priority that its element gives it.
    pub(crate) fn add_source(&mut self, source: u32, at: u32, priority: u8) -> Result<(), NoMemory>
        requires at { at < length self.old.inputs.items }
        requires few { length (held self.old.inputs.items at) ≤ input_limit }
        ensures { OnOk result (HasSource source at priority self.old self.new) }
    {
        let place = next_place(&self.inputs, at);
        push(&mut self.source_places, place)?;
        keep(&mut self.inputs, at, priority, InputId::Source(source))
    }
}

/// The place that one more input of the element has among its inputs.
fn next_place(inputs: &Vec<Vec<InputId>>, element: u32) -> u8
    requires within { element < length inputs.now.items }
    requires few { length (held inputs.now.items element) ≤ input_limit }
    ensures { result ≡ length (held inputs.now.items element) }
{
    inputs[element as usize].len() as u8
}

/// Keeps an item for the element, if it has a priority.
fn keep<T: Drop>(
    kept: &mut Vec<Vec<T>>,
    element: u32,
    priority: u8,
    item: T,
) -> Result<(), NoMemory>
    requires { element < length kept.old.items }
    ensures counted { OnOk result (length kept.new.items ≡ length kept.old.items) }
    ensures held { OnOk result ((e : ℕ) → held kept.new.items e
        ≡ held kept.old.items e ++ taken element priority item e) }
{
    if priority == 0 {
        return Ok(());
    }
    push(&mut kept[element as usize], item)?;
    Ok(())
}

/// Puts an item at the end.
fn push<T: Drop>(items: &mut Vec<T>, item: T) -> Result<(), NoMemory>
    ensures { OnOk result (items.new.items ≡ items.old.items ++ item ∷ []) }
{
    match items.push(item) {
        Ok(()) => Ok(()),
        Err(_) => Err(NoMemory),
    }
}
