//! What the elements are told in a millisecond.

ghost use Rattle.std.specs.Prelude.{◌≡◌, ◌<◌, [], length, replicate, IfOk, OnOk, OnErr};
ghost use Rattle.agenda.specs.Marked.{none_marked};
ghost use Rattle.net_words.specs.Words.{only_to};
ghost use Rattle.net_words.specs.Tellings.{AreTold};

use agenda::Marks;
use std::alloc::Global;
use sync_ql::rules::InputEvent;
use sync_text::{NoMemory, Rows};
use sync_topo::Plan;

/// What each element is told, by its number, and the elements that are told something.
///
/// This project's own.
#[derive(Debug, Drop)]
pub struct Tellings {
    /// What each element is told.
    pub changes: Vec<Rows<InputEvent>>,
    /// The elements that are told something.
    pub active: Marks,
}

impl Tellings {
    /// An element is told of an event more; when out of memory, nothing changes. This project's
    /// own.
    pub fn tell(&mut self, element: u32, event: InputEvent) -> Result<(), NoMemory>
        requires list { element < length self.old.changes.items }
        requires flag { element < length self.old.active.flags }
        ensures told { OnOk result (AreTold (only_to element event) self.old self.new) }
        ensures unchanged { OnErr result (self.new.changes.items ≡ self.old.changes.items) }
        ensures as_active { OnErr result (self.new.active ≡ self.old.active) }
    {
        self.changes[element as usize].push(event)?;
        self.active.mark(element);
        Ok(())
    }
}

/// No element is told anything. This project's own.
pub fn new_tellings(alloc: Global, plan: &Plan) -> Result<Tellings, NoMemory>
    ensures changes { IfOk result (λ tellings.
        tellings.changes.items ≡ replicate (length plan.now.elements) []) }
    ensures active { IfOk result (λ tellings.
        tellings.active ≡ none_marked (length plan.now.elements)) }
{
    let mut changes = Rows::with_capacity(alloc, plan.elements() as usize)?;
    for _element in 0..plan.elements() {
        changes.push(Rows::new(alloc))?;
    }
    let active = Marks::new(alloc, plan.elements() as usize)?;
    Ok(Tellings {
        changes: changes.into_vec(),
        active,
    })
}
