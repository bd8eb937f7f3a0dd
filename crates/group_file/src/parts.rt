// The parts of one group, of which none stands twice.

ghost use Rattle.std.specs.Prelude.{◌≡◌, ◌<◌, [], ◌∷◌, ◌++◌, ℕ, false, length, IfOk, if◌then◌else◌};
ghost use Rattle.sync_topo.specs.Topology.{Topology};
ghost use Rattle.reach_rules.specs.Protection.{is_among};
ghost use Rattle.group_file.specs.declared.kind.Kind.{Kind};
ghost use Rattle.group_file.specs.Kinds.{count_of, is_same_kind};
ghost use Rattle.group_file.specs.private.PartsTaken.{listed_in, HasRoom, group_with};

use crate::kind::Kind;
use agenda::Marks;
use reach_rules::Group;
use std::alloc::Global;
use sync_text::{NoMemory, Rows, Text};
use sync_topo::Plan;

/// The parts of a group, of each kind in the order of the rows.
#[derive(Drop)]
pub(crate) struct PartsSoFar {
    pub(crate) links: Marks,
    pub(crate) sources: Marks,
    pub(crate) elements: Marks,
}

impl PartsSoFar {
    /// No parts, with room for those of the plan.
    pub(crate) fn new(alloc: Global, plan: &Plan) -> Result<PartsSoFar, NoMemory>
        ensures room { IfOk result (HasRoom plan.now) }
        ensures none { IfOk result (λ parts. (kind : Kind) → listed_in parts kind ≡ []) }
    {
        Ok(PartsSoFar {
            links: Marks::new(alloc, plan.links() as usize)?,
            sources: Marks::new(alloc, plan.sources() as usize)?,
            elements: Marks::new(alloc, plan.elements() as usize)?,
        })
    }

    /// Takes all parts out.
    pub(crate) fn clear(&mut self)
        ensures room { (plan : Topology) → HasRoom plan self.old → HasRoom plan self.new }
        ensures none { (kind : Kind) → listed_in self.new kind ≡ [] }
    {
        self.links.clear();
        self.sources.clear();
        self.elements.clear();
    }

    /// Whether the group has a part.
    pub(crate) fn has(&self, plan: &Plan, kind: Kind, part: u32) -> bool
        requires room { HasRoom plan.now self.now }
        requires within { part < count_of plan.now kind }
        ensures { result ≡ is_among (listed_in self.now kind) part }
    {
        match kind {
            Kind::Link => is_listed(&self.links, part),
            Kind::Source => is_listed(&self.sources, part),
            Kind::Element => is_listed(&self.elements, part),
        }
    }

    /// Puts a part with those of its kind.
    pub(crate) fn put(&mut self, plan: &Plan, kind: Kind, part: u32)
        requires room { HasRoom plan.now self.old }
        requires within { part < count_of plan.now kind }
        requires fresh { is_among (listed_in self.old kind) part ≡ false }
        ensures room { HasRoom plan.now self.new }
        ensures put { (other : Kind) → listed_in self.new other
            ≡ listed_in self.old other ++ (if is_same_kind kind other then part ∷ [] else []) }
    {
        match kind {
            Kind::Link => list(&mut self.links, part),
            Kind::Source => list(&mut self.sources, part),
            Kind::Element => list(&mut self.elements, part),
        }
    }

    /// The group of this name with these parts.
    pub(crate) fn group(&self, alloc: Global, name: Text) -> Result<Group, NoMemory>
        ensures { IfOk result (λ group. group ≡ group_with self.now name) }
    {
        let links = rows_of(alloc, self.links.listed())?;
        let sources = rows_of(alloc, self.sources.listed())?;
        let elements = rows_of(alloc, self.elements.listed())?;
        Ok(Group {
            name,
            links,
            sources,
            elements,
        })
    }
}

/// Whether a place is marked.
fn is_listed(marks: &Marks, place: u32) -> bool
    requires { place < length marks.now.flags }
    ensures { result ≡ is_among marks.now.listed place }
{
    // Just the marked places are listed.
    let _listed = marks.listed();
    marks.is_marked(place)
}

/// Marks a place that isn't marked.
fn list(marks: &mut Marks, place: u32)
    requires within { place < length marks.old.flags }
    requires fresh { is_among marks.old.listed place ≡ false }
    ensures counted { length marks.new.flags ≡ length marks.old.flags }
    ensures listed { marks.new.listed ≡ marks.old.listed ++ place ∷ [] }
{
    // Just the marked places are listed.
    let _listed = marks.listed();
    marks.mark(place);
}

/// The same numbers, as rows.
fn rows_of(alloc: Global, numbers: &[u32]) -> Result<Rows<u32>, NoMemory>
    ensures { IfOk result (λ rows. rows ≡ numbers.now) }
{
    let mut rows = Rows::with_capacity(alloc, numbers.len())?;
    for number in numbers {
        rows.push(*number)?;
    }
    Ok(rows)
}
