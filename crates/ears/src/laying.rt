// Ears over the tree of fewest hops: paths between elements of earlier ears.

use crate::tree::Tree;
use std::alloc::Global;
use sync_text::NoMemory;
use sync_topo::{InputId, Plan};

/// An edge that isn't of the tree: a bundle between two elements, or a source between its element
/// and the root.
#[derive(Clone, Copy, Drop)]
struct Edge {
    bundle: Option<u32>,
    one: u32,
    other: u32,
    /// The lowest node above both.
    ancestor: u32,
}

impl Edge {
    /// An edge of these ends.
    fn between(tree: &Tree, bundle: Option<u32>, one: u32, other: u32) -> Edge {
        Edge {
            bundle,
            one,
            other,
            ancestor: tree.meeting(one, other),
        }
    }

    /// The child of the edge's ancestor on the way up from one of its ends, if that isn't the
    /// ancestor itself.
    fn branch(self, tree: &Tree, end: u32) -> Option<u32> {
        if end == self.ancestor {
            return None;
        }
        let depth = tree.node(self.ancestor).depth.saturating_add(1);
        Some(tree.lifted(end, depth))
    }
}

/// The ears that are laid so far.
///
/// An ear is an edge that isn't of the tree, with the edges of the tree below the ancestor of its
/// ends that no earlier one covers. Edges come by the depths of their ancestors, and among those of
/// one ancestor one of which a branch below it is covered comes before any other. So an ear ends in
/// two elements of earlier ears, of which one survives each failure.
///
/// Ears after Whitney; the order after Maon, Schieber and Vishkin, and Ramachandran.
#[derive(Drop)]
pub(crate) struct Ears {
    /// For each element the bundle of its other neighbour on its ear, which isn't the one in the
    /// tree.
    pub(crate) seconds: Vec<Option<u32>>,
    /// Whether the edge of the tree above an element is covered.
    covered: Vec<bool>,
    edges: Vec<Edge>,
    /// Whether an edge is laid.
    laid: Vec<bool>,
    /// For each element the edges of which it is a branch.
    joined: Vec<Vec<u32>>,
    /// Whether an element has come up as a branch.
    entered: Vec<bool>,
    /// Branches whose edges are still to be laid.
    waiting: Vec<u32>,
}

impl Ears {
    /// All ears. The work grows with the elements, the links and the sources, and with the depth of
    /// the tree as its logarithm.
    pub(crate) fn of(alloc: Global, plan: &Plan, tree: &Tree) -> Result<Ears, NoMemory> {
        let mut ears = Ears::none(alloc, plan)?;
        ears.add_sources(plan, tree)?;
        ears.add_links(plan, tree)?;
        for place in 0..tree.order.len() {
            if let Some(ancestor) = tree.order.get(place).copied() {
                ears.lay_below(tree, ancestor)?;
            }
        }
        Ok(ears)
    }

    /// No edge.
    fn none(alloc: Global, plan: &Plan) -> Result<Ears, NoMemory> {
        let count = plan.elements() as usize;
        let Ok(seconds) = vec![in alloc; None; count] else {
            return Err(NoMemory);
        };
        Ok(Ears {
            seconds,
            covered: all_false(alloc, count)?,
            edges: Vec::new(alloc),
            laid: Vec::new(alloc),
            joined: no_edges(alloc, count)?,
            entered: all_false(alloc, count)?,
            waiting: Vec::new(alloc),
        })
    }

    /// Adds each nominated source but the first of its element.
    fn add_sources(&mut self, plan: &Plan, tree: &Tree) -> Result<(), NoMemory> {
        for element in 0..plan.elements() {
            self.add_sources_at(tree, plan.inputs(element), element)?;
        }
        Ok(())
    }

    /// Adds each source of these inputs but the first.
    fn add_sources_at(
        &mut self,
        tree: &Tree,
        inputs: &[InputId],
        element: u32,
    ) -> Result<(), NoMemory> {
        let mut first = true;
        for input in inputs {
            if let InputId::Source(_) = *input {
                if !first {
                    self.add(tree, Edge::between(tree, None, element, tree.root))?;
                }
                first = false;
            }
        }
        Ok(())
    }

    /// Adds each bundle between elements of the tree that isn't of the tree itself.
    fn add_links(&mut self, plan: &Plan, tree: &Tree) -> Result<(), NoMemory> {
        for link in 0..plan.links() {
            if plan.bundle(link) == link {
                let ends = plan.link(link);
                self.add_bundle(tree, link, ends.a, ends.b)?;
            }
        }
        Ok(())
    }

    /// Adds a bundle between two elements, if it is to be added.
    fn add_bundle(&mut self, tree: &Tree, bundle: u32, a: u32, b: u32) -> Result<(), NoMemory> {
        let of_tree = tree.node(a).bundle == Some(bundle) || tree.node(b).bundle == Some(bundle);
        if of_tree || !tree.has(a) {
            return Ok(());
        }
        self.add(tree, Edge::between(tree, Some(bundle), a, b))
    }

    /// Adds an edge, with its branches.
    fn add(&mut self, tree: &Tree, edge: Edge) -> Result<(), NoMemory> {
        let number = u32::try_from(self.edges.len()).unwrap_or(u32::MAX);
        self.join(edge.branch(tree, edge.one), number)?;
        self.join(edge.branch(tree, edge.other), number)?;
        let Ok(()) = self.edges.push(edge) else {
            return Err(NoMemory);
        };
        let Ok(()) = self.laid.push(false) else {
            return Err(NoMemory);
        };
        Ok(())
    }

    /// Notes an edge at a branch.
    fn join(&mut self, branch: Option<u32>, edge: u32) -> Result<(), NoMemory> {
        let Some(branch) = branch else {
            return Ok(());
        };
        let Some(edges) = self.joined.get_mut(branch as usize) else {
            return Ok(());
        };
        match edges.push(edge) {
            Ok(()) => Ok(()),
            Err(_) => Err(NoMemory),
        }
    }

    /// Lays the ears of all edges of this ancestor, from covered branches first.
    fn lay_below(&mut self, tree: &Tree, ancestor: u32) -> Result<(), NoMemory> {
        for child in tree.children(ancestor) {
            if is_set(self.covered.as_slice(), *child) {
                self.lay_from(tree, *child)?;
            }
        }
        for child in tree.children(ancestor) {
            self.lay_from(tree, *child)?;
        }
        Ok(())
    }

    /// Lays the ears that a branch is joined with by edges of its ancestor.
    fn lay_from(&mut self, tree: &Tree, branch: u32) -> Result<(), NoMemory> {
        self.enter(branch)?;
        for _turn in 0..tree.order.len() {
            let Some(branch) = self.waiting.pop() else {
                return Ok(());
            };
            self.lay_at(tree, branch)?;
        }
        Ok(())
    }

    /// Lays the edges of a branch that aren't laid yet.
    fn lay_at(&mut self, tree: &Tree, branch: u32) -> Result<(), NoMemory> {
        for place in 0..self.edges.len() {
            let Some(number) = self.edge_at(branch, place) else {
                return Ok(());
            };
            self.lay(tree, number)?;
        }
        Ok(())
    }

    /// The number of the edge at a place of a branch's.
    fn edge_at(&self, branch: u32, place: usize) -> Option<u32> {
        let edges = self.joined.get(branch as usize)?;
        edges.get(place).copied()
    }

    /// Lays the ear of an edge, if it isn't laid yet.
    fn lay(&mut self, tree: &Tree, number: u32) -> Result<(), NoMemory> {
        if is_set(self.laid.as_slice(), number) {
            return Ok(());
        }
        set(self.laid.as_mut_slice(), number);
        let Some(edge) = self.edges.get(number as usize).copied() else {
            return Ok(());
        };
        self.cover(tree, edge, edge.one);
        self.cover(tree, edge, edge.other);
        self.enter_branch(edge.branch(tree, edge.one))?;
        self.enter_branch(edge.branch(tree, edge.other))
    }

    /// Covers the edges of the tree from an end of an edge up to its ancestor, or to one that is
    /// covered: each element on the way has its other neighbour behind it.
    fn cover(&mut self, tree: &Tree, edge: Edge, end: u32) {
        let mut at = end;
        let mut behind = edge.bundle;
        for _step in 0..tree.order.len() {
            if at == edge.ancestor || is_set(self.covered.as_slice(), at) {
                return;
            }
            set(self.covered.as_mut_slice(), at);
            if let Some(second) = self.seconds.get_mut(at as usize) {
                *second = behind;
            }
            let node = tree.node(at);
            behind = node.bundle;
            at = node.parent;
        }
    }

    /// A branch waits for its edges to be laid, if there is one.
    fn enter_branch(&mut self, branch: Option<u32>) -> Result<(), NoMemory> {
        match branch {
            Some(branch) => self.enter(branch),
            None => Ok(()),
        }
    }

    /// A branch waits for its edges to be laid, unless it has come up before.
    fn enter(&mut self, branch: u32) -> Result<(), NoMemory> {
        if is_set(self.entered.as_slice(), branch) {
            return Ok(());
        }
        set(self.entered.as_mut_slice(), branch);
        match self.waiting.push(branch) {
            Ok(()) => Ok(()),
            Err(_) => Err(NoMemory),
        }
    }
}

/// So many marks, none of which is set.
fn all_false(alloc: Global, count: usize) -> Result<Vec<bool>, NoMemory> {
    match vec![in alloc; false; count] {
        Ok(marks) => Ok(marks),
        Err(_) => Err(NoMemory),
    }
}

/// No edges for any of so many elements.
fn no_edges(alloc: Global, count: usize) -> Result<Vec<Vec<u32>>, NoMemory> {
    let mut joined = Vec::new(alloc);
    for _element in 0..count {
        let Ok(()) = joined.push(Vec::new(alloc)) else {
            return Err(NoMemory);
        };
    }
    Ok(joined)
}

/// The mark of a number is set.
fn is_set(marks: &[bool], number: u32) -> bool {
    match marks.get(number as usize) {
        Some(mark) => *mark,
        None => false,
    }
}

/// Sets the mark of a number, if there is one.
fn set(marks: &mut [bool], number: u32) {
    if let Some(mark) = marks.get_mut(number as usize) {
        *mark = true;
    }
}
