// The tree of fewest hops from a root above all clocks.

use std::alloc::Global;
use sync_text::NoMemory;
use sync_topo::{InputId, LineId, Plan};

/// Where an element or the root stands in the tree.
#[derive(Clone, Copy, Drop)]
pub(crate) struct Node {
    /// How many edges it is below the root.
    pub(crate) depth: u32,
    /// The node above it; the root is above itself.
    pub(crate) parent: u32,
    /// The bundle of the link from there; a clock hangs on its first source.
    pub(crate) bundle: Option<u32>,
    /// A node further above, as far from it as from each node of its depth.
    jump: u32,
}

/// The elements that links lead to from a clock, as a tree.
///
/// The root goes by the number after those of all elements.
#[derive(Drop)]
pub(crate) struct Tree {
    /// The number of the root.
    pub(crate) root: u32,
    /// The root, and then the elements of the tree by their depths.
    pub(crate) order: Vec<u32>,
    nodes: Vec<Option<Node>>,
    children: Vec<Vec<u32>>,
}

impl Tree {
    /// The tree of a plan, by the lines out of each element. The work grows with the elements and links.
    pub(crate) fn of(
        alloc: Global,
        plan: &Plan,
        outputs: &[Vec<LineId>],
    ) -> Result<Tree, NoMemory> {
        let mut tree = Tree::alone(alloc, plan)?;
        let root = tree.root;
        for element in 0..plan.elements() {
            if is_clock(plan, element) {
                tree.add(root, None, element)?;
            }
        }
        for place in 0..plan.elements() as usize {
            tree.grow(plan, outputs, place + 1)?;
        }
        Ok(tree)
    }

    /// The root alone.
    fn alone(alloc: Global, plan: &Plan) -> Result<Tree, NoMemory> {
        let root = plan.elements();
        let Ok(nodes) = vec![in alloc; None; root as usize + 1] else {
            return Err(NoMemory);
        };
        let mut tree = Tree {
            root,
            order: Vec::new(alloc),
            nodes,
            children: no_children(alloc, root)?,
        };
        tree.put(root, tree.top())?;
        Ok(tree)
    }

    /// The root's node.
    fn top(&self) -> Node {
        Node {
            depth: 0,
            parent: self.root,
            bundle: None,
            jump: self.root,
        }
    }

    /// Adds what lies one link from the element at a place of the order.
    fn grow(&mut self, plan: &Plan, outputs: &[Vec<LineId>], place: usize) -> Result<(), NoMemory> {
        let Some(element) = self.order.get(place).copied() else {
            return Ok(());
        };
        let Some(lines) = outputs.get(element as usize) else {
            return Ok(());
        };
        for line in lines.as_slice() {
            if line.0 < plan.lines() {
                self.add(element, Some(plan.bundle(line.0 / 2)), plan.to(*line))?;
            }
        }
        Ok(())
    }

    /// Hangs an element under a node, unless it is in the tree already.
    fn add(&mut self, parent: u32, bundle: Option<u32>, element: u32) -> Result<(), NoMemory> {
        if self.has(element) {
            return Ok(());
        }
        let above = self.node(parent);
        let node = Node {
            depth: above.depth.saturating_add(1),
            parent,
            bundle,
            jump: self.jump_under(parent, above),
        };
        if let Some(children) = self.children.get_mut(parent as usize) {
            let Ok(()) = children.push(element) else {
                return Err(NoMemory);
            };
        }
        self.put(element, node)
    }

    /// Where a child of a node jumps to: past two jumps of one length, or else to the node itself.
    fn jump_under(&self, parent: u32, above: Node) -> u32 {
        let near = self.node(above.jump);
        let far = self.node(near.jump);
        if above.depth.saturating_sub(near.depth) == near.depth.saturating_sub(far.depth) {
            near.jump
        } else {
            parent
        }
    }

    /// Keeps a node, and puts it at the end of the order.
    fn put(&mut self, number: u32, node: Node) -> Result<(), NoMemory> {
        if let Some(kept) = self.nodes.get_mut(number as usize) {
            *kept = Some(node);
        }
        match self.order.push(number) {
            Ok(()) => Ok(()),
            Err(_) => Err(NoMemory),
        }
    }

    /// A node is in the tree.
    pub(crate) fn has(&self, number: u32) -> bool {
        match self.nodes.get(number as usize) {
            Some(node) => node.is_some(),
            None => false,
        }
    }

    /// A node of the tree; the root's for any other number.
    pub(crate) fn node(&self, number: u32) -> Node {
        match self.nodes.get(number as usize) {
            Some(Some(node)) => *node,
            _ => self.top(),
        }
    }

    /// The nodes right below one.
    pub(crate) fn children(&self, number: u32) -> &[u32] {
        match self.children.get(number as usize) {
            Some(children) => children.as_slice(),
            None => &[],
        }
    }

    /// The lowest node above both of two, or one of them where it is above the other.
    pub(crate) fn meeting(&self, one: u32, other: u32) -> u32 {
        let depth = self.node(one).depth.min(self.node(other).depth);
        let mut one = self.lifted(one, depth);
        let mut other = self.lifted(other, depth);
        for _step in 0..self.order.len() {
            if one == other {
                return one;
            }
            let near = self.node(one);
            let far = self.node(other);
            (one, other) = if near.jump == far.jump {
                (near.parent, far.parent)
            } else {
                (near.jump, far.jump)
            };
        }
        self.root
    }

    /// The node of this depth above one, or the node itself where it isn't deeper.
    pub(crate) fn lifted(&self, number: u32, depth: u32) -> u32 {
        let mut at = number;
        for _step in 0..self.order.len() {
            let node = self.node(at);
            if node.depth <= depth {
                return at;
            }
            at = if self.node(node.jump).depth < depth {
                node.parent
            } else {
                node.jump
            };
        }
        at
    }
}

/// No children for any element, nor for the root.
fn no_children(alloc: Global, root: u32) -> Result<Vec<Vec<u32>>, NoMemory> {
    let mut children = Vec::new(alloc);
    for _number in 0..=root {
        let Ok(()) = children.push(Vec::new(alloc)) else {
            return Err(NoMemory);
        };
    }
    Ok(children)
}

/// The element has a nominated source.
fn is_clock(plan: &Plan, element: u32) -> bool {
    if element >= plan.elements() {
        return false;
    }
    // An element's sources come last among its inputs.
    match plan.inputs(element).last() {
        Some(InputId::Source(_)) => true,
        _ => false,
    }
}
