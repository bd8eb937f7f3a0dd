ghost use Rattle.std.specs.Prelude.{◌≡◌, ◌<◌, ◌↔◌, [], ◌∷◌, ◌++◌, length, Some, None, IsTrue, IfOk, OnOk, IfSome, IsNone, if◌then◌else◌};
ghost use Rattle.std.specs.List.{All};
ghost use Rattle.sync_topo.specs.Lines.{line_count, sender_of, receiver_of};
ghost use Rattle.sync_topo.specs.WellFormed.{IsWellFormed};
ghost use Rattle.nominate.specs.HopCount.{count_at, IsRoot};
ghost use Rattle.sync_topo.specs.Outputs.{AreOutputs, IsOutput};
ghost use Rattle.nominate.specs.private.Searching.{IsSearching, AreKept, AreLed, IsMore, IsClose, IsTakenOut, is_source};

use std::alloc::Global;
use std::mem;
use sync_text::NoMemory;
use sync_topo::{InputId, LineId, Plan};

/// The counts that are given so far.
#[derive(Drop)]
pub(crate) struct HopSearch {
    /// A count for each element that is reached.
    pub(crate) counts: Vec<Option<u32>>,
    /// The elements of this depth that are still to be looked at.
    pub(crate) current: Vec<u32>,
    /// The elements that are one deeper.
    pub(crate) next: Vec<u32>,
    /// The count of the elements that are looked at.
    pub(crate) depth: u32,
}

impl HopSearch {
    /// The roots have their counts, and wait to be looked at.
    pub(crate) fn new(alloc: Global, plan: &Plan) -> Result<HopSearch, NoMemory>
        ensures well_formed { IfOk result (λ _. IsWellFormed plan.now) }
        ensures searching { IfOk result (IsSearching plan.now) }
        ensures kept { IfOk result (AreKept plan.now) }
    {
        let mut counts = Vec::new(alloc);
        let mut current = Vec::new(alloc);
        for element in 0..plan.elements() {
            let root = is_root(plan, element);
            let Ok(()) = counts.push(count_of_root(root)) else {
                return Err(NoMemory);
            };
            push_if(&mut current, element, root)?;
        }
        Ok(HopSearch {
            counts,
            current,
            next: Vec::new(alloc),
            depth: 0,
        })
    }

    /// Gives counts for as long as an element waits.
    pub(crate) fn run(&mut self, plan: &Plan, outputs: &[Vec<LineId>]) -> Result<(), NoMemory>
        requires searching { IsSearching plan.now self.old }
        requires outputs { AreOutputs plan.now (line_count plan.now) outputs.now }
        requires kept { AreKept plan.now self.old }
        ensures searching { OnOk result (IsSearching plan.now self.new) }
        ensures led { OnOk result (AreLed plan.now self.new.counts.items) }
    {
        while let Some(element) = self.take(plan) {
            self.visit(plan, outputs[element as usize].as_slice(), element)?;
        }
        Ok(())
    }

    /// The next element to look at, if one waits.
    fn take(&mut self, plan: &Plan) -> Option<u32>
        requires { IsSearching plan.now self.old }
        ensures taken { IfSome result (IsTakenOut plan.now self.old self.new) }
        ensures searching { IsSearching plan.now self.new }
        ensures none { IsNone result → AreKept plan.now self.old
            → AreLed plan.now self.new.counts.items }
    {
        // Every plan keeps the rules.
        let _elements = plan.elements();
        if let Some(element) = self.current.pop() {
            return Some(element);
        }
        mem::swap(&mut self.current, &mut self.next);
        let element = self.current.pop()?;
        self.depth += 1;
        Some(element)
    }

    /// Gives counts to what lies one link from the element.
    fn visit(&mut self, plan: &Plan, outputs: &[LineId], element: u32) -> Result<(), NoMemory>
        requires searching { IsSearching plan.now self.old }
        requires outputs { All (IsOutput plan.now element) outputs.now }
        requires of_depth { count_at self.old.counts.items element ≡ Some self.old.depth }
        ensures more { OnOk result (IsMore plan.now self.old self.new) }
        ensures close { OnOk result (All (λ line. IsClose self.new.counts.items self.old.depth
            (receiver_of plan.now line.0)) outputs.now) }
    {
        for line in outputs {
            self.reach(plan, *line)?;
        }
        Ok(())
    }

    /// Gives the element where the line ends its count, if it has none yet.
    fn reach(&mut self, plan: &Plan, line: LineId) -> Result<(), NoMemory>
        requires searching { IsSearching plan.now self.old }
        requires within { line.0 < line_count plan.now }
        requires of_depth { count_at self.old.counts.items (sender_of plan.now line.0)
            ≡ Some self.old.depth }
        ensures more { OnOk result (IsMore plan.now self.old self.new) }
        ensures close { OnOk result (IsClose self.new.counts.items self.old.depth
            (receiver_of plan.now line.0)) }
    {
        // Every plan keeps the rules.
        let _elements = plan.elements();
        let receiver = plan.to(line);
        if self.counts[receiver as usize].is_some() {
            return Ok(());
        }
        let Ok(()) = self.next.push(receiver) else {
            return Err(NoMemory);
        };
        self.counts[receiver as usize] = Some(self.depth + 1);
        Ok(())
    }
}

/// The element has a nominated source.
pub(crate) fn is_root(plan: &Plan, element: u32) -> bool
    requires { element < length plan.now.elements }
    ensures { IsTrue result ↔ IsRoot plan.now element }
{
    // An element's sources come last among its inputs.
    match plan.inputs(element).last() {
        Some(input) => is_source(*input),
        None => false,
    }
}

/// The input is a source.
pub(crate) fn is_source(input: InputId) -> bool
    ensures { result ≡ is_source input }
{
    match input {
        InputId::Line(_) => false,
        InputId::Source(_) => true,
    }
}

/// The count of an element before any link is walked.
fn count_of_root(root: bool) -> Option<u32>
    ensures { result ≡ (if root then Some 0 else None) }
{
    if root { Some(0) } else { None }
}

/// Puts the element at the end, if it is meant.
fn push_if(elements: &mut Vec<u32>, element: u32, meant: bool) -> Result<(), NoMemory>
    ensures { OnOk result (elements.new.items
        ≡ (if meant then elements.old.items ++ element ∷ [] else elements.old.items)) }
{
    if !meant {
        return Ok(());
    }
    match elements.push(element) {
        Ok(()) => Ok(()),
        Err(_) => Err(NoMemory),
    }
}
