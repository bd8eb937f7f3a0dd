//! Listing the closed walks of what is taken.

ghost use Rattle.std.specs.Prelude.{◌≡◌, ◌<◌, ◌+◌, ℕ, true, false, length, map, slice_get, Some, IsNone, IfOk, OnOk, IfSome};
ghost use Rattle.std.specs.List.{All};
ghost use Rattle.sync_topo.specs.Lines.{line_count, receiver_of, numbers};
ghost use Rattle.sync_topo.specs.WellFormed.{IsWellFormed};
ghost use Rattle.net_rules.specs.GoingBack.{lines_before, ComesBack};
ghost use Rattle.net_rules.specs.Walks.{IsTaken};
ghost use Rattle.closed_walks.specs.declared.traced.Ending.{Ending};
ghost use Rattle.closed_walks.specs.Taking.{taken_in_list, AreTaken};
ghost use Rattle.closed_walks.specs.Traces.{EndsSo};
ghost use Rattle.closed_walks.specs.Following.{is_met};
ghost use Rattle.closed_walks.specs.Loops.{AreLoops};
ghost use Rattle.closed_walks.specs.private.Listing.{backwards, AreMarked, AreListed};
ghost use Rattle.closed_walks.specs.Within.{AreLinesOf};

use crate::endings::endings_of;
use crate::following::{Next, next_of, no_marks};
use crate::traced::{End, Ending, Walk};
use std::alloc::Global;
use sync_text::{NoMemory, Rows};
use sync_topo::{InputId, LineId, Plan};

/// The lines in the other order.
fn reversed(alloc: Global, lines: Vec<LineId>) -> Result<Walk, NoMemory>
    ensures { IfOk result (λ walk. numbers walk ≡ backwards lines.items) }
{
    let mut lines = lines;
    let mut walk = Rows::new(alloc);
    while let Some(line) = lines.pop() {
        walk.push(line)?;
    }
    Ok(walk)
}

/// The closed walk that a line is of, from this line on, once round. Its elements are marked.
fn walk_from(
    alloc: Global,
    plan: &Plan,
    taken: &[Option<InputId>],
    listed: &mut [bool],
    first: LineId,
    count: u32,
) -> Result<Walk, NoMemory>
    requires taken { AreTaken plan.now taken.now }
    requires marks { length listed.old ≡ length plan.now.elements }
    requires line { first.0 < line_count plan.now }
    requires comes { ComesBack plan.now (taken_in_list taken.now) count first.0 }
    ensures walk { IfOk result (λ walk. numbers walk ≡ lines_before plan.now (taken_in_list taken.now) count first.0) }
    ensures marked { IfOk result (λ walk.
        AreMarked plan.now (taken_in_list taken.now) first.0 count listed.old listed.new) }
{
    let mut lines = Rows::new(alloc);
    let mut at = plan.from(first);
    for _line in 0..count {
        match next_of(taken[at as usize], at) {
            Next::On(line) => {
                lines.push(line)?;
                listed[at as usize] = true;
                at = plan.from(line);
            }
            Next::Over(_) => unreachable!(),
        }
    }
    reversed(alloc, lines.into_vec())
}

/// How many lines the loop of an element has, by how its trace ends: none where it is on no loop.
fn loop_lines(ending: Ending, element: u32) -> Option<u32>
    ensures some { IfSome result (λ count. ending ≡ record { lines = count; end = End.Loop element }) }
    ensures none { IsNone result → (count : ℕ) → ending ≡ record { lines = count; end = End.Loop element } → ⊥ }
{
    match ending.end {
        End::Loop(again) if again == element => Some(ending.lines),
        _ => None,
    }
}

/// How many lines the loop has that a line is of, if there is one that isn't listed.
fn begins(
    plan: &Plan,
    taken: &[Option<InputId>],
    endings: &[Ending],
    listed: &[bool],
    line: LineId,
) -> Option<u32>
    requires taken { AreTaken plan.now taken.now }
    requires marks { length listed.now ≡ length plan.now.elements }
    requires line { line.0 < line_count plan.now }
    requires count { length endings.now ≡ length plan.now.elements }
    requires endings { (element : ℕ) (ending : Ending) → slice_get endings.now element ≡ Some ending →
        EndsSo plan.now (taken_in_list taken.now) element ending }
    ensures takes { IfSome result (λ count. IsTaken plan.now (taken_in_list taken.now) line.0) }
    ensures comes { IfSome result (λ count. ComesBack plan.now (taken_in_list taken.now) count line.0) }
    ensures new { IfSome result (λ count. is_met listed.now (receiver_of plan.now line.0) ≡ false) }
    ensures none { IsNone result → (count : ℕ) → IsTaken plan.now (taken_in_list taken.now) line.0 →
        ComesBack plan.now (taken_in_list taken.now) count line.0 →
        is_met listed.now (receiver_of plan.now line.0) ≡ true }
{
    let to = plan.to(line);
    if listed[to as usize] {
        return None;
    }
    match next_of(taken[to as usize], to) {
        Next::On(other) if other.0 == line.0 => loop_of(endings, to),
        _ => None,
    }
}

/// How many lines the loop of an element has, if it is on one.
fn loop_of(endings: &[Ending], element: u32) -> Option<u32>
    requires { element < length endings.now }
    ensures some { IfSome result (λ count. slice_get endings.now element
        ≡ Some (record { lines = count; end = End.Loop element })) }
    ensures none { IsNone result → (count : ℕ) → slice_get endings.now element
        ≡ Some (record { lines = count; end = End.Loop element }) → ⊥ }
{
    let ending = endings[element as usize];
    loop_lines(ending, element)
}

/// Lists the closed walk from a line, if there is one that isn't listed.
fn list_from(
    alloc: Global,
    plan: &Plan,
    taken: &[Option<InputId>],
    endings: &[Ending],
    listed: &mut [bool],
    walks: &mut Rows<Walk>,
    line: LineId,
) -> Result<(), NoMemory>
    requires taken { AreTaken plan.now taken.now }
    requires marks { length listed.old ≡ length plan.now.elements }
    requires line { line.0 < line_count plan.now }
    requires count { length endings.now ≡ length plan.now.elements }
    requires endings { (element : ℕ) (ending : Ending) → slice_get endings.now element ≡ Some ending →
        EndsSo plan.now (taken_in_list taken.now) element ending }
    requires listed { AreListed plan.now (taken_in_list taken.now) line.0 listed.old (map numbers walks.old) }
    ensures { OnOk result (AreListed plan.now (taken_in_list taken.now) (line.0 + 1) listed.new
        (map numbers walks.new)) }
{
    match begins(plan, taken, endings, listed, line) {
        Some(count) => {
            let walk = walk_from(alloc, plan, taken, listed, line, count)?;
            walks.push(walk)
        }
        None => Ok(()),
    }
}

/// All closed walks of what is taken, each once and from its lowest line, in the order of these.
///
/// It takes time by the number of elements and lines of the plan. `NoMemory` comes for want of
/// memory alone. The order is this project's own.
pub fn walks_of(
    alloc: Global,
    plan: &Plan,
    taken: &[Option<InputId>],
) -> Result<Rows<Walk>, NoMemory>
    requires taken { AreTaken plan.now taken.now }
    ensures loops { IfOk result (λ walks. AreLoops plan.now (taken_in_list taken.now) (map numbers walks)) }
    ensures of_plan { IfOk result (All (AreLinesOf plan.now)) }
    ensures well_formed { IsWellFormed plan.now }
{
    let mut listed = no_marks(alloc, plan.elements())?;
    let endings = endings_of(alloc, plan, taken)?;
    let mut walks = Rows::new(alloc);
    for number in 0..plan.lines() {
        list_from(
            alloc,
            plan,
            taken,
            endings.as_slice(),
            listed.as_mut_slice(),
            &mut walks,
            LineId(number),
        )?;
    }
    Ok(walks)
}
