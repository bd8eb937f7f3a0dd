//! How the trace of each element ends.

ghost use Rattle.std.specs.Prelude.{◌≡◌, ◌≤◌, ◌<◌, ◌⊎◌, ℕ, true, false, length, map, replicate, slice_get, None, Some, IfOk, OnOk};
ghost use Rattle.sync_topo.specs.Lines.{line_input, sender_of, numbers};
ghost use Rattle.sync_topo.specs.WellFormed.{IsWellFormed};
ghost use Rattle.net_rules.specs.GoingBack.{ComesBack};
ghost use Rattle.closed_walks.specs.declared.traced.Ending.{Ending};
ghost use Rattle.closed_walks.specs.Taking.{taken_in_list, AreTaken};
ghost use Rattle.closed_walks.specs.Traces.{EndsSo, AreFound};
ghost use Rattle.closed_walks.specs.Following.{Follows, is_met};
ghost use Rattle.closed_walks.specs.private.Known.{IsKnown, AreKnown, IsEndAt, IsMoreKnown};

use crate::following::{Next, follow, next_of};
use crate::traced::{End, Ending};
use std::alloc::Global;
use sync_text::{NoMemory, Rows};
use sync_topo::{InputId, LineId, Plan};

/// The element that an element takes its timing from over a line; the element itself where it takes
/// no line.
fn taken_from(plan: &Plan, taken: &[Option<InputId>], element: u32) -> u32
    requires taken { AreTaken plan.now taken.now }
    requires element { element < length plan.now.elements }
    ensures within { result < length plan.now.elements }
    ensures from { (line : ℕ) → taken_in_list taken.now element ≡ Some (line_input line) →
        result ≡ sender_of plan.now line }
{
    match next_of(taken[element as usize], element) {
        Next::On(line) => plan.from(line),
        Next::Over(_) => element,
    }
}

/// How many lines lead from an element of a loop once round to it.
fn lines_round(plan: &Plan, taken: &[Option<InputId>], element: u32) -> u32
    requires taken { AreTaken plan.now taken.now }
    requires element { element < length plan.now.elements }
    ensures { (count line : ℕ) → taken_in_list taken.now element ≡ Some (line_input line) →
        ComesBack plan.now (taken_in_list taken.now) count line → result ≡ count }
{
    let mut at = element;
    for count in 0..plan.elements() {
        at = taken_from(plan, taken, at);
        if at == element {
            return count + 1;
        }
    }
    plan.elements()
}

/// Notes how the elements of a loop trace: each comes to itself, once round.
fn note_loop(plan: &Plan, taken: &[Option<InputId>], known: &mut [Option<Ending>], element: u32)
    requires taken { AreTaken plan.now taken.now }
    requires element { element < length plan.now.elements }
    requires known { AreKnown plan.now (taken_in_list taken.now) known.old }
    ensures { (count line : ℕ) → taken_in_list taken.now element ≡ Some (line_input line) →
        ComesBack plan.now (taken_in_list taken.now) count line →
        IsMoreKnown plan.now (taken_in_list taken.now) known.old known.new
        × IsKnown known.new element }
{
    let _elements = plan.elements();
    let count = lines_round(plan, taken, element);
    let mut at = element;
    for _line in 0..count {
        known[at as usize] = Some(Ending {
            lines: count,
            end: End::Loop(at),
        });
        at = taken_from(plan, taken, at);
    }
}

/// Notes how the trace of the element ends to which was followed.
fn note_end(
    plan: &Plan,
    taken: &[Option<InputId>],
    known: &mut [Option<Ending>],
    last: u32,
    end: End,
)
    requires taken { AreTaken plan.now taken.now }
    requires last { last < length plan.now.elements }
    requires known { AreKnown plan.now (taken_in_list taken.now) known.old }
    requires end { IsEndAt plan.now (taken_in_list taken.now) known.old last end }
    ensures more { IsMoreKnown plan.now (taken_in_list taken.now) known.old known.new }
    ensures last { IsKnown known.new last }
{
    if known[last as usize].is_some() {
        return;
    }
    match end {
        End::Loop(_) => note_loop(plan, taken, known, last),
        End::Source(_) | End::OwnClock(_) => known[last as usize] = Some(Ending { lines: 0, end }),
    }
}

/// Notes how the trace of an element ends where it takes no line, or that of the one that it takes its
/// timing from is known.
fn note_next(plan: &Plan, taken: &[Option<InputId>], known: &mut [Option<Ending>], element: u32)
    requires taken { AreTaken plan.now taken.now }
    requires element { element < length plan.now.elements }
    requires known { AreKnown plan.now (taken_in_list taken.now) known.old }
    ensures more { IsMoreKnown plan.now (taken_in_list taken.now) known.old known.new }
    ensures element { (line : ℕ) → taken_in_list taken.now element ≡ Some (line_input line) →
        IsKnown known.old (sender_of plan.now line) → IsKnown known.new element }
{
    let _elements = plan.elements();
    if known[element as usize].is_some() {
        return;
    }
    match next_of(taken[element as usize], element) {
        Next::Over(end) => known[element as usize] = Some(Ending { lines: 0, end }),
        Next::On(line) => {
            if let Some(ending) = known[plan.from(line) as usize] {
                known[element as usize] = Some(Ending {
                    lines: ending.lines + 1,
                    end: ending.end,
                });
            }
        }
    }
}

/// Notes how the traces end of all that were followed, the last first.
fn note_back(
    plan: &Plan,
    taken: &[Option<InputId>],
    known: &mut [Option<Ending>],
    element: u32,
    last: u32,
    lines: Vec<LineId>,
)
    requires taken { AreTaken plan.now taken.now }
    requires known { AreKnown plan.now (taken_in_list taken.now) known.old }
    requires follows { Follows plan.now (taken_in_list taken.now) element (numbers lines.items) last }
    requires last { IsKnown known.old last }
    ensures more { IsMoreKnown plan.now (taken_in_list taken.now) known.old known.new }
    ensures element { IsKnown known.new element }
{
    let mut lines = lines;
    while let Some(line) = lines.pop() {
        note_next(plan, taken, known, plan.to(line));
    }
}

/// Follows what is taken from an element on, and notes how the traces end of all that are met.
fn resolve(
    alloc: Global,
    plan: &Plan,
    taken: &[Option<InputId>],
    met: &mut [bool],
    known: &mut [Option<Ending>],
    element: u32,
) -> Result<(), NoMemory>
    requires taken { AreTaken plan.now taken.now }
    requires element { element < length plan.now.elements }
    requires marks { length met.old ≡ length plan.now.elements }
    requires known { AreKnown plan.now (taken_in_list taken.now) known.old }
    requires met { (k : ℕ) → is_met met.old k ≡ true → IsKnown known.old k }
    ensures more { OnOk result (IsMoreKnown plan.now (taken_in_list taken.now) known.old known.new) }
    ensures element { OnOk result (IsKnown known.new element) }
    ensures met { OnOk result ((k : ℕ) → is_met met.new k ≡ true → IsKnown known.new k) }
{
    let way = follow(alloc, plan, taken, met, element)?;
    note_end(plan, taken, known, way.last, way.end);
    note_back(plan, taken, known, element, way.last, way.lines.into_vec());
    Ok(())
}

/// Notes how the traces end of the elements of a list, one after another, as far as what comes before
/// them is known; those that are known are marked.
fn note_in_order(
    plan: &Plan,
    taken: &[Option<InputId>],
    order: &[u32],
    met: &mut [bool],
    known: &mut [Option<Ending>],
)
    requires taken { AreTaken plan.now taken.now }
    requires marks { length met.old ≡ length plan.now.elements }
    requires known { AreKnown plan.now (taken_in_list taken.now) known.old }
    requires met { (k : ℕ) → is_met met.old k ≡ true → IsKnown known.old k }
    ensures marks { length met.new ≡ length met.old }
    ensures known { AreKnown plan.now (taken_in_list taken.now) known.new }
    ensures met { (k : ℕ) → is_met met.new k ≡ true → IsKnown known.new k }
{
    let elements = plan.elements();
    for element in order {
        if *element < elements {
            note_next(plan, taken, known, *element);
            met[*element as usize] = known[*element as usize].is_some();
        }
    }
}

/// So many elements, none of which is marked, and of none of which the ending is known.
fn forget(count: u32, met: &mut Vec<bool>, known: &mut Vec<Option<Ending>>) -> Result<(), NoMemory>
    ensures met { OnOk result (met.new.items ≡ replicate count false) }
    ensures known { OnOk result (known.new.items ≡ replicate count None) }
{
    met.clear();
    known.clear();
    met.resize(count as usize, false)?;
    known.resize(count as usize, None)?;
    Ok(())
}

/// Finds how the trace of each element ends, by the element's number, in memory that serves again.
///
/// It takes time by the number of elements and lines of the plan, however long the traces are. It is
/// quick where most elements come in the order behind those that they take their timing from; any list
/// serves as an order. What stood in the two lists is forgotten.
/// `NoMemory` comes only when out of memory. This project's own.
pub fn find_endings(
    alloc: Global,
    plan: &Plan,
    taken: &[Option<InputId>],
    order: &[u32],
    met: &mut Vec<bool>,
    known: &mut Vec<Option<Ending>>,
) -> Result<(), NoMemory>
    requires taken { AreTaken plan.now taken.now }
    ensures found { OnOk result (AreFound plan.now (taken_in_list taken.now) known.new.items) }
    ensures well_formed { IsWellFormed plan.now }
{
    forget(plan.elements(), met, known)?;
    note_in_order(plan, taken, order, met.as_mut_slice(), known.as_mut_slice());
    for element in 0..plan.elements() {
        if !met[element as usize] {
            resolve(
                alloc,
                plan,
                taken,
                met.as_mut_slice(),
                known.as_mut_slice(),
                element,
            )?;
        }
    }
    Ok(())
}

/// How the trace of each element ends, by the element's number: of how many lines it is, and where.
///
/// It takes time by the number of elements and lines of the plan, however long the traces are.
/// `NoMemory` comes only when out of memory. This project's own.
pub fn endings_of(
    alloc: Global,
    plan: &Plan,
    taken: &[Option<InputId>],
) -> Result<Rows<Ending>, NoMemory>
    requires taken { AreTaken plan.now taken.now }
    ensures count { IfOk result (λ endings. length endings ≡ length plan.now.elements) }
    ensures each { IfOk result (λ endings. (element : ℕ) (ending : Ending) →
        slice_get endings element ≡ Some ending →
        EndsSo plan.now (taken_in_list taken.now) element ending) }
    ensures well_formed { IsWellFormed plan.now }
{
    let mut met = Vec::new(alloc);
    let mut known = Vec::new(alloc);
    find_endings(alloc, plan, taken, &[], &mut met, &mut known)?;
    all_known(alloc, known.as_slice())
}

/// The endings, all of which are known.
fn all_known(alloc: Global, known: &[Option<Ending>]) -> Result<Rows<Ending>, NoMemory>
    requires { (element : ℕ) → element < length known.now → IsKnown known.now element }
    ensures { IfOk result (λ endings. map Some endings ≡ known.now) }
{
    let mut endings = Rows::with_capacity(alloc, known.len())?;
    for ending in known {
        match *ending {
            Some(ending) => endings.push(ending)?,
            None => unreachable!(),
        }
    }
    Ok(endings)
}
