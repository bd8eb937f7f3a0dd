//! How the traces of elements end, as plain numbers, found by going along an order: the quick way, where
//! each element comes soon after the one that it takes its timing from.

ghost use Rattle.std.specs.Prelude.{◌≡◌, ◌≤◌, ◌<◌, ◌^◌, ℕ, Bool, true, false, List, length, replicate, slice_set, IfOk, IfSome, OnOk};
ghost use Rattle.std.specs.List.{count_by, position};
ghost use Rattle.sync_topo.specs.Topology.{Topology};
ghost use Rattle.net_rules.specs.Settling.{IsGreatest};
ghost use Rattle.net_rules.specs.Walks.{Taken};
ghost use Rattle.closed_walks.specs.Taking.{taken_in_list, AreTaken};
ghost use Rattle.closed_walks.specs.Following.{is_met};
ghost use Rattle.timings.specs.Timing.{IsTiming};
ghost use Rattle.timings.specs.private.Ends.{AreEndsNoted, IsNumberIn};

use crate::counted::{Timing, is_lost};
use closed_walks::{Ending, Next, next_of};
use std::alloc::Global;
use sync_text::NoMemory;
use sync_topo::{InputId, Plan};

/// How the traces of elements end, by the elements' numbers, as far as it is known. None goes round.
#[derive(Debug, Drop)]
pub struct Ends {
    /// Of which elements it is known.
    pub known: Vec<bool>,
    /// Of how many lines the trace of each of these is.
    pub lines: Vec<u32>,
    /// Which of these don't end at a source.
    pub lost: Vec<bool>,
    /// Those of which it isn't known once an order was gone along.
    pub left: Vec<u32>,
}

/// The memory in which they are found.
pub(crate) fn no_ends(alloc: Global) -> Ends {
    Ends {
        known: Vec::new(alloc),
        lines: Vec::new(alloc),
        lost: Vec::new(alloc),
        left: Vec::new(alloc),
    }
}

/// The timing of all elements, by what each takes, where the order tells it: none where a trace goes
/// round, or where too many elements come before those that they take their timing from.
pub(crate) fn timing_along(
    plan: &Plan,
    taken: &[Option<InputId>],
    order: &[u32],
    ends: &mut Ends,
) -> Result<Option<Timing>, NoMemory>
    requires taken { AreTaken plan.now taken.now }
    ensures { IfOk result (λ timing. IfSome timing (IsTiming plan.now (taken_in_list taken.now))) }
{
    forget(plan.elements(), ends)?;
    timing_in(
        plan,
        taken,
        order,
        ends.known.as_mut_slice(),
        ends.lines.as_mut_slice(),
        ends.lost.as_mut_slice(),
        &mut ends.left,
    )
}

/// The same, where it is noted how some traces end.
fn timing_in(
    plan: &Plan,
    taken: &[Option<InputId>],
    order: &[u32],
    known: &mut [bool],
    lines: &mut [u32],
    lost: &mut [bool],
    left: &mut Vec<u32>,
) -> Result<Option<Timing>, NoMemory>
    requires taken { AreTaken plan.now taken.now }
    requires noted { AreEndsNoted plan.now (taken_in_list taken.now) known.old lines.old lost.old }
    ensures { IfOk result (λ timing. IfSome timing (IsTiming plan.now (taken_in_list taken.now))) }
{
    let _elements = plan.elements();
    note_each(plan, taken, order, known, lines, lost);
    note_left(plan, taken, order, known, lines, lost, left)?;
    if !are_all(known) {
        return Ok(None);
    }
    Ok(Some(counted_of(lines, lost)))
}

/// Of so many elements nothing is known.
fn forget(count: u32, ends: &mut Ends) -> Result<(), NoMemory>
    ensures known { OnOk result (ends.new.known.items ≡ replicate count false) }
    ensures lines { OnOk result (length ends.new.lines.items ≡ count) }
    ensures lost { OnOk result (length ends.new.lost.items ≡ count) }
{
    ends.known.clear();
    ends.known.resize(count as usize, false)?;
    ends.lines.resize(count as usize, 0)?;
    ends.lost.resize(count as usize, false)?;
    Ok(())
}

/// The elements of an order of which nothing is known.
fn leave(order: &[u32], known: &[bool], left: &mut Vec<u32>) -> Result<(), NoMemory> {
    left.clear();
    for element in order {
        if (*element as usize) < known.len() && !known[*element as usize] {
            left.push(*element)?;
        }
    }
    Ok(())
}

/// Notes how the traces end of the elements of an order that were left behind, where some were.
fn note_left(
    plan: &Plan,
    taken: &[Option<InputId>],
    order: &[u32],
    known: &mut [bool],
    lines: &mut [u32],
    lost: &mut [bool],
    left: &mut Vec<u32>,
) -> Result<(), NoMemory>
    requires taken { AreTaken plan.now taken.now }
    requires noted { AreEndsNoted plan.now (taken_in_list taken.now) known.old lines.old lost.old }
    ensures { OnOk result (AreEndsNoted plan.now (taken_in_list taken.now) known.new lines.new lost.new) }
{
    if are_all(known) {
        return Ok(());
    }
    leave(order, known, left)?;
    note_back(plan, taken, left.as_slice(), known, lines, lost);
    note_each(plan, taken, left.as_slice(), known, lines, lost);
    Ok(())
}

/// Notes how the traces end of the elements of an order, from the last to the first, as where timing has
/// turned round.
fn note_back(
    plan: &Plan,
    taken: &[Option<InputId>],
    order: &[u32],
    known: &mut [bool],
    lines: &mut [u32],
    lost: &mut [bool],
)
    requires taken { AreTaken plan.now taken.now }
    requires noted { AreEndsNoted plan.now (taken_in_list taken.now) known.old lines.old lost.old }
    ensures { AreEndsNoted plan.now (taken_in_list taken.now) known.new lines.new lost.new }
{
    for element in order.iter().rev() {
        note(plan, taken, known, lines, lost, *element);
    }
}

/// Notes how the traces end of the elements of an order, one after another, as far as what comes before
/// them is known.
#[inline(never)]
fn note_each(
    plan: &Plan,
    taken: &[Option<InputId>],
    order: &[u32],
    known: &mut [bool],
    lines: &mut [u32],
    lost: &mut [bool],
)
    requires taken { AreTaken plan.now taken.now }
    requires noted { AreEndsNoted plan.now (taken_in_list taken.now) known.old lines.old lost.old }
    ensures { AreEndsNoted plan.now (taken_in_list taken.now) known.new lines.new lost.new }
{
    for element in order {
        note(plan, taken, known, lines, lost, *element);
    }
}

/// Notes how the trace of an element ends, where it takes no line, or that of the one is known that it takes
/// its timing from.
fn note(
    plan: &Plan,
    taken: &[Option<InputId>],
    known: &mut [bool],
    lines: &mut [u32],
    lost: &mut [bool],
    element: u32,
)
    requires taken { AreTaken plan.now taken.now }
    requires noted { AreEndsNoted plan.now (taken_in_list taken.now) known.old lines.old lost.old }
    ensures { AreEndsNoted plan.now (taken_in_list taken.now) known.new lines.new lost.new }
{
    if element >= plan.elements() || known[element as usize] {
        return;
    }
    match next_of(taken[element as usize], element) {
        Next::Over(end) => {
            let is_lost = is_lost(&Ending { lines: 0, end });
            note_one(known, lines, lost, element, 0, is_lost);
        }
        Next::On(line) => {
            let from = plan.from(line) as usize;
            if known[from] {
                let count = lines[from] + 1;
                let is_lost = lost[from];
                note_one(known, lines, lost, element, count, is_lost);
            }
        }
    }
}

/// Notes how the trace of an element ends.
fn note_one(
    known: &mut [bool],
    lines: &mut [u32],
    lost: &mut [bool],
    element: u32,
    count: u32,
    is_lost: bool,
)
    requires known { element < length known.old }
    requires lines { element < length lines.old }
    requires lost { element < length lost.old }
    ensures known { known.new ≡ slice_set known.old element true }
    ensures lines { lines.new ≡ slice_set lines.old element count }
    ensures lost { lost.new ≡ slice_set lost.old element is_lost }
{
    known[element as usize] = true;
    lines[element as usize] = count;
    lost[element as usize] = is_lost;
}

/// What is counted of traces, all of which are known.
fn counted_of(lines: &[u32], lost: &[bool]) -> Timing
    requires few { length lost.now < 2 ^ 32 }
    ensures { (plan : Topology) (taken : Taken) (known : List Bool) →
        AreEndsNoted plan taken known lines.now lost.now →
        ((k : ℕ) → k < length known → is_met known k ≡ true) → IsTiming plan taken result }
{
    let count = count_of(lost);
    Timing {
        lost: count,
        first: first_of(count, lost),
        longest: greatest_of(lines),
    }
}

/// Whether all of some are set.
fn are_all(set: &[bool]) -> bool
    ensures { result ≡ true → (k : ℕ) → k < length set.now → is_met set.now k ≡ true }
{
    let mut all = true;
    for one in set {
        if !*one {
            all = false;
        }
    }
    all
}

/// How many of some are set.
fn count_of(set: &[bool]) -> u32
    requires few { length set.now < 2 ^ 32 }
    ensures { result ≡ count_by (λ (one : Bool). one) set.now }
{
    let mut count = 0;
    for one in set {
        if *one {
            count += 1;
        }
    }
    count
}

/// The first of some of which so many are set.
fn first_of(count: u32, set: &[bool]) -> Option<u32>
    requires few { length set.now < 2 ^ 32 }
    requires counted { count ≡ count_by (λ (one : Bool). one) set.now }
    ensures { result ≡ position (λ (one : Bool). one) set.now }
{
    if count == 0 {
        return None;
    }
    for (number, one) in set.iter().enumerate() {
        if *one {
            return Some(number as u32);
        }
    }
    None
}

/// The greatest of some numbers, and 0 where there is none.
fn greatest_of(numbers: &[u32]) -> u32
    ensures { IsGreatest (IsNumberIn numbers.now) result }
{
    let mut greatest = 0;
    for number in numbers {
        if greatest < *number {
            greatest = *number;
        }
    }
    greatest
}
