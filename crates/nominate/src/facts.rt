ghost use Rattle.std.specs.Prelude.{◌≡◌, ◌<◌, ◌+◌, ◌↔◌, false, length, replicate, Some, IsTrue, IfOk};
ghost use Rattle.sync_topo.specs.Lines.{line_count};
ghost use Rattle.nominate.specs.HopCount.{count_at, IsRoot, AreHopCounts, is_one_less};
ghost use Rattle.nominate.specs.LocalFacts.{AreNear, AreRootsRight, AreEndsNear, HaveCloser, AreLocallyRight};
ghost use Rattle.nominate.specs.private.Marks.{is_above, AreMarks};

use crate::hops::Hops;
use crate::search::is_root;
use std::alloc::Global;
use sync_text::NoMemory;
use sync_topo::{LineId, Plan};

/// Tests that the list is the counts that [`least_hops`](crate::least_hops) gives.
///
/// It looks at each element and at each link once: just the elements with a nominated source have 0,
/// the two ends of a link have no count or counts that differ by at most 1, and each other element
/// with a count has a link to one with one less. It takes a mark for each element. This project's own.
pub fn hops_ok(alloc: Global, plan: &Plan, hops: &Hops) -> Result<bool, NoMemory>
    requires { length hops.now ≡ length plan.now.elements }
    ensures local { IfOk result (λ right. IsTrue right ↔ AreLocallyRight plan.now hops.now) }
    ensures exact { IfOk result (λ right. IsTrue right ↔ AreHopCounts plan.now hops.now) }
{
    // Every plan keeps the rules.
    let elements = plan.elements();
    let Ok(mut marks) = vec![in alloc; false; elements as usize] else {
        return Err(NoMemory);
    };
    Ok(facts_ok(plan, hops, marks.as_mut_slice()))
}

/// The three facts hold.
fn facts_ok(plan: &Plan, hops: &Hops, marks: &mut [bool]) -> bool
    requires counted { length hops.now ≡ length plan.now.elements }
    requires none { marks.old ≡ replicate (length plan.now.elements) false }
    ensures { IsTrue result ↔ AreLocallyRight plan.now hops.now }
{
    roots_ok(plan, hops) && near_ok(plan, hops) && closer_ok(plan, hops, marks)
}

/// Just the roots have 0.
fn roots_ok(plan: &Plan, hops: &Hops) -> bool
    requires { length hops.now ≡ length plan.now.elements }
    ensures { IsTrue result ↔ AreRootsRight plan.now hops.now }
{
    for element in 0..plan.elements() {
        if !root_ok(plan, hops, element) {
            return false;
        }
    }
    true
}

/// The element has 0 just where it is a root.
fn root_ok(plan: &Plan, hops: &Hops, element: u32) -> bool
    requires counted { length hops.now ≡ length plan.now.elements }
    requires within { element < length plan.now.elements }
    ensures { IsTrue result ↔ ((count_at hops.now element ≡ Some 0) ↔ IsRoot plan.now element) }
{
    if is_root(plan, element) {
        hops.of(element) == Some(0)
    } else {
        hops.of(element) != Some(0)
    }
}

/// The two ends of each link are near.
fn near_ok(plan: &Plan, hops: &Hops) -> bool
    requires { length hops.now ≡ length plan.now.elements }
    ensures { IsTrue result ↔ AreEndsNear plan.now hops.now }
{
    for number in 0..plan.lines() {
        let line = LineId(number);
        if !are_near(hops.of(plan.from(line)), hops.of(plan.to(line))) {
            return false;
        }
    }
    true
}

/// Both have no count, or counts that differ by at most 1.
fn are_near(one: Option<u32>, other: Option<u32>) -> bool
    ensures { IsTrue result ↔ AreNear one other }
{
    match (one, other) {
        (None, None) => true,
        (Some(one), Some(other)) => one.abs_diff(other) <= 1,
        _ => false,
    }
}

/// Each element with a count above 0 has a link to one with one less.
fn closer_ok(plan: &Plan, hops: &Hops, marks: &mut [bool]) -> bool
    requires counted { length hops.now ≡ length plan.now.elements }
    requires none { marks.old ≡ replicate (length plan.now.elements) false }
    ensures { IsTrue result ↔ HaveCloser plan.now hops.now }
{
    mark_all(plan, hops, marks);
    all_marked(plan, hops, marks)
}

/// Marks the elements that a line from one with one less leads to.
fn mark_all(plan: &Plan, hops: &Hops, marks: &mut [bool])
    requires counted { length hops.now ≡ length plan.now.elements }
    requires none { marks.old ≡ replicate (length plan.now.elements) false }
    ensures { AreMarks plan.now hops.now (line_count plan.now) marks.new }
{
    for number in 0..plan.lines() {
        mark(plan, hops, marks, LineId(number));
    }
}

/// Marks the element where the line ends, if the line begins at one with one less.
fn mark(plan: &Plan, hops: &Hops, marks: &mut [bool], line: LineId)
    requires counted { length hops.now ≡ length plan.now.elements }
    requires room { length marks.old ≡ length plan.now.elements }
    requires within { line.0 < line_count plan.now }
    requires before { AreMarks plan.now hops.now line.0 marks.old }
    ensures { AreMarks plan.now hops.now (line.0 + 1) marks.new }
{
    let receiver = plan.to(line);
    if is_one_less(hops.of(plan.from(line)), hops.of(receiver)) {
        marks[receiver as usize] = true;
    }
}

/// Whether both of two elements have counts of hops, and the first one's is one less: timing may come
/// over a line from it.
pub fn is_one_less(one: Option<u32>, other: Option<u32>) -> bool
    ensures { result ≡ is_one_less one other }
{
    match (one, other) {
        (Some(one), Some(other)) => one.checked_add(1) == Some(other),
        _ => false,
    }
}

/// Each element with a count above 0 is marked.
fn all_marked(plan: &Plan, hops: &Hops, marks: &[bool]) -> bool
    requires counted { length hops.now ≡ length plan.now.elements }
    requires room { length marks.now ≡ length plan.now.elements }
    requires marks { AreMarks plan.now hops.now (line_count plan.now) marks.now }
    ensures { IsTrue result ↔ HaveCloser plan.now hops.now }
{
    for element in 0..plan.elements() {
        let marked = marks[element as usize];
        if !marked && is_above(hops.of(element)) {
            return false;
        }
    }
    true
}

/// There is a count, and it is above 0.
fn is_above(count: Option<u32>) -> bool
    ensures { result ≡ is_above count }
{
    match count {
        Some(hops) => 0 < hops,
        None => false,
    }
}
