//! Which elements and lines are looked at in a millisecond.

ghost use Rattle.std.specs.Prelude.{◌≡◌, ◌≤◌, ◌<◌, ◌⊎◌, ◌+◌, ◌-◌, ℕ, true, length, slice_set, All};
ghost use Rattle.agenda.specs.DueTimes.{AreLater};
ghost use Rattle.sync_topo.specs.Lines.{line_count, IsNominated};
ghost use Rattle.sync_net.specs.private.PartSteps.{IsFirstMarked};
ghost use Rattle.agenda.specs.Called.{is_marked};
ghost use Rattle.sync_net.specs.private.Stages.{is_among, AreMarked, KeepsMarks, AreDueMarked};

use agenda::{DueTimes, Marks};
use sync_topo::{InputId, LineId, Plan};

/// Marks all lines of a list.
pub(crate) fn mark_all(marks: &mut Marks, lines: &[LineId])
    requires within { All (λ line. line.0 < length marks.old.flags) lines.now }
    ensures kept { KeepsMarks marks.old.flags marks.new.flags }
    ensures marked { AreMarked (is_among lines.now) marks.new.flags }
    ensures cause { (k : ℕ) → is_marked marks.new.flags k ≡ true →
        (is_marked marks.old.flags k ≡ true) ⊎ (is_among lines.now k ≡ true) }
{
    for line in lines {
        marks.mark(line.0);
    }
}

/// Takes out what is due in a millisecond, and marks it: the first so many objects are elements, and
/// the others lines.
pub(crate) fn mark_due(
    dues: &mut DueTimes,
    count: u32,
    elements: &mut Marks,
    lines: &mut Marks,
    now: u64,
)
    requires elements { length elements.old.flags ≡ count }
    requires objects { length dues.old ≡ count + length lines.old.flags }
    ensures marked { AreDueMarked now count
        (record { dues = dues.old; elements = elements.old.flags; lines = lines.old.flags })
        (record { dues = dues.new; elements = elements.new.flags; lines = lines.new.flags }) }
    ensures later { AreLater now dues.new }
{
    while let Some(object) = dues.take(now) {
        mark_object(count, elements, lines, object);
    }
}

/// Marks an object: an element, or else a line.
fn mark_object(count: u32, elements: &mut Marks, lines: &mut Marks, object: u32)
    requires elements { length elements.old.flags ≡ count }
    requires object { object < count + length lines.old.flags }
    ensures elements_kept { KeepsMarks elements.old.flags elements.new.flags }
    ensures lines_kept { KeepsMarks lines.old.flags lines.new.flags }
    ensures element { object < count → elements.new.flags ≡ slice_set elements.old.flags object true }
    ensures element_alone { object < count → lines.new ≡ lines.old }
    ensures line { count ≤ object → lines.new.flags ≡ slice_set lines.old.flags (object - count) true }
    ensures line_alone { count ≤ object → elements.new ≡ elements.old }
{
    if object < count {
        elements.mark(object);
    } else {
        lines.mark(object - count);
    }
}

/// In the first step each element and each nominated line is looked at.
pub(crate) fn mark_if_first(plan: &Plan, next: u64, elements: &mut Marks, lines: &mut Marks)
    requires elements { length elements.old.flags ≡ length plan.now.elements }
    requires lines { length lines.old.flags ≡ line_count plan.now }
    ensures { IsFirstMarked plan.now next elements.old.flags elements.new.flags lines.old.flags lines.new.flags }
{
    if next != 0 {
        return;
    }
    mark_first(plan, elements, lines);
}

fn mark_first(plan: &Plan, elements: &mut Marks, lines: &mut Marks)
    requires elements { length elements.old.flags ≡ length plan.now.elements }
    requires lines { length lines.old.flags ≡ line_count plan.now }
    ensures elements_kept { KeepsMarks elements.old.flags elements.new.flags }
    ensures elements_marked { (e : ℕ) → e < length plan.now.elements → is_marked elements.new.flags e ≡ true }
    ensures lines_kept { KeepsMarks lines.old.flags lines.new.flags }
    ensures lines_marked { (l : ℕ) → IsNominated plan.now l → is_marked lines.new.flags l ≡ true }
    ensures lines_cause { (l : ℕ) → is_marked lines.new.flags l ≡ true →
        (is_marked lines.old.flags l ≡ true) ⊎ IsNominated plan.now l }
{
    mark_elements(plan, elements);
    mark_lines(plan, lines);
}

fn mark_elements(plan: &Plan, elements: &mut Marks)
    requires elements { length elements.old.flags ≡ length plan.now.elements }
    ensures elements_kept { KeepsMarks elements.old.flags elements.new.flags }
    ensures elements_marked { (e : ℕ) → e < length plan.now.elements → is_marked elements.new.flags e ≡ true }
{
    for element in 0..plan.elements() {
        elements.mark(element);
    }
}

fn mark_lines(plan: &Plan, lines: &mut Marks)
    requires lines { length lines.old.flags ≡ line_count plan.now }
    ensures lines_kept { KeepsMarks lines.old.flags lines.new.flags }
    ensures lines_marked { (l : ℕ) → IsNominated plan.now l → is_marked lines.new.flags l ≡ true }
    ensures lines_cause { (l : ℕ) → is_marked lines.new.flags l ≡ true →
        (is_marked lines.old.flags l ≡ true) ⊎ IsNominated plan.now l }
{
    for line in 0..plan.lines() {
        if plan.nominated(InputId::Line(LineId(line))) {
            lines.mark(line);
        }
    }
}
