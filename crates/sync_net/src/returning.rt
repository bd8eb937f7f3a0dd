//! Goes back to what another network keeps.

ghost use Rattle.std.specs.Prelude.{◌≡◌, ◌≤◌, ◌<◌, ◌+◌, ◌^◌, length, option_and_then, OnOk};
ghost use Rattle.std.specs.List.{All};
ghost use Rattle.sync_net.specs.private.Whole.{IsWhole};
ghost use Rattle.sync_net.specs.private.Copied.{AreSameBut, AreRenewed, IsElementDue, IsLineDue, AreReturned};

use crate::copying::try_clone_line;
use crate::parts::NetParts;
use crate::shared_element::SharedElement;
use crate::shared_line::SharedLine;
use agenda::DueTimes;
use std::alloc::Global;
use sync_text::NoMemory;
use sync_topo::Plan;

/// The parts become those of another network over the same plan, from which they differ in some
/// elements, lines and sources alone; what is told is the same for all of a plan.
pub(crate) fn return_parts(
    alloc: Global,
    plan: &Plan,
    parts: &mut NetParts<'_>,
    base: &NetParts<'_>,
    elements: &[u32],
    lines: &[u32],
    sources: &[u32],
) -> Result<(), NoMemory>
    requires whole { IsWhole plan.now parts.old }
    requires base_whole { IsWhole plan.now base.now }
    requires elements_within { All (λ e. e < length base.now.elements.items) elements.now }
    requires lines_within { All (λ l. l < length base.now.lines.items) lines.now }
    requires sources_within { All (λ s. s < length base.now.sources.items) sources.now }
    requires elements { AreSameBut elements.now parts.old.elements.items base.now.elements.items }
    requires lines { AreSameBut lines.now parts.old.lines.items base.now.lines.items }
    requires signals { AreSameBut lines.now parts.old.signals.items base.now.signals.items }
    requires heards { AreSameBut lines.now parts.old.heards.items base.now.heards.items }
    requires sources { AreSameBut sources.now parts.old.sources.items base.now.sources.items }
    ensures { OnOk result (AreReturned base.now parts.old parts.new) }
{
    return_elements(
        alloc,
        parts.elements.as_mut_slice(),
        base.elements.as_slice(),
        elements,
    )?;
    return_lines(
        alloc,
        parts.lines.as_mut_slice(),
        base.lines.as_slice(),
        lines,
    )?;
    renew_element_dues(&mut parts.dues, base.elements.as_slice(), elements);
    renew_line_dues(
        &mut parts.dues,
        plan.elements(),
        base.lines.as_slice(),
        lines,
    );
    return_places(parts.signals.as_mut_slice(), base.signals.as_slice(), lines);
    return_places(parts.heards.as_mut_slice(), base.heards.as_slice(), lines);
    return_places(
        parts.sources.as_mut_slice(),
        base.sources.as_slice(),
        sources,
    );
    parts.tellings.active.copy_from(&base.tellings.active);
    parts.called.copy_from(&base.called);
    parts.next = base.next;
    parts.later_steps = base.later_steps;
    Ok(())
}

fn return_elements(
    alloc: Global,
    elements: &mut [SharedElement<'_>],
    base: &[SharedElement<'_>],
    places: &[u32],
) -> Result<(), NoMemory>
    requires within { All (λ e. e < length base.now) places.now }
    requires same { AreSameBut places.now elements.old base.now }
    ensures { OnOk result (elements.new ≡ base.now) }
{
    for place in places {
        let place = *place as usize;
        elements[place] = base[place].try_clone(alloc)?;
    }
    Ok(())
}

fn return_lines(
    alloc: Global,
    lines: &mut [Option<SharedLine<'_>>],
    base: &[Option<SharedLine<'_>>],
    places: &[u32],
) -> Result<(), NoMemory>
    requires within { All (λ l. l < length base.now) places.now }
    requires same { AreSameBut places.now lines.old base.now }
    ensures { OnOk result (lines.new ≡ base.now) }
{
    for place in places {
        let place = *place as usize;
        lines[place] = try_clone_line(alloc, &base[place])?;
    }
    Ok(())
}

/// Some places have again what another list has there.
fn return_places<T: Copy>(items: &mut [T], base: &[T], places: &[u32])
    requires within { All (λ k. k < length base.now) places.now }
    requires same { AreSameBut places.now items.old base.now }
    ensures { items.new ≡ base.now }
{
    for place in places {
        items[*place as usize] = base[*place as usize];
    }
}

/// Elements at some places are due when they say so.
fn renew_element_dues(dues: &mut DueTimes, elements: &[SharedElement<'_>], places: &[u32])
    requires within { All (λ e. e < length elements.now) places.now }
    requires room { length elements.now ≤ length dues.old }
    ensures { AreRenewed 0 places.now (IsElementDue elements.now) dues.old dues.new }
{
    for place in places {
        dues.set(*place, elements[*place as usize].due());
    }
}

/// Lines at some places, which stand from the first on, are due when they say so.
fn renew_line_dues(
    dues: &mut DueTimes,
    first: u32,
    lines: &[Option<SharedLine<'_>>],
    places: &[u32],
)
    requires within { All (λ l. l < length lines.now) places.now }
    requires few { first + length lines.now < 2 ^ 32 }
    requires room { first + length lines.now ≤ length dues.old }
    ensures { AreRenewed first places.now (IsLineDue lines.now) dues.old dues.new }
{
    for place in places {
        dues.set(first + *place, due_of(&lines[*place as usize]));
    }
}

/// When a line is due, if it is kept.
fn due_of(line: &Option<SharedLine<'_>>) -> Option<u64>
    ensures { result ≡ option_and_then (λ state. state.due) line.now }
{
    match line {
        Some(line) => line.due(),
        None => None,
    }
}
