//! What a step changed.

ghost use Rattle.std.specs.Prelude.{◌≡◌, ◌<◌, ◌≤◌, ◌∷◌, ◌++◌, ℕ, false, if◌then◌else◌, [], length, map, slice_index_or, OnOk, IfOk};
ghost use Rattle.std.specs.List.{All};
ghost use Rattle.sync_topo.specs.Sizes.{most_rows};
ghost use Rattle.event_sim.specs.declared.shown.Shown.{Shown};
ghost use Rattle.event_sim.specs.Rows.{row_of};
ghost use Rattle.event_sim.specs.private.Showing.{AreShown, AreSeen, AreRenewed, AreNoted, IsAfterStep, others_in};

use crate::change::Change;
use crate::shown::{Shown, shown_of, shows_other};
use std::alloc::Global;
use sync_net::Net;
use sync_text::NoMemory;

/// What each element of a network shows.
pub(crate) fn first_shown(alloc: Global, net: &Net<'_>) -> Result<Vec<Shown>, NoMemory>
    requires { net.now.spent ≡ false }
    ensures { IfOk result (λ shown. AreShown net.now shown.items) }
{
    let plan = net.plan();
    // What changes in one millisecond always fits.
    let _most = plan.most_rows();
    let mut shown = Vec::with_capacity(alloc, plan.elements() as usize)?;
    for element in 0..plan.elements() {
        shown.push(shown_of(plan, element, net.element(element)))?;
    }
    Ok(shown)
}

/// Looks at the elements that the last step evaluated, and lists those that show something else.
fn look_at_evaluated(
    net: &Net<'_>,
    shown: &mut Vec<Shown>,
    changed: &mut Vec<u32>,
) -> Result<(), NoMemory>
    requires after_step { IsAfterStep net.now shown.old.items }
    requires empty { changed.old.items ≡ [] }
    ensures { OnOk result (AreSeen net.now net.now.evaluated
        shown.old.items shown.new.items changed.new.items) }
{
    for element in net.evaluated() {
        let now = shown_of(net.plan(), *element, net.element(*element));
        let was = shown[*element as usize];
        shown[*element as usize] = now;
        list_if(changed, *element, shows_other(was, now))?;
    }
    Ok(())
}

/// Lists an element where it is told so.
fn list_if(listed: &mut Vec<u32>, element: u32, told: bool) -> Result<(), NoMemory>
    ensures { OnOk result (listed.new.items ≡
        (if told then listed.old.items ++ element ∷ [] else listed.old.items)) }
{
    if told {
        listed.push(element)?;
    }
    Ok(())
}

/// The elements that show something else since the last step, in their order.
fn find_changed(
    net: &Net<'_>,
    shown: &mut Vec<Shown>,
    changed: &mut Vec<u32>,
) -> Result<(), NoMemory>
    requires after_step { IsAfterStep net.now shown.old.items }
    ensures renewed { OnOk result (AreRenewed net.now net.now.evaluated shown.old.items shown.new.items) }
    ensures changed { OnOk result (changed.new.items
        ≡ others_in net.now.plan shown.old.items shown.new.items) }
{
    changed.clear();
    look_at_evaluated(net, shown, changed)?;
    changed.sort_unstable();
    Ok(())
}

/// Adds the rows of some elements in a millisecond.
fn add_rows(
    changes: &mut Vec<Change>,
    now: u64,
    changed: &[u32],
    shown: &[Shown],
) -> Result<(), NoMemory>
    requires within { All (λ element. element < length shown.now) changed.now }
    ensures { OnOk result ((other : ℕ → Shown) → changes.new.items ≡ changes.old.items ++ map
        (λ element. row_of now element (slice_index_or shown.now element (other element))) changed.now) }
{
    for element in changed {
        changes.push(row_of(now, *element, shown[*element as usize]))?;
    }
    Ok(())
}

/// The row of an element that shows this from a millisecond on.
fn row_of(now: u64, element: u32, shown: Shown) -> Change
    ensures { result ≡ row_of now element shown }
{
    Change {
        at: now,
        element,
        mode: shown.mode,
        input: shown.input,
        level: shown.level,
        state: shown.state,
    }
}

/// The most rows that a report on the network's plan may have.
fn row_limit(net: &Net<'_>) -> usize
    ensures { result ≡ most_rows net.now.plan }
{
    net.plan().most_rows()
}

/// Notes what a step changed: true where the rows fit, and false where they are too many.
pub(crate) fn note_changes(
    net: &Net<'_>,
    now: u64,
    shown: &mut Vec<Shown>,
    changed: &mut Vec<u32>,
    changes: &mut Vec<Change>,
) -> Result<bool, NoMemory>
    requires after_step { IsAfterStep net.now shown.old.items }
    requires few { length changes.old.items ≤ most_rows net.now.plan }
    ensures renewed { OnOk result (AreRenewed net.now net.now.evaluated shown.old.items shown.new.items) }
    ensures noted { IfOk result (λ fits. AreNoted fits net.now now shown.old.items shown.new.items
        changes.old.items changes.new.items) }
{
    find_changed(net, shown, changed)?;
    let most = row_limit(net);
    if most - changes.len() < changed.len() {
        return Ok(false);
    }
    add_rows(changes, now, changed.as_slice(), shown.as_slice())?;
    Ok(true)
}
