//! A network that runs on from another, and goes back to it.

ghost use Rattle.std.specs.Prelude.{◌≡◌, ◌≤◌, ◌<◌, ◌+◌, ◌-◌, ℕ, false, List, [], length, All, IfOk, OnOk};
ghost use Rattle.sync_topo.specs.declared.event.Event.{Event};
ghost use Rattle.sync_topo.specs.Events.{Fits};
ghost use Rattle.sync_net.specs.NetState.{NetState, IsInTime};
ghost use Rattle.event_times.specs.EventTimes.{AreTold, AreWithin};
ghost use Rattle.sync_net.specs.Standing.{StandsFor};
ghost use Rattle.sync_net.specs.Evaluated.{IsContinued};
ghost use Rattle.sync_sweep.specs.private.AtBase.{IsAtBase};
ghost use Rattle.sync_sweep.specs.private.Branching.{IsBranch, AreMarksOf};
ghost use Rattle.sync_sweep.specs.private.ShownNow.{AreShown};
ghost use Rattle.sync_sweep.specs.private.Spells.{AreNone, AreNoneUnmarked, AreNotedAt, AreWorseNow, AreCountedSo};

use crate::shown::{ShownCounts, all_shown, note_shown};
use crate::spells::{Spell, no_spells, note_worse};
use crate::touched::{Touched, forget, mark_all, mark_named, none_touched};
use event_times::Moments;
use std::alloc::Global;
use std::sync::ledger::{Blank, Ledger};
use sync_net::Net;
use sync_ql::limits::LAST_MILLISECOND;
use sync_text::{NoMemory, Steps};
use sync_topo::Event;

/// A network that runs on from another, what of it the steps since then touched, what each element
/// showed where it was last asked, and for how long it is worse since.
#[derive(Debug)]
pub struct Branch<'a> {
    pub net: Net<'a>,
    pub touched: Touched,
    pub shown: ShownCounts,
    pub spells: Vec<Spell>,
}

// Written out, so that a way out of a function drops the whole in one step and not field by field.
impl<'a> Drop for Branch<'a> {
    fn drop(self) {
        let Branch {
            net,
            touched,
            shown,
            spells,
        } = self;
        drop(net);
        drop(touched);
        drop(shown);
        drop(spells);
    }
}

/// A network that goes on from another, of which nothing is touched.
pub(crate) fn new_branch<'a>(alloc: Global, base: &'a Net<'_>) -> Result<Branch<'a>, NoMemory>
    requires live { base.now.spent ≡ false }
    ensures { IfOk result (IsAtBase base.now) }
{
    let touched = none_touched(alloc, base.plan())?;
    let shown = all_shown(alloc, base)?;
    let spells = no_spells(alloc, base.plan().elements())?;
    let net = base.share(alloc)?;
    Ok(Branch {
        net,
        touched,
        shown,
        spells,
    })
}

/// A step, which marks what it evaluates and calls, and what its events name, and notes which elements are
/// worse than they were.
fn step<L: Ledger>(
    branch: &mut Branch<'_>,
    now: u64,
    events: &[Event],
    steps: &mut Steps<L>,
) -> Result<(), NoMemory>
    requires live { branch.old.net.spent ≡ false }
    requires in_time { IsInTime branch.old.net now }
    requires in_range { now ≤ LAST_MILLISECOND }
    requires fit { All (Fits branch.old.net.plan) events.now }
    requires here { All (λ event. event.at ≡ now) events.now }
    requires marks { AreMarksOf branch.old.net.plan branch.old.touched }
    requires levels { length branch.old.shown.levels ≡ length branch.old.net.plan.elements }
    requires spells { length branch.old.spells.items ≡ length branch.old.net.plan.elements }
    ensures plan { branch.new.net.plan ≡ branch.old.net.plan }
    ensures shown { branch.new.shown ≡ branch.old.shown }
    ensures spells { length branch.new.spells.items ≡ length branch.old.spells.items }
    ensures noted { OnOk result (AreNotedAt now branch.old.spells.items branch.new.spells.items) }
    ensures worse { OnOk result (AreWorseNow branch.old.net branch.old.shown.levels branch.old.spells.items →
        AreWorseNow branch.new.net branch.old.shown.levels branch.new.spells.items) }
    ensures unmarked { OnOk result (AreNoneUnmarked branch.old.touched branch.old.spells.items →
        AreNoneUnmarked branch.new.touched branch.new.spells.items) }
    ensures marks { OnOk result (AreMarksOf branch.new.net.plan branch.new.touched) }
    ensures live { OnOk result (branch.new.net.spent ≡ false) }
    ensures next { OnOk result (branch.new.net.next ≡ now + 1) }
    ensures stands { OnOk result ((all : List Event) (n : ℕ) →
        IsContinued branch.old.net.plan all n now events.now →
        StandsFor branch.old.net all n → StandsFor branch.new.net all (now + 1)) }
    ensures branch { OnOk result ((base : NetState) →
        IsBranch base branch.old.net branch.old.touched →
        IsBranch base branch.new.net branch.new.touched) }
{
    branch.net.step(now, events, steps)?;
    mark_all(&mut branch.touched.elements, branch.net.evaluated());
    mark_all(&mut branch.touched.lines, branch.net.called());
    mark_named(branch.net.plan(), &mut branch.touched, events);
    note_worse(
        &branch.net,
        &branch.shown.levels,
        now,
        branch.spells.as_mut_slice(),
        branch.net.evaluated(),
    );
    Ok(())
}

/// All steps from a millisecond up to and with another, which are told the events that stand there, and
/// are counted on a ledger.
pub(crate) fn run_events<L: Ledger>(
    branch: &mut Branch<'_>,
    from: u64,
    events: &[Event],
    until: u64,
    blank: Blank,
) -> Result<(), NoMemory>
    requires name { blank.name ≡ L.name }
    requires parts { blank.parts ≡ L.parts }
    requires some { 0 < blank.parts }
    requires live { branch.old.net.spent ≡ false }
    requires from { branch.old.net.next ≡ from }
    requires before { from ≤ until + 1 }
    requires in_range { until ≤ LAST_MILLISECOND }
    requires events { AreWithin branch.old.net.plan from until events.now }
    requires marks { AreMarksOf branch.old.net.plan branch.old.touched }
    requires levels { length branch.old.shown.levels ≡ length branch.old.net.plan.elements }
    requires spells { length branch.old.spells.items ≡ length branch.old.net.plan.elements }
    ensures plan { branch.new.net.plan ≡ branch.old.net.plan }
    ensures shown { branch.new.shown ≡ branch.old.shown }
    ensures spells { length branch.new.spells.items ≡ length branch.old.spells.items }
    ensures unmarked { OnOk result (AreNoneUnmarked branch.old.touched branch.old.spells.items →
        AreNoneUnmarked branch.new.touched branch.new.spells.items) }
    ensures counted { OnOk result ((all : List Event) (before : ℕ) →
        AreTold branch.old.net.plan all from until events.now → StandsFor branch.old.net all from →
        AreCountedSo branch.old.net branch.old.shown.levels all before from branch.old.spells.items →
        AreCountedSo branch.new.net branch.old.shown.levels all before (until + 1) branch.new.spells.items) }
    ensures live { OnOk result (branch.new.net.spent ≡ false) }
    ensures next { OnOk result (branch.new.net.next ≡ until + 1) }
    ensures stands { OnOk result ((all : List Event) →
        AreTold branch.old.net.plan all from until events.now →
        StandsFor branch.old.net all from → StandsFor branch.new.net all (until + 1)) }
    ensures branch { OnOk result ((base : NetState) →
        IsBranch base branch.old.net branch.old.touched →
        IsBranch base branch.new.net branch.new.touched) }
{
    sync_net::elements_law();
    let mut steps = Steps::<L>::new(blank);
    let mut moments = Moments::new(events, from, until);
    while let Some((now, here)) = moments.next_moment(branch.net.due()) {
        step(branch, now, here, &mut steps)?;
    }
    Ok(())
}

/// What is kept of the network where it began becomes what it shows.
pub(crate) fn show(branch: &mut Branch<'_>)
    requires live { branch.old.net.spent ≡ false }
    requires marks { AreMarksOf branch.old.net.plan branch.old.touched }
    requires states { length branch.old.shown.states ≡ length branch.old.net.plan.elements }
    requires levels { length branch.old.shown.levels ≡ length branch.old.net.plan.elements }
    ensures net { branch.new.net ≡ branch.old.net }
    ensures touched { branch.new.touched ≡ branch.old.touched }
    ensures spells { branch.new.spells ≡ branch.old.spells }
    ensures shown { (base : NetState) →
        IsBranch base branch.old.net branch.old.touched →
        AreShown base branch.old.shown → AreShown branch.new.net branch.new.shown }
{
    note_shown(
        &branch.net,
        &mut branch.shown,
        branch.touched.elements.listed(),
    );
}

/// Back to where it began: nothing is touched any more.
pub(crate) fn go_back(
    alloc: Global,
    branch: &mut Branch<'_>,
    base: &Net<'_>,
) -> Result<(), NoMemory>
    requires live { branch.old.net.spent ≡ false }
    requires base_live { base.now.spent ≡ false }
    requires branch { IsBranch base.now branch.old.net branch.old.touched }
    requires shown { AreShown branch.old.net branch.old.shown }
    requires spells { AreNone (length base.now.plan.elements) branch.old.spells.items }
    ensures { OnOk result (IsAtBase base.now branch.new) }
{
    branch.net.return_to(
        alloc,
        base,
        branch.touched.elements.listed(),
        branch.touched.lines.listed(),
        branch.touched.sources.listed(),
    )?;
    note_shown(base, &mut branch.shown, branch.touched.elements.listed());
    forget(&mut branch.touched);
    Ok(())
}
