//! A study: what becomes of a network in some cases.

ghost use Rattle.std.specs.Prelude.{◌≡◌, ◌≤◌, ◌<◌, true, length, IfOk, IfSome};
ghost use Rattle.std.specs.List.{All, AllZip};
ghost use Rattle.sync_topo.specs.Events.{IsCase, IsEventList};
ghost use Rattle.sync_sweep.specs.private.Rows.{IsStudyRowOf};
ghost use Rattle.sync_sweep.specs.Study.{AreStudyRows, IsOfPlan};

use crate::gate::Gate;
use crate::on_way::OnWay;
use crate::outcomes::Outcome;
use crate::sweeping::work_all;
use crate::timed::Timed;
use crate::working::Worked;
use std::alloc::Global;
use std::thread::Threads;
use sync_ql::limits::LAST_MILLISECOND;
use sync_text::{NoMemory, Rows};
use sync_topo::{Case, Event, Plan};
use timings::Timing;

/// What becomes of a network in a case, whence its elements have their timing then, and what the case
/// costs on the way.
///
/// This project's own.
#[derive(Clone, Copy, Debug, PartialEq, Eq, Drop)]
pub struct StudyRow {
    /// What becomes of the network.
    pub outcome: Outcome,
    /// Whence its elements have their timing.
    pub timing: Timing,
    /// What the case costs on the way.
    pub way: OnWay,
}

/// What becomes of the plan's network at `until` in each case, in order, where the common events
/// happen in all of them; in milliseconds from 0, and at most 86,400,000.
///
/// The run of a case has the common events and its own, in order of time, in one millisecond the
/// common ones first. Events after `until` don't matter. The cases are cut into at most eight chunks
/// of as many cases each, the last of which may have fewer; they run at once where there are
/// processors, and each calls the gate once, before its first case. A row doesn't depend on which
/// chunk it is worked in, nor on the other cases. Where a row has a settling bound that is not after
/// `until`, it is settled.
/// `NoMemory` comes only when out of memory. This project's own.
pub fn study<R: Threads + Sync, G: Gate + Sync>(
    rt: &R,
    alloc: Global,
    plan: &Plan,
    common: &[Event],
    cases: &[Case],
    until: u64,
    gate: &G,
) -> Result<Rows<StudyRow>, NoMemory>
    requires common { IsEventList plan.now common.now }
    requires cases { All (IsCase plan.now) cases.now }
    requires in_range { until ≤ LAST_MILLISECOND }
    ensures rows { IfOk result (AreStudyRows plan.now common.now until cases.now) }
    ensures count { IfOk result (λ rows. length rows ≡ length cases.now) }
    ensures of_plan { IfOk result (All (IsOfPlan plan.now)) }
    ensures bound { IfOk result (All (λ row. IfSome row.outcome.bound (λ bound. bound ≤ until →
        row.outcome.settled ≡ true))) }
{
    let worked = work_all::<R, G, Timed>(rt, alloc, plan, common, cases, until, gate)?;
    study_rows(alloc, worked.as_slice())
}

/// The rows of cases that were timed.
fn study_rows(alloc: Global, worked: &[Worked]) -> Result<Rows<StudyRow>, NoMemory>
    ensures { IfOk result (AllZip IsStudyRowOf worked.now) }
{
    let mut rows = Rows::new(alloc);
    for one in worked {
        rows.push(StudyRow {
            outcome: one.outcome,
            timing: one.timing,
            way: one.way,
        })?;
    }
    Ok(rows)
}
