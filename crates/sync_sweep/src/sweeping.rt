//! All links of a plan, in chunks that run at once.

ghost use Rattle.std.specs.Prelude.{◌≡◌, ◌≤◌, ◌<◌, ◌*◌, ◌/◌, ℕ, true, length, IfOk, IfSome};
ghost use Rattle.std.specs.List.{All};
ghost use Rattle.sync_topo.specs.Events.{IsCase, IsEventList};
ghost use Rattle.sync_sweep.specs.private.Base.{IsBase};
ghost use Rattle.sync_sweep.specs.private.Study.{IsStudy, AreCasesOf};
ghost use Rattle.sync_sweep.specs.Sweep.{AreSweepRows};
ghost use Rattle.sync_sweep.specs.private.Working.{AreWorked};

use crate::cases::{begin_of, failures};
use crate::chunks::{join_worked, worked_in};
use crate::common::Study;
use crate::gate::Gate;
use crate::row::{SweepRow, rows_of};
use crate::timer::{Timer, Untimed};
use crate::working::Worked;
use cycle_plan::settling_bound;
use event_sim::{Sim, Watch, run_to};
use std::alloc::Global;
use std::thread;
use std::thread::Threads;
use sync_ql::limits::LAST_MILLISECOND;
use sync_text::{NoMemory, Rows};
use sync_topo::{Case, Event, Plan};

/// Into so many chunks the cases are cut at most.
const CHUNKS: usize = 8;

/// What becomes of the plan's network at `until` where one link alone goes down at `at`, for each
/// link in order; both in milliseconds from 0, and at most 86,400,000.
///
/// The links are cut into at most eight chunks of as many links each, the last of which may have
/// fewer; they run at once where there are processors, and each calls the gate once, before its
/// first link. A row doesn't depend on which chunk it is worked in. Where a row has a settling bound
/// that is not after `until`, it is settled.
/// `NoMemory` comes only when out of memory. This project's own.
pub fn sweep<R: Threads + Sync, G: Gate + Sync>(
    rt: &R,
    alloc: Global,
    plan: &Plan,
    at: u64,
    until: u64,
    gate: &G,
) -> Result<Rows<SweepRow>, NoMemory>
    requires in_order { at ≤ until }
    requires in_range { until ≤ LAST_MILLISECOND }
    ensures rows { IfOk result (AreSweepRows plan.now at until) }
    ensures of_plan { IfOk result (All (λ row. row.link < length plan.now.links)) }
    ensures bound { IfOk result (All (λ row. IfSome row.outcome.bound (λ bound. bound ≤ until →
        row.outcome.settled ≡ true))) }
{
    net_rules::event_law();
    let cases = failures(alloc, plan.links(), at)?;
    let worked = work_all::<R, G, Untimed>(rt, alloc, plan, &[], cases.as_slice(), until, gate)?;
    rows_of(alloc, worked.as_slice())
}

/// What becomes of the plan's network at the end of a millisecond in each case, where the common
/// events happen in all of them, with what a timer tells of each.
pub(crate) fn work_all<'p, R: Threads + Sync, G: Gate + Sync, T: Timer + Sync>(
    rt: &R,
    alloc: Global,
    plan: &'p Plan,
    common: &'p [Event],
    cases: &[Case],
    until: u64,
    gate: &G,
) -> Result<Rows<Worked>, NoMemory>
    requires common { IsEventList plan.now common.now }
    requires cases { All (IsCase plan.now) cases.now }
    requires in_range { until ≤ LAST_MILLISECOND }
    ensures worked { IfOk result (AreWorked T.IsTold plan.now common.now until cases.now) }
{
    if cases.is_empty() {
        return Ok(Rows::new(alloc));
    }
    let bound = settling_bound(alloc, plan, until)?;
    let from = begin_of(cases, until);
    let sim = base_run(alloc, plan, common, from)?;
    let _reached = sim.reached();
    let study = Study {
        base: sim.net(),
        common,
        from,
        until,
        bound,
    };
    in_chunks::<R, G, T>(rt, alloc, &study, cases, gate)
}

/// How many cases each chunk has: enough that there are at most eight chunks.
fn chunk_size(cases: usize) -> usize
    requires { 0 < cases }
    ensures some { 0 < result }
    ensures few_chunks { cases ≤ CHUNKS * result }
{
    cases.div_ceil(CHUNKS)
}

/// The number of a chunk, by the place of its first case.
fn chunk_number(start: usize, size: usize) -> u32
    requires some { 0 < size }
    requires start { start < CHUNKS * size }
    ensures { result ≡ start / size }
{
    (start / size) as u32
}

/// What becomes of the network in each case of a study, worked in chunks.
fn in_chunks<R: Threads + Sync, G: Gate + Sync, T: Timer + Sync>(
    rt: &R,
    alloc: Global,
    study: &Study<'_, '_>,
    cases: &[Case],
    gate: &G,
) -> Result<Rows<Worked>, NoMemory>
    requires some { 0 < length cases.now }
    requires study { IsStudy study.now }
    requires cases { AreCasesOf study.now cases.now }
    ensures worked { IfOk result (AreWorked T.IsTold study.now.base.now.plan study.now.common.now study.now.until cases.now) }
{
    let size = chunk_size(cases.len());
    let parts = thread::map_chunks(
        rt,
        alloc,
        cases,
        size,
        &|start: usize, chunk: &[Case]| -> Result<Rows<Worked>, NoMemory>
            requires { (0 < size) × (start < CHUNKS * size) × IsStudy study.now × AreCasesOf study.now chunk.now }
            ensures { IfOk result (AreWorked T.IsTold study.entry.now.base.now.plan study.entry.now.common.now
                study.entry.now.until chunk.entry.now) }
        {
            gate.enter(chunk_number(start, size));
            worked_in::<T>(alloc, study, chunk)
        },
    );
    match parts {
        Ok(parts) => join_worked(alloc, parts.as_slice()),
        Err(_) => Err(NoMemory),
    }
}

/// A simulator of the plan that watches nothing and has come as far as up to a millisecond, with
/// the common events before it.
fn base_run<'a>(
    alloc: Global,
    plan: &'a Plan,
    common: &[Event],
    from: u64,
) -> Result<Sim<'a>, NoMemory>
    requires common { IsEventList plan.now common.now }
    requires in_range { from ≤ LAST_MILLISECOND }
    ensures plan { IfOk result (λ sim. sim.net.plan ≡ plan.now) }
    ensures base { IfOk result (IsBase common.now from) }
{
    if from == 0 {
        let unstarted = Sim::new(alloc, plan, Watch::Nothing)?;
        return Ok(unstarted);
    }
    let (sim, _) = run_to(alloc, plan, Watch::Nothing, common, from - 1)?;
    Ok(sim)
}
