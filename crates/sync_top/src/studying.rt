ghost use Rattle.std.specs.Prelude.{◌≡◌, ◌≤◌, length, IfOk};
ghost use Rattle.std.specs.List.{All};
ghost use Rattle.sync_topo.specs.Events.{IsCase, IsEventList};
ghost use Rattle.sync_top.specs.Forms.Study.{IsStudyReply, IsStudyTable};
ghost use Rattle.sync_top.specs.private.Work.{ends_in};

use crate::found::{Found, done};
use crate::sim::events_refused;
use event_file::{Cases, read_cases};
use std::alloc::Global;
use std::thread::Threads;
use sync_ql::limits::LAST_MILLISECOND;
use sync_sweep::{Gate, study, study_text};
use sync_text::{NoAnswer, NoMemory};
use sync_topo::Plan;

/// What is found of the bytes of cases: a row for each case, or the line on why they are refused.
pub(crate) fn cases_found<R: Threads + Sync, G: Gate + Sync>(
    rt: &R,
    alloc: Global,
    plan: &Plan,
    bytes: &[u8],
    until: u64,
    gate: &G,
) -> Result<Found, NoMemory>
    requires in_range { until ≤ LAST_MILLISECOND }
    ensures { IfOk result (λ found. IsStudyReply plan.now bytes.now until (ends_in found.finding) found.text) }
{
    match read_cases(alloc, plan, bytes) {
        Ok(cases) => studied(rt, alloc, plan, &cases, until, gate),
        Err(NoAnswer::NoMemory) => Err(NoMemory),
        Err(NoAnswer::Refused(refused)) => events_refused(alloc, refused),
    }
}

/// What is found of a plan and cases: a row for each case.
fn studied<R: Threads + Sync, G: Gate + Sync>(
    rt: &R,
    alloc: Global,
    plan: &Plan,
    cases: &Cases,
    until: u64,
    gate: &G,
) -> Result<Found, NoMemory>
    requires common { IsEventList plan.now cases.now.common }
    requires each { All (IsCase plan.now) cases.now.cases }
    requires named { length cases.now.names ≡ length cases.now.cases }
    requires in_range { until ≤ LAST_MILLISECOND }
    ensures { IfOk result (λ found. IsStudyTable plan.now cases.now until (ends_in found.finding) found.text) }
{
    let common = cases.common.as_slice();
    let rows = study(rt, alloc, plan, common, cases.cases.as_slice(), until, gate)?;
    Ok(done(study_text(alloc, plan, cases.names.as_slice(), rows.as_slice())?))
}
