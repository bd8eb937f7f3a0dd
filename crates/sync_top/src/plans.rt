// What is found of a plan, by what is asked of it.

ghost use Rattle.std.specs.Prelude.{◌≤◌, IfOk};
ghost use Rattle.sync_top.specs.Answer.{PlanAnswer};
ghost use Rattle.sync_top.specs.Forms.Agree.{IsAgreedText};
ghost use Rattle.sync_top.specs.Forms.Chains.{IsChained};
ghost use Rattle.sync_top.specs.Forms.Hops.{AreHopRows};
ghost use Rattle.sync_top.specs.Forms.Nominate.{IsNominatedText};
ghost use Rattle.sync_top.specs.Forms.Priority.{IsPriorityPlanned};
ghost use Rattle.sync_top.specs.Forms.Rank.{IsPlanned};
ghost use Rattle.sync_top.specs.Forms.Sweep.{IsSweepTable};
ghost use Rattle.sync_top.specs.private.FormSeen.{IsTimed};
ghost use Rattle.sync_top.specs.private.Work.{ends_in};

use crate::form::PlanForm;
use crate::found::{Found, done, refuted};
use crate::protecting::{gaps_found, protected_plan};
use crate::written::{forced_text, plan_text, ranks_text};
use cycle_plan::{Agreement, Chained, Ranked, agree, chain_plan, rank_plan};
use nominate::{least_hops, nominate};
use plan_texts::{agreed_text, chains_text, cycle_text, hops_text, lines_text};
use prio_mode::{PrioRanked, prio_plan};
use std::alloc::Global;
use std::thread::Threads;
use sync_ql::limits::LAST_MILLISECOND;
use sync_sweep::{Gate, sweep, sweep_text};
use sync_text::NoMemory;
use sync_topo::Plan;

/// What is found of a plan.
pub(crate) fn plan_found<R: Threads + Sync, G: Gate + Sync>(
    rt: &R,
    alloc: Global,
    what: PlanForm,
    plan: &Plan,
    gate: &G,
) -> Result<Found, NoMemory>
    requires timed { IsTimed what }
    ensures { IfOk result (λ found. PlanAnswer what plan.now (ends_in found.finding) found.text) }
{
    match what {
        PlanForm::Rank => planned(alloc, plan),
        PlanForm::Chains => chained(alloc, plan),
        PlanForm::Protected => gaps_found(alloc, plan),
        PlanForm::Protect => protected_plan(alloc, plan),
        PlanForm::Agree => agreed(alloc, plan),
        PlanForm::Hops => counted(alloc, plan),
        PlanForm::Nominate => nominated(alloc, plan),
        PlanForm::PrioRank => priority_planned(alloc, plan),
        PlanForm::Sweep { at, until } => swept(rt, alloc, plan, at, until, gate),
    }
}

/// What is found of a plan: the certificate of its least ranks, or its first cycle.
fn planned(alloc: Global, plan: &Plan) -> Result<Found, NoMemory>
    ensures { IfOk result (λ found. IsPlanned plan.now (ends_in found.finding) found.text) }
{
    match rank_plan(alloc, plan)? {
        Ranked::Ranks(cert) => Ok(done(ranks_text(alloc, plan, &cert)?)),
        Ranked::Cycle(lines) => Ok(refuted(cycle_text(alloc, plan, lines.as_slice())?)),
    }
}

/// What is found of a plan: the rows of its longest chains, or its first cycle.
fn chained(alloc: Global, plan: &Plan) -> Result<Found, NoMemory>
    ensures { IfOk result (λ found. IsChained plan.now (ends_in found.finding) found.text) }
{
    match chain_plan(alloc, plan)? {
        Chained::Chains(chains) => Ok(done(chains_text(alloc, plan, &chains)?)),
        Chained::Cycle(lines) => Ok(refuted(cycle_text(alloc, plan, lines.as_slice())?)),
    }
}

/// What is found of a plan: that its priorities agree with the ways of timing, with its bounds, or the
/// first circle of lines that bear on one another.
fn agreed(alloc: Global, plan: &Plan) -> Result<Found, NoMemory>
    ensures { IfOk result (λ found. IsAgreedText plan.now (ends_in found.finding) found.text) }
{
    // Every plan keeps the rules.
    let _elements = plan.elements();
    match agree(alloc, plan)? {
        Agreement::Bound(bounds) => {
            let text = agreed_text(alloc, bounds.bound, bounds.failures)?;
            Ok(done(text))
        }
        Agreement::Clash(lines) => {
            let text = lines_text(alloc, b"clash", plan, lines.as_slice())?;
            Ok(refuted(text))
        }
    }
}

/// What is found of a plan: the rows of its hop counts.
fn counted(alloc: Global, plan: &Plan) -> Result<Found, NoMemory>
    ensures { IfOk result (λ found. AreHopRows plan.now (ends_in found.finding) found.text) }
{
    let hops = least_hops(alloc, plan)?;
    Ok(done(hops_text(alloc, plan, &hops)?))
}

/// What is found of a plan: the text of the plan with priorities by fewest hops.
fn nominated(alloc: Global, plan: &Plan) -> Result<Found, NoMemory>
    ensures { IfOk result (λ found. IsNominatedText plan.now (ends_in found.finding) found.text) }
{
    let nominated = nominate(alloc, plan)?;
    Ok(done(plan_text(alloc, &nominated)?))
}

/// What is found of a plan whose elements choose by priority alone: the certificate of its least
/// ranks, or the forced switches that make the first loop.
fn priority_planned(alloc: Global, plan: &Plan) -> Result<Found, NoMemory>
    ensures { IfOk result (λ found. IsPriorityPlanned plan.now (ends_in found.finding) found.text) }
{
    match prio_plan(alloc, plan)? {
        PrioRanked::Ranks(cert) => Ok(done(ranks_text(alloc, plan, &cert)?)),
        PrioRanked::Loop(lines) => Ok(refuted(forced_text(alloc, plan, lines.as_slice())?)),
    }
}

/// What is found of a plan: the table of its link failures.
fn swept<R: Threads + Sync, G: Gate + Sync>(
    rt: &R,
    alloc: Global,
    plan: &Plan,
    at: u64,
    until: u64,
    gate: &G,
) -> Result<Found, NoMemory>
    requires in_order { at ≤ until }
    requires in_range { until ≤ LAST_MILLISECOND }
    ensures { IfOk result (λ found. IsSweepTable plan.now at until (ends_in found.finding) found.text) }
{
    let rows = sweep(rt, alloc, plan, at, until, gate)?;
    Ok(done(sweep_text(alloc, plan, &rows)?))
}
