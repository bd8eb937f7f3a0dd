// What the planner, the test of ranks and the simulator find of a ladder.

ghost use Rattle.std.specs.Prelude.{◌≡◌, ◌≤◌, ◌<◌, ◌↔◌, ◌++◌, Bool, List, length, max, IfOk, OnOk, IsTrue};
ghost use Rattle.std.specs.List.{All};
ghost use Rattle.sync_topo.specs.Lines.{line_count, is_nominated, receiver_of};
ghost use Rattle.sync_topo.specs.Hops.{hops, IsRising};
ghost use Rattle.sync_topo.specs.Ranks.{AreLeastRanks};
ghost use Rattle.plan_gen.specs.Ladder.{ladder};
ghost use Rattle.net_rules.specs.Safety.{IsLoopFree};
ghost use Rattle.net_rules.specs.Settling.{IsGreatest, IsRank};
ghost use Rattle.rank_cert.specs.Ranks.{rank_at};
ghost use Rattle.event_sim.specs.Changes.{IsChangeOf};
ghost use Rattle.event_sim.specs.declared.change.Change.{Change};
ghost use Rattle.event_sim.specs.Runs.{HasRun};
ghost use Rattle.sync_top.specs.Forms.Trial.{trial_events, counted_line, last_line, run_lines, AreReportRows, IsSettledAt, IsTrialText};

use crate::reply::put_number;
use cycle_plan::{Ranked, rank_plan};
use event_sim::{Change, Reach, Sim, Watch, run_to};
use plan_gen::generate;
use rank_cert::{Cert, Verdict};
use settle_trace::settled;
use std::alloc::Global;
use sync_text::{NoMemory, Text};
use sync_topo::{Event, LineId, MOST_ELEMENTS, Part, Plan, What};
use trace_report::{put_change, put_settled};

/// When the ladder's first link goes down, in milliseconds.
pub(crate) const LINK_FAILS_AT: u64 = 300_000;

/// The last millisecond of a run.
pub(crate) const TRIAL_END: u64 = 600_000;

/// The one event of a run: the ladder's first link goes down.
const EVENTS: [Event; 1] = [Event {
    at: LINK_FAILS_AT,
    what: What::Down(Part::Link(0)),
}];

/// The text of a trial of the ladder of so many elements. It reads no file.
pub(crate) fn trial_text(alloc: Global, elements: u32) -> Result<Text, NoMemory>
    requires least { 2 ≤ elements }
    requires greatest { elements ≤ MOST_ELEMENTS }
    ensures text { IfOk result (IsTrialText elements (ladder elements)) }
{
    let plan = generate(alloc, elements)?;
    tried(alloc, elements, &plan)
}

/// The text of a trial of a plan of so many elements in which each line leads up.
fn tried(alloc: Global, elements: u32, plan: &Plan) -> Result<Text, NoMemory>
    requires leads_up { IsRising plan.now (receiver_of plan.now) }
    requires link { 0 < length plan.now.links }
    ensures text { IfOk result (IsTrialText elements plan.now) }
{
    let ranks = accepted_ranks(alloc, plan)?;
    ranked_text(alloc, elements, plan, greatest_rank(plan, &ranks))
}

/// The text of a trial of a plan that was accepted, with the greatest of its least ranks.
fn ranked_text(alloc: Global, elements: u32, plan: &Plan, top: u64) -> Result<Text, NoMemory>
    requires accepted { IsLoopFree plan.now }
    requires top { IsGreatest (IsRank plan.now) top }
    requires link { 0 < length plan.now.links }
    ensures text { IfOk result (IsTrialText elements plan.now) }
{
    let mut text = Text::new(alloc);
    put_counted(&mut text, b"trial", u64::from(elements))?;
    put_counted(&mut text, b"links", u64::from(plan.links()))?;
    put_counted(&mut text, b"top", top)?;
    put_run(alloc, &mut text, plan)?;
    Ok(text)
}

/// The least ranks of a plan in which each line leads up, once the test of ranks has accepted them.
fn accepted_ranks(alloc: Global, plan: &Plan) -> Result<Cert, NoMemory>
    requires leads_up { IsRising plan.now (receiver_of plan.now) }
    ensures accepted { IfOk result (λ _. IsLoopFree plan.now) }
    ensures least { IfOk result (λ ranks. AreLeastRanks (hops plan.now) (is_nominated plan.now) (rank_at ranks)) }
    ensures counted { IfOk result (λ ranks. length ranks ≡ line_count plan.now) }
{
    let Ranked::Ranks(ranks) = rank_plan(alloc, plan)? else {
        unreachable!()
    };
    match rank_cert::check(plan, &ranks) {
        Verdict::Rising => Ok(ranks),
        Verdict::Falls(_, _) => unreachable!(),
    }
}

/// The greatest of the least ranks, or 0 where no line has one.
fn greatest_rank(plan: &Plan, ranks: &Cert) -> u64
    requires counted { length ranks.now ≡ line_count plan.now }
    requires least { AreLeastRanks (hops plan.now) (is_nominated plan.now) (rank_at ranks.now) }
    ensures { IsGreatest (IsRank plan.now) result }
{
    let mut greatest = 0;
    for number in 0..plan.lines() {
        greatest = greater(greatest, ranks.rank(LineId(number)).unwrap_or(0));
    }
    greatest
}

/// The greater of two numbers.
fn greater(one: u64, other: u64) -> u64
    ensures { result ≡ max one other }
{
    one.max(other)
}

/// Puts a line of a word and a number.
fn put_counted(text: &mut Text, word: &[u8], number: u64) -> Result<(), NoMemory>
    ensures { OnOk result (text.new ≡ text.old ++ counted_line word.now number) }
{
    text.put(word)?;
    put_number(text, number)?;
    text.put(b"\n")
}

/// Puts what a run of the plan has come to, in three lines.
fn put_run(alloc: Global, text: &mut Text, plan: &Plan) -> Result<(), NoMemory>
    requires link { 0 < length plan.now.links }
    ensures put { OnOk result ((rows : List Change) × AreReportRows plan.now trial_events TRIAL_END rows
        × ((settled : Bool) × (IsTrue settled ↔ IsSettledAt plan.now trial_events TRIAL_END)
        × (text.new ≡ text.old ++ run_lines plan.now rows settled))) }
{
    let (sim, reach) = run_to(alloc, plan, Watch::Changes, &EVENTS, TRIAL_END)?;
    put_counted(text, b"changes", sim.changes().len() as u64)?;
    put_last(alloc, text, plan, sim.changes())?;
    put_settled(text, is_settled(alloc, plan, &sim, reach)?)?;
    Ok(())
}

/// Puts the line on the last change, if there is one.
fn put_last(alloc: Global, text: &mut Text, plan: &Plan, changes: &[Change]) -> Result<(), NoMemory>
    requires of_plan { All (IsChangeOf plan.now) changes.now }
    ensures put { OnOk result (text.new ≡ text.old ++ last_line plan.now changes.now) }
{
    text.put(b"last ")?;
    match changes.last() {
        Some(change) => put_change(alloc, text, plan, change),
        None => text.put(b"\n"),
    }
}

/// Whether the end of the run is settled: where the changes were too many, by a second simulator,
/// which watches none.
fn is_settled(alloc: Global, plan: &Plan, sim: &Sim<'_>, reach: Reach) -> Result<bool, NoMemory>
    requires link { 0 < length plan.now.links }
    requires run { HasRun plan.now trial_events Watch.Changes TRIAL_END sim.now reach }
    ensures { IfOk result (λ settled. IsTrue settled ↔ IsSettledAt plan.now trial_events TRIAL_END) }
{
    match reach {
        Reach::Until => Ok(settled(sim.net())),
        Reach::Stopped(_) => {
            let (unwatched, _) = run_to(alloc, plan, Watch::Nothing, &EVENTS, TRIAL_END)?;
            Ok(settled(unwatched.net()))
        }
    }
}
