ghost use Rattle.std.specs.Prelude.{◌≡◌, ◌≤◌, IfOk};
ghost use Rattle.std.specs.List.{All};
ghost use Rattle.sync_topo.specs.Events.{Fits, IsInOrder};
ghost use Rattle.plan_texts.specs.Lines.{text_line};
ghost use Rattle.sync_top.specs.Answer.{EventsAnswer, IsEventsReply};
ghost use Rattle.sync_top.specs.Forms.Sim.{event_refusal, IsReport};
ghost use Rattle.sync_top.specs.private.Work.{ends_in};

use crate::form::EventsForm;
use crate::found::{Finding, Found, done};
use crate::reply::numbered_refusal;
use event_file::{EventErr, read_events};
use event_sim::{Reach, Watch, run_to};
use inspection::inspect;
use prio_mode::prio_sim;
use std::alloc::Global;
use sync_ql::limits::LAST_MILLISECOND;
use sync_text::{NoAnswer, NoMemory};
use sync_topo::{Event, Plan};
use trace_report::report;

/// What is found of events, or of cases, that are refused.
pub(crate) fn events_refused(alloc: Global, refused: EventErr) -> Result<Found, NoMemory>
    ensures { IfOk result (λ found. found ≡ record { finding = Finding.BadEvents; text = text_line (event_refusal refused) }) }
{
    let (number, row) = refused.numbers();
    Ok(Found {
        finding: Finding::BadEvents,
        text: numbered_refusal(alloc, b"bad events ", number, row, None)?,
    })
}

/// What is found of the bytes of events: what is asked of their run up to a millisecond, or the line on
/// why they are refused.
pub(crate) fn events_found(
    alloc: Global,
    what: EventsForm,
    plan: &Plan,
    bytes: &[u8],
    until: u64,
) -> Result<Found, NoMemory>
    requires in_range { until ≤ LAST_MILLISECOND }
    ensures { IfOk result (λ found. IsEventsReply what plan.now bytes.now until (ends_in found.finding) found.text) }
{
    match read_events(alloc, plan, bytes) {
        Ok(events) => ran(alloc, what, plan, events.as_slice(), until),
        Err(NoAnswer::NoMemory) => Err(NoMemory),
        Err(NoAnswer::Refused(refused)) => events_refused(alloc, refused),
    }
}

/// What is found of a run up to a millisecond.
fn ran(
    alloc: Global,
    what: EventsForm,
    plan: &Plan,
    events: &[Event],
    until: u64,
) -> Result<Found, NoMemory>
    requires fit { All (Fits plan.now) events.now }
    requires in_order { IsInOrder events.now }
    requires in_range { until ≤ LAST_MILLISECOND }
    ensures { IfOk result (λ found. EventsAnswer what plan.now events.now until (ends_in found.finding) found.text) }
{
    match what {
        EventsForm::Sim => simulated(alloc, plan, events, until),
        EventsForm::PrioSim => Ok(done(prio_sim(alloc, plan, events, until)?)),
        EventsForm::Inspect => Ok(done(inspect(alloc, plan, events, until)?)),
    }
}

/// What is found of a plan and events: the report of the run up to a millisecond.
fn simulated(alloc: Global, plan: &Plan, events: &[Event], until: u64) -> Result<Found, NoMemory>
    requires fit { All (Fits plan.now) events.now }
    requires in_order { IsInOrder events.now }
    requires in_range { until ≤ LAST_MILLISECOND }
    ensures { IfOk result (λ found. IsReport plan.now events.now until (ends_in found.finding) found.text) }
{
    let (sim, reach) = run_to(alloc, plan, Watch::Changes, events, until)?;
    match reach {
        Reach::Until => Ok(done(report(alloc, &sim, Reach::Until)?)),
        Reach::Stopped(t) => Ok(Found {
            finding: Finding::Stopped,
            text: report(alloc, &sim, Reach::Stopped(t))?,
        }),
    }
}
