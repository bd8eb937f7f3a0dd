// The cases of a text.

ghost use Rattle.std.specs.Prelude.{◌≡◌, ◌≤◌, false, length, IfOk, Ok, Err};
ghost use Rattle.std.specs.List.{All};
ghost use Rattle.sync_topo.specs.Events.{IsCase, IsEventList};
ghost use Rattle.sync_topo.specs.Sizes.{event_limit};
ghost use Rattle.event_file.specs.CaseText.{cases_of, cases_of_rows, all_events, is_case_header};
ghost use Rattle.sync_text.specs.Gives.{Gives};
ghost use Rattle.event_file.specs.Rows.{last_time};

use crate::error::EventErr;
use crate::progress::CasesSoFar;
use crate::reading::are_headings;
use csv_records::{Record, Records};
use std::alloc::Global;
use sync_text::{NoAnswer, Rows, Text};
use sync_topo::{Case, Event, Plan};

/// Many runs of one plan, each with events of its own beside those that all have in common.
///
/// This project's own.
#[derive(Drop)]
pub struct Cases {
    /// What happens in every run, in order of time.
    pub common: Rows<Event>,
    /// The names of the cases: at each place that of the case there.
    pub names: Rows<Text>,
    /// What happens in one run alone, for each of them, in the order in which they stand.
    pub cases: Rows<Case>,
}

/// The cases of a text over a plan, and the events that they have in common.
///
/// The records are comma-separated fields. The first is `case,at,what,target,value`; each row after
/// it is an event as in [`read_events`](crate::read_events), with the name of its case before it.
/// Rows without one come before all others, and their events are common to all cases; the rows of a
/// case stand together. Times don't fall among the common rows, nor among those of one case. The
/// refusal is the first broken rule: `Header`, then for each row in order `Limit` at row 100,001, or
/// at row 5,000,001 where the plan is large, `Fields`, `Name`, `Apart`, `Time`, `Order`, `What`,
/// `Target` or `Value`. Rows are read one after another, so a text that is wrong at its start is
/// refused in little memory. This project's own.
pub fn read_cases(alloc: Global, plan: &Plan, bytes: &[u8]) -> Result<Cases, NoAnswer<EventErr>>
    ensures exact { Gives result (cases_of plan.now bytes.now) }
    ensures common { IfOk result (λ cases. IsEventList plan.now cases.common) }
    ensures each { IfOk result (λ cases. All (IsCase plan.now) cases.cases) }
    ensures named { IfOk result (λ cases. length cases.names ≡ length cases.cases) }
    ensures in_time { IfOk result (λ cases. All (λ event. event.at ≤ last_time) (all_events cases)) }
    ensures few { IfOk result (λ cases. length (all_events cases) ≤ event_limit plan.now) }
{
    let mut records = Records::of(alloc, bytes);
    if !records.advance()? || !is_case_header(records.taken()) {
        return Err(NoAnswer::Refused(EventErr::Header));
    }
    take_case_rows(alloc, plan, &mut records)
}

/// The record is the header `case,at,what,target,value`.
fn is_case_header(first: &Record) -> bool
    ensures { result ≡ is_case_header first.now }
{
    match first.five() {
        Some((name, at, what, target, value)) => {
            name == b"case".as_slice() && are_headings(at, what, target, value)
        }
        None => false,
    }
}

/// The cases of all rows that are left.
fn take_case_rows(
    alloc: Global,
    plan: &Plan,
    records: &mut Records<'_>,
) -> Result<Cases, NoAnswer<EventErr>>
    requires { records.old.spent ≡ false }
    ensures exact { Gives result (cases_of_rows plan.now records.old.left) }
    ensures common { IfOk result (λ cases. IsEventList plan.now cases.common) }
    ensures each { IfOk result (λ cases. All (IsCase plan.now) cases.cases) }
    ensures named { IfOk result (λ cases. length cases.names ≡ length cases.cases) }
    ensures in_time { IfOk result (λ cases. All (λ event. event.at ≤ last_time) (all_events cases)) }
    ensures few { IfOk result (λ cases. length (all_events cases) ≤ event_limit plan.now) }
{
    let mut kept = CasesSoFar::new(alloc);
    while records.advance()? {
        match kept.take_row(alloc, plan, records.taken()) {
            Ok(()) => {}
            Err(error) => return Err(error),
        }
    }
    let cases = kept.finish()?;
    Ok(cases)
}
