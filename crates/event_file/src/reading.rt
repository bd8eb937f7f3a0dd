// The events of a text.

ghost use Rattle.std.specs.Prelude.{◌≡◌, ◌≤◌, false, length, IfOk, Ok, Err};
ghost use Rattle.std.specs.List.{All};
ghost use Rattle.sync_topo.specs.Events.{Fits, IsInOrder};
ghost use Rattle.sync_topo.specs.Sizes.{event_limit};
ghost use Rattle.event_file.specs.EventText.{events_of, events_of_rows, is_header};
ghost use Rattle.sync_text.specs.Gives.{Gives};
ghost use Rattle.event_file.specs.Rows.{last_time};
ghost use Rattle.event_file.specs.private.Rows.{event_row};

use crate::error::EventErr;
use crate::row::event_of;
use csv_records::{Record, Records};
use std::alloc::Global;
use sync_text::{NoAnswer, Rows};
use sync_topo::{Event, Plan};

/// The events of a text over a plan, in order of time.
///
/// The records are comma-separated fields. The first is `at,what,target,value`; each row after it is
/// an event: its millisecond up to 86,400,000 and not before that of the row before, a word for what
/// happens, the name of what it happens to, and for `level` a level of the plan's option. The
/// refusal is the first broken rule: `Header`, then for each row in order `Limit` at row 100,001, or
/// at row 5,000,001 where the plan is large, `Fields`, `Time`, `Order`, `What`, `Target` or `Value`.
/// Rows are read one after another, so a text that is wrong at its start is refused in little
/// memory. This project's own.
pub fn read_events(
    alloc: Global,
    plan: &Plan,
    bytes: &[u8],
) -> Result<Rows<Event>, NoAnswer<EventErr>>
    ensures exact { Gives result (events_of plan.now bytes.now) }
    ensures fits { IfOk result (All (Fits plan.now)) }
    ensures in_order { IfOk result IsInOrder }
    ensures in_time { IfOk result (All (λ event. event.at ≤ last_time)) }
    ensures few { IfOk result (λ events. length events ≤ event_limit plan.now) }
{
    let mut records = Records::of(alloc, bytes);
    if !records.advance()? || !is_header(records.taken()) {
        return Err(NoAnswer::Refused(EventErr::Header));
    }
    take_rows(alloc, plan, &mut records)
}

/// The record is the header `at,what,target,value`.
fn is_header(first: &Record) -> bool
    ensures { result ≡ is_header first.now }
{
    match first.four() {
        Some((at, what, target, value)) => are_headings(at, what, target, value),
        None => false,
    }
}

/// The fields are those of the header `at,what,target,value`.
pub(crate) fn are_headings(at: &[u8], what: &[u8], target: &[u8], value: &[u8]) -> bool
    ensures { result ≡ is_header (event_row at.now what.now target.now value.now) }
{
    at == b"at".as_slice()
        && what == b"what".as_slice()
        && target == b"target".as_slice()
        && value == b"value".as_slice()
}

/// The events of all rows that are left.
fn take_rows(
    alloc: Global,
    plan: &Plan,
    records: &mut Records<'_>,
) -> Result<Rows<Event>, NoAnswer<EventErr>>
    requires { records.old.spent ≡ false }
    ensures exact { Gives result (events_of_rows plan.now records.old.left) }
    ensures fits { IfOk result (All (Fits plan.now)) }
    ensures in_order { IfOk result IsInOrder }
    ensures in_time { IfOk result (All (λ event. event.at ≤ last_time)) }
    ensures few { IfOk result (λ events. length events ≤ event_limit plan.now) }
{
    let mut events = Rows::new(alloc);
    let mut number = 0;
    let mut before = 0;
    while records.advance()? {
        number += 1;
        let event = match event_of(plan, number, before, records.taken()) {
            Ok(event) => event,
            Err(refused) => return Err(NoAnswer::Refused(refused)),
        };
        before = event.at;
        events.push(event)?;
    }
    Ok(events)
}
