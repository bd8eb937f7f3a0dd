// One row: its event, or the rule that it breaks.

ghost use Rattle.std.specs.Prelude.{◌≡◌, ◌≤◌, IfOk, IfErr, IfSome, Some, None, option_and_then};
ghost use Rattle.sync_text.specs.Number.{number_of};
ghost use Rattle.sync_topo.specs.Events.{Fits};
ghost use Rattle.sync_topo.specs.Sizes.{event_limit};
ghost use Rattle.event_file.specs.Rows.{event_in, time_in, in_time, row_refusal, last_time};
ghost use Rattle.event_file.specs.private.Rows.{event_row};

use crate::error::EventErr;
use crate::word::Word;
use csv_records::Record;
use sync_ql::limits::LAST_MILLISECOND;
use sync_text::read_number;
use sync_topo::{Event, Plan};

/// The event of a row of this number, counted from 1, where the row before it has this time.
#[tactic(auto, unfolding(crate::specs::Rows::row_refusal))]
pub(crate) fn event_of(
    plan: &Plan,
    number: u64,
    before: u64,
    row: &Record,
) -> Result<Event, EventErr>
    ensures sound { IfOk result (λ event. row_refusal plan.now number before row.now ≡ None) }
    ensures event { IfOk result (λ event. event_in plan.now row.now ≡ Some event) }
    ensures time { IfOk result (λ event. time_in row.now ≡ Some event.at) }
    ensures after { IfOk result (λ event. before ≤ event.at) }
    ensures in_time { IfOk result (λ event. event.at ≤ last_time) }
    ensures few { IfOk result (λ event. number ≤ event_limit plan.now) }
    ensures fits { IfOk result (Fits plan.now) }
    ensures refused { IfErr result (λ error. row_refusal plan.now number before row.now ≡ Some error) }
{
    if number > plan.event_limit() as u64 {
        return Err(EventErr::Limit);
    }
    match row.four() {
        Some((at, word, target, value)) => {
            event_said(plan, number, before, at, word, target, value)
        }
        None => Err(EventErr::Fields(number)),
    }
}

/// The event of a row of these fields and of this number, which is in range.
#[tactic(auto, unfolding(crate::specs::Rows::row_refusal))]
pub(crate) fn event_said(
    plan: &Plan,
    number: u64,
    before: u64,
    at: &[u8],
    word: &[u8],
    target: &[u8],
    value: &[u8],
) -> Result<Event, EventErr>
    requires { number ≤ event_limit plan.now }
    ensures sound { IfOk result (λ event. row_refusal plan.now number before
        (event_row at.now word.now target.now value.now) ≡ None) }
    ensures event { IfOk result (λ event.
        event_in plan.now (event_row at.now word.now target.now value.now) ≡ Some event) }
    ensures time { IfOk result (λ event.
        time_in (event_row at.now word.now target.now value.now) ≡ Some event.at) }
    ensures after { IfOk result (λ event. before ≤ event.at) }
    ensures in_time { IfOk result (λ event. event.at ≤ last_time) }
    ensures fits { IfOk result (Fits plan.now) }
    ensures refused { IfErr result (λ error. row_refusal plan.now number before
        (event_row at.now word.now target.now value.now) ≡ Some error) }
{
    let Some(at) = time_of(at) else {
        return Err(EventErr::Time(number));
    };
    if at < before {
        return Err(EventErr::Order(number));
    }
    let Some(word) = Word::of(word) else {
        return Err(EventErr::What(number));
    };
    let Some(said) = word.said_of(plan, target) else {
        return Err(EventErr::Target(number));
    };
    match said.with_value(plan.option(), value) {
        Some(what) => Ok(Event { at, what }),
        None => Err(EventErr::Value(number)),
    }
}

/// The millisecond that some bytes name.
///
/// `None` where they are no number, or one above 86,400,000. This project's own.
pub fn time_of(bytes: &[u8]) -> Option<u64>
    ensures time { result ≡ option_and_then in_time (number_of bytes.now) }
    ensures within { IfSome result (λ at. at ≤ last_time) }
{
    let at = read_number(bytes)?;
    if at <= LAST_MILLISECOND {
        Some(at)
    } else {
        None
    }
}
