//! Which events come next.

ghost use Rattle.std.specs.Prelude.{◌≡◌, ◌≤◌, ◌<◌, ◌⊎◌, ℕ, IfSome, length, slice_index_or};
ghost use Rattle.sync_topo.specs.declared.event.Event.{Event};
ghost use Rattle.sync_topo.specs.Events.{IsEventList};
ghost use Rattle.sync_topo.specs.Topology.{Topology};
ghost use Rattle.event_times.specs.EventTimes.{AreBetween, IsNextTime, AreTold, AreWithin};
ghost use Rattle.event_times.specs.private.EventTimes.{AreParted};

use sync_topo::Event;

/// The next millisecond in which something happens: the first of all is 0, and a later one the least of
/// the next event's, the due time and the end.
pub(crate) fn next_time(next: u64, rest: &[Event], due: Option<u64>, until: u64) -> u64
    requires later { next ≤ until }
    requires due { IfSome due (λ due. next ≤ due) }
    requires events { AreBetween next until rest.now }
    ensures { IsNextTime next rest.now due until result }
{
    if next == 0 {
        return 0;
    }
    let last = earlier(due, until);
    match rest.first() {
        Some(event) if event.at < last => event.at,
        _ => last,
    }
}

/// The due time where it is earlier than the end, and else the end.
fn earlier(due: Option<u64>, until: u64) -> u64
    ensures up_to { result ≤ until }
    ensures until_due { IfSome due (λ due. result ≤ due) }
    ensures cause { (result ≡ until) ⊎ (due ≡ Some result) }
{
    match due {
        Some(due) if due < until => due,
        _ => until,
    }
}

/// The events at a millisecond, and the later ones.
pub(crate) fn split_at_time(events: &[Event], now: u64) -> (&[Event], &[Event])
    ensures { (until : ℕ) → AreBetween now until events.now →
        AreParted now until events.now result.0.now result.1.now }
{
    events.split_at(count_at(events, now))
}

/// The events that are not later than a millisecond, of a list in order of time.
///
/// This project's own.
pub fn events_until(events: &[Event], until: u64) -> &[Event]
    ensures told { (plan : Topology) → IsEventList plan events.now →
        AreTold plan events.now 0 until result.now }
    ensures within { (plan : Topology) → IsEventList plan events.now →
        AreWithin plan 0 until result.now }
{
    &events[..count_at(events, until)]
}

/// The number of events before the first one that is later.
fn count_at(events: &[Event], now: u64) -> usize
    ensures within { result ≤ length events.now }
    ensures here { (k : ℕ) (other : Event) → k < result →
        (slice_index_or events.now k other).at ≤ now }
    ensures later { (other : Event) → result < length events.now →
        now < (slice_index_or events.now result other).at }
{
    for (place, event) in events.iter().enumerate() {
        if now < event.at {
            return place;
        }
    }
    events.len()
}
