//! Cases: what happens in one run alone, beside what happens in all of them.

ghost use Rattle.std.specs.Prelude.{◌≡◌, ◌≤◌, ◌<◌, ◌≢◌, ◌++◌, ℕ, List, [], ◌∷◌, length, slice_index_or, IfOk, OnOk};
ghost use Rattle.std.specs.List.{All, AllZip, range_with_len};
ghost use Rattle.sync_topo.specs.declared.event.Event.{Event};
ghost use Rattle.sync_topo.specs.Topology.{Topology};
ghost use Rattle.sync_topo.specs.Events.{IsEventList, IsInOrder};
ghost use Rattle.net_rules.specs.Signals.{events_at};
ghost use Rattle.net_rules.specs.Settling.{IsGreatest};
ghost use Rattle.event_times.specs.EventTimes.{AreTold, AreWithin};
ghost use Rattle.sync_sweep.specs.Cases.{after_earlier, merged, IsLastUntil};
ghost use Rattle.sync_sweep.specs.OnWay.{before_own};
ghost use Rattle.sync_sweep.specs.private.Cases.{NoneBefore};
ghost use Rattle.sync_sweep.specs.Sweep.{failure};

use event_times::events_until;
use std::alloc::Global;
use sync_text::{NoMemory, Rows};
use sync_topo::{Case, Event, Part, What};

/// For each link the case in which it goes down in a millisecond.
pub(crate) fn failures(alloc: Global, links: u32, at: u64) -> Result<Rows<Case>, NoMemory>
    ensures cases { IfOk result (AllZip (λ link case. case.events ≡ failure at link)
        (range_with_len 0 links)) }
    ensures count { IfOk result (λ cases. length cases ≡ links) }
{
    let mut cases = Rows::new(alloc);
    for link in 0..links {
        cases.push(failure_of(alloc, link, at)?)?;
    }
    Ok(cases)
}

/// A link goes down in a millisecond.
fn failure_of(alloc: Global, link: u32, at: u64) -> Result<Case, NoMemory>
    ensures { IfOk result (λ case. case.events ≡ failure at link) }
{
    let mut events = Rows::new(alloc);
    events.push(Event {
        at,
        what: What::Down(Part::Link(link)),
    })?;
    Ok(Case { events })
}

/// The first millisecond in which something happens in one of the cases alone, at most the last one
/// of all.
pub(crate) fn begin_of(cases: &[Case], until: u64) -> u64
    requires in_order { All (λ case. IsInOrder case.events) cases.now }
    ensures up_to { result ≤ until }
    ensures none { NoneBefore result cases.now }
{
    let mut begin = until;
    for case in cases {
        begin = earlier(begin, case.events.as_slice());
    }
    begin
}

/// A millisecond, or the first one of some events where that is earlier.
fn earlier(begin: u64, events: &[Event]) -> u64
    requires in_order { IsInOrder events.now }
    ensures up_to { result ≤ begin }
    ensures none { All (λ event. result ≤ event.at) events.now }
{
    match events.first() {
        Some(event) if event.at < begin => event.at,
        _ => begin,
    }
}

/// The millisecond before the first of a case's own events, or 0 where that is at 0; the last one of
/// all where none comes before its end.
pub(crate) fn before_own(events: &[Event], until: u64) -> u64
    ensures is { result ≡ before_own events.now until }
    ensures up_to { result ≤ until }
{
    match events.first() {
        Some(event) => event.at.saturating_sub(1).min(until),
        None => until,
    }
}

/// The events that are not before a millisecond, of a list in order of time.
pub(crate) fn events_from(events: &[Event], from: u64) -> &[Event]
    ensures same { (t : ℕ) → from ≤ t → events_at t events.now ≡ events_at t result.now }
    ensures within { (plan : Topology) (until : ℕ) → AreWithin plan 0 until events.now →
        AreWithin plan from until result.now }
{
    events.split_at(count_before(events, from)).1
}

/// The number of events before the first one that is not before a millisecond.
fn count_before(events: &[Event], from: u64) -> usize
    ensures within { result ≤ length events.now }
    ensures before { (k : ℕ) (other : Event) → k < result →
        (slice_index_or events.now k other).at < from }
    ensures later { (other : Event) → result < length events.now →
        from ≤ (slice_index_or events.now result other).at }
{
    for (place, event) in events.iter().enumerate() {
        if from <= event.at {
            return place;
        }
    }
    events.len()
}

/// All events of a run, in order of time: in one millisecond the common ones come first.
fn merge(alloc: Global, common: &[Event], own: &[Event]) -> Result<Rows<Event>, NoMemory>
    ensures { IfOk result (λ all. all ≡ merged common.now own.now) }
{
    let mut all = Rows::new(alloc);
    let mut left = own;
    for event in common {
        left = put_earlier(&mut all, left, event.at)?;
        all.push(*event)?;
    }
    put_all(&mut all, left)?;
    Ok(all)
}

/// Puts the events before a millisecond at the end, and gives those that are left.
fn put_earlier<'a>(
    all: &mut Rows<Event>,
    own: &'a [Event],
    at: u64,
) -> Result<&'a [Event], NoMemory>
    ensures { IfOk result (λ left. (event : Event) (rest : List Event → List Event) →
        event.at ≡ at → all.old ++ after_earlier event rest own.now
        ≡ all.new ++ event ∷ rest left.now) }
{
    let count = count_before(own, at);
    let (earlier, left) = own.split_at(count);
    put_all(all, earlier)?;
    Ok(left)
}

/// Puts events at the end of others.
fn put_all(all: &mut Rows<Event>, more: &[Event]) -> Result<(), NoMemory>
    ensures { OnOk result (all.new ≡ all.old ++ more.now) }
{
    for event in more {
        all.push(*event)?;
    }
    Ok(())
}

/// What a run is told from a millisecond up to another, both included.
pub(crate) fn told_of(
    alloc: Global,
    common: &[Event],
    own: &[Event],
    from: u64,
    until: u64,
) -> Result<Rows<Event>, NoMemory>
    ensures told { IfOk result (λ told. (plan : Topology) → IsEventList plan common.now →
        IsEventList plan own.now → AreTold plan (merged common.now own.now) from until told) }
    ensures within { IfOk result (λ told. (plan : Topology) → IsEventList plan common.now →
        IsEventList plan own.now → AreWithin plan from until told) }
{
    let rest = events_from(events_until(common, until), from);
    let own = events_from(events_until(own, until), from);
    merge(alloc, rest, own)
}

/// The last millisecond up to another in which something happens in a run, or 0.
pub(crate) fn run_last(common: &[Event], own: &[Event], until: u64) -> u64
    ensures { (plan : Topology) → IsEventList plan common.now → IsEventList plan own.now →
        IsLastUntil (merged common.now own.now) until result }
{
    let shared = last_time(events_until(common, until));
    let alone = last_time(events_until(own, until));
    if shared < alone { alone } else { shared }
}

/// The millisecond of the last of some events in order of time, or 0.
fn last_time(events: &[Event]) -> u64
    ensures { IsInOrder events.now → IsGreatest (λ t. events_at t events.now ≢ []) result }
{
    match events.last() {
        Some(event) => event.at,
        None => 0,
    }
}
