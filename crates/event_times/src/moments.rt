//! The milliseconds in which something happens, one after another.

ghost use Rattle.std.specs.Prelude.{◌≡◌, ◌≤◌, ◌<◌, ◌+◌, ◌^◌, ℕ, suc, List, IfNone, IfSome};
ghost use Rattle.sync_topo.specs.declared.event.Event.{Event};
ghost use Rattle.sync_topo.specs.Topology.{Topology};
ghost use Rattle.event_times.specs.EventTimes.{AreBetween, IsNextTime, AreAhead, AreNext};

use crate::events::{next_time, split_at_time};
use std::marker::Model;
use sync_topo::Event;

/// The milliseconds of a run in which something happens, which are taken one by one.
///
/// Contracts see the first millisecond that isn't passed, the events that are left, and the last
/// millisecond. This project's own.
#[derive(Drop)]
pub struct Moments<'a> {
    next: u64,
    rest: &'a [Event],
    until: u64,
}

impl<'a> Model for Moments<'a> {
    ghost use Rattle.std.specs.Prelude.{◌≤◌, ◌+◌, ◌^◌, ◌<◌};
    ghost use Rattle.event_times.specs.EventTimes.{MomentsLeft, AreBetween};

    ghost Value = { MomentsLeft };

    ghost view = { λ moments. record {
      next = moments.next;
      rest = moments.rest.now;
      until = moments.until;
    } };

    ghost invariant = { λ moments. (moments.next ≤ moments.until + 1)
        × ((moments.until + 1 < 2 ^ 64) × AreBetween moments.next moments.until moments.rest.now) };
}

impl<'a> Moments<'a> {
    /// Those from a millisecond up to and with another, between which the events stand in order.
    pub fn new(events: &'a [Event], from: u64, until: u64) -> Moments<'a>
        requires from { from ≤ until + 1 }
        requires in_range { until + 1 < 2 ^ 64 }
        requires within { AreBetween from until events.now }
        ensures { result ≡ record { next = from; rest = events.now; until = until } }
    {
        Moments {
            next: from,
            rest: events,
            until,
        }
    }

    /// The next one, and the events that stand in it: the first of all is 0, and a later one the least
    /// of the next event's, the due time and the last. `None` where the last is passed.
    pub fn next_moment(&mut self, due: Option<u64>) -> Option<(u64, &'a [Event])>
        requires due { IfSome due (λ due. self.old.next ≤ due) }
        ensures end { IfNone result (self.old.next ≡ suc self.old.until) }
        ensures now { IfSome result (λ moment.
            IsNextTime self.old.next self.old.rest due self.old.until moment.0) }
        ensures here { IfSome result (λ moment. (plan : Topology) (all : List Event) →
            AreAhead plan all self.old → AreNext plan all self.old.next moment.0 moment.1.now) }
        ensures ahead { IfSome result (λ moment. (plan : Topology) (all : List Event) →
            AreAhead plan all self.old → AreAhead plan all self.new) }
        ensures next { IfSome result (λ moment. self.new.next ≡ moment.0 + 1) }
        ensures until { self.new.until ≡ self.old.until }
    {
        if self.until < self.next {
            return None;
        }
        let now = next_time(self.next, self.rest, due, self.until);
        let (here, later) = split_at_time(self.rest, now);
        self.rest = later;
        self.next = now + 1;
        Some((now, here))
    }
}
