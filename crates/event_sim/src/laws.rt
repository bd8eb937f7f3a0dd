//! Laws of a simulator that stands for its plan and all events.
//!
//! Each function does nothing: its contract is the law. This project's own.

ghost use Rattle.std.specs.Prelude.{◌≤◌, ◌<◌, ℕ, List, ◌++◌, All};
ghost use Rattle.sync_topo.specs.declared.event.Event.{Event};
ghost use Rattle.sync_topo.specs.Topology.{Topology};
ghost use Rattle.sync_topo.specs.Events.{IsEventList};
ghost use Rattle.sync_topo.specs.WellFormed.{IsWellFormed};
ghost use Rattle.event_times.specs.EventTimes.{AreTold, AreWithin};
ghost use Rattle.event_sim.specs.SimState.{SimState, first_after};
ghost use Rattle.event_sim.specs.Standing.{StandsFor};

/// The laws of a run in several advances. A simulator that stands for some events stands for them
/// and any that are later than its network's last millisecond; and of events that were told before,
/// followed by those of an advance, just the latter stand in its milliseconds. So what one advance
/// gives is what the next one asks for, however a run is cut.
pub fn later_events_law()
    ensures appended { (sim : SimState) (events more : List Event) → IsWellFormed sim.net.plan →
        first_after sim.reached ≤ sim.net.next →
        All (λ event. sim.net.next ≤ event.at) more → StandsFor sim events →
        StandsFor sim (events ++ more) }
    ensures followed { (plan : Topology) (before told : List Event) (from until : ℕ) →
        IsEventList plan before → All (λ event. event.at < from) before →
        AreWithin plan from until told → AreTold plan (before ++ told) from until told }
{
    sync_net::later_events_law();
    net_rules::order_law();
}
