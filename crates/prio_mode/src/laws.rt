// What follows from the definitions alone.

ghost use Rattle.std.specs.Prelude.{◌≡◌, ℕ, List};
ghost use Rattle.sync_topo.specs.declared.event.Event.{Event};
ghost use Rattle.sync_topo.specs.Topology.{Topology};
ghost use Rattle.prio_mode.specs.PriorityReport.{IsPriorityReport};

/// The law of the one report: a plan, its events and a millisecond have one.
///
/// It does nothing: its contract is the law. This project's own.
pub fn one_report_law()
    ensures { (plan : Topology) (events : List Event) (until : ℕ) (text other : List ℕ)
        → IsPriorityReport plan events until text → IsPriorityReport plan events until other
        → text ≡ other }
{}
