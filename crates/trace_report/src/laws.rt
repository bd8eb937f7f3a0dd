//! What follows from the definition of a report alone.
//!
//! Each function does nothing: its contract is the law. This project's own.

ghost use Rattle.std.specs.Prelude.{◌≡◌, ℕ, List};
ghost use Rattle.sync_topo.specs.declared.event.Event.{Event};
ghost use Rattle.sync_topo.specs.Topology.{Topology};
ghost use Rattle.trace_report.specs.Report.{IsWholeReport};

use net_rules::trace_law;

/// The law of the one report: of a plan, its events and a last millisecond there is one whole report.
pub fn one_report_law()
    ensures one { (plan : Topology) (events : List Event) (until : ℕ) (text another : List ℕ) →
        IsWholeReport plan events until text → IsWholeReport plan events until another →
        text ≡ another }
{
    trace_law();
}
