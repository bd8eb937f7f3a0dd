//! What follows from the definitions of a sweep and a study alone.
//!
//! Each function does nothing: its contract is the law. This project's own.

ghost use Rattle.std.specs.Prelude.{◌≡◌, ℕ, List};
ghost use Rattle.sync_topo.specs.declared.event.Case.{Case};
ghost use Rattle.sync_topo.specs.declared.event.Event.{Event};
ghost use Rattle.sync_topo.specs.Topology.{Topology};
ghost use Rattle.sync_sweep.specs.declared.row.SweepRow.{SweepRow};
ghost use Rattle.sync_sweep.specs.declared.studying.StudyRow.{StudyRow};
ghost use Rattle.sync_sweep.specs.Study.{AreStudyRows};
ghost use Rattle.sync_sweep.specs.Sweep.{AreSweepRows};

use net_rules::trace_law;

/// The law of the one sweep: a plan has one list of rows for a failure in a millisecond and a last
/// millisecond.
pub fn one_sweep_law()
    ensures one { (plan : Topology) (at until : ℕ) (rows others : List SweepRow)
        → AreSweepRows plan at until rows → AreSweepRows plan at until others → rows ≡ others }
{}

/// The law of the one study: a plan has one list of rows for some common events, some cases and a last
/// millisecond.
pub fn one_study_law()
    ensures one { (plan : Topology) (common : List Event) (until : ℕ) (cases : List Case)
        (rows others : List StudyRow) → AreStudyRows plan common until cases rows →
        AreStudyRows plan common until cases others → rows ≡ others }
{
    trace_law();
}
