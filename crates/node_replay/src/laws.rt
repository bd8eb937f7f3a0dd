//! Laws of the definitions. Each function does nothing: its contract is the law.

ghost use Rattle.std.specs.Prelude.{◌≡◌, ◌≤◌, ◌↔◌, ℕ, List};
ghost use Rattle.sync_topo.specs.Topology.{Topology};
ghost use Rattle.node_file.specs.declared.row.NodeRow.{NodeRow};
ghost use Rattle.node_file.specs.NodeRow.{rows_at};
ghost use Rattle.node_replay.specs.Rows.{AreInOrder};
ghost use Rattle.node_replay.specs.declared.replayed.Replayed.{Replayed};
ghost use Rattle.node_replay.specs.declared.replayed.NodeEnd.TheVariants.{Until, Stopped};
ghost use Rattle.node_rules.specs.NodeText.{AllFit, IsLastFit};
ghost use Rattle.node_replay.specs.Replayed.{IsReplayed};

/// The law of the one text: rows have one, and one end. It ends where it was asked to exactly where all
/// rows fit, and earlier exactly at the last millisecond up to which they do.
///
/// This project's own.
pub fn one_text_law()
    ensures one { (plan : Topology) (rows : List NodeRow) (element until : ℕ) (one other : Replayed) →
        IsReplayed plan element until rows one → IsReplayed plan element until rows other →
        (one.text ≡ other.text) × (one.end ≡ other.end) }
    ensures whole { (plan : Topology) (rows : List NodeRow) (element until : ℕ) (one : Replayed) →
        IsReplayed plan element until rows one →
        (one.end ≡ Until) ↔ AllFit plan rows element until }
    ensures stopped { (plan : Topology) (rows : List NodeRow) (element until last : ℕ) (one : Replayed) →
        IsReplayed plan element until rows one →
        (one.end ≡ Stopped last) ↔ IsLastFit plan rows element last until }
{}

/// The law of the end: of all rows only those up to the end count, in each millisecond in their order.
///
/// This project's own.
pub fn until_law()
    ensures { (plan : Topology) (rows others : List NodeRow) (element until : ℕ) (replayed : Replayed) →
        AreInOrder rows → AreInOrder others →
        ((t : ℕ) → t ≤ until → rows_at t rows ≡ rows_at t others) →
        IsReplayed plan element until rows replayed → IsReplayed plan element until others replayed }
{}
