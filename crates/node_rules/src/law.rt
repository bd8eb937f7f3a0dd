//! Laws of replaying one element of a network.
//!
//! Each function does nothing: its contract is the law. This project's own.

ghost use Rattle.std.specs.Prelude.{◌≡◌, ◌≤◌, ℕ, suc, Bool, List, Some, All, option_map};
ghost use Rattle.sync_ql.specs.declared.limits.TheConstants.{LAST_MILLISECOND};
ghost use Rattle.sync_ql.specs.Level.{level_of_codes};
ghost use Rattle.sync_topo.specs.declared.event.Event.{Event};
ghost use Rattle.sync_topo.specs.Topology.{Topology};
ghost use Rattle.sync_topo.specs.Events.{IsInOrder, IsEventList};
ghost use Rattle.sync_topo.specs.WellFormed.{IsWellFormed};
ghost use Rattle.net_rules.specs.Signals.{events_before};
ghost use Rattle.esmc_frame.specs.declared.frame.Extended.{Extended};
ghost use Rattle.node_file.specs.declared.row.NodeRow.{NodeRow};
ghost use Rattle.node_file.specs.NodeRow.{events_in, IsRowOf};
ghost use Rattle.node_rules.specs.NodeText.{carried, rows_before};
ghost use Rattle.node_rules.specs.FromNetwork.{on_lines, told_to, AreGivenAs, network_out, IsNodeFile, IsReplayed};
ghost use Rattle.node_rules.specs.Brought.{brought, AreInOrder};
ghost use Rattle.node_rules.specs.SentFrames.{network_rows};

/// The law of replaying: over rows that are just what a network brings to an element up to a
/// millisecond, the element does in each millisecond up to it what it does in the network.
///
/// It holds for each well-formed plan and each list of events. How frames and events of one millisecond
/// stand among each other doesn't matter, nor do later rows, and rows that tell the element nothing.
pub fn replay_law()
    ensures { (plan : Topology) (events : List Event) (element until : ℕ) (rows : List NodeRow) (t : ℕ) →
        IsWellFormed plan → IsNodeFile plan events element until rows → t ≤ until →
        IsReplayed plan events element rows t }
{}

/// The law of the text: the rows of the frames that are replayed are those of the frames that the element
/// sends in the network, in each number of milliseconds up to the file's last.
pub fn text_law()
    ensures { (plan : Topology) (events : List Event) (element until : ℕ) (rows : List NodeRow) (n : ℕ) →
        IsWellFormed plan → IsNodeFile plan events element until rows → n ≤ suc until →
        rows_before plan rows element n ≡ network_rows plan events element n }
{}

/// The law of files: rows that hold just the events that an element is told tell it just these (`exact`).
/// What a network brings to an element, as rows, is such a file (`told`, `file`). Its rows stand in order
/// of time (`in_order`), and each may stand in a file of the element (`fit`). The codes of a frame that
/// carries a level of the network name this level again (`named`). Of the two lines of a link that goes
/// down or up either may stand first in a file: the order by number is one (`by_number`).
pub fn file_law()
    ensures exact { (plan : Topology) (element : ℕ) (events given : List Event) →
        AreGivenAs (told_to plan element events) given →
        AreGivenAs (told_to plan element events) (told_to plan element given) }
    ensures told { (plan : Topology) (events : List Event) (element until : ℕ) → IsInOrder events →
        AreGivenAs (told_to plan element (events_before (suc until) events))
        (events_before (suc until) (events_in (brought plan events element (suc until)))) }
    ensures file { (plan : Topology) (events : List Event) (element until : ℕ) →
        IsInOrder events → IsNodeFile plan events element until (brought plan events element (suc until)) }
    ensures in_order { (plan : Topology) (events : List Event) (element n : ℕ) →
        AreInOrder (brought plan events element n) }
    ensures fit { (plan : Topology) (events : List Event) (element until : ℕ) →
        IsWellFormed plan → IsEventList plan events → until ≤ LAST_MILLISECOND →
        All (IsRowOf plan element) (brought plan events element (suc until)) }
    ensures named { (plan : Topology) (events : List Event) (sender line t : ℕ) (event : Bool) →
        IsWellFormed plan → IsEventList plan events →
        level_of_codes plan.option (carried sender (network_out plan events line t) event).code
        (option_map (λ (e : Extended). e.code) (carried sender (network_out plan events line t) event).extended)
        ≡ Some (network_out plan events line t) }
    ensures by_number { (events : List Event) → AreGivenAs events (on_lines events) }
{}
