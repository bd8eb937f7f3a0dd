//! Laws of a network that stands for its plan and all events.
//!
//! Each function does nothing: its contract is the law. This project's own.

ghost use Rattle.std.specs.Prelude.{◌≡◌, ◌≤◌, ◌<◌, ◌⊎◌, ℕ, suc, true, false, List, ◌++◌, length, slice_index_or, Some, IfSome, All};
ghost use Rattle.sync_ql.specs.Messages.{is_same_level};
ghost use Rattle.sync_topo.specs.declared.event.Event.{Event};
ghost use Rattle.sync_topo.specs.Topology.{Topology};
ghost use Rattle.sync_topo.specs.Lines.{line_input, delay_of};
ghost use Rattle.sync_topo.specs.WellFormed.{IsWellFormed};
ghost use Rattle.sync_element.specs.ElementState.{ElementState};
ghost use Rattle.link_model.specs.LineState.{LineState};
ghost use Rattle.net_rules.specs.Signals.{Signals, signals_by};
ghost use Rattle.net_rules.specs.History.{Levels, heard, out_at};
ghost use Rattle.net_rules.specs.Activity.{TouchAlike, is_active, news_arrives, is_busy};
ghost use Rattle.sync_net.specs.NetState.{NetState, NoneDueBefore, IsDueAt};
ghost use Rattle.sync_net.specs.Standing.{ElementStands, LineStands, heard_before, StandsFor, NoneFrom};
ghost use Rattle.sync_net.specs.Sound.{IsSoundElement, IsSoundLine, AreSound};

/// The law of elements: where a network stands for its plan and all events, so does each of its
/// elements, also one that no call gives.
pub fn elements_law()
    ensures stands { (net : NetState) (events : List Event) (n element : ℕ) (other : ElementState) →
        StandsFor net events n → element < length net.plan.elements →
        ElementStands net.plan (signals_by net.plan events) (out_at net.plan (signals_by net.plan events))
        element n (slice_index_or net.elements element other) }
{}

/// The laws of later events and of their order. A network that stands for some events after so many
/// milliseconds stands for them and any that come at those milliseconds or later; and of all events
/// only the order in which they touch each element counts.
pub fn later_events_law()
    ensures appended { (net : NetState) (events more : List Event) (n : ℕ) → IsWellFormed net.plan →
        All (λ event. n ≤ event.at) more → StandsFor net events n → StandsFor net (events ++ more) n }
    ensures ordered { (net : NetState) (events others : List Event) (n : ℕ) → IsWellFormed net.plan →
        TouchAlike net.plan events others → StandsFor net events n → StandsFor net others n }
{}

/// The laws of a network that isn't called. Where no event comes and nothing is due, it stands for
/// what it stood for: what is heard on a line stays, whatever level is said meanwhile. Where
/// something is due, something happens: an element that is due is active, and on a line that is
/// due, and stays up or down, news arrives or another level is heard.
pub fn gap_law()
    ensures heard { (plan : Topology) (signals : Signals) (out : Levels) (line t : ℕ) (state : LineState) →
        IsSoundLine plan line state → LineStands plan signals out line (suc t) state →
        IfSome state.due (λ due. suc (suc t) ≤ due) → 1 ≤ delay_of plan line →
        signals.up (line_input line) (suc t) ≡ signals.up (line_input line) t →
        heard_before plan signals out line (suc (suc t)) ≡ heard_before plan signals out line (suc t) }
    ensures later { (net : NetState) (events : List Event) (m n : ℕ) → IsWellFormed net.plan →
        AreSound net → StandsFor net events m → m ≤ n → (net.next ≡ 0 → n ≡ 0) →
        NoneFrom m n events → NoneDueBefore net n → StandsFor net events n }
    ensures active { (plan : Topology) (events : List Event) (place t : ℕ) (element : ElementState) →
        IsSoundElement plan place element →
        ElementStands plan (signals_by plan events) (out_at plan (signals_by plan events)) place (suc t) element →
        element.due ≡ Some (suc t) → is_active plan events place (suc t) ≡ true }
    ensures line_busy { (plan : Topology) (signals : Signals) (out : Levels) (line t : ℕ) (state : LineState) →
        1 ≤ delay_of plan line → IsSoundLine plan line state →
        LineStands plan signals out line (suc t) state → state.due ≡ Some (suc t) →
        signals.up (line_input line) (suc t) ≡ signals.up (line_input line) t →
        (news_arrives plan signals out line (suc t) ≡ true)
        ⊎ (is_same_level (heard plan signals out line (suc t)) (heard plan signals out line t) ≡ false) }
    ensures busy { (net : NetState) (events : List Event) (n due : ℕ) → IsWellFormed net.plan →
        AreSound net → StandsFor net events n → 0 < net.next → n ≤ due → NoneFrom n due events →
        NoneDueBefore net due → IsDueAt net due → is_busy net.plan events due ≡ true }
{}
