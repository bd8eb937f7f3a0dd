//! Laws of the one history that obeys the rules.
//!
//! Each function does nothing: its contract is the law. This project's own.

ghost use Rattle.std.specs.Prelude.{◌≡◌, ◌≤◌, ◌<◌, ◌+◌, ℕ, suc, true, false, List, ◌++◌, Some, IsTrue, All, length};
ghost use Rattle.sync_ql.specs.declared.levels.Level.{Level};
ghost use Rattle.sync_ql.specs.Pasts.{past_of};
ghost use Rattle.sync_ql.specs.Messages.{LineMoment, said_in, heard_at};
ghost use Rattle.sync_ql.specs.Quiet.{IsSameOutput};
ghost use Rattle.sync_topo.specs.declared.event.Event.{Event};
ghost use Rattle.sync_topo.specs.Topology.{Topology};
ghost use Rattle.sync_topo.specs.declared.input.InputId.{InputId};
ghost use Rattle.sync_topo.specs.Lines.{line_count, line_input, sender_of, IsInput, is_nominated_input, IsNominated};
ghost use Rattle.sync_topo.specs.Hops.{goes_back};
ghost use Rattle.sync_topo.specs.WellFormed.{IsWellFormed};
ghost use Rattle.net_rules.specs.Signals.{Signals, signals_by};
ghost use Rattle.net_rules.specs.History.{Levels, settings_of, line_moment_at, heard, element_past, taken_at, level_at, Obeys, out_at};
ghost use Rattle.net_rules.specs.Settings.{signal_at};
ghost use Rattle.net_rules.specs.Activity.{TouchAlike, is_active, is_busy};
ghost use Rattle.net_rules.specs.Staying.{IsSameAt};
ghost use Rattle.net_rules.specs.Sameness.{IsSameUntil};

/// The law of the one history: the levels that the rules send obey them, no others do, and they look
/// back alone. A line that doesn't go back from the one that its sender takes is sent the sender's
/// level.
pub fn history_law()
    ensures obeys { (plan : Topology) (signals : Signals) → IsWellFormed plan →
        Obeys plan signals (out_at plan signals) }
    ensures one { (plan : Topology) (signals : Signals) (out : Levels) → IsWellFormed plan →
        Obeys plan signals out → (line t : ℕ) → line < line_count plan →
        out line t ≡ out_at plan signals line t }
    ensures looks_back { (plan : Topology) (signals others : Signals) (t : ℕ) → IsWellFormed plan →
        IsSameUntil plan t signals others → (line s : ℕ) → line < line_count plan → s ≤ t →
        out_at plan signals line s ≡ out_at plan others line s }
    ensures passed_on { (plan : Topology) (signals : Signals) (out : Levels) (line t : ℕ) →
        Obeys plan signals out → line < line_count plan →
        ((taken : ℕ) → taken_at plan signals out (sender_of plan line) t ≡ Some (line_input taken) →
        ¬ IsTrue (goes_back plan taken line)) →
        out line t ≡ level_at plan signals out (sender_of plan line) t }
{}

/// The laws of events: later ones change nothing earlier, and of all of them only the order in which
/// they touch each element counts. Both are said of all that the elements, the nominated lines and the
/// nominated inputs come from: the milliseconds of each (`later`, `order` and their like). An element
/// that isn't active gives what it gave: one that no event touches, and of which no nominated input is
/// failed or heard otherwise than before. A quiet millisecond changes nothing.
pub fn order_law()
    ensures later { (plan : Topology) (events more : List Event) (t : ℕ) → IsWellFormed plan →
        All (λ event. t < event.at) more →
        (element n : ℕ) → element < length plan.elements → n ≤ suc t →
        element_past plan (signals_by plan (events ++ more))
        (out_at plan (signals_by plan (events ++ more))) element n
        ≡ element_past plan (signals_by plan events) (out_at plan (signals_by plan events)) element n }
    ensures order { (plan : Topology) (events others : List Event) → IsWellFormed plan →
        TouchAlike plan events others → (element n : ℕ) → element < length plan.elements →
        element_past plan (signals_by plan events) (out_at plan (signals_by plan events)) element n
        ≡ element_past plan (signals_by plan others) (out_at plan (signals_by plan others)) element n }
    ensures later_lines { (plan : Topology) (events more : List Event) (t : ℕ) →
        IsWellFormed plan → All (λ event. t < event.at) more →
        (line s : ℕ) → IsNominated plan line → s ≤ t →
        line_moment_at (signals_by plan (events ++ more))
        (out_at plan (signals_by plan (events ++ more))) line s
        ≡ line_moment_at (signals_by plan events) (out_at plan (signals_by plan events)) line s }
    ensures later_inputs { (plan : Topology) (events more : List Event) (t : ℕ) →
        All (λ event. t < event.at) more → (input : InputId) (s : ℕ) → IsInput plan input →
        IsTrue (is_nominated_input plan input) → s ≤ t →
        signal_at (signals_by plan (events ++ more)) input s
        ≡ signal_at (signals_by plan events) input s }
    ensures order_lines { (plan : Topology) (events others : List Event) → IsWellFormed plan →
        TouchAlike plan events others → (line t : ℕ) → IsNominated plan line →
        line_moment_at (signals_by plan events) (out_at plan (signals_by plan events)) line t
        ≡ line_moment_at (signals_by plan others) (out_at plan (signals_by plan others)) line t }
    ensures order_inputs { (plan : Topology) (events others : List Event) → IsWellFormed plan →
        TouchAlike plan events others → (input : InputId) (t : ℕ) → IsInput plan input →
        IsTrue (is_nominated_input plan input) →
        signal_at (signals_by plan events) input t ≡ signal_at (signals_by plan others) input t }
    ensures idle { (plan : Topology) (events : List Event) (element t : ℕ) →
        is_active plan events element (suc t) ≡ false →
        IsSameOutput (settings_of plan element)
        (element_past plan (signals_by plan events) (out_at plan (signals_by plan events))
        element (suc t))
        (element_past plan (signals_by plan events) (out_at plan (signals_by plan events))
        element (suc (suc t))) }
    ensures quiet { (plan : Topology) (events : List Event) (t : ℕ) → IsWellFormed plan →
        is_busy plan events (suc t) ≡ false →
        IsSameAt plan (signals_by plan events) (out_at plan (signals_by plan events)) t (suc t) }
    ensures quiet_heard { (plan : Topology) (events : List Event) (t line : ℕ) →
        IsWellFormed plan → is_busy plan events (suc t) ≡ false → IsNominated plan line →
        heard plan (signals_by plan events) (out_at plan (signals_by plan events)) line (suc t)
        ≡ heard plan (signals_by plan events) (out_at plan (signals_by plan events)) line t }
{}

/// The law of what is heard: a level that is heard was said a delay and less than five seconds earlier,
/// and the line was up from then until it arrived.
///
/// After G.8264, the time after which a level is lost.
pub fn heard_law()
    ensures was_said { (moments : ℕ → LineMoment) (level : Level) (delay now : ℕ) →
        heard_at delay (past_of moments (suc now)) ≡ Some level →
        (said : ℕ) × (said + delay ≤ now) × (now < said + delay + 5000)
        × (said_in (moments said) ≡ Some level)
        × ((t : ℕ) → said ≤ t → t ≤ said + delay → (moments t).up ≡ true) }
{}
