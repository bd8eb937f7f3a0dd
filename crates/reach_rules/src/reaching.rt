//! The law of reaching: how far the level of a source comes.
//!
//! The function does nothing: its contract is the law. This project's own.

ghost use Rattle.std.specs.Prelude.{◌≡◌, ◌<◌, ℕ, List, IsSome};
ghost use Rattle.sync_ql.specs.Level.{IsBetter};
ghost use Rattle.sync_topo.specs.Topology.{Topology};
ghost use Rattle.sync_topo.specs.Hops.{IsRising};
ghost use Rattle.sync_topo.specs.WellFormed.{IsWellFormed};
ghost use Rattle.net_rules.specs.Signals.{Signals};
ghost use Rattle.net_rules.specs.History.{Levels, Obeys, taken_at, level_at};
ghost use Rattle.net_rules.specs.Settings.{own_level};
ghost use Rattle.net_rules.specs.Settled.{IsSettled};
ghost use Rattle.reach_rules.specs.Ways.{IsReached};
ghost use Rattle.reach_rules.specs.Reaching.{Reaches, IsNoWorse, IsRestingOn, IsBestReaching, AreUnforced, AreOwnWorse};

/// The law of reaching, in a settled millisecond. Where the level of a source reaches an element
/// over a way, the element's level is no worse (`level`), and where its own clock is worse it takes
/// something (`taken`). Only the inputs on the way have to be at rest for that, and the nominated
/// lines from which a line of it goes back: elsewhere the network may still change (`here`). Where
/// ranks rise, no switch is forced and every own clock is worse, an element that any source reaches
/// has exactly the best of the levels that reach it (`best`).
///
/// After G.781, selection by quality level; ways are this project's own.
pub fn reach_law()
    ensures level { (plan : Topology) (signals : Signals) (out : Levels) (t source : ℕ)
        (lines : List ℕ) (element : ℕ) → IsWellFormed plan → Obeys plan signals out →
        IsSettled plan signals out t → Reaches plan signals out t source lines element →
        IsNoWorse (level_at plan signals out element t) (signals.source_level source t) }
    ensures taken { (plan : Topology) (signals : Signals) (out : Levels) (t source : ℕ)
        (lines : List ℕ) (element : ℕ) → IsWellFormed plan → Obeys plan signals out →
        IsSettled plan signals out t → Reaches plan signals out t source lines element →
        IsBetter (signals.source_level source t) (own_level plan element) →
        IsSome (taken_at plan signals out element t) }
    ensures here { (plan : Topology) (signals : Signals) (out : Levels) (t source : ℕ)
        (lines : List ℕ) (element : ℕ) → IsWellFormed plan → Obeys plan signals out →
        IsReached plan (IsRestingOn plan signals out t) source lines element →
        Reaches plan signals out t source lines element →
        IsNoWorse (level_at plan signals out element t) (signals.source_level source t) }
    ensures best { (plan : Topology) (signals : Signals) (out : Levels) (rank : ℕ → ℕ)
        (t source : ℕ) (lines : List ℕ) (element : ℕ) → IsWellFormed plan →
        Obeys plan signals out → IsRising plan rank → IsSettled plan signals out t →
        AreUnforced plan signals out t → AreOwnWorse plan (signals.source_level source t) →
        Reaches plan signals out t source lines element →
        IsBestReaching plan signals out t element (level_at plan signals out element t) }
{}
