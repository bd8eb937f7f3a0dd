//! The law of failures: how soon after them a network whose plan agrees is at rest again.
//!
//! The function does nothing: its contract is the law. This project's own.

ghost use Rattle.std.specs.Prelude.{◌≡◌, ◌≤◌, ◌<◌, ◌+◌, ℕ, Bool, List, length};
ghost use Rattle.sync_topo.specs.declared.event.Event.{Event};
ghost use Rattle.sync_topo.specs.Topology.{Topology};
ghost use Rattle.sync_topo.specs.WellFormed.{IsWellFormed};
ghost use Rattle.net_rules.specs.Signals.{Signals, signals_by};
ghost use Rattle.net_rules.specs.History.{Levels, Obeys, level_at};
ghost use Rattle.net_rules.specs.Settled.{IsSettled};
ghost use Rattle.net_rules.specs.Losing.{IsLosing};
ghost use Rattle.reach_rules.specs.declared.failure.Failure.{Failure};
ghost use Rattle.reach_rules.specs.declared.group.Group.{Group};
ghost use Rattle.reach_rules.specs.Reaching.{IsBestReaching};
ghost use Rattle.reach_rules.specs.Protection.{IsProtectedFrom, IsProtected, IsProtectedWith};
ghost use Rattle.reach_rules.specs.Agreement.{IsAgreedBound, AreAuto, IsTimed, AreTimed, IsSteadyAt};
ghost use Rattle.reach_rules.specs.Failing.{is_planned, IsFailureBound, AreTold, RestsAfterFailures, AreLevelsKept, RestsSoon, SurvivesSoon, SurvivesEachSoon, SurvivesSoonWith};

/// The law of failures. Let a network be settled, and from then on let nothing come up and no line's
/// ESMC go off: any parts go down, at any times. Let the levels of its sources pass a test, and let
/// no element be under a forced or a manual switch at the end. Then the bound after failures, of which
/// wait-to-restore is no part, does what the agreed bound does: from so long after the last event on
/// an element that is timed is steady, and where every element is timed each millisecond is settled
/// (`settled`) and each element has exactly the best of the levels that reach it (`best`); so by any
/// list of events (`by_events`). Levels that no source has don't count: where no event changes a level,
/// those of the plan's sources pass (`planned`), so that the plan rests soon (`soon`).
///
/// So a plan survives each failure from which it is protected, soon after its parts went down (`one`),
/// and a protected one every single failure (`survives`) and each group of parts that fail together
/// (`survives_with`). The bound is no greater than the agreed bound (`sooner`), and a plan has one
/// (`only`).
///
/// This project's own.
pub fn failure_law()
    ensures steady { (told : ℕ → Bool) (plan : Topology) (signals : Signals) (out : Levels)
        (settled last bound element t : ℕ) → IsWellFormed plan → Obeys plan signals out →
        IsFailureBound told plan bound → IsLosing plan signals out settled last →
        AreTold told plan signals settled → AreAuto plan signals out last →
        IsTimed plan signals out last element → last + bound ≤ t →
        IsSteadyAt plan signals out (last + bound) t element }
    ensures settled { (told : ℕ → Bool) (plan : Topology) (signals : Signals) (out : Levels)
        (settled last bound t : ℕ) → IsWellFormed plan → Obeys plan signals out →
        IsFailureBound told plan bound → IsLosing plan signals out settled last →
        AreTold told plan signals settled → AreAuto plan signals out last →
        AreTimed plan signals out last → last + bound ≤ t → IsSettled plan signals out t }
    ensures best { (told : ℕ → Bool) (plan : Topology) (signals : Signals) (out : Levels)
        (settled last bound t : ℕ) → IsWellFormed plan → Obeys plan signals out →
        IsFailureBound told plan bound → IsLosing plan signals out settled last →
        AreTold told plan signals settled → AreAuto plan signals out last →
        AreTimed plan signals out last → last + bound ≤ t →
        (element : ℕ) → element < length plan.elements →
        IsBestReaching plan signals out t element (level_at plan signals out element t) }
    ensures by_events { (told : ℕ → Bool) (plan : Topology) (bound : ℕ) → IsWellFormed plan →
        IsFailureBound told plan bound → RestsAfterFailures told plan bound }
    ensures planned { (plan : Topology) (events : List Event) (from : ℕ) → AreLevelsKept events →
        AreTold (is_planned plan) plan (signals_by plan events) from }
    ensures soon { (plan : Topology) (bound : ℕ) → IsWellFormed plan →
        IsFailureBound (is_planned plan) plan bound → RestsSoon plan bound }
    ensures one { (plan : Topology) (bound : ℕ) (failure : Failure) → IsWellFormed plan →
        IsFailureBound (is_planned plan) plan bound → IsProtectedFrom plan failure →
        SurvivesSoon plan bound failure }
    ensures survives { (plan : Topology) (bound : ℕ) → IsWellFormed plan →
        IsFailureBound (is_planned plan) plan bound → IsProtected plan →
        SurvivesEachSoon plan bound }
    ensures survives_with { (plan : Topology) (bound : ℕ) (groups : List Group) →
        IsWellFormed plan → IsFailureBound (is_planned plan) plan bound →
        IsProtectedWith plan groups → SurvivesSoonWith plan bound groups }
    ensures sooner { (told : ℕ → Bool) (plan : Topology) (bound later : ℕ) →
        IsFailureBound told plan bound → IsAgreedBound plan later → bound ≤ later }
    ensures only { (told : ℕ → Bool) (plan : Topology) (bound other : ℕ) → IsWellFormed plan →
        IsFailureBound told plan bound → IsFailureBound told plan other → bound ≡ other }
{}
