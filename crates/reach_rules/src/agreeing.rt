//! The law of agreement: when a network comes to rest although links are nominated at both ends.
//!
//! The function does nothing: its contract is the law. This project's own.

ghost use Rattle.std.specs.Prelude.{◌≤◌, ◌<◌, ◌+◌, ℕ, length};
ghost use Rattle.sync_topo.specs.Topology.{Topology};
ghost use Rattle.sync_topo.specs.Hops.{IsRising};
ghost use Rattle.sync_topo.specs.WellFormed.{IsWellFormed};
ghost use Rattle.net_rules.specs.Signals.{Signals};
ghost use Rattle.net_rules.specs.History.{Levels, Obeys, level_at};
ghost use Rattle.net_rules.specs.Settled.{IsSettled};
ghost use Rattle.net_rules.specs.Settling.{IsOneWay};
ghost use Rattle.net_rules.specs.Staying.{IsQuietAfter};
ghost use Rattle.reach_rules.specs.Reaching.{IsBestReaching};
ghost use Rattle.reach_rules.specs.Agreement.{IsAgreeing, IsAgreedBound, AreAuto, IsTimed, IsSteadyAt, ComesToRest};

/// The law of agreement, after the last event and without a forced or manual switch, in a plan with
/// an agreed bound. An element that a level reaches which is better than every own clock takes the
/// same and has the same level in every millisecond from the bound on (`steady`). Where that holds
/// of every element, each of these milliseconds is settled (`settled`), and each element has exactly
/// the best of the levels that reach it (`best`); so it is by every list of events (`by_events`).
/// Elements that no such level reaches may swing among themselves.
///
/// Numbers that rise over what bears on what rise over hops too (`rising`), and where no link or
/// bundle is nominated both ways those that rise over hops do over what bears on what (`one_way`).
///
/// After G.781, selection and do-not-use; agreement is this project's own. Routing between domains
/// knows such a condition, stable paths without a dispute wheel.
pub fn agree_law()
    ensures rising { (plan : Topology) (rank : ℕ → ℕ) → IsAgreeing plan rank →
        IsRising plan rank }
    ensures one_way { (plan : Topology) (rank : ℕ → ℕ) → IsOneWay plan → IsRising plan rank →
        IsAgreeing plan rank }
    ensures steady { (plan : Topology) (signals : Signals) (out : Levels)
        (last bound element t : ℕ) → IsWellFormed plan → Obeys plan signals out →
        IsAgreedBound plan bound → IsQuietAfter signals last → AreAuto plan signals out last →
        IsTimed plan signals out last element → last + bound ≤ t →
        IsSteadyAt plan signals out (last + bound) t element }
    ensures settled { (plan : Topology) (signals : Signals) (out : Levels) (last bound t : ℕ) →
        IsWellFormed plan → Obeys plan signals out → IsAgreedBound plan bound →
        IsQuietAfter signals last → AreAuto plan signals out last →
        ((element : ℕ) → element < length plan.elements →
        IsTimed plan signals out last element) →
        last + bound ≤ t → IsSettled plan signals out t }
    ensures best { (plan : Topology) (signals : Signals) (out : Levels) (last bound t : ℕ) →
        IsWellFormed plan → Obeys plan signals out → IsAgreedBound plan bound →
        IsQuietAfter signals last → AreAuto plan signals out last →
        ((element : ℕ) → element < length plan.elements →
        IsTimed plan signals out last element) →
        last + bound ≤ t → (element : ℕ) → element < length plan.elements →
        IsBestReaching plan signals out t element (level_at plan signals out element t) }
    ensures by_events { (plan : Topology) (bound : ℕ) → IsWellFormed plan →
        IsAgreedBound plan bound → ComesToRest plan bound }
{}
