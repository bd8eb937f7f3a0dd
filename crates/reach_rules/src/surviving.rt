//! The law of survival: what a plan that is protected and agrees keeps when one thing fails.
//!
//! The function does nothing: its contract is the law. This project's own.

ghost use Rattle.std.specs.Prelude.{◌≤◌, ◌+◌, ℕ, List, IsNone};
ghost use Rattle.sync_ql.specs.declared.levels.Level.{Level};
ghost use Rattle.sync_topo.specs.declared.event.Event.{Event};
ghost use Rattle.sync_topo.specs.Topology.{Topology};
ghost use Rattle.sync_topo.specs.WellFormed.{IsWellFormed};
ghost use Rattle.net_rules.specs.Signals.{Signals, signals_by};
ghost use Rattle.net_rules.specs.History.{Levels, Obeys, taken_at};
ghost use Rattle.net_rules.specs.Staying.{IsQuietAfter};
ghost use Rattle.reach_rules.specs.declared.failure.Failure.{Failure};
ghost use Rattle.reach_rules.specs.declared.group.Group.{Group};
ghost use Rattle.reach_rules.specs.Protection.{IsServed, IsProtectedFrom, IsProtected, IsProtectedWith, AreWithoutCommands};
ghost use Rattle.reach_rules.specs.Agreement.{IsAgreedBound, AreAuto, IsTimed};
ghost use Rattle.reach_rules.specs.Survival.{AreOfFailure, AreClocksBetter, IsIdle, SurvivesOne, Survives, SurvivesWith};

/// The law of survival. Where the levels of all nominated sources are better than do-not-use and
/// than every own clock, no floor is better than the worst of them, and nothing happens but that
/// parts of one failure go down and come up again, an element that is served after it is timed
/// (`timed`). Without commands no element is under a forced or a manual switch (`auto`), and one
/// none of whose inputs is up takes nothing from the bound on (`idle`).
///
/// So a plan with an agreed bound survives each failure from which it is protected (`one`), and a
/// protected one every single failure (`survives`) and each group of parts that fail together
/// (`survives_with`): from the bound on, each element that is in reach takes an input, the same in
/// every millisecond, at one level that is no worse than that of the worst source; and where all
/// others than the elements that are gone are in reach, and no nominated line that still says
/// something joins two of those, each of these milliseconds is settled, and each element in reach
/// has exactly the best of the levels that reach it. Two failures at once are no matter of it but in
/// a group, nor is an element that is out of reach.
///
/// This project's own.
pub fn survival_law()
    ensures timed { (plan : Topology) (failure : Failure) (events : List Event) (worst : Level)
        (out : Levels) (last element : ℕ) → IsWellFormed plan → AreOfFailure plan failure events →
        AreClocksBetter plan worst → IsServed plan failure element →
        IsTimed plan (signals_by plan events) out last element }
    ensures auto { (plan : Topology) (events : List Event) (out : Levels) (t : ℕ) →
        AreWithoutCommands events → AreAuto plan (signals_by plan events) out t }
    ensures idle { (plan : Topology) (signals : Signals) (out : Levels)
        (last bound element t : ℕ) → IsWellFormed plan → Obeys plan signals out →
        IsAgreedBound plan bound → IsQuietAfter signals last → IsIdle plan signals last element →
        last + bound ≤ t → IsNone (taken_at plan signals out element t) }
    ensures one { (plan : Topology) (bound : ℕ) (failure : Failure) → IsWellFormed plan →
        IsAgreedBound plan bound → IsProtectedFrom plan failure →
        SurvivesOne plan bound failure }
    ensures survives { (plan : Topology) (bound : ℕ) → IsWellFormed plan →
        IsAgreedBound plan bound → IsProtected plan → Survives plan bound }
    ensures survives_with { (plan : Topology) (bound : ℕ) (groups : List Group) →
        IsWellFormed plan → IsAgreedBound plan bound → IsProtectedWith plan groups →
        SurvivesWith plan bound groups }
{}
