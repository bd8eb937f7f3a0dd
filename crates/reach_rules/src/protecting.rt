//! The law of protection: what a plan that serves everyone in reach gives them.
//!
//! The function does nothing: its contract is the law. This project's own.

ghost use Rattle.std.specs.Prelude.{◌≡◌, ◌<◌, ℕ, true, List};
ghost use Rattle.sync_ql.specs.declared.levels.Level.{Level};
ghost use Rattle.sync_topo.specs.Topology.{Topology};
ghost use Rattle.sync_topo.specs.WellFormed.{IsWellFormed};
ghost use Rattle.net_rules.specs.Signals.{Signals};
ghost use Rattle.net_rules.specs.History.{Levels, Obeys, level_at};
ghost use Rattle.net_rules.specs.Settled.{IsSettled};
ghost use Rattle.reach_rules.specs.declared.failure.Failure.{Failure};
ghost use Rattle.reach_rules.specs.declared.group.Group.{Group};
ghost use Rattle.reach_rules.specs.Reaching.{IsNoWorse};
ghost use Rattle.reach_rules.specs.Protection.{is_element_gone, IsServed, IsInReach, IsProtected, IsProtectedFrom, IsProtectedWith, IsGapLine, IsClosed, AreOthersWell, IsFree, IsWorst, HoldsOut, HoldsOutOne, HoldsOutWith};

/// The law of protection. In a settled millisecond in which just the parts of one failure are
/// silent, and nothing is locked out or forced, each element that is served after it has a level no
/// worse than the worst of the sources that are left (`served`). Who is served is in reach
/// (`reached`), and an element that is gone is not (`gone`). Where each line that isn't gone leads
/// from a served element to a served one, the plan is protected from the failure (`closed`); a line
/// that leads from one to an element that isn't served shows that it isn't (`gap`). So a protected
/// plan holds out: whatever list of events without commands it may have, in each settled
/// millisecond in which one failure stands no element in reach has a worse level than the worst of
/// the sources that are left (`holds`). So it is with each failure from which the plan is protected
/// (`holds_one`), and with groups of parts that fail together (`holds_with`).
///
/// This project's own.
pub fn protection_law()
    ensures served { (plan : Topology) (signals : Signals) (out : Levels) (failure : Failure)
        (t : ℕ) (worst : Level) (element : ℕ) → IsWellFormed plan → Obeys plan signals out →
        IsSettled plan signals out t → AreOthersWell plan failure signals t →
        ((other : ℕ) → IsFree plan signals out t other) →
        IsWorst plan failure signals t worst → IsServed plan failure element →
        IsNoWorse (level_at plan signals out element t) worst }
    ensures reached { (plan : Topology) (failure : Failure) (element : ℕ) →
        IsServed plan failure element → IsInReach plan failure element }
    ensures gone { (plan : Topology) (failure : Failure) (element : ℕ) →
        is_element_gone failure element ≡ true → ¬ IsInReach plan failure element }
    ensures closed { (plan : Topology) (failure : Failure) → IsClosed plan failure →
        IsProtectedFrom plan failure }
    ensures gap { (plan : Topology) (failure : Failure) (line : ℕ) →
        IsGapLine plan failure line → ¬ IsProtectedFrom plan failure }
    ensures holds { (plan : Topology) → IsWellFormed plan → IsProtected plan → HoldsOut plan }
    ensures holds_one { (plan : Topology) (failure : Failure) → IsWellFormed plan →
        IsProtectedFrom plan failure → HoldsOutOne plan failure }
    ensures holds_with { (plan : Topology) (groups : List Group) → IsWellFormed plan →
        IsProtectedWith plan groups → HoldsOutWith plan groups }
{}
