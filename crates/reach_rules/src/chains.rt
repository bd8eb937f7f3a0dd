//! The law of chains: no trace is longer than its row.
//!
//! The function does nothing: its contract is the law. This project's own.

ghost use Rattle.std.specs.Prelude.{◌≡◌, ◌≤◌, ◌++◌, ◌∷◌, ℕ, List, length};
ghost use Rattle.sync_topo.specs.Topology.{Topology};
ghost use Rattle.sync_topo.specs.Hops.{IsRising};
ghost use Rattle.sync_topo.specs.WellFormed.{IsWellFormed};
ghost use Rattle.net_rules.specs.Signals.{Signals};
ghost use Rattle.net_rules.specs.History.{Levels, Obeys};
ghost use Rattle.net_rules.specs.Walks.{TraceEnd, IsTrace};
ghost use Rattle.net_rules.specs.Safety.{taken_in};
ghost use Rattle.net_rules.specs.Settled.{IsSettled};
ghost use Rattle.reach_rules.specs.declared.chain.Chain.{Chain};
ghost use Rattle.reach_rules.specs.Chains.{IsOrigin, IsChain, IsRow, AreRows, IsWithin, AreBounds, one_more};

/// The law of chains, in any millisecond, whatever comes from outside and whatever is sent. A
/// trace that ends at a source or an own clock is a chain (`chain`), so it is within the
/// element's row (`origin`); where ranks rise, no more lines stand on it before a line than the
/// line's rank (`rising`). Any trace counts at most one more than the row (`any`): where it ends
/// at an element that it met, its last line may go back over the one before. In a settled
/// millisecond, where ranks rise, every trace is within the row (`settled`). So the rows of a
/// plan bound every trace to a source or own clock, whatever list of events it may have (`rows`),
/// and a plan has one list of rows (`one`).
///
/// After G.803, the synchronization reference chain.
pub fn chain_law()
    ensures chain { (plan : Topology) (signals : Signals) (out : Levels) (element t : ℕ)
        (lines : List ℕ) (end : TraceEnd) → IsWellFormed plan →
        IsTrace plan (taken_in plan signals out t) element lines end → IsOrigin end →
        IsChain plan element lines }
    ensures origin { (plan : Topology) (signals : Signals) (out : Levels) (element t : ℕ)
        (row : Chain) (lines : List ℕ) (end : TraceEnd) → IsWellFormed plan →
        IsRow plan element row →
        IsTrace plan (taken_in plan signals out t) element lines end → IsOrigin end →
        IsWithin plan row lines }
    ensures rising { (plan : Topology) (signals : Signals) (out : Levels) (rank : ℕ → ℕ)
        (element t line : ℕ) (after before : List ℕ) (end : TraceEnd) → IsWellFormed plan →
        IsRising plan rank →
        IsTrace plan (taken_in plan signals out t) element (after ++ line ∷ before) end →
        IsOrigin end → length before ≤ rank line }
    ensures any { (plan : Topology) (signals : Signals) (out : Levels) (element t : ℕ)
        (row : Chain) (lines : List ℕ) (end : TraceEnd) → IsWellFormed plan →
        IsRow plan element row →
        IsTrace plan (taken_in plan signals out t) element lines end →
        IsWithin plan (one_more row) lines }
    ensures settled { (plan : Topology) (signals : Signals) (out : Levels) (rank : ℕ → ℕ)
        (element t : ℕ) (row : Chain) (lines : List ℕ) (end : TraceEnd) → IsWellFormed plan →
        Obeys plan signals out → IsRising plan rank → IsSettled plan signals out t →
        IsRow plan element row →
        IsTrace plan (taken_in plan signals out t) element lines end →
        IsWithin plan row lines }
    ensures rows { (plan : Topology) (rows : List Chain) → IsWellFormed plan → AreRows plan rows →
        AreBounds plan rows }
    ensures one { (plan : Topology) (rows others : List Chain) → AreRows plan rows →
        AreRows plan others → rows ≡ others }
{}
