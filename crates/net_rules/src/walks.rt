//! Laws of walks and traces, over what each element takes in one millisecond.
//!
//! Each function does nothing: its contract is the law. This project's own.

ghost use Rattle.std.specs.Prelude.{◌≡◌, ◌<◌, ◌⊎◌, ℕ, suc, List, ◌∷◌, Some, IfSome, length};
ghost use Rattle.sync_topo.specs.Topology.{Topology};
ghost use Rattle.sync_topo.specs.Lines.{line_input, sender_of, receiver_of, IsNominated};
ghost use Rattle.sync_topo.specs.Hops.{IsRising, IsCycle};
ghost use Rattle.sync_topo.specs.WellFormed.{IsWellFormed};
ghost use Rattle.net_rules.specs.Signals.{Signals};
ghost use Rattle.net_rules.specs.Inputs.{IsInputOf};
ghost use Rattle.net_rules.specs.History.{Levels, taken_at};
ghost use Rattle.net_rules.specs.Safety.{taken_in};
ghost use Rattle.net_rules.specs.GoingBack.{lines_before, ComesBack};
ghost use Rattle.net_rules.specs.Walks.{Taken, IsTaken, IsClosedWalk, IsFacingPair, TraceEnd, IsTrace};

/// The law of closed walks, over what each element takes in one millisecond, where only nominated lines
/// are taken: each is a facing pair or a cycle of hops, and where ranks rise it is a facing pair.
pub fn closed_walk_law()
    ensures either { (plan : Topology) (taken : Taken) (lines : List ℕ) → IsWellFormed plan →
        ((line : ℕ) → IsTaken plan taken line → IsNominated plan line) →
        IsClosedWalk plan taken lines → IsFacingPair plan lines ⊎ IsCycle plan lines }
    ensures rising { (plan : Topology) (taken : Taken) (rank : ℕ → ℕ) (lines : List ℕ) →
        IsWellFormed plan → ((line : ℕ) → IsTaken plan taken line → IsNominated plan line) →
        IsRising plan rank → IsClosedWalk plan taken lines → IsFacingPair plan lines }
{}

/// The law of going back, over what each element takes: a closed walk is the lines that are met by
/// going back from its first line; where going back from a line comes to it again, the lines met are a
/// closed walk; and there is one closed walk for each first line.
pub fn walk_back_law()
    ensures met { (plan : Topology) (taken : Taken) (first : ℕ) (rest : List ℕ) →
        IsClosedWalk plan taken (first ∷ rest) →
        first ∷ rest ≡ lines_before plan taken (suc (length rest)) first }
    ensures walk { (plan : Topology) (taken : Taken) (n line : ℕ) →
        ((element before : ℕ) → taken element ≡ Some (line_input before) →
        receiver_of plan before ≡ element) →
        ComesBack plan taken n line → IsClosedWalk plan taken (lines_before plan taken n line) }
    ensures one { (plan : Topology) (taken : Taken) (first : ℕ) (rest others : List ℕ) →
        IsClosedWalk plan taken (first ∷ rest) → IsClosedWalk plan taken (first ∷ others) →
        rest ≡ others }
{}

/// The law of traces: each element has exactly one, which is followed to a source, to an element that
/// takes nothing, or to one that it meets again, where what is taken comes from elements of the plan.
pub fn trace_law()
    ensures one { (plan : Topology) (taken : Taken) (element : ℕ) (lines others : List ℕ)
        (end other : TraceEnd) → IsTrace plan taken element lines end →
        IsTrace plan taken element others other → (lines ≡ others) × (end ≡ other) }
    ensures some { (plan : Topology) (taken : Taken) (n element : ℕ) →
        ((receiver line : ℕ) → taken receiver ≡ Some (line_input line) → sender_of plan line < n) →
        element < n →
        (lines : List ℕ) × (end : TraceEnd) × IsTrace plan taken element lines end }
{}

/// The law of what elements take by the rules, in any millisecond: each takes a nominated input of its
/// own; so each closed walk is a facing pair or a cycle of hops, and each element has a trace.
pub fn taken_law()
    ensures own { (plan : Topology) (signals : Signals) (out : Levels) (element t : ℕ) →
        IfSome (taken_at plan signals out element t) (IsInputOf plan element) }
    ensures walk { (plan : Topology) (signals : Signals) (out : Levels) (t : ℕ) (lines : List ℕ) →
        IsWellFormed plan → IsClosedWalk plan (taken_in plan signals out t) lines →
        IsFacingPair plan lines ⊎ IsCycle plan lines }
    ensures traced { (plan : Topology) (signals : Signals) (out : Levels) (element t : ℕ) →
        IsWellFormed plan → element < length plan.elements →
        (lines : List ℕ) × (end : TraceEnd)
        × IsTrace plan (taken_in plan signals out t) element lines end }
{}
