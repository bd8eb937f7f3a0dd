// What follows from the definitions alone, over any test of hops.

ghost use Rattle.std.specs.Prelude.{◌≡◌, ◌↔◌, ◌≤◌, ℕ, List};
ghost use Rattle.std.specs.List.{Contains};
ghost use Rattle.sync_topo.specs.Ranks.{HopTest, Rises, IsLeastRank, IsFirstCycle};
ghost use Rattle.cycle_plan.specs.Repeats.{Repeats};

/// The laws of the first cycle: there is only one, and its lines are those that repeat when one
/// goes back from the lowest-numbered line of the residue.
///
/// It does nothing: its contract is the law. This project's own.
pub fn first_cycle_law()
    ensures one { (hop : HopTest) → (lines other : List ℕ) → IsFirstCycle hop lines
        → IsFirstCycle hop other → lines ≡ other }
    ensures repeats { (hop : HopTest) → (lines : List ℕ) → IsFirstCycle hop lines
        → (line : ℕ) → Contains lines line ↔ Repeats hop line }
{}

/// The law of least ranks: no ranks that rise are lower anywhere.
///
/// It does nothing: its contract is the law. This project's own.
pub fn least_rank_law()
    ensures one { (hop : HopTest) → (line least other : ℕ) → IsLeastRank hop line least
        → IsLeastRank hop line other → least ≡ other }
    ensures lowest { (hop : HopTest) → (rank : ℕ → ℕ) → Rises hop rank
        → (line least : ℕ) → IsLeastRank hop line least → least ≤ rank line }
{}
