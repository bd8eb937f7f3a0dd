// The rows of a plan's chains or, where no ranks rise, its first cycle.

ghost use Rattle.std.specs.Prelude.{◌≡◌, ◌<◌, ℕ, List, IfOk, IfSome, IsNone};
ghost use Rattle.std.specs.List.{All};
ghost use Rattle.sync_topo.specs.Lines.{line_count};
ghost use Rattle.sync_topo.specs.Hops.{hops, IsRising, IsCycle};
ghost use Rattle.sync_topo.specs.Ranks.{IsFirstCycle};
ghost use Rattle.reach_rules.specs.Chains.{AreRows};
ghost use Rattle.cycle_plan.specs.Chained.{IfChains, IfCycle};

use crate::chain_rows::Chains;
use crate::ranking::Ranking;
use std::alloc::Global;
use sync_text::{NoMemory, Rows};
use sync_topo::{LineId, Plan, ReturnRule};

/// What is found of a plan's chains.
#[derive(Drop)]
pub enum Chained {
    /// The longest chains into each element.
    Chains(Chains),
    /// The first cycle, in hop order from its lowest-numbered line: chains have no end.
    Cycle(Rows<LineId>),
}

/// The longest chains of timing into each element: the greatest number of lines, of lines since the
/// last that begins at a filter, and of lines that begin at a filter; each from 0 to 400,000.
///
/// `None` exactly where the plan has a cycle of hops: then chains have no end. The numbers are
/// over all chains, so over all that any faults and commands can bring about. G.803's
/// synchronization reference chain has at most 60 elements in all, 20 between two filters and 10
/// filters. The work grows with the lines and elements, and not with the hops. This project's
/// own.
pub fn chains(alloc: Global, plan: &Plan) -> Result<Option<Chains>, NoMemory>
    ensures rows { IfOk result (λ chains. IfSome chains (AreRows plan.now)) }
    ensures acyclic { IfOk result (λ chains. IfSome chains (λ rows. (lines : List ℕ) →
        ¬ IsCycle plan.now lines)) }
    ensures cyclic { IfOk result (λ chains. IsNone chains →
        (lines : List ℕ) × IsCycle plan.now lines) }
{
    match chain_plan(alloc, plan)? {
        Chained::Chains(chains) => Ok(Some(chains)),
        Chained::Cycle(_) => Ok(None),
    }
}

/// What [`chains`] gives or, where the plan has a cycle of hops, its first cycle, as the planner
/// finds it.
///
/// This project's own.
pub fn chain_plan(alloc: Global, plan: &Plan) -> Result<Chained, NoMemory>
    ensures rows { IfChains result (AreRows plan.now) }
    ensures rising { IfChains result (λ rows. (rank : ℕ → ℕ) × IsRising plan.now rank) }
    ensures acyclic { IfChains result (λ rows. (lines : List ℕ) → ¬ IsCycle plan.now lines) }
    ensures first { IfCycle result (IsFirstCycle (hops plan.now)) }
    ensures cycle { IfCycle result (IsCycle plan.now) }
    ensures within { IfCycle result (All (λ line. line < line_count plan.now)) }
{
    let ranking = Ranking::of(alloc, ReturnRule::Barred, plan)?;
    match ranking.first_left(ReturnRule::Barred, plan) {
        Some(start) => Ok(Chained::Cycle(ranking.first_cycle(
            alloc,
            ReturnRule::Barred,
            plan,
            start,
        )?)),
        None => {
            let reaches = ranking.reaches(alloc, plan)?;
            Ok(Chained::Chains(Chains { reaches }))
        }
    }
}
