ghost use Rattle.std.specs.Prelude.{◌≡◌, ◌<◌, length, IfOk};
ghost use Rattle.nominate.specs.HopCount.{Counts, count_at, AreHopCounts, AreBounded};

use crate::search::HopSearch;
use std::alloc::Global;
use std::marker::Model;
use sync_text::NoMemory;
use sync_topo::{Plan, all_lines_out};

/// How many hops each element of a plan is from a clock.
///
/// Contracts see a list with one optional number for each element, in order of number. This
/// project's own.
#[derive(Debug, Drop)]
pub struct Hops {
    counts: Vec<Option<u32>>,
}

impl Model for Hops {
    ghost use Rattle.std.specs.Prelude.{List, ℕ, Option};

    ghost Value = { List (Option ℕ) };

    ghost view = { λ hops. hops.counts.items };
}

impl Hops {
    /// An element's count: over how many links it is reached from the nearest element with a
    /// nominated source, which has 0.
    ///
    /// `None` where no links lead from such an element to it. This project's own.
    pub fn of(&self, element: u32) -> Option<u32>
        requires { element < length self.now }
        ensures count { result ≡ count_at self.now element }
    {
        self.counts[element as usize]
    }
}

/// The count of each element: over how few links it is reached from an element with a nominated
/// source, each link taken in either direction, nominated or not.
///
/// The work grows with the elements and links. This project's own.
pub fn least_hops(alloc: Global, plan: &Plan) -> Result<Hops, NoMemory>
    ensures least { IfOk result (AreHopCounts plan.now) }

    // There is one such list.
    ensures only { IfOk result (λ hops. (counts : Counts) → AreHopCounts plan.now counts
        → counts ≡ hops) }

    // No count is above the number of elements.
    ensures bounded { IfOk result (AreBounded plan.now) }
{
    let outputs = all_lines_out(alloc, plan)?;
    let mut search = HopSearch::new(alloc, plan)?;
    search.run(plan, outputs.as_slice())?;
    Ok(Hops {
        counts: search.counts,
    })
}
