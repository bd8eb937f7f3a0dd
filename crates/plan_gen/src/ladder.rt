ghost use Rattle.std.specs.Prelude.{◌≡◌, ◌≤◌, IfOk};
ghost use Rattle.plan_gen.specs.Ladder.{ladder};

use crate::rows::ladder_rows;
use std::alloc::Global;
use sync_text::{NoAnswer, NoMemory};
use sync_topo::{MOST_ELEMENTS, Plan};

/// The ladder of `elements` elements, E0 at its foot.
///
/// Each element from E1 on takes its timing from the one below it, over a step, and each from E2 on
/// also from the one below that, over a rail, which comes first in priority. P0 of QL-PRC feeds E0,
/// and P1 of QL-SSU-A feeds E1. The option is I, and every delay is 10 milliseconds.
///
/// This project's own.
pub fn generate(alloc: Global, elements: u32) -> Result<Plan, NoMemory>
    requires least { 2 ≤ elements }
    requires greatest { elements ≤ MOST_ELEMENTS }
    ensures ladder { IfOk result (λ plan. plan ≡ ladder elements) }
{
    let rows = ladder_rows(alloc, elements)?;
    match Plan::new(alloc, rows) {
        Ok(plan) => Ok(plan),
        Err(NoAnswer::NoMemory) => Err(NoMemory),
        // The ladder's rows break no rule for plans.
        Err(NoAnswer::Refused(_)) => unreachable!(),
    }
}
