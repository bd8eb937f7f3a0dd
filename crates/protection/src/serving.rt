// Whether a plan serves everyone who is in reach of a clock while nothing fails.

ghost use Rattle.std.specs.Prelude.{IsTrue, IfOk};
ghost use Rattle.sync_topo.specs.Lines.{line_count};
ghost use Rattle.sync_topo.specs.Outputs.{AreOutputs};
ghost use Rattle.reach_rules.specs.declared.failure.Failure.TheVariants as fails;
ghost use Rattle.reach_rules.specs.Protection.{IsProtectedFrom};

use crate::closed::is_closed;
use crate::gone::Gone;
use crate::marks::MetElements;
use clearing::Ways;
use reach_rules::Failure;
use std::alloc::Global;
use sync_text::NoMemory;
use sync_topo::{LineId, Plan};

/// Whether with no failure the plan cuts nobody off, by the lines out of each element.
pub(crate) fn serves_all(
    alloc: Global,
    plan: &Plan,
    outputs: &[Vec<LineId>],
) -> Result<bool, NoMemory>
    requires { AreOutputs plan.now (line_count plan.now) outputs.now }
    ensures { IfOk result (λ serves. IsTrue serves → IsProtectedFrom plan.now fails.Nothing) }
{
    let nothing = Gone::new(alloc, plan, Failure::Nothing)?;
    let mut served = MetElements::new(alloc, plan)?;
    served.find(plan, outputs, Ways::Nominated, &nothing)?;
    Ok(is_closed(plan, &nothing, served.marked.as_slice()))
}
