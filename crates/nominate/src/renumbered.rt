ghost use Rattle.std.specs.Prelude.{◌≡◌, length, slice_index, IfOk, IfSome, IsNone};
ghost use Rattle.sync_topo.specs.Lines.{line_count};
ghost use Rattle.sync_topo.specs.WellFormed.{IsWellFormed};
ghost use Rattle.nominate.specs.Nomination.{plan_with};

use crate::rows::rows_with;
use std::alloc::Global;
use sync_text::{NoAnswer, NoMemory};
use sync_topo::Plan;

/// The plan with these priorities of its lines, in order of line number: all else is as it was.
///
/// `None` only where it wouldn't keep the rules for plans: where an element would have more than 64
/// nominated inputs. This project's own.
pub fn with_priorities(
    alloc: Global,
    plan: &Plan,
    priorities: &[u8],
) -> Result<Option<Plan>, NoMemory>
    requires { length priorities.now ≡ line_count plan.now }
    ensures plan { IfOk result (λ given. IfSome given (λ other.
        other ≡ plan_with plan.now (λ line. slice_index priorities.now line))) }
    ensures well_formed { IfOk result (λ given. IfSome given IsWellFormed) }
    ensures none { IfOk result (λ given. IsNone given →
        ¬ IsWellFormed (plan_with plan.now (λ line. slice_index priorities.now line))) }
{
    // Every plan keeps the rules.
    let _lines = plan.lines();
    let rows = rows_with(alloc, plan, priorities)?;
    match Plan::new(alloc, rows) {
        Ok(other) => Ok(Some(other)),
        Err(NoAnswer::NoMemory) => Err(NoMemory),
        Err(NoAnswer::Refused(_)) => Ok(None),
    }
}
