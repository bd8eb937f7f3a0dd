ghost use Rattle.std.specs.Prelude.{◌≡◌, ◌<◌, ◌+◌, ◌^◌, length};
ghost use Rattle.sync_topo.specs.Lines.{line_count};
ghost use Rattle.cycle_plan.specs.private.Inputs.{AreWithin};
ghost use Rattle.cycle_plan.specs.private.Tops.{AreSmall, IsTop};

use crate::greatest::Greatest;
use crate::inputs::line_at;
use crate::numbers::number_in;
use rank_cert::Cert;
use sync_topo::{InputId, Plan, ReturnRule};

/// The greatest of the ranks after those of all inputs of an element.
pub(crate) fn top_of(returns: ReturnRule, plan: &Plan, cert: &Cert, inputs: &[InputId]) -> Greatest
    requires counted { length cert.now ≡ line_count plan.now }
    requires within { AreWithin (length cert.now) inputs.now }
    requires small { AreSmall cert.now }
    ensures { IsTop returns plan.now cert.now inputs.now (length inputs.now) result }
{
    let mut top = Greatest::none();
    for place in 0..inputs.len() {
        top = raised_by(returns, plan, cert, inputs, place, top);
    }
    top
}

/// The same with one more input.
fn raised_by(
    returns: ReturnRule,
    plan: &Plan,
    cert: &Cert,
    inputs: &[InputId],
    place: usize,
    top: Greatest,
) -> Greatest
    requires counted { length cert.now ≡ line_count plan.now }
    requires within { AreWithin (length cert.now) inputs.now }
    requires small { AreSmall cert.now }
    requires top { IsTop returns plan.now cert.now inputs.now place top }
    ensures { IsTop returns plan.now cert.now inputs.now (place + 1) result }
{
    let Some(line) = line_at(inputs, place) else {
        return top;
    };
    match cert.rank(line) {
        Some(rank) => top.raised(number_in(returns, plan, line), rank + 1),
        None => top,
    }
}
