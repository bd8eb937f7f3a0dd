// Numbers of lines by which the hops of each rule of returns are told.

ghost use Rattle.std.specs.Prelude.{◌≡◌, ◌<◌};
ghost use Rattle.sync_topo.specs.Lines.{line_count};
ghost use Rattle.cycle_plan.specs.private.Numbers.{number_in, number_out};

use sync_topo::{LineId, Plan, ReturnRule};

/// The number of a line as a way in.
pub(crate) fn number_in(returns: ReturnRule, plan: &Plan, line: LineId) -> u32
    requires { line.0 < line_count plan.now }
    ensures { result ≡ number_in returns plan.now line.0 }
{
    match returns {
        ReturnRule::Barred => plan.bundle(line.0 / 2),
        ReturnRule::Allowed => 0,
        ReturnRule::BarredFromLast if plan.last_resort(line) => number_out(returns, plan, line),
        ReturnRule::BarredFromLast => 0,
    }
}

/// The number of a line as a way out: what comes in goes on over every way out but those of its own
/// number.
pub(crate) fn number_out(returns: ReturnRule, plan: &Plan, line: LineId) -> u32
    requires { line.0 < line_count plan.now }
    ensures { result ≡ number_out returns plan.now line.0 }
{
    // A plan has at most 200,000 links, so the sum fits.
    let _links = plan.links();
    match returns {
        ReturnRule::Barred => plan.bundle(line.0 / 2),
        ReturnRule::Allowed => 1,
        ReturnRule::BarredFromLast => plan.bundle(line.0 / 2) + 1,
    }
}
