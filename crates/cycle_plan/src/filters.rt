// Which elements are filters.

ghost use Rattle.std.specs.Prelude.{◌≡◌, ◌<◌, Some, length};
ghost use Rattle.sync_ql.specs.Level.{place_of_name};
ghost use Rattle.reach_rules.specs.Chains.{filter_name, is_filter_level, is_filter};

use sync_ql::{Level, NetOption};
use sync_topo::Plan;

/// Whether an element is a filter: whether its own clock's level is not worse than QL-SSU-B or, in
/// option II, QL-ST3E.
///
/// After G.803, which counts the clocks of synchronization supply units apart.
pub(crate) fn is_filter(plan: &Plan, element: u32) -> bool
    requires { element < length plan.now.elements }
    ensures { result ≡ is_filter plan.now element }
{
    is_filter_level(plan.element(element).own)
}

/// Whether a clock of this level is a filter.
fn is_filter_level(level: Level) -> bool
    ensures { result ≡ is_filter_level level }
{
    level.place <= least_filter(level.option)
}

/// The place of the least level of a filter in the table of an option.
fn least_filter(option: NetOption) -> u8
    ensures { place_of_name option (filter_name option) ≡ Some result }
{
    match option {
        NetOption::I => 5,
        NetOption::II => 7,
    }
}
