//! One input of an element: what is told of it, and its monitor.

ghost use Rattle.std.specs.Prelude.{◌≡◌, ◌≤◌, true, IfOk};
ghost use Rattle.sync_element.specs.private.Kept.{HasEnd};
ghost use Rattle.sync_element.specs.private.Renewing.{ends_at, must_step, IsReady, IsStepped};

use input_monitor::Monitor;
use smallvec::SmallVec;
use std::alloc::Global;
use sync_ql::Level;
use sync_ql::limits::{LAST_MILLISECOND, LEAST_HOLDOFF};
use sync_text::NoMemory;

/// What an element keeps of an input, besides what the choice looks at.
#[derive(Debug, Drop)]
pub struct Watched {
    pub monitor: Monitor,
    /// Whether it is up, and which level it has, as told last.
    pub up: bool,
    pub level: Option<Level>,
    /// Whether its wait-to-restore time is cleared in the millisecond that is told of.
    pub cleared: bool,
}

// What stands in a list's empty places.
impl Default for Watched {
    fn default() -> Watched {
        Watched {
            monitor: Monitor::new(LEAST_HOLDOFF, 0),
            up: true,
            level: None,
            cleared: false,
        }
    }
}

/// The same inputs once more.
pub(crate) fn try_clone_all(
    alloc: Global,
    watched: &[Watched],
) -> Result<SmallVec<Watched, 4>, NoMemory>
    ensures { IfOk result (λ copies. copies.items ≡ watched.now) }
{
    let Ok(mut copies) = SmallVec::with_capacity(alloc, watched.len()) else {
        return Err(NoMemory);
    };
    for input in watched {
        let copy = Watched {
            monitor: input.monitor.copy(),
            up: input.up,
            level: input.level,
            cleared: input.cleared,
        };
        if copies.push(copy).is_err() {
            return Err(NoMemory);
        }
    }
    Ok(copies)
}

/// Whether the running time of an input ends in a millisecond.
pub(crate) fn ends_at(input: &Watched, now: u64) -> bool
    ensures { result ≡ ends_at now input.now.monitor.due }
{
    input.monitor.due() == Some(now)
}

/// Whether something happens to the input in a millisecond: its wait-to-restore time is cleared, it
/// goes up or down, or its running time ends.
fn must_step(input: &Watched, now: u64) -> bool
    ensures { result ≡ must_step now input.now }
{
    input.cleared || input.up != input.monitor.up() || ends_at(input, now)
}

/// Tells the monitor of a millisecond in which something happens.
pub(crate) fn step_if_told(input: &mut Watched, now: u64)
    requires ready { must_step now input.old ≡ true → IsReady now input.old.monitor }
    requires in_range { now ≤ LAST_MILLISECOND }
    requires ends { HasEnd input.old.monitor }
    ensures { IsStepped now input.old input.new }
{
    if must_step(input, now) {
        input.monitor.step(now, input.up, input.cleared);
        input.cleared = false;
    }
    // What is known of the end of its running time.
    let _due = input.monitor.due();
}
