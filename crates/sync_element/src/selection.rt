//! What is decided at the end of a millisecond.

ghost use Rattle.std.specs.Prelude.{◌≡◌, ◌≤◌, ◌<◌, ◌+◌, ℕ, nat_eq, IfSome, length, ◌||◌, is_some, unwrap_or, option_and_then, if◌then◌else◌};
ghost use Rattle.sync_ql.specs.Selection.{candidate, choice};
ghost use Rattle.sync_ql.specs.Level.{do_not_use_of};
ghost use Rattle.sync_ql.specs.Moment.{at_end};
ghost use Rattle.sync_ql.specs.Output.{bundle_of, goes_back, mode_of, state_of};
ghost use Rattle.sync_element.specs.Configured.{settings_of};

use crate::config::Config;
use operator_cmds::Cmds;
use selector::Table;
use sync_ql::limits::LAST_MILLISECOND;
use sync_ql::rules::{Candidate, ClockState, Mode};
use sync_ql::{Level, do_not_use};

/// Chooses an input, and ends a manual switch that does not stand.
pub(crate) fn evaluate(table: &Table, commands: &mut Cmds, taken: Option<u32>) -> Option<u32>
    requires locked_length { length commands.old.locked ≡ length table.now }
    requires taken_place { IfSome taken (λ i. i < length table.now) }
    ensures input { result ≡
        choice table.now commands.new.forced commands.new.manual taken }
    ensures switches { commands.new ≡ at_end table.now commands.old }
    ensures place { IfSome result (λ i. i < length table.now) }
{
    let choice = table.choose(commands.forced(), commands.manual(), taken);
    if !choice.manual_stands {
        commands.drop_manual();
    }
    choice.input
}

/// The number of steps after the first, where there is one more.
pub(crate) fn steps_after(next: u64, later_steps: u64) -> u64
    requires few { later_steps ≤ next }
    requires in_range { next ≤ LAST_MILLISECOND + 1 }
    ensures { result ≡ (if nat_eq next 0 then 0 else later_steps + 1) }
{
    if next == 0 { 0 } else { later_steps + 1 }
}

/// Whether an input is taken, or was earlier.
pub(crate) fn was_ever_locked(selected: Option<u32>, earlier: bool) -> bool
    ensures { result ≡ (is_some selected || earlier) }
{
    selected.is_some() || earlier
}

/// The level of the input that is taken, or that of the own clock without one.
pub(crate) fn level_of(inputs: &[Candidate], selected: Option<u32>, own: Level) -> Level
    requires place { IfSome selected (λ i. i < length inputs.now) }
    ensures { result ≡
        unwrap_or (option_and_then (λ i. (candidate inputs.now i).level) selected) own }
{
    match selected {
        Some(i) => match inputs[i as usize].level {
            Some(level) => level,
            None => own,
        },
        None => own,
    }
}

/// Do-not-use on each input of the bundle from which the timing comes, and the element's level on any
/// other.
pub(crate) fn level_back(config: &Config, selected: Option<u32>, input: u32, level: Level) -> Level
    requires selected { IfSome selected (λ taken. taken < length config.now.inputs) }
    requires place { input < length config.now.inputs }
    ensures { result ≡ (if goes_back (settings_of config.now) selected input
        then do_not_use_of config.now.own.option else level) }
{
    if goes_back(config, selected, input) {
        do_not_use(config.own.option)
    } else {
        level
    }
}

/// Whether what is sent back on an input goes back to where the timing comes from.
fn goes_back(config: &Config, selected: Option<u32>, i: u32) -> bool
    requires selected { IfSome selected (λ taken. taken < length config.now.inputs) }
    requires place { i < length config.now.inputs }
    ensures { result ≡ goes_back (settings_of config.now) selected i }
{
    match selected {
        Some(selected) => bundle_of(config, selected) == bundle_of(config, i),
        None => false,
    }
}

fn bundle_of(config: &Config, i: u32) -> u32
    requires { i < length config.now.inputs }
    ensures { result ≡ bundle_of (settings_of config.now) i }
{
    config.inputs.as_slice()[i as usize].bundle
}

pub(crate) fn mode_of(forced: Option<u32>, manual: Option<u32>) -> Mode
    ensures { result ≡ mode_of forced manual }
{
    match (forced, manual) {
        (Some(_), _) => Mode::Forced,
        (None, Some(_)) => Mode::Manual,
        (None, None) => Mode::Auto,
    }
}

pub(crate) fn state_of(selected: Option<u32>, was_locked: bool) -> ClockState
    ensures { result ≡ state_of selected was_locked }
{
    match (selected, was_locked) {
        (Some(_), _) => ClockState::Locked,
        (None, true) => ClockState::Holdover,
        (None, false) => ClockState::FreeRun,
    }
}
