//! What a row says in numbers and level names.

ghost use Rattle.std.specs.Prelude.{◌≡◌, ◌≤◌, IfSome, is_none, option_and_then};
ghost use Rattle.sync_topo.specs.RowValues.{number_or, clock_level, default_own};
ghost use Rattle.sync_topo.specs.Rules.{is_outside};
ghost use Rattle.sync_topo.specs.WellFormed.{IsClockLevel};

use sync_ql::{Level, NetOption, better, do_not_use, level_of_name};
use sync_text::Text;

/// The number that a row gives, or the default where it gives none.
///
/// `None` where the number is outside its limits.
pub(crate) fn number_within(given: Option<i64>, default: u32, low: u32, high: u32) -> Option<u32>
    requires low { low ≤ default }
    requires high { default ≤ high }
    ensures none { is_none result ≡ is_outside low high given }
    ensures value { IfSome result (λ number. number ≡ number_or default given) }
    ensures low { IfSome result (λ number. low ≤ number) }
    ensures high { IfSome result (λ number. number ≤ high) }
{
    let Some(number) = given else {
        return Some(default);
    };
    match u32::try_from(number) {
        Ok(number) if low <= number && number <= high => Some(number),
        _ => None,
    }
}

/// The priority that a row gives, or the default where it gives none.
///
/// `None` where it isn't 0 to 255.
pub(crate) fn priority_within(given: Option<i64>, default: u8) -> Option<u8>
    ensures none { is_none result ≡ is_outside 0 255 given }
    ensures value { IfSome result (λ number. number ≡ number_or default given) }
{
    match given {
        None => Some(default),
        Some(number) => u8::try_from(number).ok(),
    }
}

/// The level that a row names for a clock or a floor.
///
/// `None` where it names none, and where no level of the option but do-not-use has the name.
pub(crate) fn level_given(option: NetOption, given: &Option<Text>) -> Option<Level>
    ensures level { result ≡ option_and_then (clock_level option) given.now }
    ensures clock_level { IfSome result (IsClockLevel option) }
{
    match given {
        Some(name) => clock_level(option, name.bytes()),
        None => None,
    }
}

/// The level of a name that a clock or a floor may have: every level of the option but do-not-use.
fn clock_level(option: NetOption, name: &[u8]) -> Option<Level>
    ensures level { result ≡ clock_level option name.now }
    ensures clock_level { IfSome result (IsClockLevel option) }
{
    let level = level_of_name(option, name)?;
    if better(level, do_not_use(option)) {
        Some(level)
    } else {
        None
    }
}

/// The level of the clock of an element that names none: QL-SEC in option I, QL-ST3 in option II.
pub(crate) fn default_own(option: NetOption) -> Level
    ensures level { result ≡ default_own option }
    ensures clock_level { IsClockLevel option result }
{
    let name = match option {
        NetOption::I => "QL-SEC",
        NetOption::II => "QL-ST3",
    };
    match level_of_name(option, name.as_bytes()) {
        Some(level) => level,
        None => do_not_use(option),
    }
}
