//! The words of a report.

ghost use Rattle.std.specs.Prelude.{◌≡◌};
ghost use Rattle.trace_report.specs.Words.{condition_word, left_of};

use sync_ql::rules::Cond;

/// The condition of an input.
pub(crate) fn condition_word(condition: Cond) -> &'static [u8]
    ensures { result.now ≡ condition_word condition }
{
    match condition {
        Cond::Good => b"good",
        Cond::HoldOff(_) => b"holdoff",
        Cond::Failed => b"failed",
        Cond::Restoring(_) => b"restoring",
    }
}

/// How many milliseconds are left of it, and 0 where it doesn't end by itself.
pub(crate) fn left_of(condition: Cond) -> u64
    ensures { result ≡ left_of condition }
{
    match condition {
        Cond::HoldOff(left) | Cond::Restoring(left) => u64::from(left),
        Cond::Good | Cond::Failed => 0,
    }
}
