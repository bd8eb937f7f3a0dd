//! What the choice looks at in an input, renewed only where it changes.

ghost use Rattle.std.specs.Prelude.{◌≡◌, ◌<◌, ℕ, IsTrue, length, slice_set};
ghost use Rattle.sync_ql.specs.Selection.{candidate, SameOption};

use selector::Table;
use sync_ql::is_same_heard;
use sync_ql::rules::Candidate;

/// Sets a candidate in the table, unless it is there already.
pub(crate) fn set_if_other(table: &mut Table, input: u32, to: Candidate)
    requires place { input < length table.old }
    requires one_option { (k : ℕ) → SameOption to.level (candidate table.old k).level }
    ensures { table.new ≡ slice_set table.old input to }
{
    if is_same(table.inputs()[input as usize], to) {
        return;
    }
    table.set(input, to);
}

fn is_same(one: Candidate, other: Candidate) -> bool
    ensures { IsTrue result → one ≡ other }
{
    if one.priority != other.priority || one.usable != other.usable {
        return false;
    }
    is_same_heard(one.level, other.level)
}
