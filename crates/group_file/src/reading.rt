// The groups of a text.

ghost use Rattle.std.specs.Prelude.{◌≡◌, false, [], ◌∷◌};
ghost use Rattle.group_file.specs.GroupText.{groups_of, groups_of_rows, is_header};
ghost use Rattle.sync_text.specs.Gives.{Gives};

use crate::error::GroupErr;
use crate::progress::{GroupsSoFar, three_of};
use csv_records::{Record, Records};
use reach_rules::Group;
use std::alloc::Global;
use sync_text::{NoAnswer, Rows};
use sync_topo::Plan;

/// The groups of a text over a plan, in the order in which they stand.
///
/// The records are comma-separated fields. The first is `group,kind,part`; each row after it has the
/// name of a group, one of the words `link`, `source` and `element`, and the name of a part of that
/// kind. The rows of a group stand together, and no part stands twice in it. The refusal is the first
/// broken rule: `Header`, then for each row in order `Limit` at row 100,001, or at row 5,000,001 where
/// the plan is large, `Fields`, `Name`, `Apart`, `Kind` or `Part`. Rows are read one after another, so a
/// text that is wrong at its start is refused in little memory. This project's own.
pub fn read_groups(
    alloc: Global,
    plan: &Plan,
    bytes: &[u8],
) -> Result<Rows<Group>, NoAnswer<GroupErr>>
    ensures exact { Gives result (groups_of plan.now bytes.now) }
{
    let mut records = Records::of(alloc, bytes);
    if !records.advance()? || !is_header(records.taken()) {
        return Err(NoAnswer::Refused(GroupErr::Header));
    }
    take_rows(alloc, plan, &mut records)
}

/// The record is the header `group,kind,part`.
fn is_header(first: &Record) -> bool
    ensures { result ≡ is_header first.now }
{
    match three_of(first) {
        Some((group, kind, part)) => are_headings(group, kind, part),
        None => false,
    }
}

/// The fields are those of the header.
fn are_headings(group: &[u8], kind: &[u8], part: &[u8]) -> bool
    ensures { result ≡ is_header (group.now ∷ kind.now ∷ part.now ∷ []) }
{
    group == b"group".as_slice() && kind == b"kind".as_slice() && part == b"part".as_slice()
}

/// The groups of all rows that are left.
fn take_rows(
    alloc: Global,
    plan: &Plan,
    records: &mut Records<'_>,
) -> Result<Rows<Group>, NoAnswer<GroupErr>>
    requires { records.old.spent ≡ false }
    ensures { Gives result (groups_of_rows plan.now records.old.left) }
{
    let mut kept = GroupsSoFar::new(alloc, plan)?;
    while records.advance()? {
        match kept.take_row(alloc, plan, records.taken()) {
            Ok(()) => {}
            Err(error) => return Err(error),
        }
    }
    let groups = kept.finish(alloc)?;
    Ok(groups)
}
