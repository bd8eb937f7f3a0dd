ghost use Rattle.std.specs.Prelude.{IfOk};
ghost use Rattle.sync_top.specs.Forms.Groups.{IsGroupsReply, IsGroupsText};
ghost use Rattle.sync_top.specs.Forms.Protect.{IsProtectingText};
ghost use Rattle.sync_top.specs.Forms.Protected.{IsProtectedText};
ghost use Rattle.sync_top.specs.private.Work.{ends_in};

use crate::found::{Finding, Found, done, refuted};
use crate::reply::numbered_refusal;
use crate::written::plan_text;
use group_file::read_groups;
use plan_texts::{gaps_text, line_text};
use protection::{Group, Protected, protect, protected, protected_with};
use std::alloc::Global;
use sync_text::{NoAnswer, NoMemory, Rows};
use sync_topo::Plan;

/// What is found of a plan: that it is protected, or whom each failure cuts off that needn't be.
pub(crate) fn gaps_found(alloc: Global, plan: &Plan) -> Result<Found, NoMemory>
    ensures { IfOk result (λ found. IsProtectedText plan.now (ends_in found.finding) found.text) }
{
    let gaps = protected(alloc, plan)?;
    if gaps.as_slice().is_empty() {
        return Ok(done(line_text(alloc, b"protected")?));
    }
    Ok(refuted(gaps_text(alloc, plan, gaps.as_slice())?))
}

/// What is found of the bytes of groups of parts that fail together: that the plan is protected with
/// them, or whom each failure and each group cuts off that needn't be; or the line on why they are
/// refused.
pub(crate) fn groups_found(alloc: Global, plan: &Plan, bytes: &[u8]) -> Result<Found, NoMemory>
    ensures { IfOk result (λ found. IsGroupsReply plan.now bytes.now (ends_in found.finding) found.text) }
{
    match read_groups(alloc, plan, bytes) {
        Ok(groups) => gaps_found_with(alloc, plan, groups),
        Err(NoAnswer::NoMemory) => Err(NoMemory),
        Err(NoAnswer::Refused(refused)) => {
            let (number, row) = refused.numbers();
            Ok(Found {
                finding: Finding::BadEvents,
                text: numbered_refusal(alloc, b"bad groups ", number, row, None)?,
            })
        }
    }
}

/// What is found of a plan and groups of parts that fail together.
fn gaps_found_with(alloc: Global, plan: &Plan, groups: Rows<Group>) -> Result<Found, NoMemory>
    ensures { IfOk result (λ found. IsGroupsText plan.now groups (ends_in found.finding) found.text) }
{
    let gaps = protected_with(alloc, plan, groups)?;
    if gaps.as_slice().is_empty() {
        return Ok(done(line_text(alloc, b"protected")?));
    }
    Ok(refuted(gaps_text(alloc, plan, gaps.as_slice())?))
}

/// What is found for a plan: the text of the plan with priorities by which no single failure cuts
/// anybody off, or whom failures cut off in the plan that is found.
pub(crate) fn protected_plan(alloc: Global, plan: &Plan) -> Result<Found, NoMemory>
    ensures { IfOk result (λ found. IsProtectingText plan.now (ends_in found.finding) found.text) }
{
    match protect(alloc, plan)? {
        Protected::Plan(found) => Ok(done(plan_text(alloc, &found)?)),
        Protected::Gaps(gaps) => Ok(refuted(gaps_text(alloc, plan, gaps.as_slice())?)),
    }
}
