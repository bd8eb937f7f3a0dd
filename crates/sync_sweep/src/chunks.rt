//! What becomes of the network in some cases, one after another, and what parts give, joined.

ghost use Rattle.std.specs.Prelude.{◌≡◌, ◌++◌, Some, IfOk, OnOk};
ghost use Rattle.sync_sweep.specs.private.Chunks.{joined};
ghost use Rattle.sync_sweep.specs.private.Study.{IsStudy, AreCasesOf};
ghost use Rattle.sync_sweep.specs.private.Working.{AreWorked};

use crate::branch::new_branch;
use crate::common::Study;
use crate::timer::Timer;
use crate::working::{Worked, case_worked};
use std::alloc::Global;
use sync_text::{NoMemory, Rows};
use sync_topo::Case;

/// What becomes of the network in some cases of a study.
pub(crate) fn worked_in<T: Timer>(
    alloc: Global,
    study: &Study<'_, '_>,
    cases: &[Case],
) -> Result<Rows<Worked>, NoMemory>
    requires study { IsStudy study.now }
    requires cases { AreCasesOf study.now cases.now }
    ensures worked { IfOk result (AreWorked T.IsTold study.now.base.now.plan study.now.common.now study.now.until cases.now) }
{
    let mut worked = Rows::new(alloc);
    let mut branch = new_branch(alloc, study.base)?;
    let mut timer = T::new(alloc, study.base)?;
    for case in cases {
        let one = case_worked(alloc, study, &mut branch, &mut timer, case)?;
        worked.push(one)?;
    }
    Ok(worked)
}

/// What all parts give in order, unless out of memory for one.
pub(crate) fn join_worked(
    alloc: Global,
    parts: &[Result<Rows<Worked>, NoMemory>],
) -> Result<Rows<Worked>, NoMemory>
    ensures { IfOk result (λ worked. joined parts.now ≡ Some worked) }
{
    let mut worked = Rows::new(alloc);
    for part in parts {
        match part {
            Ok(part) => put_all(&mut worked, part.as_slice())?,
            Err(_) => return Err(NoMemory),
        }
    }
    Ok(worked)
}

/// Puts what a part gives at the end of others.
fn put_all(worked: &mut Rows<Worked>, more: &[Worked]) -> Result<(), NoMemory>
    ensures { OnOk result (worked.new ≡ worked.old ++ more.now) }
{
    for one in more {
        worked.push(*one)?;
    }
    Ok(())
}
