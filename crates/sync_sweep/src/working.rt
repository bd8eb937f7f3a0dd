//! One case on a branch, which goes back.

ghost use Rattle.std.specs.Prelude.{IfOk, OnOk};
ghost use Rattle.sync_sweep.specs.private.AtBase.{IsAtBase};
ghost use Rattle.sync_sweep.specs.private.Study.{IsStudy, IsCaseOf};
ghost use Rattle.sync_sweep.specs.private.Working.{IsCaseWorked};

use crate::branch::{Branch, go_back};
use crate::cases::{before_own, run_last, told_of};
use crate::common::Study;
use crate::on_way::OnWay;
use crate::outcomes::{Outcome, bound_after, outcome_of};
use crate::running::run_case;
use crate::timer::Timer;
use std::alloc::Global;
use sync_text::NoMemory;
use sync_topo::Case;
use timings::Timing;

/// What becomes of a network in a case, its timing where a timer tells it, and what the case costs on the way.
#[derive(Clone, Copy, Debug, PartialEq, Eq, Drop)]
pub struct Worked {
    pub outcome: Outcome,
    pub timing: Timing,
    pub way: OnWay,
}

/// What becomes of the network in a case of a study, on a branch that goes back.
pub(crate) fn case_worked<T: Timer>(
    alloc: Global,
    study: &Study<'_, '_>,
    branch: &mut Branch<'_>,
    timer: &mut T,
    case: &Case,
) -> Result<Worked, NoMemory>
    requires study { IsStudy study.now }
    requires case { IsCaseOf study.now case.now }
    requires branch { IsAtBase study.now.base.now branch.old }
    requires timer { T.IsTimer study.now.base.now timer.old }
    ensures worked { IfOk result (IsCaseWorked T.IsTold study.now.base.now.plan study.now.common.now study.now.until case.now) }
    ensures branch { OnOk result (IsAtBase study.now.base.now branch.new) }
    ensures timer { OnOk result (T.IsTimer study.now.base.now timer.new) }
{
    let _elements = study.base.plan().elements();
    let own = case.events.as_slice();
    let until = study.until;
    let events = told_of(alloc, study.common, own, study.from, until)?;
    let before = before_own(own, until);
    let way = run_case(branch, study.from, events.as_slice(), before, until)?;
    let last = run_last(study.common, own, until);
    let bound = bound_after(study.bound, until, last);
    let outcome = outcome_of(alloc, &branch.net, &branch.shown, last, bound)?;
    let places = branch.touched.elements.listed();
    let timing = timer.tell(alloc, study.base, &branch.net, places)?;
    go_back(alloc, branch, study.base)?;
    Ok(Worked {
        outcome,
        timing,
        way,
    })
}
