//! The table of a study.

ghost use Rattle.std.specs.Prelude.{◌≡◌, ◌++◌, ◌<◌, length, IfOk, IfSome, OnOk};
ghost use Rattle.std.specs.List.{All};
ghost use Rattle.sync_sweep.specs.Study.{IsOfPlan};
ghost use Rattle.sync_sweep.specs.StudyText.{case_text, first_word, study_text, timed_text, timing_text, way_text};

use crate::on_way::OnWay;
use crate::studying::StudyRow;
use crate::table::put_results;
use std::alloc::Global;
use sync_text::{NoMemory, Text};
use sync_topo::Plan;
use timings::Timing;

/// The rows of a study over a plan, as text: a head, and then a row for each case with its name, what
/// a row of a sweep says of a network, how many elements have no timing from a source, the name of the
/// first of these or nothing, the lines of the longest trace that ends, and what the case costs on the
/// way: how many elements are worse than before in some millisecond, the most milliseconds in which one
/// is, the name of the first such element or nothing, and how many are at the end.
///
/// There are as many names as rows, and the elements are of this plan. `NoMemory` comes for want of
/// memory alone. This project's own.
pub fn study_text(
    alloc: Global,
    plan: &Plan,
    names: &[Text],
    rows: &[StudyRow],
) -> Result<Text, NoMemory>
    requires names { length names.now ≡ length rows.now }
    requires of_plan { All (IsOfPlan plan.now) rows.now }
    ensures text { IfOk result (λ text. text ≡ study_text plan.now names.now rows.now) }
{
    let mut text = Text::new(alloc);
    text.put(
        b"case,settled,locked,holdover,freerun,loops,worst,bound,lost,first,longest,hurt,dark,darkest,still\n",
    )?;
    for (place, row) in rows.iter().enumerate() {
        put_case(&mut text, plan, &names[place], row)?;
    }
    Ok(text)
}

/// Puts the row of a case.
fn put_case(text: &mut Text, plan: &Plan, name: &Text, row: &StudyRow) -> Result<(), NoMemory>
    requires of_plan { IsOfPlan plan.now row.now }
    ensures put { OnOk result (text.new ≡ text.old ++ case_text plan.now name.now row.now) }
{
    text.put(name.bytes())?;
    text.put(b",")?;
    put_results(text, &row.outcome)?;
    text.put(b",")?;
    put_timed(text, plan, row)?;
    text.put(b"\n")
}

/// Puts whence the elements have their timing, and what the case costs on the way.
#[tactic(auto, unfolding(crate::specs::StudyText::timed_text))]
fn put_timed(text: &mut Text, plan: &Plan, row: &StudyRow) -> Result<(), NoMemory>
    requires of_plan { IsOfPlan plan.now row.now }
    ensures put { OnOk result (text.new ≡ text.old ++ timed_text plan.now row.now) }
{
    put_timing(text, plan, &row.timing)?;
    text.put(b",")?;
    put_way(text, plan, &row.way)
}

/// Puts whence the elements have their timing.
fn put_timing(text: &mut Text, plan: &Plan, timing: &Timing) -> Result<(), NoMemory>
    requires of_plan { IfSome timing.now.first (λ element. element < length plan.now.elements) }
    ensures put { OnOk result (text.new ≡ text.old ++ timing_text plan.now timing.now) }
{
    text.put_number(u64::from(timing.lost))?;
    text.put(b",")?;
    put_first(text, plan, timing.first)?;
    text.put(b",")?;
    text.put_number(u64::from(timing.longest))
}

/// Puts what a case costs on the way.
fn put_way(text: &mut Text, plan: &Plan, way: &OnWay) -> Result<(), NoMemory>
    requires of_plan { IfSome way.now.darkest (λ element. element < length plan.now.elements) }
    ensures put { OnOk result (text.new ≡ text.old ++ way_text plan.now way.now) }
{
    text.put_number(u64::from(way.hurt))?;
    text.put(b",")?;
    text.put_number(way.dark)?;
    text.put(b",")?;
    put_first(text, plan, way.darkest)?;
    text.put(b",")?;
    text.put_number(u64::from(way.still))
}

/// Puts the name of an element, where there is one.
fn put_first(text: &mut Text, plan: &Plan, first: Option<u32>) -> Result<(), NoMemory>
    requires of_plan { IfSome first (λ element. element < length plan.now.elements) }
    ensures put { OnOk result (text.new ≡ text.old ++ first_word plan.now first) }
{
    match first {
        Some(element) => text.put(plan.element(element).name.bytes()),
        None => Ok(()),
    }
}
