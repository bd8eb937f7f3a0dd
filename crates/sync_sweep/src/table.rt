//! The table of a sweep.

ghost use Rattle.std.specs.Prelude.{◌≡◌, ◌++◌, ◌<◌, length, IfOk, OnOk};
ghost use Rattle.std.specs.List.{All};
ghost use Rattle.sync_ql.specs.Level.{name_of as level_name};
ghost use Rattle.sync_sweep.specs.SweepText.{bound_word, counts_text, link_name, results_text, row_text, settled_word, table_text};

use crate::outcomes::Outcome;
use crate::row::SweepRow;
use std::alloc::Global;
use sync_ql::{Level, name_of};
use sync_text::{NoMemory, Rows, Text};
use sync_topo::Plan;

/// The rows of a sweep over a plan, as text: a head, and then a row for each link with its name,
/// whether it is settled, the numbers of elements in each state and of closed walks, the worst
/// level, and the settling bound or `none`.
///
/// The rows are of links of this plan. `NoMemory` comes only when out of memory. This project's own.
pub fn sweep_text(alloc: Global, plan: &Plan, rows: &Rows<SweepRow>) -> Result<Text, NoMemory>
    requires of_plan { All (λ row. row.link < length plan.now.links) rows.now }
    ensures text { IfOk result (λ text. text ≡ table_text plan.now rows.now) }
{
    let mut text = Text::new(alloc);
    text.put(b"link,settled,locked,holdover,freerun,loops,worst,bound\n")?;
    for row in rows.as_slice() {
        put_row(&mut text, plan, row)?;
    }
    Ok(text)
}

/// Puts one row.
fn put_row(text: &mut Text, plan: &Plan, row: &SweepRow) -> Result<(), NoMemory>
    requires of_plan { row.now.link < length plan.now.links }
    ensures put { OnOk result (text.new ≡ text.old ++ row_text plan.now row.now) }
{
    text.put(link_name(plan, row.link))?;
    text.put(b",")?;
    put_results(text, &row.outcome)?;
    text.put(b"\n")
}

/// The name of a link.
fn link_name(plan: &Plan, link: u32) -> &[u8]
    requires of_plan { link < length plan.now.links }
    ensures { result.now ≡ link_name plan.now link }
{
    plan.link(link).name.bytes()
}

/// Puts what becomes of a network.
pub(crate) fn put_results(text: &mut Text, outcome: &Outcome) -> Result<(), NoMemory>
    ensures put { OnOk result (text.new ≡ text.old ++ results_text outcome.now) }
{
    text.put(settled_word(outcome.settled))?;
    text.put(b",")?;
    put_counts(text, outcome)?;
    text.put(b",")?;
    put_level(text, outcome.worst)?;
    text.put(b",")?;
    put_bound(text, outcome.bound)
}

/// Puts the name of a level.
fn put_level(text: &mut Text, level: Level) -> Result<(), NoMemory>
    ensures put { OnOk result (text.new ≡ text.old ++ level_name level) }
{
    text.put(name_of(level).as_bytes())
}

/// Puts how many elements are in each state, and how many closed walks there are.
fn put_counts(text: &mut Text, outcome: &Outcome) -> Result<(), NoMemory>
    ensures put { OnOk result (text.new ≡ text.old ++ counts_text outcome.now) }
{
    text.put_number(u64::from(outcome.locked))?;
    text.put(b",")?;
    text.put_number(u64::from(outcome.holdover))?;
    text.put(b",")?;
    text.put_number(u64::from(outcome.free))?;
    text.put(b",")?;
    text.put_number(u64::from(outcome.loops))
}

/// Puts the settling bound, or that there is none.
fn put_bound(text: &mut Text, bound: Option<u64>) -> Result<(), NoMemory>
    ensures put { OnOk result (text.new ≡ text.old ++ bound_word bound) }
{
    match bound {
        Some(bound) => text.put_number(bound),
        None => text.put(b"none"),
    }
}

/// Whether a row is settled, in a word.
fn settled_word(settled: bool) -> &'static [u8]
    ensures { result.now ≡ settled_word settled }
{
    if settled { b"yes" } else { b"no" }
}
