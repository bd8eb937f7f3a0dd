//! The rows of the longest chains.

ghost use Rattle.std.specs.Prelude.{◌≡◌, ◌++◌, ◌<◌, length, IfOk, OnOk};
ghost use Rattle.plan_texts.specs.Chains.{numbers_text, chains_row, chains_text};

use cycle_plan::Chains;
use reach_rules::Chain;
use std::alloc::Global;
use sync_text::{NoMemory, Text};
use sync_topo::Plan;

/// Puts the three numbers of a row.
fn put_numbers(text: &mut Text, row: Chain) -> Result<(), NoMemory>
    ensures { OnOk result (text.new ≡ text.old ++ numbers_text row) }
{
    text.put(b",")?;
    text.put_number(row.links)?;
    text.put(b",")?;
    text.put_number(row.since)?;
    text.put(b",")?;
    text.put_number(row.clocks)?;
    text.put(b"\n")
}

/// Puts the row of an element.
fn put_row(text: &mut Text, plan: &Plan, chains: &Chains, element: u32) -> Result<(), NoMemory>
    requires within { element < length plan.now.elements }
    requires counted { length chains.now ≡ length plan.now.elements }
    ensures { OnOk result (text.new ≡ text.old ++ chains_row plan.now chains.now element) }
{
    text.put(plan.element(element).name.bytes())?;
    put_numbers(text, chains.of(element))
}

/// The rows of the longest chains of a plan, a row for each element in order: its name, the links of the
/// chain, those since its last clock that filters, and how many of these it has.
///
/// The first row is `element,links,since,clocks`. This project's own.
pub fn chains_text(alloc: Global, plan: &Plan, chains: &Chains) -> Result<Text, NoMemory>
    requires { length chains.now ≡ length plan.now.elements }
    ensures { IfOk result (λ text. text ≡ chains_text plan.now chains.now) }
{
    let mut text = Text::new(alloc);
    text.put(b"element,links,since,clocks\n")?;
    for element in 0..plan.elements() {
        put_row(&mut text, plan, chains, element)?;
    }
    Ok(text)
}
